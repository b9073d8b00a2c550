//! The identifier of a file that begins at an offset, with its spot and the locals that are open there.
ghost use Rattle.std.specs.Prelude.{◌≡◌, ◌++◌, false, Some, IfOk};
ghost use Rattle.std.specs.Option.{option_map};
ghost use Rattle.go_tree_nodes.specs.Shapes.{shape_value_specs, shape_type_specs, func_of, decl_of, file_of};
ghost use Rattle.go_tree_nodes.specs.Trees.{of_specs};
ghost use Rattle.go_cursor_core.specs.Shown.{found_shown, used_shown};
ghost use Rattle.go_cursor_core.specs.Used.{first_used, spec_used, type_used};
ghost use Rattle.go_cursor_core.specs.Opened.{decl_names, file_names, first_name, file_name, in_func, outside, func_opened, first_open};
ghost use Rattle.go_cursor_core.specs.Spots.{spot_seen};

use crate::pieces::in_spec;
use crate::search::Search;
use crate::spot::{FoundSpot, UsedName};
use crate::types::in_type;
use crate::walk::{pass_header, pass_lines};
use go_tree_nodes::{Decl, File, FuncDecl, TopDecl, TypeSpecs, ValueSpecs};
use std::alloc::{AllocError, Global};

// The identifier of a declaration of constants or variables outside functions.
fn in_value_specs(specs: &ValueSpecs, start: usize) -> Option<UsedName<'_>>
    ensures { found_shown result ≡ first_used start (of_specs spec_used (shape_value_specs specs.now)) }
{
    match specs {
        ValueSpecs::One(spec) => in_spec(spec, start),
        ValueSpecs::Group(_, lines, _) => {
            for line in lines {
                let found = in_spec(&line.spec, start);
                if found.is_some() {
                    return found;
                }
            }
            None
        }
    }
}

// The identifier of a declaration of types.
fn in_type_specs(specs: &TypeSpecs, start: usize) -> Option<UsedName<'_>>
    ensures { found_shown result ≡ first_used start (of_specs (λ s. type_used s.type_expr) (shape_type_specs specs.now)) }
{
    match specs {
        TypeSpecs::One(spec) => in_type(&spec.type_expr, start),
        TypeSpecs::Group(_, lines, _) => {
            for line in lines {
                let found = in_type(&line.spec.type_expr, start);
                if found.is_some() {
                    return found;
                }
            }
            None
        }
    }
}

// What is found outside functions, where no local is open.
fn outside_functions(alloc: Global, found: Option<UsedName<'_>>) -> Option<FoundSpot<'_>>
    ensures { option_map spot_seen result ≡ option_map outside (found_shown found.entry) }
{
    match found {
        None => None,
        Some(used) => Some(FoundSpot {
            ident: used.ident,
            spot: used.spot,
            open: Vec::new(alloc),
            func: None,
        }),
    }
}

// What a search through a function has come to.
fn outcome<'t>(search: Search<'t>, func: &'t FuncDecl) -> Result<Option<FoundSpot<'t>>, AllocError>
    ensures { IfOk result (λ found. (search.entry.lacks_memory ≡ false) × (option_map spot_seen found ≡ option_map (λ u. file_name (used_shown u) (search.entry.names.outer ++ search.entry.names.block) (Some (func_of func.now))) search.entry.found)) }
{
    if search.lacks_memory {
        return Err(AllocError);
    }
    let Search { names, found, .. } = search;
    match found {
        None => Ok(None),
        Some(used) => Ok(Some(FoundSpot {
            ident: used.ident,
            spot: used.spot,
            open: names.into_list(),
            func: Some(func),
        })),
    }
}

// The identifier of a function.
fn spot_in_func(
    alloc: Global,
    func: &FuncDecl,
    start: usize,
) -> Result<Option<FoundSpot<'_>>, AllocError>
    ensures { IfOk result (λ found. option_map spot_seen found ≡ option_map (in_func (func_of func.now)) (first_open start (func_opened (func_of func.now)))) }
{
    let mut search = Search::begin(alloc, start);
    pass_header(func, &mut search);
    pass_lines(&func.body, &mut search);
    outcome(search, func)
}

// The identifier of a declaration of the package block.
fn spot_in_decl(
    alloc: Global,
    decl: &Decl,
    start: usize,
) -> Result<Option<FoundSpot<'_>>, AllocError>
    ensures { IfOk result (λ found. option_map spot_seen found ≡ first_name start (decl_names (decl_of decl.now))) }
{
    match decl {
        Decl::Value(value) => Ok(outside_functions(alloc, in_value_specs(&value.specs, start))),
        Decl::Type(types) => Ok(outside_functions(alloc, in_type_specs(&types.specs, start))),
        Decl::Func(func) => spot_in_func(alloc, func, start),
    }
}

/// The identifier of a file that is used and begins at an offset, in bytes: the spot where it stands, the locals that are open
/// there, and the function around it. `None` where no identifier that is used begins there.
///
/// # Errors
///
/// [`AllocError`] where memory runs out.
pub fn spot_in_file(
    alloc: Global,
    file: &File,
    start: usize,
) -> Result<Option<FoundSpot<'_>>, AllocError>
    ensures { IfOk result (λ found. option_map spot_seen found ≡ first_name start (file_names (file_of file.now))) }
{
    for top in &file.decls {
        let found = spot_in_decl(alloc, &top.decl, start)?;
        if found.is_some() {
            return Ok(found);
        }
    }
    Ok(None)
}
