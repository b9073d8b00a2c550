//! Parameters of the methods of interface types that repeat a name.

ghost use Rattle.std.specs.Prelude.{◌≡◌, ◌++◌, ◌∷◌, [], false, not, ◌&&◌, map, IfOk, OnOk, if◌then◌else◌};
ghost use Rattle.go_tree_nodes.specs.text_core.Text.{is_blank};
ghost use Rattle.go_tree_nodes.specs.TypeShapes.{shape_type, shape_signature, shape_results, fields_of, methods_of, params_of};
ghost use Rattle.go_term_core.specs.settling.Settled.{repeats_earlier};
ghost use Rattle.go_names_core.specs.local_core.Faults.{ident_fault};
ghost use Rattle.go_names_core.specs.local_core.Outline.{signature_idents};
ghost use Rattle.go_inline_core.specs.Inline as inline;
ghost use Rattle.go_inline_core.specs.mirrors.Listing.{Breaks};
ghost use Rattle.go_inline_core.specs.mirrors.Names.{names_of, field_repeated};
ghost use Rattle.go_embed_core.specs.mirrors.Passing.{SameNames};

use go_names_core::local_core::Fault;
use go_names_core::signature_idents;
use go_term_core::settling::SeenNames;
use go_tree_nodes::text_core::{Rule, add};
use go_tree_nodes::{FieldLine, Fields, Ident, MethodLine, Param, Results, Signature, TypeExpr};
use std::alloc::{AllocError, Global};

/// The faults that were found so far, and whether memory was wanting: then those behind are left out.
#[derive(Drop)]
pub(crate) struct FaultList {
    pub(crate) faults: Vec<Fault>,
    pub(crate) lacks_memory: bool,
}

// Whether a name that is among earlier ones, or not, repeats one of them.
fn is_repeated(name: &str, is_met: bool) -> bool
    ensures { result ≡ not (is_blank name.now) && is_met }
{
    name != "_" && is_met
}

// Notes a fault at an identifier, where there is one.
fn note_if(ident: &Ident, is_fault: bool, faults: &mut Vec<Fault>) -> Result<(), AllocError>
    ensures { OnOk result (faults.new.items ≡ faults.old.items ++ (if is_fault then ident_fault ident.now Rule.B1 ∷ [] else [])) }
{
    if !is_fault {
        return Ok(());
    }
    add(
        faults,
        Fault {
            offset: ident.span.start as usize,
            rule: Rule::B1,
        },
    )
}

// Passes an identifier, which breaks a rule where it repeats a name.
fn pass<'a>(
    ident: &'a Ident,
    seen: &mut SeenNames<'a>,
    faults: &mut Vec<Fault>,
) -> Result<(), AllocError>
    ensures names { OnOk result (SameNames seen.new (ident.now.name ∷ seen.old)) }
    ensures faults { OnOk result (faults.new.items ≡ faults.old.items ++ (if repeats_earlier seen.old ident.now.name then ident_fault ident.now Rule.B1 ∷ [] else [])) }
{
    let is_new = seen.add(ident.name.as_str())?;
    note_if(ident, is_repeated(ident.name.as_str(), !is_new), faults)
}

// Adds the faults of identifiers that repeat earlier ones.
fn add_repeated<'a>(
    alloc: Global,
    idents: &[&'a Ident],
    faults: &mut Vec<Fault>,
) -> Result<(), AllocError>
    ensures { OnOk result (faults.new.items ≡ faults.old.items ++ inline.repeat_faults [] (names_of idents.now)) }
{
    let mut seen = SeenNames::new(alloc);
    for ident in idents {
        pass(ident, &mut seen, faults)?;
    }
    Ok(())
}

// Adds the faults of the names of a signature.
fn add_signature_names(
    alloc: Global,
    signature: &Signature,
    faults: &mut Vec<Fault>,
) -> Result<(), AllocError>
    ensures { OnOk result (faults.new.items ≡ faults.old.items ++ inline.repeat_faults [] (signature_idents (shape_signature signature.now))) }
{
    let list = signature_idents(alloc, signature)?;
    add_repeated(alloc, list.as_slice(), faults)
}

// The names of a signature.
fn check_names(alloc: Global, signature: &Signature, list: &mut FaultList)
    ensures { Breaks list.old (inline.repeat_faults [] (signature_idents (shape_signature signature.now))) list.new }
{
    if list.lacks_memory {
        return;
    }
    list.lacks_memory = add_signature_names(alloc, signature, &mut list.faults).is_err();
}

// The methods of the interface types in a type.
#[cycle(types)]
fn check_type(alloc: Global, tree: &TypeExpr, list: &mut FaultList)
    ensures { Breaks list.old (inline.repeated_params (shape_type tree.now)) list.new }
{
    match tree {
        TypeExpr::Name(_) => {}
        TypeExpr::Pointer(_, inner) => check_type(alloc, inner, list),
        TypeExpr::Paren(_, inner, _) => check_type(alloc, inner, list),
        TypeExpr::Struct(_, _, lines, _) => check_fields(alloc, lines, list),
        TypeExpr::Interface(_, _, methods, _) => check_methods(alloc, methods, list),
    }
}

// The fields of one line.
#[cycle(types)]
fn check_line(alloc: Global, fields: &Fields, list: &mut FaultList)
    ensures { Breaks list.old (field_repeated fields.now) list.new }
{
    match fields {
        Fields::Named(_, tree) => check_type(alloc, tree, list),
        Fields::Embedded(_, _) => {}
    }
}

// Fields.
#[cycle(types)]
fn check_fields(alloc: Global, lines: &Vec<FieldLine>, list: &mut FaultList)
    ensures { Breaks list.old (inline.repeated_in_fields (fields_of lines.now.items)) list.new }
{
    for line in lines {
        check_line(alloc, &line.fields, list);
    }
}

// Methods: the names of each, and the types in its signature.
#[cycle(types)]
fn check_methods(alloc: Global, methods: &Vec<MethodLine>, list: &mut FaultList)
    ensures { Breaks list.old (inline.repeated_in_methods (methods_of methods.now.items)) list.new }
{
    for method in methods {
        check_signature(alloc, &method.signature, list);
    }
}

// A signature: its names, and its types.
#[cycle(types)]
fn check_signature(alloc: Global, signature: &Signature, list: &mut FaultList)
    ensures { Breaks list.old (inline.repeat_faults [] (signature_idents (shape_signature signature.now)) ++ inline.repeated_in_signature (shape_signature signature.now)) list.new }
{
    check_names(alloc, signature, list);
    check_params(alloc, &signature.params.entries, list);
    check_results(alloc, &signature.results, list);
}

// Results.
#[cycle(types)]
fn check_results(alloc: Global, results: &Results, list: &mut FaultList)
    ensures { Breaks list.old (inline.repeated_in_result (shape_results results.now)) list.new }
{
    match results {
        Results::Nothing => {}
        Results::Single(tree) => check_type(alloc, tree, list),
        Results::Listed(params) => check_params(alloc, &params.entries, list),
    }
}

// Parameters.
#[cycle(types)]
fn check_params(alloc: Global, params: &Vec<Param>, list: &mut FaultList)
    ensures { Breaks list.old (inline.repeated_in_entries (params_of params.now.items)) list.new }
{
    for param in params {
        check_type(alloc, &param.type_expr, list);
    }
}

/// The parameters and results of methods of the interface types in a type, at any depth, which are not blank and have the name of an earlier one
/// of their signature: each breaks B1 at its identifier. Those of one method stand together, before those in its types. It takes expected time
/// that is linear in the type.
///
/// The Go specification, "Declarations and scope", "Interface types".
///
/// # Errors
///
/// `AllocError` where memory is wanting.
pub fn repeated_params(alloc: Global, tree: &TypeExpr) -> Result<Vec<Fault>, AllocError>
    ensures { IfOk result (λ faults. faults.items ≡ inline.repeated_params (shape_type tree.now)) }
{
    let mut list = FaultList {
        faults: Vec::new(alloc),
        lacks_memory: false,
    };
    check_type(alloc, tree, &mut list);
    if list.lacks_memory {
        return Err(AllocError);
    }
    Ok(list.faults)
}
