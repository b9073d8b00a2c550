//! Parameters from the entries of their list.
ghost use Rattle.std.specs.Prelude.{◌≡◌, map, Some, IfOk};
ghost use Rattle.std.specs.Option.{option_map};
ghost use Rattle.go_tree_nodes.specs.TypeShapes.{shape_idents, shape_names, shape_type, params_of};
ghost use Rattle.go_parse_reader.specs.types.mirrors.EntryShapes.{entry_of, with_last};
ghost use Rattle.go_tree_nodes.specs.Naming.{plain_name};
ghost use Rattle.go_parse_reader.specs.types.mirrors.TypeReading.{has_name, as_types, as_groups, as_params};

use go_tree_nodes::text_core::{Span, add, fitted};
use go_tree_nodes::{Ident, Idents, NextIdent, Param, TypeExpr};
use std::alloc::{AllocError, Global};

/// An entry of a parameter list: a type, or a name and a type, with the comma behind it where one stands.
#[derive(Drop)]
pub struct Entry {
    pub name: Option<Ident>,
    pub type_expr: TypeExpr,
    pub comma: Option<Span>,
}

/// Whether an entry has a name.
fn is_named(entries: &[Entry]) -> bool
    ensures { result ≡ has_name (map entry_of entries.now) }
{
    'turns: for entry in entries {
        if entry.name.is_some() {
            return true;
        }
    }
    false
}

/// The parameters that entries without names are.
fn types_from(alloc: Global, entries: Vec<Entry>) -> Result<Vec<Param>, AllocError>
    ensures { IfOk result (λ x. params_of x.items ≡ as_types (map entry_of entries.items)) }
{
    let mut params = Vec::with_capacity(alloc, entries.len())?;
    'turns: for entry in entries {
        let Entry {
            name,
            type_expr,
            comma,
        } = entry;
        // By name: one call, where the end of the scope would take the name apart kind by kind.
        drop(name);
        let param = Param {
            names: None,
            type_expr,
            comma,
        };
        add(&mut params, param)?;
    }
    Ok(params)
}

/// The names so far, with the comma behind them, and one more.
fn with_name(
    alloc: Global,
    names: Option<(Idents, Span)>,
    name: Ident,
) -> Result<Idents, AllocError>
    ensures { IfOk result (λ x. shape_idents x ≡ with_last (option_map (λ n. (shape_idents n.0, n.1)) names) name) }
{
    match names {
        Some((mut names, comma)) => {
            add(&mut names.more, NextIdent { comma, ident: name })?;
            Ok(names)
        }
        None => Ok(Idents {
            first: name,
            more: Vec::new(alloc),
        }),
    }
}

/// The name that a type is.
fn plain(type_expr: TypeExpr) -> Option<Ident>
    ensures { result ≡ plain_name (shape_type type_expr) }
{
    type_expr.into_plain_name()
}

/// The parameters of one type: the names so far, and one more before the type.
fn group(
    alloc: Global,
    names: Option<(Idents, Span)>,
    name: Ident,
    type_expr: TypeExpr,
    comma: Option<Span>,
) -> Result<Param, AllocError>
    ensures { IfOk result (λ x. (shape_names x.names ≡ Some (with_last (option_map (λ n. (shape_idents n.0, n.1)) names) name)) × (x.type_expr ≡ type_expr) × (x.comma ≡ comma)) }
{
    let Idents { first, more } = with_name(alloc, names, name)?;
    let names = Idents {
        first,
        more: fitted(more),
    };
    Ok(Param {
        names: Some(names),
        type_expr,
        comma,
    })
}

/// The parameters that entries of which some have names are: an entry that is a name alone belongs to the
/// group of the next one.
fn groups_from(alloc: Global, entries: Vec<Entry>) -> Result<Option<Vec<Param>>, AllocError>
    ensures { IfOk result (λ x. option_map (λ v. params_of v.items) x ≡ as_groups (map entry_of entries.items)) }
{
    let mut params = Vec::new(alloc);
    let mut names = None;
    'turns: for entry in entries {
        let Entry {
            name,
            type_expr,
            comma,
        } = entry;
        if let Some(name) = name {
            add(&mut params, group(alloc, names, name, type_expr, comma)?)?;
            names = None;
        } else {
            let Some(name) = plain(type_expr) else {
                return Ok(None);
            };
            let Some(comma) = comma else {
                return Ok(None);
            };
            names = Some((with_name(alloc, names, name)?, comma));
        }
    }
    if names.is_some() {
        return Ok(None);
    }
    Ok(Some(fitted(params)))
}

/// The parameters that entries are, or none where they are no parameters.
///
/// # Errors
///
/// [`AllocError`] where memory runs out.
pub fn params_from(alloc: Global, entries: Vec<Entry>) -> Result<Option<Vec<Param>>, AllocError>
    ensures { IfOk result (λ x. option_map (λ v. params_of v.items) x ≡ as_params (map entry_of entries.items)) }
{
    if is_named(&entries) {
        return groups_from(alloc, entries);
    }
    Ok(Some(types_from(alloc, entries)?))
}
