//! The names behind the dot of a value.
ghost use Rattle.std.specs.Prelude.{◌≡◌, ℕ, List, IfOk};
ghost use Rattle.go_table_core.specs.Entries.{Entry};
ghost use Rattle.go_expr_core.specs.operand_core.Values.{default_type};
ghost use Rattle.go_summary_core.specs.handle_core.DecidingRules.{term_rules};
ghost use Rattle.go_term_core.specs.Shapes.{shape};
ghost use Rattle.go_term_core.specs.Terms.{PointerTo};
ghost use Rattle.go_select_core.specs.embed_core.OwnersShown.{found_shown};
ghost use Rattle.go_expr_core.specs.denote_core.declared.things.Dot.TheVariants as dots;
ghost use Rattle.go_expr_core.specs.Uses.{SelectorBehind, rule};
ghost use Rattle.go_candidate_core.specs.after_dot.Names.{AreNames, SeesTypes, TheLooks, is_declared};
ghost use Rattle.go_candidate_core.specs.after_dot.mirrors.Usable.{AreBehind, is_usable, usable_names};

use go_expr_core::operand_core::{Operand, ValueType};
use go_select_core::{Member, Selected, selectable};
use go_summary_core::handle_core::{Home, TypeRef};
use go_table_core::TypeTable;
use go_term_core::{TypeTerm, copy};
use go_tree_nodes::Usage;
use go_tree_nodes::text_core::{Name, add, boxed};
use std::alloc::{AllocError, Global};

// Whether a member that is chosen has a declaration where the selector is used so.
fn is_usable(usage: Usage, is_addressable: bool, selected: &Selected<'_>) -> bool
    ensures { result ≡ is_usable usage is_addressable selected.now.through_pointer (found_shown selected.now.member) }
{
    match selected.member {
        Member::Field(_, _) => usage != Usage::Callee,
        Member::Method(_, method) => {
            usage == Usage::Callee
                && (!method.pointer || (selected.through_pointer || is_addressable))
        }
        Member::InterfaceMethod(_, _) | Member::ErrorMethod => usage == Usage::Callee,
    }
}

// The names of those members that have a declaration where the selector is used so.
fn usable_names(
    alloc: Global,
    usage: Usage,
    is_addressable: bool,
    listed: Vec<(Name, Selected<'_>)>,
) -> Result<Vec<Name>, AllocError>
    ensures { IfOk result (λ names. names.items ≡ usable_names usage is_addressable listed.entry.items) }
{
    let mut names = Vec::new(alloc);
    'listed: for (name, selected) in listed {
        if is_usable(usage, is_addressable, &selected) {
            add(&mut names, name)?;
        }
    }
    Ok(names)
}

// The names behind a value of a type as it stands.
fn names_of_term<'a>(
    alloc: Global,
    table: &'a TypeTable,
    home: &Home,
    usage: Usage,
    is_addressable: bool,
    term: &'a TypeTerm,
) -> Result<Vec<Name>, AllocError>
    ensures { IfOk result (λ names. AreBehind table.now home.now usage is_addressable (shape term.now) names.items) }
{
    let listed = selectable(alloc, table, term, home.path())?;
    let names = usable_names(alloc, usage, is_addressable, listed)?;
    Ok(names)
}

// The type of pointers to a type.
fn pointer_to(alloc: Global, term: &TypeTerm) -> Result<TypeTerm, AllocError>
    ensures { IfOk result (λ t. shape t ≡ PointerTo (shape term.now)) }
{
    Ok(TypeTerm::Pointer(boxed(alloc, copy(alloc, term)?)?))
}

// The names behind a value of a type. A pointer to a pointer has no members.
fn names_of_type<'a>(
    alloc: Global,
    table: &'a TypeTable,
    home: &Home,
    usage: Usage,
    is_addressable: bool,
    t: &TypeRef<'a>,
) -> Result<Vec<Name>, AllocError>
    ensures { IfOk result (λ names. AreBehind table.now home.now usage is_addressable t.now names.items) }
{
    let parts = t.parts();
    if parts.stars > 1 {
        return Ok(Vec::new(alloc));
    }
    if parts.stars == 1 {
        let pointer = pointer_to(alloc, parts.term)?;
        let names = names_of_term(alloc, table, home, usage, is_addressable, &pointer)?;
        return Ok(names);
    }
    let names = names_of_term(alloc, table, home, usage, is_addressable, parts.term)?;
    Ok(names)
}

// The type that a value counts by: of an untyped one its default type; `nil` has none.
fn type_of_value<'a>(home: &'a Home, value: &ValueType<TypeRef<'a>>) -> Option<TypeRef<'a>>
    ensures { (es : List Entry) → result ≡ default_type (term_rules es home.now) value.now }
{
    match value {
        ValueType::Typed(t) => Some(t.again()),
        ValueType::UntypedInt => Some(home.int()),
        ValueType::UntypedText => Some(home.string()),
        ValueType::UntypedBool => Some(home.bool()),
        ValueType::Nil => None,
    }
}

/// The names that have a declaration behind the dot of a selector whose operand is a value, by how the selector is used, in byte order:
/// for an operand the fields, and for what is called the methods that have the receiver that they need, promoted ones included.
///
/// The types are those of a table, and the selector is written in the package `home`. `_` is never among them, and there are none behind
/// `nil`. The Go specification, "Selectors", "Calls", "Method values".
///
/// # Errors
///
/// `AllocError` where memory is wanting.
pub fn names_behind<'a>(
    alloc: Global,
    table: &'a TypeTable,
    home: &'a Home,
    usage: Usage,
    operand: &Operand<TypeRef<'a>>,
) -> Result<Vec<Name>, AllocError>
    ensures { IfOk result (λ names. (looks : TheLooks) (offset : ℕ) → SeesTypes looks table.now home.now → AreNames (λ name. is_declared (rule looks (SelectorBehind usage (dots.«Value» operand.now)) offset name)) names.items) }
{
    match type_of_value(home, &operand.value_type) {
        Some(t) => {
            let names = names_of_type(alloc, table, home, usage, operand.addressable, &t)?;
            Ok(names)
        }
        None => Ok(Vec::new(alloc)),
    }
}
