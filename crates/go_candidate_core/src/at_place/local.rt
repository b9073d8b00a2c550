//! The locals that are open at a place.
ghost use Rattle.std.specs.Prelude.{◌≡◌, if◌then◌else◌, IfOk, map, option_map};
ghost use Rattle.std.specs.Str.{bytes_eq};
ghost use Rattle.go_summary_core.specs.declared_core.Faces.{operand_shown, value_type_shown};
ghost use Rattle.go_expr_core.specs.local_core.mirrors.Walk.{latest};
ghost use Rattle.go_candidate_core.specs.at_place.Locals.{local_shown, meaning_shown};

use go_expr_core::operand_core::{Operand, ValueType};
use go_summary_core::handle_core::TypeRef;
use go_term_core::TypeTerm;
use go_tree_nodes::text_core::Name;
use std::alloc::AllocError;

/// A local that is open at a place.
pub struct OpenLocal<'p> {
    pub name: Name,
    /// The first byte of its declared identifier, in bytes from the file's start.
    pub offset: usize,
    /// What it stands for: none where it has no type.
    pub value: &'p Option<Operand<TypeTerm>>,
}

impl Drop for OpenLocal<'_> {
    fn drop(self) {
        let OpenLocal {
            name: _,
            offset: _,
            value: _,
        } = self;
    }
}

// A local, where it has this name, or else the one that was found before.
fn later_of<'n, 'p>(
    found: Option<&'n OpenLocal<'p>>,
    local: &'n OpenLocal<'p>,
    name: &str,
) -> Option<&'n OpenLocal<'p>>
    ensures { option_map (λ l. meaning_shown l.now) result ≡ (if bytes_eq name.now local.now.name then Some (meaning_shown local.now) else option_map (λ l. meaning_shown l.now) found.entry) }
{
    if name == local.name.as_str() {
        Some(local)
    } else {
        found
    }
}

/// The local that a name denotes, where it denotes one: the latest that is declared of its name.
pub(crate) fn latest<'n, 'p>(locals: &'n [OpenLocal<'p>], name: &str) -> Option<&'n OpenLocal<'p>>
    ensures { option_map (λ l. meaning_shown l.now) result ≡ latest (map local_shown locals.now) name.now }
{
    let mut found = None;
    for local in locals {
        found = later_of(found, local, name);
    }
    found
}

// What type a value has, lent.
fn lend_value_type<'p>(value_type: &'p ValueType<TypeTerm>) -> ValueType<TypeRef<'p>>
    ensures { result ≡ value_type_shown value_type.now }
{
    match value_type {
        ValueType::Typed(term) => ValueType::Typed(TypeRef::of(term)),
        ValueType::UntypedInt => ValueType::UntypedInt,
        ValueType::UntypedText => ValueType::UntypedText,
        ValueType::UntypedBool => ValueType::UntypedBool,
        ValueType::Nil => ValueType::Nil,
    }
}

// An operand, lent.
fn lend_operand<'p>(operand: &'p Operand<TypeTerm>) -> Result<Operand<TypeRef<'p>>, AllocError>
    ensures { IfOk result (λ o. o ≡ operand_shown operand.now) }
{
    let constant = match &operand.constant {
        Some(constant) => Some(constant.share()?),
        None => None,
    };
    Ok(Operand {
        value_type: lend_value_type(&operand.value_type),
        constant,
        addressable: operand.addressable,
    })
}

/// What a local stands for, lent. It takes no memory: a text of a constant is shared.
///
/// # Errors
///
/// `AllocError` where a text has too many owners.
pub(crate) fn lend_value<'p>(
    value: &'p Option<Operand<TypeTerm>>,
) -> Result<Option<Operand<TypeRef<'p>>>, AllocError>
    ensures { IfOk result (λ v. v ≡ option_map operand_shown value.now) }
{
    match value {
        Some(operand) => Ok(Some(lend_operand(operand)?)),
        None => Ok(None),
    }
}
