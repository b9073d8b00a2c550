//! What the names mean that a piece declares.
ghost use Rattle.std.specs.Prelude.{◌≡◌, ◌++◌, IfOk, OnOk, map};
ghost use Rattle.go_body_core.specs.Rules.{declared_among, local_if, locals_of};

use go_env_core::Meaning;
use go_handle_core::TypeRef;
use go_names_core::Meant;
use go_operand_core::Operand;
use go_text_core::add;
use go_tree_nodes::Ident;
use std::alloc::{AllocError, Global};

/// A local that a function declares: its receiver, a parameter, a result, a constant or a variable, by its declared identifier.
///
/// The Go specification, "Declarations and scope", "Function declarations", "Short variable declarations".
#[derive(Drop)]
pub struct Local<'p> {
    /// The first byte of the identifier, in bytes from the file's start.
    pub offset: usize,
    /// What it stands for: a variable of a type, or a constant with its value. None where it has no type.
    pub value: Option<Operand<TypeRef<'p>>>,
}

/// Some names as locals, each by the offset of its identifier, which stand for these values in order.
pub(crate) fn locals<'p>(
    alloc: Global,
    idents: &[&Ident],
    values: Vec<Option<Operand<TypeRef<'p>>>>,
) -> Result<Vec<Meaning<'p>>, AllocError>
    ensures { IfOk result (λ means. means.items ≡ locals_of (map (λ i. i.now) idents.now) values.entry.items) }
{
    let mut means = Vec::new(alloc);
    let mut left = values.into_iter();
    for ident in idents {
        let value = match left.next() {
            Some(value) => value,
            None => None,
        };
        means.push(Meaning::Local(ident.span.start as usize, value))?;
    }
    Ok(means)
}

// Adds what a name means, where it is the first of its block.
fn add_local<'p>(
    declared: &mut Vec<Local<'p>>,
    is_first: bool,
    meaning: &Meaning<'p>,
) -> Result<(), AllocError>
    ensures { OnOk result (declared.new.items ≡ declared.old.items ++ local_if is_first meaning.now) }
{
    if !is_first {
        return Ok(());
    }
    match meaning.again()? {
        Meaning::Local(offset, value) => add(declared, Local { offset, value }),
        Meaning::Outside(_) => Ok(()),
    }
}

/// The locals among what some names mean: of those that are the first of their block.
pub(crate) fn declared_locals<'p>(
    alloc: Global,
    firsts: &[bool],
    means: &[Meaning<'p>],
) -> Result<Vec<Local<'p>>, AllocError>
    ensures { IfOk result (λ declared. declared.items ≡ declared_among firsts.now means.now) }
{
    let mut declared = Vec::new(alloc);
    for (first, meaning) in firsts.iter().zip(means) {
        add_local(&mut declared, *first, meaning)?;
    }
    Ok(declared)
}
