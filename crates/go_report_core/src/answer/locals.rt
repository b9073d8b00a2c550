//! What the locals of functions are, held.
ghost use Rattle.std.specs.Prelude.{◌≡◌, IfOk};
ghost use Rattle.std.specs.Arc.{arc_value};
ghost use Rattle.std.specs.Option.{option_map};
ghost use Rattle.go_summary_core.specs.declared_core.Faces.{operand_shown};

use crate::answer::shared::HeldValues;
use go_expr_core::operand_core::Operand;
use go_summary_core::handle_core::TypeRef;
use go_term_core::TypeTerm;
use std::alloc::{AllocError, Global};
use std::sync::Arc;

/// A local that a function declares, held: it lends nothing of the package. A receiver, a parameter, a result, a constant or a variable, by its
/// declared identifier.
///
/// The Go specification, "Declarations and scope", "Function declarations", "Short variable declarations".
pub struct HeldLocal {
    /// The first byte of the identifier, in bytes from the file's start.
    pub offset: usize,
    /// What it stands for: a variable of a type, or a constant with its value. None where it has no type. Variables of one type share it.
    pub value: Arc<Option<Operand<TypeTerm>>>,
}

impl Drop for HeldLocal {
    fn drop(self) {
        let HeldLocal {
            offset: _,
            value: _,
        } = self;
    }
}

impl HeldLocal {
    /// What it stands for: none where it has no type.
    pub fn value(&self) -> &Option<Operand<TypeTerm>>
        ensures { result.now ≡ arc_value self.now.value }
    {
        &self.value
    }
}

/// A local at an offset in bytes from the file's start, which stands for a value, held. The text of a constant is shared, and so is what was held of a
/// variable of the same type: it takes the time of a comparison with that, and no memory but for the local itself.
///
/// # Errors
///
/// `AllocError` where memory is wanting, or more than 2,097,152 stars would be held before types of variables.
pub fn hold_local(
    alloc: Global,
    values: &mut HeldValues,
    offset: usize,
    value: Option<Operand<TypeRef<'_>>>,
) -> Result<HeldLocal, AllocError>
    ensures offset { IfOk result (λ held. held.offset ≡ offset) }
    ensures value { IfOk result (λ held. option_map operand_shown (arc_value held.value) ≡ value.entry) }
{
    let value = values.hold(alloc, value)?;
    Ok(HeldLocal { offset, value })
}
