//! What is asked of the fields of struct types.
ghost use Rattle.std.specs.Prelude.{◌≡◌, ◌<◌, IfOk, Some, length, map, option_map, slice_get};
ghost use Rattle.go_denote_core.specs.composite.Look.{LiteralRules};
ghost use Rattle.go_denote_core.specs.composite.Marks.{field_number};

use crate::Names;
use crate::composite::things::LiteralField;
use std::alloc::{AllocError, Global};

/// The fields of struct types, as a place sees them, beside what names stand for there and what types there are.
///
/// They are asked of struct types alone.
pub trait Literals: Names {
    // the fields of struct types, as the place sees them
    ghost literals: { Self → LiteralRules Self.Type Self.Decl };

    /// How many fields a struct type has, blank ones included.
    fn field_count(&self, t: &Self::Type) -> usize
        ensures { result ≡ length ((literals self.now).fields t.now) };

    /// A field of a struct type, by its number from 0.
    fn field_at(&self, t: &Self::Type, at: usize) -> LiteralField<Self::Type, Self::Decl>
        requires { at < length ((literals self.now).fields t.now) }
        ensures { option_map (λ f. f.known) (slice_get ((literals self.now).fields t.now) at) ≡ Some result };

    /// The spellings of the fields of a struct type in order, blank ones included. Time grows with their number.
    ///
    /// # Errors
    ///
    /// `AllocError` where memory is wanting.
    fn field_names(&self, alloc: Global, t: &Self::Type) -> Result<Vec<&str>, AllocError>
        ensures { IfOk result (λ names. map (λ n. n.now) names.items ≡ map (λ f. f.name) ((literals self.now).fields t.now)) };

    /// Whether the place has an index of the fields of a struct type by their names, so that each is found in constant expected time.
    fn has_index(&self, t: &Self::Type) -> bool;

    /// The number of the first field of a struct type that is spelled so, from 0, and none where no field is. Time grows with the number of
    /// fields, unless the place has an index of them.
    ///
    /// # Errors
    ///
    /// `AllocError` where memory is wanting.
    fn field_number(
        &self,
        alloc: Global,
        t: &Self::Type,
        name: &str,
    ) -> Result<Option<usize>, AllocError>
        ensures { IfOk result (λ number. number ≡ field_number ((literals self.now).fields t.now) name.now) };
}
