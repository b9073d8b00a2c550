//! Fields of struct types, keys of literals, and how elements are tested.
//!
//! `T` stands for types, `D` for declarations, `P` for paths of embedded fields.
use crate::Outcome;

/// A field of a struct type, as a place sees it.
#[derive(Drop)]
pub struct LiteralField<T, D> {
    /// Its declaration.
    pub decl: D,
    /// Its type: none where it has no type.
    pub field_type: Option<T>,
    /// Whether it may be named or given a value at the place: not where it is non-exported and of another package. A blank field is
    /// non-exported.
    pub is_visible: bool,
}

/// The field of a struct type that is spelled as a name.
#[derive(Drop)]
pub enum NamedField<T, D> {
    /// A field that is visible at the place.
    Visible(LiteralField<T, D>),
    /// A field that is not visible at the place.
    Hidden,
    /// No field is spelled so.
    Missing,
}

/// Which elements of a literal have keys.
#[derive(Clone, Copy)]
pub enum Keys {
    /// None has. So it is where there is no element.
    None,
    /// Each has, and there is one.
    All,
    /// Some have, and some have not.
    Some,
}

/// What a key has, and the type that its element is to be assignable to: none where the key breaks a rule, or its field has no type.
#[derive(Drop)]
pub struct KeyAnswer<T, D, P> {
    pub outcome: Outcome<D, P>,
    pub target: Option<T>,
}

/// What is known of a key among the keys of its literal and the fields of the literal's type.
#[derive(Clone, Copy)]
pub struct KeyMark {
    /// Whether another key of the literal is spelled the same.
    pub is_repeated: bool,
    /// The number of the first field that is spelled so, from 0: none where no field is.
    pub field: Option<usize>,
}

/// How the elements of a literal are tested against the fields of its type.
#[derive(Clone, Copy)]
pub enum Mode {
    /// Not at all.
    Untested,
    /// Each against the field that its key names.
    ByKey,
    /// Each against the field of its number.
    InOrder,
}
