//! Kinds of terms, and which fields may be embedded.
ghost use Rattle.std.specs.Prelude.{◌≡◌};
ghost use Rattle.go_term_core.specs.Shapes.{shape};
ghost use Rattle.go_term_core.specs.settling.Settled.{kind_of_term, can_be_embedded, can_be_pointed, can_point, is_no_pointer};

use crate::TypeTerm;
use crate::settling::kind::{Kind, Kinds};

/// The kind of a type that is no name: what a type is that is defined by it.
pub fn kind_of(term: &TypeTerm) -> Kind
    ensures { result ≡ kind_of_term (shape term.now) }
{
    match term {
        TypeTerm::NoType => Kind::Nothing,
        TypeTerm::Basic(_) => Kind::Other,
        TypeTerm::Error => Kind::Interface,
        TypeTerm::Defined(_) => Kind::Other,
        TypeTerm::Pointer(_) => Kind::Pointer,
        TypeTerm::Struct(_, _, _) => Kind::Other,
        TypeTerm::Interface(_, _) => Kind::Interface,
    }
}

/// Whether a field of this type, as it is written, may be embedded: it is a type's name, and that type is no pointer type, or a
/// star and a type's name, and that type is neither a pointer type nor an interface type. Of what is no type nothing is asked. The Go
/// specification, "Struct types".
pub fn can_embed<K: Kinds>(kinds: &K, term: &TypeTerm) -> bool
    ensures { result ≡ can_be_embedded (K.kinds kinds.now) (shape term.now) }
{
    match term {
        TypeTerm::NoType => true,
        TypeTerm::Basic(_) => true,
        TypeTerm::Error => true,
        TypeTerm::Defined(key) => is_no_pointer(kinds.kind(key)),
        TypeTerm::Pointer(base) => can_point(kinds, base),
        TypeTerm::Struct(_, _, _) => true,
        TypeTerm::Interface(_, _) => true,
    }
}

/// Whether a field may be embedded by a star and this type.
fn can_point<K: Kinds>(kinds: &K, base: &TypeTerm) -> bool
    ensures { result ≡ can_point (K.kinds kinds.now) (shape base.now) }
{
    match base {
        TypeTerm::NoType => true,
        TypeTerm::Basic(_) => true,
        TypeTerm::Error => false,
        TypeTerm::Defined(key) => can_be_pointed(kinds.kind(key)),
        TypeTerm::Pointer(_) => false,
        TypeTerm::Struct(_, _, _) => true,
        TypeTerm::Interface(_, _) => false,
    }
}

/// Whether a type of this kind may be embedded by its name.
fn is_no_pointer(kind: Kind) -> bool
    ensures { result ≡ is_no_pointer kind }
{
    match kind {
        Kind::Pointer => false,
        Kind::Nothing | Kind::Interface | Kind::Other => true,
    }
}

/// Whether a type of this kind may be embedded by a star and its name.
fn can_be_pointed(kind: Kind) -> bool
    ensures { result ≡ can_be_pointed kind }
{
    match kind {
        Kind::Pointer | Kind::Interface => false,
        Kind::Nothing | Kind::Other => true,
    }
}
