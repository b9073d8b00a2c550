//! Identity of types under stars.
ghost use Rattle.std.specs.Prelude.{◌≡◌};
ghost use Rattle.go_term_core.specs.Shapes.{shape};
ghost use Rattle.go_handle_core.specs.deciding.Identity.{identical_by, identical_of, identical_under_of};
ghost use Rattle.go_handle_core.specs.Stars.{starred};

use crate::types::TypeRef;
use go_table_core::{identical_under, identical_under_but_for_tags};
use go_term_core::{TypeTerm, identical, identical_but_for_tags};

// Whether two types as they stand are identical, where tags count or do not.
fn same_terms(tags: bool, a: &TypeTerm, b: &TypeTerm) -> bool
    ensures { result ≡ identical_by tags (shape a.now) (shape b.now) }
{
    if tags {
        identical(a, b)
    } else {
        identical_but_for_tags(a, b)
    }
}

// Whether a type under so many stars is identical to one as it stands, where tags count or do not.
fn starred_and_plain(tags: bool, stars: usize, a: &TypeTerm, b: &TypeTerm) -> bool
    ensures { result ≡ identical_by tags (starred stars (shape a.now)) (shape b.now) }
{
    if stars == 0 {
        return same_terms(tags, a, b);
    }
    match b {
        TypeTerm::Pointer(base) => starred_and_plain(tags, stars - 1, a, base),
        TypeTerm::NoType
        | TypeTerm::Basic(_)
        | TypeTerm::Error
        | TypeTerm::Defined(_)
        | TypeTerm::Struct(_, _, _)
        | TypeTerm::Interface(_, _) => false,
    }
}

// Whether a type as it stands is identical to one under so many stars, where tags count or do not.
fn plain_and_starred(tags: bool, a: &TypeTerm, stars: usize, b: &TypeTerm) -> bool
    ensures { result ≡ identical_by tags (shape a.now) (starred stars (shape b.now)) }
{
    if stars == 0 {
        return same_terms(tags, a, b);
    }
    match a {
        TypeTerm::Pointer(base) => plain_and_starred(tags, base, stars - 1, b),
        TypeTerm::NoType
        | TypeTerm::Basic(_)
        | TypeTerm::Error
        | TypeTerm::Defined(_)
        | TypeTerm::Struct(_, _, _)
        | TypeTerm::Interface(_, _) => false,
    }
}

// Whether two types under stars are identical, where tags count or do not.
fn same_starred(tags: bool, m: usize, a: &TypeTerm, n: usize, b: &TypeTerm) -> bool
    ensures { result ≡ identical_by tags (starred m (shape a.now)) (starred n (shape b.now)) }
{
    if m < n {
        return plain_and_starred(tags, a, n - m, b);
    }
    starred_and_plain(tags, m - n, a, b)
}

/// Whether two types are identical. It takes no memory.
///
/// The Go specification, "Type identity".
pub fn is_identical(a: &TypeRef<'_>, b: &TypeRef<'_>) -> bool
    ensures { result ≡ identical_of a.now b.now }
{
    same_starred(true, a.stars, a.term, b.stars, b.term)
}

// Whether two underlying types as they stand are identical, where tags count or do not.
fn same_under(tags: bool, a: &TypeTerm, b: &TypeTerm) -> bool
    ensures { result ≡ identical_under_of tags (shape a.now) (shape b.now) }
{
    if tags {
        identical_under(a, b)
    } else {
        identical_under_but_for_tags(a, b)
    }
}

// Whether two underlying types under stars are identical, where tags count or do not.
fn same_starred_under(tags: bool, m: usize, a: &TypeTerm, n: usize, b: &TypeTerm) -> bool
    ensures { result ≡ identical_under_of tags (starred m (shape a.now)) (starred n (shape b.now)) }
{
    if m > 0 {
        return same_starred(tags, m, a, n, b);
    }
    if n > 0 {
        return same_starred(tags, m, a, n, b);
    }
    same_under(tags, a, b)
}

/// Whether two underlying types are identical, where tags of fields at any depth count or do not. That of `error` is the interface type with
/// its method alone. It takes no memory.
///
/// The Go specification, "Underlying types", "Errors", "Conversions": "ignoring struct tags".
pub(crate) fn is_identical_under(tags: bool, a: &TypeRef<'_>, b: &TypeRef<'_>) -> bool
    ensures { result ≡ identical_under_of tags a.now b.now }
{
    same_starred_under(tags, a.stars, a.term, b.stars, b.term)
}
