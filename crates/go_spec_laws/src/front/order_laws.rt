//! Which of two declarations of a package comes first.
ghost use Rattle.go_spec_laws.specs.front.OrderLaws.{DeclarationsHaveOneOrder};

/// A law, with nothing to run: the test by which one declaration is before another (`DeclRef::is_before` of `go_decl_core`) and the comparison by which
/// lists of declarations are sorted (`place_order`, there) are one order, which is strict, and it is the order in which declarations are written: by file,
/// and in one file by where they stand, in the sense of the Go specification, "Package initialization".
pub fn declarations_have_one_order()
    ensures { DeclarationsHaveOneOrder }
{}
