//! Laws of the identifiers that a file declares outside function bodies.
ghost use Rattle.go_decl_core.specs.Anchors.{AnchorsAreOfDeclarations};
ghost use Rattle.go_decl_core.specs.Laws.{NumbersArePlaces, PlacesAreOneToOne, BodiesDoNotCount, PlacesAreDeclared, OneKeyAPlace};
ghost use Rattle.go_decl_core.specs.Sample.{SampleIsRight};

/// A law, with nothing to run: the declarations of a file outside functions are the identifiers of its table that name
/// declarations, in order, each under its number there; two declarations have two numbers.
pub fn numbers_are_places()
    ensures { NumbersArePlaces }
{}

/// A law, with nothing to run: in a file whose terminals follow one another, a number has one offset, and an offset one number.
pub fn places_are_one_to_one()
    ensures { PlacesAreOneToOne }
{}

/// A law, with nothing to run: function bodies change no number. Files that differ in their bodies and in the places of what
/// they write alone have the same names and kinds under the same numbers.
pub fn bodies_do_not_count()
    ensures { BodiesDoNotCount }
{}

/// A law, with nothing to run: the identifiers of a file's table are the names that its declarations declare outside bodies,
/// each once and in order, and the names of embedded fields.
pub fn places_are_declared()
    ensures { PlacesAreDeclared }
{}

/// A law, with nothing to run: two declarations of a package that stand at one place of one file are the same.
pub fn one_key_a_place()
    ensures { OneKeyAPlace }
{}

/// A law, with nothing to run: the tables of two files that are worked out by hand. They differ in a function's body, and
/// the numbers behind it are the same.
pub fn sample_is_right()
    ensures { SampleIsRight }
{}

/// A law, with nothing to run: a file has one place to look for a doc comment for each of its declarations.
pub fn anchors_are_of_declarations()
    ensures { AnchorsAreOfDeclarations }
{}
