//! Laws of what a check looks at, with nothing to run.
ghost use Rattle.go_snap_core.specs.near.Laws.{
  ExpressionsLookNearby,
  FilesLookNearby,
  FunctionsLookNearby,
  OtherTypesDoNotCount,
  PackagesLookNearby,
  PiecesLookNearby,
  ScenesLookNearby,
  TablesLookNearby,
};

/// What is asked of near types is the same in two tables that agree on what is near, and is near: what lies under a type, what is decided of
/// types, what a selector chooses, the types of parameters and of results, the fields that a literal may name. Near is any list of declared
/// types that lead to none beside the list.
///
/// The Go specification, "Properties of types and values", "Selectors", "Composite literals".
pub fn tables_look_nearby()
    ensures { TablesLookNearby }
{}

/// An expression asks of types what is near alone: look-ups that lead from near things to near ones, and others that have the same of these,
/// make the same of it, and what it denotes is near.
///
/// The Go specification, "Expressions".
pub fn expressions_look_nearby()
    ensures { ExpressionsLookNearby }
{}

/// So in two scenes of one package that agree on what is near, where names stand for the same near things and written types are the same near
/// types, an expression denotes the same, its occurrences have the same, and it breaks the same rules.
///
/// The Go specification, "Expressions", "Packages".
pub fn scenes_look_nearby()
    ensures { ScenesLookNearby }
{}

/// A piece of a function asks of types what is near alone: what its occurrences have is the same, in a function whose results have near types
/// it breaks the same rules, and its names stand for the same near values.
///
/// The Go specification, "Declarations and scope", "Statements".
pub fn pieces_look_nearby()
    ensures { PiecesLookNearby }
{}

/// What the occurrences of a function have, and its faults, are the same where the types of other packages, what these show, what names mean
/// outside the function and what names of types mean are the same as far as they are near.
///
/// The Go specification, "Declarations and scope", "Function declarations", "Packages".
pub fn functions_look_nearby()
    ensures { FunctionsLookNearby }
{}

/// What the occurrences of a file have, and its faults, are the same where the types of other packages, what these show, what names mean at the
/// top of the file and what names of types mean there are the same as far as they are near.
///
/// The Go specification, "Source file organization", "Packages".
pub fn files_look_nearby()
    ensures { FilesLookNearby }
{}

/// A file comes to the same over any table of types that has the same of what its names mean and of what that leads to: what else a table has
/// does not count, be it there or not.
///
/// The Go specification, "Packages", "Import declarations".
pub fn other_types_do_not_count()
    ensures { OtherTypesDoNotCount }
{}

/// What is written of a package, and what stands in its files where the same is known of its declarations, are the same over two tables of types
/// that agree on what is near: its own types, what the names of types in its files mean, what its declarations are and what other packages show.
///
/// The Go specification, "Packages", "Declarations and scope".
pub fn packages_look_nearby()
    ensures { PackagesLookNearby }
{}
