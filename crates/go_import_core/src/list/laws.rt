//! Laws of imports that a package may lack, with nothing to run.
ghost use Rattle.go_import_core.specs.list.Added.{AddedImportsAreJudged};

/// What an import would come to in a package, by the imports that there are, is what it comes to once a file is added to the package that has it. So an
/// import that lies on a cycle with itself in it lies on one without.
///
/// The Go specification, "Import declarations".
pub fn added_imports_are_judged()
    ensures { AddedImportsAreJudged }
{}
