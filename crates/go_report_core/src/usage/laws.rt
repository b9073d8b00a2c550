//! Laws of imports that are used, with nothing to run.
ghost use Rattle.go_report_core.specs.usage.Laws.{ReportsAreOne, UsedImportsAreThese};

/// An import of a file is used exactly where a selector of the file whose qualifier it binds has a declaration, or a name has one through its dot.
///
/// The Go specification, "Import declarations", "Qualified identifiers".
pub fn used_imports_are_these()
    ensures { UsedImportsAreThese }
{}

/// What is reported of a file is one list: where the rules that occurrences break and the faults beside are together the same, in whatever order
/// and however often, so are the reports.
pub fn reports_are_one()
    ensures { ReportsAreOne }
{}
