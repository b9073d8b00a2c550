//! Laws of what the check of a package looks at in other packages, with nothing to run.
ghost use Rattle.go_snap_core.specs.whole_workspace.LocalLaws.{CheckIsLocal, ImportsBindTheirs};

/// Where a package and some others lead to none beside themselves, its check gives the same whatever is known of packages beside these: its
/// types and their faults, what its declarations are, what it shows, what each occurrence has, and the faults of its files. What it gives
/// mentions types of these packages alone.
///
/// The Go specification, "Packages", "Import declarations".
pub fn check_is_local()
    ensures { CheckIsLocal }
{}

/// What the imports of a package bind in its files is a package that one of them comes to, or a declaration that such a package shows: so the
/// blocks of a package lead to the packages that it imports.
///
/// The Go specification, "Import declarations".
pub fn imports_bind_theirs()
    ensures { ImportsBindTheirs }
{}
