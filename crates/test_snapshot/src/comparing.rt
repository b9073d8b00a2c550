//! Whether an edit leaves a package as it was for those that import it.
ghost use Rattle.std.specs.Prelude.{IfSome};
ghost use Rattle.go_site_core.specs.graph_core.Workspaces.{AreAllRead};

use go_emit_core::package_core::PartInput;
use go_snap_core::Snapshot;
use go_table_core::path_core::ImportPath;
use test_probe::show::Lines;

/// What the part of the package of a path is made from: each of its files has what its text says.
fn input_at<'a>(snapshot: &'a Snapshot, path: &ImportPath) -> Option<&'a PartInput>
    ensures { IfSome result (λ input. AreAllRead input.now.source) }
{
    let _packages = snapshot.sources().packages();
    snapshot.input(path)
}

/// Adds whether something is the same.
fn add_sameness(out: &mut Lines, what: &str, is_same: Option<bool>) {
    out.add(what);
    out.line(match is_same {
        Some(true) => "same",
        Some(false) => "another",
        None => "none",
    });
}

/// Adds whether the package of a path tells the same in two snapshots, and whether its part is made from the same; `none` where one of them has no
/// part of it.
pub fn add_comparison(out: &mut Lines, one: &Snapshot, other: &Snapshot, path: &ImportPath) {
    let (mut tells, mut made) = (None, None);
    if let Some(part) = one.part(path) {
        if let Some(earlier) = other.part(path) {
            tells = Some(part.summary().is_same(earlier.summary()));
        }
    }
    if let Some(input) = input_at(one, path) {
        if let Some(earlier) = input_at(other, path) {
            made = Some(input.is_same(earlier));
        }
    }
    add_sameness(out, "summary ", tells);
    add_sameness(out, "input ", made);
}
