//! The plan of a workspace over that of a snapshot.
ghost use Rattle.std.specs.Prelude.{◌≡◌, ◌<◌, IfOk, length};
ghost use Rattle.go_import_core.specs.head.Heads.{AreSameMarks, HaveSameHeads};
ghost use Rattle.go_import_core.specs.head.Outside.{AreSameOutside};
ghost use Rattle.go_batch_core.specs.Planning.{IsPlanned};
ghost use Rattle.go_batch_core.specs.Steadiness.{AreSameAt, BeginsSteady};
ghost use Rattle.go_batch_core.specs.mirrors.Rows.{StaysIf};

use crate::marks::is_marked;
use crate::planned::Planned;
use crate::rows::has_same;
use crate::steady::Steady;
use go_block_core::graph_core::{PackageSource, Workspace};
use go_import_core::head::{Compared, compare, outcomes_stay};
use go_path_core::Module;
use go_snap_core::Snapshot;
use std::alloc::{AllocError, Global};

/// The plan of a workspace, and what of a snapshot is as it was in it.
#[derive(Drop)]
pub struct Over {
    pub planned: Planned,
    pub steady: Steady,
}

// Whether the package of a number is the same, and has by two plans the same.
fn stays_at(
    alloc: Global,
    old: &Planned,
    new: &Planned,
    packages: &[PackageSource],
    same: &[bool],
    number: usize,
) -> Result<bool, AllocError>
    requires { number < length packages.now }
    ensures { IfOk result (λ is. StaysIf is old.now.plan new.now.plan old.now.reached new.now.reached packages.now same.now number) }
{
    if !is_marked(same, number) {
        return Ok(false);
    }
    has_same(alloc, old, new, number, packages[number].files().len())
}

// Of the marks of packages that are the same those of packages that have by two plans the same.
fn stays(
    alloc: Global,
    old: &Planned,
    new: &Planned,
    earlier: &Workspace,
    current: &Workspace,
    same: &[bool],
) -> Result<Vec<bool>, AllocError>
    requires old { IsPlanned earlier.now old.now.plan old.now.reached }
    requires new { IsPlanned current.now new.now.plan new.now.reached }
    requires same { AreSameMarks earlier.now current.now same.now }
    ensures many { IfOk result (λ marks. length marks.items ≡ length current.now) }
    ensures same { IfOk result (λ marks. AreSameAt earlier.now current.now marks.items) }
{
    let packages = current.packages();
    let mut marks = Vec::with_capacity(alloc, packages.len())?;
    for number in 0..packages.len() {
        let stays = stays_at(alloc, old, new, packages, same, number)?;
        marks.push(stays)?;
    }
    Ok(marks)
}

// The marks where all heads are the same.
fn same_by_heads(earlier: &Workspace, current: &Workspace, same: &[bool])
    requires heads { HaveSameHeads earlier.now current.now }
    requires same { AreSameMarks earlier.now current.now same.now }
    ensures { AreSameAt earlier.now current.now same.now }
{
    outcomes_stay();
    // Packages stand in order of path.
    let (_packages, _others) = (earlier.packages(), current.packages());
    let _ = same;
}

/// The plan of a workspace over that of a snapshot, and what of the snapshot is as it was. Where the two have the same paths and the same heads of files, the
/// plan is shared; else imports are planned, and a package stays only if they come to the same. Of a package of a path outside the modules that were
/// replaced no text is compared.
///
/// # Errors
///
/// `AllocError` where memory is wanting.
pub fn plan_over(
    alloc: Global,
    snapshot: &Snapshot,
    old: &Planned,
    modules: &[Module],
    sources: &Workspace,
) -> Result<Over, AllocError>
    requires planned { IsPlanned snapshot.now.sources old.now.plan old.now.reached }
    requires outside { AreSameOutside modules.now snapshot.now.sources sources.now }
    ensures planned { IfOk result (λ o. IsPlanned sources.now o.planned.plan o.planned.reached) }
    ensures steady { IfOk result (λ o. BeginsSteady snapshot.now.sources sources.now o.steady) }
{
    let earlier = snapshot.sources();
    let Compared { same, heads } = compare(alloc, modules, earlier, sources)?;
    if heads {
        let planned = old.again(earlier, sources)?;
        same_by_heads(earlier, sources, &same);
        let steady = Steady::new(alloc, same)?;
        return Ok(Over { planned, steady });
    }
    let planned = Planned::of(alloc, sources)?;
    let same = stays(alloc, old, &planned, earlier, sources, &same)?;
    let steady = Steady::new(alloc, same)?;
    Ok(Over { planned, steady })
}
