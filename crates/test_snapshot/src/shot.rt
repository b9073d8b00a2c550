//! Snapshots, with the names of their packages, and how their declarations are written.
use go_denote_core::text_core::Rule;
use go_site_core::SiteSpelling;
use go_site_core::graph_core::Workspace;
use go_snap_core::{Snapshot, compile};
use std::alloc::{AllocError, Global};
use test_probe::show::{Named, put_archive};

/// A snapshot, the names of the packages of its workspace, in order, and how the declarations of the workspace are written.
#[derive(Drop)]
pub struct Shot<'a> {
    pub snapshot: &'a Snapshot,
    pub named: &'a [Named],
    pub spelling: SiteSpelling<'a>,
}

/// A snapshot with these names of its packages.
///
/// # Errors
///
/// `AllocError` for want of memory.
pub fn shot_of<'a>(
    alloc: Global,
    snapshot: &'a Snapshot,
    named: &'a [Named],
) -> Result<Shot<'a>, AllocError> {
    let spelling = SiteSpelling::new(alloc, snapshot.sources())?;
    Ok(Shot {
        snapshot,
        named,
        spelling,
    })
}

/// The snapshot of the workspace that an archive writes.
///
/// # Errors
///
/// `Rule::I1` where the path of a package is malformed, and `Rule::M0` for want of memory.
pub fn snapshot_of(alloc: Global, text: &str) -> Result<Snapshot, Rule> {
    let mut workspace = Workspace::empty(alloc);
    put_archive(&mut workspace, alloc, text)?;
    match compile(alloc, &workspace) {
        Ok(snapshot) => Ok(snapshot),
        Err(AllocError) => Err(Rule::M0),
    }
}
