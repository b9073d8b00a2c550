//! Submissions.
ghost use Rattle.std.specs.Prelude.{◌≡◌, IfOk, OnOk};
ghost use Rattle.go_graph_core.specs.Workspaces.{replaced};
ghost use Rattle.go_submit_core.specs.Submitted.{AreWorkspaces, has_ticket, submitted};

use crate::module_tree::ModuleTree;
use go_graph_core::Workspace;
use std::alloc::{AllocError, Global};
use std::marker::Model;
use std::sync::Arc;

/// The number of a submission among the accepted ones, from 1.
#[derive(Clone, Copy, PartialEq, Eq)]
pub struct Ticket(pub u64);

/// A tree that was submitted, with its ticket.
pub struct Submission {
    pub ticket: Ticket,
    pub tree: ModuleTree,
}

impl Drop for Submission {
    fn drop(self) {
        let Submission { ticket: _, tree: _ } = self;
    }
}

/// Submissions in the order in which they came. A handle over one shared pointer. Contracts see the list, and that each tree is a workspace.
pub struct Submissions {
    list: Arc<Vec<Submission>>,
}

impl Drop for Submissions {
    fn drop(self) {
        let Submissions { list: _ } = self;
    }
}

impl Model for Submissions {
    ghost use Rattle.std.specs.Prelude.{List};
    ghost use Rattle.std.specs.Arc.{arc_value};
    ghost use Rattle.go_submit_core.specs.declared.submission.Submission.{Submission};
    ghost use Rattle.go_submit_core.specs.Submitted.{AreWorkspaces, coded_submissions};

    ghost Value = { List Submission };

    ghost coded = { coded_submissions };

    ghost view = { λ s. (arc_value s.list).items };

    ghost invariant = { λ s. AreWorkspaces (arc_value s.list).items };
}

// Puts a tree in the place of its module's packages.
fn put_tree(sources: &mut Workspace, tree: &ModuleTree) -> Result<(), AllocError>
    ensures { OnOk result (sources.new ≡ replaced tree.now.own sources.old tree.now.packages) }
{
    match sources.replace(tree.own(), tree.packages()) {
        Ok(()) => Ok(()),
        Err(_) => Err(AllocError),
    }
}

// The packages of each tree are a workspace.
fn are_workspaces(submissions: &[Submission])
    ensures { AreWorkspaces submissions.now }
{
    for submission in submissions {
        let _packages = submission.tree.packages().packages();
    }
}

/// Whether a ticket is among those of submissions.
pub fn has_ticket(submissions: &[Submission], ticket: u64) -> bool
    ensures { result ≡ has_ticket ticket submissions.now }
{
    submissions
        .iter()
        .any(|submission| submission.ticket.0 == ticket)
}

impl Submissions {
    /// These submissions, to be shared.
    ///
    /// # Errors
    ///
    /// `AllocError` where memory is wanting.
    pub fn new(alloc: Global, list: Vec<Submission>) -> Result<Submissions, AllocError>
        ensures { IfOk result (λ s. s ≡ list.items) }
    {
        are_workspaces(&list);
        Ok(Submissions {
            list: Arc::new(alloc, list)?,
        })
    }

    /// The same submissions once more. It takes no memory.
    ///
    /// # Errors
    ///
    /// `AllocError` where they have too many owners.
    pub fn share(&self) -> Result<Submissions, AllocError>
        ensures { IfOk result (λ s. s ≡ self.now) }
    {
        Ok(Submissions {
            list: Arc::try_clone(&self.list)?,
        })
    }

    /// The submissions in order.
    pub fn as_slice(&self) -> &[Submission]
        ensures { result.now ≡ self.now }
    {
        self.list.as_slice()
    }

    // Each tree is a workspace.
    pub(crate) fn are_workspaces(&self)
        ensures { AreWorkspaces self.now }
    {
        let _list = &self.list;
    }

    /// The packages of a workspace, with each tree in the place of its module's packages, one after another. The packages are shared.
    ///
    /// # Errors
    ///
    /// `AllocError` where memory is wanting.
    pub fn put_into(&self, sources: Workspace) -> Result<Workspace, AllocError>
        ensures { IfOk result (λ w. w ≡ submitted sources self.now) }
    {
        let mut sources = sources;
        for submission in self.as_slice() {
            put_tree(&mut sources, &submission.tree)?;
        }
        Ok(sources)
    }
}
