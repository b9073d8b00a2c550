//! The published batches, shared.
ghost use Rattle.std.specs.Prelude.{◌≡◌, ◌++◌, ◌∷◌, [], IfOk, IfSome, MatchOption, length, slice_get};
ghost use Rattle.std.specs.Option.{option_copied};
ghost use Rattle.go_graph_core.specs.Workspaces.{AreAllRead};
ghost use Rattle.go_submit_core.specs.Laws.{HaveLastTrees};
ghost use Rattle.go_submit_core.specs.Published.{AreSound, IsEarlierPart, IsFoundIn, IsOneWorker, LeavesWhere, last_of, modules_of, number_of, sources_of};
ghost use Rattle.go_submit_core.specs.Submitted.{submitted};

use crate::kept::KeptBatch;
use crate::laws::published_trees;
use crate::list::BatchList;
use crate::module_list::ModuleList;
use crate::modules::shared_modules;
use crate::published::PublishedBatch;
use crate::submission::{Ticket, has_ticket};
use go_graph_core::Workspace;
use go_package_core::package_part::Part;
use go_path_core::{ImportPath, Module};
use go_snap_core::SharedSnapshot;
use std::alloc::{AllocError, Global};
use std::marker::Model;
use std::sync::Arc;

// The batches, the last of them with its whole snapshot, and the modules of which there is a submission among them, each once.
#[derive(Drop)]
struct Listing {
    batches: BatchList,
    last: Option<PublishedBatch>,
    modules: ModuleList,
}

/// The published batches, in the order in which they were published. A handle over one shared pointer, and so is each batch. The last one is there whole;
/// of each one before only what its snapshot does not share with the one before it takes memory. Contracts see them as a list, and that each snapshot
/// is the one of what was published up to it.
pub struct Batches {
    list: Arc<Listing>,
}

impl Drop for Batches {
    fn drop(self) {
        let Batches { list: _ } = self;
    }
}

impl Model for Batches {
    ghost use Rattle.std.specs.Prelude.{List};
    ghost use Rattle.std.specs.Arc.{arc_value};
    ghost use Rattle.go_submit_core.specs.declared.published.PublishedBatch.{PublishedBatch};
    ghost use Rattle.go_submit_core.specs.Coding.{coded_batches};
    ghost use Rattle.go_submit_core.specs.mirrors.Keeping.{IsKept};

    ghost Value = { List PublishedBatch };

    ghost coded = { coded_batches };

    ghost view = { λ b. (arc_value b.list).batches };

    ghost invariant = { λ b. IsKept (arc_value b.list).batches (arc_value b.list).last (arc_value b.list).modules };
}

// The part of the package of a path in a snapshot, shared, where there is one.
fn part_in(shared: &SharedSnapshot, path: &ImportPath) -> Result<Option<Part>, AllocError>
    ensures part { IfOk result (λ found. IsFoundIn shared.now path.now found) }
    ensures read { IfOk result (λ found. IfSome found (λ p. AreAllRead p.input.source)) }
{
    let snapshot = shared.get();
    // Its parts are made of its packages, whose files are as they are read.
    let packages = snapshot.sources().packages();
    let _ = packages;
    match snapshot.part(path) {
        Some(part) => Ok(Some(part.share()?)),
        None => Ok(None),
    }
}

impl Batches {
    /// No batch.
    ///
    /// # Errors
    ///
    /// `AllocError` where memory is wanting.
    pub fn new(alloc: Global) -> Result<Batches, AllocError>
        ensures { IfOk result (λ b. b ≡ []) }
    {
        let list = Listing {
            batches: BatchList::new(alloc)?,
            last: None,
            modules: ModuleList::new(alloc)?,
        };
        Ok(Batches {
            list: Arc::new(alloc, list)?,
        })
    }

    /// These batches, and one more, whose snapshot is the one of what was published up to it. The marks say, by the numbers of packages, which of them are
    /// as they are in the last batch, with the same part; where none is there, or one is not marked, nothing is asked of it. The batches are shared: the
    /// time and the memory are those of one pointer for each batch behind the full pieces of 64, which are fewer than 64. Each 64th time it is one more
    /// for each piece, so a time one for each 4096 batches; and where a module is new, one handle for each module. The snapshot is kept by pieces of 64
    /// packages: it takes one handle for each piece, and more only for those in which a package is not marked or a fault is another.
    ///
    /// # Errors
    ///
    /// `AllocError` where memory is wanting.
    pub fn with_batch(
        &self,
        alloc: Global,
        batch: PublishedBatch,
        same: &[bool],
    ) -> Result<Batches, AllocError>
        requires whole { IsOneWorker (submitted (sources_of self.now) batch.submissions) batch.snapshot }
        requires leaves { LeavesWhere (last_of self.now) batch.snapshot same.now }
        ensures { IfOk result (λ b. b ≡ self.now ++ batch ∷ []) }
    {
        batch.submissions.are_workspaces();
        let modules = self.list.modules.with_those_of(alloc, &batch.submissions)?;
        let kept = KeptBatch::behind(alloc, self.last_kept(), &batch, same)?;
        let batches = self.list.batches.with_one(alloc, kept)?;
        let list = Listing {
            batches,
            last: Some(batch),
            modules,
        };
        Ok(Batches {
            list: Arc::new(alloc, list)?,
        })
    }

    /// The same batches once more. It takes no memory.
    ///
    /// # Errors
    ///
    /// `AllocError` where they have too many owners.
    pub fn share(&self) -> Result<Batches, AllocError>
        ensures { IfOk result (λ b. b ≡ self.now) }
    {
        Ok(Batches {
            list: Arc::try_clone(&self.list)?,
        })
    }

    /// How many batches there are.
    pub fn len(&self) -> usize
        ensures { result ≡ length self.now }
    {
        self.list.batches.len()
    }

    /// The batch of a place, counted from 0.
    pub fn get(&self, place: usize) -> Option<&KeptBatch>
        ensures value { option_copied result ≡ slice_get self.now place }
        ensures sound { AreSound self.now }
    {
        self.list.batches.get(place)
    }

    // The last batch, as it is listed.
    fn last_kept(&self) -> Option<&KeptBatch>
        ensures { option_copied result ≡ last_of self.now }
    {
        self.get(self.len().wrapping_sub(1))
    }

    // The last batch, with its whole snapshot.
    fn last_batch(&self) -> Option<&PublishedBatch>
        ensures value { option_copied result ≡ last_of self.now }
        ensures sound { AreSound self.now }
    {
        self.list.last.as_ref()
    }

    /// The last batch, with its whole snapshot.
    pub fn last(&self) -> Option<&PublishedBatch>
        ensures value { option_copied result ≡ last_of self.now }
        ensures sources { MatchOption result (sources_of self.now ≡ []) (λ b. b.now.snapshot.sources ≡ sources_of self.now) }
        ensures sound { AreSound self.now }
    {
        self.last_batch()
    }

    /// The modules of which a submission was published, each once, in the order of their first submissions. They are shared.
    ///
    /// # Errors
    ///
    /// `AllocError` where memory is wanting.
    pub fn copied_modules(&self, alloc: Global) -> Result<Vec<Module>, AllocError>
        ensures { IfOk result (λ v. v.items ≡ modules_of self.now) }
    {
        shared_modules(alloc, self.list.modules.as_slice())
    }

    /// The packages of all that is published: the last tree of each module. They are shared.
    ///
    /// # Errors
    ///
    /// `AllocError` where memory is wanting.
    pub fn sources(&self, alloc: Global) -> Result<Workspace, AllocError>
        ensures { IfOk result (λ w. w ≡ sources_of self.now) }
    {
        match self.last() {
            Some(batch) => batch.snapshot.get().sources().copy(alloc),
            None => Ok(Workspace::empty(alloc)),
        }
    }

    /// What is published of each module is its last tree, of all batches in order, and nothing where there is none. There is nothing to run.
    pub fn have_last_trees(&self)
        ensures { HaveLastTrees self.now }
    {
        published_trees();
        let _list = &self.list;
    }

    /// The last published part of the package of a path, shared, where there is one. It takes no memory.
    ///
    /// # Errors
    ///
    /// `AllocError` where the part has too many owners.
    pub fn earlier_part(&self, path: &ImportPath) -> Result<Option<Part>, AllocError>
        ensures part { IfOk result (λ part. IsEarlierPart self.now path.now part) }
        // The files of its package are as they are read.
        ensures read { IfOk result (λ part. IfSome part (λ p. AreAllRead p.input.source)) }
    {
        match self.last() {
            Some(batch) => part_in(&batch.snapshot, path),
            None => Ok(None),
        }
    }

    /// The number, from 1, of the last batch that has a ticket; `None` where none has it. The search begins at the last batch.
    pub fn number_of(&self, ticket: Ticket) -> Option<u64>
        ensures { result ≡ number_of ticket.0 self.now }
    {
        let count = self.len();
        for back in 0..count {
            let place = count - 1 - back;
            match self.get(place) {
                Some(batch) => {
                    if has_ticket(batch.submissions().as_slice(), ticket.0) {
                        return Some(place as u64 + 1);
                    }
                }
                None => unreachable!(),
            }
        }
        None
    }
}
