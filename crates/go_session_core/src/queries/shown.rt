//! What the batches of a board show of a module.
ghost use Rattle.std.specs.Prelude.{◌≡◌, ◌≤◌, [], IfErr, IfOk, IsTrue, MatchOption, Some, ⊤, length, take};
ghost use Rattle.go_graph_core.specs.Workspaces.{packages_inside};
ghost use Rattle.go_board_core.specs.submit_core.Published.{IsOneWorker, last_of, sources_of};
ghost use Rattle.go_session_core.specs.queries.Built.{IsBuilt};

use crate::queries::faults::{Fault, faults_in};
use crate::queries::kept::are_left;
use go_board_core::Board;
use go_board_core::submit_core::{KeptBatch, ModuleTree, PublishedBatch};
use go_path_core::text_core::Rule;
use std::alloc::{AllocError, Global};

// The batch of a number, from 1. Its snapshot is the one that one worker gives of the batches up to it.
#[tactic(auto, using(crate::proofs::QueriesLasts::numbered_is))]
fn numbered(board: &Board, number: u64) -> Option<&KeptBatch>
    ensures { MatchOption result ⊤ (λ b. (number ≤ length board.now) × IsOneWorker (sources_of (take number board.now)) b.now.snapshot) }
{
    if number == 0 || number > board.len() as u64 {
        return None;
    }
    board.get(number as usize - 1)
}

// Whether a batch leaves this tree to its module.
fn leaves(alloc: Global, batch: &KeptBatch, tree: &ModuleTree) -> Result<bool, AllocError>
    ensures { IfOk result (λ is. IsTrue is → packages_inside tree.now.own batch.now.snapshot.sources ≡ tree.now.packages) }
{
    are_left(
        alloc,
        tree.own(),
        batch.snapshot(),
        tree.packages().packages(),
    )
}

/// The last batch, whose snapshot is the one that one worker gives of all batches on the board.
#[tactic(auto, using(crate::proofs::QueriesLasts::last_is))]
pub(crate) fn last_batch(board: &Board) -> Option<&PublishedBatch>
    ensures { MatchOption result (board.now ≡ []) (λ b. (last_of board.now ≡ Some b.now) × IsOneWorker (sources_of board.now) b.now.snapshot) }
{
    board.last()
}

/// The faults in the module of a tree by the batch of a number, where the batches up to it leave this tree to its module.
///
/// # Errors
///
/// `Rule::M0` where memory is wanting, and where they leave another tree to it.
#[tactic(auto, using(crate::proofs::QueriesLasts::built_is))]
pub fn faults_built(
    alloc: Global,
    board: &Board,
    number: u64,
    tree: &ModuleTree,
) -> Result<Vec<Fault>, Rule>
    ensures ok { IfOk result (λ faults. IsBuilt board.now tree.now number faults.items) }
    ensures err { IfErr result (λ rule. rule ≡ Rule.M0) }
{
    let Some(batch) = numbered(board, number) else {
        return Err(Rule::M0);
    };
    let Ok(is) = leaves(alloc, batch, tree) else {
        return Err(Rule::M0);
    };
    if !is {
        return Err(Rule::M0);
    }
    match faults_in(alloc, tree.own(), batch.snapshot()) {
        Ok(faults) => Ok(faults),
        Err(_) => Err(Rule::M0),
    }
}
