//! What sessions are told, with nothing to run.
ghost use Rattle.std.specs.Prelude.{◌≡◌, [], MatchOption, Some};
ghost use Rattle.go_graph_core.specs.Workspaces.{IsReadWorkspace};
ghost use Rattle.go_submit_core.specs.Published.{AreSound, IsOneWorker, last_of, sources_of};
ghost use Rattle.go_headline_laws.specs.SessionHeadline.{IsBoard, PublishedAreBoards, SessionHeadline, SessionRunsAsMeant};

use crate::separation::{runs_are_sound, trees_are_well};
use go_board_core::Board;
use go_completion_laws::completions_are_exact;
use go_cursor_core::names_are_occurrences;
use go_documentation_laws::types_are_exact;
use go_import_core::list::added_imports_are_judged;
use go_program_laws::references::programs_run;
use go_submit_core::{PublishedBatch, one_worker};
use go_workspace_laws::outcomes_are_of_occurrences;

// The packages of a snapshot are a workspace of which each file is read: its type keeps that.
#[tactic(auto, using(crate::proofs::SessionsBoards::read_of))]
fn is_read(batch: &PublishedBatch)
    ensures { IsReadWorkspace batch.now.snapshot.sources }
{
    let _packages = batch.snapshot.get().sources().packages();
}

// The last batch of a board, whose snapshot is the one that one worker gives of all batches on it.
#[tactic(auto, using(crate::proofs::SessionsBoards::last_is))]
fn last_batch(board: &Board) -> Option<&PublishedBatch>
    ensures last { MatchOption result (board.now ≡ []) (λ b. (last_of board.now ≡ Some b.now) × IsOneWorker (sources_of board.now) b.now.snapshot) }
    ensures sound { AreSound board.now }
{
    board.last()
}

/// What is on a board is a workspace of which each file is read from its text, and each snapshot is the one that one worker gives of the batches up to it:
/// so it is of every board that a caller can have, and the laws of sessions hold of all. Nothing is done.
#[tactic(auto, using(crate::proofs::SessionsBoards::board_of, crate::proofs::SessionsBoards::no_board))]
pub fn are_boards(board: &Board)
    ensures { IsBoard board.now }
{
    match last_batch(board) {
        Some(batch) => is_read(batch),
        None => {}
    }
}

/// What the service has published at any time is as it is on boards, up to any batch.
pub fn published_are_boards()
    ensures { PublishedAreBoards }
{
    runs_are_sound();
    trees_are_well();
}

/// What a session is told of a run is what the functions of the program mean, and it is never told Z1.
///
/// The Go specification, "Packages", "Program initialization and execution".
pub fn session_runs_as_meant()
    ensures { SessionRunsAsMeant }
{
    programs_run();
}

/// What sessions are told that ask of their modules, in the words of what is published: of packages to import, of docs, declarations, names and runs.
///
/// The Go specification, "Declarations and scope", "Import declarations", "Exported identifiers", "Qualified identifiers", "Selectors", "Program
/// initialization and execution".
pub fn session_headline()
    ensures { SessionHeadline }
{
    published_are_boards();
    one_worker();
    outcomes_are_of_occurrences();
    added_imports_are_judged();
    names_are_occurrences();
    completions_are_exact();
    types_are_exact();
    session_runs_as_meant();
}
