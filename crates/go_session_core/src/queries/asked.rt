//! What sessions ask of a board that they have entered.
ghost use Rattle.std.specs.Prelude.{◌≡◌, ◌⊎◌, [], IfErr, IfOk, Some, length};
ghost use Rattle.go_board_core.specs.submit_core.Published.{IsOneWorker, last_of, sources_of};
ghost use Rattle.go_board_core.specs.submit_core.declared.published.PublishedBatch.{PublishedBatch};
ghost use Rattle.go_session_core.specs.queries.Asked.{IsAnswer, IsPartAnswer};
ghost use Rattle.go_machine_core.specs.runs.Runs.{Gives, run_shown};
ghost use Rattle.go_session_core.specs.queries.Queries.{IsCompleteAnswer, IsDefineAnswer, IsDocAnswer, IsListAnswer, IsRunAnswer, IsRunRefusal, IsTypeDocAnswer, program_in};
ghost use Rattle.go_session_core.specs.queries.Looked.{looked_with};

use crate::launches::run;
use crate::overlay::asked_path;
use crate::queries::shown::last_batch;
use go_board_core::Board;
use go_complete_core::snap_core::Snapshot;
use go_emit_core::package_core::Part;
use go_machine_core::runs::Run;
use go_path_core::text_core::Rule;
use go_path_core::{ImportPath, Module};
use go_site_core::site_text_of;
use go_type_doc_core::query_core::{Listing, PackageDoc, complete, define, doc, list};
use go_type_doc_core::{TypeDoc, doc_of_type};
use std::alloc::Global;
use std::marker::Model;

// The snapshot of the last batch. Before the first one there is no package: Q1.
fn last_snapshot(board: &Board) -> Result<&Snapshot, Rule>
    ensures ok { IfOk result (λ s. (b : PublishedBatch) × (last_of board.now ≡ Some b) × IsOneWorker (sources_of board.now) b.snapshot × (s.now ≡ b.snapshot)) }
    ensures err { IfErr result (λ rule. (rule ≡ Rule.Q1) × (board.now ≡ [])) }
{
    match last_batch(board) {
        Some(batch) => Ok(batch.snapshot.get()),
        None => Err(Rule::Q1),
    }
}

// The part of the assembled package of a path.
fn part_of(snapshot: &Snapshot, path: &ImportPath) -> Result<Part, Rule>
    ensures { IsPartAnswer path.now snapshot.now result }
{
    match snapshot.part(path) {
        Some(part) => match part.share() {
            Ok(part) => Ok(part),
            Err(_) => Err(Rule::M0),
        },
        None => Err(Rule::Q1),
    }
}

// The package of a path, and those that it could import.
fn listed<'s>(alloc: Global, snapshot: &'s Snapshot, from: &ImportPath) -> Result<Listing<'s>, Rule>
    ensures { IsListAnswer from.now snapshot.now result }
{
    match list(alloc, snapshot, from) {
        Ok(listing) => Ok(listing),
        Err(rule) => Err(rule),
    }
}

// What the package of a path declares, as the package `from` sees it.
fn documented<'s>(
    alloc: Global,
    snapshot: &'s Snapshot,
    from: &ImportPath,
    path: &str,
) -> Result<PackageDoc<'s>, Rule>
    ensures { IsDocAnswer from.now path.now snapshot.now result }
{
    match doc(alloc, snapshot, from, path) {
        Ok(found) => Ok(found),
        Err(rule) => Err(rule),
    }
}

// How the declaration is written of the identifier that is used at an offset of a file.
fn defined(
    alloc: Global,
    snapshot: &Snapshot,
    path: &ImportPath,
    file: &str,
    offset: usize,
) -> Result<String, Rule>
    ensures { IsDefineAnswer path.now file.now offset snapshot.now result }
{
    match define(alloc, snapshot, path, file, offset) {
        Ok(site) => match site_text_of(alloc, snapshot.sources(), site) {
            Ok(text) => Ok(text),
            Err(_) => Err(Rule::M0),
        },
        Err(rule) => Err(rule),
    }
}

// The names that may stand in the place of the identifier at an offset of a file.
fn completed(
    alloc: Global,
    snapshot: &Snapshot,
    path: &ImportPath,
    file: &str,
    offset: usize,
) -> Result<Vec<String>, Rule>
    ensures { IsCompleteAnswer path.now file.now offset snapshot.now result }
{
    match complete(alloc, snapshot, path, file, offset) {
        Ok(names) => Ok(names),
        Err(rule) => Err(rule),
    }
}

// What a variable of a type has, as the package `from` sees it.
fn type_documented<'s>(
    alloc: Global,
    snapshot: &'s Snapshot,
    from: &ImportPath,
    path: &str,
    type_name: &str,
) -> Result<TypeDoc<'s>, Rule>
    ensures { IsTypeDocAnswer from.now path.now type_name.now snapshot.now result }
{
    match doc_of_type(alloc, snapshot, from, path, type_name) {
        Ok(found) => Ok(found),
        Err(rule) => Err(rule),
    }
}

// What the program of the package of a path comes to in so many steps.
#[tactic(auto, using(crate::proofs::QueriesRunning::gives_same, crate::proofs::QueriesRunning::refused_same))]
fn run_program(
    alloc: Global,
    snapshot: &Snapshot,
    path: &ImportPath,
    steps: u64,
) -> Result<Run, Rule>
    ensures ok { IfOk result (λ run. Gives (program_in snapshot.now path.now) steps (run_shown run)) }
    ensures err { IfErr result (λ rule. (rule ≡ Rule.M0) ⊎ IsRunRefusal (program_in snapshot.now path.now) steps rule) }
{
    let Ok(objects) = snapshot.objects(alloc) else {
        return Err(Rule::M0);
    };
    match run(alloc, &objects, path, steps) {
        Ok(run) => Ok(run),
        Err(rule) => Err(rule),
    }
}

// What the assembled package of a path comes to in so many steps.
#[tactic(auto, using(crate::proofs::QueriesRunning::run_answered))]
fn ran(alloc: Global, snapshot: &Snapshot, path: &ImportPath, steps: u64) -> Result<Run, Rule>
    ensures { IsRunAnswer path.now steps snapshot.now result }
{
    match snapshot.part(path) {
        Some(_) => run_program(alloc, snapshot, path, steps),
        None => Err(Rule::Q1),
    }
}

/// The board as a session saw it at one moment, and the module whose packages the session may ask of. It holds no lock and no place on the board, so it
/// may be kept. Contracts see the two.
pub struct Look {
    own: Module,
    board: Board,
}

impl Drop for Look {
    fn drop(self) {
        let Look { own: _, board: _ } = self;
    }
}

impl Model for Look {
    ghost use Rattle.go_session_core.specs.queries.Coding.{coded_looked};
    ghost use Rattle.go_session_core.specs.queries.Looked.{Looked, looked_with};

    ghost Value = { Looked };

    ghost coded = { coded_looked };

    ghost view = { λ l. looked_with l.own l.board };
}

impl Look {
    /// A look of a session of this module at this board.
    pub fn new(own: Module, board: Board) -> Look
        ensures { result ≡ looked_with own board }
    {
        Look { own, board }
    }

    /// The number of batches that answers cover.
    pub fn batches(&self) -> u64
        ensures { result ≡ length self.now.board }
    {
        self.board.len() as u64
    }

    /// The part of the assembled package of a path by the last batch, with the number of batches that this covers.
    ///
    /// # Errors
    ///
    /// `Rule::Q4` where the path lies outside the module; `Rule::Q1` where no assembled package has it; `Rule::M0` where memory is wanting.
    #[tactic(auto, using(crate::proofs::QueriesAnswered::answers, crate::proofs::QueriesAnswered::refuses))]
    pub fn part(&self, alloc: Global, path: &str) -> Result<(u64, Part), Rule>
        ensures { IsAnswer self.now.own path.now self.now.board (IsPartAnswer path.now) result }
    {
        let path = asked_path(alloc, &self.own, path)?;
        let snapshot = last_snapshot(&self.board)?;
        match part_of(snapshot, &path) {
            Ok(part) => Ok((self.batches(), part)),
            Err(rule) => Err(rule),
        }
    }

    /// The package of a path and those that it could import, by the last batch, with the number of batches that this covers.
    ///
    /// # Errors
    ///
    /// `Rule::Q4` where the path lies outside the module; `Rule::Q1` where no assembled package has it; `Rule::M0` where memory is wanting.
    #[tactic(auto, using(crate::proofs::QueriesAnswered::answers, crate::proofs::QueriesAnswered::refuses))]
    pub fn list(&self, alloc: Global, from: &str) -> Result<(u64, Listing<'_>), Rule>
        ensures { IsAnswer self.now.own from.now self.now.board (IsListAnswer from.now) result }
    {
        let from = asked_path(alloc, &self.own, from)?;
        let snapshot = last_snapshot(&self.board)?;
        match listed(alloc, snapshot, &from) {
            Ok(listing) => Ok((self.batches(), listing)),
            Err(rule) => Err(rule),
        }
    }

    /// What the package of a path declares, as the package `from` sees it, by the last batch, with the number of batches that this covers: all of its own
    /// names, or what another package exports that it may import.
    ///
    /// # Errors
    ///
    /// `Rule::Q4` where `from` lies outside the module; `Rule::Q1` where no assembled package has it; else the first rule that an import of the path in
    /// it would break. `Rule::M0` where memory is wanting.
    #[tactic(auto, using(crate::proofs::QueriesAnswered::answers, crate::proofs::QueriesAnswered::refuses))]
    pub fn doc(&self, alloc: Global, from: &str, path: &str) -> Result<(u64, PackageDoc<'_>), Rule>
        ensures { IsAnswer self.now.own from.now self.now.board (IsDocAnswer from.now path.now) result }
    {
        let from = asked_path(alloc, &self.own, from)?;
        let snapshot = last_snapshot(&self.board)?;
        match documented(alloc, snapshot, &from, path) {
            Ok(found) => Ok((self.batches(), found)),
            Err(rule) => Err(rule),
        }
    }

    /// How the declaration is written of the identifier that is used at an offset of a file, in bytes from 0, by the last batch, with the number of
    /// batches that this covers.
    ///
    /// # Errors
    ///
    /// `Rule::Q4` where the path lies outside the module; `Rule::Q1` where no assembled package has it; `Rule::Q2` where it has no file of this name, or
    /// no identifier stands at the offset; `Rule::Q3` where one stands there and is not used; else the rule that its use breaks. `Rule::M0` where memory
    /// is wanting.
    #[tactic(auto, using(crate::proofs::QueriesAnswered::answers, crate::proofs::QueriesAnswered::refuses))]
    pub fn define(
        &self,
        alloc: Global,
        path: &str,
        file: &str,
        offset: u64,
    ) -> Result<(u64, String), Rule>
        ensures { IsAnswer self.now.own path.now self.now.board (IsDefineAnswer path.now file.now offset) result }
    {
        let path = asked_path(alloc, &self.own, path)?;
        let snapshot = last_snapshot(&self.board)?;
        match defined(alloc, snapshot, &path, file, offset as usize) {
            Ok(text) => Ok((self.batches(), text)),
            Err(rule) => Err(rule),
        }
    }

    /// The names that may stand in the place of the identifier at an offset of a file, in bytes from 0, in byte order, by the last batch, with the number
    /// of batches that this covers.
    ///
    /// # Errors
    ///
    /// `Rule::Q4` where the path lies outside the module; `Rule::Q1` where no assembled package has it; `Rule::Q2` where it has no file of this name, or
    /// no identifier stands at the offset; `Rule::Q3` where one stands there and is not used. `Rule::M0` where memory is wanting.
    #[tactic(auto, using(crate::proofs::QueriesAnswered::answers, crate::proofs::QueriesAnswered::refuses))]
    pub fn complete(
        &self,
        alloc: Global,
        path: &str,
        file: &str,
        offset: u64,
    ) -> Result<(u64, Vec<String>), Rule>
        ensures { IsAnswer self.now.own path.now self.now.board (IsCompleteAnswer path.now file.now offset) result }
    {
        let path = asked_path(alloc, &self.own, path)?;
        let snapshot = last_snapshot(&self.board)?;
        match completed(alloc, snapshot, &path, file, offset as usize) {
            Ok(names) => Ok((self.batches(), names)),
            Err(rule) => Err(rule),
        }
    }

    /// What a variable of a type of the package of a path has, as the package `from` sees it, by the last batch, with the number of batches that this
    /// covers.
    ///
    /// # Errors
    ///
    /// `Rule::Q4` where `from` lies outside the module; `Rule::Q1` where no assembled package has it; else the first rule that an import of the path, or
    /// then the type's name, would break there. `Rule::M0` where memory is wanting.
    #[tactic(auto, using(crate::proofs::QueriesAnswered::answers, crate::proofs::QueriesAnswered::refuses))]
    pub fn doc_of_type(
        &self,
        alloc: Global,
        from: &str,
        path: &str,
        type_name: &str,
    ) -> Result<(u64, TypeDoc<'_>), Rule>
        ensures { IsAnswer self.now.own from.now self.now.board (IsTypeDocAnswer from.now path.now type_name.now) result }
    {
        let from = asked_path(alloc, &self.own, from)?;
        let snapshot = last_snapshot(&self.board)?;
        match type_documented(alloc, snapshot, &from, path, type_name) {
            Ok(found) => Ok((self.batches(), found)),
            Err(rule) => Err(rule),
        }
    }

    /// What the package of a path comes to in at most so many steps, one for each instruction, by the last batch, with the number of batches that this
    /// covers. The time is linear in the workspace and in the steps.
    ///
    /// # Errors
    ///
    /// `Rule::Q4` where the path lies outside the module; `Rule::Q1` where no assembled package has it; `Rule::J1` where there is a fault in the package,
    /// or it is not called `main`, or has no function `main`; `Rule::J2` where there is a fault in a package that it reaches by imports, or it reaches a
    /// function of which no code is made. `Rule::M0` where memory is wanting. `Rule::Z1` where an instruction lacks what it asks for.
    #[tactic(auto, using(crate::proofs::QueriesAnswered::answers, crate::proofs::QueriesAnswered::refuses))]
    pub fn run(&self, alloc: Global, path: &str, steps: u64) -> Result<(u64, Run), Rule>
        ensures { IsAnswer self.now.own path.now self.now.board (IsRunAnswer path.now steps) result }
    {
        let path = asked_path(alloc, &self.own, path)?;
        let snapshot = last_snapshot(&self.board)?;
        match ran(alloc, snapshot, &path, steps) {
            Ok(run) => Ok((self.batches(), run)),
            Err(rule) => Err(rule),
        }
    }
}
