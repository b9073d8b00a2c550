//! Sessions, which read the board with no lock.
ghost use Rattle.std.specs.Prelude.{◌≡◌, ◌+◌, IfErr, IfOk, OnOk, option_map, string_bytes};
ghost use Rattle.go_hall_core.specs.submit_core.Published.{BeginsWith};
ghost use Rattle.go_session_core.specs.queries.Asked.{BeginsTold, IsAnswer, IsPartAnswer};
ghost use Rattle.go_session_core.specs.queries.Built.{IsBuilt};
ghost use Rattle.go_session_core.specs.overlay.Edits.{IsEditOf, IsEditRefusal};
ghost use Rattle.go_hall.specs.Refusals.{IsBuildRefusal};
ghost use Rattle.go_session_core.specs.queries.Looked.{looked_with};
ghost use Rattle.go_session_core.specs.queries.Queries.{IsCompleteAnswer, IsDefineAnswer, IsRunAnswer};

use crate::hall::Hall;
use go_hall_core::board_core::{Board, BoardReader, Sees};
use go_hall_core::sched_core::SessionId;
use go_hall_core::submit_core::ModuleTree;
use go_hall_core::{Named, Submits};
use go_machine_core::runs::Run;
use go_package_core::package_part::Part;
use go_path_core::text_core::Rule;
use go_session_core::overlay::edited;
use go_session_core::queries::{Fault, Look, faults_built};
use std::alloc::{AllocError, Global};
use std::marker::Model;
use std::sync::Wait;

/// What a build answers.
#[derive(Drop)]
pub struct Built {
    /// The number of batches that it covers. By the snapshot of the last of these,
    pub batch: u64,
    /// these are the faults in the session's module, by path, file, offset, and the bytes of the rule's number.
    pub faults: Vec<Fault>,
}

/// A session of a hall: a module that it holds, the draft of its tree, and a reader of the board. Contracts see its number, its draft, what it saw of
/// the board and was told of it, and how often it submitted.
pub struct Session<'a, L: Named> {
    hall: &'a Hall<L>,
    alloc: Global,
    id: SessionId,
    draft: ModuleTree,
    // A look at the board has it while it runs.
    reader: Option<BoardReader>,
    mine: Submits<L>,
}

impl<'a, L: Named> Drop for Session<'a, L> {
    fn drop(self) {
        let Session {
            hall: _,
            alloc: _,
            id: _,
            draft: _,
            reader: _,
            mine: _,
        } = self;
    }
}

impl<'a, L: Named> Model for Session<'a, L> {
    ghost use Rattle.std.specs.Prelude.{MatchOption};
    ghost use Rattle.go_hall_core.specs.board_core.declared.rule.View.{View};
    ghost use Rattle.left_right.specs.Sides.{view as place_view};
    ghost use Rattle.go_hall.specs.Coding.{coded_seat};
    ghost use Rattle.go_hall.specs.Seat.{Seat, view_by};

    ghost Value = { Seat };

    ghost coded = { coded_seat };

    ghost view = { λ s. record { id = s.id; draft = s.draft; seen = (view_by (λ r. place_view {V = View} r.place) s.reader).seen; told = (view_by (λ r. place_view {V = View} r.place) s.reader).told; submits = s.mine.count } };

    ghost invariant = { λ s. MatchOption s.reader ⊥ (λ _. Unit {0}) };
}

impl<'a, L: Named> Session<'a, L> {
    pub(crate) fn new(
        hall: &'a Hall<L>,
        alloc: Global,
        id: SessionId,
        draft: ModuleTree,
        reader: BoardReader,
        mine: Submits<L>,
    ) -> Session<'a, L>
        ensures { (result.draft ≡ draft) × (result.id ≡ id) × (result.submits ≡ mine.count) }
    {
        Session {
            hall,
            alloc,
            id,
            draft,
            reader: Some(reader),
            mine,
        }
    }

    /// Sets a file of the draft to a text, or takes it away. A file that is away already is no fault.
    ///
    /// # Errors
    ///
    /// `Rule::E1` where the path is none or lies outside the module; else the first of the rules `Rule::E1` to `Rule::E5` that the draft would break
    /// then. `Rule::M0` where memory is wanting. The draft stays.
    pub fn edit(&mut self, path: &str, file: &str, text: Option<String>) -> Result<(), Rule>
        ensures ok { OnOk result (IsEditOf self.old.draft path.now file.now (option_map (λ s. string_bytes s) text) self.new.draft × (self.new ≡ record self.old { draft = self.new.draft })) }
        ensures err { IfErr result (λ rule. IsEditRefusal self.old.draft path.now file.now (option_map (λ s. string_bytes s) text) rule × (self.new ≡ self.old)) }
    {
        self.draft = edited(self.alloc, &self.draft, path, file, text)?;
        Ok(())
    }

    // The board as it is now.
    fn enter(&mut self) -> Result<Board, Rule>
        ensures later { BeginsWith self.new.seen self.old.seen }
        ensures told { OnOk result (BeginsWith self.new.seen self.old.told) }
        ensures same { self.new ≡ record self.old { seen = self.new.seen } }
        ensures board { IfOk result (λ b. b ≡ self.new.seen) }
        ensures err { IfErr result (λ rule. rule ≡ Rule.M0) }
    {
        let reader = self.reader.take().unwrap();
        match reader.enter_as::<Sees>() {
            Ok(reading) => {
                let board = reading.get().share();
                self.reader = Some(reading.leave());
                match board {
                    Ok(board) => Ok(board),
                    Err(AllocError) => Err(Rule::M0),
                }
            }
            Err(reader) => {
                self.reader = Some(reader);
                Err(Rule::M0)
            }
        }
    }

    /// A look at the board as it is now. It takes neither lock nor leave to wait.
    ///
    /// # Errors
    ///
    /// `Rule::M0` where the board cannot be entered, or has too many owners.
    pub fn look(&mut self) -> Result<Look, Rule>
        ensures later { BeginsWith self.new.seen self.old.seen }
        ensures told { OnOk result (BeginsWith self.new.seen self.old.told) }
        ensures same { self.new ≡ record self.old { seen = self.new.seen } }
        ensures look { IfOk result (λ l. l ≡ looked_with self.old.draft.own self.new.seen) }
        ensures err { IfErr result (λ rule. rule ≡ Rule.M0) }
    {
        let Ok(own) = self.draft.own().share() else {
            return Err(Rule::M0);
        };
        let board = self.enter()?;
        Ok(Look::new(own, board))
    }

    /// The part of the assembled package of a path in the session's module, with the number of batches that it covers. It takes neither lock nor leave
    /// to wait.
    ///
    /// # Errors
    ///
    /// `Rule::Q4` where the path lies outside the module; `Rule::Q1` where no assembled package has it; `Rule::M0` where memory is wanting, or the board
    /// cannot be entered.
    #[tactic(auto, using(crate::proofs::Answered::answer_on, crate::proofs::Answered::begins_told))]
    pub fn part(&mut self, path: &str) -> Result<(u64, Part), Rule>
        ensures later { BeginsWith self.new.seen self.old.seen }
        ensures told { BeginsTold result self.new.seen self.old.told }
        ensures same { self.new ≡ record self.old { seen = self.new.seen } }
        ensures answer { IsAnswer self.old.draft.own path.now self.new.seen (IsPartAnswer path.now) result }
    {
        let look = self.look()?;
        look.part(self.alloc, path)
    }

    /// How the declaration is written of the identifier that is used at an offset of a file, in bytes from 0, with the number of batches that this covers.
    /// It takes neither lock nor leave to wait.
    ///
    /// # Errors
    ///
    /// Those of `Look::define`, and `Rule::M0` where the board cannot be entered.
    #[tactic(auto, using(crate::proofs::Answered::answer_on, crate::proofs::Answered::begins_told))]
    pub fn define(&mut self, path: &str, file: &str, offset: u64) -> Result<(u64, String), Rule>
        ensures later { BeginsWith self.new.seen self.old.seen }
        ensures told { BeginsTold result self.new.seen self.old.told }
        ensures same { self.new ≡ record self.old { seen = self.new.seen } }
        ensures answer { IsAnswer self.old.draft.own path.now self.new.seen (IsDefineAnswer path.now file.now offset) result }
    {
        let look = self.look()?;
        look.define(self.alloc, path, file, offset)
    }

    /// The names that may stand in the place of the identifier at an offset of a file, in bytes from 0, in byte order, with the number of batches that this
    /// covers. It takes neither lock nor leave to wait.
    ///
    /// # Errors
    ///
    /// Those of `Look::complete`, and `Rule::M0` where the board cannot be entered.
    #[tactic(auto, using(crate::proofs::Answered::answer_on, crate::proofs::Answered::begins_told))]
    pub fn complete(
        &mut self,
        path: &str,
        file: &str,
        offset: u64,
    ) -> Result<(u64, Vec<String>), Rule>
        ensures later { BeginsWith self.new.seen self.old.seen }
        ensures told { BeginsTold result self.new.seen self.old.told }
        ensures same { self.new ≡ record self.old { seen = self.new.seen } }
        ensures answer { IsAnswer self.old.draft.own path.now self.new.seen (IsCompleteAnswer path.now file.now offset) result }
    {
        let look = self.look()?;
        look.complete(self.alloc, path, file, offset)
    }

    /// What the package of a path comes to in at most so many steps, one for each instruction, with the number of batches that this covers. It takes
    /// neither lock nor leave to wait; the time is linear in the packages and in the steps.
    ///
    /// # Errors
    ///
    /// Those of `Look::run`, and `Rule::M0` where the board cannot be entered.
    #[tactic(auto, using(crate::proofs::Answered::answer_on, crate::proofs::Answered::begins_told))]
    pub fn run(&mut self, path: &str, steps: u64) -> Result<(u64, Run), Rule>
        ensures later { BeginsWith self.new.seen self.old.seen }
        ensures told { BeginsTold result self.new.seen self.old.told }
        ensures same { self.new ≡ record self.old { seen = self.new.seen } }
        ensures answer { IsAnswer self.old.draft.own path.now self.new.seen (IsRunAnswer path.now steps) result }
    {
        let look = self.look()?;
        look.run(self.alloc, path, steps)
    }

    // The faults in the module by the batch of a number, where the batches up to it leave the draft to it.
    #[tactic(auto, using(crate::proofs::Lasts::built_on))]
    fn built(&mut self, number: u64) -> Result<Built, Rule>
        ensures later { BeginsWith self.new.seen self.old.seen }
        ensures told { OnOk result (BeginsWith self.new.seen self.old.told) }
        ensures same { self.new ≡ record self.old { seen = self.new.seen } }
        ensures answer { IfOk result (λ b. IsBuilt self.new.seen self.old.draft b.batch b.faults.items) }
        ensures err { IfErr result (λ rule. rule ≡ Rule.M0) }
    {
        let board = self.enter()?;
        let faults = faults_built(self.alloc, &board, number, &self.draft)?;
        Ok(Built {
            batch: number,
            faults,
        })
    }

    /// Hands the draft in, and waits until it is published: after so many batches the draft is the tree of its module, and these are the faults in it.
    ///
    /// # Errors
    ///
    /// What `HallState::submit` answers, which is `Rule::O5`, `Rule::E1`, `Rule::H1`, `Rule::H2` or `Rule::M0`; `Rule::H2` where the hall is stopped
    /// meanwhile, and `Rule::M0` where memory is wanting, or its batch was given back. The draft stays. Where memory is wanting so long that no worker can begin, the submission stays too, and may be published later.
    pub fn build<R: Wait>(&mut self, rt: &R) -> Result<Built, Rule>
        ensures later { BeginsWith self.new.seen self.old.seen }
        ensures told { OnOk result (BeginsWith self.new.seen self.old.told) }
        ensures same { self.new ≡ record self.old { seen = self.new.seen; submits = self.new.submits } }
        ensures built { IfOk result (λ b. IsBuilt self.new.seen self.old.draft b.batch b.faults.items) }
        ensures counted { OnOk result (self.new.submits ≡ self.old.submits + 1) }
        ensures err { IfErr result (λ rule. IsBuildRefusal self.old.id self.old.draft rule) }
    {
        let Ok(tree) = self.draft.share() else {
            return Err(Rule::M0);
        };
        let ticket = self.hall.submit(rt, &mut self.mine, self.id, tree)?;
        let number = self.hall.published(rt, ticket)?;
        self.built(number)
    }

    /// Closes the session, which nothing refuses. How often it submitted.
    pub fn close<R: Wait>(self, rt: &R) -> Submits<L>
        ensures { result.count ≡ self.entry.submits }
    {
        let Session {
            hall,
            alloc: _,
            id,
            draft: _,
            reader,
            mine,
        } = self;
        hall.close(rt, id, reader);
        mine
    }
}
