//! Sessions by number, for one script.
ghost use Rattle.std.specs.Prelude.{◌≡◌, IfOk};
ghost use Rattle.govisd_service.specs.desks.Desks.{no_sessions};

use crate::desks::seating::{answer_at, close};
use go_hall::hall_core::Named;
use go_hall::{Hall, Session};
use go_wire_core::{Desk, Request, WireReply};
use std::alloc::{AllocError, Global};
use std::marker::Model;
use std::sync::Wait;

/// How many sessions there may be: their numbers are 1 to 32.
const SESSIONS: usize = 32;

/// A desk with up to 32 sessions of a hall, which requests open, ask and close by number. Contracts see the sessions that are open, by number from 1.
pub struct ScriptDesk<'a, L: Named> {
    hall: &'a Hall<L>,
    alloc: Global,
    seats: Vec<Option<Session<'a, L>>>,
}

impl<'a, L: Named> Drop for ScriptDesk<'a, L> {
    fn drop(self) {
        let ScriptDesk {
            hall: _,
            alloc: _,
            seats: _,
        } = self;
    }
}

impl<'a, L: Named> Model for ScriptDesk<'a, L> {
    ghost use Rattle.std.specs.Prelude.{◌≡◌, List, Option, length};
    ghost use Rattle.std.specs.Coded.{coded_list, coded_option};
    ghost use Rattle.go_hall.specs.Coding.{coded_seat};
    ghost use Rattle.go_hall.specs.Seat.{Seat};

    ghost Value = { List (Option Seat) };

    ghost coded = { coded_list (coded_option coded_seat) };

    ghost view = { λ d. d.seats.items };

    ghost invariant = { λ d. length d.seats.items ≡ 32 };
}

// Places for sessions, none of which is open.
#[tactic(auto, using(crate::proofs::DesksMany::one_more))]
fn places<'a, L: Named>(alloc: Global) -> Result<Vec<Option<Session<'a, L>>>, AllocError>
    ensures { IfOk result (λ v. v.items ≡ no_sessions) }
{
    let mut places = Vec::new(alloc);
    for _ in 0..SESSIONS {
        places.push(None)?;
    }
    Ok(places)
}

impl<'a, L: Named> ScriptDesk<'a, L> {
    /// A desk of a hall. No session is open.
    ///
    /// # Errors
    ///
    /// `AllocError` where memory is wanting.
    pub fn new(alloc: Global, hall: &'a Hall<L>) -> Result<ScriptDesk<'a, L>, AllocError>
        ensures { IfOk result (λ d. d ≡ no_sessions) }
    {
        let seats = places(alloc)?;
        Ok(ScriptDesk { hall, alloc, seats })
    }

    /// Closes the sessions that are open.
    pub fn close<H: Wait>(&mut self, rt: &H) {
        for place in self.seats.iter_mut() {
            close(rt, place);
        }
    }
}

impl<'a, L: Named> Desk for ScriptDesk<'a, L> {
    ghost use Rattle.std.specs.Prelude.{true};
    ghost use Rattle.govisd_service.specs.desks.Desks.{ScriptAnswers};

    ghost is_numbered = { λ d. true };

    ghost answers = { λ old request reply new. ScriptAnswers old request reply new };

    fn numbered(&self) -> bool {
        true
    }

    fn answer<H: Wait>(&mut self, rt: &H, request: Request) -> WireReply {
        let Request { session, command } = request;
        let number = session.unwrap();
        let seats = &mut self.seats;
        let place = &mut seats[number as usize - 1];
        answer_at(rt, self.alloc, self.hall, place, command)
    }
}
