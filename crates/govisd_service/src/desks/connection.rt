//! One session, for a connection of its own.
ghost use Rattle.std.specs.Prelude.{◌≡◌, None};

use crate::desks::seating::{answer_at, close, is_build};
use crate::notices::{Tells, notice_in, notice_of_events};
use go_hall::hall_core::Named;
use go_hall::{Hall, Session};
use go_wire_core::{Desk, Request, WireReply};
use std::alloc::Global;
use std::marker::Model;
use std::sync::Wait;

/// A desk with one session of a hall, which its requests open, ask and close. Contracts see the session, if it is open.
pub struct ConnectionDesk<'a, L: Named, T: Tells> {
    hall: &'a Hall<L>,
    alloc: Global,
    seat: Option<Session<'a, L>>,
    teller: &'a T,
}

impl<'a, L: Named, T: Tells> Drop for ConnectionDesk<'a, L, T> {
    fn drop(self) {
        let ConnectionDesk {
            hall: _,
            alloc: _,
            seat: _,
            teller: _,
        } = self;
    }
}

impl<'a, L: Named, T: Tells> Model for ConnectionDesk<'a, L, T> {
    ghost use Rattle.std.specs.Prelude.{Option};
    ghost use Rattle.std.specs.Coded.{coded_option};
    ghost use Rattle.go_hall.specs.Coding.{coded_seat};
    ghost use Rattle.go_hall.specs.Seat.{Seat};

    ghost Value = { Option Seat };

    ghost coded = { coded_option coded_seat };

    ghost view = { λ d. d.seat };
}

impl<'a, L: Named, T: Tells> ConnectionDesk<'a, L, T> {
    /// A desk of a hall. No session is open. What its replies show of the daemon is told.
    pub fn new(alloc: Global, hall: &'a Hall<L>, teller: &'a T) -> ConnectionDesk<'a, L, T>
        ensures { result ≡ None }
    {
        ConnectionDesk {
            hall,
            alloc,
            seat: None,
            teller,
        }
    }

    /// Closes the session, if it is open.
    pub fn close<H: Wait>(&mut self, rt: &H)
        ensures { self.new ≡ None }
    {
        close(rt, &mut self.seat);
    }
}

impl<'a, L: Named, T: Tells> Desk for ConnectionDesk<'a, L, T> {
    ghost use Rattle.std.specs.Prelude.{false};
    ghost use Rattle.govisd_service.specs.desks.Desks.{ConnectionAnswers};

    ghost is_numbered = { λ d. false };

    ghost answers = { λ old request reply new. ConnectionAnswers old request reply new };

    fn numbered(&self) -> bool {
        false
    }

    fn answer<H: Wait>(&mut self, rt: &H, request: Request) -> WireReply {
        let is_build = is_build(&request.command);
        let reply = answer_at(rt, self.alloc, self.hall, &mut self.seat, request.command);
        if let Some(notice) = notice_in(is_build, &reply) {
            self.teller.tell(notice);
        }
        if is_build {
            if let Some(notice) = notice_of_events(self.hall.events(rt)) {
                self.teller.tell(notice);
            }
        }
        reply
    }
}
