//! Where a submission stands.
ghost use Rattle.std.specs.Prelude.{◌≡◌};
ghost use Rattle.go_submit_core.specs.Submitted.{has_ticket};
ghost use Rattle.go_sched_core.specs.Service.{given_back, is_in_running, ticket_of};

use crate::event::TicketState;
use crate::machine::Core;
use crate::running::Running;
use go_submit_core::{Submission, Ticket, has_ticket};
use std::collections::LinkedList;

fn is_waiting(waiting: &LinkedList<Submission>, ticket: u64) -> bool
    ensures { result ≡ has_ticket ticket waiting.now }
{
    for submission in waiting.iter() {
        if submission.ticket.0 == ticket {
            return true;
        }
    }
    false
}

fn is_in_running(running: &Option<Running>, ticket: u64) -> bool
    ensures { result ≡ is_in_running ticket running.now }
{
    match running {
        Some(running) => has_ticket(running.submissions.as_slice(), ticket),
        None => false,
    }
}

impl Core {
    // A ticket that is neither waiting nor running nor published.
    fn given_back(&self, ticket: u64) -> Option<TicketState>
        ensures { result ≡ given_back self.now ticket }
    {
        if ticket >= 1 && ticket <= self.tickets {
            Some(TicketState::GivenBack)
        } else {
            None
        }
    }

    /// Where a submission stands; `None` for a number that was never given out. It takes no memory. Of the published batches the last is looked at
    /// first.
    pub fn ticket(&self, ticket: Ticket) -> Option<TicketState>
        ensures { result ≡ ticket_of self.now ticket.0 }
    {
        if is_waiting(&self.waiting, ticket.0) {
            return Some(TicketState::Waiting);
        }
        if is_in_running(&self.running, ticket.0) {
            return Some(TicketState::Running);
        }
        match self.published.number_of(ticket) {
            Some(number) => Some(TicketState::Published(number)),
            None => self.given_back(ticket.0),
        }
    }
}
