//! Replies, tickets and batches in words.
use go_sched_core::{Action, Core, Reply, TicketState};
use test_probe::show::Lines;

/// Adds an action: its number, its generation, its package, and what the package's last published part is to it.
fn add_action(out: &mut Lines, action: &Action) {
    out.count("action ", action.number as usize, " of generation ");
    out.count("", action.generation as usize, ": ");
    out.add(action.input.get().path().as_str());
    let word = match &action.earlier {
        Some(part) => {
            if part.get().input().is_same(action.input.get()) {
                ", as before"
            } else {
                ", changed"
            }
        }
        None => ", first",
    };
    out.add(word);
    if action.kept.is_some() {
        out.add(", known");
    }
}

/// Adds a reply, in a line.
pub(crate) fn add_reply(out: &mut Lines, reply: &Reply) {
    match reply {
        Reply::Opened(id) => out.count("session ", id.0 as usize, ""),
        Reply::Closed => out.add("closed"),
        Reply::Submitted(ticket) => out.count("ticket ", ticket.0 as usize, ""),
        Reply::Act(action) => add_action(out, action),
        Reply::Idle => out.add("idle"),
        Reply::Finished => out.add("finished"),
        Reply::Published(number) => out.count("published as ", *number as usize, ""),
        Reply::GaveBack => out.add("given back"),
        Reply::Refused(rule) => out.pieces(&["refused ", rule.number()]),
    }
    out.add("\n");
}

/// Adds where a submission stands, in a line.
pub(crate) fn add_ticket(out: &mut Lines, state: Option<TicketState>) {
    match state {
        Some(TicketState::Waiting) => out.add("waiting"),
        Some(TicketState::Running) => out.add("running"),
        Some(TicketState::Published(number)) => out.count("published as ", number as usize, ""),
        Some(TicketState::GivenBack) => out.add("given back"),
        None => out.add("none"),
    }
    out.add("\n");
}

/// Adds how many batches are published, and of each a line with its tickets and packages, and one for each fault.
pub(crate) fn add_board(out: &mut Lines, core: &Core) {
    let batches = core.batches();
    out.count("", batches.len(), " batches\n");
    for place in 0..batches.len() {
        let Some(batch) = batches.get(place) else {
            return;
        };
        out.count("  batch ", place.saturating_add(1), ": tickets");
        for submission in batch.submissions().as_slice() {
            out.count(" ", submission.ticket.0 as usize, "");
        }
        out.add(", packages");
        let snapshot = batch.snapshot();
        for number in 0..snapshot.package_count() {
            if let Some(package) = snapshot.package(number) {
                out.pieces(&[" ", package.path().as_str()]);
            }
        }
        out.add("\n");
        for number in 0..snapshot.fault_count() {
            let Some(fault) = snapshot.fault(number) else {
                return;
            };
            if let Some(package) = snapshot.package(fault.package) {
                if let Some(file) = package.files().get(fault.file) {
                    out.pieces(&["  fault ", package.path().as_str(), "/", file.name()]);
                    out.count(":", fault.offset, " ");
                    out.line(fault.rule.number());
                }
            }
        }
    }
}

/// Adds the number of the last batch and its packages in a line, each with the generation that its part was compiled in.
pub(crate) fn add_generations(out: &mut Lines, core: &Core) {
    let batches = core.batches();
    out.count("batch ", batches.len(), "");
    if let Some(batch) = batches.get(batches.len().wrapping_sub(1)) {
        let snapshot = batch.snapshot();
        for number in 0..snapshot.package_count() {
            if let Some(Some(part)) = snapshot.part(number) {
                out.pieces(&[" ", part.path().as_str()]);
                out.count(" made in ", part.made_in() as usize, "");
            }
        }
    }
    out.add("\n");
}
