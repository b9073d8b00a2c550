//! The functions of a workspace, each checked in turn and with parts of its body at once: how many there are, and of how many the two checks say another thing.

mod functions;
mod package;
mod same;

use crate::branches::package::compare_part;
use crate::branches::same::is_same_body;
use crate::shot::snapshot_of;
use go_body_core::CheckedBody;
use std::alloc::Global;
use std::thread::Threads;
use test_probe::show::Lines;

/// What was compared: functions, what the check in turn says of them, and of how many the other says another thing.
#[derive(Clone, Copy)]
struct Sums {
    functions: usize,
    uses: usize,
    faults: usize,
    locals: usize,
    differ: usize,
}

impl Sums {
    /// Counts a function.
    fn count(&mut self, one: &CheckedBody<'_>, other: &CheckedBody<'_>) {
        self.functions = self.functions.saturating_add(1);
        self.uses = self.uses.saturating_add(one.uses.len());
        self.faults = self.faults.saturating_add(one.faults.len());
        self.locals = self.locals.saturating_add(one.locals.len());
        if !is_same_body(one, other) {
            self.differ = self.differ.saturating_add(1);
        }
    }
}

/// Adds how many functions the archive in a file has, what they have, and of how many the check of parts at once says another thing than the check in turn.
pub fn add_branches<R: Threads + Sync>(
    out: &mut Lines,
    rt: &R,
    alloc: Global,
    file: &str,
    text: &str,
) {
    out.pieces(&["== ", file, "\n"]);
    let mut sums = Sums {
        functions: 0,
        uses: 0,
        faults: 0,
        locals: 0,
        differ: 0,
    };
    match snapshot_of(alloc, text) {
        Ok(snapshot) => {
            for part in snapshot.parts() {
                if let Some(part) = part {
                    if compare_part(rt, alloc, part, &mut sums).is_err() {
                        out.cut();
                    }
                }
            }
        }
        Err(rule) => out.refuse(rule),
    }
    out.count("functions ", sums.functions, " uses ");
    out.count("", sums.uses, " faults ");
    out.count("", sums.faults, " locals ");
    out.count("", sums.locals, " differ ");
    out.count("", sums.differ, "\n");
}
