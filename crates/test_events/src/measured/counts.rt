//! What was done.
use std::fmt;

/// How often each thing was done, and the faults of the last snapshot.
#[derive(Clone, Copy, Default)]
pub struct Counts {
    pub(crate) sessions: usize,
    pub(crate) batches: usize,
    pub(crate) actions: usize,
    pub(crate) kept: usize,
    pub(crate) compiled: usize,
    pub(crate) trees: usize,
    pub(crate) faults: usize,
}

impl fmt::Display for Counts {
    fn fmt<W: fmt::Write>(&self, f: &mut fmt::Formatter<W>) -> fmt::Result {
        let Counts {
            sessions,
            batches,
            actions,
            kept,
            compiled,
            trees,
            faults,
        } = *self;
        writeln!(f, "sessions {sessions}")?;
        writeln!(f, "batches {batches}")?;
        writeln!(f, "actions {actions}")?;
        writeln!(f, "kept {kept}")?;
        writeln!(f, "compiled {compiled}")?;
        writeln!(f, "trees {trees}")?;
        writeln!(f, "faults {faults}")
    }
}
