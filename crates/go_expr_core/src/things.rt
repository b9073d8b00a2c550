//! What is noted of an expression.
use go_denote_core::text_core::Rule;
use go_denote_core::{Denoted, Outcome};
use go_local_core::Fault;
use go_tree_core::Role;

/// What an occurrence has: an identifier at its first byte, or a call at its opening parenthesis.
///
/// `D` stands for declarations, `P` for paths of embedded fields.
#[derive(Drop)]
pub struct Use<D, P> {
    /// The offset in bytes.
    pub offset: usize,
    /// What the occurrence is.
    pub role: Role,
    /// Its declaration, or the first rule that it breaks.
    pub outcome: Outcome<D, P>,
}

/// What is noted on the way through expressions: what occurrences have, in order of their places, and the faults of parts.
#[derive(Drop)]
pub struct Notes<D, P> {
    pub uses: Vec<Use<D, P>>,
    pub faults: Vec<Fault>,
}

/// What an operator denotes, and the rule that it breaks, if it breaks one.
#[derive(Drop)]
pub struct Judged<T, S, D> {
    pub denoted: Denoted<T, S, D>,
    pub fault: Option<Rule>,
}
