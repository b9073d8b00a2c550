//! Where a list of statements is taken apart, so that its halves are checked at once.
ghost use Rattle.std.specs.Prelude.{◌≡◌, ◌≤◌, IfSome, length};
ghost use Rattle.go_tree_nodes.specs.Shapes.{shape_simple, shape_stmt, lines_of};
ghost use Rattle.go_branch_core.specs.Quiet.{is_quiet_simple, is_quiet, are_quiet};

use go_tree_nodes::{Line, Simple, Stmt};

/// The least bytes of source that are worth a thread.
pub(crate) const LEAST_BYTES: usize = 2048;

// Whether a statement that may stand in a header declares nothing.
fn is_quiet_simple(simple: &Simple) -> bool
    ensures { result ≡ is_quiet_simple (shape_simple simple.now) }
{
    match simple {
        Simple::Expr(_) => true,
        Simple::Step(_, _, _) => true,
        Simple::Assign(_) => true,
        Simple::Update(_) => true,
        Simple::Define(_) => false,
    }
}

// Whether a statement declares nothing in the block in which it stands.
fn is_quiet(stmt: &Stmt) -> bool
    ensures { result ≡ is_quiet (shape_stmt stmt.now) }
{
    match stmt {
        Stmt::Empty => true,
        Stmt::Declare(_) => false,
        Stmt::Simple(simple) => is_quiet_simple(simple),
        Stmt::Return(_, _) => true,
        Stmt::Break(_) => true,
        Stmt::Continue(_) => true,
        Stmt::Block(_, _, _) => true,
        Stmt::If(_) => true,
        Stmt::For(_) => true,
    }
}

/// Whether statements declare nothing in the block in which they stand.
pub(crate) fn are_quiet(lines: &[Line]) -> bool
    ensures { result ≡ are_quiet (lines_of lines.now) }
{
    for line in lines {
        if !is_quiet(&line.stmt) {
            return false;
        }
    }
    true
}

// The place behind a statement, where its semicolon stands, or else this one, in bytes from the file's start.
fn place_after(line: &Line, begin: usize) -> usize {
    match &line.semicolon {
        Some(semicolon) => semicolon.end as usize,
        None => begin,
    }
}

/// The place behind statements that begin at a place, in bytes from the file's start.
pub(crate) fn place_behind(lines: &[Line], begin: usize) -> usize {
    match lines.last() {
        Some(line) => place_after(line, begin),
        None => begin,
    }
}

// Whether a list that begins at a place, is cut at another and ends at a third has halves that are worth a thread each.
fn is_worth(begin: usize, cut: usize, end: usize) -> bool {
    cut.saturating_sub(begin) >= LEAST_BYTES && end.saturating_sub(cut) >= LEAST_BYTES
}

/// Where a list of statements is taken apart.
#[derive(Clone, Copy)]
pub(crate) struct Cut {
    /// How many statements come before those that are taken apart.
    pub(crate) before: usize,
    /// How many statements end with the first half.
    pub(crate) middle: usize,
}

/// Where statements that begin at a place are taken apart: in the first run of statements that declare nothing and are worth a thread, as those behind
/// them are. In its middle, or where it ends.
pub(crate) fn cut_of(lines: &[Line], begin: usize) -> Option<Cut>
    ensures { IfSome result (λ cut. (cut.before ≤ cut.middle) × (cut.middle ≤ length lines.now)) }
{
    let end = place_behind(lines, begin);
    let mut cut = Cut {
        before: 0,
        middle: 0,
    };
    let mut from = begin;
    let mut at = begin;
    for (number, line) in lines.iter().enumerate() {
        let is_quiet = is_quiet(&line.stmt);
        cut.middle = number;
        if !is_quiet && is_worth(from, at, end) {
            return Some(cut);
        }
        at = place_after(line, at);
        cut.middle = number + 1;
        if !is_quiet {
            cut.before = number + 1;
            from = at;
        }
        if at.saturating_sub(from) >= end.saturating_sub(at) && is_worth(from, at, end) {
            return Some(cut);
        }
    }
    None
}
