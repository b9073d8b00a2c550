//! The rule that readers and the writer of a board keep.
use crate::board::Board;
use atomic_table::{Join, Split};
use crossbeam_utils::rule::{Outcome, Protocol};
use go_submit_core::PublishedBatch;
use std::collections::LinkedList;

/// What a seat has seen of the board, and what it was told of. No value of it is made.
pub struct View {
    pub seen: LinkedList<PublishedBatch>,
    pub told: LinkedList<PublishedBatch>,
}

/// Boards only grow.
pub struct Published;

impl Protocol<Board, View> for Published {
    ghost use Rattle.go_board_core.specs.Views.{Keeps, newcomer};

    ghost holds = { Keeps };

    ghost first = { newcomer };
}

pub struct Sees;

impl Outcome<Board, View> for Sees {
    ghost use Rattle.go_board_core.specs.Views.{Sees as the_sees};

    ghost then = { the_sees };
}

pub struct Notes;

impl Split<View> for Notes {
    ghost left = { λ v. v };

    ghost right = { λ v. v };
}

impl Join<View> for Notes {
    ghost use Rattle.go_board_core.specs.Views.{informed, newcomer};

    ghost both = { informed };

    ghost spent = { newcomer };
}
