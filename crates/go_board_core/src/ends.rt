//! What readers and the writer do.
ghost use Rattle.std.specs.Prelude.{◌≡◌, MatchResult};
ghost use Rattle.left_right.specs.Sides.{view};
ghost use Rattle.go_submit_core.specs.Published.{BeginsWith};

use crate::board::Board;
use crate::rule::{Published, Sees, View};
use left_right::reader::Reader;
use left_right::writer::Writer;
use std::alloc::AllocError;
use std::sync::Wait;

pub type BoardReader = Reader<Board, View, Published>;

pub type BoardWriter = Writer<Board, Board, View, Published>;

/// Publishes a board that begins with the published one.
pub fn publish<R: Wait>(
    rt: &R,
    mut writer: BoardWriter,
    next: Board,
) -> (BoardWriter, Result<(), AllocError>)
    requires { BeginsWith next writer.desk.shown.value }
    ensures shown { MatchResult result.1
        (λ _. (result.0.desk.shown.value ≡ next) × ((view result.0.desk.place).seen ≡ next))
        (λ _. (result.0.desk.shown.value ≡ writer.desk.shown.value) × (view result.0.desk.place ≡ view writer.desk.place)) }
{
    let Ok(()) = writer.append(next) else {
        return (writer, Err(AllocError));
    };
    writer.publish_as::<Sees, R>(rt)
}
