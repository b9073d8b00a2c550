//! Laws of the definitions.
ghost use Rattle.go_wire_core.specs.Histories.{AsksInOrder};
ghost use Rattle.go_wire_core.specs.Laws.{FirstComeFirst, WorkedLines};
ghost use Rattle.go_wire_core.specs.Table.{AsksByTable, RefusesByTable};

use crate::desk::Desk;

/// A line asks a request exactly where it is an object of the members of the request.
pub fn asks_by_table()
    ensures { AsksByTable }
{}

/// A line is refused by V3 exactly where it names a command that there is not; each other line that asks nothing is refused by V2. It is refused
/// in the name of the session that it names.
pub fn refuses_by_table()
    ensures { RefusesByTable }
{}

/// What the whole lines of the first bytes ask is asked first, whatever comes behind.
pub fn first_come_first()
    ensures { FirstComeFirst }
{}

/// A desk that notes what it is asked and what it replies notes exactly the requests, in order, and what goes out are the lines of its replies
/// and of the refusals between, in order.
pub fn asks_in_order<D: Desk>()
    ensures { AsksInOrder D.answers }
{}

/// Some lines, and what they ask or tell.
pub fn worked_lines()
    ensures { WorkedLines }
{}
