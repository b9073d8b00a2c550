//! What the core machine replies to lists of events, and what it does for batches that are measured.
//!
//! A text of lists has for each list a line `# TITLE`, and after it a line `> COMMAND` for each step of a new core:
//!
//! | Command | What is asked |
//! |---|---|
//! | `open M`, `close S`, `take`, `back G` | a session of the module, the end of a session, an action, a batch given back by its generation |
//! | `submit S M` | the tree of the module in the archive that stands after the line, as a submission of the session |
//! | `finish N`, `finish N by K` | the end of the action `N`, by a part of its input, or of the input of the action `K` |
//! | `keep N` | the end of the action `N` by the part that the core has itself |
//! | `ticket T`, `board` | where a submission stands; the published batches, with their packages and faults |
//! | `generations` | the packages of the last batch, each with the generation that its part was compiled in |
//! | `fill M` | how often another core opens the module and closes it again until its history is full |
//! | `make M`, `make M packages COUNT`, `make M files COUNT`, `make M bytes COUNT` | whether the archive after the line can be a tree of the module; or so many packages, files of one package, or bytes of one text |
//!
//! Each is shown with its reply; after an action stands whether its package had no part (`first`), has one of the same input (`as before`) or of another
//! (`changed`), and whether the core says so (`known`). Then a new core is run over the same events: each step prepared and then committed, and all at once.
#![tactic(auto)]

mod lists;
mod measured;
mod trees;
mod words;

pub use lists::show_events;
pub use measured::{Counts, Order, run};
