//! Batches of one edit each, over a workspace that is made, for measuring.
//!
//! `WORK SHAPE KIND PLACE PARTS PACKAGES IMPORTS TIMES` opens the modules of a workspace of so many packages with so many imports each, submits them all,
//! and runs the first batch. Then it does its work so many times, and tells what it did, in lines:
//!
//! | Word | | |
//! |---|---|---|
//! | WORK | `batches` | a batch of one edit each time: submit, takes and finishes, until it is published |
//! | | `trees` | the tree of the edited module alone, which a batch submits |
//! | | `parts` | one batch is begun, and the edited package is compiled each time: nothing is handed in |
//! | SHAPE | `near` | a package imports those before it in its module |
//! | | `spread` | a package imports others of higher number, of any module, spread evenly over them |
//! | KIND | `body` | the edits change a number in the body of a function |
//! | | `constant` | the edits change a constant that the package shows |
//! | PLACE | `first`, `middle`, `last` | the module of the edited package, which is the one in its middle |
//! | PARTS | `kept` | as workers do: an action that the core knows to be as before is finished by the part that it has; others by `rebuild` |
//! | | `rebuilt` | each action is finished by `rebuild`, which compares its input with that of the earlier part |
//! | | `compiled` | each action is compiled, the one of a package that is as before too |
//!
//! No clock is read.

mod bench;
mod counts;
mod order;
mod workspace;

pub use crate::measured::bench::run;
pub use crate::measured::counts::Counts;
pub use crate::measured::order::Order;
