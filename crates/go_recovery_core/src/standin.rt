//! A text that parses in the place of one that does not: parts of the text are blanked, so that all offsets and lines stay.

mod alone;
mod around;
mod blanks;
mod judge;
mod laws;
mod outline;
mod part;
mod standing;

pub use crate::standin::laws::blanked_is_alike;
pub use crate::standin::part::Interval;
pub use crate::standin::standing::{StandIn, stand_in};
