//! What is done for a line.
use crate::request::Request;
use go_text_core::Rule;

/// What is done for a line that is not blank.
#[derive(Drop)]
pub enum Step {
    /// The desk is asked.
    Ask {
        /// What it is asked.
        request: Request,
    },
    /// The line is refused.
    Refuse {
        /// The number of the session in whose name it is refused, where the line has one.
        session: Option<u8>,
        /// The rule that it breaks.
        rule: Rule,
    },
}
