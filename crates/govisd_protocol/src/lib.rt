//! What stands in the messages of an editor, and the messages that go out.
//!
//! The Language Server Protocol, version 3.17.
#![tactic(auto)]

mod messages;
mod values;

pub use messages::{
    ErrorCode, Refusal, Stop, refuse_with, send_note, send_refusal, send_request, send_result,
};
pub use values::{count_at, list_at, position_at, range_at, range_in, range_value, text_at};
