//! What the words of a command line ask for, what the program writes of itself, and its exit statuses.
#![tactic(auto)]

mod addresses;
mod status;
mod texts;
mod words;

pub use addresses::{Place, bad_address_text, place_of};
pub use status::{end_status, refusal_status, serve_status, unread_status};
pub use texts::{
    bad_value_text, command_help, end_text, listening_text, program_help, refused_text,
    script_end_text, serve_end_text, unbound_text, unknown_command, unwritten_text, version_text,
};
pub use words::{Daemon, Request, ValueOption, Waits, forms, read_words};
