//! Messages framed by `Content-Length`, as the Language Server Protocol sends them: from the bytes of a reader to messages, and from a message to the bytes
//! that go out.
//!
//! The Language Server Protocol 3.17, "Base Protocol".

mod heads;
mod input;
mod laws;
mod reading;
mod writing;

pub use crate::frames::input::Input;
pub use crate::frames::laws::{comes_back, comes_first, one_message};
pub use crate::frames::reading::{FrameEnd, read_message};
pub use crate::frames::writing::{SendFault, frame_of, write_message};
