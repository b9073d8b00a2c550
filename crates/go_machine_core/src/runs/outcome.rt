//! What runs come to.
use crate::PanicValue;

/// What a run came to, with what it printed.
#[derive(Drop)]
pub enum Run {
    /// The function `main` is left.
    Ended(String),
    /// It panicked with this: by a division by 0, or by a call of `panic`.
    Panicked(PanicValue, String),
    /// All steps are done, and it goes on.
    Spent(String),
}
