//! The check of one function on branches: parts of its body are checked at once, and what comes of them is what one thread gives.
//!
//! The Go specification, "Blocks", "Declarations and scope", "Statements".
#![tactic(auto)]

mod body;
mod branches;
mod halves;
mod laws;
mod turn;
mod walk;

pub use body::check_body_par;
pub use laws::branches_give_one;
