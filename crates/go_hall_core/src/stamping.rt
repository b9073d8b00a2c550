//! Stamps: small tokens that show of which value they were given, with nothing compared. A stamper gives them, and knows them again.

mod book;
mod stamp;

pub use crate::stamping::book::NamesBook;
pub use crate::stamping::stamp::{Seal, Stamp, StampBook, Stamper};
