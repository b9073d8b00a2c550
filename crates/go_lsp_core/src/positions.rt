//! Positions of a text as the Language Server Protocol has them, and the edits that an editor sends.
//!
//! The Language Server Protocol 3.17, "Position", "Text Documents" and "TextDocumentContentChangeEvent".

mod edit;
mod laws;
mod offsets;
mod place;
mod starts;
mod table;

pub use crate::positions::edit::apply;
pub use crate::positions::laws::{
    boundaries_lead_back, positions_grow, positions_lead_to_boundaries,
};
pub use crate::positions::offsets::{offset_of, position_of};
pub use crate::positions::place::{Encoding, Position, Range};
pub use crate::positions::table::Lines;
