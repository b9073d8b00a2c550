//! Why a text has no tree.

use go_tree_nodes::text_core::Rule;
use std::alloc::AllocError;

/// A fault of a text, and where it stands.
#[derive(Clone, Copy, Debug, PartialEq, Eq)]
pub struct SynFault {
    /// L1, L2 or L3 where the text cannot be cut into tokens; P1 where the parser stops at a token that has no place there, and P2
    /// where it stops at something that would be higher than 200.
    pub rule: Rule,
    /// The offset in bytes of the place that cannot be cut, or of the token where the parser stopped, or of
    /// the text's end where it stopped behind the last token.
    pub offset: usize,
}

/// Why a text is not parsed.
#[derive(Clone, Copy, Debug, PartialEq, Eq)]
pub enum ParseError {
    /// Memory ran out.
    Memory,
    /// The text cannot be cut into tokens, or has no tree, or none of height 200 or less.
    Fault(SynFault),
}

impl From<AllocError> for ParseError {
    ghost use Rattle.std.specs.Prelude.{◌≡◌};
    ghost use Rattle.go_parse_core.specs.declared.error.ParseError.TheVariants.{Memory};

    ghost from_gives = { λ _ e. e ≡ Memory };

    fn from(_error: AllocError) -> Self {
        ParseError::Memory
    }
}
