//! Whether a text parses.
ghost use Rattle.std.specs.Prelude.{IfOk, MatchBool, MatchOption};
ghost use Rattle.go_parse_core.specs.Correct.{HasNoLowTree};
ghost use Rattle.go_recovery_core.specs.standin.Files.{HasLowTree, IsFile, IsNoFile};

use go_parse_core::{ParseError, tree_of};
use std::alloc::{AllocError, Global};
use std::str::from_utf8;

/// Where the parser stops in a text, as an offset in bytes; none where the text has a tree that is at most 200 high.
pub(crate) fn fault_in(alloc: Global, text: &str) -> Result<Option<usize>, AllocError>
    ensures { IfOk result (λ fault. MatchOption fault (HasLowTree text.now) (λ _. HasNoLowTree text.now)) }
{
    match tree_of(alloc, text) {
        Ok(_) => Ok(None),
        Err(ParseError::Memory) => Err(AllocError),
        Err(ParseError::Fault(fault)) => Ok(Some(fault.offset)),
    }
}

/// Whether a text parses.
pub(crate) fn parses(alloc: Global, text: &str) -> Result<bool, AllocError>
    ensures { IfOk result (λ b. MatchBool b (HasLowTree text.now) (HasNoLowTree text.now)) }
{
    match fault_in(alloc, text) {
        Ok(None) => Ok(true),
        Ok(Some(_)) => Ok(false),
        Err(error) => Err(error),
    }
}

/// Whether bytes are a text that parses.
pub(crate) fn is_file(alloc: Global, bytes: &[u8]) -> Result<bool, AllocError>
    ensures { IfOk result (λ b. MatchBool b (IsFile bytes.now) (IsNoFile bytes.now)) }
{
    match from_utf8(bytes) {
        Ok(text) => parses(alloc, text),
        Err(_) => Ok(false),
    }
}
