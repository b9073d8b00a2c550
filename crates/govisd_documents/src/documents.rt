//! The texts that an editor has open, and those that stand in for them.

use go_graph_core::parse_core::{ParseError, SynFault, tree_of};
use go_path_core::text_core::Rule;
use go_recovery_core::mend::{lexical, mend};
use go_recovery_core::standin::{Interval, StandIn, stand_in};
use std::alloc::{AllocError, Global};

/// A file that an editor has open.
#[derive(Drop)]
pub struct Document {
    /// The name by which the editor names it.
    pub uri: String,
    /// The version of its text, as the editor counts.
    pub version: i64,
    /// Its text.
    pub text: String,
    /// What stands in for the text where it does not parse.
    pub hidden: Option<Hidden>,
}

/// What of a text is blanked in the one that stands in for it.
#[derive(Drop)]
pub struct Hidden {
    /// The fault of the text itself.
    pub fault: SynFault,
    /// What is said of that; empty where there is no more to say than what its rule means.
    pub said: String,
    /// The parts that are blanked.
    pub parts: Vec<Interval>,
}

/// A text to be compiled, and what it hides of the one that it stands in for.
#[derive(Drop)]
pub(crate) struct Compiled {
    pub text: String,
    pub hidden: Option<Hidden>,
}

// The fault of a text; none where it parses.
fn fault_of(alloc: Global, text: &str) -> Result<Option<SynFault>, AllocError> {
    match tree_of(alloc, text) {
        Ok(_) => Ok(None),
        Err(ParseError::Memory) => Err(AllocError),
        Err(ParseError::Fault(fault)) => Ok(Some(fault)),
    }
}

// Adds a line that says what helps.
fn add_help(said: &mut String, help: &str) -> Result<(), AllocError> {
    said.push_str("\nhelp: ")?;
    said.push_str(help)
}

// What is said of a fault of the grammar of a text.
fn said_of_grammar(alloc: Global, text: &str, fault: SynFault) -> Result<String, AllocError> {
    let found = mend(alloc, text, fault)?;
    let mut said = found.headline(alloc, text)?;
    if let Some(help) = found.help(alloc)? {
        add_help(&mut said, help.as_str())?;
    }
    Ok(said)
}

// What is said of a fault of a token of a text.
fn said_of_token(alloc: Global, text: &str, fault: SynFault) -> Result<String, AllocError> {
    let Some(found) = lexical(text, fault) else {
        return Ok(String::new(alloc));
    };
    let mut said = found.headline(alloc, text)?;
    if let Some(help) = found.cause.help() {
        add_help(&mut said, help)?;
    }
    Ok(said)
}

// What is said of the fault of a text.
fn said_of_fault(alloc: Global, text: &str, fault: SynFault) -> Result<String, AllocError> {
    match fault.rule {
        Rule::P1 | Rule::P2 => said_of_grammar(alloc, text, fault),
        Rule::L1 | Rule::L2 | Rule::L3 => said_of_token(alloc, text, fault),
        _ => Ok(String::new(alloc)),
    }
}

// What is compiled for a text that has a fault.
fn stood_in(
    alloc: Global,
    text: &str,
    fault: SynFault,
    edited: Option<Interval>,
) -> Result<Compiled, AllocError> {
    match stand_in(alloc, text, edited)? {
        Some(
            StandIn {
                text: blanked_text,
                blanked,
            },
        ) => Ok(Compiled {
            text: blanked_text,
            hidden: Some(Hidden {
                fault,
                said: said_of_fault(alloc, text, fault)?,
                parts: blanked,
            }),
        }),
        None => Ok(Compiled {
            text: String::from_str(alloc, text)?,
            hidden: None,
        }),
    }
}

/// What is compiled for a text: the text itself where it parses, and else what stands in for it, if anything does.
///
/// # Errors
///
/// `AllocError` where memory is wanting.
pub(crate) fn compile_text(
    alloc: Global,
    text: &str,
    edited: Option<Interval>,
) -> Result<Compiled, AllocError> {
    match fault_of(alloc, text)? {
        None => Ok(Compiled {
            text: String::from_str(alloc, text)?,
            hidden: None,
        }),
        Some(fault) => stood_in(alloc, text, fault, edited),
    }
}

// How many of the first bytes of two texts are the same.
fn common_front(one: &[u8], other: &[u8]) -> usize {
    for (at, byte) in one.iter().enumerate() {
        if other.get(at) != Some(byte) {
            return at;
        }
    }
    one.len()
}

// The byte before the last ones of a text, of so many.
fn byte_before(bytes: &[u8], count: usize) -> Option<u8> {
    let behind = bytes.len().checked_sub(count)?;
    let at = behind.checked_sub(1)?;
    bytes.get(at).copied()
}

// How many of the last bytes of two texts are the same, of so many at most.
fn common_back(one: &[u8], other: &[u8], most: usize) -> usize {
    for count in 0..most {
        let (own, its) = (byte_before(one, count), byte_before(other, count));
        if own.is_none() || own != its {
            return count;
        }
    }
    most
}

/// What of a text differs from an earlier one; none where nothing does.
pub(crate) fn edited_part(earlier: &str, text: &str) -> Option<Interval> {
    let (old, new) = (earlier.as_bytes(), text.as_bytes());
    let start = common_front(old, new);
    if start == old.len() && start == new.len() {
        return None;
    }
    let most = old.len().min(new.len()).saturating_sub(start);
    let back = common_back(old, new, most);
    Some(Interval {
        start,
        end: new.len().saturating_sub(back),
    })
}
