//! Parsed texts.
ghost use Rattle.std.specs.Prelude.{◌≡◌, ◌≤◌, ◌<◌, ◌^◌, ℕ, length, string_bytes, All, IfOk};
ghost use Rattle.go_scan_core.specs.Cutting.{comments_of};
ghost use Rattle.go_scan_core.specs.Texts.{CommentHasItsText};
ghost use Rattle.go_scan_core.specs.Tokens.{CommentsInOrder};
ghost use Rattle.go_tree_nodes.specs.Heights.{file_height};
ghost use Rattle.go_tree_core.specs.Occurrences.{file_occs};
ghost use Rattle.go_tree_nodes.specs.Shapes.{file_of};
ghost use Rattle.go_tree_nodes.specs.Spelling.{spell_file};
ghost use Rattle.go_tree_nodes.specs.Terminals.{InOrder};
ghost use Rattle.go_tree_nodes.specs.Trees.{FileTree};
ghost use Rattle.go_parse_core.specs.Correct.{HasTree, max_height};
ghost use Rattle.go_parse_core.specs.Parsing.{AreComments, Parses, IsParsedUnlessMemory, IsTreeAnswer, IsTreeUnlessMemory};
ghost use Rattle.go_parse_core.specs.Refusing.{IsRefusedAsRead, IsTooHighUnlessMemory, IsTreeRefused, IsTreeTooHigh};
ghost use Rattle.go_parse_core.specs.mirrors.Stopping.{IsErrorOf};

use crate::error::{ParseError, SynFault};
use crate::file::file;
use go_parse_reader::types::{Ahead, Stop};
use go_scan_core::{comments, scan};
use go_tree_nodes::File;
use go_tree_nodes::text_core::Rule;
use go_tree_nodes::token_core::{Comment, ScanError};
use std::alloc::{AllocError, Global};
use std::marker::Model;
use std::sync::Arc;

/// The greatest height of the parts of a declaration of the package block. The declaration is one node
/// above them, so that no tree is higher than 200.
const PART_HEIGHT: u32 = 199;

/// A text and its tree.
#[derive(Drop)]
struct ParsedContent {
    text: String,
    tree: File,
}

/// A text that has a tree of height at most 200, with that tree. It is a handle: what is copied has one content. Contracts see it as
/// its text, of which it is the only tree.
pub struct Parsed {
    content: Arc<ParsedContent>,
}

impl Drop for Parsed {
    fn drop(self) {
        let Parsed { content: _ } = self;
    }
}

impl Model for Parsed {
    ghost use Rattle.std.specs.Prelude.{List, ℕ, string_bytes};
    ghost use Rattle.std.specs.Arc.{arc_value};

    ghost Value = { List ℕ };

    ghost use Rattle.go_tree_nodes.specs.Shapes.{file_of};
    ghost use Rattle.go_parse_core.specs.Parsing.{IsParse};

    ghost view = { λ p. string_bytes (arc_value p.content).text };

    ghost invariant = { λ p. IsParse (string_bytes (arc_value p.content).text) (file_of (arc_value p.content).tree) };
}

impl Parsed {
    /// The text that was parsed, as it was given.
    pub fn text(&self) -> &str
        ensures { result.now ≡ self.now }
    {
        self.content.text.as_str()
    }

    /// The tree of the text. Its spans are in bytes of the text.
    pub fn tree(&self) -> &File
        ensures found { HasTree self.now (file_of result.now) }
        ensures low { file_height (file_of result.now) ≤ max_height }
        // The tokens that the tree writes follow one another in the text.
        ensures placed { InOrder 0 (spell_file (file_of result.now)) (length self.now) }
        ensures few { length (file_occs (file_of result.now)) < 2 ^ 64 }
    {
        &self.content.tree
    }

    /// An equal value, over the same text and tree. It takes no memory.
    ///
    /// # Errors
    ///
    /// `AllocError` where the text has too many owners.
    pub fn copy(&self, _alloc: Global) -> Result<Parsed, AllocError>
        ensures { IfOk result (λ p. p ≡ self.now) }
    {
        Ok(Parsed {
            content: Arc::try_clone(&self.content)?,
        })
    }

    /// The comments of the text in their order, with their spans in bytes of the text. The one error is want
    /// of memory.
    pub fn comments(&self, alloc: Global) -> Result<Vec<Comment>, AllocError>
        ensures answer { IfOk result (λ v. AreComments self.now v.items) }
        ensures value { IfOk result (λ v. comments_of self.now ≡ Ok v.items) }
        ensures spans { IfOk result (λ v. CommentsInOrder 0 v.items (length self.now)) }
        ensures slices { IfOk result (λ v. All (CommentHasItsText self.now) v.items) }
    {
        match comments(alloc, self.content.text.as_str()) {
            Ok(comments) => Ok(comments),
            Err(ScanError::Memory) => Err(AllocError),
            // A text with a tree has tokens.
            Err(ScanError::Fault(_)) => unreachable!(),
        }
    }
}

/// The fault with which the parser stops in a text of `len` bytes, or want of memory.
fn error_of(stop: Stop, len: usize) -> ParseError
    ensures { IsErrorOf result stop len }
{
    match stop {
        Stop::Memory => ParseError::Memory,
        Stop::Grammar(at) => ParseError::Fault(SynFault {
            rule: Rule::P1,
            offset: at.min(len),
        }),
        Stop::TooHigh(at) => ParseError::Fault(SynFault {
            rule: Rule::P2,
            offset: at.min(len),
        }),
    }
}

/// The tree of a text that is lent, where [`parse`] keeps the text. For all else, and for the errors, see there.
///
/// # Errors
///
/// Those of [`parse`].
pub fn tree_of(alloc: Global, text: &str) -> Result<File, ParseError>
    ensures answer { IsTreeAnswer text.now result }
    ensures only { (f : FileTree) → HasTree text.now f → file_height f ≤ max_height → IsTreeUnlessMemory result }
    ensures high { (f : FileTree) → HasTree text.now f → max_height < file_height f → IsTreeTooHigh result }
    ensures read { IsTreeRefused text.now result }
{
    let len = text.len();
    let tokens = match scan(alloc, text) {
        Ok(tokens) => tokens,
        Err(ScanError::Memory) => return Err(ParseError::Memory),
        Err(ScanError::Fault(fault)) => {
            return Err(ParseError::Fault(SynFault {
                rule: fault.rule,
                offset: fault.offset,
            }));
        }
    };
    match file(alloc, Ahead::new(text, &tokens), PART_HEIGHT) {
        Ok(tree) => Ok(tree),
        Err(stop) => Err(error_of(stop, len)),
    }
}

/// Parses the text of a file, by the grammar of the Go specification, "Source file organization",
/// "Declarations and scope", "Types", "Expressions", "Statements" and "Semicolons".
///
/// A text has at most one tree, [`one_tree`](crate::one_tree). It is found where it is at most 200 high,
/// unless memory runs out. Offsets count the bytes of the text from its start.
///
/// # Errors
///
/// - [`ParseError::Memory`] where memory runs out.
/// - [`ParseError::Fault`] with the rule L1, L2 or L3 and the offset of the first fault of the tokens, as
///   [`scan`] answers it.
/// - [`ParseError::Fault`] with the rule P2 where the tokens have a tree that is higher than 200. Tokens that have no tree of
///   any height are read from the left: the rule is P1 where a token comes first that has no place there, and P2 where
///   something comes first that would be higher than 200. The offset is that of the token where the parser stopped, or
///   that of the text's end where it stopped behind the last token.
pub fn parse(alloc: Global, text: String) -> Result<Parsed, ParseError>
    ensures answer { Parses (string_bytes text) result }
    // A text with a tree of height 200 or less is parsed.
    ensures only { (f : FileTree) → HasTree (string_bytes text) f → file_height f ≤ max_height → IsParsedUnlessMemory result }
    // A text with a higher tree has P2.
    ensures high { (f : FileTree) → HasTree (string_bytes text) f → max_height < file_height f → IsTooHighUnlessMemory result }
    // A text without a tree has P1 or P2 as the reading of its tokens stops.
    ensures read { IsRefusedAsRead (string_bytes text) result }
{
    let tree = tree_of(alloc, text.as_str())?;
    match Arc::new(alloc, ParsedContent { text, tree }) {
        Ok(content) => Ok(Parsed { content }),
        Err(_) => Err(ParseError::Memory),
    }
}
