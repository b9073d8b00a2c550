//! Texts of constants.
ghost use Rattle.std.specs.Prelude.{◌≡◌, ◌≤◌, ◌++◌, ◌↔◌, IsTrue, IfOk, OnOk, length};
ghost use Rattle.std.specs.Arc.{arc_value};
ghost use Rattle.std.specs.List.{concat};
ghost use Rattle.go_constant_core.specs.Values.{text_less, text_same, most_bytes};
ghost use Rattle.go_constant_core.specs.Texts.{bytes_left};

use crate::joints::{PIECE, joined_blocks};
use crate::left::{Left, compared};
use crate::parts::Parts;
use crate::pieces::{Block, Piece};
use go_token_core::text_core::add;
use std::alloc::{AllocError, Global};
use std::cmp::Ordering;
use std::marker::Model;
use std::sync::Arc;

/// How many bytes a text has at most that is joined of two. No text of a program has more.
const MOST_BYTES: usize = 1_048_576;

/// How a text is kept.
pub(crate) enum Form {
    /// In one piece.
    Whole(Piece),
    /// In blocks of pieces.
    Parts(Arc<Parts>),
}

impl Drop for Form {
    fn drop(self) {
        match self {
            Form::Whole(_) => {}
            Form::Parts(_) => {}
        }
    }
}

/// The value of a string constant, shared by all that hold it: bytes, which need not be text. What is joined of two texts shares their
/// bytes, but for some hundred where they meet. Contracts see the bytes.
///
/// The Go specification, "String types": a string value is a sequence of bytes.
pub struct ConstantText {
    form: Form,
}

impl Drop for ConstantText {
    fn drop(self) {
        let ConstantText { form: _ } = self;
    }
}

impl Model for ConstantText {
    ghost use Rattle.std.specs.Prelude.{List, ℕ};

    ghost Value = { List ℕ };

    ghost use Rattle.go_constant_core.specs.Texts.{text_of};

    ghost view = { λ t. text_of t.form };
}

impl ConstantText {
    /// The text of these bytes, which are not copied.
    ///
    /// # Errors
    ///
    /// `AllocError` where memory is wanting.
    pub fn new(alloc: Global, bytes: Vec<u8>) -> Result<ConstantText, AllocError>
        ensures { IfOk result (λ text. text ≡ bytes.items) }
    {
        Ok(ConstantText {
            form: Form::Whole(Piece::new(alloc, bytes)?),
        })
    }

    /// How many bytes there are.
    pub fn len(&self) -> usize
        ensures { result ≡ length self.now }
    {
        match &self.form {
            Form::Whole(piece) => piece.bytes().len(),
            Form::Parts(parts) => parts.len(),
        }
    }

    /// The bytes, copied.
    ///
    /// # Errors
    ///
    /// `AllocError` where memory is wanting.
    pub fn bytes(&self, alloc: Global) -> Result<Vec<u8>, AllocError>
        ensures { IfOk result (λ bytes. bytes.items ≡ self.now) }
    {
        match &self.form {
            Form::Whole(piece) => Vec::from_slice(alloc, piece.bytes()),
            Form::Parts(parts) => bytes_of(alloc, parts),
        }
    }

    /// Whether another text has the same bytes. It takes no memory.
    pub fn is_same(&self, other: &ConstantText) -> bool
        ensures { IsTrue result ↔ (self.now ≡ other.now) }
    {
        is_same(self, other)
    }

    /// The same text once more. It takes no memory.
    ///
    /// # Errors
    ///
    /// `AllocError` where the text has too many owners.
    pub fn share(&self) -> Result<ConstantText, AllocError>
        ensures { IfOk result (λ text. text ≡ self.now) }
    {
        match &self.form {
            Form::Whole(piece) => Ok(ConstantText {
                form: Form::Whole(piece.share()?),
            }),
            Form::Parts(parts) => Ok(ConstantText {
                form: Form::Parts(Arc::try_clone(parts)?),
            }),
        }
    }

    /// All of it, to be compared.
    fn left(&self) -> Left<'_>
        ensures { bytes_left result ≡ self.now }
    {
        match &self.form {
            Form::Whole(piece) => Left {
                bytes: piece.bytes(),
                pieces: &[],
                blocks: &[],
            },
            Form::Parts(parts) => Left {
                bytes: &[],
                pieces: &[],
                blocks: parts.blocks(),
            },
        }
    }

    /// The same text in blocks.
    fn parts(&self, alloc: Global) -> Result<Arc<Parts>, AllocError>
        ensures { IfOk result (λ parts. arc_value parts ≡ self.now) }
    {
        match &self.form {
            Form::Whole(piece) => Ok(Arc::new(alloc, whole(alloc, piece)?)?),
            Form::Parts(parts) => Arc::try_clone(parts),
        }
    }
}

/// A text of one piece, in a block.
fn whole(alloc: Global, piece: &Piece) -> Result<Parts, AllocError>
    ensures { IfOk result (λ parts. parts ≡ piece.now) }
{
    let mut blocks = Vec::with_capacity(alloc, 1)?;
    add(&mut blocks, Block::of_one(alloc, piece)?)?;
    Ok(Parts::new(blocks, piece.bytes().len()))
}

/// Adds the bytes of pieces.
fn add_bytes(bytes: &mut Vec<u8>, pieces: &[Piece]) -> Result<(), AllocError>
    ensures { OnOk result (bytes.new.items ≡ bytes.old.items ++ concat pieces.now) }
{
    for piece in pieces {
        bytes.extend_from_slice(piece.bytes())?;
    }
    Ok(())
}

/// The bytes of a text of several pieces, copied.
fn bytes_of(alloc: Global, parts: &Parts) -> Result<Vec<u8>, AllocError>
    ensures { IfOk result (λ bytes. bytes.items ≡ parts.now) }
{
    let mut bytes = Vec::with_capacity(alloc, parts.len())?;
    let blocks = parts.blocks();
    for block in blocks {
        add_bytes(&mut bytes, block.pieces())?;
    }
    Ok(bytes)
}

/// The text of these two parts, which have so many bytes together.
fn of_two(alloc: Global, a: &Parts, b: &Parts, count: usize) -> Result<ConstantText, AllocError>
    requires { count ≡ length (a.now ++ b.now) }
    ensures { IfOk result (λ text. text ≡ a.now ++ b.now) }
{
    let blocks = joined_blocks(alloc, a.blocks(), b.blocks())?;
    Ok(ConstantText {
        form: Form::Parts(Arc::new(alloc, Parts::new(blocks, count))?),
    })
}

/// The bytes of one text, and then those of another. Of both no more is copied than one short piece and some handles.
///
/// # Errors
///
/// `AllocError` where memory is wanting, or where it would have more than 1,048,576 bytes, which no text of a program has.
pub(crate) fn joined(
    alloc: Global,
    a: &ConstantText,
    b: &ConstantText,
) -> Result<ConstantText, AllocError>
    ensures text { IfOk result (λ text. text ≡ a.now ++ b.now) }
    ensures bounded { OnOk result (length (a.now ++ b.now) ≤ most_bytes) }
{
    let count = a.len().checked_add(b.len()).ok_or(AllocError)?;
    if count > MOST_BYTES {
        return Err(AllocError);
    }
    if b.len() == 0 {
        return a.share();
    }
    if a.len() == 0 {
        return b.share();
    }
    if count <= PIECE {
        if let (Form::Whole(one), Form::Whole(other)) = (&a.form, &b.form) {
            let piece = Piece::joined(alloc, one, other)?;
            return Ok(ConstantText {
                form: Form::Whole(piece),
            });
        }
    }
    let front = a.parts(alloc)?;
    let back = b.parts(alloc)?;
    of_two(alloc, &front, &back, count)
}

/// Whether two texts have the same bytes.
pub(crate) fn is_same(a: &ConstantText, b: &ConstantText) -> bool
    ensures { result ≡ text_same a.now b.now }
{
    a.len() == b.len() && matches!(compared(a.left(), b.left()), Ordering::Equal)
}

/// Whether one text stands before another, by bytes.
pub(crate) fn is_less(a: &ConstantText, b: &ConstantText) -> bool
    ensures { result ≡ text_less a.now b.now }
{
    matches!(compared(a.left(), b.left()), Ordering::Less)
}
