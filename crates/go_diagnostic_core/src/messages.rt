//! Diagnostics as they are told: a headline with lines after it.

use crate::suggesting::Fitting;
use go_token_core::text_core::add;
use std::alloc::{AllocError, Global};

/// What a line after a headline is.
#[derive(Clone, Copy, Debug, PartialEq, Eq)]
pub enum LineKind {
    /// The place of the first of two.
    First,
    /// Where something is declared.
    Declared,
    /// What there is.
    Have,
    /// What is wanted.
    Want,
    /// Something to be known.
    Note,
    /// What to change.
    Help,
}

/// A line after a headline. It is made by the calls of a [`Message`] alone.
pub struct MessageLine {
    /// What the line is.
    pub kind: LineKind,
    /// What it says, without its end.
    pub text: String,
    fits: bool,
}

impl Drop for MessageLine {
    fn drop(self) {
        let MessageLine {
            kind: _,
            text: _,
            fits: _,
        } = self;
    }
}

impl MessageLine {
    /// Whether the line names something that fits there: it is among what a query gives at the place, or a change with which the text has a tree. Else it is a
    /// sentence.
    pub fn fits(&self) -> bool {
        self.fits
    }
}

/// A part of the text of the file in which a fault lies, in bytes from its start: what a diagnostic speaks of.
#[derive(Clone, Copy)]
pub struct Marked {
    /// The offset of the first byte.
    pub start: usize,
    /// The offset of the byte after the last one.
    pub end: usize,
}

/// A diagnostic: what is said of a fault.
pub struct Message {
    /// What is amiss, in one line without its end, the place and the number of the rule.
    pub headline: String,
    /// What is said besides, in the order in which it is told.
    pub lines: Vec<MessageLine>,
    /// The part of the text that is amiss; none where that is the token at the place of the fault.
    pub marked: Option<Marked>,
}

impl Drop for Message {
    fn drop(self) {
        let Message {
            headline: _,
            lines: _,
            marked: _,
        } = self;
    }
}

/// The words of a line of a diagnostic, put together piece by piece. A blank stands for what ends a line, and for any other control character. It keeps that
/// memory was wanting, and takes no more pieces then.
pub struct Words {
    text: String,
    alloc: Global,
    is_short: bool,
}

impl Drop for Words {
    fn drop(self) {
        let Words {
            text: _,
            alloc: _,
            is_short: _,
        } = self;
    }
}

impl Words {
    /// No words.
    pub fn new(alloc: Global) -> Words {
        Words {
            text: String::new(alloc),
            alloc,
            is_short: false,
        }
    }

    /// The words with one piece more.
    pub fn and(self, piece: &str) -> Words {
        let mut words = self;
        words.add(piece);
        words
    }

    // Adds a piece, where memory was not wanting before.
    fn add(&mut self, piece: &str) {
        if self.is_short {
            return;
        }
        self.is_short = push_in_line(&mut self.text, piece).is_err();
    }

    /// The text of the words.
    ///
    /// # Errors
    ///
    /// `AllocError` where memory was wanting for one of the pieces.
    pub fn text(self) -> Result<String, AllocError> {
        let Words {
            text,
            alloc: _,
            is_short,
        } = self;
        if is_short {
            return Err(AllocError);
        }
        Ok(text)
    }
}

impl Message {
    /// A headline with no line after it.
    pub fn new(alloc: Global, headline: String) -> Message {
        Message {
            headline,
            lines: Vec::new(alloc),
            marked: None,
        }
    }

    /// Marks the part of the text between two offsets, in bytes from the start of the file of the fault, as what is amiss.
    pub fn mark(&mut self, start: usize, end: usize) {
        self.marked = Some(Marked { start, end });
    }

    /// A headline with no line after it, by its pieces.
    ///
    /// # Errors
    ///
    /// `AllocError` where memory was wanting.
    pub fn of(words: Words) -> Result<Message, AllocError> {
        let alloc = words.alloc;
        let headline = words.text()?;
        Ok(Message::new(alloc, headline))
    }

    // Adds a line.
    fn add(&mut self, kind: LineKind, text: String, fits: bool) -> Result<(), AllocError> {
        add(&mut self.lines, MessageLine { kind, text, fits })
    }

    /// Adds a line of some kind. It names nothing that is said to fit.
    ///
    /// # Errors
    ///
    /// `AllocError` where memory is wanting.
    pub fn line(&mut self, kind: LineKind, words: Words) -> Result<(), AllocError> {
        let text = words.text()?;
        self.add(kind, text, false)
    }

    /// Adds what to change, in words that are not said to fit.
    ///
    /// # Errors
    ///
    /// `AllocError` where memory is wanting.
    pub fn help(&mut self, words: Words) -> Result<(), AllocError> {
        self.line(LineKind::Help, words)
    }

    /// Adds something to be known.
    ///
    /// # Errors
    ///
    /// `AllocError` where memory is wanting.
    pub fn note(&mut self, words: Words) -> Result<(), AllocError> {
        self.line(LineKind::Note, words)
    }

    /// Adds what fits, between other words. Nothing else makes a line that fits.
    ///
    /// # Errors
    ///
    /// `AllocError` where memory is wanting.
    pub(crate) fn fitting(
        &mut self,
        before: Words,
        fitting: &Fitting,
        after: &str,
    ) -> Result<(), AllocError> {
        let text = before.and(fitting.text()).and(after).text()?;
        self.add(LineKind::Help, text, true)
    }

    /// Adds a line of some kind that is a place, as by [`crate::place_text`], where there is one.
    ///
    /// # Errors
    ///
    /// `AllocError` where memory is wanting.
    pub fn at(&mut self, kind: LineKind, place: Option<String>) -> Result<(), AllocError> {
        match place {
            Some(text) => self.add(kind, text, false),
            None => Ok(()),
        }
    }
}

// Adds a piece of a text, with a blank for each control character.
fn push_in_line(text: &mut String, piece: &str) -> Result<(), AllocError> {
    for c in piece.chars() {
        let shown = if c.is_control() { ' ' } else { c };
        text.push(shown)?;
    }
    Ok(())
}
