//! Lines, as they are written.
use go_scope_core::text_core::{Rule, Span, is_digit, is_letter};
use std::alloc::{AllocError, Global};
use std::fmt::{Display, Write};

/// The digits of hexadecimal numbers.
const DIGITS: &[u8; 16] = b"0123456789abcdef";

/// A text that is written piece by piece. It keeps in mind that memory was wanting, so that nothing has to be asked
/// behind each piece.
#[derive(Drop)]
pub struct Lines {
    text: String,
    is_cut: bool,
}

impl Lines {
    /// No lines yet.
    pub fn new(alloc: Global) -> Lines {
        Lines {
            text: String::new(alloc),
            is_cut: false,
        }
    }

    /// Notes that memory was wanting.
    pub fn cut(&mut self) {
        self.is_cut = true;
    }

    /// Adds a piece.
    pub fn add(&mut self, piece: &str) {
        if self.text.push_str(piece).is_err() {
            self.is_cut = true;
        }
    }

    /// The text so far, for what adds to a text.
    pub fn text(&mut self) -> &mut String {
        &mut self.text
    }

    /// Adds pieces, one behind the other.
    pub fn pieces(&mut self, pieces: &[&str]) {
        for piece in pieces {
            self.add(piece);
        }
    }

    /// Adds a piece, and ends the line.
    pub fn line(&mut self, piece: &str) {
        self.add(piece);
        self.add("\n");
    }

    /// Adds what is shown, as a number.
    pub fn show<T: Display + Drop>(&mut self, shown: T) {
        if write!(self.text, "{shown}").is_err() {
            self.is_cut = true;
        }
    }

    /// Adds a number between two pieces.
    pub fn count(&mut self, before: &str, number: usize, behind: &str) {
        self.add(before);
        self.show(number);
        self.add(behind);
    }

    /// Adds the start and the end of a place, and a blank behind each.
    pub fn span(&mut self, span: Span) {
        self.show(span.start);
        self.add(" ");
        self.show(span.end);
        self.add(" ");
    }

    /// Adds the line of a rule that refuses something. M0 is want of memory.
    pub fn refuse(&mut self, rule: Rule) {
        if rule == Rule::M0 {
            self.is_cut = true;
        }
        self.line(rule.number());
    }

    /// Adds the line of a fault of a text. No rule fixes the place of P1 and P2.
    pub fn fault(&mut self, rule: Rule, offset: usize) {
        if rule != Rule::P1 && rule != Rule::P2 {
            self.count("fault ", offset, " ");
        }
        self.refuse(rule);
    }

    /// Adds a character.
    pub fn push(&mut self, c: char) {
        if self.text.push(c).is_err() {
            self.is_cut = true;
        }
    }

    /// Adds a text between quotation marks, and ends the line. A byte from a space to `~` stands for itself, but `\xHH` stands
    /// for a quotation mark, a backslash and any other byte.
    pub fn quote(&mut self, bytes: &[u8]) {
        self.add("\"");
        for b in bytes {
            match b {
                b'"' | b'\\' | 0..=31 | 127..=255 => {
                    self.add("\\x");
                    self.push(char::from(DIGITS[usize::from(*b >> 4)]));
                    self.push(char::from(DIGITS[usize::from(*b & 15)]));
                }
                plain => self.push(char::from(*plain)),
            }
        }
        self.add("\"\n");
    }

    /// Adds a word, and behind it whether two texts are the `same`, or the one `another` than the other.
    pub fn compare(&mut self, word: &str, one: Lines, other: Lines) {
        if one.is_cut || other.is_cut {
            self.is_cut = true;
        }
        let is_same = one.text.as_str() == other.text.as_str();
        self.add(word);
        self.line(if is_same { " same" } else { " another" });
    }

    /// The text, unless a piece of it is missing.
    pub fn finish(self) -> Result<String, AllocError> {
        if self.is_cut {
            return Err(AllocError);
        }
        Ok(self.text)
    }
}

/// The identifier that stands at an offset of a text, and nothing where there is none.
pub fn identifier_at(text: &str, offset: usize) -> &str {
    let rest = text.get(offset..).unwrap_or("");
    for (end, c) in rest.char_indices() {
        if !is_letter(c) && !is_digit(c) {
            return rest.get(..end).unwrap_or("");
        }
    }
    rest
}
