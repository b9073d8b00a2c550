//! A table of cases: what is asked, of which texts.
use crate::answers::add_answer;
use crate::show::Lines;
use go_scan_core::scan;
use go_tree_nodes::token_core::{Operator, Token, TokenKind, integer_value, string_value};
use std::alloc::Global;

/// A case, as far as it is read.
#[derive(Drop)]
struct Case<'a> {
    kind: &'a str,
    name: &'a str,
    /// How often the next piece stands in the text.
    times: u64,
    /// The text, as far as it is read.
    bytes: Vec<u8>,
}

impl<'a> Case<'a> {
    /// Takes the piece of the text that a literal stands for, as often as was said.
    fn take_literal(&mut self, out: &mut Lines, alloc: Global, literal: &str) {
        let Ok(piece) = string_value(alloc, literal) else {
            return out.cut();
        };
        for _turn in 0..self.times {
            if self.bytes.extend_from_slice(piece.as_slice()).is_err() {
                out.cut();
            }
        }
        self.times = 1;
    }

    /// Adds the answer to the text, with commas between its lines, and begins the next text.
    fn answer(&mut self, out: &mut Lines, alloc: Global) {
        let mut lines = Lines::new(alloc);
        add_answer(&mut lines, alloc, self.kind, self.bytes.as_slice());
        self.bytes.clear();
        let Ok(lines) = lines.finish() else {
            return out.cut();
        };
        let mut is_first = true;
        for line in lines.as_str().lines() {
            out.add(if is_first { " " } else { ", " });
            out.add(line);
            is_first = false;
        }
    }

    /// Takes a token.
    fn take(&mut self, out: &mut Lines, alloc: Global, kind: TokenKind, spelled: &'a str) {
        match kind {
            TokenKind::Identifier if self.kind.is_empty() => self.kind = spelled,
            TokenKind::Identifier => self.name = spelled,
            TokenKind::Integer => self.times = integer_value(spelled).unwrap_or(1),
            TokenKind::String => self.take_literal(out, alloc, spelled),
            TokenKind::Operator(Operator::Colon) => {
                out.pieces(&[self.name, ":"]);
            }
            TokenKind::Operator(Operator::Comma) => {
                self.answer(out, alloc);
                out.add(" |");
            }
            TokenKind::Operator(Operator::Semicolon) => {
                self.answer(out, alloc);
                out.line("");
                self.kind = "";
            }
            TokenKind::Operator(_) | TokenKind::Keyword(_) => {}
        }
    }
}

/// Adds the answers of the cases that the tokens of a table write.
fn add_cases(out: &mut Lines, alloc: Global, table: &str, tokens: &[Token]) {
    let mut case = Case {
        kind: "",
        name: "",
        times: 1,
        bytes: Vec::new(alloc),
    };
    for token in tokens {
        let spelled = token.span.slice(table).unwrap_or("");
        case.take(out, alloc, token.kind, spelled);
    }
}

/// Adds the answers of the cases of a table, a line for each.
///
/// A case is written in Go's tokens, as `kind name: "text", "text"`. A text is string literals, one behind the
/// other, and `3*"a"` stands for `"aaa"`. The line of its answers has the name, and ` | ` between two answers.
pub fn add_table(out: &mut Lines, alloc: Global, bytes: &[u8]) {
    let Ok(table) = str::from_utf8(bytes) else {
        return out.line("no text");
    };
    match scan(alloc, table) {
        Ok(tokens) => add_cases(out, alloc, table, tokens.as_slice()),
        Err(_) => out.line("no table"),
    }
}
