//! What is answered of tokens and comments.
use crate::show::Lines;
use go_scan_core::{comments, scan};
use go_tree_nodes::token_core::{
    Comment, CommentKind, ScanError, TokenKind, integer_value, string_value,
};
use std::alloc::Global;

/// Adds why a text has no tokens.
fn add_error(out: &mut Lines, error: ScanError) {
    match error {
        ScanError::Memory => out.cut(),
        ScanError::Fault(fault) => out.fault(fault.rule, fault.offset),
    }
}

/// Adds what a token is, and its value where it is a literal; of a keyword and an operator the spelling.
fn add_token(out: &mut Lines, alloc: Global, kind: TokenKind, spelled: &str) {
    let spelling = match kind {
        TokenKind::Identifier => return out.line("identifier"),
        TokenKind::Integer => {
            out.add("integer ");
            out.show(integer_value(spelled).unwrap_or(0));
            return out.line("");
        }
        TokenKind::String => {
            out.add("string ");
            return match string_value(alloc, spelled) {
                Ok(value) => out.quote(value.as_slice()),
                Err(_) => out.cut(),
            };
        }
        TokenKind::Keyword(keyword) => keyword.spelling(),
        TokenKind::Operator(operator) => operator.spelling(),
    };
    for c in spelling {
        out.push(*c);
    }
    out.line("");
}

/// Adds comments, each with its start and its end.
pub fn add_comments(out: &mut Lines, comments: &[Comment]) {
    for comment in comments {
        out.span(comment.span);
        out.line(match comment.kind {
            CommentKind::Line => "line",
            CommentKind::General => "general",
        });
    }
}

/// Adds the tokens of a text, each with its start and its end, and then its comments.
pub fn add_tokens(out: &mut Lines, alloc: Global, text: &str) {
    match scan(alloc, text) {
        Ok(tokens) => {
            for token in &tokens {
                out.span(token.span);
                add_token(out, alloc, token.kind, token.span.slice(text).unwrap_or(""));
            }
            add_comments_of(out, alloc, text);
        }
        Err(error) => add_error(out, error),
    }
}

/// Adds the comments of a text.
pub fn add_comments_of(out: &mut Lines, alloc: Global, text: &str) {
    match comments(alloc, text) {
        Ok(comments) => add_comments(out, comments.as_slice()),
        Err(error) => add_error(out, error),
    }
}
