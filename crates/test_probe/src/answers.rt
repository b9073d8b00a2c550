//! Which kind of answer is asked for.
use crate::show::Lines;
use crate::{runs, shapes, table, tokens, trees, words, workspaces};
use std::alloc::Global;

/// Adds the answer of a kind to a text.
fn add_text_answer(out: &mut Lines, alloc: Global, kind: &str, text: &str) {
    match kind {
        "tokens" => tokens::add_tokens(out, alloc, text),
        "comments" => tokens::add_comments_of(out, alloc, text),
        "prefixes" => trees::add_prefixes(out, alloc, text),
        "parse" | "uses" | "places" | "copies" | "decl" | "stmt" | "expr" | "typed" => {
            trees::add_answer(out, alloc, kind, text);
        }
        "renamed" => trees::add_renamed(out, alloc, text),
        "chain" | "ring" | "complete" => shapes::add_answer(out, alloc, kind, text),
        "sources" | "replaced" | "copied" | "packages" | "plan" | "scope" | "keys" => {
            workspaces::add_answer(out, alloc, kind, text);
        }
        _ => words::add_answer(out, alloc, kind, text),
    }
}

/// Adds the answer of a kind to bytes, in lines. Of what is no text there is a run alone.
pub fn add_answer(out: &mut Lines, alloc: Global, kind: &str, bytes: &[u8]) {
    if runs::add_answer(out, alloc, kind, bytes) {
        return;
    }
    match str::from_utf8(bytes) {
        Ok(text) => add_text_answer(out, alloc, kind, text),
        Err(_) => out.line("no text"),
    }
}

/// Adds the name of a file and the answer of a kind to its bytes, or, of the kind `cases`, the answers to the cases of a table.
pub fn add_of_file(out: &mut Lines, alloc: Global, kind: &str, file: &str, bytes: &[u8]) {
    out.pieces(&["file ", file, "\n"]);
    match kind {
        "cases" => table::add_table(out, alloc, bytes),
        _ => add_answer(out, alloc, kind, bytes),
    }
}
