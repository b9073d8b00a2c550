//! What is answered of trees.
use crate::show::Lines;
use crate::tokens::add_comments;
use crate::words::pair;
use go_graph_core::parse_core::{ParseError, Parsed, parse, tree_of};
use go_tree_core::{Role, Usage, at, copy, occurrences, renamed};
use go_tree_nodes::{Decl, File};
use std::alloc::Global;

/// The name of a role, with the use of a selector.
fn role_word(role: Role) -> &'static str {
    match role {
        Role::Import => "Import ",
        Role::Type => "Type ",
        Role::Value => "Value ",
        Role::Callee => "Callee ",
        Role::Qualifier => "Qualifier ",
        Role::Selector(Usage::Type) => "Selector(Type) ",
        Role::Selector(Usage::Value) => "Selector(Value) ",
        Role::Selector(Usage::Callee) => "Selector(Callee) ",
        Role::Key => "Key ",
        Role::Call => "Call ",
    }
}

/// Adds the occurrences of a file: of each its start, its end, its role and its spelling.
fn add_uses(out: &mut Lines, alloc: Global, tree: &File) {
    match occurrences(alloc, tree) {
        Ok(occs) => {
            for occ in &occs {
                out.span(occ.span);
                out.add(role_word(occ.role));
                out.quote(occ.spelling.as_str().as_bytes());
            }
        }
        Err(_) => out.cut(),
    }
}

/// Adds for each byte of an occurrence its offset and the number of the occurrence.
fn add_places(out: &mut Lines, parsed: &Parsed) {
    for offset in 0..parsed.text().len() {
        if let Some(id) = at(parsed.tree(), offset) {
            out.count("", offset, " ");
            out.count("", id.0, "\n");
        }
    }
}

/// Adds the name of a file and the number of its declarations, and of each function its name, the place of its opening brace and
/// how many statements it has.
fn add_file(out: &mut Lines, file: &File) {
    out.add(file.name.name.as_str());
    out.count(" ", file.decls.len(), "\n");
    for top in &file.decls {
        if let Decl::Func(func) = &top.decl {
            out.pieces(&[func.name.name.as_str(), " "]);
            out.span(func.open_brace);
            out.count("", func.body.len(), "\n");
        }
    }
}

/// Adds the tree of a parsed text, and then a copy of it: its text, its comments, and a copy of its tree.
fn add_copies(out: &mut Lines, alloc: Global, parsed: &Parsed) {
    add_file(out, parsed.tree());
    let Ok(copied) = parsed.copy(alloc) else {
        return out.cut();
    };
    out.quote(copied.text().as_bytes());
    match copied.comments(alloc) {
        Ok(comments) => add_comments(out, comments.as_slice()),
        Err(_) => out.cut(),
    }
    match copy(alloc, copied.tree()) {
        Ok(tree) => add_file(out, &tree),
        Err(_) => out.cut(),
    }
}

/// Adds how many of a text's beginnings have a tree, nothing and the whole text among them.
pub fn add_prefixes(out: &mut Lines, alloc: Global, text: &str) {
    let mut count = 0usize;
    for end in 0..=text.len() {
        // Inside a character there is no prefix.
        if let Some(prefix) = text.get(..end) {
            match tree_of(alloc, prefix) {
                Ok(_) => count = count.saturating_add(1),
                Err(ParseError::Memory) => out.cut(),
                Err(ParseError::Fault(_)) => {}
            }
        }
    }
    out.count("", count, "\n");
}

/// Adds the occurrences of a file in which the identifier that is used at an offset is spelled otherwise, or `none` where none is used there. The
/// offset and the other spelling stand before the text of the file.
pub fn add_renamed(out: &mut Lines, alloc: Global, asked: &str) {
    let (offset, rest) = pair(asked);
    let (name, text) = pair(rest);
    match tree_of(alloc, text) {
        Ok(tree) => match at(&tree, offset.parse().unwrap_or(0)) {
            Some(id) => match renamed(alloc, &tree, id, name) {
                Ok(tree) => add_uses(out, alloc, &tree),
                Err(_) => out.cut(),
            },
            None => out.line("none"),
        },
        Err(ParseError::Memory) => out.cut(),
        Err(ParseError::Fault(fault)) => out.fault(fault.rule, fault.offset),
    }
}

/// Adds the answer of a kind to a text, or to a file in which it is a declaration, a statement, an expression or a type.
pub fn add_answer(out: &mut Lines, alloc: Global, kind: &str, text: &str) {
    let (before, behind) = match kind {
        "decl" => ("package a\n", "\n"),
        "stmt" => ("package a\nfunc f() { ", " }\n"),
        "expr" => ("package a\nvar x = ", "\n"),
        "typed" => ("package a\nvar x ", "\n"),
        _ => ("", ""),
    };
    let mut file = Lines::new(alloc);
    file.pieces(&[before, text, behind]);
    let Ok(file) = file.finish() else {
        return out.cut();
    };
    match parse(alloc, file) {
        Ok(parsed) => match kind {
            "uses" => add_uses(out, alloc, parsed.tree()),
            "places" => add_places(out, &parsed),
            "copies" => add_copies(out, alloc, &parsed),
            _ => out.line("tree"),
        },
        Err(ParseError::Memory) => out.cut(),
        Err(ParseError::Fault(fault)) => out.fault(fault.rule, fault.offset),
    }
}
