//! What is said of a fault.

use crate::common::common_path;
use crate::imports::of_import;
use crate::names::of_name;
use crate::twice::of_declaration;
use go_diagnostic_core::snap_core::{PlacedFault, Snapshot};
use go_diagnostic_core::{
    Here, LineKind, Message, ScannedFile, Words, add_change, place_here, place_text,
};
use go_explain_core::meaning;
use go_graph_core::parse_core::SynFault;
use go_recovery_core::mend::{Mend, lexical, mend};
use go_tree_nodes::text_core::Rule;
use go_tree_nodes::token_core::TokenKind;
use std::alloc::{AllocError, Global};

/// What kind of thing a rule is of.
#[derive(Clone, Copy)]
enum Family {
    Package,
    Import,
    Declaration,
    Name,
    Text,
    Other,
}

// What kind of thing a rule is of, by the first letter of its number.
fn family_of(rule: Rule) -> Family {
    match rule.number().as_bytes().first() {
        Some(b'K') => Family::Package,
        Some(b'I') => Family::Import,
        Some(b'B') => Family::Declaration,
        Some(b'N') => Family::Name,
        Some(b'L' | b'P') => Family::Text,
        _ => Family::Other,
    }
}

// What is said at a place.
fn said(alloc: Global, here: &Here<'_>, rule: Rule) -> Result<Message, AllocError> {
    match family_of(rule) {
        Family::Package => of_package(alloc, here, rule),
        Family::Import => of_import(alloc, here, rule),
        Family::Declaration => of_declaration(alloc, here, rule),
        Family::Name => of_name(alloc, here, rule),
        Family::Text => of_text(alloc, here, rule),
        Family::Other => of_word(alloc, here, rule),
    }
}

// The sentence of a rule, after the identifier that stands at the place.
fn of_word(alloc: Global, here: &Here<'_>, rule: Rule) -> Result<Message, AllocError> {
    match here.tokens.kind(here.at) {
        Some(TokenKind::Identifier) => Message::of(
            Words::new(alloc)
                .and(here.word())
                .and(": ")
                .and(meaning(rule)),
        ),
        _ => by_meaning(alloc, rule),
    }
}

// The sentence of a rule alone.
fn by_meaning(alloc: Global, rule: Rule) -> Result<Message, AllocError> {
    Message::of(Words::new(alloc).and(meaning(rule)))
}

// What is said of a text that has no tree.
fn of_text(alloc: Global, here: &Here<'_>, rule: Rule) -> Result<Message, AllocError> {
    match rule {
        Rule::P1 | Rule::P2 => of_grammar(alloc, here, rule),
        Rule::L1 | Rule::L2 | Rule::L3 => of_token(alloc, here, rule),
        _ => by_meaning(alloc, rule),
    }
}

// What is said of a text that is not written as the grammar wants it.
fn of_grammar(alloc: Global, here: &Here<'_>, rule: Rule) -> Result<Message, AllocError> {
    let text = here.file.text();
    let fault = SynFault {
        offset: here.offset,
        rule,
    };
    let found = mend(alloc, text, fault)?;
    let mut message = Message::new(alloc, found.headline(alloc, text)?);
    if !add_change(alloc, here, &found, &mut message)? {
        add_advice(alloc, &found, &mut message)?;
    }
    if found.is_opened() {
        add_open(alloc, here, found.open, &mut message)?;
    }
    Ok(message)
}

// Adds what to write in place of a word of another language.
fn add_advice(alloc: Global, found: &Mend, message: &mut Message) -> Result<(), AllocError> {
    match found.help(alloc)? {
        Some(help) => message.help(Words::new(alloc).and(help.as_str())),
        None => Ok(()),
    }
}

// Adds which bracket is still open.
fn add_open(
    alloc: Global,
    here: &Here<'_>,
    open: Option<usize>,
    message: &mut Message,
) -> Result<(), AllocError> {
    match open {
        Some(offset) => {
            let place = place_here(alloc, here, offset)?;
            let bracket = here.tokens.word(here.tokens.from(offset));
            message.note(
                Words::new(alloc)
                    .and("the ")
                    .and(bracket)
                    .and(" of ")
                    .and(place.as_str())
                    .and(" is still open"),
            )
        }
        None => Ok(()),
    }
}

// What is said of a token that is not written as it should be.
fn of_token(alloc: Global, here: &Here<'_>, rule: Rule) -> Result<Message, AllocError> {
    let text = here.file.text();
    let fault = SynFault {
        offset: here.offset,
        rule,
    };
    let Some(found) = lexical(text, fault) else {
        return by_meaning(alloc, rule);
    };
    let mut message = Message::new(alloc, found.headline(alloc, text)?);
    if let Some(help) = found.cause.help() {
        message.help(Words::new(alloc).and(help))?;
    }
    Ok(message)
}

// What is said of a package whose files do not assemble.
fn of_package(alloc: Global, here: &Here<'_>, rule: Rule) -> Result<Message, AllocError> {
    match rule {
        Rule::K2 => other_clause(alloc, here),
        Rule::K3 => Message::of(Words::new(alloc).and("a package cannot be named _")),
        Rule::K4 => Message::of(
            Words::new(alloc)
                .and("package ")
                .and(here.path().as_str())
                .and(" is not checked, since this file does not parse"),
        ),
        _ => by_meaning(alloc, rule),
    }
}

// A package clause that differs from that of the first file.
fn other_clause(alloc: Global, here: &Here<'_>) -> Result<Message, AllocError> {
    let name = here.word();
    let Some(first) = here.source.files().first() else {
        return by_meaning(alloc, Rule::K2);
    };
    let Some(clause) = first.clause() else {
        return by_meaning(alloc, Rule::K2);
    };
    let mut message = Message::of(
        Words::new(alloc)
            .and("package ")
            .and(name)
            .and(": the first file of this folder says package ")
            .and(clause.name.as_str()),
    )?;
    let offset = clause.span.start as usize;
    let place = place_text(alloc, here.module, here.path().as_str(), first, offset)?;
    message.line(LineKind::First, Words::new(alloc).and(place.as_str()))?;
    Ok(message)
}

/// What is said of a fault of a file of a snapshot, where places are told by folders below that of the module of this path: a headline that names what stands there,
/// and lines after it. Of a fault that lies in another file, and of a rule of which no more is said, the headline is the sentence of the rule.
///
/// A line that fits names something that has a declaration in place of what is amiss, a package that could be imported there, or a change with which the text
/// has a tree. Lines and columns are counted from 1, columns in bytes.
///
/// The tokens of the file are read once for all its faults. The time is linear in the file of the fault, in the files of the declarations that are looked at, at most
/// twenty, and in the names of a scope, a package or a type; for imports in those of the workspace. Where a suggestion depends on types it is that of `complete`.
///
/// # Errors
///
/// `AllocError` where memory is wanting.
pub fn message_in(
    alloc: Global,
    scanned: &ScannedFile<'_>,
    module: &str,
    fault: &PlacedFault,
) -> Result<Message, AllocError> {
    match Here::of(scanned, module, fault) {
        Some(here) => said(alloc, &here, fault.rule),
        None => by_meaning(alloc, fault.rule),
    }
}

/// What is said of a fault of a snapshot, as by [`message_in`], with the tokens of its file read for it alone. Of a fault that lies in no file of the snapshot it is the
/// sentence of the rule.
///
/// # Errors
///
/// `AllocError` where memory is wanting.
pub fn message_below(
    alloc: Global,
    snapshot: &Snapshot,
    module: &str,
    fault: &PlacedFault,
) -> Result<Message, AllocError> {
    match ScannedFile::of(alloc, snapshot, fault) {
        Ok(Some(scanned)) => message_in(alloc, &scanned, module, fault),
        Ok(None) => by_meaning(alloc, fault.rule),
        Err(error) => Err(error),
    }
}

/// What is said of a fault of a snapshot, as by [`message_below`]. The module is that of the longest path that the paths of all packages begin with.
///
/// # Errors
///
/// `AllocError` where memory is wanting.
pub fn message(
    alloc: Global,
    snapshot: &Snapshot,
    fault: &PlacedFault,
) -> Result<Message, AllocError> {
    let packages = snapshot.sources().packages();
    let Some(first) = packages.first() else {
        return by_meaning(alloc, fault.rule);
    };
    let Some(last) = packages.last() else {
        return by_meaning(alloc, fault.rule);
    };
    let module = common_path(first.path().as_str(), last.path().as_str());
    message_below(alloc, snapshot, module, fault)
}
