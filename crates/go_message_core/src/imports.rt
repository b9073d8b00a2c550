//! What is said of imports.

use crate::clauses::{clause_name, has_other_name};
use crate::common::{common_path, last_element};
use crate::local::{is_declared, locals_of};
use go_diagnostic_core::{
    Here, Message, Words, add_near_import, package_at, place_here, place_text, shown,
};
use go_graph_core::{PackageSource, SourceFile};
use go_tree_nodes::text_core::{Rule, add};
use go_tree_nodes::token_core::{Operator, TokenKind, plain_value};
use go_tree_nodes::{ImportSpec, ImportSpecs};
use std::alloc::{AllocError, Global};

/// What is said of an import that breaks one of the rules I1 to I7.
///
/// # Errors
///
/// `AllocError` where memory is wanting.
pub(crate) fn of_import(alloc: Global, here: &Here<'_>, rule: Rule) -> Result<Message, AllocError> {
    let written = shown(alloc, here.word())?;
    let path = import_path(here);
    match rule {
        Rule::I1 => no_path(alloc, here, written.as_str(), path),
        Rule::I2 => no_package(alloc, here, written.as_str(), path),
        Rule::I3 => internal(alloc, written.as_str(), path),
        Rule::I4 => circle(alloc, here, path),
        Rule::I5 => Message::of(
            Words::new(alloc)
                .and(written.as_str())
                .and(" is a program (package main): it cannot be imported"),
        ),
        Rule::I6 => Message::of(
            Words::new(alloc)
                .and(written.as_str())
                .and(" is not checked: its files have a fault of K2, K3 or K4"),
        ),
        _ => unused(alloc, here, written.as_str(), path),
    }
}

// The path that the import at a place writes; nothing where it is written with escapes.
fn import_path<'s>(here: &Here<'s>) -> &'s str {
    match plain_value(here.word()) {
        Some(path) => path,
        None => "",
    }
}

// Why a text is no import path.
fn why_no_path(path: &str) -> &'static str {
    if path.is_empty() {
        return "it is empty";
    }
    if path.starts_with('.') {
        return "an import path does not begin with a dot";
    }
    if path.starts_with('/') {
        return "an import path does not begin with /";
    }
    if path.ends_with('/') {
        return "an import path does not end with /";
    }
    if path.contains("//") {
        return "an element is empty";
    }
    if path.contains(' ') {
        return "it has a space";
    }
    if path.contains('\\') {
        return "it has a backslash: write /";
    }
    "its 1 to 16 elements may have only letters, digits and - . _ ~, and no dot at their ends"
}

// An import of what is no path.
fn no_path(
    alloc: Global,
    here: &Here<'_>,
    written: &str,
    path: &str,
) -> Result<Message, AllocError> {
    let mut message = Message::of(
        Words::new(alloc)
            .and(written)
            .and(" is not an import path: ")
            .and(why_no_path(path)),
    )?;
    if let Some(below) = path.strip_prefix("./") {
        add_full_path(alloc, here, below, &mut message)?;
    }
    Ok(message)
}

// Adds the path of the package that lies so below that of a place, where there is one.
fn add_full_path(
    alloc: Global,
    here: &Here<'_>,
    below: &str,
    message: &mut Message,
) -> Result<(), AllocError> {
    let full = Words::new(alloc)
        .and(here.path().as_str())
        .and("/")
        .and(below)
        .text()?;
    if package_at(here, full.as_str()).is_some() {
        return message.help(
            Words::new(alloc)
                .and("write \"")
                .and(full.as_str())
                .and("\""),
        );
    }
    Ok(())
}

// The first element of a path.
fn first_element(path: &str) -> &str {
    match path.split_once('/') {
        Some((first, _)) => first,
        None => path,
    }
}

// Whether a path is that of a module or lies below it.
fn is_below(path: &str, module: &str) -> bool {
    match path.strip_prefix(module) {
        Some(rest) => rest.is_empty() || rest.starts_with('/'),
        None => false,
    }
}

// The path that the paths of all packages of the workspace begin with.
fn shared_path<'s>(here: &Here<'s>) -> &'s str {
    let packages = here.snapshot.sources().packages();
    let Some(first) = packages.first() else {
        return "";
    };
    match packages.last() {
        Some(last) => common_path(first.path().as_str(), last.path().as_str()),
        None => "",
    }
}

// An import of no package of the workspace.
fn no_package(
    alloc: Global,
    here: &Here<'_>,
    written: &str,
    path: &str,
) -> Result<Message, AllocError> {
    if is_below(path, here.module) || is_below(path, shared_path(here)) {
        return no_folder(alloc, here, written, path);
    }
    if !first_element(path).contains('.') {
        return other_or_standard(alloc, here, written, path);
    }
    let mut message = Message::of(
        Words::new(alloc).and(written).and(
            " is a package of another module, which govisd does not know yet",
        ),
    )?;
    add_near_import(alloc, here, path, &mut message)?;
    Ok(message)
}

// An import of a folder of this module that has no Go files.
fn no_folder(
    alloc: Global,
    here: &Here<'_>,
    written: &str,
    path: &str,
) -> Result<Message, AllocError> {
    let mut message = Message::of(
        Words::new(alloc)
            .and(written)
            .and(": this module has no such folder with Go files"),
    )?;
    add_near_import(alloc, here, path, &mut message)?;
    Ok(message)
}

// An import whose first element has no dot: of the standard library, or of a package of this module whose path was not written whole.
fn other_or_standard(
    alloc: Global,
    here: &Here<'_>,
    written: &str,
    path: &str,
) -> Result<Message, AllocError> {
    let full = Words::new(alloc)
        .and(here.module)
        .and("/")
        .and(path)
        .text()?;
    if package_at(here, full.as_str()).is_some() {
        let mut message = Message::of(
            Words::new(alloc).and(written).and(
                " is not a package: an import begins with the path of its module",
            ),
        )?;
        message.help(
            Words::new(alloc)
                .and("write \"")
                .and(full.as_str())
                .and("\""),
        )?;
        return Ok(message);
    }
    Message::of(
        Words::new(alloc).and(written).and(
            ": packages of the standard library are not known to govisd yet",
        ),
    )
}

// The path in front of its last element `internal`.
fn parent_of_internal(path: &str) -> &str {
    match path.rsplit_once("/internal/") {
        Some((parent, _)) => parent,
        None => match path.strip_suffix("/internal") {
            Some(parent) => parent,
            None => "",
        },
    }
}

// An import of an internal package.
fn internal(alloc: Global, written: &str, path: &str) -> Result<Message, AllocError> {
    let parent = parent_of_internal(path);
    Message::of(
        Words::new(alloc)
            .and(written)
            .and(" is internal: only packages in ")
            .and(parent)
            .and(" and below it may import it"),
    )
}

// An import on a cycle.
fn circle<'s>(alloc: Global, here: &Here<'s>, path: &'s str) -> Result<Message, AllocError> {
    let own = here.path().as_str();
    if own == path {
        return Message::of(
            Words::new(alloc)
                .and("import cycle: ")
                .and(own)
                .and(" imports itself"),
        );
    }
    let way = way_back(alloc, &*here, &*path, own)?;
    let mut text = Words::new(alloc)
        .and("import cycle: ")
        .and(own)
        .and(" -> ")
        .and(path)
        .text()?;
    for step in &way {
        text.push_str(" -> ")?;
        text.push_str(step.as_str())?;
    }
    let mut message = Message::new(alloc, text);
    if let Some(source) = package_at(here, path) {
        match way.first() {
            Some(step) => add_import_place(alloc, here, source, step.as_str(), &mut message)?,
            None => add_import_place(alloc, here, source, own, &mut message)?,
        }
    }
    Ok(message)
}

// How many packages a search for a cycle looks at.
const SEARCHED: usize = 64;

// A package that a search reached, with the number of the one before it.
#[derive(Drop)]
struct Reached<'s> {
    path: &'s str,
    from: usize,
}

// The paths of packages that imports lead to from one package up to another, by a shortest way: what comes after the first. None are given where the search
// comes to its end before.
fn way_back<'s>(
    alloc: Global,
    here: &Here<'s>,
    from: &'s str,
    to: &str,
) -> Result<Vec<String>, AllocError> {
    let mut reached = Vec::new(alloc);
    add(
        &mut reached,
        Reached {
            path: from,
            from: 0,
        },
    )?;
    for next in 0..SEARCHED {
        let Some(at) = reached.get(next) else {
            return Ok(Vec::new(alloc));
        };
        let Some(source) = package_at(here, at.path) else {
            return Ok(Vec::new(alloc));
        };
        add_imports(here, source, next, &mut reached)?;
        if let Some(goal) = number_of(&reached, to) {
            return steps_to(alloc, &reached, goal);
        }
    }
    Ok(Vec::new(alloc))
}

// The number of a path among those that are reached.
fn number_of(reached: &[Reached<'_>], path: &str) -> Option<usize> {
    let mut number: usize = 0;
    for step in reached {
        if number > 0 && step.path == path {
            return Some(number);
        }
        number = number.saturating_add(1);
    }
    None
}

// The paths from the first that is reached up to one, without the first.
fn steps_to(
    alloc: Global,
    reached: &[Reached<'_>],
    goal: usize,
) -> Result<Vec<String>, AllocError> {
    let mut steps = Vec::new(alloc);
    let mut number = goal;
    for _ in 0..reached.len() {
        if number == 0 {
            break;
        }
        let Some(step) = reached.get(number) else {
            break;
        };
        add(&mut steps, String::from_str(alloc, step.path)?)?;
        number = step.from;
    }
    steps.reverse();
    Ok(steps)
}

// Adds what a package imports to what is reached.
fn add_imports<'s>(
    here: &Here<'s>,
    source: &'s PackageSource,
    from: usize,
    reached: &mut Vec<Reached<'s>>,
) -> Result<(), AllocError> {
    for file in source.files() {
        if let Ok(tree) = file.tree() {
            for decl in &tree.imports {
                add_decl(here, &decl.specs, from, reached)?;
            }
        }
    }
    Ok(())
}

// Adds what an import declaration imports.
fn add_decl<'s>(
    here: &Here<'s>,
    specs: &'s ImportSpecs,
    from: usize,
    reached: &mut Vec<Reached<'s>>,
) -> Result<(), AllocError> {
    match specs {
        ImportSpecs::One(spec) => add_spec(here, spec, from, reached),
        ImportSpecs::Group(_, lines, _) => {
            for line in lines {
                add_spec(here, &line.spec, from, reached)?;
            }
            Ok(())
        }
    }
}

// Adds the package that an import comes to, where it is new.
fn add_spec<'s>(
    here: &Here<'s>,
    spec: &'s ImportSpec,
    from: usize,
    reached: &mut Vec<Reached<'s>>,
) -> Result<(), AllocError> {
    let Some(path) = spec.path.plain() else {
        return Ok(());
    };
    if package_at(here, path).is_none() || number_of(reached, path).is_some() {
        return Ok(());
    }
    if reached.len() > SEARCHED {
        return Ok(());
    }
    add(reached, Reached { path, from })
}

// Adds the place of an import of a path in a package.
fn add_import_place(
    alloc: Global,
    here: &Here<'_>,
    source: &PackageSource,
    path: &str,
    message: &mut Message,
) -> Result<(), AllocError> {
    for file in source.files() {
        if let Some(offset) = import_offset(file, path) {
            let place = place_text(alloc, here.module, source.path().as_str(), file, offset)?;
            return message.note(
                Words::new(alloc)
                    .and(source.path().as_str())
                    .and(" imports ")
                    .and(path)
                    .and(" at ")
                    .and(place.as_str()),
            );
        }
    }
    Ok(())
}

// Where a file imports a path.
fn import_offset(file: &SourceFile, path: &str) -> Option<usize> {
    let Ok(tree) = file.tree() else {
        return None;
    };
    for decl in &tree.imports {
        let found = offset_in(&decl.specs, path);
        if found.is_some() {
            return found;
        }
    }
    None
}

// Where an import declaration imports a path.
fn offset_in(specs: &ImportSpecs, path: &str) -> Option<usize> {
    match specs {
        ImportSpecs::One(spec) => offset_if(spec, path),
        ImportSpecs::Group(_, lines, _) => {
            for line in lines {
                let found = offset_if(&line.spec, path);
                if found.is_some() {
                    return found;
                }
            }
            None
        }
    }
}

// Where an import stands, if it is of a path.
fn offset_if(spec: &ImportSpec, path: &str) -> Option<usize> {
    if spec.path.plain() == Some(path) {
        return Some(spec.path.span.start as usize);
    }
    None
}

// The name that an import binds, as far as its string and what stands in front of it tell.
fn bound_name<'s>(here: &Here<'s>, path: &'s str) -> &'s str {
    if let Some(before) = here.at.checked_sub(1) {
        if here.tokens.kind(before) == Some(TokenKind::Identifier) {
            return here.tokens.word(before);
        }
    }
    match package_at(here, path) {
        Some(source) => clause_name(source),
        None => "",
    }
}

// Whether an import without a name of its own comes to a package whose clause has another name than its folder.
fn is_of_other_name(here: &Here<'_>, path: &str) -> bool {
    let is_named = matches!(
        here.tokens.kind_before(here.at),
        Some(TokenKind::Identifier | TokenKind::Operator(Operator::Dot))
    );
    if is_named {
        return false;
    }
    match package_at(here, path) {
        Some(source) => has_other_name(source),
        None => false,
    }
}

// An import that is not used.
fn unused(
    alloc: Global,
    here: &Here<'_>,
    written: &str,
    path: &str,
) -> Result<Message, AllocError> {
    let name = bound_name(here, path);
    let is_other = is_of_other_name(here, path);
    let mut message = Message::of(unused_words(alloc, written, name, is_other))?;
    match local_of(here, name) {
        Some(offset) => add_variable(alloc, here, name, offset, &mut message)?,
        None if is_other => add_clause(alloc, written, path, name, &mut message)?,
        None => message.help(Words::new(alloc).and("remove the import"))?,
    }
    Ok(message)
}

// That an import is not used, and by which name it would be where that is another one than its folder's.
fn unused_words(alloc: Global, written: &str, name: &str, is_other: bool) -> Words {
    let words = Words::new(alloc).and(written).and(" is imported");
    if is_other {
        return words.and(" as ").and(name).and(" and not used");
    }
    words.and(" and not used")
}

// Adds that a variable has the name of a package.
fn add_variable(
    alloc: Global,
    here: &Here<'_>,
    name: &str,
    offset: usize,
    message: &mut Message,
) -> Result<(), AllocError> {
    let place = place_here(alloc, here, offset)?;
    message.note(
        Words::new(alloc)
            .and(name)
            .and(" in ")
            .and(place.as_str())
            .and(" is the variable declared there, not the package"),
    )
}

// Adds how a package is used whose clause has another name than its folder.
fn add_clause(
    alloc: Global,
    written: &str,
    path: &str,
    name: &str,
    message: &mut Message,
) -> Result<(), AllocError> {
    let says = Words::new(alloc).and("its package clause says ").and(name);
    let write = says.and(": write ").and(name).and(".X");
    let folder = last_element(path);
    if !is_identifier(folder) {
        return message.help(write);
    }
    message.help(write.and(", or import ").and(folder).and(" ").and(written))
}

// Whether an element of an import path is an identifier.
fn is_identifier(element: &str) -> bool {
    let begins = match element.as_bytes().first() {
        Some(byte) => !byte.is_ascii_digit(),
        None => false,
    };
    begins && !element.contains('-') && !element.contains('.') && !element.contains('~')
}

// Where a function of the file declares a local of a name.
fn local_of(here: &Here<'_>, name: &str) -> Option<usize> {
    let locals = locals_of(here);
    for number in 0..here.tokens.count() {
        if is_declared(here.tokens, locals, number, name) {
            return Some(here.tokens.start(number));
        }
    }
    None
}
