//! What names denote in the files of a workspace.
ghost use Rattle.std.specs.Prelude.{◌<◌, length};

use crate::blocks::{PackageBlocks, add_decl, add_target, place_of};
use crate::show::{Lines, Named, member_place};
use crate::words::pair;
use go_package_core::package_part::Part;
use go_scope_core::text_core::{Rule, add};
use go_scope_core::{DeclId, InScope, Scopes, ShortDecl, ShortName};
use std::alloc::{AllocError, Global};

/// Adds a name, and what it denotes in a file.
fn add_found(out: &mut Lines, place: PackageBlocks<'_>, scopes: &Scopes<'_>, name: &str) {
    out.pieces(&[name, " "]);
    match scopes.find(name) {
        None => out.line("nothing"),
        Some(InScope::Local(id)) => out.count("local ", id.0, "\n"),
        Some(InScope::Package(decl)) => add_decl(out, place.package, decl),
        Some(InScope::File(binding)) => add_target(out, place.packages, &binding.target),
        Some(InScope::Universe(predeclared)) => {
            out.pieces(&["universe.", predeclared.spelling(), "\n"]);
        }
    }
}

/// The names of a list, with a number for each.
fn numbered<'a>(
    alloc: Global,
    list: &'a str,
    mut number: usize,
) -> Result<Vec<(&'a str, DeclId)>, AllocError> {
    let mut names = Vec::new(alloc);
    for name in list.split(',') {
        add(&mut names, (name, DeclId(number)))?;
        number = number.saturating_add(1);
    }
    Ok(names)
}

/// Adds what the names of a short declaration are, and B4 where none is new.
fn add_news(out: &mut Lines, short: &ShortDecl) {
    for name in short.names() {
        out.add(match name {
            ShortName::New => " new",
            ShortName::Old => " old",
            ShortName::Blank => " blank",
            ShortName::Repeated => " repeated",
        });
    }
    out.line(if short.is_any_new() { "" } else { " B4" });
}

/// Adds what the names of a list are that a short declaration does not declare, since none of them is new.
fn add_none_new(out: &mut Lines, alloc: Global, scopes: &Scopes<'_>, list: &str)
    requires { 0 < length scopes.now.open_blocks }
{
    let mut names = Vec::new(alloc);
    for name in list.split(',') {
        if add(&mut names, name).is_err() {
            return out.cut();
        }
    }
    match scopes.short_names(names.as_slice()) {
        Ok(short) => add_news(out, &short),
        Err(rule) => out.refuse(rule),
    }
}

/// Declares the names of a list by a short declaration, and adds what they are.
fn add_short(out: &mut Lines, alloc: Global, scopes: &mut Scopes<'_>, list: &str, number: usize)
    requires { 0 < length scopes.old.open_blocks }
    ensures { 0 < length scopes.new.open_blocks }
{
    let Ok(names) = numbered(alloc, list, number) else {
        return out.cut();
    };
    match scopes.declare_short(names.as_slice()) {
        Ok(short) => add_news(out, &short),
        Err(Rule::B4) => add_none_new(out, alloc, scopes, list),
        Err(rule) => {
            out.add(" ");
            out.refuse(rule);
        }
    }
}

/// Declares a name, and adds its number.
fn add_declared(out: &mut Lines, scopes: &mut Scopes<'_>, name: &str, number: usize)
    requires { 0 < length scopes.old.open_blocks }
    ensures { 0 < length scopes.new.open_blocks }
{
    out.add(" ");
    match scopes.declare(name, DeclId(number)) {
        Ok(()) => out.count("", number, "\n"),
        Err(rule) => out.refuse(rule),
    }
}

/// Declares what words say, `a` or `a,b:=`, by numbers in the order of the words.
fn add_block(out: &mut Lines, alloc: Global, scopes: &mut Scopes<'_>, words: &str, first: usize)
    requires { 0 < length scopes.old.open_blocks }
    ensures { 0 < length scopes.new.open_blocks }
{
    let mut number = first;
    for word in words.split_whitespace() {
        out.add(word);
        match word.strip_suffix(":=") {
            Some(list) => add_short(out, alloc, scopes, list, number),
            None => add_declared(out, scopes, word, number),
        }
        number = number.saturating_add(1);
    }
}

/// Adds what the names in the blocks inside denote there, and in the blocks outside.
fn add_both(
    out: &mut Lines,
    alloc: Global,
    place: PackageBlocks<'_>,
    inside: &Scopes<'_>,
    outside: &Scopes<'_>,
) {
    match inside.names(alloc) {
        Ok(names) => {
            for name in &names {
                add_found(out, place, inside, name);
                add_found(out, place, outside, name);
            }
        }
        Err(_) => out.cut(),
    }
}

/// Opens a block and another inside it, declares what the words before and behind `{` say, and adds what the names
/// denote in a copy of the blocks and when the inner one is left.
fn add_inner(
    out: &mut Lines,
    alloc: Global,
    place: PackageBlocks<'_>,
    scopes: &mut Scopes<'_>,
    words: &str,
) {
    let (outer, inner) = words.split_once('{').unwrap_or((words, ""));
    let Ok(()) = scopes.enter() else {
        return out.cut();
    };
    add_block(out, alloc, scopes, outer, 0);
    let Ok(()) = scopes.enter() else {
        return out.cut();
    };
    add_block(out, alloc, scopes, inner, 100);
    let Ok(inside) = scopes.copy(alloc) else {
        return out.cut();
    };
    scopes.leave();
    add_both(out, alloc, place, &inside, scopes);
    drop(inside);
}

/// Adds the names that denote something in a file.
fn add_names(out: &mut Lines, alloc: Global, scopes: &Scopes<'_>) {
    let Ok(names) = scopes.names(alloc) else {
        return out.cut();
    };
    out.add("names");
    for name in &names {
        out.pieces(&[" ", name]);
    }
    out.line("");
}

/// Adds the answer to what is asked of a file of a package: what a name denotes there, or without a name the names that denote something there, or
/// behind `{` what they denote in blocks of a function.
fn add_in_package(
    out: &mut Lines,
    alloc: Global,
    place: PackageBlocks<'_>,
    file: &str,
    asked: &str,
) {
    let mut number = 0usize;
    for named in &place.package.files {
        if named.name.as_str() == file {
            break;
        }
        number = number.saturating_add(1);
    }
    if number == place.package.files.len() {
        return out.line("no file");
    }
    let mut scopes = Scopes::begin(alloc, place.blocks, number);
    match asked.strip_prefix('{') {
        Some(words) => add_inner(out, alloc, place, &mut scopes, words),
        None if asked.is_empty() => add_names(out, alloc, &scopes),
        None => add_found(out, place, &scopes, asked),
    }
    drop(scopes);
}

/// Adds the answer to a query: a file of a package, written as its path and its name, and behind a blank what is
/// asked of it.
fn add_query(
    out: &mut Lines,
    alloc: Global,
    packages: &[Named],
    parts: &[Option<Part>],
    query: &str,
) {
    let (file, asked) = pair(query);
    out.pieces(&[file, " "]);
    let (path, name) = file.rsplit_once('/').unwrap_or(("", file));
    for number in 0..packages.len() {
        if let Some(place) = place_of(packages, parts, number) {
            if place.package.path.as_str() == path {
                return add_in_package(out, alloc, place, name, asked);
            }
        }
    }
    out.line("no package");
}

/// Adds the answers to the queries of an archive with its packages. The queries stand before its first file, a line
/// each.
pub fn add_scope(
    out: &mut Lines,
    alloc: Global,
    packages: &[Named],
    parts: &[Option<Part>],
    text: &str,
) {
    for line in text.lines() {
        if member_place(line).is_some() {
            return;
        }
        let query = line.trim();
        if !query.is_empty() {
            add_query(out, alloc, packages, parts, query);
        }
    }
}
