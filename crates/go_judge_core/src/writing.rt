//! Types as they are told at a place.
ghost use Rattle.std.specs.Prelude.{◌≡◌, true, IfOk, IfSome, replicate, string_bytes};
ghost use Rattle.go_term_core.specs.Shapes.{shape};
ghost use Rattle.go_env_core.specs.handle_core.Stars.{starred};
ghost use Rattle.go_judge_core.specs.Written.{IsToldAs, IsWrittenAs, are_named_so, spelled_after};

use go_env_core::Here;
use go_env_core::handle_core::{TypeRef, is_identical};
use go_names_core::block_core::{Binding, Target};
use go_stmt_core::expr_core::check_type_name;
use go_term_core::decl_core::DeclKey;
use go_term_core::{Basic, TypeTerm};
use go_tree_nodes::text_core::{Name, Span, add};
use go_tree_nodes::{Ident, TypeName};
use std::alloc::{AllocError, Global};

/// A type as it is told at a place.
#[derive(Drop)]
pub struct TypeText {
    pub text: String,
    /// Whether the text, where it is written at the place, is this type. Else it is no Go.
    pub is_exact: bool,
}

// So many stars.
fn stars_text(alloc: Global, count: usize) -> Result<String, AllocError>
    ensures { IfOk result (λ text. string_bytes text ≡ replicate count 42) }
{
    let mut text = String::new(alloc);
    for _star in 0..count {
        text.push_str("*")?;
    }
    Ok(text)
}

// A type without the stars in front of it.
fn after_stars(term: &TypeTerm) -> &TypeTerm {
    match term {
        TypeTerm::Pointer(target) => after_stars(target),
        TypeTerm::NoType => term,
        TypeTerm::Basic(_) => term,
        TypeTerm::Error => term,
        TypeTerm::Defined(_) => term,
        TypeTerm::Struct(_, _, _) => term,
        TypeTerm::Interface(_, _) => term,
    }
}

// How many stars are in front of a type.
fn stars_in(term: &TypeTerm) -> usize {
    match term {
        TypeTerm::Pointer(target) => stars_in(target).saturating_add(1),
        _ => 0,
    }
}

// A type under stars.
fn under_stars<'p>(t: TypeRef<'p>, stars: usize) -> Result<TypeRef<'p>, AllocError>
    ensures { IfOk result (λ p. p ≡ starred stars t.entry) }
{
    let mut found = t;
    for _star in 0..stars {
        found = found.pointer_to()?;
    }
    Ok(found)
}

// Whether a name after so many stars is a type at a place, by the rule of the check: it is the test by which a type is said to be written so.
fn is_named_so<'n, 'p>(
    alloc: Global,
    here: &Here<'n, 'p>,
    stars: usize,
    name: &TypeName,
    term: &TypeTerm,
) -> Result<bool, AllocError>
    ensures { IfOk result (λ holds. holds ≡ are_named_so here.now stars name.now (shape term.now)) }
{
    let mut uses = Vec::new(alloc);
    match check_type_name(here, alloc, name, &mut uses)? {
        Some(found) => {
            let found = under_stars(found, stars)?;
            let asked = TypeRef::of(term);
            Ok(is_identical(&found, &asked))
        }
        None => Ok(false),
    }
}

// The name of a type after stars, as it is written.
fn spelled(alloc: Global, count: usize, name: &TypeName) -> Result<String, AllocError>
    ensures { IfOk result (λ text. string_bytes text ≡ spelled_after (replicate count 42) name.now) }
{
    let mut text = stars_text(alloc, count)?;
    match name {
        TypeName::Plain(ident) => {
            text.push_str(ident.name.as_str())?;
            Ok(text)
        }
        TypeName::Qualified(package, _, ident) => {
            text.push_str(package.name.as_str())?;
            text.push_str(".")?;
            text.push_str(ident.name.as_str())?;
            Ok(text)
        }
    }
}

// A type as it is written by a name after so many stars.
fn written_name<'n, 'p>(
    alloc: Global,
    here: &Here<'n, 'p>,
    count: usize,
    name: &TypeName,
    term: &TypeTerm,
) -> Result<String, AllocError>
    requires { are_named_so here.now count name.now (shape term.now) ≡ true }
    ensures { IfOk result (λ text. IsWrittenAs here.now (shape term.now) (string_bytes text)) }
{
    let text = spelled(alloc, count, name)?;
    Ok(text)
}

// The same; none where this is another type at the place, or none.
fn written_so<'n, 'p>(
    alloc: Global,
    here: &Here<'n, 'p>,
    count: usize,
    name: &TypeName,
    term: &TypeTerm,
) -> Result<Option<String>, AllocError>
    ensures { IfOk result (λ text. IfSome text (λ s. IsWrittenAs here.now (shape term.now) (string_bytes s))) }
{
    if is_named_so(alloc, here, count, name, term)? {
        let text = written_name(alloc, here, count, name, term)?;
        return Ok(Some(text));
    }
    Ok(None)
}

// An identifier that stands nowhere.
fn ident(alloc: Global, name: &str) -> Result<Ident, AllocError> {
    Ok(Ident {
        name: Name::from_text(alloc, name)?,
        span: Span { start: 0, end: 0 },
    })
}

// A name of this package, of the file, or of the universe.
fn plain(alloc: Global, name: &str) -> Result<TypeName, AllocError> {
    Ok(TypeName::Plain(ident(alloc, name)?))
}

// A name after that of a package.
fn qualified(alloc: Global, package: &str, name: &str) -> Result<TypeName, AllocError> {
    let package = ident(alloc, package)?;
    let name = ident(alloc, name)?;
    Ok(TypeName::Qualified(package, Span { start: 0, end: 0 }, name))
}

// Adds the name of a type of another package, where a name of a file's block leads there: alone, or after the name of the package.
fn add_bound(
    alloc: Global,
    bound: &Binding,
    by: &str,
    key: &DeclKey,
    name: &str,
    names: &mut Vec<TypeName>,
) -> Result<(), AllocError> {
    match &bound.target {
        Target::Package(path) => {
            if path.is_same(&key.path) {
                return add(names, qualified(alloc, by, name)?);
            }
            Ok(())
        }
        Target::Exported(other) => {
            if other.is_same(key) {
                return add(names, plain(alloc, by)?);
            }
            Ok(())
        }
        Target::Refused(_) => Ok(()),
    }
}

// The names by which a defined type may be written in a file: the shortest way first.
fn names_of<'n, 'p>(
    alloc: Global,
    here: &Here<'n, 'p>,
    key: &DeclKey,
    name: &str,
) -> Result<Vec<TypeName>, AllocError> {
    let mut names = Vec::new(alloc);
    if key.path.is_same(here.scene.home.path()) {
        add(&mut names, plain(alloc, name)?)?;
        return Ok(names);
    }
    let blocks = here.scene.blocks;
    let bound = blocks.file_names(alloc, here.file)?;
    for by in &bound {
        if let Some(binding) = blocks.file(here.file, *by) {
            add_bound(alloc, binding, *by, key, name, &mut names)?;
        }
    }
    Ok(names)
}

// The first of some names by which a type may be written at a place; none where each is another type there, or none.
fn written_by<'n, 'p>(
    alloc: Global,
    here: &Here<'n, 'p>,
    count: usize,
    names: &[TypeName],
    term: &TypeTerm,
) -> Result<Option<String>, AllocError>
    ensures { IfOk result (λ text. IfSome text (λ s. IsWrittenAs here.now (shape term.now) (string_bytes s))) }
{
    for name in names {
        let text = written_so(alloc, here, count, name, term)?;
        if text.is_some() {
            return Ok(text);
        }
    }
    Ok(None)
}

// A text that is no Go, of so many stars, a piece in front, and the name of a type.
fn no_go(alloc: Global, count: usize, front: &str, name: &str) -> Result<String, AllocError> {
    let mut text = stars_text(alloc, count)?;
    text.push_str(front)?;
    text.push_str(name)?;
    Ok(text)
}

// The path of a package in quotes, and a dot.
fn quoted(alloc: Global, path: &str) -> Result<String, AllocError> {
    let mut text = String::from_str(alloc, "\"")?;
    text.push_str(path)?;
    text.push_str("\".")?;
    Ok(text)
}

// A defined type that cannot be written at a place.
fn hidden_text(
    alloc: Global,
    count: usize,
    key: &DeclKey,
    name: &str,
) -> Result<String, AllocError> {
    let front = quoted(alloc, key.path.as_str())?;
    no_go(alloc, count, front.as_str(), name)
}

// The name of a basic type.
fn basic_name(basic: Basic) -> &'static str {
    match basic {
        Basic::Bool => "bool",
        Basic::Int => "int",
        Basic::Text => "string",
    }
}

// The names by which a type without stars may be written.
fn candidates<'n, 'p>(
    alloc: Global,
    here: &Here<'n, 'p>,
    base: &TypeTerm,
) -> Result<Vec<TypeName>, AllocError> {
    match base {
        TypeTerm::Defined(key) => match here.scene.types.locate(key) {
            Some(located) => names_of(alloc, here, key, located.defined.name().as_str()),
            None => Ok(Vec::new(alloc)),
        },
        TypeTerm::Basic(basic) => one(alloc, basic_name(*basic)),
        TypeTerm::Error => one(alloc, "error"),
        TypeTerm::Interface(_, methods) => {
            if methods.is_empty() {
                return one(alloc, "any");
            }
            Ok(Vec::new(alloc))
        }
        TypeTerm::NoType => Ok(Vec::new(alloc)),
        TypeTerm::Pointer(_) => Ok(Vec::new(alloc)),
        TypeTerm::Struct(_, _, _) => Ok(Vec::new(alloc)),
    }
}

// One name.
fn one(alloc: Global, name: &str) -> Result<Vec<TypeName>, AllocError> {
    let mut names = Vec::new(alloc);
    add(&mut names, plain(alloc, name)?)?;
    Ok(names)
}

// What is told of a type that cannot be written by a name at a place.
fn inexact<'n, 'p>(
    alloc: Global,
    here: &Here<'n, 'p>,
    base: &TypeTerm,
    count: usize,
) -> Result<String, AllocError> {
    match base {
        TypeTerm::Defined(key) => match here.scene.types.locate(key) {
            Some(located) => hidden_text(alloc, count, key, located.defined.name().as_str()),
            None => no_go(alloc, count, "", "?"),
        },
        TypeTerm::Basic(basic) => no_go(alloc, count, "predeclared ", basic_name(*basic)),
        TypeTerm::Error => no_go(alloc, count, "predeclared ", "error"),
        TypeTerm::Interface(_, methods) => {
            if methods.is_empty() {
                return no_go(alloc, count, "predeclared ", "any");
            }
            no_go(alloc, count, "interface", "{..}")
        }
        TypeTerm::NoType => no_go(alloc, count, "", "?"),
        TypeTerm::Pointer(_) => no_go(alloc, count, "*", ".."),
        TypeTerm::Struct(_, _, _) => no_go(alloc, count, "struct", "{..}"),
    }
}

// A type as it is told, where it is written so, if it can be.
fn told_as<'n, 'p>(
    alloc: Global,
    here: &Here<'n, 'p>,
    term: &TypeTerm,
    written: Option<String>,
) -> Result<TypeText, AllocError>
    requires { IfSome written (λ s. IsWrittenAs here.now (shape term.now) (string_bytes s)) }
    ensures { IfOk result (λ told. IsToldAs here.now (shape term.now) told) }
{
    match written {
        Some(text) => Ok(TypeText {
            text,
            is_exact: true,
        }),
        None => {
            let text = inexact(alloc, here, after_stars(term), stars_in(term))?;
            Ok(TypeText {
                text,
                is_exact: false,
            })
        }
    }
}

/// A type as it is told at a place.
///
/// # Errors
///
/// `AllocError` where memory is wanting.
pub(crate) fn told<'n, 'p>(
    alloc: Global,
    here: &Here<'n, 'p>,
    term: &TypeTerm,
) -> Result<TypeText, AllocError>
    ensures { IfOk result (λ told. IsToldAs here.now (shape term.now) told) }
{
    let names = candidates(alloc, here, after_stars(term))?;
    let written = written_by(alloc, here, stars_in(term), &names, term)?;
    told_as(alloc, here, term, written)
}
