//! What is said of names that denote nothing, or not what is wanted.

use crate::clauses::{clause_name, imported_from};
use crate::local::{earlier_local, local_here, locals_of};
use crate::twice::{has_member, receiver_base};
use go_diagnostic_core::{
    Here, LineKind, Message, Words, add_import_with, add_names, add_near, add_near_in_case,
    declared_in, import_place, kind_text, own_decl, package_of_name, place_here, place_of_decl,
};
use go_tree_nodes::text_core::Rule;
use go_tree_nodes::token_core::{Keyword, Operator, TokenKind};
use go_universe_core::{PredeclaredKind, find_predeclared};
use std::alloc::{AllocError, Global};

/// What is said of a name that breaks one of the rules N1 to N9.
///
/// # Errors
///
/// `AllocError` where memory is wanting.
pub(crate) fn of_name(alloc: Global, here: &Here<'_>, rule: Rule) -> Result<Message, AllocError> {
    match rule {
        Rule::N1 => undeclared(alloc, here),
        Rule::N2 => unexported(alloc, here),
        Rule::N3 => lacking(alloc, here),
        Rule::N4 => package_as_value(alloc, here),
        Rule::N5 => type_as_value(alloc, here),
        Rule::N6 => no_type(alloc, here),
        Rule::N7 => unsupported(alloc, here),
        Rule::N8 => Message::of(Words::new(alloc).and(
            "_ has no value: nothing can be read from it",
        )),
        _ => of_refused_import(alloc, here),
    }
}

// A name of which no declaration holds.
fn undeclared(alloc: Global, here: &Here<'_>) -> Result<Message, AllocError> {
    let name = here.word();
    let mut message = Message::of(Words::new(alloc).and(name).and(" is not declared here"))?;
    if let Some(word) = beside(&WORDS, name) {
        message.help(Words::new(alloc).and(word))?;
        return Ok(message);
    }
    if is_after_type(here) {
        let first = here.tokens.word(here.at.saturating_sub(1));
        message.help(
            Words::new(alloc)
                .and("the name comes before its type: write ")
                .and(name)
                .and(" ")
                .and(first),
        )?;
        return Ok(message);
    }
    if add_import(alloc, here, name, &mut message)? {
        return Ok(message);
    }
    add_near(alloc, here, name, &mut message)?;
    add_member(alloc, here, name, &mut message)?;
    add_ended(alloc, here, name, &mut message)?;
    if is_assigned(here) {
        message.help(
            Words::new(alloc)
                .and("to declare ")
                .and(name)
                .and(" here, write := in place of ="),
        )?;
    }
    Ok(message)
}

// The `func` of the function round a place.
fn func_round(here: &Here<'_>) -> Option<usize> {
    for back in 1..here.at.saturating_add(1) {
        let number = here.at.saturating_sub(back);
        if here.tokens.is_keyword(number, Keyword::Func) {
            return Some(number);
        }
    }
    None
}

// Adds that a name is a member of the receiver's type, where a method stands round it and this file declares such a member.
fn add_member(
    alloc: Global,
    here: &Here<'_>,
    name: &str,
    message: &mut Message,
) -> Result<(), AllocError> {
    let Some(keyword) = func_round(here) else {
        return Ok(());
    };
    let open = keyword.saturating_add(1);
    let receiver = keyword.saturating_add(2);
    let is_named = here.tokens.is(open, Operator::OpenParen)
        && here.tokens.is_name(receiver)
        && !here
            .tokens
            .is(receiver.saturating_add(1), Operator::CloseParen);
    if !is_named || !has_member(here.tokens, receiver_base(here.tokens, open), name) {
        return Ok(());
    }
    let word = here.tokens.word(receiver);
    message.help(
        Words::new(alloc)
            .and("it is a member of the receiver: write ")
            .and(word)
            .and(".")
            .and(name),
    )
}

// Whether a name is all that stands left of the `=` of an assignment.
fn is_assigned(here: &Here<'_>) -> bool {
    let begins = matches!(
        here.tokens.kind_before(here.at),
        Some(TokenKind::Operator(Operator::Semicolon | Operator::OpenBrace | Operator::CloseBrace))
    );
    begins && here.tokens.is(here.at.saturating_add(1), Operator::Assign)
}

// Whether a name stands after the name of a predeclared type, in front of a comma or a parenthesis.
fn is_after_type(here: &Here<'_>) -> bool {
    let after = here.at.saturating_add(1);
    let is_last = here.tokens.is(after, Operator::Comma)
        || here.tokens.is(after, Operator::CloseParen);
    if !is_last || here.tokens.kind_before(here.at) != Some(TokenKind::Identifier) {
        return false;
    }
    match find_predeclared(here.tokens.word(here.at.saturating_sub(1))) {
        Some(found) => found.kind() == PredeclaredKind::Type,
        None => false,
    }
}

// Words of other languages, with what Go has in their place.
const WORDS: [(&str, &str); 18] = [
    ("null", "Go's word is nil"),
    ("None", "Go's word is nil"),
    ("NULL", "Go's word is nil"),
    ("nullptr", "Go's word is nil"),
    ("this", THIS),
    ("self", THIS),
    ("boolean", "Go's type is bool"),
    ("integer", "Go's type is int"),
    ("Integer", "Go's type is int"),
    ("long", "Go's type is int"),
    ("short", "Go's type is int"),
    ("str", "Go's type is string"),
    ("char", "Go's type is string"),
    ("double", FLOAT),
    ("float", FLOAT),
    ("elif", "write else if"),
    ("elseif", "write else if"),
    ("while", "Go's loop is for"),
];

const THIS: &str = "Go has no such word: a method's receiver has the name that its header gives it";

const FLOAT: &str = "Go's type is float64, which govisd does not support yet";

// What stands beside a text in a table.
fn beside(table: &[(&'static str, &'static str)], text: &str) -> Option<&'static str> {
    for (word, said) in table {
        if *word == text {
            return Some(*said);
        }
    }
    None
}

// The names of packages of the standard library that are used most.
const STANDARD: [&str; 28] = [
    "fmt", "os", "io", "strings", "strconv", "errors", "sort", "math", "time", "bufio", "bytes",
    "log", "sync", "context", "http", "json", "rand", "filepath", "regexp", "unicode", "utf8",
    "testing", "reflect", "slices", "maps", "atomic", "flag", "path",
];

// Whether a package of the standard library that is used much has this name.
fn is_standard(name: &str) -> bool {
    for package in &STANDARD {
        if *package == name {
            return true;
        }
    }
    false
}

// Adds the name in the clause of a package that the file imports from a folder of a name in front of a dot, and answers whether there is such a package.
fn add_clause(
    alloc: Global,
    here: &Here<'_>,
    name: &str,
    message: &mut Message,
) -> Result<bool, AllocError> {
    let Some(source) = imported_from(here, name) else {
        return Ok(false);
    };
    let package = Words::new(alloc)
        .and("the package \"")
        .and(source.path().as_str());
    message.help(package.and("\" has the name ").and(clause_name(source)))?;
    Ok(true)
}

// Adds the import that is missing for a name in front of a dot, and answers whether there is one to speak of.
fn add_import(
    alloc: Global,
    here: &Here<'_>,
    name: &str,
    message: &mut Message,
) -> Result<bool, AllocError> {
    let after = here.at.saturating_add(1);
    if !here.tokens.is(after, Operator::Dot) {
        return Ok(false);
    }
    if add_clause(alloc, here, name, message)? {
        return Ok(true);
    }
    let member = here.tokens.word(after.saturating_add(1));
    if add_import_with(alloc, here, name, member, message)? {
        return Ok(true);
    }
    if is_standard(name) {
        message.note(Words::new(alloc).and(
            "packages of the standard library are not known to govisd yet",
        ))?;
        return Ok(true);
    }
    Ok(false)
}

// Adds where a local of the name is declared whose block has ended.
fn add_ended(
    alloc: Global,
    here: &Here<'_>,
    name: &str,
    message: &mut Message,
) -> Result<(), AllocError> {
    match earlier_local(here.tokens, locals_of(here), here.at, name) {
        Some(number) => {
            let place = place_here(alloc, here, here.tokens.start(number))?;
            let why = if local_here(here, name).is_some() {
                " is declared by this statement, and is in scope only after it"
            } else {
                " is not in scope here: its block has ended"
            };
            message.note(
                Words::new(alloc)
                    .and("the ")
                    .and(name)
                    .and(" of ")
                    .and(place.as_str())
                    .and(why),
            )
        }
        None => Ok(()),
    }
}

// What stands left of the dot in front of a name.
fn qualifier<'s>(here: &Here<'s>) -> &'s str {
    match here.at.checked_sub(2) {
        Some(number) => here.tokens.word(number),
        None => "",
    }
}

// A name that a package declares and does not export.
fn unexported(alloc: Global, here: &Here<'_>) -> Result<Message, AllocError> {
    let name = here.word();
    let package = qualifier(here);
    let mut message = Message::of(
        Words::new(alloc)
            .and(package)
            .and(".")
            .and(name)
            .and(" is not exported"),
    )?;
    message.at(LineKind::Declared, declared_in(alloc, here, package, name)?)?;
    add_near(alloc, here, name, &mut message)?;
    Ok(message)
}

// A name that a package does not declare.
fn lacking(alloc: Global, here: &Here<'_>) -> Result<Message, AllocError> {
    let name = here.word();
    let package = qualifier(here);
    let mut message = Message::of(
        Words::new(alloc)
            .and("package ")
            .and(package)
            .and(" has no ")
            .and(name),
    )?;
    if !add_near(alloc, here, name, &mut message)? {
        add_names(alloc, here, "it has ", &mut message)?;
    }
    Ok(message)
}

// A package where a value is wanted.
fn package_as_value(alloc: Global, here: &Here<'_>) -> Result<Message, AllocError> {
    let name = here.word();
    let mut message = Message::of(
        Words::new(alloc)
            .and(name)
            .and(" is a package, not a value"),
    )?;
    message.help(
        Words::new(alloc)
            .and("write ")
            .and(name)
            .and(".NAME for what it exports"),
    )?;
    Ok(message)
}

// A type where a value is wanted.
fn type_as_value(alloc: Global, here: &Here<'_>) -> Result<Message, AllocError> {
    let name = with_qualifier(alloc, here)?;
    let mut message = Message::of(
        Words::new(alloc)
            .and(name.as_str())
            .and(" is a type, not a value"),
    )?;
    let after = here.at.saturating_add(1);
    if here.tokens.is(after, Operator::Dot) {
        let member = here.tokens.word(after.saturating_add(1));
        message.note(
            Words::new(alloc)
                .and("if ")
                .and(name.as_str())
                .and(".")
                .and(member)
                .and(
                    " is meant as a method expression: Go has these, govisd does not support them yet",
                ),
        )?;
        return Ok(message);
    }
    add_near_value(alloc, here, name.as_str(), &mut message)?;
    Ok(message)
}

// Adds a value whose name differs from that of the type in case alone, or how a value of the type is written, by its name with what stands left of its dot.
fn add_near_value(
    alloc: Global,
    here: &Here<'_>,
    name: &str,
    message: &mut Message,
) -> Result<(), AllocError> {
    if add_near_in_case(alloc, here, here.word(), message)? {
        return Ok(());
    }
    let mut help = Words::new(alloc).and("a value of it is written ");
    if find_predeclared(name).is_none() {
        help = help.and(name).and("{..} where it is a struct, else ");
    }
    message.help(help.and(name).and("(..)"))
}

// A name, with what stands left of the dot in front of it where one does.
fn with_qualifier(alloc: Global, here: &Here<'_>) -> Result<String, AllocError> {
    if here.tokens.is_before(here.at, Operator::Dot) {
        return Words::new(alloc)
            .and(qualifier(here))
            .and(".")
            .and(here.word())
            .text();
    }
    String::from_str(alloc, here.word())
}

// A name that is no type, or in front of a dot no package.
fn no_type(alloc: Global, here: &Here<'_>) -> Result<Message, AllocError> {
    let name = with_qualifier(alloc, here)?;
    let is_qualifier = here.tokens.is(here.at.saturating_add(1), Operator::Dot);
    let wanted = if is_qualifier {
        ", not a package"
    } else {
        ", not a type"
    };
    let Denoted {
        text,
        place,
        is_local,
    } = what_it_is(alloc, here)?;
    let headline = Words::new(alloc)
        .and(name.as_str())
        .and(" is ")
        .and(text)
        .and(wanted);
    let mut message = Message::of(headline)?;
    message.at(LineKind::Declared, place)?;
    if is_local && own_decl(here, here.word()).is_some() {
        let hides = Words::new(alloc).and("it hides the ").and(here.word());
        message.note(hides.and(" that the package declares"))?;
    }
    add_near(alloc, here, here.word(), &mut message)?;
    Ok(message)
}

// What a name denotes, with the place of its declaration.
#[derive(Drop)]
struct Denoted {
    text: &'static str,
    place: Option<String>,
    is_local: bool,
}

// What the name at a place denotes.
fn what_it_is(alloc: Global, here: &Here<'_>) -> Result<Denoted, AllocError> {
    let name = here.word();
    if here.tokens.is_before(here.at, Operator::Dot) {
        let place = declared_in(alloc, here, qualifier(here), name)?;
        return Ok(not_local("a constant, a variable or a function", place));
    }
    if let Some(number) = local_here(here, name) {
        let place = place_here(alloc, here, here.tokens.start(number))?;
        return Ok(Denoted {
            text: "a local constant or variable",
            place: Some(place),
            is_local: true,
        });
    }
    if let Some(decl) = own_decl(here, name) {
        let place = place_of_decl(alloc, here, here.path(), decl)?;
        return Ok(not_local(kind_text(decl.kind), place));
    }
    Ok(not_local(predeclared_text(here, name), None))
}

fn not_local(text: &'static str, place: Option<String>) -> Denoted {
    Denoted {
        text,
        place,
        is_local: false,
    }
}

// What a name is that the package does not declare.
fn predeclared_text(here: &Here<'_>, name: &str) -> &'static str {
    if package_of_name(here, name).is_some() {
        return "a package";
    }
    match find_predeclared(name) {
        Some(found) => match found.kind() {
            PredeclaredKind::Type => "a predeclared type",
            PredeclaredKind::Constant => "a predeclared constant",
            PredeclaredKind::Nil => "a predeclared value",
            PredeclaredKind::Function => "a predeclared function",
        },
        None => "something else",
    }
}

const SIZES: &str = "integers other than int";

const FLOATS: &str = "floating-point numbers";

const COMPLEX: &str = "complex numbers";

const SLICES: &str = "slices and maps";

// Predeclared names that are not supported, with what they belong to.
const FEATURES: [(&str, &str); 27] = [
    ("float32", FLOATS),
    ("float64", FLOATS),
    ("complex64", COMPLEX),
    ("complex128", COMPLEX),
    ("complex", COMPLEX),
    ("real", COMPLEX),
    ("imag", COMPLEX),
    ("byte", SIZES),
    ("int8", SIZES),
    ("int16", SIZES),
    ("int32", SIZES),
    ("int64", SIZES),
    ("rune", SIZES),
    ("uint", SIZES),
    ("uint8", SIZES),
    ("uint16", SIZES),
    ("uint32", SIZES),
    ("uint64", SIZES),
    ("uintptr", SIZES),
    ("append", SLICES),
    ("cap", SLICES),
    ("clear", SLICES),
    ("copy", SLICES),
    ("make", SLICES),
    ("delete", SLICES),
    ("close", "channels"),
    ("comparable", "type parameters"),
];

// A predeclared name that is not supported.
fn unsupported(alloc: Global, here: &Here<'_>) -> Result<Message, AllocError> {
    let name = here.word();
    let mut message = match beside(&FEATURES, name) {
        Some(form) => Message::of(
            Words::new(alloc)
                .and(name)
                .and(": ")
                .and(form)
                .and(": Go has these, govisd does not support them yet"),
        )?,
        None => Message::of(
            Words::new(alloc)
                .and(name)
                .and(": Go has it, govisd does not support it yet"),
        )?,
    };
    if name == "new" {
        message.help(Words::new(alloc).and("write &T{} for a new value of a struct type T"))?;
    }
    Ok(message)
}

// A name that a refused import binds.
fn of_refused_import(alloc: Global, here: &Here<'_>) -> Result<Message, AllocError> {
    let name = here.word();
    let mut message = Message::of(
        Words::new(alloc)
            .and("the import of ")
            .and(name)
            .and(" has a fault"),
    )?;
    if let Some(place) = import_place(alloc, here, name)? {
        message.note(Words::new(alloc).and("imported at ").and(place.as_str()))?;
    }
    Ok(message)
}
