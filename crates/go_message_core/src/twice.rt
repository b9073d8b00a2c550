//! What is said of what is declared twice.

use crate::common::last_element;
use crate::local::{local_here, locals_of, open_local};
use go_decl_core::DeclRef;
use go_diagnostic_core::{
    Here, LineKind, Message, Tokens, Words, import_place, own_decl, package_at, place_here,
    place_of_decl, place_text, shown,
};
use go_graph_core::SourceFile;
use go_tree_nodes::text_core::Rule;
use go_tree_nodes::token_core::{Keyword, Operator, TokenKind, plain_value};
use std::alloc::{AllocError, Global};

/// What is said of a declaration that breaks one of the rules B1 to B6.
///
/// # Errors
///
/// `AllocError` where memory is wanting.
pub(crate) fn of_declaration(
    alloc: Global,
    here: &Here<'_>,
    rule: Rule,
) -> Result<Message, AllocError> {
    match rule {
        Rule::B1 => repeated(alloc, here),
        Rule::B2 => beside_import(alloc, here),
        Rule::B3 => no_entry(alloc, here),
        Rule::B4 => nothing_new(alloc, here),
        Rule::B5 => second_member(alloc, here),
        _ => no_receiver(alloc, here),
    }
}

// A name that is declared a second time in its block.
fn repeated(alloc: Global, here: &Here<'_>) -> Result<Message, AllocError> {
    if here.tokens.kind(here.at) == Some(TokenKind::String) {
        return second_import(alloc, here);
    }
    let name = here.word();
    if here.tokens.open_round(here.at).is_none() || is_of_package(here) {
        let mut message = Message::of(
            Words::new(alloc)
                .and(name)
                .and(" is declared twice in this package"),
        )?;
        if let Some(decl) = own_decl(here, name) {
            let place = place_of_decl(alloc, here, here.path(), decl)?;
            message.at(LineKind::First, place)?;
        }
        return Ok(message);
    }
    let mut message = Message::of(
        Words::new(alloc)
            .and(name)
            .and(" is declared twice in this block"),
    )?;
    match local_here(here, name) {
        Some(number) => {
            let place = place_here(alloc, here, here.tokens.start(number))?;
            message.line(LineKind::First, Words::new(alloc).and(place.as_str()))?;
        }
        None => add_earlier(alloc, here, &mut message)?,
    }
    Ok(message)
}

// Whether a declaration that stands in a group in parentheses is one of the package.
fn is_of_package(here: &Here<'_>) -> bool {
    let Some(open) = here.tokens.open_round(here.at) else {
        return true;
    };
    let is_group = matches!(
        here.tokens.kind_before(open),
        Some(TokenKind::Keyword(Keyword::Const | Keyword::Var | Keyword::Type))
    );
    is_group && here.tokens.open_round(open).is_none()
}

// Adds the place of the same name in front of a place, in the same parentheses.
fn add_earlier(alloc: Global, here: &Here<'_>, message: &mut Message) -> Result<(), AllocError> {
    let first = match here.tokens.open_round(here.at) {
        Some(open) => open,
        None => return Ok(()),
    };
    for number in first..here.at {
        if here.tokens.word(number) == here.word() {
            let place = place_here(alloc, here, here.tokens.start(number))?;
            return message.line(LineKind::First, Words::new(alloc).and(place.as_str()));
        }
    }
    Ok(())
}

// An import that binds a name which another one of the file binds.
fn second_import(alloc: Global, here: &Here<'_>) -> Result<Message, AllocError> {
    let written = shown(alloc, here.word())?;
    let name = last_written(written.as_str());
    let mut message = Message::of(
        Words::new(alloc)
            .and(written.as_str())
            .and(": another import of this file has the same name"),
    )?;
    message.at(LineKind::First, import_place(alloc, here, name)?)?;
    message.help(
        Words::new(alloc)
            .and("give one of them another name, as import ")
            .and(name)
            .and("2 ")
            .and(written.as_str()),
    )?;
    Ok(message)
}

// What comes after the last `/` of a string with its quotes.
fn last_written(written: &str) -> &str {
    last_element(written.trim_matches('"'))
}

// The declaration of the package that has the name which an import brings, by the name in front of its path or the last element of that.
fn bound_decl(here: &Here<'_>, written: &str) -> Option<DeclRef> {
    match here.tokens.kind_before(here.at) {
        Some(TokenKind::Identifier) => {
            own_decl(here, here.tokens.word(here.at.saturating_sub(1)))
        }
        _ => own_decl(here, last_written(written)),
    }
}

// The name that an import brings: the one in front of its path, or the last element of that.
fn bound_name(alloc: Global, here: &Here<'_>, written: &str) -> Result<String, AllocError> {
    match here.tokens.kind_before(here.at) {
        Some(TokenKind::Identifier) => {
            String::from_str(alloc, here.tokens.word(here.at.saturating_sub(1)))
        }
        _ => String::from_str(alloc, last_written(written)),
    }
}

// An import that binds a name which the package declares.
fn beside_import(alloc: Global, here: &Here<'_>) -> Result<Message, AllocError> {
    let written = shown(alloc, here.word())?;
    let written = written.as_str();
    if let Some(decl) = bound_decl(here, written) {
        let name = bound_name(alloc, here, written)?;
        return brought(alloc, here, written, name.as_str(), decl);
    }
    match exported_beside(here) {
        Some((name, decl)) => brought(alloc, here, written, name, decl),
        None => Message::of(
            Words::new(alloc)
                .and(written)
                .and(": this import brings a name that the package declares"),
        ),
    }
}

// An import that brings a name which the package declares so.
fn brought(
    alloc: Global,
    here: &Here<'_>,
    written: &str,
    name: &str,
    decl: DeclRef,
) -> Result<Message, AllocError> {
    let headline = Words::new(alloc).and("this import brings ").and(name);
    let mut message = Message::of(headline.and(", which the package declares"))?;
    let place = place_of_decl(alloc, here, here.path(), decl)?;
    message.at(LineKind::Declared, place)?;
    let help = Words::new(alloc).and("give the import another name, as import ");
    message.help(help.and(name).and("2 ").and(written))?;
    Ok(message)
}

// The first name that the package which the import at a place comes to exports, and that the package of the place declares.
fn exported_beside<'s>(here: &Here<'s>) -> Option<(&'s str, DeclRef)> {
    let path = plain_value(here.word())?;
    let imported = package_at(here, path)?;
    let part = here.snapshot.part(imported.path())?;
    for named in part.summary().exports().names() {
        if let Some(decl) = own_decl(here, named.name.as_str()) {
            return Some((named.name.as_str(), decl));
        }
    }
    None
}

// A `main` or `init` that is no function without parameters and results.
fn no_entry(alloc: Global, here: &Here<'_>) -> Result<Message, AllocError> {
    let name = here.word();
    let why = match here.tokens.kind_before(here.at) {
        Some(TokenKind::Keyword(Keyword::Func)) => " has parameters or results",
        _ => " is not a function",
    };
    Message::of(
        Words::new(alloc)
            .and(name)
            .and(why)
            .and(": it must be written func ")
            .and(name)
            .and("()"),
    )
}

// A `:=` that declares nothing.
fn nothing_new(alloc: Global, here: &Here<'_>) -> Result<Message, AllocError> {
    let end = here.tokens.statement_end(here.at);
    let define = here.tokens.find_outside(here.at, end, Operator::Define);
    let last = match define {
        Some(number) => number.saturating_sub(1),
        None => here.at,
    };
    let names = here.tokens.piece(here.at, last);
    if names == "_" {
        return Message::of(Words::new(alloc).and(":= declares nothing: _ is not a variable"));
    }
    let be = if last == here.at { " is" } else { " are" };
    let mut message = Message::of(
        Words::new(alloc)
            .and(":= declares nothing new: ")
            .and(names)
            .and(be)
            .and(" declared in this block already"),
    )?;
    for number in here.at..last.saturating_add(1) {
        if here.tokens.is_name(number) {
            add_first(alloc, here, number, &mut message)?;
        }
    }
    message.help(Words::new(alloc).and("write = to assign"))?;
    Ok(message)
}

// Adds the first declaration of the name that is a token.
fn add_first(
    alloc: Global,
    here: &Here<'_>,
    number: usize,
    message: &mut Message,
) -> Result<(), AllocError> {
    let name = here.tokens.word(number);
    match open_local(here.tokens, locals_of(here), here.at, name) {
        Some(first) => {
            let place = place_here(alloc, here, here.tokens.start(first))?;
            message.line(LineKind::First, Words::new(alloc).and(place.as_str()))
        }
        None => Ok(()),
    }
}

// A second field or method of a name.
fn second_member(alloc: Global, here: &Here<'_>) -> Result<Message, AllocError> {
    let name = here.word();
    let is_method = here.tokens.is_before(here.at, Operator::CloseParen);
    if is_method {
        let open = here.tokens.opening(here.at.saturating_sub(1));
        let base = receiver_base(here.tokens, open);
        let mut message = Message::of(
            Words::new(alloc)
                .and(base)
                .and(" has a field or method ")
                .and(name)
                .and(" already"),
        )?;
        add_first_member(alloc, here, base, name, &mut message)?;
        return Ok(message);
    }
    let mut message = Message::of(
        Words::new(alloc)
            .and("this type has a field or method ")
            .and(name)
            .and(" already"),
    )?;
    add_earlier(alloc, here, &mut message)?;
    Ok(message)
}

/// The type in the receiver whose parenthesis opens at a token.
pub(crate) fn receiver_base<'t>(tokens: &Tokens<'t>, open: usize) -> &'t str {
    let close = tokens.closing(open);
    let mut last = close.saturating_sub(1);
    if tokens.is(last, Operator::Comma) {
        last = last.saturating_sub(1);
    }
    tokens.word(last)
}

// Adds where a type of the package has its first member of a name: a field in its declaration, else a method in front of the place in its file or in a file
// before it. Else where the type is declared.
fn add_first_member(
    alloc: Global,
    here: &Here<'_>,
    base: &str,
    name: &str,
    message: &mut Message,
) -> Result<(), AllocError> {
    let Some(decl) = own_decl(here, base) else {
        return Ok(());
    };
    if let Some(place) = field_place(alloc, here, decl, base, name)? {
        return message.line(LineKind::First, Words::new(alloc).and(place.as_str()));
    }
    if let Some(number) = method_of(here.tokens, here.at, base, name) {
        let place = place_here(alloc, here, here.tokens.start(number))?;
        return message.line(LineKind::First, Words::new(alloc).and(place.as_str()));
    }
    if let Some(place) = earlier_method(alloc, here, base, name)? {
        return message.line(LineKind::First, Words::new(alloc).and(place.as_str()));
    }
    add_type_place(alloc, here, base, decl, message)
}

// The place of a token of a file of the package of a place, where there is one.
fn token_place(
    alloc: Global,
    here: &Here<'_>,
    file: &SourceFile,
    tokens: &Tokens<'_>,
    number: Option<usize>,
) -> Result<Option<String>, AllocError> {
    match number {
        Some(number) => {
            let offset = tokens.start(number);
            let place = place_text(alloc, here.module, here.path().as_str(), file, offset)?;
            Ok(Some(place))
        }
        None => Ok(None),
    }
}

// The place of a field of a name in the declaration of a type.
fn field_place(
    alloc: Global,
    here: &Here<'_>,
    decl: DeclRef,
    base: &str,
    name: &str,
) -> Result<Option<String>, AllocError> {
    let Some(file) = here.source.files().get(decl.file) else {
        return Ok(None);
    };
    let tokens = match Tokens::of(alloc, file.text()) {
        Ok(tokens) => tokens,
        Err(error) => return Err(error),
    };
    token_place(alloc, here, file, &tokens, field_of(&tokens, base, name))
}

// The place of the first method of a name of a type in the files in front of that of a place.
fn earlier_method(
    alloc: Global,
    here: &Here<'_>,
    base: &str,
    name: &str,
) -> Result<Option<String>, AllocError> {
    for number in 0..here.number {
        if let Some(file) = here.source.files().get(number) {
            let tokens = match Tokens::of(alloc, file.text()) {
                Ok(tokens) => tokens,
                Err(error) => return Err(error),
            };
            let method = method_of(&tokens, tokens.count(), base, name);
            let place = token_place(alloc, here, file, &tokens, method)?;
            if place.is_some() {
                return Ok(place);
            }
        }
    }
    Ok(None)
}

/// Whether a file declares a field or a method of a name of a type.
pub(crate) fn has_member(tokens: &Tokens<'_>, base: &str, name: &str) -> bool {
    field_of(tokens, base, name).is_some()
        || method_of(tokens, tokens.count(), base, name).is_some()
}

// The first token in front of another that names a method of a type, which is declared with a receiver.
fn method_of(tokens: &Tokens<'_>, end: usize, base: &str, name: &str) -> Option<usize> {
    for number in 0..end {
        if tokens.word(number) == name && is_method_of(tokens, number, base) {
            return Some(number);
        }
    }
    None
}

// Whether a token names a method of a type.
fn is_method_of(tokens: &Tokens<'_>, number: usize, base: &str) -> bool {
    if !tokens.is_before(number, Operator::CloseParen) {
        return false;
    }
    let open = tokens.opening(number.saturating_sub(1));
    tokens.is_keyword(open.saturating_sub(1), Keyword::Func) && receiver_base(tokens, open) == base
}

// The token that names a field of a struct type, in the declaration of the type.
fn field_of(tokens: &Tokens<'_>, base: &str, name: &str) -> Option<usize> {
    for number in 0..tokens.count() {
        if tokens.word(number) == base && is_struct_declared(tokens, number) {
            return field_in(tokens, number.saturating_add(2), name);
        }
    }
    None
}

// Whether a token is the name in the declaration of a struct type.
fn is_struct_declared(tokens: &Tokens<'_>, number: usize) -> bool {
    let begins = matches!(
        tokens.kind_before(number),
        Some(
            TokenKind::Keyword(Keyword::Type)
                | TokenKind::Operator(Operator::OpenParen | Operator::Semicolon)
        )
    );
    begins && tokens.is_keyword(number.saturating_add(1), Keyword::Struct)
}

// The token of a name that stands as the name of a field does in the braces that a token opens.
fn field_in(tokens: &Tokens<'_>, open: usize, name: &str) -> Option<usize> {
    let mut depth: usize = 0;
    for number in open..tokens.closing(open) {
        if depth == 1 && tokens.word(number) == name && begins_field(tokens, number) {
            return Some(number);
        }
        depth = tokens.depth_after(number, depth);
    }
    None
}

// Whether a token stands as the name of a field does, between what may stand in front of one and after one.
fn begins_field(tokens: &Tokens<'_>, number: usize) -> bool {
    let is_first = matches!(
        tokens.kind_before(number),
        Some(TokenKind::Operator(Operator::OpenBrace | Operator::Semicolon | Operator::Comma))
    );
    let goes_on = matches!(
        tokens.kind(number.saturating_add(1)),
        Some(
            TokenKind::Identifier
                | TokenKind::Keyword(_)
                | TokenKind::Operator(
                    Operator::Star | Operator::Comma | Operator::Semicolon | Operator::CloseBrace
                )
        )
    );
    is_first && goes_on
}

// Adds where a type is declared.
fn add_type_place(
    alloc: Global,
    here: &Here<'_>,
    base: &str,
    decl: DeclRef,
    message: &mut Message,
) -> Result<(), AllocError> {
    match place_of_decl(alloc, here, here.path(), decl)? {
        Some(place) => message.note(
            Words::new(alloc)
                .and(base)
                .and(" is declared at ")
                .and(place.as_str()),
        ),
        None => Ok(()),
    }
}

// A receiver of what may have no methods.
fn no_receiver(alloc: Global, here: &Here<'_>) -> Result<Message, AllocError> {
    let name = here.word();
    let why = match own_decl(here, name) {
        Some(_) => " is defined as a pointer or an interface type, or is not a type",
        None => " is not a type that this package defines",
    };
    Message::of(
        Words::new(alloc)
            .and("methods cannot be declared on ")
            .and(name)
            .and(": it")
            .and(why),
    )
}
