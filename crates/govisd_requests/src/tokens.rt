//! Semantic tokens: what each identifier of a file is.

use go_graph_core::SourceFile;
use go_handle_core::DeclSite;
use go_lsp_core::positions::{Position, Range};
use go_operand_core::Operand;
use go_package_core::report_core::Answer;
use go_snap_core::FileIn;
use go_term_core::decl_core::{DeclKind, Places, outline};
use go_term_core::{MemberPlace, TypeTerm};
use govisd_documents::{Session, ToldFile, asked_file, name_end, site_of, told_file};
use serde_json::{Value, json};
use std::alloc::{AllocError, Global};
use std::collections::BTreeMap;

/// What an identifier is: the numbers are places in the legend that the server tells.
#[derive(Clone, Copy)]
enum TokenType {
    Namespace,
    Type,
    Parameter,
    Variable,
    Property,
    Function,
    Method,
}

impl TokenType {
    fn number(self) -> usize {
        match self {
            TokenType::Namespace => 0,
            TokenType::Type => 1,
            TokenType::Parameter => 2,
            TokenType::Variable => 3,
            TokenType::Property => 4,
            TokenType::Function => 5,
            TokenType::Method => 6,
        }
    }
}

/// An identifier as a token.
#[derive(Clone, Copy)]
struct Token {
    token_type: TokenType,
    /// Whether it is declared here.
    is_declared: bool,
    /// Whether it is a constant.
    is_constant: bool,
    /// Whether it is predeclared.
    is_predeclared: bool,
}

impl Token {
    // The bits of the modifiers, in the order of the legend.
    fn modifiers(self) -> usize {
        let declared = if self.is_declared { 1 } else { 0 };
        let constant = if self.is_constant { 2 } else { 0 };
        let predeclared = if self.is_predeclared { 4 } else { 0 };
        declared | constant | predeclared
    }
}

// The names of the types of tokens, each at its number.
const TYPES: [&str; 7] = [
    "namespace",
    "type",
    "parameter",
    "variable",
    "property",
    "function",
    "method",
];

// The names of the modifiers of tokens, each at that of its bit.
const MODIFIERS: [&str; 3] = ["declaration", "readonly", "defaultLibrary"];

// Names as a list.
fn names_value(alloc: Global, names: &[&str]) -> Result<Value, AllocError> {
    let mut all = Vec::new(alloc);
    for name in names {
        all.push(Value::String(String::from_str(alloc, *name)?))?;
    }
    Ok(Value::Array(all))
}

/// The names of the types and of the modifiers of tokens, as they are told in `initialize`.
///
/// # Errors
///
/// `AllocError` where memory is wanting.
pub fn legend(alloc: Global) -> Result<Value, AllocError> {
    let types = names_value(alloc, &TYPES)?;
    let modifiers = names_value(alloc, &MODIFIERS)?;
    json!(in alloc; {"tokenTypes": types, "tokenModifiers": modifiers})
}

// A use of what is declared so.
fn used(token_type: TokenType) -> Token {
    Token {
        token_type,
        is_declared: false,
        is_constant: false,
        is_predeclared: false,
    }
}

// A use of a constant.
fn used_constant() -> Token {
    Token {
        is_constant: true,
        ..used(TokenType::Variable)
    }
}

// A use of a name that a file declares outside function bodies.
fn of_decl(kind: DeclKind) -> Token {
    match kind {
        DeclKind::Const => used_constant(),
        DeclKind::Var => used(TokenType::Variable),
        DeclKind::Type => used(TokenType::Type),
        DeclKind::Func => used(TokenType::Function),
        DeclKind::Method => used(TokenType::Method),
        DeclKind::Field => used(TokenType::Property),
        DeclKind::Param => used(TokenType::Parameter),
    }
}

// A use of a predeclared name.
fn of_predeclared(name: &str) -> Token {
    let token = match name {
        "any" | "bool" | "error" | "int" | "string" => used(TokenType::Type),
        "true" | "false" | "nil" | "iota" => used_constant(),
        _ => used(TokenType::Function),
    };
    Token {
        is_predeclared: true,
        ..token
    }
}

/// The tokens of a file by their offsets.
type Tokens = BTreeMap<usize, Token>;

// The declaration of what is used so.
fn declared(token: Token) -> Token {
    Token {
        is_declared: true,
        ..token
    }
}

// The use of what is declared so.
fn undeclared(token: Token) -> Token {
    Token {
        is_declared: false,
        ..token
    }
}

// A use of a local that is declared at an offset of a file whose declarations are these.
fn of_local(own: &Tokens, offset: usize) -> Token {
    match own.get(&offset) {
        Some(token) => undeclared(*token),
        None => used(TokenType::Variable),
    }
}

// A use of a declaration in a file whose declarations are these.
fn of_site(own: &Tokens, site: DeclSite<'_>) -> Token {
    match site {
        DeclSite::Universe(name) => of_predeclared(name.spelling()),
        DeclSite::ErrorMethod => of_decl(DeclKind::Method),
        DeclSite::Package(_) => used(TokenType::Namespace),
        DeclSite::InFile(_, MemberPlace::Declared(decl)) => of_decl(decl.kind),
        DeclSite::InFile(_, MemberPlace::Local(local)) => of_local(own, local.offset),
    }
}

// Adds a token, where none begins at its offset.
fn add_token(tokens: &mut Tokens, offset: usize, token: Token) -> Result<(), AllocError> {
    if tokens.contains_key(&offset) {
        return Ok(());
    }
    match tokens.insert(offset, token) {
        Ok(_) => Ok(()),
        Err(_) => Err(AllocError),
    }
}

// Adds the identifiers that are used in a file whose declarations are these.
fn add_uses(tokens: &mut Tokens, own: &Tokens, answers: &[Answer]) -> Result<(), AllocError> {
    for answer in answers {
        if answer.role.is_identifier() {
            if let Some(site) = site_of(answer) {
                add_token(tokens, answer.offset, of_site(own, site))?;
            }
        }
    }
    Ok(())
}

// Adds tokens, each where none begins at its offset.
fn add_tokens(tokens: &mut Tokens, others: &Tokens) -> Result<(), AllocError> {
    for (offset, token) in others {
        add_token(tokens, *offset, *token)?;
    }
    Ok(())
}

// Adds the identifiers that are declared at places.
fn add_places(tokens: &mut Tokens, places: &Places) -> Result<(), AllocError> {
    for place in places.places() {
        add_token(tokens, place.at, declared(of_decl(place.kind)))?;
    }
    Ok(())
}

// Adds the identifiers that are declared outside function bodies.
fn add_outer(alloc: Global, tokens: &mut Tokens, source: &SourceFile) -> Result<(), AllocError> {
    match source.tree() {
        Ok(tree) => {
            let outlined = outline(alloc, tree)?;
            add_places(tokens, &outlined.places)
        }
        Err(_) => Ok(()),
    }
}

// Whether a local stands for a constant.
fn is_constant(value: &Option<Operand<TypeTerm>>) -> bool {
    match value {
        Some(operand) => operand.constant.is_some(),
        None => false,
    }
}

// The declaration of a local that stands for a value.
fn of_value(value: &Option<Operand<TypeTerm>>) -> Token {
    if is_constant(value) {
        declared(used_constant())
    } else {
        declared(used(TokenType::Variable))
    }
}

// Adds the identifiers that are declared in a file.
fn add_declared(
    session: &Session,
    tokens: &mut Tokens,
    file: FileIn<'_>,
) -> Result<(), AllocError> {
    add_outer(session.alloc, tokens, file.source)?;
    let made = file.made;
    for local in &made.answers.locals {
        add_token(tokens, local.offset, of_value(local.value()))?;
    }
    Ok(())
}

// How many characters a range within one line has.
fn width(range: Range) -> usize {
    range.end.character.saturating_sub(range.start.character)
}

// Adds numbers to the data of tokens.
fn add_numbers(
    alloc: Global,
    data: &mut Vec<Value>,
    numbers: [usize; 5],
) -> Result<(), AllocError> {
    for number in numbers {
        data.push(json!(in alloc; number)?)?;
    }
    Ok(())
}

// A token by what lies between it and the one before.
fn numbers_of(before: Position, range: Range, token: Token) -> [usize; 5] {
    let start = range.start;
    let lines = start.line.saturating_sub(before.line);
    let characters = if lines == 0 {
        start.character.saturating_sub(before.character)
    } else {
        start.character
    };
    [
        lines,
        characters,
        width(range),
        token.token_type.number(),
        token.modifiers(),
    ]
}

// The data of the tokens of a file.
fn data_of(
    session: &Session,
    file: &ToldFile<'_>,
    tokens: &Tokens,
) -> Result<Vec<Value>, AllocError> {
    let mut data = Vec::new(session.alloc);
    let mut before = Position {
        line: 0,
        character: 0,
    };
    for (offset, token) in tokens {
        let end = name_end(file.text().as_bytes(), *offset);
        let range = file.lines.range_of(session.encoding, *offset, end);
        add_numbers(session.alloc, &mut data, numbers_of(before, range, *token))?;
        before = range.start;
    }
    Ok(data)
}

// The tokens of a file of a snapshot.
fn tokens_of<'s>(session: &'s Session, file: FileIn<'s>) -> Result<Vec<Value>, AllocError> {
    let mut own = BTreeMap::new(session.alloc);
    add_declared(session, &mut own, file)?;
    let mut tokens = BTreeMap::new(session.alloc);
    let made = file.made;
    add_uses(&mut tokens, &own, made.answers.answers.as_slice())?;
    add_tokens(&mut tokens, &own)?;
    let told = told_file(session, file.part.path(), file.source)?;
    data_of(session, &told, &tokens)
}

/// What each identifier of a file is, in the protocol's five numbers each. Null where the file is none of an assembled package.
///
/// # Errors
///
/// `AllocError` where memory is wanting.
pub fn semantic_tokens(session: &Session, params: &Value) -> Result<Value, AllocError> {
    let alloc = session.alloc;
    let Some(name) = asked_file(session, params)? else {
        return Ok(Value::Null);
    };
    let Some(file) = session.snapshot.file(&name.package, name.name.as_str()) else {
        return Ok(Value::Null);
    };
    let data = Value::Array(tokens_of(session, file)?);
    json!(in alloc; {"data": data})
}
