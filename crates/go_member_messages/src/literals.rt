//! What is said of composite literals and their keys.

use crate::members::{add_package, some_of};
use go_case_core::diagnostic_core::{
    LineKind, Message, Words, add_names, add_near, place_here, shown,
};
use go_case_core::judge_core::{Extent, TypeText};
use go_case_core::{
    Case, Embedded, StructParts, add_hidden_field, article_of, counted, embedded_with, has_method,
    mark_between, parts_of, target_of, under_told,
};
use go_expr_core::start;
use go_path_core::text_core::Rule;
use go_term_core::{TypeTerm, copy};
use go_tree_nodes::{Expr, Item, type_name_start, type_start};
use std::alloc::{AllocError, Global};

/// A composite literal: where its type begins, where its brace opens, and its elements.
#[derive(Clone, Copy)]
struct Literal<'t> {
    expr: &'t Expr,
    start: usize,
    open: usize,
    elements: &'t [Item],
}

// A composite literal; none of another expression.
fn literal_of(expr: &Expr) -> Option<Literal<'_>> {
    match expr {
        Expr::Literal(literal) => Some(Literal {
            expr,
            start: type_name_start(&literal.type_name),
            open: literal.open.start as usize,
            elements: literal.elements.as_slice(),
        }),
        Expr::StructLiteral(literal) => Some(Literal {
            expr,
            start: type_start(&literal.type_expr),
            open: literal.open.start as usize,
            elements: literal.elements.as_slice(),
        }),
        Expr::Integer(_, _) => None,
        Expr::Text(_) => None,
        Expr::Name(_) => None,
        Expr::Paren(_, _, _) => None,
        Expr::Unary(_, _, _) => None,
        Expr::Binary(_) => None,
        Expr::Select(_) => None,
        Expr::Call(_) => None,
    }
}

// The composite literal with which an expression begins; none where it begins with another.
fn leftmost(expr: &Expr) -> Option<Literal<'_>> {
    match expr {
        Expr::Select(select) => leftmost(&select.operand),
        Expr::Call(call) => leftmost(&call.callee),
        Expr::Binary(binary) => leftmost(&binary.left),
        Expr::Literal(_) => literal_of(expr),
        Expr::StructLiteral(_) => literal_of(expr),
        Expr::Integer(_, _) => None,
        Expr::Text(_) => None,
        Expr::Name(_) => None,
        Expr::Paren(_, _, _) => None,
        Expr::Unary(_, _, _) => None,
    }
}

/// A composite literal at the place of a fault, with its type.
struct TypedLiteral<'t> {
    literal: Literal<'t>,
    /// Its type as it is shown.
    written: String,
    /// Its type; none where that is not known.
    term: Option<TypeTerm>,
}

impl Drop for TypedLiteral<'_> {
    fn drop(self) {
        let TypedLiteral {
            literal: _,
            written: _,
            term: _,
        } = self;
    }
}

// The type of a literal.
fn term_of(
    alloc: Global,
    case: &Case<'_>,
    literal: Literal<'_>,
) -> Result<Option<TypeTerm>, AllocError> {
    let judged = case.value(alloc, literal.expr)?;
    match judged.value_type() {
        Some(term) => Ok(Some(copy(alloc, term)?)),
        None => Ok(None),
    }
}

// The literal round the key or the element at the place of a fault, or that begins there.
fn literal_here<'s>(
    alloc: Global,
    case: &Case<'s>,
    is_inside: bool,
) -> Result<Option<Literal<'s>>, AllocError> {
    let found = if is_inside {
        match case.literal_round(alloc)? {
            Some(expr) => literal_of(expr),
            None => None,
        }
    } else {
        match case.beginning(alloc)? {
            Some(expr) => leftmost(expr),
            None => None,
        }
    };
    Ok(found)
}

// A literal, with its type.
fn typed_literal<'s>(
    alloc: Global,
    case: &Case<'_>,
    literal: Literal<'s>,
) -> Result<TypedLiteral<'s>, AllocError> {
    let at = Extent {
        start: literal.start,
        end: literal.open,
    };
    let written = shown(alloc, case.source(at).trim())?;
    let term = term_of(alloc, case, literal)?;
    Ok(TypedLiteral {
        literal,
        written,
        term,
    })
}

// Whether a fault of a literal lies at an element, by its rule and by what stands there.
fn is_at_element(alloc: Global, case: &Case<'_>, rule: Rule) -> Result<bool, AllocError> {
    match rule {
        Rule::F6 => Ok(false),
        Rule::F7 => Ok(false),
        Rule::F5 => Ok(case.beginning(alloc)?.is_none()),
        Rule::F8 => Ok(case.beginning(alloc)?.is_none()),
        _ => Ok(true),
    }
}

/// What is said of a key or a literal that breaks one of the rules F1 to F8; none where no more is known of it.
///
/// # Errors
///
/// `AllocError` where memory is wanting.
pub fn of_literal(
    alloc: Global,
    case: &Case<'_>,
    rule: Rule,
) -> Result<Option<Message>, AllocError> {
    let is_inside = is_at_element(alloc, case, rule)?;
    let Some(literal) = literal_here(alloc, case, is_inside)? else {
        return Ok(None);
    };
    let of = typed_literal(alloc, case, literal)?;
    match rule {
        Rule::F1 => some_of(no_field(alloc, case, &of)),
        Rule::F2 => some_of(hidden(alloc, case, &of)),
        Rule::F3 => some_of(promoted(alloc, case, &of)),
        Rule::F4 => some_of(repeated(alloc, case, &of)),
        Rule::F5 => some_of(mixed(alloc, case, &of)),
        Rule::F6 => miscounted(alloc, case, &of),
        Rule::F7 => some_of(filled(alloc, case, &of)),
        _ => some_of(no_struct(alloc, case, &of, is_inside)),
    }
}

// A key that names no field.
fn no_field(alloc: Global, case: &Case<'_>, of: &TypedLiteral<'_>) -> Result<Message, AllocError> {
    let name = case.here.word();
    let words = Words::new(alloc)
        .and(of.written.as_str())
        .and(" has no field ")
        .and(name);
    if is_method(case, of, name) {
        return Message::of(words.and(": ").and(name).and(" is a method of it"));
    }
    let mut message = Message::of(words)?;
    if !add_near(alloc, &case.here, name, &mut message)? {
        add_names(alloc, &case.here, "it has ", &mut message)?;
    }
    Ok(message)
}

// Whether the type of a literal has a method of a name.
fn is_method(case: &Case<'_>, of: &TypedLiteral<'_>, name: &str) -> bool {
    match &of.term {
        Some(term) => has_method(case.setting.table(), term, name),
        None => false,
    }
}

// A key that another package hides.
fn hidden(alloc: Global, case: &Case<'_>, of: &TypedLiteral<'_>) -> Result<Message, AllocError> {
    let name = case.here.word();
    let mut message = Message::of(
        Words::new(alloc)
            .and(name)
            .and(" of ")
            .and(of.written.as_str())
            .and(" is not exported"),
    )?;
    if let Some(parts) = parts_here(&*case, &*of) {
        add_package(alloc, name, parts.path, &mut message)?;
    }
    add_names(alloc, &case.here, "seen here: ", &mut message)?;
    Ok(message)
}

// The embedded field of the type of a literal whose own type has the field of a name; none where none has it itself.
fn embedding<'t>(case: &'t Case<'_>, of: &'t TypedLiteral<'_>, name: &str) -> Option<Embedded<'t>> {
    let parts = parts_here(case, of)?;
    embedded_with(case.setting.table(), parts, name, case.here.path())
}

// A key that names a field of an embedded struct.
fn promoted(alloc: Global, case: &Case<'_>, of: &TypedLiteral<'_>) -> Result<Message, AllocError> {
    let name = case.here.word();
    match embedding(&*case, &*of, name) {
        Some(found) => promoted_by(alloc, case, of, name, found),
        None => Message::of(
            Words::new(alloc)
                .and(name)
                .and(" is a field of a struct that ")
                .and(of.written.as_str())
                .and(" embeds: a literal sets it by the embedded fields"),
        ),
    }
}

// A key that names a field of the type of an embedded field.
fn promoted_by(
    alloc: Global,
    case: &Case<'_>,
    of: &TypedLiteral<'_>,
    name: &str,
    found: Embedded<'_>,
) -> Result<Message, AllocError> {
    let field = found.field.name.as_str();
    let mut message = Message::of(
        Words::new(alloc)
            .and(name)
            .and(" is a field of ")
            .and(field)
            .and(", which ")
            .and(of.written.as_str())
            .and(" embeds: a literal sets it by the embedded field"),
    )?;
    if is_key_here(case, of, field) {
        add_nested(alloc, case, found, name, &mut message)?;
    }
    Ok(message)
}

// Whether a field of the type of a literal is seen at the place.
fn is_key_here(case: &Case<'_>, of: &TypedLiteral<'_>, field: &str) -> bool {
    match parts_here(&*case, &*of) {
        Some(parts) => parts.shows(field, case.here.path()),
        None => false,
    }
}

// Adds the element that sets a field of the type of an embedded field, where this type can be written at the place.
fn add_nested(
    alloc: Global,
    case: &Case<'_>,
    found: Embedded<'_>,
    name: &str,
    message: &mut Message,
) -> Result<(), AllocError> {
    let TypeText { text, is_exact } = case.setting.type_text(alloc, target_of(found.term))?;
    if !is_exact {
        return Ok(());
    }
    message.help(
        Words::new(alloc)
            .and("write ")
            .and(found.field.name.as_str())
            .and(": ")
            .and(ampersand(found.term))
            .and(text.as_str())
            .and("{")
            .and(name)
            .and(": ..}"),
    )
}

// What stands in front of a literal of what a pointer type points to, so that it gives the pointer.
fn ampersand(term: &TypeTerm) -> &'static str {
    match term {
        TypeTerm::Pointer(_) => "&",
        TypeTerm::NoType => "",
        TypeTerm::Basic(_) => "",
        TypeTerm::Error => "",
        TypeTerm::Defined(_) => "",
        TypeTerm::Struct(_, _, _) => "",
        TypeTerm::Interface(_, _) => "",
    }
}

// The first byte of a key of a name among elements that stands elsewhere than at an offset.
fn other_key(elements: &[Item], name: &str, offset: usize) -> Option<usize> {
    for element in elements {
        if let Some(key) = &element.key {
            let start = key.name.span.start as usize;
            if start != offset && key.name.name.as_str() == name {
                return Some(start);
            }
        }
    }
    None
}

// A key that stands twice.
fn repeated(alloc: Global, case: &Case<'_>, of: &TypedLiteral<'_>) -> Result<Message, AllocError> {
    let name = case.here.word();
    let mut message = Message::of(Words::new(alloc).and(name).and(" is set more than once"))?;
    if let Some(offset) = other_key(of.literal.elements, name, case.here.offset) {
        let place = place_here(alloc, &case.here, offset)?;
        if offset < case.here.offset {
            message.line(LineKind::First, Words::new(alloc).and(place.as_str()))?;
        } else {
            message.note(Words::new(alloc).and("again at ").and(place.as_str()))?;
        }
    }
    Ok(message)
}

// The first byte of the first element without a key.
fn without_key(elements: &[Item]) -> Option<usize> {
    for element in elements {
        if element.key.is_none() {
            return Some(start(&element.value));
        }
    }
    None
}

// A literal with keys and elements without.
fn mixed(alloc: Global, case: &Case<'_>, of: &TypedLiteral<'_>) -> Result<Message, AllocError> {
    let mut message = Message::of(
        Words::new(alloc)
            .and(of.written.as_str())
            .and("{..}: either all elements have keys, or none"),
    )?;
    if let Some(offset) = without_key(of.literal.elements) {
        let place = place_here(alloc, &case.here, offset)?;
        message.note(
            Words::new(alloc)
                .and("the element at ")
                .and(place.as_str())
                .and(" has none"),
        )?;
    }
    Ok(message)
}

// The fields of the type of a literal; none where it is no struct type that is known.
fn parts_here<'t>(case: &'t Case<'_>, of: &'t TypedLiteral<'_>) -> Option<StructParts<'t>> {
    match &of.term {
        Some(term) => parts_of(case.setting.table().underlying(term)),
        None => None,
    }
}

// Adds how elements are named.
fn add_named(
    alloc: Global,
    of: &TypedLiteral<'_>,
    message: &mut Message,
) -> Result<(), AllocError> {
    message.help(
        Words::new(alloc)
            .and("name the fields: ")
            .and(of.written.as_str())
            .and("{FIELD: VALUE, ..}"),
    )
}

// How many fields there are, with their names: `2 fields (x, y)`.
fn fields_told(alloc: Global, parts: StructParts<'_>) -> Result<String, AllocError> {
    if parts.fields.is_empty() {
        return String::from_str(alloc, "no fields");
    }
    let count = counted(alloc, parts.fields.len(), "field")?;
    let names = parts.names(alloc)?;
    Words::new(alloc)
        .and(count.as_str())
        .and(" (")
        .and(names.as_str())
        .and(")")
        .text()
}

// A literal with too many or too few elements.
fn miscounted(
    alloc: Global,
    case: &Case<'_>,
    of: &TypedLiteral<'_>,
) -> Result<Option<Message>, AllocError> {
    let Some(parts) = parts_here(&*case, &*of) else {
        return Ok(None);
    };
    let count = of.literal.elements.len();
    let fields = fields_told(alloc, parts)?;
    let elements = counted(alloc, count, "element")?;
    let mut message = Message::of(
        Words::new(alloc)
            .and(of.written.as_str())
            .and(" has ")
            .and(fields.as_str())
            .and(here_is(count))
            .and(elements.as_str()),
    )?;
    if count < parts.fields.len() {
        add_named(alloc, of, &mut message)?;
    } else {
        mark_extra(of.literal.elements, parts.fields.len(), &mut message);
    }
    Ok(Some(message))
}

// Marks the elements without a field, where there are so many fields.
fn mark_extra(elements: &[Item], fields: usize, message: &mut Message) {
    if let (Some(first), Some(last)) = (elements.get(fields), elements.last()) {
        mark_between(&first.value, &last.value, message);
    }
}

// What stands in front of how many elements are there.
fn here_is(count: usize) -> &'static str {
    if count == 1 {
        return ", but there is ";
    }
    ", but there are "
}

// A literal that would set a field which another package hides.
fn filled(alloc: Global, case: &Case<'_>, of: &TypedLiteral<'_>) -> Result<Message, AllocError> {
    let mut message = Message::of(
        Words::new(alloc).and(of.written.as_str()).and(
            "{..}: an element would set a field that another package does not export",
        ),
    )?;
    if let Some(parts) = parts_here(&*case, &*of) {
        add_hidden_field(alloc, case, parts, &mut message)?;
    }
    add_named(alloc, of, &mut message)?;
    Ok(message)
}

// A literal of what is no struct.
fn no_struct(
    alloc: Global,
    case: &Case<'_>,
    of: &TypedLiteral<'_>,
    is_inside: bool,
) -> Result<Message, AllocError> {
    let words = Words::new(alloc);
    let words = if is_inside {
        words.and(case.here.word()).and(": ")
    } else {
        words.and(of.written.as_str()).and("{..}: ")
    };
    match &of.term {
        Some(term) => no_struct_type(alloc, case, words, of.written.as_str(), term),
        None => Message::of(words.and(of.written.as_str()).and(" has a fault itself")),
    }
}

// A literal of a type that is no struct type, after words in front.
fn no_struct_type(
    alloc: Global,
    case: &Case<'_>,
    words: Words,
    written: &str,
    term: &TypeTerm,
) -> Result<Message, AllocError> {
    let mut message = Message::of(words.and(written).and(" is not a struct type"))?;
    let under = under_told(alloc, &*case, &*term)?;
    if under.as_str() != written {
        message.note(
            Words::new(alloc)
                .and(written)
                .and(" is ")
                .and(article_of(under.as_str()))
                .and(under.as_str()),
        )?;
    }
    Ok(message)
}
