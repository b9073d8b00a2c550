//! What is said of declarations of types.

use go_case_core::Case;
use go_case_core::diagnostic_core::{Message, Words};
use go_case_core::judge_core::Extent;
use go_tree_nodes::text_core::Rule;
use go_tree_nodes::token_core::Operator;
use go_tree_nodes::{Decl, FieldLine, Fields, Idents, TypeExpr, TypeName, TypeSpec, TypeSpecs};
use std::alloc::{AllocError, Global};

/// What is said of a declaration of a type that breaks one of the rules Y1 and Y2.
///
/// # Errors
///
/// `AllocError` where memory is wanting.
pub fn of_type(alloc: Global, case: &Case<'_>, rule: Rule) -> Result<Message, AllocError> {
    match rule {
        Rule::Y1 => circle(alloc, case),
        _ => embedded(alloc, case),
    }
}

// The specification, of a declaration of types, whose name begins at an offset.
fn spec_named(specs: &TypeSpecs, offset: usize) -> Option<&TypeSpec> {
    match specs {
        TypeSpecs::One(spec) => {
            if spec.name.span.start as usize == offset {
                return Some(spec);
            }
            None
        }
        TypeSpecs::Group(_, lines, _) => {
            for line in lines {
                if line.spec.name.span.start as usize == offset {
                    return Some(&line.spec);
                }
            }
            None
        }
    }
}

// The specification of the type whose name stands at the place.
fn spec_here<'s>(case: &Case<'s>) -> Option<&'s TypeSpec> {
    match case.setting.decl()? {
        Decl::Type(types) => spec_named(&types.specs, case.here.offset),
        Decl::Value(_) => None,
        Decl::Func(_) => None,
    }
}

// Whether a type is written by a name alone, and by this one.
fn is_name(type_expr: &TypeExpr, name: &str) -> bool {
    match type_expr {
        TypeExpr::Name(TypeName::Plain(ident)) => ident.name.as_str() == name,
        TypeExpr::Name(TypeName::Qualified(_, _, _)) => false,
        TypeExpr::Pointer(_, _) => false,
        TypeExpr::Paren(_, _, _) => false,
        TypeExpr::Struct(_, _, _, _) => false,
        TypeExpr::Interface(_, _, _, _) => false,
    }
}

/// Where some names stand, with what stands between them.
pub(crate) fn names_extent(idents: &Idents) -> Extent {
    let end = match idents.more.last() {
        Some(next) => next.ident.span.end as usize,
        None => idents.first.span.end as usize,
    };
    Extent {
        start: idents.first.span.start as usize,
        end,
    }
}

// Where the names of a line of fields stand whose type is written by a name.
fn field_of(line: &FieldLine, name: &str) -> Option<Extent> {
    match &line.fields {
        Fields::Named(idents, type_expr) => {
            if is_name(type_expr, name) {
                return Some(names_extent(idents));
            }
            None
        }
        Fields::Embedded(_, _) => None,
    }
}

// Where the names of the first line of fields of a struct type stand whose type is written by the name of the type itself.
fn own_field(spec: &TypeSpec) -> Option<Extent> {
    let TypeExpr::Struct(_, _, lines, _) = &spec.type_expr else {
        return None;
    };
    for line in lines {
        let found = field_of(line, spec.name.name.as_str());
        if found.is_some() {
            return found;
        }
    }
    None
}

// A type that contains itself.
fn circle(alloc: Global, case: &Case<'_>) -> Result<Message, AllocError> {
    let name = case.here.word();
    let mut message = Message::of(Words::new(alloc).and(name).and(" contains itself"))?;
    let own = match spec_here(case) {
        Some(spec) => own_field(spec),
        None => None,
    };
    let words = Words::new(alloc).and("a pointer breaks the cycle: ");
    match own {
        Some(at) => message.help(words.and("write ").and(case.source(at)).and(" *").and(name))?,
        None => message.help(
            words
                .and("make one of the fields that lead back to ")
                .and(name)
                .and(" a pointer"),
        )?,
    }
    Ok(message)
}

// The first token of the name of the type at the place: that of its package, where one stands there.
fn first_token(case: &Case<'_>) -> usize {
    let at = case.here.at;
    if case.here.tokens.is_before(at, Operator::Dot) {
        return at.saturating_sub(2);
    }
    at
}

// A field that may not be embedded.
fn embedded(alloc: Global, case: &Case<'_>) -> Result<Message, AllocError> {
    let tokens = case.here.tokens;
    let first = first_token(case);
    let name = tokens.piece(first, case.here.at);
    if tokens.is_before(first, Operator::Star) {
        return Message::of(
            Words::new(alloc)
                .and("*")
                .and(name)
                .and(" cannot be embedded: ")
                .and(name)
                .and(" is a pointer or an interface type"),
        );
    }
    Message::of(
        Words::new(alloc)
            .and(name)
            .and(" cannot be embedded: it is a pointer type"),
    )
}
