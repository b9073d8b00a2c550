//! Expressions inside others, by where they stand.

use go_stmt_core::expr_core::start;
use go_tree_nodes::{Expr, Item};

// The first byte of the token by which an expression is known among all that hold it or stand in it: its operator, the name after its dot, or
// the bracket that opens its arguments or its elements.
fn mark_of(expr: &Expr) -> usize {
    match expr {
        Expr::Integer(_, span) => span.start as usize,
        Expr::Text(text) => text.span.start as usize,
        Expr::Name(ident) => ident.span.start as usize,
        Expr::Paren(open, _, _) => open.start as usize,
        Expr::Unary(_, span, _) => span.start as usize,
        Expr::Binary(binary) => binary.span.start as usize,
        Expr::Select(select) => select.name.span.start as usize,
        Expr::Call(call) => call.open.start as usize,
        Expr::Literal(literal) => literal.open.start as usize,
        Expr::StructLiteral(literal) => literal.open.start as usize,
    }
}

/// The expression in another, itself included, whose mark is the token at an offset in bytes: of a binary expression its operator, of a selector
/// the name after the dot, of a call and a composite literal the opening bracket, of any other its first token.
#[cycle(marked)]
pub fn marked(expr: &Expr, offset: usize) -> Option<&Expr> {
    if mark_of(expr) == offset {
        return Some(expr);
    }
    match expr {
        Expr::Integer(_, _) => None,
        Expr::Text(_) => None,
        Expr::Name(_) => None,
        Expr::Paren(_, inner, _) => marked(inner, offset),
        Expr::Unary(_, _, inner) => marked(inner, offset),
        Expr::Binary(binary) => match marked(&binary.left, offset) {
            None => marked(&binary.right, offset),
            found => found,
        },
        Expr::Select(select) => marked(&select.operand, offset),
        Expr::Call(call) => match marked(&call.callee, offset) {
            None => marked_among(&call.args, offset),
            found => found,
        },
        Expr::Literal(literal) => marked_among(&literal.elements, offset),
        Expr::StructLiteral(literal) => marked_among(&literal.elements, offset),
    }
}

// The same in arguments or elements.
#[cycle(marked)]
fn marked_among(items: &Vec<Item>, offset: usize) -> Option<&Expr> {
    for item in items {
        let found = marked(&item.value, offset);
        if found.is_some() {
            return found;
        }
    }
    None
}

/// The widest expression in another, itself included, that begins at an offset in bytes.
#[cycle(beginning)]
pub fn beginning(expr: &Expr, offset: usize) -> Option<&Expr> {
    if start(expr) == offset {
        return Some(expr);
    }
    match expr {
        Expr::Integer(_, _) => None,
        Expr::Text(_) => None,
        Expr::Name(_) => None,
        Expr::Paren(_, inner, _) => beginning(inner, offset),
        Expr::Unary(_, _, inner) => beginning(inner, offset),
        Expr::Binary(binary) => match beginning(&binary.left, offset) {
            None => beginning(&binary.right, offset),
            found => found,
        },
        Expr::Select(select) => beginning(&select.operand, offset),
        Expr::Call(call) => match beginning(&call.callee, offset) {
            None => beginning_among(&call.args, offset),
            found => found,
        },
        Expr::Literal(literal) => beginning_among(&literal.elements, offset),
        Expr::StructLiteral(literal) => beginning_among(&literal.elements, offset),
    }
}

// The same in arguments or elements.
#[cycle(beginning)]
fn beginning_among(items: &Vec<Item>, offset: usize) -> Option<&Expr> {
    for item in items {
        let found = beginning(&item.value, offset);
        if found.is_some() {
            return found;
        }
    }
    None
}

// Whether an element has a key at an offset.
fn has_key_at(item: &Item, offset: usize) -> bool {
    match &item.key {
        Some(key) => key.name.span.start as usize == offset,
        None => false,
    }
}

// Whether one of some elements has a key at an offset, or begins there with none.
fn has_element_at(items: &Vec<Item>, offset: usize) -> bool {
    for item in items {
        if has_key_at(item, offset) || (item.key.is_none() && start(&item.value) == offset) {
            return true;
        }
    }
    false
}

/// The narrowest composite literal in an expression, itself included, that has an element which begins at an offset in bytes, key included.
#[cycle(holding)]
pub fn literal_round(expr: &Expr, offset: usize) -> Option<&Expr> {
    match expr {
        Expr::Integer(_, _) => None,
        Expr::Text(_) => None,
        Expr::Name(_) => None,
        Expr::Paren(_, inner, _) => literal_round(inner, offset),
        Expr::Unary(_, _, inner) => literal_round(inner, offset),
        Expr::Binary(binary) => match literal_round(&binary.left, offset) {
            None => literal_round(&binary.right, offset),
            found => found,
        },
        Expr::Select(select) => literal_round(&select.operand, offset),
        Expr::Call(call) => match literal_round(&call.callee, offset) {
            None => literal_among(&call.args, offset),
            found => found,
        },
        Expr::Literal(literal) => {
            if has_element_at(&literal.elements, offset) {
                return Some(expr);
            }
            literal_among(&literal.elements, offset)
        }
        Expr::StructLiteral(literal) => {
            if has_element_at(&literal.elements, offset) {
                return Some(expr);
            }
            literal_among(&literal.elements, offset)
        }
    }
}

// The same in arguments or elements.
#[cycle(holding)]
fn literal_among(items: &Vec<Item>, offset: usize) -> Option<&Expr> {
    for item in items {
        let found = literal_round(&item.value, offset);
        if found.is_some() {
            return found;
        }
    }
    None
}

/// What stands in the parentheses round an expression; the expression itself where it has none.
pub fn inside(expr: &Expr) -> &Expr {
    match expr {
        Expr::Paren(_, inner, _) => inside(inner),
        Expr::Integer(_, _) => expr,
        Expr::Text(_) => expr,
        Expr::Name(_) => expr,
        Expr::Unary(_, _, _) => expr,
        Expr::Binary(_) => expr,
        Expr::Select(_) => expr,
        Expr::Call(_) => expr,
        Expr::Literal(_) => expr,
        Expr::StructLiteral(_) => expr,
    }
}

/// The first byte and the byte after the last one of an expression, in bytes from the file's start.
#[derive(Clone, Copy)]
pub struct Extent {
    pub start: usize,
    pub end: usize,
}

// The byte after the last one of an expression.
fn end_of(expr: &Expr) -> usize {
    match expr {
        Expr::Integer(_, span) => span.end as usize,
        Expr::Text(text) => text.span.end as usize,
        Expr::Name(ident) => ident.span.end as usize,
        Expr::Paren(_, _, close) => close.end as usize,
        Expr::Unary(_, _, inner) => end_of(inner),
        Expr::Binary(binary) => end_of(&binary.right),
        Expr::Select(select) => select.name.span.end as usize,
        Expr::Call(call) => call.close.end as usize,
        Expr::Literal(literal) => literal.close.end as usize,
        Expr::StructLiteral(literal) => literal.close.end as usize,
    }
}

/// Where an expression stands.
pub fn extent_of(expr: &Expr) -> Extent {
    Extent {
        start: start(expr),
        end: end_of(expr),
    }
}
