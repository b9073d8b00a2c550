//! Which expressions give values over `int` and `bool` alone.
ghost use Rattle.std.specs.Prelude.{◌≡◌};
ghost use Rattle.go_tree_nodes.specs.Shapes.{shape, items_of, shape_some_type};
ghost use Rattle.go_tree_nodes.specs.TypeShapes.{shape_type};
ghost use Rattle.go_tree_nodes.specs.Counts.{item_count};
ghost use Rattle.go_code_core.specs.fragments.Fragment.{all_ones, binary_word, call_gives, expr_gives, means_method, is_one, is_other, meaning_gives, over, receiver_fits, selected_gives, some_type_inside, type_name_word, type_of_meaning, type_word, unary_word};
ghost use Rattle.go_code_core.specs.fragments.Names.{frame_of, word_of};

use crate::fragments::constants::called;
use crate::fragments::names::{CodeNames, ConstantWord, Frame, Gives, Meaning};
use crate::fragments::slots::slot_of;
use go_object_core::instructions::Word;
use go_tree_nodes::token_core::Operator;
use go_tree_nodes::{Expr, Item, TypeExpr, TypeName};

fn type_of_meaning(meaning: Meaning) -> Option<Word>
    ensures { result ≡ type_of_meaning meaning }
{
    match meaning {
        Meaning::Type(word) => Some(word),
        _ => None,
    }
}

/// What the name of a type is over.
pub(crate) fn type_name_word<N: CodeNames>(names: &N, name: &TypeName) -> Option<Word>
    ensures { result ≡ type_name_word (N.looks names.now) name.now }
{
    match name {
        TypeName::Plain(ident) => type_of_meaning(names.meaning(ident.span.start as usize)),
        TypeName::Qualified(_, _, ident) => type_of_meaning(names.meaning(
            ident.span.start as usize,
        )),
    }
}

/// What a type is over: none where it is over something other than `int` or `bool`.
pub(crate) fn type_word<N: CodeNames>(names: &N, type_expr: &TypeExpr) -> Option<Word>
    ensures { result ≡ type_word (N.looks names.now) (shape_type type_expr.now) }
{
    match type_expr {
        TypeExpr::Name(name) => type_name_word(names, name),
        TypeExpr::Paren(_, inner, _) => type_word(names, inner),
        TypeExpr::Pointer(_, _) => None,
        TypeExpr::Struct(_, _, _, _) => None,
        TypeExpr::Interface(_, _, _, _) => None,
    }
}

/// Whether a type is over `int` or `bool`, where one is written.
pub(crate) fn some_type_inside<N: CodeNames>(names: &N, type_expr: &Option<TypeExpr>) -> bool
    ensures { result ≡ some_type_inside (N.looks names.now) (shape_some_type type_expr.now) }
{
    match type_expr {
        Some(type_expr) => type_word(names, type_expr).is_some(),
        None => true,
    }
}

/// Whether one value is given over `int` or `bool`.
pub(crate) fn is_one(gives: Gives) -> bool
    ensures { result ≡ is_one gives }
{
    match gives {
        Gives::One(_) => true,
        Gives::Nothing | Gives::Other => false,
    }
}

/// Whether something else is given.
pub(crate) fn is_other(gives: Gives) -> bool
    ensures { result ≡ is_other gives }
{
    match gives {
        Gives::One(_) | Gives::Nothing => false,
        Gives::Other => true,
    }
}

/// What is given over a word: one value over it, or something else where there is none.
pub fn over(word: Option<Word>) -> Gives
    ensures { result ≡ over word }
{
    match word {
        Some(word) => Gives::One(word),
        None => Gives::Other,
    }
}

// What a unary operator gives of a word.
fn unary_word(operator: Operator) -> Option<Word>
    ensures { result ≡ unary_word operator }
{
    match operator {
        Operator::Plus | Operator::Minus => Some(Word::Int),
        Operator::Not => Some(Word::Bool),
        _ => None,
    }
}

// What a binary operator gives of two words.
fn binary_word(operator: Operator) -> Option<Word>
    ensures { result ≡ binary_word operator }
{
    match operator {
        Operator::Plus | Operator::Minus | Operator::Star | Operator::Slash | Operator::Percent =>
            Some(Word::Int),
        Operator::Equal
        | Operator::NotEqual
        | Operator::Less
        | Operator::LessEqual
        | Operator::Greater
        | Operator::GreaterEqual
        | Operator::LogicalAnd
        | Operator::LogicalOr => Some(Word::Bool),
        _ => None,
    }
}

fn word_of(value: ConstantWord) -> Word
    ensures { result ≡ word_of value }
{
    match value {
        ConstantWord::Int(_) => Word::Int,
        ConstantWord::Bool(_) => Word::Bool,
    }
}

// What a name gives: a variable of the function, or a constant.
fn meaning_gives(slots: &[Option<usize>], meaning: Meaning) -> Gives
    ensures { result ≡ meaning_gives slots.now meaning }
{
    match meaning {
        Meaning::Variable(at, word) => {
            if slot_of(slots, at).is_some() {
                Gives::One(word)
            } else {
                Gives::Other
            }
        }
        Meaning::Constant(value) => Gives::One(word_of(value)),
        _ => Gives::Other,
    }
}

// What a selector gives: a constant of another package.
fn selected_gives(meaning: Meaning) -> Gives
    ensures { result ≡ selected_gives meaning }
{
    match meaning {
        Meaning::Constant(value) => Gives::One(word_of(value)),
        _ => Gives::Other,
    }
}

// What a call gives with so many arguments.
fn call_gives(called: Meaning, count: usize) -> Gives
    ensures { result ≡ call_gives called count }
{
    match called {
        Meaning::Function(gives) => gives,
        Meaning::Method(gives) => gives,
        Meaning::Type(word) => {
            if count == 1 {
                Gives::One(word)
            } else {
                Gives::Other
            }
        }
        Meaning::Println => Gives::Nothing,
        Meaning::Panic => {
            if count == 1 {
                Gives::Nothing
            } else {
                Gives::Other
            }
        }
        Meaning::Variable(_, _) | Meaning::Constant(_) | Meaning::Other => Gives::Other,
    }
}

/// Whether a method is meant.
pub fn is_method(meaning: Meaning) -> bool
    ensures { result ≡ means_method meaning }
{
    match meaning {
        Meaning::Method(_) => true,
        _ => false,
    }
}

/// How many arguments there are.
pub(crate) fn item_count(items: &Vec<Item>) -> usize
    ensures { result ≡ item_count (items_of items.now.items) }
{
    items.len()
}

/// What an expression gives, where each expression in it gives one value over `int` or `bool`: else `Other`. A call that is a statement may give
/// nothing.
///
/// The Go specification, "Expressions", "Calls", "Conversions".
#[cycle(giving)]
pub fn expr_gives<N: CodeNames>(frame: &Frame<'_, N>, expr: &Expr) -> Gives
    ensures { result ≡ expr_gives (frame_of (N.looks frame.now.names.now) frame.now.slots.now) (shape expr.now) }
{
    match expr {
        Expr::Integer(_, _) => Gives::One(Word::Int),
        Expr::Name(ident) => meaning_gives(
            frame.slots,
            frame.names.meaning(ident.span.start as usize),
        ),
        Expr::Paren(_, inner, _) => expr_gives(frame, inner),
        Expr::Unary(operator, _, operand) => {
            if is_one(expr_gives(frame, operand)) {
                over(unary_word(*operator))
            } else {
                Gives::Other
            }
        }
        Expr::Binary(binary) => {
            if is_one(expr_gives(frame, &binary.left)) && is_one(expr_gives(frame, &binary.right)) {
                over(binary_word(binary.operator))
            } else {
                Gives::Other
            }
        }
        Expr::Select(select) => selected_gives(
            frame.names.meaning(select.name.span.start as usize),
        ),
        Expr::Call(call) => {
            if receiver_fits(frame, &call.callee) && all_ones(frame, &call.args) {
                call_gives(called(frame.names, &call.callee), item_count(&call.args))
            } else {
                Gives::Other
            }
        }
        Expr::Text(_) => Gives::Other,
        Expr::Literal(_) => Gives::Other,
        Expr::StructLiteral(_) => Gives::Other,
    }
}

// Whether the receiver of a method that is called gives one value over `int` or `bool`.
#[cycle(giving)]
fn receiver_fits<N: CodeNames>(frame: &Frame<'_, N>, callee: &Expr) -> bool
    ensures { result ≡ receiver_fits (frame_of (N.looks frame.now.names.now) frame.now.slots.now) (shape callee.now) }
{
    match callee {
        Expr::Select(select) => {
            !is_method(frame.names.meaning(select.name.span.start as usize))
                || is_one(expr_gives(frame, &select.operand))
        }
        Expr::Paren(_, inner, _) => receiver_fits(frame, inner),
        Expr::Integer(_, _)
        | Expr::Text(_)
        | Expr::Name(_)
        | Expr::Unary(_, _, _)
        | Expr::Binary(_) => return true,
        Expr::Call(_) => return true,
        Expr::Literal(_) => return true,
        Expr::StructLiteral(_) => return true,
    }
}

// Whether each argument does.
#[cycle(giving)]
fn all_ones<N: CodeNames>(frame: &Frame<'_, N>, items: &Vec<Item>) -> bool
    ensures { result ≡ all_ones (frame_of (N.looks frame.now.names.now) frame.now.slots.now) (items_of items.now.items) }
{
    for item in items {
        if !is_one(expr_gives(frame, &item.value)) {
            return false;
        }
    }
    true
}
