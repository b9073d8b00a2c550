//! What is said of statements: what functions return, their ends, and what stands alone.

use crate::assigned::{here_are, is_nil_at, of_values, some_of};
use crate::own::{own_function, results_of};
use go_case_core::diagnostic_core::{LineKind, Message, Words, digits, shown};
use go_case_core::judge_core::{Piece, exprs_of};
use go_case_core::{
    Case, Misfit, Values, add_why, article_of, mark, misfit_in, results_written, type_told,
    values_of,
};
use go_term_core::TypeTerm;
use go_tree_nodes::text_core::{Rule, add};
use go_tree_nodes::token_core::{Keyword, Operator, TokenKind};
use go_tree_nodes::{Expr, Exprs, ForHead, FuncDecl, Otherwise, Simple, Stmt};
use std::alloc::{AllocError, Global};

/// What is said of a statement that breaks one of the rules Y4 to Y6 and Y8; none where no more is known of it.
///
/// # Errors
///
/// `AllocError` where memory is wanting.
pub fn of_statement(
    alloc: Global,
    case: &Case<'_>,
    rule: Rule,
) -> Result<Option<Message>, AllocError> {
    match rule {
        Rule::Y4 => match case.setting.piece() {
            Some(Piece::Return(place, values)) if place.start as usize == case.here.offset => {
                returned(alloc, case, values)
            }
            _ => of_values(alloc, case),
        },
        Rule::Y5 => open_end(alloc, case),
        Rule::Y6 => some_of(stray(alloc, case)),
        _ => unused(alloc, case),
    }
}

// What a `return` gives.
fn returned(
    alloc: Global,
    case: &Case<'_>,
    values: &Option<Box<Exprs>>,
) -> Result<Option<Message>, AllocError> {
    let Some(func) = case.setting.func() else {
        return Ok(None);
    };
    let results = results_written(case.here.file.text(), func);
    match values {
        Some(exprs) => {
            let list = exprs_of(alloc, exprs)?;
            let values = values_of(alloc, case, list)?;
            returned_values(alloc, case, func, results, &values)
        }
        None => some_of(Message::of(
            Words::new(alloc)
                .and(func.name.name.as_str())
                .and(" returns ")
                .and(results)
                .and(", but no value is given"),
        )),
    }
}

// Values that a `return` gives.
fn returned_values(
    alloc: Global,
    case: &Case<'_>,
    func: &FuncDecl,
    results: &str,
    values: &Values<'_>,
) -> Result<Option<Message>, AllocError> {
    let name = func.name.name.as_str();
    if results.is_empty() {
        let mut message = Message::of(
            Words::new(alloc)
                .and(name)
                .and(" returns nothing, but a value is given"),
        )?;
        values.mark_from(0, &mut message);
        return Ok(Some(message));
    }
    let types = case.setting.results(alloc, &func.signature)?;
    if types.len() != values.count() {
        let mut message = other_count(alloc, case, name, results, values)?;
        values.mark_from(first_amiss(values, types.len()), &mut message);
        return Ok(Some(message));
    }
    let wanted = lent(alloc, &types)?;
    match misfit_in(alloc, case, values, &wanted)? {
        Some(found) => { some_of(value_told(alloc, case, name, values, &found, types.len())) }
        None => by_signature(alloc, case, func, values),
    }
}

// The same of as many values as results, by the signature that the function itself has: the types that its results are written with may be unknown where the piece is
// judged.
fn by_signature(
    alloc: Global,
    case: &Case<'_>,
    func: &FuncDecl,
    values: &Values<'_>,
) -> Result<Option<Message>, AllocError> {
    let own = own_function(alloc, case, func)?;
    let Some(signature) = own.signature() else {
        return Ok(None);
    };
    let wanted = results_of(alloc, signature)?;
    let name = func.name.name.as_str();
    match misfit_in(alloc, case, values, &wanted)? {
        Some(found) => { some_of(value_told(alloc, case, name, values, &found, wanted.len())) }
        None => Ok(None),
    }
}

// Types, each lent.
fn lent(alloc: Global, types: &[Option<TypeTerm>]) -> Result<Vec<Option<&TypeTerm>>, AllocError> {
    let mut all = Vec::new(alloc);
    for t in types {
        add(&mut all, t.as_ref())?;
    }
    Ok(all)
}

// The number, from 0, of the first value of too many; of too few values the first one.
fn first_amiss(values: &Values<'_>, wanted: usize) -> usize {
    if values.count() > wanted { wanted } else { 0 }
}

// A `return` of another number of values than results.
fn other_count(
    alloc: Global,
    case: &Case<'_>,
    name: &str,
    results: &str,
    values: &Values<'_>,
) -> Result<Message, AllocError> {
    let here = here_are(alloc, case, values)?;
    let mut message = Message::of(
        Words::new(alloc)
            .and(name)
            .and(" returns ")
            .and(results)
            .and(here.as_str()),
    )?;
    let have = values.kinds(alloc, case)?;
    message.line(LineKind::Have, Words::new(alloc).and(have.as_str()))?;
    message.line(LineKind::Want, Words::new(alloc).and(results))?;
    Ok(message)
}

// The front of what is said of a value that does not fit its result: the function and its one result, or which of several.
fn result_told(
    alloc: Global,
    name: &str,
    wanted: &str,
    number: usize,
    count: usize,
) -> Result<String, AllocError> {
    if count == 1 {
        return Words::new(alloc)
            .and(name)
            .and(" returns ")
            .and(article_of(wanted))
            .and(wanted)
            .text();
    }
    let which = digits(alloc, number.saturating_add(1))?;
    Words::new(alloc)
        .and("result ")
        .and(which.as_str())
        .and(" of ")
        .and(name)
        .and(" is ")
        .and(article_of(wanted))
        .and(wanted)
        .text()
}

// A value of a `return` that does not fit its result.
fn value_told(
    alloc: Global,
    case: &Case<'_>,
    name: &str,
    values: &Values<'_>,
    found: &Misfit<'_>,
    count: usize,
) -> Result<Message, AllocError> {
    let wanted = type_told(alloc, case, found.wanted)?;
    let front = result_told(alloc, name, wanted.as_str(), found.number, count)?;
    let words = Words::new(alloc).and(front.as_str());
    if is_nil_at(values, found.number) {
        let mut message = Message::of(words.and(", which cannot be nil"))?;
        values.mark(found.number, &mut message);
        return Ok(message);
    }
    let is = values.is_text(alloc, case, found.number)?;
    let mut message = Message::of(words.and(", but ").and(is.as_str()))?;
    add_why(alloc, case, values, found, &mut message)?;
    Ok(message)
}

// A function whose end can be reached.
fn open_end(alloc: Global, case: &Case<'_>) -> Result<Option<Message>, AllocError> {
    let Some(func) = case.setting.func() else {
        return Ok(None);
    };
    let results = shown(alloc, results_written(case.here.file.text(), func))?;
    let mut message = Message::of(
        Words::new(alloc)
            .and(func.name.name.as_str())
            .and(" returns ")
            .and(results.as_str())
            .and(", but its end can be reached without a return"),
    )?;
    if let Some(line) = func.body.last() {
        add_why_open(alloc, &line.stmt, &mut message)?;
    }
    Ok(Some(message))
}

// Adds why the end after a statement can be reached, where that is an `if` or a `for`.
fn add_why_open(alloc: Global, stmt: &Stmt, message: &mut Message) -> Result<(), AllocError> {
    match stmt {
        Stmt::If(branch) if lacks_else(&branch.otherwise) => {
            message.note(Words::new(alloc).and("the if at its end has no else"))
        }
        Stmt::If(_) => message.note(Words::new(alloc).and(
            "one branch of the if at its end can be left without a return",
        )),
        Stmt::For(turns) => message.note(Words::new(alloc).and(why_it_ends(&turns.head))),
        _ => Ok(()),
    }
}

// Whether an `if` has no `else`, or ends with an `else if` that has none, by what stands after its block.
fn lacks_else(otherwise: &Otherwise) -> bool {
    match otherwise {
        Otherwise::Nothing => true,
        Otherwise::Block(_, _, _, _) => false,
        Otherwise::If(_, branch) => lacks_else(&branch.otherwise),
    }
}

// Why a `for` may end whose end can be reached.
fn why_it_ends(head: &ForHead) -> &'static str {
    let has_condition = match head {
        ForHead::Forever => false,
        ForHead::While(_) => true,
        ForHead::Clauses(_, _, condition, _, _) => condition.is_some(),
    };
    if has_condition {
        return "the for at its end has a condition, and may end";
    }
    "a break leaves the for at its end"
}

// The keyword of the header in front of a brace.
fn header_keyword(case: &Case<'_>, open: usize) -> Option<Keyword> {
    for back in 1..open.saturating_add(1) {
        match case.here.tokens.kind(open.saturating_sub(back)) {
            Some(TokenKind::Keyword(keyword)) => return Some(keyword),
            Some(TokenKind::Operator(Operator::OpenBrace | Operator::CloseBrace)) => return None,
            _ => {}
        }
    }
    None
}

// A `break` or `continue` outside loops.
fn stray(alloc: Global, case: &Case<'_>) -> Result<Message, AllocError> {
    let word = case.here.word();
    let mut message = Message::of(Words::new(alloc).and(word).and(" is not in a for loop"))?;
    if let Some(open) = case.here.tokens.open_round(case.here.at) {
        if header_keyword(case, open) == Some(Keyword::If) {
            message.note(
                Words::new(alloc)
                    .and("an if is not a loop: ")
                    .and(word)
                    .and(" needs a for around it"),
            )?;
        }
    }
    Ok(message)
}

// How an expression that stands alone is not used.
fn not_used(expr: &Expr) -> &'static str {
    match expr {
        Expr::Binary(_) => " is computed and not used",
        Expr::Unary(_, _, _) => " is computed and not used",
        _ => " is not used",
    }
}

// An expression that stands alone.
fn unused(alloc: Global, case: &Case<'_>) -> Result<Option<Message>, AllocError> {
    let Some(Piece::Simple(Simple::Expr(expr))) = case.setting.piece() else {
        return Ok(None);
    };
    let written = case.shown(alloc, expr)?;
    let mut message = Message::of(Words::new(alloc).and(written.as_str()).and(not_used(expr)))?;
    mark(expr, &mut message);
    if let Expr::Binary(binary) = expr {
        if binary.operator == Operator::Equal {
            let left = case.shown(alloc, &binary.left)?;
            message.help(
                Words::new(alloc)
                    .and("if ")
                    .and(left.as_str())
                    .and(" is to be set, write = in place of =="),
            )?;
        }
    }
    Ok(Some(message))
}
