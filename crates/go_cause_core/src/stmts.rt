//! What follows from what in the bodies of functions.
use crate::exprs::{
    Seen, by_fault, note_ident, note_idents, open_idents, see_expr, see_exprs, see_type,
};
use crate::found::{Blame, Found, Said};
use crate::look::{Look, Wanted};
use go_tree_nodes::{
    Branch, Definition, Expr, Exprs, ForHead, Idents, IfHead, InitPart, Line, Otherwise, Simple,
    Stmt, ValueDecl, ValueSpec, ValueSpecs,
};

// By what is broken where a value or its statement stands, if the value itself is not refused.
fn blame_of(look: &Look<'_>, value: Seen, statement: usize) -> Option<Blame> {
    let there = look.fault(value.start, Wanted::Value);
    if there.is_some() {
        return by_fault(there);
    }
    by_fault(look.fault(statement, Wanted::Value))
}

// What is known of a name that is declared by a value.
fn said_by_value(look: &Look<'_>, value: Seen, statement: usize) -> Said {
    match value.said.blame {
        Some(Blame::Fault(_)) => value.said,
        Some(Blame::Declared(_)) | Some(Blame::Embedded(_)) | None => {
            let there = blame_of(look, value, statement);
            Said {
                blame: if there.is_some() {
                    there
                } else {
                    value.said.blame
                },
                of: value.said.of,
                embedded: value.said.embedded,
            }
        }
    }
}

// Names that are declared by values: each by its own, all by one call where that stands alone.
fn see_values(look: &Look<'_>, found: &mut Found, idents: &Idents, values: &Exprs) -> Seen {
    let statement = idents.first.span.start as usize;
    let first = see_expr(look, found, &values.first);
    let said = said_by_value(look, first, statement);
    if values.more.is_empty() {
        note_idents(look, found, idents, said);
    } else {
        note_ident(look, found, &idents.first, said);
    }
    for number in 0..values.more.len() {
        let seen = see_expr(look, found, &values.more[number].expr);
        if let Some(next) = idents.more.get(number) {
            note_ident(
                look,
                found,
                &next.ident,
                said_by_value(look, seen, statement),
            );
        }
    }
    first
}

/// A specification of constants or variables: what is known of its first value.
pub(crate) fn see_value_spec(look: &Look<'_>, found: &mut Found, spec: &ValueSpec) -> Option<Seen> {
    open_idents(look, found, &spec.names);
    let Some(type_expr) = &spec.type_expr else {
        let values = spec.values.as_ref()?;
        return Some(see_values(look, found, &spec.names, &values.exprs));
    };
    let said = see_type(look, found, type_expr);
    note_idents(look, found, &spec.names, said);
    let values = spec.values.as_ref()?;
    Some(see_exprs(look, found, &values.exprs))
}

// A declaration of constants or variables in a body.
fn see_value_decl(look: &Look<'_>, found: &mut Found, decl: &ValueDecl) {
    match &decl.specs {
        ValueSpecs::One(spec) => {
            let _seen = see_value_spec(look, found, spec);
        }
        ValueSpecs::Group(_, lines, _) => {
            for line in lines {
                let _seen = see_value_spec(look, found, &line.spec);
            }
        }
    }
}

// A short declaration.
fn see_definition(look: &Look<'_>, found: &mut Found, definition: &Definition) {
    let _seen = see_values(look, found, &definition.names, &definition.values);
}

// A statement that may stand in a header.
fn see_simple(look: &Look<'_>, found: &mut Found, simple: &Simple) {
    match simple {
        Simple::Expr(expr) => {
            let _seen = see_expr(look, found, expr);
        }
        Simple::Step(expr, _, _) => {
            let _seen = see_expr(look, found, expr);
        }
        Simple::Assign(assignment) => {
            let _targets = see_exprs(look, found, &assignment.targets);
            let _values = see_exprs(look, found, &assignment.values);
        }
        Simple::Update(update) => {
            let _target = see_expr(look, found, &update.target);
            let _value = see_expr(look, found, &update.value);
        }
        Simple::Define(definition) => see_definition(look, found, definition),
    }
}

// Such a statement, where one stands.
fn see_some_simple(look: &Look<'_>, found: &mut Found, simple: &Option<Simple>) {
    match simple {
        None => {}
        Some(simple) => see_simple(look, found, simple),
    }
}

// An expression, where one stands.
fn see_some_expr(look: &Look<'_>, found: &mut Found, expr: &Option<Expr>) {
    match expr {
        None => {}
        Some(expr) => {
            let _seen = see_expr(look, found, expr);
        }
    }
}

// What is returned.
fn see_some_exprs(look: &Look<'_>, found: &mut Found, exprs: &Option<Box<Exprs>>) {
    match exprs {
        None => {}
        Some(exprs) => {
            let _seen = see_exprs(look, found, exprs);
        }
    }
}

// What stands before a condition.
fn see_init(look: &Look<'_>, found: &mut Found, init: &Option<InitPart>) {
    match init {
        None => {}
        Some(init) => see_some_simple(look, found, &init.simple),
    }
}

// The head of an `if`.
fn see_if_head(look: &Look<'_>, found: &mut Found, head: &IfHead) {
    see_init(look, found, &head.init);
    let _seen = see_expr(look, found, &head.condition);
}

// The head of a `for`.
fn see_for_head(look: &Look<'_>, found: &mut Found, head: &ForHead) {
    match head {
        ForHead::Forever => {}
        ForHead::While(condition) => {
            let _seen = see_expr(look, found, condition);
        }
        ForHead::Clauses(init, _, condition, _, post) => {
            see_some_simple(look, found, init);
            see_some_expr(look, found, condition);
            see_some_simple(look, found, post);
        }
    }
}

// A statement.
#[cycle(stmts)]
fn see_stmt(look: &Look<'_>, found: &mut Found, stmt: &Stmt) {
    match stmt {
        Stmt::Empty => {}
        Stmt::Declare(value) => see_value_decl(look, found, value),
        Stmt::Simple(simple) => see_simple(look, found, simple),
        Stmt::Return(_, exprs) => see_some_exprs(look, found, exprs),
        Stmt::Break(_) => {}
        Stmt::Continue(_) => {}
        Stmt::Block(_, lines, _) => see_lines(look, found, lines),
        Stmt::If(branch) => see_branch(look, found, branch),
        Stmt::For(turns) => {
            see_for_head(look, found, &turns.head);
            see_lines(look, found, &turns.body);
        }
    }
}

// An `if`.
#[cycle(stmts)]
fn see_branch(look: &Look<'_>, found: &mut Found, branch: &Branch) {
    see_if_head(look, found, &branch.head);
    see_lines(look, found, &branch.then);
    see_otherwise(look, found, &branch.otherwise);
}

// What stands behind the block of an `if`.
#[cycle(stmts)]
fn see_otherwise(look: &Look<'_>, found: &mut Found, otherwise: &Otherwise) {
    match otherwise {
        Otherwise::Nothing => {}
        Otherwise::Block(_, _, lines, _) => see_lines(look, found, lines),
        Otherwise::If(_, branch) => see_branch(look, found, branch),
    }
}

/// The statements of a block.
#[cycle(stmts)]
pub(crate) fn see_lines(look: &Look<'_>, found: &mut Found, lines: &Vec<Line>) {
    for line in lines {
        see_stmt(look, found, &line.stmt);
    }
}
