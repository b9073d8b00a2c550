//! Copies of declarations, statements and imports, in which each identifier is spelled as the copier says. The one error is want of memory.

ghost use Rattle.std.specs.Prelude.{◌≡◌, [], ◌∷◌, ◌++◌, IfOk, OnOk, map};
ghost use Rattle.go_tree_nodes.specs.declared.stmts.«Line».{Line as TheLine};
ghost use Rattle.go_tree_nodes.specs.Shapes as shapes;
ghost use Rattle.go_tree_nodes.specs.Trees as trees;
ghost use Rattle.go_tree_nodes.specs.TypeShapes.{shape_idents};
ghost use Rattle.go_tree_core.specs.copies.Respelled.{spelled, some_with, type_with, expr_with, exprs_with, values_with, value_spec_with, line_with, value_with, type_spec_with, type_decl_with, simple_with, init_with, if_with, for_with, stmt_with, branch_with, else_with, lines_with, receiver_with, func_with, decl_with, top_with, import_spec_with, import_with};

use crate::copies::copier::Copier;
use crate::copies::copies::{
    both, copied, copy_boxed, copy_expr, copy_exprs, copy_ident, copy_idents, copy_signature,
    copy_text, copy_type, copy_type_name,
};
use go_tree_nodes::text_core::{add, boxed};
use go_tree_nodes::{
    Assignment, Branch, Decl, Definition, Expr, Exprs, ForHead, FuncDecl, Ident, IfHead,
    ImportDecl, ImportLine, ImportName, ImportSpec, ImportSpecs, InitPart, Line, Loop, Otherwise,
    Receiver, Simple, Stmt, TopDecl, TypeDecl, TypeExpr, TypeLine, TypeSpec, TypeSpecs, Update,
    ValueDecl, ValueLine, ValueSpec, ValueSpecs, Values,
};
use std::alloc::AllocError;

// The same type, where one is written.
fn copy_some_type(
    copier: &Copier<'_>,
    type_expr: &Option<TypeExpr>,
) -> Result<Option<TypeExpr>, AllocError>
    ensures { IfOk result (λ x. shapes.shape_some_type x ≡ some_with (type_with (spelled copier.now)) (shapes.shape_some_type type_expr.now)) }
{
    match type_expr {
        None => Ok(None),
        Some(type_expr) => Ok(Some(copied!(copy_type(copier, type_expr)))),
    }
}

// The same values, where they are written.
fn copy_values(copier: &Copier<'_>, values: &Option<Values>) -> Result<Option<Values>, AllocError>
    ensures { IfOk result (λ x. shapes.shape_values x ≡ some_with (values_with (spelled copier.now)) (shapes.shape_values values.now)) }
{
    match values {
        None => Ok(None),
        Some(values) => Ok(Some(Values {
            assign: values.assign,
            exprs: copied!(copy_exprs(copier, &values.exprs)),
        })),
    }
}

// The same specification of values.
fn copy_value_spec(copier: &Copier<'_>, spec: &ValueSpec) -> Result<ValueSpec, AllocError>
    ensures { IfOk result (λ x. shapes.shape_value_spec x ≡ value_spec_with (spelled copier.now) (shapes.shape_value_spec spec.now)) }
{
    let names = copy_idents(copier, &spec.names);
    let type_expr = copy_some_type(copier, &spec.type_expr);
    let values = copy_values(copier, &spec.values);
    let (names, (type_expr, values)) = copied!(both(names, both(type_expr, values)));
    Ok(ValueSpec {
        names,
        type_expr,
        values,
    })
}

// The same specifications of values in parentheses.
fn copy_value_lines(
    copier: &Copier<'_>,
    lines: &Vec<ValueLine>,
) -> Result<Vec<ValueLine>, AllocError>
    ensures { IfOk result (λ x. map shapes.shape_value_line x.items ≡ map (line_with (value_spec_with (spelled copier.now))) (map shapes.shape_value_line lines.now.items)) }
{
    let mut copies = Vec::new(copier.alloc);
    for line in lines {
        let spec = copied!(copy_value_spec(copier, &line.spec));
        copied!(add(
            &mut copies,
            ValueLine {
                spec,
                semicolon: line.semicolon,
            },
        ));
    }
    Ok(copies)
}

// The same declaration of constants or variables.
fn copy_value(copier: &Copier<'_>, value: &ValueDecl) -> Result<ValueDecl, AllocError>
    ensures { IfOk result (λ x. shapes.shape_value x ≡ value_with (spelled copier.now) (shapes.shape_value value.now)) }
{
    let specs = match &value.specs {
        ValueSpecs::One(spec) => ValueSpecs::One(copied!(copy_value_spec(copier, spec))),
        ValueSpecs::Group(open, lines, close) => {
            ValueSpecs::Group(*open, copied!(copy_value_lines(copier, lines)), *close)
        }
    };
    Ok(ValueDecl {
        kind: value.kind,
        keyword: value.keyword,
        specs,
    })
}

// The same specification of a type.
fn copy_type_spec(copier: &Copier<'_>, spec: &TypeSpec) -> Result<TypeSpec, AllocError>
    ensures { IfOk result (λ x. shapes.shape_type_spec x ≡ type_spec_with (spelled copier.now) (shapes.shape_type_spec spec.now)) }
{
    let name = copy_ident(copier, &spec.name);
    let (name, type_expr) = copied!(both(name, copy_type(copier, &spec.type_expr)));
    Ok(TypeSpec {
        name,
        alias: spec.alias,
        type_expr,
    })
}

// The same specifications of types in parentheses.
fn copy_type_lines(copier: &Copier<'_>, lines: &Vec<TypeLine>) -> Result<Vec<TypeLine>, AllocError>
    ensures { IfOk result (λ x. map shapes.shape_type_line x.items ≡ map (line_with (type_spec_with (spelled copier.now))) (map shapes.shape_type_line lines.now.items)) }
{
    let mut copies = Vec::new(copier.alloc);
    for line in lines {
        let spec = copied!(copy_type_spec(copier, &line.spec));
        copied!(add(
            &mut copies,
            TypeLine {
                spec,
                semicolon: line.semicolon,
            },
        ));
    }
    Ok(copies)
}

// The same declaration of types.
fn copy_type_decl(copier: &Copier<'_>, types: &TypeDecl) -> Result<TypeDecl, AllocError>
    ensures { IfOk result (λ x. shapes.shape_type_decl x ≡ type_decl_with (spelled copier.now) (shapes.shape_type_decl types.now)) }
{
    let specs = match &types.specs {
        TypeSpecs::One(spec) => TypeSpecs::One(copied!(copy_type_spec(copier, spec))),
        TypeSpecs::Group(open, lines, close) => {
            TypeSpecs::Group(*open, copied!(copy_type_lines(copier, lines)), *close)
        }
    };
    Ok(TypeDecl {
        keyword: types.keyword,
        specs,
    })
}

// The same assignment.
fn copy_assignment(
    copier: &Copier<'_>,
    assignment: &Assignment,
) -> Result<Box<Assignment>, AllocError>
    ensures { IfOk result (λ x. trees.Assign (shapes.shape_exprs x.value.targets) x.value.assign (shapes.shape_exprs x.value.values) ≡ simple_with (spelled copier.now) (trees.Assign (shapes.shape_exprs assignment.now.targets) assignment.now.assign (shapes.shape_exprs assignment.now.values))) }
{
    let targets = copy_exprs(copier, &assignment.targets);
    let (targets, values) = copied!(both(targets, copy_exprs(copier, &assignment.values)));
    boxed(
        copier.alloc,
        Assignment {
            targets,
            assign: assignment.assign,
            values,
        },
    )
}

// The same assignment by an operator.
fn copy_update(copier: &Copier<'_>, update: &Update) -> Result<Box<Update>, AllocError>
    ensures { IfOk result (λ x. trees.Update (shapes.shape x.value.target) x.value.operator x.value.span (shapes.shape x.value.value) ≡ simple_with (spelled copier.now) (trees.Update (shapes.shape update.now.target) update.now.operator update.now.span (shapes.shape update.now.value))) }
{
    let target = copy_expr(copier, &update.target);
    let (target, value) = copied!(both(target, copy_expr(copier, &update.value)));
    boxed(
        copier.alloc,
        Update {
            target,
            operator: update.operator,
            span: update.span,
            value,
        },
    )
}

// The same definition of names.
fn copy_definition(
    copier: &Copier<'_>,
    definition: &Definition,
) -> Result<Box<Definition>, AllocError>
    ensures { IfOk result (λ x. trees.Define (shape_idents x.value.names) x.value.define (shapes.shape_exprs x.value.values) ≡ simple_with (spelled copier.now) (trees.Define (shape_idents definition.now.names) definition.now.define (shapes.shape_exprs definition.now.values))) }
{
    let names = copy_idents(copier, &definition.names);
    let (names, values) = copied!(both(names, copy_exprs(copier, &definition.values)));
    boxed(
        copier.alloc,
        Definition {
            names,
            define: definition.define,
            values,
        },
    )
}

// The same statement, which may stand in a header.
fn copy_simple(copier: &Copier<'_>, simple: &Simple) -> Result<Simple, AllocError>
    ensures { IfOk result (λ x. shapes.shape_simple x ≡ simple_with (spelled copier.now) (shapes.shape_simple simple.now)) }
{
    match simple {
        Simple::Expr(expr) => Ok(Simple::Expr(copied!(copy_expr(copier, expr)))),
        Simple::Step(expr, operator, span) => {
            Ok(Simple::Step(copied!(copy_boxed(copier, expr)), *operator, *span))
        }
        Simple::Assign(assignment) => {
            Ok(Simple::Assign(copied!(copy_assignment(copier, assignment))))
        }
        Simple::Update(update) => Ok(Simple::Update(copied!(copy_update(copier, update)))),
        Simple::Define(definition) => {
            Ok(Simple::Define(copied!(copy_definition(copier, definition))))
        }
    }
}

// The same of such a statement, where one stands.
fn copy_some_simple(
    copier: &Copier<'_>,
    simple: &Option<Simple>,
) -> Result<Option<Simple>, AllocError>
    ensures { IfOk result (λ x. shapes.shape_some_simple x ≡ some_with (simple_with (spelled copier.now)) (shapes.shape_some_simple simple.now)) }
{
    match simple {
        None => Ok(None),
        Some(simple) => Ok(Some(copied!(copy_simple(copier, simple)))),
    }
}

// The same expression, where one stands.
fn copy_some_expr(copier: &Copier<'_>, expr: &Option<Expr>) -> Result<Option<Expr>, AllocError>
    ensures { IfOk result (λ x. shapes.shape_some_expr x ≡ some_with (expr_with (spelled copier.now)) (shapes.shape_some_expr expr.now)) }
{
    match expr {
        None => Ok(None),
        Some(expr) => Ok(Some(copied!(copy_expr(copier, expr)))),
    }
}

// The same expressions, where some stand.
fn copy_some_exprs(
    copier: &Copier<'_>,
    exprs: &Option<Box<Exprs>>,
) -> Result<Option<Box<Exprs>>, AllocError>
    ensures { IfOk result (λ x. shapes.shape_some_exprs x ≡ some_with (exprs_with (spelled copier.now)) (shapes.shape_some_exprs exprs.now)) }
{
    match exprs {
        None => Ok(None),
        Some(exprs) => {
            let copy = copied!(copy_exprs(copier, exprs));
            Ok(Some(copied!(boxed(copier.alloc, copy))))
        }
    }
}

// The same of what stands before a condition.
fn copy_init(copier: &Copier<'_>, init: &Option<InitPart>) -> Result<Option<InitPart>, AllocError>
    ensures { IfOk result (λ x. shapes.shape_init x ≡ some_with (init_with (spelled copier.now)) (shapes.shape_init init.now)) }
{
    match init {
        None => Ok(None),
        Some(init) => Ok(Some(InitPart {
            simple: copied!(copy_some_simple(copier, &init.simple)),
            semicolon: init.semicolon,
        })),
    }
}

// The same head of an `if`.
fn copy_if_head(copier: &Copier<'_>, head: &IfHead) -> Result<IfHead, AllocError>
    ensures { IfOk result (λ x. shapes.shape_if x ≡ if_with (spelled copier.now) (shapes.shape_if head.now)) }
{
    let init = copy_init(copier, &head.init);
    let (init, condition) = copied!(both(init, copy_expr(copier, &head.condition)));
    Ok(IfHead { init, condition })
}

// The same head of a `for`.
fn copy_for_head(copier: &Copier<'_>, head: &ForHead) -> Result<ForHead, AllocError>
    ensures { IfOk result (λ x. shapes.shape_for x ≡ for_with (spelled copier.now) (shapes.shape_for head.now)) }
{
    match head {
        ForHead::Forever => Ok(ForHead::Forever),
        ForHead::While(condition) => Ok(ForHead::While(copied!(copy_expr(copier, condition)))),
        ForHead::Clauses(init, first, condition, second, post) => {
            let init = copy_some_simple(copier, init);
            let condition = copy_some_expr(copier, condition);
            let post = copy_some_simple(copier, post);
            let (init, (condition, post)) = copied!(both(init, both(condition, post)));
            Ok(ForHead::Clauses(init, *first, condition, *second, post))
        }
    }
}

// The same statement.
#[cycle(stmts)]
fn copy_stmt(copier: &Copier<'_>, stmt: &Stmt) -> Result<Stmt, AllocError>
    ensures { IfOk result (λ x. shapes.shape_stmt x ≡ stmt_with (spelled copier.now) (shapes.shape_stmt stmt.now)) }
{
    match stmt {
        Stmt::Empty => Ok(Stmt::Empty),
        Stmt::Declare(value) => {
            let value = copied!(copy_value(copier, value));
            Ok(Stmt::Declare(copied!(boxed(copier.alloc, value))))
        }
        Stmt::Simple(simple) => Ok(Stmt::Simple(copied!(copy_simple(copier, simple)))),
        Stmt::Return(keyword, exprs) => {
            Ok(Stmt::Return(*keyword, copied!(copy_some_exprs(copier, exprs))))
        }
        Stmt::Break(keyword) => Ok(Stmt::Break(*keyword)),
        Stmt::Continue(keyword) => Ok(Stmt::Continue(*keyword)),
        Stmt::Block(open, lines, close) => {
            let lines = copied!(copy_lines(copier, lines));
            Ok(Stmt::Block(*open, lines, *close))
        }
        Stmt::If(branch) => Ok(Stmt::If(copied!(copy_branch(copier, branch)))),
        Stmt::For(turns) => Ok(Stmt::For(copied!(copy_loop(copier, turns)))),
    }
}

// The same `for`.
#[cycle(stmts)]
fn copy_loop(copier: &Copier<'_>, turns: &Loop) -> Result<Box<Loop>, AllocError>
    ensures { IfOk result (λ x. shapes.shape_loop x.value ≡ stmt_with (spelled copier.now) (shapes.shape_loop turns.now)) }
{
    let body = copy_lines(copier, &turns.body);
    let (body, head) = copied!(both(body, copy_for_head(copier, &turns.head)));
    boxed(
        copier.alloc,
        Loop {
            keyword: turns.keyword,
            head,
            open: turns.open,
            body,
            close: turns.close,
        },
    )
}

// The same `if`.
#[cycle(stmts)]
fn copy_branch(copier: &Copier<'_>, branch: &Branch) -> Result<Box<Branch>, AllocError>
    ensures { IfOk result (λ x. shapes.shape_branch x.value ≡ branch_with (spelled copier.now) (shapes.shape_branch branch.now)) }
{
    let then = copy_lines(copier, &branch.then);
    let otherwise = copy_otherwise(copier, &branch.otherwise);
    let head = copy_if_head(copier, &branch.head);
    let (head, (then, otherwise)) = copied!(both(head, both(then, otherwise)));
    boxed(
        copier.alloc,
        Branch {
            keyword: branch.keyword,
            head,
            open: branch.open,
            then,
            close: branch.close,
            otherwise,
        },
    )
}

// The same of what stands behind the block of an `if`.
#[cycle(stmts)]
fn copy_otherwise(copier: &Copier<'_>, otherwise: &Otherwise) -> Result<Otherwise, AllocError>
    ensures { IfOk result (λ x. shapes.shape_else x ≡ else_with (spelled copier.now) (shapes.shape_else otherwise.now)) }
{
    match otherwise {
        Otherwise::Nothing => Ok(Otherwise::Nothing),
        Otherwise::Block(keyword, open, lines, close) => {
            let lines = copied!(copy_lines(copier, lines));
            Ok(Otherwise::Block(*keyword, *open, lines, *close))
        }
        Otherwise::If(keyword, branch) => {
            Ok(Otherwise::If(*keyword, copied!(copy_branch(copier, branch))))
        }
    }
}

// The same statements of a block.
#[cycle(stmts)]
fn copy_lines(copier: &Copier<'_>, lines: &Vec<Line>) -> Result<Vec<Line>, AllocError>
    ensures { IfOk result (λ x. shapes.lines_of x.items ≡ lines_with (spelled copier.now) (shapes.lines_of lines.now.items)) }
{
    let mut copies = Vec::new(copier.alloc);
    for line in lines {
        copied!(add_line(copier, line, &mut copies));
    }
    Ok(copies)
}

// Adds the same statement, and the semicolon behind it.
#[cycle(stmts)]
fn add_line(copier: &Copier<'_>, line: &Line, copies: &mut Vec<Line>) -> Result<(), AllocError>
    ensures { OnOk result ((x : TheLine) × (copies.new.items ≡ copies.old.items ++ x ∷ []) × (shapes.lines_of (x ∷ []) ≡ lines_with (spelled copier.now) (shapes.lines_of (line.now ∷ [])))) }
{
    let stmt = copied!(copy_stmt(copier, &line.stmt));
    copied!(add(
        copies,
        Line {
            stmt,
            semicolon: line.semicolon,
        },
    ));
    Ok(())
}

// The same name, where one stands.
fn copy_some_ident(copier: &Copier<'_>, ident: &Option<Ident>) -> Result<Option<Ident>, AllocError>
    ensures { IfOk result (λ x. x ≡ some_with (spelled copier.now) ident.now) }
{
    match ident {
        None => Ok(None),
        Some(ident) => Ok(Some(copied!(copy_ident(copier, ident)))),
    }
}

// The same receiver, where one stands.
fn copy_receiver(
    copier: &Copier<'_>,
    receiver: &Option<Receiver>,
) -> Result<Option<Receiver>, AllocError>
    ensures { IfOk result (λ x. x ≡ some_with (receiver_with (spelled copier.now)) receiver.now) }
{
    match receiver {
        None => Ok(None),
        Some(receiver) => {
            let name = copy_some_ident(copier, &receiver.name);
            let (name, base) = copied!(both(name, copy_type_name(copier, &receiver.base)));
            Ok(Some(Receiver {
                open_paren: receiver.open_paren,
                name,
                star: receiver.star,
                base,
                comma: receiver.comma,
                close_paren: receiver.close_paren,
            }))
        }
    }
}

// The same function or method.
fn copy_func(copier: &Copier<'_>, func: &FuncDecl) -> Result<FuncDecl, AllocError>
    ensures { IfOk result (λ x. shapes.func_of x ≡ func_with (spelled copier.now) (shapes.func_of func.now)) }
{
    let body = copied!(copy_lines(copier, &func.body));
    let name = copy_ident(copier, &func.name);
    let signature = copy_signature(copier, &func.signature);
    let receiver = copy_receiver(copier, &func.receiver);
    let (name, (signature, receiver)) = copied!(both(name, both(signature, receiver)));
    Ok(FuncDecl {
        func: func.func,
        receiver,
        name,
        signature,
        open_brace: func.open_brace,
        body,
        close_brace: func.close_brace,
    })
}

// The same declaration of the package block.
fn copy_decl(copier: &Copier<'_>, decl: &Decl) -> Result<Decl, AllocError>
    ensures { IfOk result (λ x. shapes.decl_of x ≡ decl_with (spelled copier.now) (shapes.decl_of decl.now)) }
{
    match decl {
        Decl::Value(value) => Ok(Decl::Value(copied!(copy_value(copier, value)))),
        Decl::Type(types) => Ok(Decl::Type(copied!(copy_type_decl(copier, types)))),
        Decl::Func(func) => Ok(Decl::Func(copied!(copy_func(copier, func)))),
    }
}

/// The same declarations of the package block.
pub(crate) fn copy_tops(
    copier: &Copier<'_>,
    tops: &Vec<TopDecl>,
) -> Result<Vec<TopDecl>, AllocError>
    ensures { IfOk result (λ x. map shapes.top_of x.items ≡ map (top_with (spelled copier.now)) (map shapes.top_of tops.now.items)) }
{
    let mut copies = Vec::new(copier.alloc);
    for top in tops {
        let decl = copied!(copy_decl(copier, &top.decl));
        copied!(add(
            &mut copies,
            TopDecl {
                decl,
                semicolon: top.semicolon,
            },
        ));
    }
    Ok(copies)
}

// The same import.
fn copy_import_spec(copier: &Copier<'_>, spec: &ImportSpec) -> Result<ImportSpec, AllocError>
    ensures { IfOk result (λ x. shapes.shape_import_spec x ≡ import_spec_with (spelled copier.now) (shapes.shape_import_spec spec.now)) }
{
    let name = match &spec.name {
        ImportName::Own => ImportName::Own,
        ImportName::Named(ident) => ImportName::Named(copied!(copy_ident(copier, ident))),
        ImportName::Dot(dot) => ImportName::Dot(*dot),
    };
    Ok(ImportSpec {
        name,
        path: copied!(copy_text(copier.alloc, &spec.path)),
    })
}

// The same imports in parentheses.
fn copy_import_lines(
    copier: &Copier<'_>,
    lines: &Vec<ImportLine>,
) -> Result<Vec<ImportLine>, AllocError>
    ensures { IfOk result (λ x. map shapes.shape_import_line x.items ≡ map (line_with (import_spec_with (spelled copier.now))) (map shapes.shape_import_line lines.now.items)) }
{
    let mut copies = Vec::new(copier.alloc);
    for line in lines {
        let spec = copied!(copy_import_spec(copier, &line.spec));
        copied!(add(
            &mut copies,
            ImportLine {
                spec,
                semicolon: line.semicolon,
            },
        ));
    }
    Ok(copies)
}

// The same import declaration.
fn copy_import(copier: &Copier<'_>, import: &ImportDecl) -> Result<ImportDecl, AllocError>
    ensures { IfOk result (λ x. shapes.import_of x ≡ import_with (spelled copier.now) (shapes.import_of import.now)) }
{
    let specs = match &import.specs {
        ImportSpecs::One(spec) => ImportSpecs::One(copied!(copy_import_spec(copier, spec))),
        ImportSpecs::Group(open, lines, close) => {
            ImportSpecs::Group(*open, copied!(copy_import_lines(copier, lines)), *close)
        }
    };
    Ok(ImportDecl {
        keyword: import.keyword,
        specs,
        semicolon: import.semicolon,
    })
}

/// The same import declarations.
pub(crate) fn copy_imports(
    copier: &Copier<'_>,
    imports: &Vec<ImportDecl>,
) -> Result<Vec<ImportDecl>, AllocError>
    ensures { IfOk result (λ x. map shapes.import_of x.items ≡ map (import_with (spelled copier.now)) (map shapes.import_of imports.now.items)) }
{
    let mut copies = Vec::new(copier.alloc);
    for import in imports {
        copied!(add(&mut copies, copied!(copy_import(copier, import))));
    }
    Ok(copies)
}
