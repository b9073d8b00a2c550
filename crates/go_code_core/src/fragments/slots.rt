//! The slots of a function.
//!
//! Where a function that adds slots ends for want of memory, some of them may stand behind those that were there. Nothing is made of that list:
//! it is let go.
ghost use Rattle.std.specs.Prelude.{◌≡◌, ◌++◌, [], ◌∷◌, IfOk, OnOk};
ghost use Rattle.go_tree_nodes.specs.Shapes.{shape_value_spec, shape_value, shape_simple, shape_some_simple, shape_init, shape_for, shape_stmt, shape_branch, shape_else, shape_loop, lines_of, func_of};
ghost use Rattle.go_tree_nodes.specs.TypeShapes.{params_of, shape_idents, shape_names, shape_signature};
ghost use Rattle.go_code_core.specs.fragments.Names.{slot_of};
ghost use Rattle.go_code_core.specs.fragments.Slots.{branch_slots, define_slots, else_slots, entry_slots, head_slots, init_slots, lines_slots, local_slot, local_slots, new_slot, new_slots, param_names_slots, param_slot, param_slots, receiver_slots, signature_slots, simple_slots, slots_of, some_simple_slots, stmt_slots, value_spec_slots, value_specs_slots};

use crate::fragments::names::CodeNames;
use go_constant_core::text_core::{add, is_blank};
use go_tree_nodes::{
    Branch, ForHead, FuncDecl, Ident, Idents, InitPart, Line, Loop, Otherwise, Param, Receiver,
    Signature, Simple, Stmt, ValueDecl, ValueKind, ValueSpec, ValueSpecs,
};
use std::alloc::{AllocError, Global};

/// Which slot, counted from 0, is for what is declared at an offset in bytes: the first of them, where there is one.
pub fn slot_of(slots: &[Option<usize>], offset: usize) -> Option<usize>
    ensures { result ≡ slot_of slots.now offset }
{
    for (slot, held) in slots.iter().enumerate() {
        if let Some(declared) = held {
            if *declared == offset {
                return Some(slot);
            }
        }
    }
    None
}

// The slot of a parameter.
fn param_slot(ident: &Ident) -> Option<usize>
    ensures { result ≡ param_slot ident.now }
{
    if is_blank(ident.name.as_str()) {
        None
    } else {
        Some(ident.span.start as usize)
    }
}

// Adds the slot of a local variable.
fn add_local(slots: &mut Vec<Option<usize>>, ident: &Ident) -> Result<(), AllocError>
    ensures { OnOk result (slots.new.items ≡ slots.old.items ++ local_slot ident.now) }
{
    if is_blank(ident.name.as_str()) {
        Ok(())
    } else {
        add(slots, Some(ident.span.start as usize))
    }
}

// Adds the parameters of a line.
fn add_param_names(slots: &mut Vec<Option<usize>>, names: &Idents) -> Result<(), AllocError>
    ensures { OnOk result (slots.new.items ≡ slots.old.items ++ param_names_slots (shape_idents names.now)) }
{
    add(slots, param_slot(&names.first))?;
    for next in &names.more {
        add(slots, param_slot(&next.ident))?;
    }
    Ok(())
}

// Adds the parameters of an entry.
fn add_entry(slots: &mut Vec<Option<usize>>, names: &Option<Idents>) -> Result<(), AllocError>
    ensures { OnOk result (slots.new.items ≡ slots.old.items ++ entry_slots (shape_names names.now)) }
{
    match names {
        Some(names) => add_param_names(slots, names),
        None => add(slots, None),
    }
}

// Adds parameters.
fn add_params(slots: &mut Vec<Option<usize>>, params: &Vec<Param>) -> Result<(), AllocError>
    ensures { OnOk result (slots.new.items ≡ slots.old.items ++ param_slots (params_of params.now.items)) }
{
    for param in params {
        add_entry(slots, &param.names)?;
    }
    Ok(())
}

// Adds the receiver.
fn add_receiver(
    slots: &mut Vec<Option<usize>>,
    receiver: &Option<Receiver>,
) -> Result<(), AllocError>
    ensures { OnOk result (slots.new.items ≡ slots.old.items ++ receiver_slots receiver.now) }
{
    match receiver {
        Some(receiver) => match &receiver.name {
            Some(name) => add(slots, param_slot(name)),
            None => add(slots, None),
        },
        None => Ok(()),
    }
}

// Adds local variables.
fn add_locals(slots: &mut Vec<Option<usize>>, names: &Idents) -> Result<(), AllocError>
    ensures { OnOk result (slots.new.items ≡ slots.old.items ++ local_slots (shape_idents names.now)) }
{
    add_local(slots, &names.first)?;
    for next in &names.more {
        add_local(slots, &next.ident)?;
    }
    Ok(())
}

// Adds the variables of a specification.
fn add_spec(
    slots: &mut Vec<Option<usize>>,
    kind: ValueKind,
    spec: &ValueSpec,
) -> Result<(), AllocError>
    ensures { OnOk result (slots.new.items ≡ slots.old.items ++ value_spec_slots kind (shape_value_spec spec.now)) }
{
    match kind {
        ValueKind::Const => Ok(()),
        ValueKind::Var => add_locals(slots, &spec.names),
    }
}

// Adds the variables of a declaration.
fn add_decl(slots: &mut Vec<Option<usize>>, decl: &ValueDecl) -> Result<(), AllocError>
    ensures { OnOk result (slots.new.items ≡ slots.old.items ++ value_specs_slots (shape_value decl.now).kind (shape_value decl.now).specs) }
{
    match &decl.specs {
        ValueSpecs::One(spec) => add_spec(slots, decl.kind, spec),
        ValueSpecs::Group(_, lines, _) => {
            for line in lines {
                add_spec(slots, decl.kind, &line.spec)?;
            }
            Ok(())
        }
    }
}

// Adds a name to the left of `:=`, where it is new.
fn add_new<N: CodeNames>(
    slots: &mut Vec<Option<usize>>,
    names: &N,
    ident: &Ident,
) -> Result<(), AllocError>
    ensures { OnOk result (slots.new.items ≡ slots.old.items ++ new_slot (N.looks names.now) ident.now) }
{
    if names.is_new(ident.span.start as usize) {
        add_local(slots, ident)
    } else {
        Ok(())
    }
}

// Adds the new ones of several names to the left of `:=`.
fn add_several<N: CodeNames>(
    slots: &mut Vec<Option<usize>>,
    names: &N,
    idents: &Idents,
) -> Result<(), AllocError>
    ensures { OnOk result (slots.new.items ≡ slots.old.items ++ new_slots (N.looks names.now) (shape_idents idents.now)) }
{
    add_new(slots, names, &idents.first)?;
    for next in &idents.more {
        add_new(slots, names, &next.ident)?;
    }
    Ok(())
}

// Adds the names to the left of `:=` that are declared.
fn add_defined<N: CodeNames>(
    slots: &mut Vec<Option<usize>>,
    names: &N,
    idents: &Idents,
) -> Result<(), AllocError>
    ensures { OnOk result (slots.new.items ≡ slots.old.items ++ define_slots (N.looks names.now) (shape_idents idents.now)) }
{
    match idents.more.as_slice() {
        [] => add_local(slots, &idents.first),
        _ => add_several(slots, names, idents),
    }
}

// Adds the variables of a simple statement.
fn add_simple<N: CodeNames>(
    slots: &mut Vec<Option<usize>>,
    names: &N,
    simple: &Simple,
) -> Result<(), AllocError>
    ensures { OnOk result (slots.new.items ≡ slots.old.items ++ simple_slots (N.looks names.now) (shape_simple simple.now)) }
{
    match simple {
        Simple::Define(definition) => add_defined(slots, names, &definition.names),
        Simple::Expr(_) => Ok(()),
        Simple::Step(_, _, _) => Ok(()),
        Simple::Assign(_) => Ok(()),
        Simple::Update(_) => Ok(()),
    }
}

// Adds those of one that may not stand there.
fn add_some<N: CodeNames>(
    slots: &mut Vec<Option<usize>>,
    names: &N,
    some: &Option<Simple>,
) -> Result<(), AllocError>
    ensures { OnOk result (slots.new.items ≡ slots.old.items ++ some_simple_slots (N.looks names.now) (shape_some_simple some.now)) }
{
    match some {
        Some(simple) => add_simple(slots, names, simple),
        None => Ok(()),
    }
}

// Adds the variables in front of a condition.
fn add_init<N: CodeNames>(
    slots: &mut Vec<Option<usize>>,
    names: &N,
    init: &Option<InitPart>,
) -> Result<(), AllocError>
    ensures { OnOk result (slots.new.items ≡ slots.old.items ++ init_slots (N.looks names.now) (shape_init init.now)) }
{
    match init {
        Some(init) => add_some(slots, names, &init.simple),
        None => Ok(()),
    }
}

// Adds the variables of what stands between `for` and its block.
fn add_head<N: CodeNames>(
    slots: &mut Vec<Option<usize>>,
    names: &N,
    head: &ForHead,
) -> Result<(), AllocError>
    ensures { OnOk result (slots.new.items ≡ slots.old.items ++ head_slots (N.looks names.now) (shape_for head.now)) }
{
    match head {
        ForHead::Clauses(init, _, _, _, post) => {
            add_some(slots, names, init)?;
            add_some(slots, names, post)
        }
        ForHead::Forever | ForHead::While(_) => Ok(()),
    }
}

// Adds the variables of a statement.
#[cycle(slots)]
fn add_stmt<N: CodeNames>(
    slots: &mut Vec<Option<usize>>,
    names: &N,
    stmt: &Stmt,
) -> Result<(), AllocError>
    ensures { OnOk result (slots.new.items ≡ slots.old.items ++ stmt_slots (N.looks names.now) (shape_stmt stmt.now)) }
{
    match stmt {
        Stmt::Empty | Stmt::Return(_, _) | Stmt::Break(_) | Stmt::Continue(_) => return Ok(()),
        Stmt::Declare(decl) => return add_decl(slots, decl),
        Stmt::Simple(simple) => return add_simple(slots, names, simple),
        Stmt::Block(_, lines, _) => return add_lines(slots, names, lines),
        Stmt::If(branch) => return add_branch(slots, names, branch),
        Stmt::For(turns) => return add_loop(slots, names, turns),
    }
}

#[cycle(slots)]
fn add_loop<N: CodeNames>(
    slots: &mut Vec<Option<usize>>,
    names: &N,
    turns: &Loop,
) -> Result<(), AllocError>
    ensures { OnOk result (slots.new.items ≡ slots.old.items ++ stmt_slots (N.looks names.now) (shape_loop turns.now)) }
{
    add_head(slots, names, &turns.head)?;
    add_lines(slots, names, &turns.body)
}

#[cycle(slots)]
fn add_branch<N: CodeNames>(
    slots: &mut Vec<Option<usize>>,
    names: &N,
    branch: &Branch,
) -> Result<(), AllocError>
    ensures { OnOk result (slots.new.items ≡ slots.old.items ++ branch_slots (N.looks names.now) (shape_branch branch.now)) }
{
    add_init(slots, names, &branch.head.init)?;
    add_lines(slots, names, &branch.then)?;
    add_else(slots, names, &branch.otherwise)
}

#[cycle(slots)]
fn add_else<N: CodeNames>(
    slots: &mut Vec<Option<usize>>,
    names: &N,
    otherwise: &Otherwise,
) -> Result<(), AllocError>
    ensures { OnOk result (slots.new.items ≡ slots.old.items ++ else_slots (N.looks names.now) (shape_else otherwise.now)) }
{
    match otherwise {
        Otherwise::Nothing => return Ok(()),
        Otherwise::Block(_, _, lines, _) => return add_lines(slots, names, lines),
        Otherwise::If(_, branch) => return add_branch(slots, names, branch),
    }
}

#[cycle(slots)]
fn add_lines<N: CodeNames>(
    slots: &mut Vec<Option<usize>>,
    names: &N,
    lines: &Vec<Line>,
) -> Result<(), AllocError>
    ensures { OnOk result (slots.new.items ≡ slots.old.items ++ lines_slots (N.looks names.now) (lines_of lines.now.items)) }
{
    for line in lines {
        add_stmt(slots, names, &line.stmt)?;
    }
    Ok(())
}

// Adds the parameters of a signature.
fn add_signature(slots: &mut Vec<Option<usize>>, signature: &Signature) -> Result<(), AllocError>
    ensures { OnOk result (slots.new.items ≡ slots.old.items ++ signature_slots (shape_signature signature.now)) }
{
    add_params(slots, &signature.params.entries)
}

/// What the slots of a function or a method are for: its receiver, its parameters, and its local variables but `_`, in order. Each is told by
/// the offset in bytes at which its identifier is declared. Without one are a receiver and a parameter that have no name or the name `_`.
///
/// The Go specification, "Blocks", "Function declarations", "Method declarations", "Variable declarations", "Short variable declarations".
///
/// # Errors
///
/// `AllocError` where memory is wanting.
pub fn slots_of<N: CodeNames>(
    alloc: Global,
    names: &N,
    func: &FuncDecl,
) -> Result<Vec<Option<usize>>, AllocError>
    ensures { IfOk result (λ slots. slots.items ≡ slots_of (N.looks names.now) (func_of func.now)) }
{
    let mut slots = Vec::new(alloc);
    add_receiver(&mut slots, &func.receiver)?;
    add_signature(&mut slots, &func.signature)?;
    add_lines(&mut slots, names, &func.body)?;
    Ok(slots)
}
