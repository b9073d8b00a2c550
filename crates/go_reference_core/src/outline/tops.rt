//! The declarations of a file.
ghost use Rattle.std.specs.Prelude.{◌≡◌, ◌++◌, IfOk, OnOk, map};
ghost use Rattle.std.specs.List.{flat_map};
ghost use Rattle.go_tree_nodes.specs.Shapes.{file_of, func_of, shape_type_decl, shape_type_spec, shape_value, shape_value_spec, top_of};
ghost use Rattle.go_tree_nodes.specs.TypeShapes.{shape_type};
ghost use Rattle.go_reference_core.specs.outline.Outlines.{entry_shown, func_entries, kind_of_func, kind_of_type, kind_of_value, outline_of, top_entries, type_spec_entries, types_entries, value_spec_entries, values_entries};
ghost use Rattle.go_reference_core.specs.outline.mirrors.Lines.{type_line_entries, value_line_entries};

use crate::outline::items::{Entry, EntryKind, Extent, add_names, named, put};
use crate::outline::members::{add_members, line_end};
use go_tree_nodes::{
    Decl, File, FuncDecl, Receiver, TopDecl, TypeDecl, TypeExpr, TypeLine, TypeSpec, TypeSpecs,
    ValueDecl, ValueKind, ValueLine, ValueSpec, ValueSpecs,
};
use std::alloc::{AllocError, Global};

// What a type is, by how it is written.
fn kind_of_type(type_expr: &TypeExpr) -> EntryKind
    ensures { result ≡ kind_of_type (shape_type type_expr.now) }
{
    match type_expr {
        TypeExpr::Name(_) => EntryKind::Named,
        TypeExpr::Pointer(_, _) => EntryKind::Named,
        TypeExpr::Paren(_, _, _) => EntryKind::Named,
        TypeExpr::Struct(_, _, _, _) => EntryKind::Struct,
        TypeExpr::Interface(_, _, _, _) => EntryKind::Interface,
    }
}

// What a declaration of values declares.
fn kind_of_value(kind: ValueKind) -> EntryKind
    ensures { result ≡ kind_of_value kind }
{
    match kind {
        ValueKind::Const => EntryKind::Constant,
        ValueKind::Var => EntryKind::Variable,
    }
}

// What a function is: a method where it has a receiver.
fn kind_of_func(receiver: &Option<Receiver>) -> EntryKind
    ensures { result ≡ kind_of_func receiver.now }
{
    match receiver {
        None => EntryKind::Function,
        Some(_) => EntryKind::Method,
    }
}

// Adds the names of a specification of values that takes a part.
fn add_value<'t>(
    entries: &mut Vec<Entry<'t>>,
    kind: ValueKind,
    spec: &'t ValueSpec,
    part: Extent,
) -> Result<(), AllocError>
    ensures { OnOk result (map entry_shown entries.new.items ≡ map entry_shown entries.old.items ++ value_spec_entries kind part.start part.end (shape_value_spec spec.now)) }
{
    add_names(entries, &spec.names, kind_of_value(kind), false, part)
}

// Adds the names of a line of a group that ends at an offset.
fn add_value_line<'t>(
    entries: &mut Vec<Entry<'t>>,
    kind: ValueKind,
    line: &'t ValueLine,
    end: usize,
) -> Result<(), AllocError>
    ensures { OnOk result (map entry_shown entries.new.items ≡ map entry_shown entries.old.items ++ value_line_entries kind end line.now) }
{
    let start = line.spec.names.first.span.start as usize;
    let end = line_end(&line.semicolon, end);
    add_value(entries, kind, &line.spec, Extent { start, end })
}

// Adds the names of the lines of a group that ends at an offset.
fn add_value_lines<'t>(
    entries: &mut Vec<Entry<'t>>,
    kind: ValueKind,
    lines: &'t Vec<ValueLine>,
    end: usize,
) -> Result<(), AllocError>
    ensures { OnOk result (map entry_shown entries.new.items ≡ map entry_shown entries.old.items ++ flat_map (value_line_entries kind end) lines.now.items) }
{
    for line in lines {
        add_value_line(entries, kind, line, end)?;
    }
    Ok(())
}

// Adds the names of a declaration of values that ends at an offset.
fn add_values<'t>(
    entries: &mut Vec<Entry<'t>>,
    decl: &'t ValueDecl,
    end: usize,
) -> Result<(), AllocError>
    ensures { OnOk result (map entry_shown entries.new.items ≡ map entry_shown entries.old.items ++ values_entries end (shape_value decl.now)) }
{
    match &decl.specs {
        ValueSpecs::One(spec) => {
            let start = decl.keyword.start as usize;
            add_value(entries, decl.kind, spec, Extent { start, end })
        }
        ValueSpecs::Group(_, lines, close) => {
            add_value_lines(entries, decl.kind, lines, close.start as usize)
        }
    }
}

// Adds the name of a specification of a type that takes a part, and the members that the type writes.
fn add_type<'t>(
    entries: &mut Vec<Entry<'t>>,
    spec: &'t TypeSpec,
    part: Extent,
) -> Result<(), AllocError>
    ensures { OnOk result (map entry_shown entries.new.items ≡ map entry_shown entries.old.items ++ type_spec_entries part.start part.end (shape_type_spec spec.now)) }
{
    let kind = kind_of_type(&spec.type_expr);
    put(entries, named(&spec.name, kind, false, part))?;
    add_members(entries, &spec.type_expr)
}

// Adds the name of a line of a group that ends at an offset, and the members that its type writes.
fn add_type_line<'t>(
    entries: &mut Vec<Entry<'t>>,
    line: &'t TypeLine,
    end: usize,
) -> Result<(), AllocError>
    ensures { OnOk result (map entry_shown entries.new.items ≡ map entry_shown entries.old.items ++ type_line_entries end line.now) }
{
    let start = line.spec.name.span.start as usize;
    let end = line_end(&line.semicolon, end);
    add_type(entries, &line.spec, Extent { start, end })
}

// Adds the names of the lines of a group that ends at an offset, and the members that their types write.
fn add_type_lines<'t>(
    entries: &mut Vec<Entry<'t>>,
    lines: &'t Vec<TypeLine>,
    end: usize,
) -> Result<(), AllocError>
    ensures { OnOk result (map entry_shown entries.new.items ≡ map entry_shown entries.old.items ++ flat_map (type_line_entries end) lines.now.items) }
{
    for line in lines {
        add_type_line(entries, line, end)?;
    }
    Ok(())
}

// Adds the names of a declaration of types that ends at an offset.
fn add_types<'t>(
    entries: &mut Vec<Entry<'t>>,
    decl: &'t TypeDecl,
    end: usize,
) -> Result<(), AllocError>
    ensures { OnOk result (map entry_shown entries.new.items ≡ map entry_shown entries.old.items ++ types_entries end (shape_type_decl decl.now)) }
{
    match &decl.specs {
        TypeSpecs::One(spec) => {
            let start = decl.keyword.start as usize;
            add_type(entries, spec, Extent { start, end })
        }
        TypeSpecs::Group(_, lines, close) => add_type_lines(entries, lines, close.start as usize),
    }
}

// Adds the name of a function that ends at an offset.
fn add_func<'t>(
    entries: &mut Vec<Entry<'t>>,
    func: &'t FuncDecl,
    end: usize,
) -> Result<(), AllocError>
    ensures { OnOk result (map entry_shown entries.new.items ≡ map entry_shown entries.old.items ++ func_entries end (func_of func.now)) }
{
    let kind = kind_of_func(&func.receiver);
    put(
        entries,
        Entry {
            ident: &func.name,
            kind,
            is_member: false,
            start: func.func.start as usize,
            end,
            head_end: func.open_brace.start as usize,
        },
    )
}

// Adds what a declaration declares.
fn add_top<'t>(entries: &mut Vec<Entry<'t>>, top: &'t TopDecl) -> Result<(), AllocError>
    ensures { OnOk result (map entry_shown entries.new.items ≡ map entry_shown entries.old.items ++ top_entries (top_of top.now)) }
{
    let end = top.semicolon.start as usize;
    match &top.decl {
        Decl::Value(decl) => add_values(entries, decl, end),
        Decl::Type(decl) => add_types(entries, decl, end),
        Decl::Func(func) => add_func(entries, func, end),
    }
}

/// What a file declares outside functions, in order of place: constants, variables, types, functions and methods, and after a type the fields or methods that it
/// writes. A declaration ends at the semicolon after it, be it written or not, one of a group at the end of its line or of the group.
///
/// The Go specification, "Declarations and scope", "Struct types", "Interface types".
///
/// # Errors
///
/// `AllocError` where memory is wanting.
pub fn entries<'t>(alloc: Global, tree: &'t File) -> Result<Vec<Entry<'t>>, AllocError>
    ensures { IfOk result (λ entries. map entry_shown entries.items ≡ outline_of (file_of tree.now)) }
{
    let mut entries = Vec::new(alloc);
    for top in &tree.decls {
        add_top(&mut entries, top)?;
    }
    Ok(entries)
}
