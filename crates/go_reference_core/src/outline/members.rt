//! The fields and methods that a type writes.
ghost use Rattle.std.specs.Prelude.{◌≡◌, ◌++◌, [], ◌∷◌, OnOk, map};
ghost use Rattle.go_tree_nodes.specs.TypeShapes.{fields_of, methods_of, shape_type};
ghost use Rattle.go_reference_core.specs.outline.Outlines.{embedded_entry, entry_shown, field_entries, fields_entries, line_end, members_of, methods_entries};
ghost use Rattle.go_reference_core.specs.outline.mirrors.Lines.{method_line_entries};

use crate::outline::items::{Entry, EntryKind, Extent, add_names, named, put};
use go_path_core::text_core::Span;
use go_term_core::decl_core::last_ident;
use go_tree_nodes::{FieldLine, Fields, MethodLine, TypeExpr, TypeName};
use std::alloc::AllocError;

/// Where a line of a group ends: at its semicolon, or else at the end of the group.
pub(crate) fn line_end(semicolon: &Option<Span>, end: usize) -> usize
    ensures { result ≡ line_end semicolon.now end }
{
    match semicolon {
        Some(span) => span.start as usize,
        None => end,
    }
}

// Adds an embedded field, whose line ends at an offset. Its name is the last identifier of its type's name.
fn add_embedded<'t>(
    entries: &mut Vec<Entry<'t>>,
    name: &'t TypeName,
    end: usize,
) -> Result<(), AllocError>
    ensures { OnOk result (map entry_shown entries.new.items ≡ map entry_shown entries.old.items ++ embedded_entry name.now end ∷ []) }
{
    let ident = last_ident(name);
    let start = ident.span.start as usize;
    put(
        entries,
        named(ident, EntryKind::Field, true, Extent { start, end }),
    )
}

// Adds the fields of a line that ends at an offset.
fn add_fields<'t>(
    entries: &mut Vec<Entry<'t>>,
    fields: &'t Fields,
    end: usize,
) -> Result<(), AllocError>
    ensures { OnOk result (map entry_shown entries.new.items ≡ map entry_shown entries.old.items ++ field_entries fields.now end) }
{
    match fields {
        Fields::Named(idents, _) => {
            let start = idents.first.span.start as usize;
            add_names(
                entries,
                idents,
                EntryKind::Field,
                true,
                Extent { start, end },
            )
        }
        Fields::Embedded(_, name) => add_embedded(entries, name, end),
    }
}

// Adds the fields of a struct type that ends at an offset.
fn add_struct<'t>(
    entries: &mut Vec<Entry<'t>>,
    lines: &'t Vec<FieldLine>,
    end: usize,
) -> Result<(), AllocError>
    ensures { OnOk result (map entry_shown entries.new.items ≡ map entry_shown entries.old.items ++ fields_entries end (fields_of lines.now.items)) }
{
    for line in lines {
        add_fields(entries, &line.fields, line_end(&line.semicolon, end))?;
    }
    Ok(())
}

// Adds a method of an interface type that ends at an offset.
fn add_method<'t>(
    entries: &mut Vec<Entry<'t>>,
    line: &'t MethodLine,
    end: usize,
) -> Result<(), AllocError>
    ensures { OnOk result (map entry_shown entries.new.items ≡ map entry_shown entries.old.items ++ method_line_entries end line.now) }
{
    let end = line_end(&line.semicolon, end);
    let start = line.name.span.start as usize;
    put(
        entries,
        named(&line.name, EntryKind::Method, true, Extent { start, end }),
    )
}

// Adds the methods of an interface type that ends at an offset.
fn add_interface<'t>(
    entries: &mut Vec<Entry<'t>>,
    lines: &'t Vec<MethodLine>,
    end: usize,
) -> Result<(), AllocError>
    ensures { OnOk result (map entry_shown entries.new.items ≡ map entry_shown entries.old.items ++ methods_entries end (methods_of lines.now.items)) }
{
    for line in lines {
        add_method(entries, line, end)?;
    }
    Ok(())
}

/// Adds the fields or methods that a type writes.
pub(crate) fn add_members<'t>(
    entries: &mut Vec<Entry<'t>>,
    type_expr: &'t TypeExpr,
) -> Result<(), AllocError>
    ensures { OnOk result (map entry_shown entries.new.items ≡ map entry_shown entries.old.items ++ members_of (shape_type type_expr.now)) }
{
    match type_expr {
        TypeExpr::Name(_) => Ok(()),
        TypeExpr::Pointer(_, _) => Ok(()),
        TypeExpr::Paren(_, _, _) => Ok(()),
        TypeExpr::Struct(_, _, lines, close) => add_struct(entries, lines, close.start as usize),
        TypeExpr::Interface(_, _, lines, close) => {
            add_interface(entries, lines, close.start as usize)
        }
    }
}
