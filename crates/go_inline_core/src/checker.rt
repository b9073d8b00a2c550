//! The checker that notes the types that are written in a function.

ghost use Rattle.std.specs.Prelude.{◌≡◌, ◌++◌, false, map, IfOk, OnOk};
ghost use Rattle.go_tree_nodes.specs.TypeShapes.{shape_type};
ghost use Rattle.go_names_core.specs.Scope.{open_look};
ghost use Rattle.go_typexpr_core.specs.written.Written.{in_file};
ghost use Rattle.go_inline_core.specs.Functions.{inlines_in, scoped_outside};

use crate::listing::{
    TypeList, list_expr, list_exprs, list_signature, list_simple, list_some_exprs, list_spec,
};
use crate::making::note_types;
use crate::scoped::{Scoped, ScopedNames};
use crate::types::Note;
use go_names_core::{Checker, OpenNames, header_idents, listed_idents};
use go_term_core::settling::Kinds;
use go_tree_nodes::text_core::Span;
use go_tree_nodes::{Definition, Expr, Exprs, FuncDecl, Ident, Simple, ValueKind, ValueSpec};
use go_typexpr_core::written::{TypeNames, WrittenIn};
use std::alloc::{AllocError, Global};

/// Notes the types of each piece, with what they are there, by what names of types mean at the top of the file.
#[derive(Drop)]
pub(crate) struct InlineChecker<'a, N, K> {
    pub(crate) alloc: Global,
    pub(crate) top: &'a N,
    pub(crate) at: &'a WrittenIn<'a>,
    pub(crate) kinds: &'a K,
}

impl<'a, N: TypeNames, K: Kinds> InlineChecker<'a, N, K> {
    // Notes types that were listed, where these names are open.
    fn note(
        &self,
        names: &OpenNames<Scoped>,
        list: &TypeList<'_>,
        notes: &mut Vec<Note>,
    ) -> Result<(), AllocError>
        ensures memory { OnOk result (list.now.lacks_memory ≡ false) }
        ensures notes { OnOk result (notes.new.items ≡ notes.old.items ++ inlines_in (K.kinds self.now.kinds.now) (in_file self.now.at.now) (N.meaning self.now.top.now) (open_look scoped_outside names.now) (map (λ t. shape_type t.now) list.now.trees.items)) }
    {
        note_under(
            self.alloc, self.top, self.at, self.kinds, names, list, notes,
        )
    }
}

// Notes types that were listed, where these names are open.
fn note_under<'a, N: TypeNames, K: Kinds>(
    alloc: Global,
    top: &'a N,
    at: &WrittenIn<'_>,
    kinds: &K,
    names: &'a OpenNames<'a, Scoped>,
    list: &TypeList<'_>,
    notes: &mut Vec<Note>,
) -> Result<(), AllocError>
    ensures memory { OnOk result (list.now.lacks_memory ≡ false) }
    ensures notes { OnOk result (notes.new.items ≡ notes.old.items ++ inlines_in (K.kinds kinds.now) (in_file at.now) (N.meaning top.now) (open_look scoped_outside names.now) (map (λ t. shape_type t.now) list.now.trees.items)) }
{
    let scoped = ScopedNames { top, names };
    note_types(alloc, &scoped, at, kinds, list, notes)
}

// Each of some identifiers is a local.
fn locals(alloc: Global, idents: &[&Ident]) -> Result<Vec<Scoped>, AllocError>
    ensures { IfOk result (λ locals. locals.items ≡ map (λ i. Scoped.Local) idents.now) }
{
    let mut locals = Vec::new(alloc);
    for _ in idents {
        locals.push(Scoped::Local)?;
    }
    Ok(locals)
}

impl<'a, N: TypeNames, K: Kinds> Checker for InlineChecker<'a, N, K> {
    type Meaning = Scoped;

    type Note = Note;

    ghost use Rattle.go_typexpr_core.specs.written.Written.{in_file};
    ghost use Rattle.go_inline_core.specs.Functions.{inline_note_rules};
    ghost use Rattle.go_inline_core.specs.mirrors.Alike.{inlines_alike};

    ghost rules = { λ c. inline_note_rules (K.kinds c.kinds.now) (in_file c.at.now) (N.meaning c.top.now) };

    fn check_header(
        &self,
        names: &OpenNames<Scoped>,
        func: &FuncDecl,
        _: &[bool],
        notes: &mut Vec<Note>,
    ) -> Result<Vec<Scoped>, AllocError> {
        let mut list = TypeList::new(self.alloc);
        list_signature(&func.signature, &mut list);
        self.note(names, &list, notes)?;
        let idents = header_idents(self.alloc, func)?;
        locals(self.alloc, idents.as_slice())
    }

    fn check_spec(
        &self,
        names: &OpenNames<Scoped>,
        _: ValueKind,
        spec: &ValueSpec,
        _: &[bool],
        notes: &mut Vec<Note>,
    ) -> Result<Vec<Scoped>, AllocError> {
        let mut list = TypeList::new(self.alloc);
        list_spec(spec, &mut list);
        self.note(names, &list, notes)?;
        let idents = listed_idents(self.alloc, &spec.names)?;
        locals(self.alloc, idents.as_slice())
    }

    fn check_short(
        &self,
        names: &OpenNames<Scoped>,
        definition: &Definition,
        _: &[bool],
        notes: &mut Vec<Note>,
    ) -> Result<Vec<Scoped>, AllocError> {
        let mut list = TypeList::new(self.alloc);
        list_exprs(&definition.values, &mut list);
        self.note(names, &list, notes)?;
        let idents = listed_idents(self.alloc, &definition.names)?;
        locals(self.alloc, idents.as_slice())
    }

    fn check_simple(
        &self,
        names: &OpenNames<Scoped>,
        simple: &Simple,
        notes: &mut Vec<Note>,
    ) -> Result<(), AllocError> {
        let mut list = TypeList::new(self.alloc);
        list_simple(simple, &mut list);
        self.note(names, &list, notes)
    }

    fn check_condition(
        &self,
        names: &OpenNames<Scoped>,
        condition: &Expr,
        notes: &mut Vec<Note>,
    ) -> Result<(), AllocError> {
        let mut list = TypeList::new(self.alloc);
        list_expr(condition, &mut list);
        self.note(names, &list, notes)
    }

    fn check_given(
        &self,
        names: &OpenNames<Scoped>,
        _: Span,
        values: &Option<Box<Exprs>>,
        notes: &mut Vec<Note>,
    ) -> Result<(), AllocError> {
        let mut list = TypeList::new(self.alloc);
        list_some_exprs(values, &mut list);
        self.note(names, &list, notes)
    }

    ghost at_names = { λ c. inlines_alike (K.kinds c.kinds.now) (in_file c.at.now) (N.meaning c.top.now) };
}
