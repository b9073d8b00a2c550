//! What types are that are written inside functions and in initialisers, and what is broken in them.
ghost use Rattle.std.specs.Prelude.{◌≡◌, ◌++◌, map, IfOk, OnOk, false};
ghost use Rattle.go_tree_nodes.specs.TypeShapes.{shape_type};
ghost use Rattle.go_term_core.specs.Shapes.{shape};
ghost use Rattle.go_term_core.specs.settling.Settled.{settled};
ghost use Rattle.go_embed_core.specs.Faults.{term_faults};
ghost use Rattle.go_typexpr_core.specs.written.Written.{in_file};
ghost use Rattle.go_inline_core.specs.Types.{inline_shown};
ghost use Rattle.go_inline_core.specs.Inline as inline;

use crate::listing::TypeList;
use crate::repeated::repeated_params;
use crate::types::{InlineType, Note};
use go_embed_core::{MemberFault, check_struct};
use go_names_core::local_core::Fault;
use go_term_core::decl_core::Places;
use go_term_core::settling::{Kinds, settle};
use go_term_core::{MemberPlace, TypeTerm};
use go_tree_nodes::text_core::add;
use go_tree_nodes::{TypeExpr, type_start};
use go_typexpr_core::written::{TypeNames, WrittenIn, write_type};
use std::alloc::{AllocError, Global};

// The offset in bytes of a member's identifier.
fn offset_of(places: &Places, place: MemberPlace) -> usize
    ensures { result ≡ inline.member_offset places.now place }
{
    match place {
        MemberPlace::Local(local) => local.offset,
        MemberPlace::Declared(decl) => match places.place(decl.number) {
            Some(found) => found.at,
            None => 0,
        },
    }
}

// Adds the faults of members, each at its identifier.
fn add_members(
    places: &Places,
    members: &[MemberFault],
    faults: &mut Vec<Fault>,
) -> Result<(), AllocError>
    ensures { OnOk result (faults.new.items ≡ faults.old.items ++ map (inline.located_fault places.now) members.now) }
{
    for member in members {
        let fault = Fault {
            offset: offset_of(places, member.place),
            rule: member.rule,
        };
        add(faults, fault)?;
    }
    Ok(())
}

// Adds faults behind others.
fn add_faults(more: &[Fault], faults: &mut Vec<Fault>) -> Result<(), AllocError>
    ensures { OnOk result (faults.new.items ≡ faults.old.items ++ more.now) }
{
    for fault in more {
        add(faults, *fault)?;
    }
    Ok(())
}

// The faults of a type, as it is written.
fn type_faults<K: Kinds>(
    alloc: Global,
    places: &Places,
    kinds: &K,
    tree: &TypeExpr,
    term: &TypeTerm,
) -> Result<Vec<Fault>, AllocError>
    ensures { IfOk result (λ faults. faults.items ≡ map (inline.located_fault places.now) (term_faults (K.kinds kinds.now) (shape term.now)) ++ inline.repeated_params (shape_type tree.now)) }
{
    let members = check_struct(alloc, kinds, term)?;
    let repeated = repeated_params(alloc, tree)?;
    let mut faults = Vec::new(alloc);
    add_members(places, members.as_slice(), &mut faults)?;
    add_faults(repeated.as_slice(), &mut faults)?;
    Ok(faults)
}

// A type, settled, with its faults.
fn settle_type<K: Kinds>(
    alloc: Global,
    places: &Places,
    kinds: &K,
    tree: &TypeExpr,
    term: &TypeTerm,
) -> Result<InlineType, AllocError>
    ensures term { IfOk result (λ t. shape t.term ≡ settled (K.kinds kinds.now) (shape term.now)) }
    ensures faults { IfOk result (λ t. t.faults.items ≡ map (inline.located_fault places.now) (term_faults (K.kinds kinds.now) (shape term.now)) ++ inline.repeated_params (shape_type tree.now)) }
{
    let faults = type_faults(alloc, places, kinds, tree, term)?;
    let term = settle(alloc, kinds, term)?;
    Ok(InlineType { term, faults })
}

// What a type is that is written, and what is broken in it.
fn inline_type<N: TypeNames, K: Kinds>(
    alloc: Global,
    names: &N,
    at: &WrittenIn<'_>,
    kinds: &K,
    tree: &TypeExpr,
) -> Result<InlineType, AllocError>
    ensures { IfOk result (λ t. inline_shown t ≡ inline.inline_of (K.kinds kinds.now) (in_file at.now) (N.meaning names.now) (shape_type tree.now)) }
{
    let term = write_type(alloc, names, at, tree)?;
    settle_type(alloc, at.places, kinds, tree, &term)
}

// The same, with the type's first byte.
fn note_type<N: TypeNames, K: Kinds>(
    alloc: Global,
    names: &N,
    at: &WrittenIn<'_>,
    kinds: &K,
    tree: &TypeExpr,
) -> Result<Note, AllocError>
    ensures { IfOk result (λ n. n ≡ inline.inline_with (K.kinds kinds.now) (in_file at.now) (N.meaning names.now) (shape_type tree.now)) }
{
    let inline = inline_type(alloc, names, at, kinds, tree)?;
    Ok(Note::new(type_start(tree), inline))
}

/// Notes types that were listed, if memory was there to list all.
///
/// # Errors
///
/// `AllocError` where memory is wanting, or was.
pub(crate) fn note_types<N: TypeNames, K: Kinds>(
    alloc: Global,
    names: &N,
    at: &WrittenIn<'_>,
    kinds: &K,
    list: &TypeList<'_>,
    notes: &mut Vec<Note>,
) -> Result<(), AllocError>
    ensures memory { OnOk result (list.now.lacks_memory ≡ false) }
    ensures notes { OnOk result (notes.new.items ≡ notes.old.items ++ inline.inlines (K.kinds kinds.now) (in_file at.now) (N.meaning names.now) (map (λ t. shape_type t.now) list.now.trees.items)) }
{
    if list.lacks_memory {
        return Err(AllocError);
    }
    for tree in &list.trees {
        let note = note_type(alloc, names, at, kinds, tree)?;
        add(notes, note)?;
    }
    Ok(())
}
