//! What is noted of the pieces of a function.
ghost use Rattle.std.specs.Prelude.{◌≡◌, [], ◌∷◌, ◌++◌, IfOk, OnOk, map};
ghost use Rattle.go_body_core.specs.Notes.{note, all_uses, noted_faults, all_locals};
ghost use Rattle.go_body_core.specs.Rules.{declared_among, locals_of};

use crate::body::CheckedBody;
use crate::locals::{Local, declared_locals, locals};
use go_env_core::Meaning;
use go_expr_core::{Notes, Use};
use go_handle_core::{Decl, TypeRef};
use go_operand_core::Operand;
use go_select_core::EmbedPath;
use go_text_core::add;
use go_tree_nodes::Ident;
use std::alloc::{AllocError, Global};
use std::marker::Model;

/// What an occurrence has: an identifier at its first byte, or a call at its opening parenthesis.
pub type BodyUse<'p> = Use<Decl<'p>, EmbedPath>;

/// What is noted of one piece. Contracts see the three lists.
#[derive(Drop)]
pub struct Note<'p> {
    notes: Notes<Decl<'p>, EmbedPath>,
    locals: Vec<Local<'p>>,
}

impl<'p> Model for Note<'p> {
    ghost use Rattle.std.specs.Coded.{codes};
    ghost use Rattle.go_body_core.specs.Notes.{NoteOf, note};
    ghost use Rattle.go_body_core.specs.codes.NoteCodes.{coded_local};

    ghost Value = { NoteOf };

    ghost coded = { Prim.hlevel (codes, coded_local) };

    ghost view = { λ n. note n.notes.uses.items n.notes.faults.items n.locals.items };
}

/// Nothing noted yet.
pub(crate) fn nothing<'p>(alloc: Global) -> Notes<Decl<'p>, EmbedPath>
    ensures uses { result.uses.items ≡ [] }
    ensures faults { result.faults.items ≡ [] }
{
    Notes {
        uses: Vec::new(alloc),
        faults: Vec::new(alloc),
    }
}

/// Adds what was noted of one piece, with the locals that it declares.
pub(crate) fn add_note<'p>(
    list: &mut Vec<Note<'p>>,
    notes: Notes<Decl<'p>, EmbedPath>,
    locals: Vec<Local<'p>>,
) -> Result<(), AllocError>
    ensures { OnOk result (list.new.items ≡ list.old.items ++ note notes.entry.uses.items notes.entry.faults.items locals.entry.items ∷ []) }
{
    add(list, Note { notes, locals })
}

/// Adds what was noted of a piece that declares names, with the locals that these are, and answers what the names mean. By which of the names are
/// the first of their block, and by what they stand for.
pub(crate) fn declare<'p>(
    alloc: Global,
    idents: &[&Ident],
    firsts: &[bool],
    values: Vec<Option<Operand<TypeRef<'p>>>>,
    notes: Notes<Decl<'p>, EmbedPath>,
    list: &mut Vec<Note<'p>>,
) -> Result<Vec<Meaning<'p>>, AllocError>
    ensures noted { OnOk result (list.new.items ≡ list.old.items ++ note notes.entry.uses.items notes.entry.faults.items (declared_among firsts.now (locals_of (map (λ i. i.now) idents.now) values.entry.items)) ∷ []) }
    ensures means { IfOk result (λ means. means.items ≡ locals_of (map (λ i. i.now) idents.now) values.entry.items) }
{
    let means = locals(alloc, idents, values)?;
    let declared = declared_locals(alloc, firsts, means.as_slice())?;
    add_note(list, notes, declared)?;
    Ok(means)
}

// Adds what was noted of one piece to what was noted of those before it.
fn join<'p>(all: &mut CheckedBody<'p>, next: Note<'p>) -> Result<(), AllocError>
    ensures uses { OnOk result (all.new.uses.items ≡ all.old.uses.items ++ next.entry.uses) }
    ensures faults { OnOk result (all.new.faults.items ≡ all.old.faults.items ++ next.entry.faults) }
    ensures locals { OnOk result (all.new.locals.items ≡ all.old.locals.items ++ next.entry.locals) }
{
    let Note { notes, mut locals } = next;
    let Notes {
        mut uses,
        mut faults,
    } = notes;
    all.uses.append(&mut uses)?;
    all.faults.append(&mut faults)?;
    all.locals.append(&mut locals)
}

/// What was noted of pieces, in order.
pub(crate) fn joined<'p>(alloc: Global, notes: Vec<Note<'p>>) -> Result<CheckedBody<'p>, AllocError>
    ensures uses { IfOk result (λ all. all.uses.items ≡ all_uses notes.entry.items) }
    ensures faults { IfOk result (λ all. all.faults.items ≡ noted_faults notes.entry.items) }
    ensures locals { IfOk result (λ all. all.locals.items ≡ all_locals notes.entry.items) }
{
    let mut all = CheckedBody {
        uses: Vec::new(alloc),
        faults: Vec::new(alloc),
        locals: Vec::new(alloc),
    };
    for next in notes {
        join(&mut all, next)?;
    }
    Ok(all)
}
