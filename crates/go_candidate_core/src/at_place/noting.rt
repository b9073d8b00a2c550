//! What struct types are that an expression writes, by the names that are open where it stands.
ghost use Rattle.std.specs.Prelude.{◌≡◌, is_some, IfOk, map};
ghost use Rattle.go_tree_nodes.specs.Starts.{type_start};
ghost use Rattle.go_tree_nodes.specs.TypeShapes.{shape_type};
ghost use Rattle.go_term_core.specs.Shapes.{shape};
ghost use Rattle.go_term_core.specs.settling.Settled.{settled};
ghost use Rattle.go_body_core.specs.typexpr_core.WrittenWritten.{in_file, term_of};
ghost use Rattle.go_inline_core.specs.Functions.{looked_up_ident};
ghost use Rattle.go_expr_core.specs.local_core.mirrors.Walk as meant;
ghost use Rattle.go_body_core.specs.function.Types.{is_local_meaning};
ghost use Rattle.go_candidate_core.specs.at_place.Locals.{local_shown};
ghost use Rattle.go_candidate_core.specs.at_place.Types.{AreNoted, meaning_around, noted_at, noted_shown};

use crate::at_place::local::{OpenLocal, latest};
use crate::at_place::types::{NotedType, noted_at};
use go_body_core::typexpr_core::{TypeNames, WrittenIn, write_type};
use go_term_core::TypeTerm;
use go_term_core::settling::{Kinds, settle};
use go_tree_nodes::text_core::add;
use go_tree_nodes::{Ident, TypeExpr, TypeName, type_start};
use std::alloc::{AllocError, Global};

// What the names of types mean at a place, by what they mean at the top of its file and by the locals that are open.
#[derive(Drop)]
struct OpenTypes<'a, N> {
    top: &'a N,
    locals: &'a [OpenLocal<'a>],
}

// The identifier of a type's name that is looked up.
fn looked_up(name: &TypeName) -> &Ident
    ensures { result.now ≡ looked_up_ident name.now }
{
    match name {
        TypeName::Plain(ident) => ident,
        TypeName::Qualified(qualifier, _, _) => qualifier,
    }
}

// Whether an identifier names a local that is open.
fn is_hidden(locals: &[OpenLocal<'_>], ident: &Ident) -> bool
    ensures { result ≡ is_local_meaning (meant.latest (map local_shown locals.now) ident.now.name) }
{
    match latest(locals, ident.name.as_str()) {
        Some(_) => true,
        None => false,
    }
}

impl<'a, N: TypeNames> TypeNames for OpenTypes<'a, N> {
    ghost use Rattle.std.specs.Prelude.{map};
    ghost use Rattle.go_candidate_core.specs.at_place.Locals.{local_shown};
    ghost use Rattle.go_candidate_core.specs.at_place.Types.{meaning_around};

    ghost meaning = { λ o. meaning_around (map local_shown o.locals.now) (N.meaning o.top.now) };

    fn named(&self, alloc: Global, name: &TypeName) -> Result<TypeTerm, AllocError> {
        if is_hidden(self.locals, looked_up(name)) {
            return Ok(TypeTerm::NoType);
        }
        self.top.named(alloc, name)
    }
}

// A type as it is written, settled, with its first byte.
fn note_type<N: TypeNames, K: Kinds>(
    alloc: Global,
    names: &N,
    at: &WrittenIn<'_>,
    kinds: &K,
    tree: &TypeExpr,
) -> Result<NotedType, AllocError>
    ensures { IfOk result (λ t. noted_shown t ≡ (type_start (shape_type tree.now), settled (K.kinds kinds.now) (term_of (N.meaning names.now) (in_file at.now) (shape_type tree.now)))) }
{
    let written = write_type(alloc, names, at, tree)?;
    let term = settle(alloc, kinds, &written)?;
    Ok(NotedType {
        start: type_start(tree),
        term,
    })
}

// Whether a type is noted at an offset.
fn is_noted(types: &[NotedType], start: usize) -> bool
    ensures { result ≡ is_some (noted_at (map noted_shown types.now) start) }
{
    noted_at(types, start).is_some()
}

// The types that are written so, each found at its first byte. Want of memory would also be the answer if two of the types began at one byte, as no
// two types of a file do.
fn note_types<N: TypeNames, K: Kinds>(
    alloc: Global,
    names: &N,
    at: &WrittenIn<'_>,
    kinds: &K,
    trees: &[&TypeExpr],
) -> Result<Vec<NotedType>, AllocError>
    ensures { IfOk result (λ types. AreNoted (K.kinds kinds.now) (in_file at.now) (N.meaning names.now) (map (λ t. shape_type t.now) trees.now) (map noted_shown types.items)) }
{
    let mut types = Vec::new(alloc);
    for tree in trees {
        let noted = note_type(alloc, names, at, kinds, *tree)?;
        if is_noted(&types, noted.start) {
            return Err(AllocError);
        }
        add(&mut types, noted)?;
    }
    Ok(types)
}

/// The types that are written so where these locals are open, each found at its first byte, by what names of types mean at the top of the file.
///
/// # Errors
///
/// `AllocError` where memory is wanting. It would also be the answer if two of the types began at one byte, as no two types of a file do.
pub(crate) fn note_open_types<'a, N: TypeNames, K: Kinds>(
    alloc: Global,
    top: &'a N,
    locals: &'a [OpenLocal<'a>],
    at: &WrittenIn<'_>,
    kinds: &K,
    trees: &[&TypeExpr],
) -> Result<Vec<NotedType>, AllocError>
    ensures { IfOk result (λ types. AreNoted (K.kinds kinds.now) (in_file at.now) (meaning_around (map local_shown locals.now) (N.meaning top.now)) (map (λ t. shape_type t.now) trees.now) (map noted_shown types.items)) }
{
    let names = OpenTypes { top, locals };
    note_types(alloc, &names, at, kinds, trees)
}
