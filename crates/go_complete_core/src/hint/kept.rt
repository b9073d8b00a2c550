//! The locals that are open at a place, by what is kept of the locals of its file.
ghost use Rattle.std.specs.Prelude.{◌≡◌, IfOk, map};
ghost use Rattle.std.specs.Option.{option_map};
ghost use Rattle.go_candidate_core.specs.declared_core.Faces.{operand_shown};
ghost use Rattle.go_package_core.specs.Checked.{local_shown};
ghost use Rattle.go_candidate_core.specs.at_place.Locals as around;
ghost use Rattle.go_complete_core.specs.hint.Kept.{kept_at, meant_by, open_by};

use go_candidate_core::at_place::OpenLocal;
use go_cursor_core::operand_core::Operand;
use go_package_core::report_core::HeldLocal;
use go_term_core::TypeTerm;
use go_tree_nodes::Ident;
use go_tree_nodes::text_core::add;
use std::alloc::{AllocError, Global};

// What the first local at an offset stands for, if there is one.
fn kept_at(kept: &[HeldLocal], offset: usize) -> Option<&Option<Operand<TypeTerm>>>
    ensures { option_map (λ v. option_map operand_shown v.now) result ≡ kept_at (map local_shown kept.now) offset }
{
    for local in kept {
        if local.offset == offset {
            return Some(local.value());
        }
    }
    None
}

// The local of an identifier, with what is kept of it.
fn open_local<'p>(
    alloc: Global,
    kept: &'p [HeldLocal],
    ident: &Ident,
) -> Result<OpenLocal<'p>, AllocError>
    ensures { IfOk result (λ local. around.local_shown local ≡ meant_by (map local_shown kept.now) ident.now) }
{
    let offset = ident.span.start as usize;
    match kept_at(kept, offset) {
        Some(value) => Ok(OpenLocal {
            name: ident.name.copy(alloc)?,
            offset,
            value,
        }),
        None => Err(AllocError),
    }
}

/// The locals of these identifiers, in their order, with what is kept of them.
///
/// # Errors
///
/// `AllocError` where memory is wanting. It would also be the answer if nothing were kept of one, as something is of each local of a checked file.
pub(crate) fn open_locals<'p>(
    alloc: Global,
    kept: &'p [HeldLocal],
    idents: &[&Ident],
) -> Result<Vec<OpenLocal<'p>>, AllocError>
    ensures { IfOk result (λ locals. map around.local_shown locals.items ≡ open_by (map local_shown kept.now) (map (λ x. x.now) idents.now)) }
{
    let mut locals = Vec::new(alloc);
    for ident in idents {
        let local = open_local(alloc, kept, *ident)?;
        add(&mut locals, local)?;
    }
    Ok(locals)
}
