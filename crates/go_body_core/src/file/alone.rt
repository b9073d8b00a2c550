//! A run of declarations, checked alone.
ghost use Rattle.std.specs.Prelude.{◌≡◌, IfOk, map};
ghost use Rattle.go_tree_nodes.specs.Shapes.{top_of};
ghost use Rattle.go_body_core.specs.file.Files.{tops_uses, tops_faults, tops_locals};
ghost use Rattle.go_body_core.specs.file.Package.{checked_file_shown};
ghost use Rattle.go_body_core.specs.file.Stands.{stand_of};
ghost use Rattle.go_body_core.specs.file.Runs.{IsRunMade, run_checked};

use crate::file::decls::check_run;
use crate::file::file_at::FileAt;
use crate::file::notes::nothing;
use crate::file::runs::Run;
use crate::file::whole::CheckedFile;
use go_env_core::{Recall, TypesOf};
use go_expr_core::Notes;
use go_typexpr_core::entry::ImportedNames;
use std::alloc::{AllocError, Global};

// What a run of declarations has and breaks, and the locals that it declares.
fn check_fields<'p, P: ImportedNames, K: TypesOf>(
    alloc: Global,
    at: &FileAt<'_, 'p, P>,
    run: &Run<'_, 'p>,
) -> Result<CheckedFile<'p>, AllocError>
    requires table { at.now.scene.now.types.now ≡ K.types }
    requires made { IsRunMade (stand_of P.shows at.now) at.now.initial.now run.now }
    ensures uses { IfOk result (λ c. c.uses.items ≡ tops_uses (stand_of P.shows at.now) (map top_of run.now.decls.now)) }
    ensures faults { IfOk result (λ c. c.faults.items ≡ tops_faults (stand_of P.shows at.now) (map top_of run.now.decls.now)) }
    ensures locals { IfOk result (λ c. c.locals.items ≡ tops_locals (stand_of P.shows at.now) (map top_of run.now.decls.now)) }
{
    let recall: Recall<'p, K> = Recall::new(alloc);
    let mut notes = nothing(alloc);
    let mut locals = Vec::new(alloc);
    check_run(alloc, at, run, &recall, &mut notes, &mut locals)?;
    let Notes { uses, faults } = notes;
    Ok(CheckedFile {
        uses,
        faults,
        locals,
    })
}

/// What a run of declarations has and breaks, with a memory of its own.
///
/// # Errors
///
/// `AllocError` where memory is wanting.
pub(crate) fn check_alone<'p, P: ImportedNames, K: TypesOf>(
    alloc: Global,
    at: &FileAt<'_, 'p, P>,
    run: &Run<'_, 'p>,
) -> Result<CheckedFile<'p>, AllocError>
    requires table { at.now.scene.now.types.now ≡ K.types }
    requires made { IsRunMade (stand_of P.shows at.now) at.now.initial.now run.now }
    ensures { IfOk result (λ c. checked_file_shown c ≡ run_checked (stand_of P.shows at.now) run.now) }
{
    let checked = check_fields::<P, K>(alloc, at, run)?;
    Ok(checked)
}
