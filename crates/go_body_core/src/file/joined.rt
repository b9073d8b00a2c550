//! The check of a file whose declarations are checked in runs at once.
ghost use Rattle.std.specs.Prelude.{◌≡◌, ◌++◌, IfOk, OnOk, map};
ghost use Rattle.std.specs.List.{flat_map};
ghost use Rattle.go_tree_nodes.specs.Shapes.{file_of, top_of};
ghost use Rattle.go_tree_nodes.specs.Spelling.{IsPlaced};
ghost use Rattle.go_body_core.specs.file.Files.{file_faults, file_locals, file_uses, tops_uses, tops_faults, tops_locals};
ghost use Rattle.go_body_core.specs.file.Stands.{AreFunctionTypes, AreInitialTypes, stand_of};
ghost use Rattle.go_body_core.specs.file.mirrors.Steps.{AreMade};

use crate::Local;
use crate::file::decls::check_decls;
use crate::file::file_at::FileAt;
use crate::file::imports::add_imports;
use crate::file::notes::{FileNotes, nothing};
use crate::file::runs::runs_of;
use crate::file::split::check_runs;
use crate::file::whole::CheckedFile;
use go_env_core::{Recall, TypesOf};
use go_expr_core::Notes;
use go_tree_nodes::{File, TopDecl};
use go_typexpr_core::entry::ImportedNames;
use std::alloc::{AllocError, Global};
use std::thread::Threads;

// Notes what a run has and breaks, and adds the locals that it declares.
fn join<'p>(
    run: CheckedFile<'p>,
    notes: &mut FileNotes<'p>,
    declared: &mut Vec<Local<'p>>,
) -> Result<(), AllocError>
    ensures uses { OnOk result (notes.new.uses.items ≡ notes.old.uses.items ++ run.entry.uses.items) }
    ensures faults { OnOk result (notes.new.faults.items ≡ notes.old.faults.items ++ run.entry.faults.items) }
    ensures declared { OnOk result (declared.new.items ≡ declared.old.items ++ run.entry.locals.items) }
{
    let CheckedFile {
        mut uses,
        mut faults,
        mut locals,
    } = run;
    notes.uses.append(&mut uses)?;
    notes.faults.append(&mut faults)?;
    declared.append(&mut locals)
}

// Notes what runs have and break, and adds the locals that they declare, one behind another.
fn gather<'p>(
    runs: Vec<CheckedFile<'p>>,
    notes: &mut FileNotes<'p>,
    declared: &mut Vec<Local<'p>>,
) -> Result<(), AllocError>
    ensures uses { OnOk result (notes.new.uses.items ≡ notes.old.uses.items ++ flat_map (λ c. c.uses.items) runs.entry.items) }
    ensures faults { OnOk result (notes.new.faults.items ≡ notes.old.faults.items ++ flat_map (λ c. c.faults.items) runs.entry.items) }
    ensures declared { OnOk result (declared.new.items ≡ declared.old.items ++ flat_map (λ c. c.locals.items) runs.entry.items) }
{
    for run in runs {
        join(run, notes, declared)?;
    }
    Ok(())
}

// Notes what the declarations of a file have and break, and adds the locals that they declare, one behind another: where they are of several pieces of
// so many bytes, these are checked at once.
fn check_pieces<'p, R: Threads + Sync, P: ImportedNames + Sync, K: TypesOf + Send + Sync>(
    rt: &R,
    alloc: Global,
    bytes: usize,
    at: &FileAt<'_, 'p, P>,
    decls: &[TopDecl],
    recall: &Recall<'p, K>,
    notes: &mut FileNotes<'p>,
    declared: &mut Vec<Local<'p>>,
) -> Result<(), AllocError>
    requires table { at.now.scene.now.types.now ≡ K.types }
    requires made { AreMade (stand_of P.shows at.now) at.now.initial.now at.now.functions.now (map top_of decls.now) }
    ensures uses { OnOk result (notes.new.uses.items ≡ notes.old.uses.items ++ tops_uses (stand_of P.shows at.now) (map top_of decls.now)) }
    ensures faults { OnOk result (notes.new.faults.items ≡ notes.old.faults.items ++ tops_faults (stand_of P.shows at.now) (map top_of decls.now)) }
    ensures declared { OnOk result (declared.new.items ≡ declared.old.items ++ tops_locals (stand_of P.shows at.now) (map top_of decls.now)) }
{
    let runs = runs_of(alloc, decls, at.functions, bytes)?;
    if runs.len() < 2 {
        return check_decls(alloc, at, decls, recall, notes, declared);
    }
    let checked = check_runs::<R, P, K>(rt, alloc, at, runs.as_slice())?;
    gather(checked, notes, declared)
}

/// Checks a file of a package, as [`check_file`](crate::file::check_file) does. Where its declarations are of several pieces of so many bytes of source,
/// these are checked at once, each with a memory of its own; the answer is the same.
///
/// # Errors
///
/// `AllocError` where memory is wanting, or a thread.
pub fn check_file_at_once<
    'n,
    'p,
    R: Threads + Sync,
    P: ImportedNames + Sync,
    K: TypesOf + Send + Sync,
>(
    rt: &R,
    alloc: Global,
    bytes: usize,
    at: &FileAt<'n, 'p, P>,
    tree: &File,
    recall: &Recall<'p, K>,
) -> Result<CheckedFile<'p>, AllocError>
    requires table { at.now.scene.now.types.now ≡ K.types }
    requires placed { IsPlaced (file_of tree.now) }
    requires initial { AreInitialTypes (stand_of P.shows at.now) (file_of tree.now) at.now.initial.now }
    requires functions { AreFunctionTypes (stand_of P.shows at.now) (file_of tree.now) at.now.functions.now }
    ensures uses { IfOk result (λ c. c.uses.items ≡ file_uses (stand_of P.shows at.now) at.now.imports.now (file_of tree.now)) }
    ensures faults { IfOk result (λ c. c.faults.items ≡ file_faults (stand_of P.shows at.now) (file_of tree.now)) }
    ensures locals { IfOk result (λ c. c.locals.items ≡ file_locals (stand_of P.shows at.now) (file_of tree.now)) }
{
    let mut notes = nothing(alloc);
    add_imports(alloc, &tree.imports, at.imports, &mut notes.uses)?;
    let mut locals = Vec::new(alloc);
    let decls = tree.decls.as_slice();
    check_pieces(rt, alloc, bytes, at, decls, recall, &mut notes, &mut locals)?;
    let Notes { uses, faults } = notes;
    Ok(CheckedFile {
        uses,
        faults,
        locals,
    })
}
