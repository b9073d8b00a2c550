//! Files of a package that are checked, one behind another.
ghost use Rattle.std.specs.Prelude.{◌≡◌, ◌++◌, All, ℕ, List, IfOk, drop, map};
ghost use Rattle.std.specs.List.{AllZip};
ghost use Rattle.go_term_core.specs.decl_core.Shown.{decl_shown};
ghost use Rattle.go_report_core.specs.handle_core.Declarations.{Declaration};
ghost use Rattle.go_report_core.specs.Faults.{IsSettled};
ghost use Rattle.go_report_core.specs.answer.Outer.{outer_faults};
ghost use Rattle.go_package_core.specs.Checked.{answers_shown, local_shown};
ghost use Rattle.go_package_core.specs.Tasks.{IsAnswered, IsTask};

use crate::checked::FileAnswers;
use crate::locals::held_locals;
use go_body_core::env_core::{Recall, TypesOf};
use go_body_core::file::{CheckedFile, FileAt, check_file};
use go_body_core::typexpr_core::ImportedNames;
use go_path_core::text_core::add;
use go_report_core::answer::{HeldValues, OuterAt, answers_of, outer_faults};
use go_report_core::settle_faults;
use go_tree_nodes::File;
use std::alloc::{AllocError, Global};

/// A file that is checked, with what is asked of the package as a whole. All is lent.
#[derive(Drop)]
pub(crate) struct FileTask<'n, 'p, N> {
    /// Where it is checked.
    pub at: FileAt<'n, 'p, N>,
    /// Its tree.
    pub tree: &'p File,
    /// What is found of it in the package as a whole.
    pub outer: OuterAt<'n, 'p>,
}

/// What stands in a file that was checked: its faults with those that are asked of the package as a whole, and the locals of its functions, which share
/// what is held of their types.
///
/// # Errors
///
/// `AllocError` where memory is wanting.
pub(crate) fn finished(
    alloc: Global,
    checked: CheckedFile<'_>,
    outer: &OuterAt<'_, '_>,
    values: &mut HeldValues,
) -> Result<FileAnswers, AllocError>
    ensures uses { IfOk result (λ a. a.answers.items ≡ checked.entry.uses.items) }
    ensures faults { IfOk result (λ a. IsSettled Declaration (List ℕ) a.answers.items (checked.entry.faults.items ++ outer_faults outer.now.file outer.now.blocks.now outer.now.type_faults.now (map decl_shown outer.now.decls.now) (drop outer.now.first outer.now.looped.now)) a.faults.items) }
    ensures locals { IfOk result (λ a. map local_shown a.locals.items ≡ checked.entry.locals.items) }
{
    let mut checked = checked;
    let mut whole = outer_faults(alloc, outer)?;
    checked.faults.append(&mut whole)?;
    let faults = settle_faults(alloc, &checked.uses, &checked.faults)?;
    let answers = answers_of(alloc, checked.uses)?;
    let locals = held_locals(alloc, values, checked.locals)?;
    Ok(FileAnswers {
        answers,
        faults,
        locals,
    })
}

// What stands in a file.
fn file_answers<'n, 'p, N: ImportedNames, K: TypesOf>(
    alloc: Global,
    task: &FileTask<'n, 'p, N>,
    recall: &Recall<'p, K>,
    values: &mut HeldValues,
) -> Result<FileAnswers, AllocError>
    requires { IsTask N.shows K.types task.now }
    ensures { IfOk result (λ a. IsAnswered N.shows task.now (answers_shown a)) }
{
    let checked = check_file(alloc, &task.at, task.tree, recall)?;
    finished(alloc, checked, &task.outer, values)
}

/// What stands in files that follow one another. What is decided of two types in one of them is known in those behind it, and what is held of their
/// locals' types is shared.
///
/// # Errors
///
/// `AllocError` where memory is wanting.
pub(crate) fn answers_in<'n, 'p, N: ImportedNames, K: TypesOf>(
    alloc: Global,
    tasks: &[FileTask<'n, 'p, N>],
) -> Result<Vec<FileAnswers>, AllocError>
    requires { All (IsTask N.shows K.types) tasks.now }
    ensures { IfOk result (λ files. AllZip (IsAnswered N.shows) tasks.now (map answers_shown files.items)) }
{
    let recall: Recall<'p, K> = Recall::new(alloc);
    let mut values = HeldValues::new(alloc);
    let mut files = Vec::new(alloc);
    for task in tasks {
        let answers = file_answers(alloc, task, &recall, &mut values)?;
        add(&mut files, answers)?;
    }
    Ok(files)
}
