//! The check of the files of a package.
ghost use Rattle.std.specs.Prelude.{◌≡◌, [], IfOk, length, map, slice_index_or};
ghost use Rattle.std.specs.List.{AllZip, enumerate_from};
ghost use Rattle.go_body_core.specs.typexpr_core.EntryOutlines.{outline_shown};
ghost use Rattle.go_body_core.specs.env_core.Scenes.{scene_shown};
ghost use Rattle.go_package_core.specs.prepare.Packages.{outlines_in, package_in_shown, scene_in, shows_in};
ghost use Rattle.go_package_core.specs.prepare.Values.{decls_in};
ghost use Rattle.go_package_core.specs.Checked.{IsFileChecked, answers_shown};
ghost use Rattle.go_package_core.specs.mirrors.Stages.{IsReady};
ghost use Rattle.go_package_core.specs.mirrors.TasksOf.{IsTaskOf};

use crate::checked::FileAnswers;
use crate::prepare::{PackageAt, Ready};
use crate::split::answers_at_once;
use crate::tasks::{FileTask, answers_in};
use go_block_core::Imported;
use go_body_core::env_core::{Scene, TypesOf};
use go_body_core::file::FileAt;
use go_body_core::typexpr_core::ImportedNames;
use go_path_core::text_core::add;
use go_report_core::answer::OuterAt;
use go_report_core::declared_core::Face;
use go_report_core::handle_core::{SignatureRef, TypeRef};
use go_report_core::type_faults::PackageFault;
use go_term_core::decl_core::Outline;
use std::alloc::{AllocError, Global};
use std::thread::Threads;

/// What the declarations of a package outside functions are, in order of file and number.
#[derive(Drop)]
pub(crate) struct Declared<'p> {
    /// None where what one needs leads back to itself.
    pub known: Vec<Option<Face<TypeRef<'p>, SignatureRef<'p>>>>,
    /// Whether one is a constant that is defined through itself.
    pub looped: Vec<bool>,
}

// What the imports of the file of a number come to: nothing where there is no such file.
fn imports_at(imports: &[Vec<Imported>], file: usize) -> &[Imported]
    ensures { result.now ≡ slice_index_or (map (λ of_file. of_file.items) imports.now) file [] }
{
    match imports.get(file) {
        Some(of_file) => of_file.as_slice(),
        None => &[],
    }
}

// The files of a package, in order of name.
fn file_tasks<'n, 'p, P: ImportedNames, N: ImportedNames>(
    alloc: Global,
    at: &'p PackageAt<'_, P>,
    names: &'n N,
    scene: &'n Scene<'p>,
    outlines: &'n [Outline<'p>],
    ready: &'p Ready,
    declared: &'n Declared<'p>,
    type_faults: &'n [PackageFault],
) -> Result<Vec<FileTask<'n, 'p, N>>, AllocError>
    requires names { N.shows names.now ≡ shows_in (package_in_shown P.shows at.now) }
    requires outlines { map outline_shown outlines.now ≡ outlines_in (package_in_shown P.shows at.now) }
    requires scene { scene_shown scene.now ≡ scene_in (package_in_shown P.shows at.now) (scene_shown scene.now).types }
    requires ready { IsReady (package_in_shown P.shows at.now) (scene_shown scene.now).types ready.now }
    requires looped { length declared.now.looped.items ≡ length (decls_in (package_in_shown P.shows at.now)) }
    ensures { IfOk result (λ tasks. AllZip (IsTaskOf N.shows (package_in_shown P.shows at.now) (scene_shown scene.now).types declared.now.known.items type_faults.now declared.now.looped.items) (enumerate_from 0 (package_in_shown P.shows at.now).trees) tasks.items) }
{
    let mut tasks = Vec::new(alloc);
    let mut first = 0;
    for (file, outline) in outlines.iter().enumerate() {
        let place = FileAt {
            scene,
            file,
            places: &outline.places,
            imported: names,
            imports: imports_at(at.imports, file),
            initial: &ready.initial[file],
            functions: &ready.functions[file],
            known: &declared.known,
        };
        let outer = OuterAt {
            file,
            blocks: at.blocks,
            type_faults,
            decls: &outline.decls,
            first,
            looped: &declared.looped,
        };
        let task = FileTask {
            at: place,
            tree: at.package.tree(file),
            outer,
        };
        add(&mut tasks, task)?;
        first += outline.decls.len();
    }
    Ok(tasks)
}

/// What stands in the files of a package, in order of name, where its names of types lead to this, this is ready of it, these are its
/// declarations, and its types have these faults. What is decided of two types in one of them is known in those behind it.
pub(crate) fn check_files<'n, 'p, P: ImportedNames, N: ImportedNames, K: TypesOf>(
    alloc: Global,
    at: &'p PackageAt<'_, P>,
    names: &'n N,
    scene: &'n Scene<'p>,
    outlines: &'n [Outline<'p>],
    ready: &'p Ready,
    declared: &'n Declared<'p>,
    type_faults: &'n [PackageFault],
) -> Result<Vec<FileAnswers>, AllocError>
    requires table { scene.now.types.now ≡ K.types }
    requires names { N.shows names.now ≡ shows_in (package_in_shown P.shows at.now) }
    requires outlines { map outline_shown outlines.now ≡ outlines_in (package_in_shown P.shows at.now) }
    requires scene { scene_shown scene.now ≡ scene_in (package_in_shown P.shows at.now) (scene_shown scene.now).types }
    requires ready { IsReady (package_in_shown P.shows at.now) (scene_shown scene.now).types ready.now }
    requires looped { length declared.now.looped.items ≡ length (decls_in (package_in_shown P.shows at.now)) }
    ensures { IfOk result (λ files. AllZip (IsFileChecked (package_in_shown P.shows at.now) (scene_shown scene.now).types declared.now.known.items type_faults.now declared.now.looped.items) (enumerate_from 0 (package_in_shown P.shows at.now).trees) (map answers_shown files.items)) }
{
    let tasks = file_tasks(
        alloc,
        at,
        names,
        scene,
        outlines,
        ready,
        declared,
        type_faults,
    )?;
    answers_in::<N, K>(alloc, tasks.as_slice())
}

/// The same, where the files are checked in pieces at once.
pub(crate) fn check_files_at_once<
    'n,
    'p,
    R: Threads + Sync,
    P: ImportedNames,
    N: ImportedNames + Sync,
    K: TypesOf + Send + Sync,
>(
    rt: &R,
    alloc: Global,
    at: &'p PackageAt<'_, P>,
    names: &'n N,
    scene: &'n Scene<'p>,
    outlines: &'n [Outline<'p>],
    ready: &'p Ready,
    declared: &'n Declared<'p>,
    type_faults: &'n [PackageFault],
) -> Result<Vec<FileAnswers>, AllocError>
    requires table { scene.now.types.now ≡ K.types }
    requires names { N.shows names.now ≡ shows_in (package_in_shown P.shows at.now) }
    requires outlines { map outline_shown outlines.now ≡ outlines_in (package_in_shown P.shows at.now) }
    requires scene { scene_shown scene.now ≡ scene_in (package_in_shown P.shows at.now) (scene_shown scene.now).types }
    requires ready { IsReady (package_in_shown P.shows at.now) (scene_shown scene.now).types ready.now }
    requires looped { length declared.now.looped.items ≡ length (decls_in (package_in_shown P.shows at.now)) }
    ensures { IfOk result (λ files. AllZip (IsFileChecked (package_in_shown P.shows at.now) (scene_shown scene.now).types declared.now.known.items type_faults.now declared.now.looped.items) (enumerate_from 0 (package_in_shown P.shows at.now).trees) (map answers_shown files.items)) }
{
    let tasks = file_tasks(
        alloc,
        at,
        names,
        scene,
        outlines,
        ready,
        declared,
        type_faults,
    )?;
    answers_at_once::<R, N, K>(rt, alloc, tasks.as_slice())
}
