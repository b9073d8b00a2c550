//! Edits of drafts.
ghost use Rattle.std.specs.Prelude.{◌≡◌, ◌++◌, ◌⊎◌, All, IfErr, IfOk, MatchOption, None, OnOk, Some, option_map, string_bytes, true};
ghost use Rattle.std.specs.BTreeMap.{is_at};
ghost use Rattle.std.specs.List.Sorted.{IsStrictlySortedBy};
ghost use Rattle.std.specs.Str.{bytes_eq};
ghost use Rattle.go_graph_core.specs.Sources.{IsRead};
ghost use Rattle.go_graph_core.specs.Workspaces.{HaveDistinctNames, by_bytes, files_at, is_path_inside, names_of_files, texts_of_files};
ghost use Rattle.go_board_core.specs.submit_core.Trees.{is_file_name, tree_rule, tree_with};
ghost use Rattle.go_session_core.specs.overlay.Edits.{IsEditOf, IsEditRefusal, IsEdited, edited_texts, files_or_none, other_files, text_there};

use crate::overlay::places::draft_path;
use go_board_core::submit_core::{ModuleTree, is_source_name};
use go_graph_core::{PackageSource, SourceFile, Workspace};
use go_path_core::ImportPath;
use go_path_core::text_core::{Rule, add};
use std::alloc::{AllocError, Global};

// Whether a package is the one of a path.
fn is_of_path(package: &PackageSource, path: &ImportPath) -> bool
    ensures { result ≡ is_at (by_bytes path.now) «package».now.0 }
{
    package.path().is_same(path)
}

// The files of the package of a path, in byte order of name.
#[tactic(auto, using(crate::proofs::OverlayWalks::found_here, crate::proofs::OverlayWalks::found_past, crate::proofs::OverlayWalks::found_nowhere))]
fn files_of<'a>(packages: &'a [PackageSource], path: &ImportPath) -> Option<&'a [SourceFile]>
    ensures { MatchOption result (files_at packages.now path.now ≡ None) (λ fs. (files_at packages.now path.now ≡ Some fs.now) × IsStrictlySortedBy by_bytes (names_of_files fs.now)) }
{
    for package in packages {
        if is_of_path(package, path) {
            return Some(package.files());
        }
    }
    None
}

// Whether a file has a name.
fn is_named(file: &SourceFile, name: &str) -> bool
    ensures { result ≡ bytes_eq file.now.name name.now }
{
    file.name() == name
}

// The files that are not of a name. They are shared.
#[tactic(auto, using(crate::proofs::OverlayTexts::others_here, crate::proofs::OverlayTexts::others_past))]
fn files_beside(
    alloc: Global,
    files: &[SourceFile],
    name: &str,
) -> Result<Vec<SourceFile>, AllocError>
    ensures { IfOk result (λ others. others.items ≡ other_files name.now files.now) }
{
    let mut others = Vec::new(alloc);
    for file in files {
        if !is_named(file, name) {
            add(&mut others, file.share()?)?;
        }
    }
    Ok(others)
}

// The same of the package of a path, if there is one.
fn files_left(
    alloc: Global,
    packages: &[PackageSource],
    path: &ImportPath,
    name: &str,
) -> Result<Vec<SourceFile>, AllocError>
    ensures files { IfOk result (λ left. left.items ≡ other_files name.now (files_or_none (files_at packages.now path.now))) }
    ensures order { OnOk result (IsStrictlySortedBy by_bytes (names_of_files (files_or_none (files_at packages.now path.now)))) }
{
    match files_of(packages, path) {
        Some(files) => {
            let left = files_beside(alloc, files, name)?;
            Ok(left)
        }
        None => Ok(Vec::new(alloc)),
    }
}

// Reads a text as the file of a name, if there is one, and adds it.
fn add_file(
    alloc: Global,
    files: &mut Vec<SourceFile>,
    name: &str,
    text: Option<String>,
) -> Result<(), AllocError>
    ensures texts { OnOk result (texts_of_files files.new.items ≡ texts_of_files files.old.items ++ text_there name.now (option_map (λ s. string_bytes s) text)) }
    ensures read { OnOk result (All IsRead files.old.items → All IsRead files.new.items) }
{
    match text {
        Some(text) => {
            let name = String::from_str(alloc, name)?;
            add(files, SourceFile::read(alloc, name, text)?)?;
            Ok(())
        }
        None => Ok(()),
    }
}

// The files of the package of a path, with one of them set to a text, or without it. The others are shared.
fn files_edited(
    alloc: Global,
    packages: &Workspace,
    path: &ImportPath,
    name: &str,
    text: Option<String>,
) -> Result<Vec<SourceFile>, AllocError>
    ensures texts { IfOk result (λ files. texts_of_files files.items ≡ edited_texts (files_or_none (files_at packages.now path.now)) name.now (option_map (λ s. string_bytes s) text)) }
    ensures names { IfOk result (λ files. HaveDistinctNames (texts_of_files files.items)) }
    ensures read { IfOk result (λ files. All IsRead files.items) }
{
    let mut files = files_left(alloc, packages.packages(), path, name)?;
    add_file(alloc, &mut files, name, text)?;
    Ok(files)
}

// The packages with a file set to a text, or without it.
#[tactic(auto, using(crate::proofs::OverlayTexts::edited_from))]
fn put_file(
    alloc: Global,
    packages: &Workspace,
    path: &ImportPath,
    name: &str,
    text: Option<String>,
) -> Result<Workspace, AllocError>
    ensures { IfOk result (λ new. IsEdited packages.now path.now name.now (option_map (λ s. string_bytes s) text) new) }
{
    let files = files_edited(alloc, packages, path, name, text)?;
    let mut edited = packages.copy(alloc)?;
    match edited.put_read(alloc, path, files) {
        Ok(()) => Ok(edited),
        Err(_) => Err(AllocError),
    }
}

// A tree of the module of a draft.
fn tree_of(alloc: Global, draft: &ModuleTree, packages: Workspace) -> Result<ModuleTree, Rule>
    ensures ok { IfOk result (λ new. (new ≡ tree_with draft.now.own packages) × (tree_rule draft.now.own packages ≡ None)) }
    ensures err { IfErr result (λ rule. (rule ≡ Rule.M0) ⊎ (tree_rule draft.now.own packages ≡ Some rule)) }
{
    let Ok(own) = draft.own().share() else {
        return Err(Rule::M0);
    };
    match ModuleTree::make(alloc, own, packages) {
        Ok(new) => Ok(new),
        Err(rule) => Err(rule),
    }
}

// A draft with a file of a source file's name, in the package of a path inside the module, set to a text, or without it.
fn edited_inside(
    alloc: Global,
    draft: &ModuleTree,
    path: &ImportPath,
    name: &str,
    text: Option<String>,
) -> Result<ModuleTree, Rule>
    requires inside { is_path_inside draft.now.own path.now ≡ true }
    requires named { is_file_name name.now ≡ true }
    ensures ok { IfOk result (λ new. IsEditOf draft.now path.now name.now (option_map (λ s. string_bytes s) text) new) }
    ensures err { IfErr result (λ rule. IsEditRefusal draft.now path.now name.now (option_map (λ s. string_bytes s) text) rule) }
{
    let Ok(packages) = put_file(alloc, draft.packages(), path, name, text) else {
        return Err(Rule::M0);
    };
    match tree_of(alloc, draft, packages) {
        Ok(new) => Ok(new),
        Err(rule) => Err(rule),
    }
}

/// A draft with a file set to a text, or without it. A file that is away already is no fault.
///
/// # Errors
///
/// The first of these rules that is broken: `Rule::E1` where the path is none or lies outside the module; `Rule::E2` where the name is no source file's,
/// whether the file is set or taken away; `Rule::E3` to `Rule::E5` where the draft would break them then. `Rule::M0` where memory is wanting.
pub fn edited(
    alloc: Global,
    draft: &ModuleTree,
    path: &str,
    name: &str,
    text: Option<String>,
) -> Result<ModuleTree, Rule>
    ensures ok { IfOk result (λ new. IsEditOf draft.now path.now name.now (option_map (λ s. string_bytes s) text) new) }
    ensures err { IfErr result (λ rule. IsEditRefusal draft.now path.now name.now (option_map (λ s. string_bytes s) text) rule) }
{
    let path = draft_path(alloc, draft.own(), path)?;
    if is_source_name(name) {
        edited_inside(alloc, draft, &path, name, text)
    } else {
        Err(Rule::E2)
    }
}
