//! Imports that are not used.
ghost use Rattle.std.specs.Prelude.{◌≡◌, ◌++◌, IfErr, OnOk, map, nat_eq};
ghost use Rattle.std.specs.List.{flat_map};
ghost use Rattle.std.specs.HashSet.{contains};
ghost use Rattle.go_tree_nodes.specs.Shapes.{file_of, import_of, shape_import_spec, shape_import_specs};
ghost use Rattle.go_tree_core.specs.Occurrences.{file_occs};
ghost use Rattle.go_block_core.specs.Naming.{specs_in, specs_of};
ghost use Rattle.go_report_core.specs.usage.Used.{blank_place, blank_places, is_blank_name, judged_import, refused_use, used_places, without_unused};
ghost use Rattle.go_report_core.specs.usage.mirrors.Steps.{judged_by, with_places};

use crate::answer::Answer;
use crate::usage::used::{add_used_places, is_import};
use go_block_core::Blocks;
use go_expr_core::denote_core::Outcome;
use go_path_core::text_core::Rule;
use go_tree_core::occurrences;
use go_tree_nodes::{File, ImportDecl, ImportName, ImportSpec, ImportSpecs};
use indexmap::IndexSet;
use std::alloc::{AllocError, Global};

// Whether an import is written with the name `_`.
fn is_blank_name(name: &ImportName) -> bool
    ensures { result ≡ is_blank_name name.now }
{
    match name {
        ImportName::Named(ident) => ident.name.as_str() == "_",
        ImportName::Own => false,
        ImportName::Dot(_) => false,
    }
}

// Adds the place of an import that is written with the name `_`.
fn add_if_blank(places: &mut IndexSet<usize>, spec: &ImportSpec) -> Result<(), AllocError>
    ensures { OnOk result (places.new.keys ≡ with_places places.old.keys (blank_place (shape_import_spec spec.now))) }
{
    if is_blank_name(&spec.name) {
        places.insert(spec.path.span.start as usize)?;
    }
    Ok(())
}

// Adds the places of those imports of a declaration that are written with the name `_`.
fn add_blanks(places: &mut IndexSet<usize>, specs: &ImportSpecs) -> Result<(), AllocError>
    ensures { OnOk result (places.new.keys ≡ with_places places.old.keys (flat_map blank_place (specs_in (shape_import_specs specs.now)))) }
{
    match specs {
        ImportSpecs::One(spec) => add_if_blank(places, spec),
        ImportSpecs::Group(_, lines, _) => {
            for line in lines {
                add_if_blank(places, &line.spec)?;
            }
            Ok(())
        }
    }
}

// Adds the places of the imports that are written with the name `_`.
fn add_all_blanks(places: &mut IndexSet<usize>, imports: &Vec<ImportDecl>) -> Result<(), AllocError>
    ensures { OnOk result (places.new.keys ≡ with_places places.old.keys (flat_map blank_place (specs_of (map import_of imports.now.items)))) }
{
    for import in imports {
        add_blanks(places, &import.specs)?;
    }
    Ok(())
}

// Refuses an import that breaks no other rule.
fn refuse(answer: &mut Answer)
    ensures { answer.new ≡ refused_use answer.old }
{
    match &answer.outcome {
        Outcome::Declared(_) => {}
        Outcome::Selected(_, _) => {}
        Outcome::Refused(_) => return,
    }
    answer.outcome = Outcome::Refused(Rule::I7);
}

// Refuses an import whose place is none of these.
fn judge(places: &IndexSet<usize>, answer: &mut Answer)
    ensures { answer.new ≡ judged_by (contains nat_eq places.now) answer.old }
{
    if is_import(answer.role) && !places.contains(&answer.offset) {
        refuse(answer);
    }
}

// Refuses the imports whose places are none of these.
fn judge_all(places: &IndexSet<usize>, answers: &mut [Answer])
    ensures { answers.new ≡ map (judged_import places.now.keys) answers.old }
{
    for answer in answers.iter_mut() {
        judge(places, answer);
    }
}

// Refuses the imports of a file that are not used, but for those at these places. Then these have the places of the others too.
fn judge_unused(
    alloc: Global,
    places: &mut IndexSet<usize>,
    blocks: &Blocks,
    file: usize,
    tree: &File,
    answers: &mut [Answer],
) -> Result<(), AllocError>
    ensures value { OnOk result (answers.new ≡ map (judged_import (with_places places.old.keys (blank_places (file_of tree.now) ++ used_places blocks.now file (file_occs (file_of tree.now)) answers.old))) answers.old) }
    ensures kept { IfErr result (λ _. answers.new ≡ answers.old) }
{
    add_all_blanks(places, &tree.imports)?;
    let occs = occurrences(alloc, tree)?;
    add_used_places(places, blocks, file, &occs, answers)?;
    judge_all(places, answers);
    Ok(())
}

/// Refuses those imports of the file of a number that are not used and break no other rule, by I7. An import is used where a selector of the file
/// whose qualifier it binds has a declaration, or a name has one through its dot; one with the name `_` need not be used. `blocks` are those of the
/// file's package, and `answers` what the occurrences of the tree have. The names that such an import binds stay bound. Time is linear in
/// the occurrences.
///
/// The Go specification, "Import declarations".
///
/// # Errors
///
/// `AllocError` where memory is wanting: then the answers are as they were.
pub fn refuse_unused(
    alloc: Global,
    blocks: &Blocks,
    file: usize,
    tree: &File,
    answers: &mut [Answer],
) -> Result<(), AllocError>
    ensures value { OnOk result (answers.new ≡ without_unused blocks.now file (file_of tree.now) answers.old) }
    ensures kept { IfErr result (λ _. answers.new ≡ answers.old) }
{
    let mut places = IndexSet::new(alloc);
    judge_unused(alloc, &mut places, blocks, file, tree, answers)
}
