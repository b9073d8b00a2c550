//! What stands in the files of a package, with the rule of imports that are not used.
ghost use Rattle.std.specs.Prelude.{◌≡◌, IfOk, length, map};
ghost use Rattle.go_tree_nodes.specs.Shapes.{file_of};
ghost use Rattle.go_package_core.specs.prepare.Packages.{trees_in};
ghost use Rattle.go_package_core.specs.Checked.{answers_shown};
ghost use Rattle.go_package_core.specs.package_part.Parts.{AreFilesMade, IsFileMade, file_shown};

use crate::FileAnswers;
use go_block_core::Blocks;
use go_block_core::graph_core::Package;
use go_local_core::Fault;
use go_path_core::text_core::add;
use go_report_core::settle_faults;
use go_report_core::usage::{refuse_unused, report};
use go_tree_nodes::File;
use std::alloc::{AllocError, Global};

/// What stands in a file.
pub struct PartFile {
    /// What its occurrences have, where an import that is not used has the rule I7; its faults, without those that an outcome says; and the locals
    /// that its functions declare.
    pub answers: FileAnswers,
    /// What is reported of it: the rules that its occurrences break, and its faults, by offset, then by the bytes of the rule's number, each once.
    pub report: Vec<Fault>,
}

impl Drop for PartFile {
    fn drop(self) {
        let PartFile {
            answers: _,
            report: _,
        } = self;
    }
}

// What stands in the file of a number and a tree, where its check gives this.
fn file_made(
    alloc: Global,
    blocks: &Blocks,
    file: usize,
    tree: &File,
    checked: FileAnswers,
) -> Result<PartFile, AllocError>
    ensures { IfOk result (λ made. IsFileMade blocks.now file (file_of tree.now) (answers_shown checked) (file_shown made)) }
{
    let mut answers = checked;
    refuse_unused(alloc, blocks, file, tree, &mut answers.answers)?;
    answers.faults = settle_faults(alloc, &answers.answers, &answers.faults)?;
    let report = report(alloc, &answers.answers, &answers.faults)?;
    Ok(PartFile { answers, report })
}

/// What stands in the files of a package, in order of name, where its check gives this.
///
/// # Errors
///
/// `AllocError` where memory is wanting.
pub(crate) fn files_made(
    alloc: Global,
    package: &Package,
    blocks: &Blocks,
    checked: Vec<FileAnswers>,
) -> Result<Vec<PartFile>, AllocError>
    requires { length checked.items ≡ length (trees_in «package».now) }
    ensures { IfOk result (λ files. AreFilesMade blocks.now (trees_in «package».now) (map answers_shown checked.items) (map file_shown files.items)) }
{
    let mut files = Vec::new(alloc);
    for answers in checked {
        let file = files.len();
        let made = file_made(alloc, blocks, file, package.tree(file), answers)?;
        add(&mut files, made)?;
    }
    Ok(files)
}
