//! What a package has by its input.
ghost use Rattle.std.specs.Prelude.{◌≡◌, ◌++◌, IfOk, length, map};
ghost use Rattle.go_block_core.specs.graph_core.Packages.{trees_of};
ghost use Rattle.go_block_core.specs.Blocks.{AreBlocks};
ghost use Rattle.go_block_core.specs.Naming.{package_named};
ghost use Rattle.go_body_core.specs.typexpr_core.EntryShowing.{shown_in};
ghost use Rattle.go_type_core.specs.table_core.Tables.{AreOthers};
ghost use Rattle.go_report_core.specs.summary_core.Summaries.{summary_of};
ghost use Rattle.go_package_core.specs.prepare.Packages.{trees_in};
ghost use Rattle.go_package_core.specs.Checked.{IsChecked, answers_shown, checked_shown};
ghost use Rattle.go_package_core.specs.package_part.Inputs.{path_in};
ghost use Rattle.go_package_core.specs.package_part.Parts.{AreFilesMade, IsMade, part_content_shown, file_shown, package_seen, seen_with};

use crate::package_part::files::{PartFile, files_made};
use crate::package_part::input::PartInput;
use crate::{CheckedPackage, PackageAt, check_package};
use go_block_core::{Blocks, blocks, import_names};
use go_report_core::declared_core::Face;
use go_report_core::summary_core::{Summary, View, summarize};
use go_term_core::{Signature, TypeTerm};
use std::alloc::{AllocError, Global};

/// What a package has.
pub struct PackageContent {
    /// What its package block and its file blocks bind.
    pub blocks: Blocks,
    /// What its declarations outside functions are, in order of file and number: none where what one needs leads back to itself.
    pub declared: Vec<Option<Face<TypeTerm, Signature>>>,
    /// What stands in its files, in order of name.
    pub files: Vec<PartFile>,
    /// What it tells those that reach it by imports.
    pub summary: Summary,
}

impl Drop for PackageContent {
    fn drop(self) {
        let PackageContent {
            blocks: _,
            declared: _,
            files: _,
            summary: _,
        } = self;
    }
}

/// The blocks of the package of an input.
///
/// # Errors
///
/// `AllocError` where memory is wanting.
pub(crate) fn blocks_of(alloc: Global, input: &PartInput) -> Result<Blocks, AllocError>
    ensures { IfOk result (AreBlocks (trees_of input.now.source.1) (package_named (trees_of input.now.source.1) input.now.imports)) }
{
    let package = input.package();
    let names = import_names(alloc, package, input.imports())?;
    let made = blocks(alloc, package, &names)?;
    Ok(made)
}

// The check of the package of an input that has these blocks, where this is seen of others.
fn check(
    alloc: Global,
    input: &PartInput,
    blocks: &Blocks,
    seen: &mut View,
) -> Result<CheckedPackage, AllocError>
    requires { AreOthers (path_in input.now) seen.old.types }
    ensures path { IfOk result (λ c. c.types.path ≡ path_in input.now) }
    ensures types { IfOk result (λ c. seen.new.types ≡ seen.old.types ++ c.types.entries) }
    ensures shown { seen.new.shown ≡ seen.old.shown }
    ensures faces { seen.new.faces ≡ seen.old.faces }
    ensures checked { IfOk result (λ c. IsChecked (package_seen input.now blocks.now (seen_with seen.old.types (shown_in seen.old.shown) seen.old.faces)) seen.old.types (checked_shown c)) }
{
    let at = PackageAt {
        package: input.package(),
        blocks,
        imports: input.imports(),
        shown: &seen.shown,
        faces: &seen.faces,
    };
    let checked = check_package(alloc, &at, &mut seen.types)?;
    Ok(checked)
}

/// What a package has that has these blocks, and whose check gives this.
///
/// # Errors
///
/// `AllocError` where memory is wanting.
pub(crate) fn content_of(
    alloc: Global,
    input: &PartInput,
    blocks: Blocks,
    checked: CheckedPackage,
) -> Result<PackageContent, AllocError>
    requires path { checked.types.path ≡ path_in input.now }
    requires faces { checked.faces.path ≡ path_in input.now }
    requires many { length checked.files.items ≡ length (trees_in input.now.source) }
    ensures blocks { IfOk result (λ c. c.blocks ≡ blocks) }
    ensures declared { IfOk result (λ c. c.declared ≡ checked.declared) }
    ensures files { IfOk result (λ c. AreFilesMade blocks (trees_in input.now.source) (map answers_shown checked.files.items) (map file_shown c.files.items)) }
    ensures summary { IfOk result (λ c. c.summary ≡ summary_of input.now.source blocks checked.types checked.faces) }
{
    let package = input.package();
    let CheckedPackage {
        types,
        faces,
        declared,
        files,
    } = checked;
    let files = files_made(alloc, package, &blocks, files)?;
    let summary = summarize(alloc, package, &blocks, types, faces)?;
    Ok(PackageContent {
        blocks,
        declared,
        files,
        summary,
    })
}

/// What the package of an input has, where this is seen of other packages. The types of the package are added to what is seen; what it shows is
/// not.
///
/// # Errors
///
/// `AllocError` where memory is wanting; nothing is said then of the types that are seen.
pub fn compile_over(
    alloc: Global,
    input: &PartInput,
    seen: &mut View,
) -> Result<PackageContent, AllocError>
    requires { AreOthers (path_in input.now) seen.old.types }
    ensures made { IfOk result (λ c. IsMade input.now (seen_with seen.old.types (shown_in seen.old.shown) seen.old.faces) (part_content_shown c)) }
    ensures types { IfOk result (λ c. seen.new.types ≡ seen.old.types ++ c.summary.types.entries) }
    ensures shown { seen.new.shown ≡ seen.old.shown }
    ensures faces { seen.new.faces ≡ seen.old.faces }
{
    let blocks = blocks_of(alloc, input)?;
    let checked = check(alloc, input, &blocks, seen)?;
    let content = content_of(alloc, input, blocks, checked)?;
    Ok(content)
}
