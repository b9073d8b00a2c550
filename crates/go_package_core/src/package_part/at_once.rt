//! What a package has by its input, where its files are checked in pieces at once.
ghost use Rattle.std.specs.Prelude.{◌≡◌, ◌++◌, IfOk};
ghost use Rattle.go_body_core.specs.typexpr_core.EntryShowing.{shown_in};
ghost use Rattle.go_type_core.specs.table_core.Tables.{AreOthers};
ghost use Rattle.go_package_core.specs.Checked.{IsChecked, checked_shown};
ghost use Rattle.go_package_core.specs.package_part.Inputs.{path_in};
ghost use Rattle.go_package_core.specs.package_part.Parts.{IsMade, part_content_shown, package_seen, seen_with};

use crate::package_part::content::{PackageContent, blocks_of, content_of};
use crate::package_part::input::PartInput;
use crate::{CheckedPackage, PackageAt, check_package_at_once};
use go_block_core::Blocks;
use go_report_core::summary_core::View;
use std::alloc::{AllocError, Global};
use std::thread::Threads;

// The check of the package of an input that has these blocks, where this is seen of others.
fn check_at_once<R: Threads + Sync>(
    rt: &R,
    alloc: Global,
    input: &PartInput,
    blocks: &Blocks,
    seen: &mut View,
) -> Result<CheckedPackage, AllocError>
    requires others { AreOthers (path_in input.now) seen.old.types }
    ensures path { IfOk result (λ c. c.types.path ≡ path_in input.now) }
    ensures types { IfOk result (λ c. seen.new.types ≡ seen.old.types ++ c.types.entries) }
    ensures shown { seen.new.shown ≡ seen.old.shown }
    ensures faces { seen.new.faces ≡ seen.old.faces }
    ensures checked { IfOk result (λ c. IsChecked (package_seen input.now blocks.now (seen_with seen.old.types (shown_in seen.old.shown) seen.old.faces)) seen.old.types (checked_shown c)) }
{
    let at = PackageAt {
        package: input.package(),
        blocks,
        imports: input.imports(),
        shown: &seen.shown,
        faces: &seen.faces,
    };
    let checked = check_package_at_once(rt, alloc, &at, &mut seen.types)?;
    Ok(checked)
}

/// What the package of an input has, as [`compile_over`](crate::package_part::compile_over) gives it: its files are checked in pieces of source at once.
///
/// # Errors
///
/// `AllocError` where memory is wanting, or a thread; nothing is said then of the types that are seen.
pub fn compile_over_at_once<R: Threads + Sync>(
    rt: &R,
    alloc: Global,
    input: &PartInput,
    seen: &mut View,
) -> Result<PackageContent, AllocError>
    requires others { AreOthers (path_in input.now) seen.old.types }
    ensures made { IfOk result (λ c. IsMade input.now (seen_with seen.old.types (shown_in seen.old.shown) seen.old.faces) (part_content_shown c)) }
    ensures types { IfOk result (λ c. seen.new.types ≡ seen.old.types ++ c.summary.types.entries) }
    ensures shown { seen.new.shown ≡ seen.old.shown }
    ensures faces { seen.new.faces ≡ seen.old.faces }
{
    let blocks = blocks_of(alloc, input)?;
    let checked = check_at_once(rt, alloc, input, &blocks, seen)?;
    let content = content_of(alloc, input, blocks, checked)?;
    Ok(content)
}
