//! The types of a package, with the faults of their declarations.
ghost use Rattle.std.specs.Prelude.{◌≡◌, ◌++◌, IfOk, map};
ghost use Rattle.go_type_core.specs.table_core.Tables.{AreOthers};
ghost use Rattle.go_body_core.specs.typexpr_core.EntryOutlines.{outline_shown};
ghost use Rattle.go_body_core.specs.typexpr_core.AliasesLaws.{AreLoopedAliases};
ghost use Rattle.go_package_core.specs.prepare.Packages.{outlines_in, package_in_shown, shows_in, targets_in, written_in};
ghost use Rattle.go_package_core.specs.prepare.Types.{AreTypes};

use crate::prepare::package_at::PackageAt;
use go_body_core::typexpr_core::{Aliases, ImportedNames, alias_loops, all_types, type_entries};
use go_report_core::type_faults::{PackageFault, WrittenTypes, type_faults};
use go_term_core::decl_core::{DeclRef, Outline};
use go_type_core::{PackageTypes, TypeTable, build_types};
use std::alloc::{AllocError, Global};

/// The types that a package declares, and what is amiss in their declarations.
#[derive(Drop)]
pub struct OwnTypes {
    pub types: PackageTypes,
    pub faults: Vec<PackageFault>,
}

// The aliases of a package that reach themselves, in order of file and number.
fn looped_aliases<P: ImportedNames>(
    alloc: Global,
    at: &PackageAt<'_, P>,
    aliases: &Aliases,
    outlines: &[Outline<'_>],
) -> Result<Vec<DeclRef>, AllocError>
    requires aliases { aliases.now ≡ targets_in (package_in_shown P.shows at.now) }
    requires outlines { map outline_shown outlines.now ≡ outlines_in (package_in_shown P.shows at.now) }
    ensures { IfOk result (λ looped. AreLoopedAliases (written_in (package_in_shown P.shows at.now)) (targets_in (package_in_shown P.shows at.now)) looped.items) }
{
    let path = at.package.path();
    let written = all_types(alloc, path, at.blocks, at.shown, outlines)?;
    alias_loops(alloc, path, aliases, &written)
}

/// Makes the types that a package declares, over those of the packages that it reaches, and adds them to the table that has these. `names` says
/// what names of types lead to in the package, whose aliases these are, and `outlines` are those of its files, in order of name.
///
/// The Go specification, "Type declarations", "Alias declarations", "Underlying types", "Method declarations".
///
/// # Errors
///
/// `AllocError` where memory is wanting; the table has then the types of the package, or is as it was.
pub fn package_types<P: ImportedNames, N: ImportedNames>(
    alloc: Global,
    at: &PackageAt<'_, P>,
    names: &N,
    aliases: &Aliases,
    outlines: &[Outline<'_>],
    types: &mut TypeTable,
) -> Result<OwnTypes, AllocError>
    requires names { N.shows names.now ≡ shows_in (package_in_shown P.shows at.now) }
    requires aliases { aliases.now ≡ targets_in (package_in_shown P.shows at.now) }
    requires outlines { map outline_shown outlines.now ≡ outlines_in (package_in_shown P.shows at.now) }
    requires others { AreOthers (package_in_shown P.shows at.now).path types.old }
    ensures path { IfOk result (λ own. own.types.path ≡ (package_in_shown P.shows at.now).path) }
    ensures types { IfOk result (λ own. AreTypes (package_in_shown P.shows at.now) types.old own.types.entries own.faults.items) }
    ensures table { IfOk result (λ own. types.new ≡ types.old ++ own.types.entries) }
{
    let path = at.package.path();
    let entries = type_entries(alloc, path, at.blocks, names, outlines)?;
    let (own, loops) = build_types(alloc, path.share()?, &entries, types)?;
    types.add(own.share()?)?;
    let looped = looped_aliases(alloc, at, aliases, outlines)?;
    let written = WrittenTypes {
        path,
        blocks: at.blocks,
        outlines,
        entries: &entries,
        loops: &loops,
        looped: &looped,
    };
    let faults = type_faults(alloc, types, names, &written)?;
    Ok(OwnTypes { types: own, faults })
}
