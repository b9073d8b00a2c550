//! The check of a package.
ghost use Rattle.std.specs.Prelude.{◌≡◌, ◌++◌, All, List, IfOk, length, map};
ghost use Rattle.std.specs.List.{AllByRecursion};
ghost use Rattle.go_type_core.specs.table_core.Entries.{Entry};
ghost use Rattle.go_type_core.specs.table_core.Tables.{AreOthers};
ghost use Rattle.go_body_core.specs.typexpr_core.EntryOutlines.{outline_shown};
ghost use Rattle.go_body_core.specs.env_core.Scenes.{scene_shown};
ghost use Rattle.go_value_core.specs.Laws.{AreFaces};
ghost use Rattle.go_value_core.specs.Package.{AreThroughThemselves, placed_decls};
ghost use Rattle.go_package_core.specs.prepare.Inlines.{IsPlacedOutline};
ghost use Rattle.go_package_core.specs.prepare.Packages.{outlines_in, package_in_shown, shows_in};
ghost use Rattle.go_package_core.specs.prepare.Types.{AreTypes};
ghost use Rattle.go_package_core.specs.Checked.{IsChecked, checked_shown};
ghost use Rattle.go_package_core.specs.mirrors.Stages.{IsReady};
ghost use Rattle.go_tree_nodes.specs.Spelling.{IsPlaced};

use crate::checked::CheckedPackage;
use crate::files::{Declared, check_files};
use crate::prepare::{
    OwnTypes, PackageAt, Ready, make_ready, package_aliases, package_outlines, package_types,
};
use go_block_core::Blocks;
use go_body_core::env_core::Scene;
use go_body_core::typexpr_core::ImportedNames;
use go_inline_core::InlineTypes;
use go_package_values::package_values;
use go_report_core::answer::{held_faces, shown_faces};
use go_report_core::declared_core::{FaceTable, TypesHere, WrittenFaces};
use go_report_core::handle_core::Home;
use go_term_core::decl_core::Outline;
use go_type_core::TypeTable;
use go_value_core::through_itself;
use std::alloc::{AllocError, Global};
use std::marker::Brand;

/// What is known of a package where its expressions are judged.
pub(crate) fn scene_of<'p>(
    home: &'p Home,
    blocks: &'p Blocks,
    types: &'p TypeTable,
    others: &'p FaceTable,
    written: &'p WrittenFaces,
) -> Scene<'p>
    ensures { scene_shown result ≡ record { path = home.now; blocks = blocks.now; types = types.now; others = others.now; written = written.now } }
{
    Scene {
        home,
        blocks,
        types,
        others,
        written,
    }
}

/// What the declarations of a package are, by the types that were made of its initialisers.
///
/// # Errors
///
/// `AllocError` where memory is wanting.
pub(crate) fn declare<'p>(
    alloc: Global,
    scene: &Scene<'p>,
    initial: &'p [InlineTypes],
    outlines: &[Outline<'p>],
) -> Result<Declared<'p>, AllocError>
    requires files { length initial.now ≡ length outlines.now }
    requires written { length (scene_shown scene.now).written ≡ length (placed_decls initial.now (map outline_shown outlines.now)) }
    ensures known { IfOk result (λ d. AreFaces (scene_shown scene.now) (placed_decls initial.now (map outline_shown outlines.now)) d.known.items) }
    ensures looped { IfOk result (λ d. AreThroughThemselves (scene_shown scene.now) (placed_decls initial.now (map outline_shown outlines.now)) d.looped.items) }
{
    let known = package_values(alloc, scene, initial, outlines)?;
    let looped = through_itself(alloc, scene, initial, outlines)?;
    Ok(Declared { known, looped })
}

// Checks a package whose types are made, and of which this is ready.
fn check_ready<'p, P: ImportedNames, N: ImportedNames>(
    alloc: Global,
    at: &'p PackageAt<'_, P>,
    names: &'p N,
    types: &'p TypeTable,
    outlines: &'p [Outline<'p>],
    ready: &'p Ready,
    own: OwnTypes,
) -> Result<CheckedPackage, AllocError>
    requires names { N.shows names.now ≡ shows_in (package_in_shown P.shows at.now) }
    requires outlines { map outline_shown outlines.now ≡ outlines_in (package_in_shown P.shows at.now) }
    requires placed { All IsPlaced (package_in_shown P.shows at.now).trees }
    requires ready { IsReady (package_in_shown P.shows at.now) types.now ready.now }
    ensures types { IfOk result (λ c. c.types ≡ own.types) }
    ensures checked { IfOk result (λ c. (far : List Entry) → types.now ≡ far ++ own.types.entries → AreTypes (package_in_shown P.shows at.now) far own.types.entries own.faults.items → IsChecked (package_in_shown P.shows at.now) far (checked_shown c)) }
{
    let written = &ready.written;
    let scene = scene_of(&ready.home, at.blocks, types, at.faces, written);
    let declared = declare(alloc, &scene, &ready.initial, outlines)?;
    let files = check_files::<P, N, Brand>(
        alloc,
        at,
        names,
        &scene,
        outlines,
        ready,
        &declared,
        &own.faults,
    )?;
    let faces = shown_faces(
        alloc,
        at.package.path(),
        at.blocks,
        written,
        &declared.known,
    )?;
    Ok(CheckedPackage {
        faces,
        declared: held_faces(alloc, &declared.known)?,
        files,
        types: own.types,
    })
}

// Checks a package whose types are made.
fn check_typed<P: ImportedNames, N: ImportedNames>(
    alloc: Global,
    at: &PackageAt<'_, P>,
    names: &N,
    types: &TypeTable,
    outlines: &[Outline<'_>],
    own: OwnTypes,
) -> Result<CheckedPackage, AllocError>
    requires names { N.shows names.now ≡ shows_in (package_in_shown P.shows at.now) }
    requires outlines { map outline_shown outlines.now ≡ outlines_in (package_in_shown P.shows at.now) }
    requires tokens { AllByRecursion IsPlacedOutline (map outline_shown outlines.now) }
    requires placed { All IsPlaced (package_in_shown P.shows at.now).trees }
    ensures types { IfOk result (λ c. c.types ≡ own.types) }
    ensures checked { IfOk result (λ c. (far : List Entry) → types.now ≡ far ++ own.types.entries → AreTypes (package_in_shown P.shows at.now) far own.types.entries own.faults.items → IsChecked (package_in_shown P.shows at.now) far (checked_shown c)) }
{
    let ready = make_ready(alloc, &*at, &*names, &*outlines, &*types)?;
    check_ready(alloc, &*at, &*names, &*types, &*outlines, &ready, own)
}

/// Checks a package: makes its types and adds them to the table, finds what its declarations are, and gives for each file what its occurrences
/// have and its faults; and what the package shows to those that import it.
///
/// `types` has the types of the packages that this one reaches, and none of its own; `at` says what its imports come to and what other packages
/// show. A name of a type that denotes an alias means the alias's target, of this package and of others. A declaration whose initialiser leads
/// back to itself has no type, and what rests on it has none.
///
/// The Go specification, "Packages", "Declarations and scope", "Types", "Alias declarations", "Package initialization".
///
/// # Errors
///
/// `AllocError` where memory is wanting; the table has then the types of the package, or is as it was.
pub fn check_package<P: ImportedNames>(
    alloc: Global,
    at: &PackageAt<'_, P>,
    types: &mut TypeTable,
) -> Result<CheckedPackage, AllocError>
    requires { AreOthers (package_in_shown P.shows at.now).path types.old }
    ensures path { IfOk result (λ c. c.types.path ≡ (package_in_shown P.shows at.now).path) }
    ensures table { IfOk result (λ c. types.new ≡ types.old ++ c.types.entries) }
    ensures checked { IfOk result (λ c. IsChecked (package_in_shown P.shows at.now) types.old (checked_shown c)) }
{
    let outlines = package_outlines(alloc, &*at)?;
    let aliases = package_aliases(alloc, &*at, &outlines)?;
    let names = TypesHere {
        path: at.package.path(),
        shown: at.shown,
        faces: at.faces,
        aliases: &aliases,
    };
    let own = package_types(alloc, &*at, &names, &aliases, &outlines, types)?;
    check_typed(alloc, &*at, &names, &*types, &outlines, own)
}
