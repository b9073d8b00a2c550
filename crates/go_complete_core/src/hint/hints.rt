//! The names for an identifier of a file whose outcome rests on types.
ghost use Rattle.std.specs.Prelude.{◌≡◌, Some, IfOk, IfErr, Contains, slice_get, map};
ghost use Rattle.go_tree_nodes.specs.Shapes.{file_of};
ghost use Rattle.go_typexpr_core.specs.entry.Outlines.{outline_shown};
ghost use Rattle.go_package_core.specs.prepare.Packages.{outlines_in, package_in_shown, shows_in, trees_in};
ghost use Rattle.go_package_core.specs.package_part.Parts.{file_shown};
ghost use Rattle.go_package_core.specs.Checked.{local_shown};
ghost use Rattle.go_cursor_core.specs.Opened.{file_names};
ghost use Rattle.go_cursor_core.specs.Shown.{idents_shown, spot_shown};
ghost use Rattle.go_cursor_core.specs.Spots.{spot_seen};
ghost use Rattle.go_complete_core.specs.place.Completions.{texts_of};
ghost use Rattle.go_candidate_core.specs.at_place.Locals as around;
ghost use Rattle.go_candidate_core.specs.at_place.Arounds.{NamesAround};
ghost use Rattle.go_complete_core.specs.hint.Hints.{AreNamesByTypes, AreNamesWith, IsSeen, shown_alone, written_of};
ghost use Rattle.go_complete_core.specs.hint.Kept.{open_by};

use crate::hint::kept::open_locals;
use crate::views::{imports_decide, view_of_imports};
use go_candidate_core::at_place::{OpenLocal, PlaceAt, names_at_dot, names_at_key};
use go_candidate_core::declared_core::{TypesHere, WrittenFaces, written_faces};
use go_candidate_core::handle_core::Home;
use go_cursor_core::{FoundSpot, Spot};
use go_package_core::package_part::{Part, PartFile, types_of};
use go_package_core::prepare::{PackageAt, package_aliases, package_outlines};
use go_package_core::report_core::HeldLocal;
use go_term_core::decl_core::Outline;
use go_tree_nodes::File;
use go_tree_nodes::text_core::{Name, Rule, add};
use go_type_core::table_core::TypeTable;
use go_typexpr_core::entry::{ImportedNames, ShownPackages};
use std::alloc::{AllocError, Global};

// The names at a spot where these locals are open: none for a name that stands for itself, and none behind the dot of a type's name.
fn names_at<P: ImportedNames>(
    alloc: Global,
    place: &PlaceAt<'_, P>,
    locals: &[OpenLocal<'_>],
    spot: Spot<'_>,
) -> Result<Vec<Name>, AllocError>
    ensures { IfOk result (λ names. NamesAround P.shows place.now (map around.local_shown locals.now) (spot_shown spot.entry) names.items) }
{
    match spot {
        Spot::Behind(usage, stand, operand) => {
            let names = names_at_dot(alloc, place, locals, usage, stand, operand)?;
            Ok(names)
        }
        Spot::Key(of, elements, at) => {
            let names = names_at_key(alloc, place, locals, of, elements, at)?;
            Ok(names)
        }
        Spot::Name(_) => Ok(Vec::new(alloc)),
        Spot::BehindName(_) => Ok(Vec::new(alloc)),
    }
}

// The same by the locals that are open at the spot, of those that are kept.
fn names_with<P: ImportedNames>(
    alloc: Global,
    place: &PlaceAt<'_, P>,
    kept: &[HeldLocal],
    found: &FoundSpot<'_>,
) -> Result<Vec<Name>, AllocError>
    ensures { IfOk result (λ names. NamesAround P.shows place.now (open_by (map local_shown kept.now) (idents_shown found.now.«open».items)) (spot_shown found.now.spot) names.items) }
{
    let locals = open_locals(alloc, kept, &found.open)?;
    let names = names_at(alloc, place, &locals, found.spot)?;
    Ok(names)
}

// The same of a file of a package, by its outline and what is kept of it.
fn names_of_file<N: ImportedNames>(
    alloc: Global,
    part: &Part,
    at: &PackageAt<'_, ShownPackages>,
    names: &N,
    types: &TypeTable,
    written: &WrittenFaces,
    outline: &Outline<'_>,
    file: &PartFile,
    number: usize,
    found: &FoundSpot<'_>,
) -> Result<Vec<Name>, AllocError>
    requires names { N.shows names.now ≡ shows_in (package_in_shown shown_alone at.now) }
    requires seen { IsSeen part.now (package_in_shown shown_alone at.now) types.now }
    requires written { written.now ≡ written_of (package_in_shown shown_alone at.now) types.now }
    requires outline { slice_get (outlines_in (package_in_shown shown_alone at.now)) number ≡ Some (outline_shown outline.now) }
    requires file { slice_get part.now.content.files number ≡ Some (file_shown file.now) }
    ensures { IfOk result (λ names. AreNamesWith part.now number (spot_seen found.now) names.items) }
{
    imports_decide();
    let path = at.package.path().share()?;
    let home = Home::new(alloc, path)?;
    let content = part.content();
    let place = PlaceAt {
        home: &home,
        blocks: at.blocks,
        types,
        others: at.faces,
        written,
        declared: &content.declared,
        imported: names,
        file: number,
        places: &outline.places,
    };
    let names = names_with(alloc, &place, &file.answers.locals, found)?;
    Ok(names)
}

// The same by its outline.
fn names_kept<N: ImportedNames>(
    alloc: Global,
    part: &Part,
    at: &PackageAt<'_, ShownPackages>,
    names: &N,
    types: &TypeTable,
    written: &WrittenFaces,
    outline: &Outline<'_>,
    number: usize,
    found: &FoundSpot<'_>,
) -> Result<Vec<Name>, AllocError>
    requires names { N.shows names.now ≡ shows_in (package_in_shown shown_alone at.now) }
    requires seen { IsSeen part.now (package_in_shown shown_alone at.now) types.now }
    requires written { written.now ≡ written_of (package_in_shown shown_alone at.now) types.now }
    requires outline { slice_get (outlines_in (package_in_shown shown_alone at.now)) number ≡ Some (outline_shown outline.now) }
    ensures { IfOk result (λ names. AreNamesWith part.now number (spot_seen found.now) names.items) }
{
    let content = part.content();
    match content.files.get(number) {
        Some(file) => names_of_file(
            alloc, part, at, names, types, written, outline, file, number, found,
        ),
        None => Ok(Vec::new(alloc)),
    }
}

// The same of a file of a package, by what is seen of other packages.
fn names_over<N: ImportedNames>(
    alloc: Global,
    part: &Part,
    at: &PackageAt<'_, ShownPackages>,
    names: &N,
    types: &TypeTable,
    outlines: &[Outline<'_>],
    number: usize,
    found: &FoundSpot<'_>,
) -> Result<Vec<Name>, AllocError>
    requires outlines { map outline_shown outlines.now ≡ outlines_in (package_in_shown shown_alone at.now) }
    requires names { N.shows names.now ≡ shows_in (package_in_shown shown_alone at.now) }
    requires seen { IsSeen part.now (package_in_shown shown_alone at.now) types.now }
    ensures { IfOk result (λ names. AreNamesWith part.now number (spot_seen found.now) names.items) }
{
    let path = at.package.path();
    let written = written_faces(alloc, path, at.blocks, names, types, outlines)?;
    match outlines.get(number) {
        Some(outline) => names_kept(
            alloc, part, at, names, types, &written, outline, number, found,
        ),
        None => Ok(Vec::new(alloc)),
    }
}

// The same of a file of a part.
fn names_in(
    alloc: Global,
    part: &Part,
    number: usize,
    found: &FoundSpot<'_>,
) -> Result<Vec<Name>, AllocError>
    ensures { IfOk result (λ names. AreNamesWith part.now number (spot_seen found.now) names.items) }
{
    let input = part.input();
    let view = view_of_imports(alloc, input)?;
    let types = types_of(alloc, part)?;
    let content = part.content();
    let at = PackageAt {
        package: input.package(),
        blocks: &content.blocks,
        imports: input.imports(),
        shown: &view.shown,
        faces: &view.faces,
    };
    let outlines = package_outlines(alloc, &at)?;
    let aliases = package_aliases(alloc, &at, &outlines)?;
    let here = TypesHere {
        path: at.package.path(),
        shown: at.shown,
        faces: at.faces,
        aliases: &aliases,
    };
    let names = names_over(alloc, part, &at, &here, &types, &outlines, number, found)?;
    Ok(names)
}

// Names as texts.
fn texts(alloc: Global, names: &[Name]) -> Result<Vec<String>, AllocError>
    ensures { IfOk result (λ all. texts_of all ≡ names.now) }
{
    let mut all = Vec::new(alloc);
    for name in names {
        add(&mut all, String::from_str(alloc, name.as_str())?)?;
    }
    Ok(all)
}

// The same as texts.
fn texts_in(
    alloc: Global,
    part: &Part,
    number: usize,
    found: &FoundSpot<'_>,
) -> Result<Vec<String>, AllocError>
    ensures { IfOk result (λ names. AreNamesWith part.now number (spot_seen found.now) (texts_of names)) }
{
    let names = names_in(alloc, part, number, found)?;
    let all = texts(alloc, &names)?;
    Ok(all)
}

/// The names that may stand in place of an identifier of a file of a compiled package and have a declaration there, in byte order: where the outcome of
/// the identifier rests on a type, since it stands behind a value or behind what has no type, or is the key of an element of a composite literal.
/// The file is that of a number, from 0, among those of the package in order of name, and of a tree. Of an identifier whose outcome rests on no
/// type nothing is said.
///
/// Nothing is compiled again: the operand alone is judged, or the name of the literal's type. The time is linear in the packages that the package
/// reaches, in its declarations and in the locals of the file. The Go specification, "Selectors", "Calls", "Composite literals".
///
/// # Errors
///
/// M0 where memory is wanting.
pub fn names_by_types(
    alloc: Global,
    part: &Part,
    number: usize,
    tree: &File,
    found: &FoundSpot<'_>,
) -> Result<Vec<String>, Rule>
    requires named { Contains (file_names (file_of tree.now)) (spot_seen found.now) }
    requires file { slice_get (trees_in part.now.input.source) number ≡ Some (file_of tree.now) }
    ensures ok { IfOk result (λ names. AreNamesByTypes part.now number (file_of tree.now) (spot_seen found.now) (texts_of names)) }
    ensures err { IfErr result (λ rule. rule ≡ Rule.M0) }
{
    match texts_in(alloc, part, number, found) {
        Ok(names) => Ok(names),
        Err(_) => Err(Rule::M0),
    }
}
