//! The names at an identifier whose outcome rests on types.
ghost use Rattle.std.specs.Prelude.{◌≡◌, [], IfOk, map};
ghost use Rattle.std.specs.Option.{option_map};
ghost use Rattle.go_tree_nodes.specs.Shapes.{shape, items_of};
ghost use Rattle.go_tree_nodes.specs.TypeShapes.{shape_type};
ghost use Rattle.go_inline_core.specs.scope_core.Models.{scopes_model};
ghost use Rattle.go_summary_core.specs.declared_core.Faces.{face_shown};
ghost use Rattle.go_body_core.specs.env_core.Scenes.{scene_shown};
ghost use Rattle.go_cursor_core.specs.Shown.{literal_shown};
ghost use Rattle.go_cursor_core.specs.Contexts.{type_of_literal};
ghost use Rattle.go_cursor_core.specs.Used.{BehindSpot, KeySpot};
ghost use Rattle.go_candidate_core.specs.at_place.Arounds.{AreNotedAt, ListsAround, NamesAround, around_looks, asked_shown, place_looks, scene_at, types_asked};
ghost use Rattle.go_candidate_core.specs.at_place.Locals.{local_shown};
ghost use Rattle.go_candidate_core.specs.at_place.Types.{noted_shown};

use crate::after_dot::{key_names, names_behind};
use crate::at_place::around::Around;
use crate::at_place::keyed::{is_mixed, other_keys};
use crate::at_place::listing::{list_needed, list_type};
use crate::at_place::local::OpenLocal;
use crate::at_place::noting::note_open_types;
use crate::at_place::place::PlaceAt;
use crate::at_place::types::NotedType;
use go_body_core::env_core::{Here, Scene, outer_names, stand};
use go_body_core::typexpr_core::{FileNames, ImportedNames, WrittenIn};
use go_cursor_core::LiteralOf;
use go_expr_core::denote_core::{Dot, Stand, dot_of};
use go_expr_core::{Exprs, Notes, check_expr, check_type_name, is_name};
use go_inline_core::scope_core::Scopes;
use go_inline_core::{Ground, InlineTypes, initialiser_types};
use go_summary_core::declared_core::{Face, lend};
use go_summary_core::handle_core::{SignatureRef, TypeRef};
use go_term_core::decl_core::TopDecl;
use go_term_core::{Signature, TypeTerm};
use go_tree_nodes::text_core::{Name, add};
use go_tree_nodes::{Expr, Item, TypeExpr, Usage};
use std::alloc::{AllocError, Global};

// What declarations are, lent.
fn lend_all<'p>(
    alloc: Global,
    declared: &'p [Option<Face<TypeTerm, Signature>>],
) -> Result<Vec<Option<Face<TypeRef<'p>, SignatureRef<'p>>>>, AllocError>
    ensures { IfOk result (λ lent. lent.items ≡ map (option_map face_shown) declared.now) }
{
    let mut lent = Vec::new(alloc);
    for face in declared {
        add(&mut lent, lend_some(face)?)?;
    }
    Ok(lent)
}

// What a declaration is, lent, if it is known.
fn lend_some<'p>(
    face: &'p Option<Face<TypeTerm, Signature>>,
) -> Result<Option<Face<TypeRef<'p>, SignatureRef<'p>>>, AllocError>
    ensures { IfOk result (λ lent. lent ≡ option_map face_shown face.now) }
{
    match face {
        Some(face) => Ok(Some(lend(face)?)),
        None => Ok(None),
    }
}

// Names that last.
fn named(alloc: Global, names: &[&str]) -> Result<Vec<Name>, AllocError>
    ensures { IfOk result (λ copies. copies.items ≡ map (λ n. n.now) names.now) }
{
    let mut copies = Vec::new(alloc);
    for name in names {
        add(&mut copies, Name::from_text(alloc, *name)?)?;
    }
    Ok(copies)
}

// The names behind an operand.
fn behind<'n, 'p>(
    alloc: Global,
    around: &Around<'n, 'p>,
    usage: Usage,
    place: Stand,
    operand: &Expr,
) -> Result<Vec<Name>, AllocError>
    ensures { IfOk result (λ names. ListsAround (around_looks around.now) (BehindSpot usage place (shape operand.now)) names.items) }
{
    let mut notes = Notes {
        uses: Vec::new(alloc),
        faults: Vec::new(alloc),
    };
    let denoted = check_expr(around, alloc, place, operand, &mut notes)?;
    let scene = around.here.scene;
    match dot_of(is_name(operand), denoted) {
        Dot::Value(value) => {
            let names = names_behind(alloc, scene.types, scene.home, usage, &value)?;
            Ok(names)
        }
        Dot::Package(_) => Ok(Vec::new(alloc)),
        Dot::Refused => Ok(Vec::new(alloc)),
        Dot::Untyped => Ok(Vec::new(alloc)),
    }
}

// The type of a literal.
fn type_of<'n, 'p>(
    alloc: Global,
    around: &Around<'n, 'p>,
    of: LiteralOf<'_>,
) -> Result<Option<TypeRef<'p>>, AllocError>
    ensures { IfOk result (λ t. t ≡ type_of_literal (around_looks around.now) (literal_shown of.entry)) }
{
    match of {
        LiteralOf::Named(name) => {
            let mut uses = Vec::new(alloc);
            let t = check_type_name(around, alloc, name, &mut uses)?;
            Ok(t)
        }
        LiteralOf::Written(tree) => {
            let t = around.written(alloc, tree)?;
            Ok(t)
        }
    }
}

// The names of the key of an element of a literal.
fn keys<'n, 'p>(
    alloc: Global,
    around: &Around<'n, 'p>,
    of: LiteralOf<'_>,
    elements: &[Item],
    at: usize,
) -> Result<Vec<Name>, AllocError>
    ensures { IfOk result (λ names. ListsAround (around_looks around.now) (KeySpot (literal_shown of.entry) (items_of elements.now) at) names.items) }
{
    let t = type_of(alloc, around, of)?;
    let others = other_keys(alloc, elements, at)?;
    let mixed = is_mixed(alloc, elements)?;
    let names = key_names(around, alloc, &t, mixed, &others)?;
    let copies = named(alloc, &names)?;
    Ok(copies)
}

// What is known of the package of a place.
fn scene_of<'p, P>(at: &'p PlaceAt<'p, P>) -> Scene<'p>
    ensures { scene_shown result ≡ scene_at at.now }
{
    Scene {
        home: at.home,
        blocks: at.blocks,
        types: at.types,
        others: at.others,
        written: at.written,
    }
}

// The place, as an expression sees it.
fn around_at<'n, 'p, P: ImportedNames>(
    at: &PlaceAt<'_, P>,
    here: Here<'n, 'p>,
    locals: &'p [OpenLocal<'p>],
    types: &'p [NotedType],
) -> Around<'n, 'p>
    requires scene { scene_shown here.scene.now ≡ scene_at at.now }
    requires file { here.file ≡ at.now.file }
    requires known { here.known.now ≡ map (option_map face_shown) at.now.declared.now }
    requires scopes { here.names.now.scopes.now ≡ scopes_model at.now.blocks.now at.now.file [] }
    requires top { here.names.now.locals.now ≡ [] }
    ensures { around_looks result ≡ place_looks P.shows at.now (map noted_shown types.now) (map local_shown locals.now) }
{
    Around {
        here,
        locals,
        types,
    }
}

/// What names are asked for.
#[derive(Clone, Copy)]
enum Asked<'t> {
    /// Those behind the operand of a selector that is used so, which stands so.
    Behind(Usage, Stand, &'t Expr),
    /// Those of the key of the element of a number of a literal.
    Key(LiteralOf<'t>, &'t [Item], usize),
}

// The names that are asked for, by the locals that are open and the types that are written.
fn judged<'p, P: ImportedNames>(
    alloc: Global,
    at: &'p PlaceAt<'p, P>,
    inline: &'p InlineTypes,
    locals: &'p [OpenLocal<'p>],
    types: &'p [NotedType],
    asked: Asked<'_>,
) -> Result<Vec<Name>, AllocError>
    ensures { IfOk result (λ names. ListsAround (place_looks P.shows at.now (map noted_shown types.now) (map local_shown locals.now)) (asked_shown asked.entry) names.items) }
{
    let scene = scene_of(at);
    let known = lend_all(alloc, at.declared)?;
    let scopes = Scopes::begin(alloc, at.blocks, at.file);
    let names = outer_names(&scene, &scopes);
    let here = stand(&scene, at.file, inline, &known, &names);
    let around = around_at(at, here, locals, types);
    match asked {
        Asked::Behind(usage, place, operand) => {
            let names = behind(alloc, &around, usage, place, operand)?;
            Ok(names)
        }
        Asked::Key(of, elements, number) => {
            let names = keys(alloc, &around, of, elements, number)?;
            Ok(names)
        }
    }
}

// The struct types on which what is asked for rests.
fn types_for<'t>(alloc: Global, asked: Asked<'t>) -> Result<Vec<&'t TypeExpr>, AllocError>
    ensures { IfOk result (λ trees. map (λ t. shape_type t.now) trees.items ≡ types_asked asked.entry) }
{
    let mut trees = Vec::new(alloc);
    match asked {
        Asked::Behind(_, _, operand) => list_needed(operand, &mut trees)?,
        Asked::Key(LiteralOf::Written(tree), _, _) => list_type(tree, &mut trees)?,
        Asked::Key(LiteralOf::Named(_), _, _) => {}
    }
    Ok(trees)
}

// No types that are written.
fn none_written<P: ImportedNames>(
    alloc: Global,
    at: &PlaceAt<'_, P>,
) -> Result<InlineTypes, AllocError> {
    let ground = Ground {
        path: at.home.path(),
        blocks: at.blocks,
        file: at.file,
        imported: at.imported,
        places: at.places,
        types: at.types,
    };
    let decls: Vec<TopDecl<'_>> = Vec::new(alloc);
    initialiser_types(alloc, &ground, &decls)
}

// What the types that are written are.
fn noted<P: ImportedNames>(
    alloc: Global,
    at: &PlaceAt<'_, P>,
    locals: &[OpenLocal<'_>],
    trees: &[&TypeExpr],
) -> Result<Vec<NotedType>, AllocError>
    ensures { IfOk result (λ types. AreNotedAt P.shows at.now (map local_shown locals.now) (map (λ t. shape_type t.now) trees.now) (map noted_shown types.items)) }
{
    let path = at.home.path();
    let top = FileNames {
        path,
        blocks: at.blocks,
        file: at.file,
        imported: at.imported,
    };
    let written = WrittenIn {
        path,
        file: at.file,
        places: at.places,
    };
    let types = note_open_types(alloc, &top, locals, &written, at.types, trees)?;
    Ok(types)
}

// The names that are asked for.
fn names_asked<P: ImportedNames>(
    alloc: Global,
    at: &PlaceAt<'_, P>,
    locals: &[OpenLocal<'_>],
    asked: Asked<'_>,
) -> Result<Vec<Name>, AllocError>
    ensures { IfOk result (λ names. NamesAround P.shows at.now (map local_shown locals.now) (asked_shown asked.entry) names.items) }
{
    let trees = types_for(alloc, asked)?;
    let types = noted(alloc, &*at, &*locals, &trees)?;
    let inline = none_written(alloc, &*at)?;
    let names = judged(alloc, &*at, &inline, &*locals, &types, asked)?;
    Ok(names)
}

/// The names that have a declaration behind the dot of a selector, by how the selector is used, where its operand stands, and the operand, in
/// byte order; `locals` are those that are open there, in order of their declarations.
///
/// Where the operand is the name of a package, nothing is said of what is listed. The Go specification, "Selectors", "Calls".
///
/// # Errors
///
/// `AllocError` where memory is wanting.
pub fn names_at_dot<P: ImportedNames>(
    alloc: Global,
    at: &PlaceAt<'_, P>,
    locals: &[OpenLocal<'_>],
    usage: Usage,
    place: Stand,
    operand: &Expr,
) -> Result<Vec<Name>, AllocError>
    ensures { IfOk result (λ names. NamesAround P.shows at.now (map local_shown locals.now) (BehindSpot usage place (shape operand.now)) names.items) }
{
    names_asked(alloc, at, locals, Asked::Behind(usage, place, operand))
}

/// The names that have a declaration as the key of the element of a number, from 0, of a composite literal of a type, among its elements, in
/// byte order; `locals` are those that are open there, in order of their declarations.
///
/// The Go specification, "Composite literals".
///
/// # Errors
///
/// `AllocError` where memory is wanting.
pub fn names_at_key<P: ImportedNames>(
    alloc: Global,
    at: &PlaceAt<'_, P>,
    locals: &[OpenLocal<'_>],
    of: LiteralOf<'_>,
    elements: &[Item],
    number: usize,
) -> Result<Vec<Name>, AllocError>
    ensures { IfOk result (λ names. NamesAround P.shows at.now (map local_shown locals.now) (KeySpot (literal_shown of.entry) (items_of elements.now) number) names.items) }
{
    names_asked(alloc, at, locals, Asked::Key(of, elements, number))
}
