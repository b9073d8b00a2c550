//! The types that texts name.
ghost use Rattle.std.specs.Prelude.{◌≡◌, ◌⊎◌, [], IfErr, IfOk, Some, false, length, map, option_map};
ghost use Rattle.go_path_core.specs.text_core.Text.{is_blank};
ghost use Rattle.go_term_core.specs.Shapes.{shape};
ghost use Rattle.go_term_core.specs.Terms.{Term};
ghost use Rattle.go_package_core.specs.env_core.Found.{face_at};
ghost use Rattle.go_graph_core.specs.Packages.{AllHaveTrees};
ghost use Rattle.go_names_core.specs.scope_core.Laws.{denotes};
ghost use Rattle.go_names_core.specs.scope_core.Models.{scopes_model};
ghost use Rattle.go_names_core.specs.scope_core.Scopes.{Package, denoted_of};
ghost use Rattle.go_package_core.specs.package_part.Parts.{IsPart};
ghost use Rattle.go_summary_core.specs.declared_core.Faces.{face_shown};
ghost use Rattle.go_summary_core.specs.declared_core.declared.face.Face.TheVariants as faces;
ghost use Rattle.go_type_doc_core.specs.Naming.{IsOwnRefusal, IsOwnType};
ghost use Rattle.go_type_doc_core.specs.mirrors.Named.{HasOwnPlaces, IsNoType, IsNoTypeFace, IsNoneShown, IsPredeclaredRule, IsPredeclaredType, IsRuleIn, IsRuleOf, IsTypeIn, IsTypeOf, IsTypeShown, ShowsNone, ShowsType, known_of};
ghost use Rattle.go_type_doc_core.specs.mirrors.Shown.{IsShownRefusal, IsShownType};

use go_names_core::block_core::DeclRef;
use go_names_core::scope_core::{InScope, Scopes};
use go_package_core::package_part::Part;
use go_package_core::prepare::{PackageAt, package_outlines};
use go_path_core::ImportPath;
use go_path_core::text_core::{Rule, is_blank};
use go_summary_core::declared_core::{
    Face, FaceTable, ShownFace, WrittenFaces, hold, written_faces,
};
use go_summary_core::handle_core::{SignatureRef, TypeRef};
use go_summary_core::table_core::TypeTable;
use go_term_core::{Basic, Signature, TypeTerm, copy};
use go_typexpr_core::entry::ShownPackages;
use go_universe_core::Predeclared;
use std::alloc::{AllocError, Global};

// The interface type without methods, as a package has it.
fn any_type(alloc: Global, path: &ImportPath) -> Result<TypeTerm, Rule>
    ensures ok { IfOk result (λ t. IsPredeclaredType path.now Predeclared.Any (shape t)) }
    ensures err { IfErr result (λ rule. rule ≡ Rule.M0) }
{
    match path.share() {
        Ok(path) => Ok(TypeTerm::Interface(path, Vec::new(alloc))),
        Err(AllocError) => Err(Rule::M0),
    }
}

// The type that a predeclared name means.
fn predeclared_type(alloc: Global, path: &ImportPath, name: Predeclared) -> Result<TypeTerm, Rule>
    ensures ok { IfOk result (λ t. IsPredeclaredType path.now name (shape t)) }
    ensures err { IfErr result (λ rule. (rule ≡ Rule.M0) ⊎ IsPredeclaredRule path.now name rule) }
{
    match name {
        Predeclared::Any => any_type(alloc, path),
        Predeclared::Bool => Ok(TypeTerm::Basic(Basic::Bool)),
        Predeclared::Error => Ok(TypeTerm::Error),
        Predeclared::Int => Ok(TypeTerm::Basic(Basic::Int)),
        Predeclared::String => Ok(TypeTerm::Basic(Basic::Text)),
        Predeclared::True
        | Predeclared::False
        | Predeclared::Nil
        | Predeclared::Len
        | Predeclared::Panic
        | Predeclared::Print
        | Predeclared::Println => Err(Rule::N6),
        _ => Err(Rule::N7),
    }
}

// A type once more.
fn type_again(alloc: Global, term: &TypeTerm) -> Result<Option<TypeTerm>, Rule>
    ensures ok { IfOk result (λ t. option_map shape t ≡ Some (shape term.now)) }
    ensures err { IfErr result (λ rule. rule ≡ Rule.M0) }
{
    match copy(alloc, term) {
        Ok(term) => Ok(Some(term)),
        Err(AllocError) => Err(Rule::M0),
    }
}

// The type of a declaration of which this is known.
fn known_type(
    alloc: Global,
    face: &Option<Face<TypeTerm, Signature>>,
) -> Result<Option<TypeTerm>, Rule>
    ensures ok { IfOk result (λ t. option_map face_shown face.now ≡ Some (faces.«Type» (option_map shape t))) }
    ensures err { IfErr result (λ rule. (rule ≡ Rule.M0) ⊎ ((rule ≡ Rule.N6) × IsNoType (option_map face_shown face.now))) }
{
    match face {
        Some(Face::Type(Some(term))) => type_again(alloc, term),
        Some(Face::Type(None)) => Ok(None),
        Some(Face::Func(_)) => Err(Rule::N6),
        Some(Face::Value(_)) => Err(Rule::N6),
        None => Err(Rule::N6),
    }
}

// The type of the declaration at a place, of all that are known.
fn type_at(
    alloc: Global,
    known: &[Option<Face<TypeTerm, Signature>>],
    place: usize,
) -> Result<Option<TypeTerm>, Rule>
    ensures ok { IfOk result (λ t. face_at (map (option_map face_shown) known.now) (Some place) ≡ Some (faces.«Type» (option_map shape t))) }
    ensures err { IfErr result (λ rule. (rule ≡ Rule.M0) ⊎ ((rule ≡ Rule.N6) × IsNoType (face_at (map (option_map face_shown) known.now) (Some place)))) }
{
    match known.get(place) {
        Some(face) => known_type(alloc, face),
        None => Err(Rule::N6),
    }
}

// The type that a declaration of the package block names: an alias its target.
fn declared_type(
    alloc: Global,
    written: &WrittenFaces,
    known: &[Option<Face<TypeTerm, Signature>>],
    decl: DeclRef,
) -> Result<Option<TypeTerm>, Rule>
    ensures ok { IfOk result (λ t. known_of written.now (map (option_map face_shown) known.now) decl ≡ Some (faces.«Type» (option_map shape t))) }
    ensures err { IfErr result (λ rule. (rule ≡ Rule.M0) ⊎ ((rule ≡ Rule.N6) × IsNoType (known_of written.now (map (option_map face_shown) known.now) decl))) }
{
    match written.position(decl) {
        Some(place) => type_at(alloc, known, place),
        None => Err(Rule::N6),
    }
}

// The type that a predeclared name names.
fn universe_type(
    alloc: Global,
    path: &ImportPath,
    name: Predeclared,
) -> Result<Option<TypeTerm>, Rule>
    ensures ok { IfOk result (λ t. (u : Term) × (option_map shape t ≡ Some u) × IsPredeclaredType path.now name u) }
    ensures err { IfErr result (λ rule. (rule ≡ Rule.M0) ⊎ IsPredeclaredRule path.now name rule) }
{
    match predeclared_type(alloc, path, name) {
        Ok(term) => Ok(Some(term)),
        Err(rule) => Err(rule),
    }
}

// The type that a name names in the package of a path, where it denotes this at the top of a file that binds nothing.
fn type_in_scope(
    alloc: Global,
    path: &ImportPath,
    written: &WrittenFaces,
    known: &[Option<Face<TypeTerm, Signature>>],
    found: InScope<'_>,
) -> Result<Option<TypeTerm>, Rule>
    ensures ok { IfOk result (λ t. IsTypeOf path.now (known_of written.now (map (option_map face_shown) known.now)) (denoted_of found.entry) (option_map shape t)) }
    ensures err { IfErr result (λ rule. (rule ≡ Rule.M0) ⊎ IsRuleOf path.now (known_of written.now (map (option_map face_shown) known.now)) (denoted_of found.entry) rule) }
{
    match found {
        InScope::Universe(name) => universe_type(alloc, path, name),
        InScope::Package(decl) => declared_type(alloc, written, known, decl),
        // The file binds nothing, and no block of a function is open.
        InScope::File(_) => Err(Rule::N1),
        InScope::Local(_) => Err(Rule::N1),
    }
}

// What a text denotes at the top of a file of the package of a part that binds nothing.
fn denoted<'p>(alloc: Global, part: &'p Part, name: &str) -> Option<InScope<'p>>
    ensures value { option_map denoted_of result ≡ denotes (scopes_model part.now.content.blocks (length part.now.input.source.1) []) name.now }
    ensures made { IsPart part.now.input part.now.content }
    ensures trees { AllHaveTrees part.now.input.source.1 }
{
    let content = part.content();
    let package = part.input().package();
    let files = package.files();
    let scopes = Scopes::begin(alloc, &content.blocks, files.len());
    scopes.find(name)
}

// What is written of the declarations of the package of a part, for their places: what names of types mean is not asked.
fn own_written(alloc: Global, part: &Part, table: &TypeTable) -> Result<WrittenFaces, AllocError>
    ensures { IfOk result (HasOwnPlaces part.now) }
{
    let input = part.input();
    let content = part.content();
    let shown = ShownPackages::new(alloc);
    let faces = FaceTable::new(alloc);
    let at = PackageAt {
        package: input.package(),
        blocks: &content.blocks,
        imports: input.imports(),
        shown: &shown,
        faces: &faces,
    };
    let outlines = package_outlines(alloc, &at)?;
    let path = part.path();
    let written = written_faces(alloc, path, &content.blocks, &shown, table, &outlines)?;
    Ok(written)
}

// The type that a name names which denotes this.
fn found_type(
    alloc: Global,
    part: &Part,
    table: &TypeTable,
    found: InScope<'_>,
) -> Result<Option<TypeTerm>, Rule>
    ensures ok { IfOk result (λ t. IsTypeIn part.now (denoted_of found.entry) (option_map shape t)) }
    ensures err { IfErr result (λ rule. (rule ≡ Rule.M0) ⊎ IsRuleIn part.now (denoted_of found.entry) rule) }
{
    let content = part.content();
    match own_written(alloc, part, table) {
        Ok(written) => type_in_scope(alloc, part.path(), &written, &content.declared, found),
        Err(AllocError) => Err(Rule::M0),
    }
}

// The type that a text other than `_` names there.
fn plain_type(
    alloc: Global,
    part: &Part,
    table: &TypeTable,
    name: &str,
) -> Result<Option<TypeTerm>, Rule>
    requires plain { is_blank name.now ≡ false }
    ensures ok { IfOk result (λ t. IsOwnType part.now name.now (option_map shape t)) }
    ensures err { IfErr result (λ rule. (rule ≡ Rule.M0) ⊎ IsOwnRefusal part.now name.now rule) }
{
    match denoted(alloc, part, name) {
        Some(found) => found_type(alloc, part, table, found),
        None => Err(Rule::N1),
    }
}

/// The type that a text names at the top of a file of the package of a part that binds nothing: none where what is declared is no type. The types are
/// those that the package sees.
///
/// # Errors
///
/// The rule that the text breaks where a type is written there, and `Rule::M0` where memory is wanting.
pub(crate) fn own_type(
    alloc: Global,
    part: &Part,
    table: &TypeTable,
    name: &str,
) -> Result<Option<TypeTerm>, Rule>
    ensures ok { IfOk result (λ t. IsOwnType part.now name.now (option_map shape t)) }
    ensures err { IfErr result (λ rule. (rule ≡ Rule.M0) ⊎ IsOwnRefusal part.now name.now rule) }
{
    if is_blank(name) {
        Err(Rule::N8)
    } else {
        plain_type(alloc, part, table, name)
    }
}

// The type that is held of a declaration.
fn held_type(face: Face<TypeTerm, Signature>) -> Result<Option<TypeTerm>, Rule>
    ensures ok { IfOk result (λ t. face_shown face ≡ faces.«Type» (option_map shape t)) }
    ensures err { IfErr result (λ rule. (rule ≡ Rule.N6) × IsNoTypeFace (face_shown face)) }
{
    match face {
        Face::Type(term) => Ok(term),
        Face::Func(_) => Err(Rule::N6),
        Face::Value(_) => Err(Rule::N6),
    }
}

// The type that a declaration shows which is this.
fn shown_type(
    alloc: Global,
    face: &Face<TypeRef<'_>, SignatureRef<'_>>,
) -> Result<Option<TypeTerm>, Rule>
    ensures ok { IfOk result (λ t. face.now ≡ faces.«Type» (option_map shape t)) }
    ensures err { IfErr result (λ rule. (rule ≡ Rule.M0) ⊎ ((rule ≡ Rule.N6) × IsNoTypeFace face.now)) }
{
    match hold(alloc, face) {
        Ok(held) => held_type(held),
        Err(AllocError) => Err(Rule::M0),
    }
}

// The type that a declaration shows of which this is known.
fn face_type(
    alloc: Global,
    face: Option<Face<TypeRef<'_>, SignatureRef<'_>>>,
) -> Result<Option<TypeTerm>, Rule>
    ensures ok { IfOk result (λ t. ShowsType face.entry (option_map shape t)) }
    ensures err { IfErr result (λ rule. (rule ≡ Rule.M0) ⊎ ShowsNone face.entry rule) }
{
    match face {
        Some(face) => shown_type(alloc, &face),
        None => Err(Rule::N6),
    }
}

// The type that a name shows which is this behind the name of a package and a dot.
fn type_shown(alloc: Global, shown: ShownFace<'_>) -> Result<Option<TypeTerm>, Rule>
    ensures ok { IfOk result (λ t. IsTypeShown shown.entry (option_map shape t)) }
    ensures err { IfErr result (λ rule. (rule ≡ Rule.M0) ⊎ IsNoneShown shown.entry rule) }
{
    match shown {
        ShownFace::Absent => Err(Rule::N3),
        ShownFace::Hidden => Err(Rule::N2),
        ShownFace::Shown(_, face) => face_type(alloc, face),
    }
}

// The type that a text other than `_` names behind the name of the package of a part and a dot.
fn plain_shown_type(alloc: Global, part: &Part, name: &str) -> Result<Option<TypeTerm>, Rule>
    requires { is_blank name.now ≡ false }
    ensures ok { IfOk result (λ t. IsShownType part.now name.now (option_map shape t)) }
    ensures err { IfErr result (λ rule. (rule ≡ Rule.M0) ⊎ IsShownRefusal part.now name.now rule) }
{
    match part.summary().faces().shown(name) {
        Ok(shown) => type_shown(alloc, shown),
        Err(AllocError) => Err(Rule::M0),
    }
}

/// The type that a text names behind the name of the package of a part and a dot, in another package: none where what is declared is no type.
///
/// # Errors
///
/// The rule that the text breaks where a type is written so, and `Rule::M0` where memory is wanting.
pub(crate) fn other_type(alloc: Global, part: &Part, name: &str) -> Result<Option<TypeTerm>, Rule>
    ensures ok { IfOk result (λ t. IsShownType part.now name.now (option_map shape t)) }
    ensures err { IfErr result (λ rule. (rule ≡ Rule.M0) ⊎ IsShownRefusal part.now name.now rule) }
{
    if is_blank(name) {
        Err(Rule::S8)
    } else {
        plain_shown_type(alloc, part, name)
    }
}
