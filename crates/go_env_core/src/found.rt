//! What names stand for, by what they mean.
ghost use Rattle.std.specs.Prelude.{◌≡◌, IfOk, option_copied};
ghost use Rattle.go_term_core.specs.declared.term.MemberPlace.TheVariants as places;
ghost use Rattle.go_declared_core.specs.handle_core.Declarations.{InFile};
ghost use Rattle.go_declared_core.specs.Packages.{exported_in, face_in};
ghost use Rattle.go_env_core.specs.Scenes.{scene_shown};
ghost use Rattle.go_env_core.specs.Found.{exported_face, exported_shown, face_at, found_binding, found_bool, found_builtin, found_exported, found_face, found_local, found_of, found_outside, found_own, found_target, found_type, found_universe, found_value};

use crate::copies::face_again;
use crate::meaning::Meaning;
use crate::scene::Scene;
use go_constant_core::Constant;
use go_declared_core::block_core::{Binding, DeclRef, Target};
use go_declared_core::handle_core::{Decl, DeclSite, Home, SignatureRef, TypeRef};
use go_declared_core::{Face, FaceTable, ShownFace};
use go_expr_core::denote_core::{Builtin, Exported, Found};
use go_expr_core::operand_core::{Operand, ValueType};
use go_inline_core::names_core::Outside;
use go_table_core::path_core::ImportPath;
use go_term_core::{LocalPlace, MemberPlace};
use go_universe_core::Predeclared;
use std::alloc::AllocError;

/// What a declaration is to those that name it, if anything is known of it.
type FaceRef<'p> = Face<TypeRef<'p>, SignatureRef<'p>>;

/// What a name stands for.
type FoundRef<'p> = Found<TypeRef<'p>, SignatureRef<'p>, Decl<'p>>;

/// What a name stands for behind the name of a package.
type ExportedRef<'p> = Exported<TypeRef<'p>, SignatureRef<'p>, Decl<'p>>;

// What a declaration stands for that has this face.
fn found_face<'p>(decl: Decl<'p>, face: Option<FaceRef<'p>>) -> FoundRef<'p>
    ensures { result ≡ found_face decl.entry face.entry }
{
    match face {
        None => Found::Value(decl, None),
        Some(Face::Type(t)) => Found::Type(decl, t),
        Some(Face::Func(signature)) => Found::Func(decl, signature),
        Some(Face::Value(value)) => Found::Value(decl, value),
    }
}

// The same behind the name of a package.
fn exported_face<'p>(decl: Decl<'p>, face: Option<FaceRef<'p>>) -> ExportedRef<'p>
    ensures { result ≡ exported_face decl.entry face.entry }
{
    match face {
        None => Exported::Value(decl, None),
        Some(Face::Type(t)) => Exported::Type(decl, t),
        Some(Face::Func(signature)) => Exported::Func(decl, signature),
        Some(Face::Value(value)) => Exported::Value(decl, value),
    }
}

// A declaration of the package of a path, outside functions.
fn declared<'p>(path: &'p ImportPath, decl: DeclRef) -> Decl<'p>
    ensures { result ≡ InFile path.now (places.Declared decl) }
{
    Decl::at(DeclSite::InFile(path, MemberPlace::Declared(decl)))
}

// What one of the package's own declarations is, by its place.
fn face_at<'p>(
    known: &[Option<FaceRef<'p>>],
    place: Option<usize>,
) -> Result<Option<FaceRef<'p>>, AllocError>
    ensures { IfOk result (λ face. face ≡ face_at known.now place) }
{
    let Some(place) = place else {
        return Ok(None);
    };
    match known.get(place) {
        Some(Some(face)) => Ok(Some(face_again(face)?)),
        Some(None) | None => Ok(None),
    }
}

// What one of the package's own declarations stands for.
fn found_own<'p>(
    scene: &Scene<'p>,
    known: &[Option<FaceRef<'p>>],
    decl: DeclRef,
) -> Result<FoundRef<'p>, AllocError>
    ensures { IfOk result (λ found. found ≡ found_own (scene_shown scene.now) known.now decl) }
{
    let face = face_at(known, scene.written.position(decl))?;
    Ok(found_face(declared(scene.home.path(), decl), face))
}

// What a declaration of another package is.
fn face_of<'p>(
    others: &'p FaceTable,
    path: &ImportPath,
    decl: DeclRef,
) -> Result<Option<FaceRef<'p>>, AllocError>
    ensures { IfOk result (λ face. face ≡ face_in others.now path.now decl) }
{
    match others.locate(path) {
        Some(faces) => faces.face(decl),
        None => Ok(None),
    }
}

// What the target of a binding of a file block stands for.
fn found_target<'p>(scene: &Scene<'p>, target: &'p Target) -> Result<FoundRef<'p>, AllocError>
    ensures { IfOk result (λ found. found ≡ found_target (scene_shown scene.now) target.now) }
{
    match target {
        Target::Package(path) => Ok(Found::Package(Decl::at(DeclSite::Package(path)))),
        Target::Refused(_) => Ok(Found::BadImport),
        Target::Exported(key) => {
            let face = face_of(scene.others, &key.path, key.decl)?;
            Ok(found_face(declared(&key.path, key.decl), face))
        }
    }
}

// What a binding of a file block stands for, if there is one.
fn found_binding<'p>(
    scene: &Scene<'p>,
    binding: Option<&'p Binding>,
) -> Result<FoundRef<'p>, AllocError>
    ensures { IfOk result (λ found. found ≡ found_binding (scene_shown scene.now) (option_copied binding.entry)) }
{
    match binding {
        Some(binding) => found_target(scene, &binding.target),
        None => Ok(Found::Missing),
    }
}

// A predeclared type.
fn found_type<'p>(name: Predeclared, t: TypeRef<'p>) -> FoundRef<'p>
    ensures { result ≡ found_type name t.entry }
{
    Found::Type(Decl::at(DeclSite::Universe(name)), Some(t))
}

// A predeclared constant or `nil`.
fn found_value<'p>(
    name: Predeclared,
    value_type: ValueType<TypeRef<'p>>,
    constant: Option<Constant>,
) -> FoundRef<'p>
    ensures { result ≡ found_value name value_type.entry constant }
{
    let operand = Operand {
        value_type,
        constant,
        addressable: false,
    };
    Found::Value(Decl::at(DeclSite::Universe(name)), Some(operand))
}

// A predeclared boolean constant.
fn found_bool<'p>(name: Predeclared, value: bool) -> FoundRef<'p>
    ensures { result ≡ found_bool name value }
{
    found_value(name, ValueType::UntypedBool, Some(Constant::Bool(value)))
}

// A predeclared function.
fn found_builtin<'p>(name: Predeclared, builtin: Builtin) -> FoundRef<'p>
    ensures { result ≡ found_builtin name builtin }
{
    Found::Builtin(Decl::at(DeclSite::Universe(name)), builtin)
}

/// What a predeclared name stands for.
///
/// The Go specification, "Predeclared identifiers".
pub(crate) fn found_universe<'p>(home: &'p Home, name: Predeclared) -> FoundRef<'p>
    ensures { result ≡ found_universe home.now name }
{
    match name {
        Predeclared::Any => found_type(name, home.any()),
        Predeclared::Bool => found_type(name, home.bool()),
        Predeclared::Error => found_type(name, home.error()),
        Predeclared::Int => found_type(name, home.int()),
        Predeclared::String => found_type(name, home.string()),
        Predeclared::True => found_bool(name, true),
        Predeclared::False => found_bool(name, false),
        Predeclared::Nil => found_value(name, ValueType::Nil, None),
        Predeclared::Len => found_builtin(name, Builtin::Len),
        Predeclared::Panic => found_builtin(name, Builtin::Panic),
        Predeclared::Print | Predeclared::Println => found_builtin(name, Builtin::Print),
        _ => Found::Outside,
    }
}

// What a name stands for that is declared outside the function.
fn found_outside<'p>(
    scene: &Scene<'p>,
    file: usize,
    known: &[Option<FaceRef<'p>>],
    name: &str,
    found: Outside,
) -> Result<FoundRef<'p>, AllocError>
    ensures { IfOk result (λ f. f ≡ found_outside (scene_shown scene.now) file known.now name.now found) }
{
    match found {
        Outside::Package(decl) => found_own(scene, known, decl),
        Outside::File(_) => found_binding(scene, scene.blocks.file(file, name)),
        Outside::Universe(predeclared) => Ok(found_universe(scene.home, predeclared)),
    }
}

// A local that is declared in a file at an offset.
fn found_local<'p>(
    scene: &Scene<'p>,
    file: usize,
    offset: usize,
    value: Option<Operand<TypeRef<'p>>>,
) -> FoundRef<'p>
    ensures { result ≡ found_local (scene_shown scene.now) file offset value.entry }
{
    let place = MemberPlace::Local(LocalPlace { file, offset });
    Found::Value(Decl::at(DeclSite::InFile(scene.home.path(), place)), value)
}

/// What a name stands for in a file, where it means this.
///
/// # Errors
///
/// `AllocError` where a constant text has too many owners.
pub(crate) fn found_of<'p>(
    scene: &Scene<'p>,
    file: usize,
    known: &[Option<FaceRef<'p>>],
    name: &str,
    meaning: Option<Meaning<'p>>,
) -> Result<FoundRef<'p>, AllocError>
    ensures { IfOk result (λ found. found ≡ found_of (scene_shown scene.now) file known.now name.now meaning.entry) }
{
    match meaning {
        None => Ok(Found::Missing),
        Some(Meaning::Outside(found)) => found_outside(scene, file, known, name, found),
        Some(Meaning::Local(at, value)) => Ok(found_local(scene, file, at, value)),
    }
}

// What a package shows under a name.
fn exported_shown<'p>(path: &'p ImportPath, shown: ShownFace<'p>) -> ExportedRef<'p>
    ensures { result ≡ exported_shown path.now shown.entry }
{
    match shown {
        ShownFace::Absent => Exported::Absent,
        ShownFace::Hidden => Exported::Hidden,
        ShownFace::Shown(decl, face) => exported_face(declared(path, decl), face),
    }
}

// What the package of a path shows under a name.
fn exported_by<'p>(
    others: &'p FaceTable,
    path: &'p ImportPath,
    name: &str,
) -> Result<ExportedRef<'p>, AllocError>
    ensures { IfOk result (λ found. found ≡ exported_shown path.now (exported_in others.now path.now name.now)) }
{
    match others.locate(path) {
        Some(faces) => Ok(exported_shown(path, faces.shown(name)?)),
        None => Ok(Exported::Absent),
    }
}

/// What a name stands for behind the name of what an import declares.
///
/// The Go specification, "Qualified identifiers".
///
/// # Errors
///
/// `AllocError` where a constant text has too many owners.
pub(crate) fn found_exported<'p>(
    scene: &Scene<'p>,
    import: &Decl<'p>,
    name: &str,
) -> Result<ExportedRef<'p>, AllocError>
    ensures { IfOk result (λ found. found ≡ found_exported (scene_shown scene.now) import.now name.now) }
{
    match import.site() {
        DeclSite::Package(path) => exported_by(scene.others, path, name),
        DeclSite::Universe(_) | DeclSite::ErrorMethod | DeclSite::InFile(_, _) => {
            Ok(Exported::Absent)
        }
    }
}
