//! What each declaration of a package is, by those that it needs.
ghost use Rattle.std.specs.Prelude.{◌≡◌, [], IfOk, map};
ghost use Rattle.std.specs.Coded.{Coded-set, coded_list};
ghost use Rattle.go_table_core.specs.codes.EntryCodes.{coded_entry};
ghost use Rattle.go_decl_core.specs.Shown.{form_shown};
ghost use Rattle.go_tree_nodes.specs.Shapes.{shape_value_spec};
ghost use Rattle.go_digraph_core.specs.needs.Needs.{known_in};
ghost use Rattle.go_scope_core.specs.Models.{scopes_model};
ghost use Rattle.go_declared_core.specs.declared.face.Face.TheVariants as faces;
ghost use Rattle.go_declared_core.specs.Written.{written_at};
ghost use Rattle.go_env_core.specs.Scenes.{scene_shown};
ghost use Rattle.go_value_core.specs.Initial as initial;
ghost use Rattle.go_value_core.specs.Package as package_values;

use go_decl_core::DeclForm;
use go_declared_core::Face;
use go_digraph_core::needs::Needing;
use go_env_core::{Meaning, Recall, Recalling, Scene, TypesOf, outer_names, stand};
use go_handle_core::{SignatureRef, TypeRef};
use go_names_core::OpenNames;
use go_operand_core::Operand;
use go_scope_core::Scopes;
use go_tree_nodes::{ValueKind, ValueSpec};
use go_value_core::{PlacedDecl, initial_value};
use std::alloc::{AllocError, Global};

/// What is known of a package, and its declarations, with what was decided of the types of its table.
#[derive(Drop)]
pub(crate) struct Stage<'n, 'p, K: TypesOf> {
    pub scene: &'n Scene<'p>,
    pub decls: &'n [PlacedDecl<'p>],
    pub recall: &'n Recall<'p, K>,
    pub ghost same: { scene.now.types.now ≡ K.types } by { Coded-set (coded_list coded_entry) _ _ },
}

// What is written of the declaration of a position.
fn written_face<'p>(scene: &Scene<'p>, at: usize) -> Face<TypeRef<'p>, SignatureRef<'p>>
    ensures { result ≡ package_values.written_face (written_at (scene_shown scene.now).written at) }
{
    match scene.written.face(at) {
        None => Face::Value(None),
        Some(face) => face,
    }
}

// What the name of a number of a specification stands for, where names mean what they mean at the top of its file.
fn place_value<'p, K: TypesOf>(
    alloc: Global,
    scene: &Scene<'p>,
    recall: &Recall<'p, K>,
    placed: &PlacedDecl<'p>,
    known: &[Option<Face<TypeRef<'p>, SignatureRef<'p>>>],
    names: &OpenNames<Meaning<'p>>,
    kind: ValueKind,
    spec: &ValueSpec,
    at: usize,
) -> Result<Option<Operand<TypeRef<'p>>>, AllocError>
    requires table { scene.now.types.now ≡ K.types }
    requires scopes { names.now.scopes.now ≡ scopes_model (scene_shown scene.now).blocks placed.now.file [] }
    requires locals { names.now.locals.now ≡ [] }
    ensures { IfOk result (λ o. o ≡ initial.initial (package_values.top_looks (scene_shown scene.now) placed.now.file placed.now.types.now (known_in known.now)) kind (shape_value_spec spec.now) at) }
{
    let here = stand(scene, placed.file, placed.types, known, names);
    let place = Recalling { here, recall };
    initial_value(&place, alloc, kind, spec, at)
}

// What the name of a number of a specification is, by its initialiser.
fn initial_face<'p, K: TypesOf>(
    alloc: Global,
    scene: &Scene<'p>,
    recall: &Recall<'p, K>,
    placed: &PlacedDecl<'p>,
    known: &[Option<Face<TypeRef<'p>, SignatureRef<'p>>>],
    kind: ValueKind,
    spec: &ValueSpec,
    at: usize,
) -> Result<Face<TypeRef<'p>, SignatureRef<'p>>, AllocError>
    requires { scene.now.types.now ≡ K.types }
    ensures { IfOk result (λ f. f ≡ faces.«Value» (initial.initial (package_values.top_looks (scene_shown scene.now) placed.now.file placed.now.types.now (known_in known.now)) kind (shape_value_spec spec.now) at)) }
{
    let scopes = Scopes::begin(alloc, scene.blocks, placed.file);
    let names = outer_names(scene, &scopes);
    Ok(Face::Value(place_value(alloc, scene, recall, placed, known, &names, kind, spec, at)?))
}

// What a constant or a variable is: a variable with a written type is as it is written.
fn value_face<'p, K: TypesOf>(
    alloc: Global,
    scene: &Scene<'p>,
    recall: &Recall<'p, K>,
    placed: &PlacedDecl<'p>,
    known: &[Option<Face<TypeRef<'p>, SignatureRef<'p>>>],
    node: usize,
    kind: ValueKind,
    spec: &ValueSpec,
    at: usize,
) -> Result<Face<TypeRef<'p>, SignatureRef<'p>>, AllocError>
    requires { scene.now.types.now ≡ K.types }
    ensures { IfOk result (λ f. f ≡ package_values.value_face (package_values.top_looks (scene_shown scene.now) placed.now.file placed.now.types.now (known_in known.now)) (written_at (scene_shown scene.now).written node) kind (shape_value_spec spec.now).type_expr (shape_value_spec spec.now) at) }
{
    match kind {
        ValueKind::Const => initial_face(alloc, scene, recall, placed, known, kind, spec, at),
        ValueKind::Var => match &spec.type_expr {
            None => initial_face(alloc, scene, recall, placed, known, kind, spec, at),
            Some(_) => Ok(written_face(scene, node)),
        },
    }
}

// What a declaration is.
fn form_face<'p, K: TypesOf>(
    alloc: Global,
    scene: &Scene<'p>,
    recall: &Recall<'p, K>,
    placed: &PlacedDecl<'p>,
    known: &[Option<Face<TypeRef<'p>, SignatureRef<'p>>>],
    node: usize,
) -> Result<Face<TypeRef<'p>, SignatureRef<'p>>, AllocError>
    requires { scene.now.types.now ≡ K.types }
    ensures { IfOk result (λ f. f ≡ package_values.form_face (package_values.top_looks (scene_shown scene.now) placed.now.file placed.now.types.now (known_in known.now)) (written_at (scene_shown scene.now).written node) (form_shown placed.now.decl.form)) }
{
    match placed.decl.form {
        DeclForm::Value(kind, spec, at) => {
            value_face(alloc, scene, recall, placed, known, node, kind, spec, at)
        }
        DeclForm::Type(_) => Ok(written_face(scene, node)),
        DeclForm::Func(_) => Ok(written_face(scene, node)),
    }
}

impl<'n, 'p, K: TypesOf> Needing for Stage<'n, 'p, K> {
    ghost use Rattle.std.specs.Prelude.{map};
    ghost use Rattle.go_env_core.specs.Scenes.{scene_shown};
    ghost use Rattle.go_value_core.specs.Package.{declared_face, package_needs, placed_shown};
    ghost use Rattle.go_value_core.proofs.Seeing.{looks_at_needs};

    type Value = Face<TypeRef<'p>, SignatureRef<'p>>;

    ghost rows = { λ s. package_needs (scene_shown s.scene.now) (map placed_shown s.decls.now) };

    ghost value = { λ s. declared_face (scene_shown s.scene.now) (map placed_shown s.decls.now) };

    ghost at_needs = { λ s. looks_at_needs (scene_shown s.scene.now) (map placed_shown s.decls.now) };

    fn value_of(
        &self,
        alloc: Global,
        known: &[Option<Face<TypeRef<'p>, SignatureRef<'p>>>],
        node: usize,
    ) -> Result<Face<TypeRef<'p>, SignatureRef<'p>>, AllocError> {
        match self.decls.get(node) {
            None => Ok(written_face(self.scene, node)),
            Some(placed) => form_face(alloc, self.scene, self.recall, placed, known, node),
        }
    }
}
