//! The checker of the pieces of a function.
ghost use Rattle.std.specs.Prelude.{◌≡◌, [], ◌∷◌, ◌++◌, IfOk, OnOk, map};
ghost use Rattle.std.specs.Coded.{Coded-set, coded_list};
ghost use Rattle.go_tree_nodes.specs.TypeShapes.{shape_signature};
ghost use Rattle.go_table_core.specs.codes.EntryCodes.{coded_entry};
ghost use Rattle.go_names_core.specs.scope_core.Models.{scopes_model};
ghost use Rattle.go_env_core.specs.Scenes.{scene_shown};
ghost use Rattle.go_env_core.specs.Looks.{inline_rules};
ghost use Rattle.go_stmt_core.specs.piece.Headers.{returned_types};
ghost use Rattle.go_body_core.specs.Rules.{locals_of, outside_looks};
ghost use Rattle.go_body_core.specs.mirrors.Noted.{noted_at, values_at};

use crate::notes::{Note, declare, nothing};
use crate::piece_trees::{PieceTree, check_piece};
use go_declared_core::Face;
use go_env_core::{Meaning, Recall, Recalling, Scene, TypesOf, stand};
use go_handle_core::{SignatureRef, TypeRef};
use go_inline_core::InlineTypes;
use go_names_core::{Checker, OpenNames, header_idents, listed_idents};
use go_stmt_core::piece::function_results;
use go_text_core::Span;
use go_tree_nodes::{Definition, Expr, Exprs, FuncDecl, Ident, Simple, ValueKind, ValueSpec};
use std::alloc::{AllocError, Global};

/// What the pieces of a function are checked by: where it stands, and what it returns.
#[derive(Clone, Copy)]
pub struct Pieces<'c, 'p> {
    /// Where memory is taken.
    pub alloc: Global,
    /// What is known of the package.
    pub scene: &'c Scene<'p>,
    /// The number of its file among those of the package in order of name, from 0.
    pub file: usize,
    /// The types that are written inside it.
    pub inline: &'p InlineTypes,
    /// What the package's own declarations are, by their places in `scene.written`.
    pub known: &'c [Option<Face<TypeRef<'p>, SignatureRef<'p>>>],
    /// The types of its results.
    pub results: &'c [Option<TypeRef<'p>>],
    /// Whether its results have names.
    pub has_names: bool,
}

impl<'c, 'p> Pieces<'c, 'p> {
    /// The types of a function's results, where names mean what they mean at the top of its file.
    pub(crate) fn results_at(
        &self,
        names: &OpenNames<Meaning<'p>>,
        func: &FuncDecl,
    ) -> Result<Vec<Option<TypeRef<'p>>>, AllocError>
        requires scopes { names.now.scopes.now ≡ scopes_model (scene_shown self.now.scene.now).blocks self.now.file [] }
        requires locals { names.now.locals.now ≡ [] }
        ensures { IfOk result (λ ts. ts.items ≡ returned_types (outside_looks (scene_shown self.now.scene.now) self.now.file self.now.known.now (inline_rules (scene_shown self.now.scene.now) self.now.inline.now)) (shape_signature func.now.signature)) }
    {
        let here = stand(self.scene, self.file, self.inline, self.known, names);
        function_results(&here, self.alloc, &func.signature)
    }

    // Notes a piece, with the locals that it declares, and answers what its names mean. By these names, and which of them are the first
    // of their block.
    fn declare_piece<K: TypesOf>(
        &self,
        recall: &Recall<'p, K>,
        names: &OpenNames<Meaning<'p>>,
        piece: &PieceTree<'_>,
        idents: &[&Ident],
        firsts: &[bool],
        notes: &mut Vec<Note<'p>>,
    ) -> Result<Vec<Meaning<'p>>, AllocError>
        requires { self.now.scene.now.types.now ≡ K.types }
        ensures noted { OnOk result (notes.new.items ≡ notes.old.items ++ noted_at self.now names.now firsts.now piece.now (map (λ i. i.now) idents.now) ∷ []) }
        ensures means { IfOk result (λ means. means.items ≡ locals_of (map (λ i. i.now) idents.now) (values_at self.now names.now firsts.now piece.now)) }
    {
        let here = stand(self.scene, self.file, self.inline, self.known, names);
        let place = Recalling { here, recall };
        let mut own = nothing(self.alloc);
        let values = check_piece(
            &place,
            self.alloc,
            piece,
            firsts,
            self.results,
            self.has_names,
            &mut own,
        )?;
        declare(self.alloc, idents, firsts, values, own, notes)
    }

    // Notes a piece that declares nothing.
    fn note_piece<K: TypesOf>(
        &self,
        recall: &Recall<'p, K>,
        names: &OpenNames<Meaning<'p>>,
        piece: &PieceTree<'_>,
        notes: &mut Vec<Note<'p>>,
    ) -> Result<(), AllocError>
        requires { self.now.scene.now.types.now ≡ K.types }
        ensures { OnOk result (notes.new.items ≡ notes.old.items ++ noted_at self.now names.now [] piece.now [] ∷ []) }
    {
        self.declare_piece(recall, names, piece, &[], &[], notes)?;
        Ok(())
    }
}

/// The checker of the pieces of a function, with what was decided of the types of its table.
#[derive(Drop)]
pub struct RecalledPieces<'c, 'p, K: TypesOf> {
    /// What the pieces are checked by.
    pub pieces: Pieces<'c, 'p>,
    /// What was decided.
    pub recall: &'c Recall<'p, K>,
    /// They are the types of this table.
    pub ghost same: { pieces.scene.now.types.now ≡ K.types } by { Coded-set (coded_list coded_entry) _ _ },
}

impl<'c, 'p, K: TypesOf> Checker for RecalledPieces<'c, 'p, K> {
    type Meaning = Meaning<'p>;

    type Note = Note<'p>;

    ghost use Rattle.go_body_core.specs.Rules.{rules_of};
    ghost use Rattle.go_body_core.specs.mirrors.Names.{rules_look_at_names};

    ghost rules = { λ c. rules_of c.pieces };

    fn check_header(
        &self,
        names: &OpenNames<Meaning<'p>>,
        func: &FuncDecl,
        firsts: &[bool],
        notes: &mut Vec<Note<'p>>,
    ) -> Result<Vec<Meaning<'p>>, AllocError> {
        let idents = header_idents(self.pieces.alloc, func)?;
        let piece = PieceTree::Header(&func.receiver, &func.signature);
        self.pieces.declare_piece(self.recall, names, &piece, idents.as_slice(), firsts, notes)
    }

    fn check_spec(
        &self,
        names: &OpenNames<Meaning<'p>>,
        kind: ValueKind,
        spec: &ValueSpec,
        firsts: &[bool],
        notes: &mut Vec<Note<'p>>,
    ) -> Result<Vec<Meaning<'p>>, AllocError> {
        let idents = listed_idents(self.pieces.alloc, &spec.names)?;
        let piece = PieceTree::Spec(kind, spec);
        self.pieces.declare_piece(self.recall, names, &piece, idents.as_slice(), firsts, notes)
    }

    fn check_short(
        &self,
        names: &OpenNames<Meaning<'p>>,
        definition: &Definition,
        firsts: &[bool],
        notes: &mut Vec<Note<'p>>,
    ) -> Result<Vec<Meaning<'p>>, AllocError> {
        let idents = listed_idents(self.pieces.alloc, &definition.names)?;
        let piece = PieceTree::Short(definition);
        self.pieces.declare_piece(self.recall, names, &piece, idents.as_slice(), firsts, notes)
    }

    fn check_simple(
        &self,
        names: &OpenNames<Meaning<'p>>,
        simple: &Simple,
        notes: &mut Vec<Note<'p>>,
    ) -> Result<(), AllocError> {
        let piece = PieceTree::Simple(simple);
        self.pieces.note_piece(self.recall, names, &piece, notes)
    }

    fn check_condition(
        &self,
        names: &OpenNames<Meaning<'p>>,
        condition: &Expr,
        notes: &mut Vec<Note<'p>>,
    ) -> Result<(), AllocError> {
        let piece = PieceTree::Condition(condition);
        self.pieces.note_piece(self.recall, names, &piece, notes)
    }

    fn check_given(
        &self,
        names: &OpenNames<Meaning<'p>>,
        place: Span,
        values: &Option<Box<Exprs>>,
        notes: &mut Vec<Note<'p>>,
    ) -> Result<(), AllocError> {
        let piece = PieceTree::Given(place, values);
        self.pieces.note_piece(self.recall, names, &piece, notes)
    }

    ghost at_names = { λ c. rules_look_at_names c.pieces };
}
