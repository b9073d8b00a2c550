//! A place of a package.
ghost use Rattle.std.specs.Prelude.{◌≡◌, ◌++◌, OnOk, option_map};
ghost use Rattle.go_inline_core.specs.Types.{inline_shown};
ghost use Rattle.go_env_core.specs.Looks.{inline_faults, inline_type};

use crate::field_index::field_index;
use crate::fields::{field_at, field_count, field_names, field_number, seen_fields};
use crate::found::{found_exported, found_of};
use crate::meaning::Meaning;
use crate::scene::Scene;
use go_declared_core::Face;
use go_declared_core::handle_core::{
    Decl, SignatureRef, TypeRef, is_assignable, is_convertible, is_identical, selection, typed,
};
use go_expr_core::Exprs;
use go_expr_core::denote_core::{Exported, Found, LiteralField, Literals, Names, Selection};
use go_expr_core::local_core::Fault;
use go_expr_core::operand_core::{TypeForm, TypeLooks};
use go_inline_core::names_core::OpenNames;
use go_inline_core::{InlineType, InlineTypes};
use go_select_core::EmbedPath;
use go_table_core::TypeTable;
use go_tree_nodes::{TypeExpr, type_start};
use std::alloc::{AllocError, Global};

/// A place of a file of a package, as its expressions see it.
#[derive(Clone, Copy)]
pub struct Here<'n, 'p> {
    pub scene: &'n Scene<'p>,
    /// The number of the file among those of the package in order of name, from 0.
    pub file: usize,
    /// The types that are written inside the function, or in the initialisers of the file.
    pub inline: &'p InlineTypes,
    /// What the package's own declarations are, by their places in `scene.written`: none where what one needs leads back to itself, or is not known yet.
    pub known: &'n [Option<Face<TypeRef<'p>, SignatureRef<'p>>>],
    /// What names mean at the place.
    pub names: &'n OpenNames<'n, Meaning<'p>>,
}

/// A place of a file of a package, by the number of the file in order of name, from 0; the types that are written there; what the
/// package's own declarations are, by their places in `scene.written`; and what names mean at the place.
pub fn stand<'n, 'p>(
    scene: &'n Scene<'p>,
    file: usize,
    inline: &'p InlineTypes,
    known: &'n [Option<Face<TypeRef<'p>, SignatureRef<'p>>>],
    names: &'n OpenNames<'n, Meaning<'p>>,
) -> Here<'n, 'p>
    ensures scene { result.scene.now ≡ scene.now }
    ensures file { result.file ≡ file }
    ensures inline { result.inline.now ≡ inline.now }
    ensures known { result.known.now ≡ known.now }
    ensures names { result.names.now ≡ names.now }
{
    Here {
        scene,
        file,
        inline,
        known,
        names,
    }
}

// The type that is written at a place, if one is: none where it is no type.
fn inline_type<'p>(table: &'p TypeTable, inline: Option<&'p InlineType>) -> Option<TypeRef<'p>>
    ensures { result ≡ inline_type table.now (option_map (λ t. inline_shown t.now) inline.entry) }
{
    match inline {
        Some(inline) => typed(table, Some(&inline.term)),
        None => None,
    }
}

// Adds the faults of the type that is written at a place, if one is.
fn add_inline(inline: Option<&InlineType>, faults: &mut Vec<Fault>) -> Result<(), AllocError>
    ensures { OnOk result (faults.new.items ≡ faults.old.items ++ inline_faults (option_map (λ t. inline_shown t.now) inline.entry)) }
{
    match inline {
        Some(inline) => {
            faults.extend_from_slice(inline.faults.as_slice())?;
            Ok(())
        }
        None => Ok(()),
    }
}

impl<'n, 'p> TypeLooks for Here<'n, 'p> {
    ghost use Rattle.go_env_core.specs.Looks.{types_at};

    type Type = TypeRef<'p>;

    ghost types = { types_at };

    fn again(&self, t: &TypeRef<'p>) -> TypeRef<'p> {
        t.again()
    }

    fn form(&self, t: &TypeRef<'p>) -> TypeForm<TypeRef<'p>> {
        t.form(self.scene.types)
    }

    fn pointer_to(&self, alloc: Global, t: &TypeRef<'p>) -> Result<TypeRef<'p>, AllocError> {
        t.pointer_to()
    }

    fn int(&self) -> TypeRef<'p> {
        self.scene.home.int()
    }

    fn string(&self) -> TypeRef<'p> {
        self.scene.home.string()
    }

    fn bool(&self) -> TypeRef<'p> {
        self.scene.home.bool()
    }

    fn any(&self) -> TypeRef<'p> {
        self.scene.home.any()
    }

    fn identical(&self, a: &TypeRef<'p>, b: &TypeRef<'p>) -> bool {
        is_identical(a, b)
    }

    fn assignable(
        &self,
        alloc: Global,
        value: &TypeRef<'p>,
        variable: &TypeRef<'p>,
    ) -> Result<bool, AllocError> {
        is_assignable(alloc, self.scene.types, value, variable)
    }

    fn convertible(&self, value: &TypeRef<'p>, to: &TypeRef<'p>) -> bool {
        is_convertible(self.scene.types, value, to)
    }
}

impl<'n, 'p> Names for Here<'n, 'p> {
    ghost use Rattle.go_env_core.specs.Looks.{here_names};

    type Signature = SignatureRef<'p>;

    type Decl = Decl<'p>;

    type Path = EmbedPath;

    ghost names = { here_names };

    fn again_signature(&self, signature: &SignatureRef<'p>) -> SignatureRef<'p> {
        signature.again()
    }

    fn again_decl(&self, decl: &Decl<'p>) -> Decl<'p> {
        decl.again()
    }

    fn find(
        &self,
        alloc: Global,
        name: &str,
    ) -> Result<Found<TypeRef<'p>, SignatureRef<'p>, Decl<'p>>, AllocError> {
        found_of(
            self.scene,
            self.file,
            self.known,
            name,
            self.names.find(name)?,
        )
    }

    fn exported(
        &self,
        alloc: Global,
        import: &Decl<'p>,
        name: &str,
    ) -> Result<Exported<TypeRef<'p>, SignatureRef<'p>, Decl<'p>>, AllocError> {
        found_exported(self.scene, import, name)
    }

    fn select(
        &self,
        alloc: Global,
        t: &TypeRef<'p>,
        name: &str,
    ) -> Result<Selection<TypeRef<'p>, SignatureRef<'p>, Decl<'p>, EmbedPath>, AllocError> {
        selection(alloc, self.scene.types, self.scene.home, t, name)
    }

    fn param_count(&self, signature: &SignatureRef<'p>) -> usize {
        signature.param_count(self.scene.types)
    }

    fn param_at(&self, signature: &SignatureRef<'p>, at: usize) -> Option<TypeRef<'p>> {
        signature.param_at(self.scene.types, at)
    }

    fn result_count(&self, signature: &SignatureRef<'p>) -> usize {
        signature.result_count(self.scene.types)
    }

    fn result_at(&self, signature: &SignatureRef<'p>, at: usize) -> Option<TypeRef<'p>> {
        signature.result_at(self.scene.types, at)
    }
}

impl<'n, 'p> Literals for Here<'n, 'p> {
    ghost use Rattle.go_env_core.specs.Looks.{here_literals};

    ghost literals = { here_literals };

    fn field_count(&self, t: &TypeRef<'p>) -> usize {
        field_count(seen_fields(self.scene, t))
    }

    fn field_at(&self, t: &TypeRef<'p>, at: usize) -> LiteralField<TypeRef<'p>, Decl<'p>> {
        field_at(self.scene, seen_fields(self.scene, t), at)
    }

    fn field_names(&self, alloc: Global, t: &TypeRef<'p>) -> Result<Vec<&str>, AllocError> {
        field_names(alloc, seen_fields(self.scene, t))
    }

    fn has_index(&self, t: &TypeRef<'p>) -> bool {
        field_index(self.scene, t).is_some()
    }

    fn field_number(
        &self,
        alloc: Global,
        t: &TypeRef<'p>,
        name: &str,
    ) -> Result<Option<usize>, AllocError> {
        field_number(alloc, self.scene, t, name)
    }
}

impl<'n, 'p> Exprs for Here<'n, 'p> {
    ghost use Rattle.go_env_core.specs.Looks.{here_written};

    ghost written = { here_written };

    fn written(&self, alloc: Global, tree: &TypeExpr) -> Result<Option<TypeRef<'p>>, AllocError> {
        Ok(inline_type(self.scene.types, self.inline.at(type_start(tree))))
    }

    fn add_type_faults(
        &self,
        alloc: Global,
        tree: &TypeExpr,
        faults: &mut Vec<Fault>,
    ) -> Result<(), AllocError> {
        add_inline(self.inline.at(type_start(tree)), faults)
    }
}
