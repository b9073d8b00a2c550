//! A place of a package with locals that are open there.
ghost use Rattle.std.specs.Prelude.{◌≡◌};

use crate::at_place::found::found_local;
use crate::at_place::local::{OpenLocal, latest};
use crate::at_place::types::{NotedType, noted_type};
use go_body_core::env_core::Here;
use go_expr_core::Exprs;
use go_expr_core::denote_core::{Exported, Found, LiteralField, Literals, Names, Selection};
use go_expr_core::local_core::Fault;
use go_expr_core::operand_core::{TypeForm, TypeLooks};
use go_select_core::EmbedPath;
use go_summary_core::handle_core::{Decl, SignatureRef, TypeRef};
use go_tree_nodes::{TypeExpr, type_start};
use std::alloc::{AllocError, Global};

/// A place of a package, as one of its expressions sees it: what is seen outside functions there, the locals that are open, and the struct types that
/// the expression writes.
#[derive(Clone, Copy)]
pub(crate) struct Around<'n, 'p> {
    pub(crate) here: Here<'n, 'p>,
    pub(crate) locals: &'p [OpenLocal<'p>],
    pub(crate) types: &'p [NotedType],
}

impl<'n, 'p> TypeLooks for Around<'n, 'p> {
    ghost use Rattle.go_candidate_core.specs.at_place.Arounds.{around_types};

    type Type = TypeRef<'p>;

    ghost types = { around_types };

    fn again(&self, t: &TypeRef<'p>) -> TypeRef<'p> {
        t.again()
    }

    fn form(&self, t: &TypeRef<'p>) -> TypeForm<TypeRef<'p>> {
        self.here.form(t)
    }

    fn pointer_to(&self, alloc: Global, t: &TypeRef<'p>) -> Result<TypeRef<'p>, AllocError> {
        self.here.pointer_to(alloc, t)
    }

    fn int(&self) -> TypeRef<'p> {
        self.here.int()
    }

    fn string(&self) -> TypeRef<'p> {
        self.here.string()
    }

    fn bool(&self) -> TypeRef<'p> {
        self.here.bool()
    }

    fn any(&self) -> TypeRef<'p> {
        self.here.any()
    }

    fn identical(&self, a: &TypeRef<'p>, b: &TypeRef<'p>) -> bool {
        self.here.identical(a, b)
    }

    fn assignable(
        &self,
        alloc: Global,
        value: &TypeRef<'p>,
        variable: &TypeRef<'p>,
    ) -> Result<bool, AllocError> {
        self.here.assignable(alloc, value, variable)
    }

    fn convertible(&self, value: &TypeRef<'p>, to: &TypeRef<'p>) -> bool {
        self.here.convertible(value, to)
    }
}

impl<'n, 'p> Names for Around<'n, 'p> {
    ghost use Rattle.go_candidate_core.specs.at_place.Arounds.{around_names};

    type Signature = SignatureRef<'p>;

    type Decl = Decl<'p>;

    type Path = EmbedPath;

    ghost names = { around_names };

    fn again_signature(&self, signature: &SignatureRef<'p>) -> SignatureRef<'p> {
        signature.again()
    }

    fn again_decl(&self, decl: &Decl<'p>) -> Decl<'p> {
        decl.again()
    }

    fn find(
        &self,
        alloc: Global,
        name: &str,
    ) -> Result<Found<TypeRef<'p>, SignatureRef<'p>, Decl<'p>>, AllocError> {
        match latest(self.locals, name) {
            Some(local) => found_local(self.here.scene, self.here.file, local),
            None => self.here.find(alloc, name),
        }
    }

    fn exported(
        &self,
        alloc: Global,
        import: &Decl<'p>,
        name: &str,
    ) -> Result<Exported<TypeRef<'p>, SignatureRef<'p>, Decl<'p>>, AllocError> {
        self.here.exported(alloc, import, name)
    }

    fn select(
        &self,
        alloc: Global,
        t: &TypeRef<'p>,
        name: &str,
    ) -> Result<Selection<TypeRef<'p>, SignatureRef<'p>, Decl<'p>, EmbedPath>, AllocError> {
        self.here.select(alloc, t, name)
    }

    fn param_count(&self, signature: &SignatureRef<'p>) -> usize {
        self.here.param_count(signature)
    }

    fn param_at(&self, signature: &SignatureRef<'p>, at: usize) -> Option<TypeRef<'p>> {
        self.here.param_at(signature, at)
    }

    fn result_count(&self, signature: &SignatureRef<'p>) -> usize {
        self.here.result_count(signature)
    }

    fn result_at(&self, signature: &SignatureRef<'p>, at: usize) -> Option<TypeRef<'p>> {
        self.here.result_at(signature, at)
    }
}

impl<'n, 'p> Literals for Around<'n, 'p> {
    ghost use Rattle.go_candidate_core.specs.at_place.Arounds.{around_literals};

    ghost literals = { around_literals };

    fn field_count(&self, t: &TypeRef<'p>) -> usize {
        self.here.field_count(t)
    }

    fn field_at(&self, t: &TypeRef<'p>, at: usize) -> LiteralField<TypeRef<'p>, Decl<'p>> {
        self.here.field_at(t, at)
    }

    fn field_names(&self, alloc: Global, t: &TypeRef<'p>) -> Result<Vec<&str>, AllocError> {
        self.here.field_names(alloc, t)
    }

    fn has_index(&self, t: &TypeRef<'p>) -> bool {
        self.here.has_index(t)
    }

    fn field_number(
        &self,
        alloc: Global,
        t: &TypeRef<'p>,
        name: &str,
    ) -> Result<Option<usize>, AllocError> {
        self.here.field_number(alloc, t, name)
    }
}

impl<'n, 'p> Exprs for Around<'n, 'p> {
    ghost use Rattle.go_candidate_core.specs.at_place.Arounds.{around_written};

    ghost written = { around_written };

    fn written(&self, alloc: Global, tree: &TypeExpr) -> Result<Option<TypeRef<'p>>, AllocError> {
        Ok(noted_type(self.here.scene.types, self.types, type_start(tree)))
    }

    fn add_type_faults(
        &self,
        alloc: Global,
        tree: &TypeExpr,
        faults: &mut Vec<Fault>,
    ) -> Result<(), AllocError> {
        Ok(())
    }
}
