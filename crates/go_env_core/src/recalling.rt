//! A place of a package, where what was decided of its types is remembered.
ghost use Rattle.std.specs.Prelude.{◌≡◌};
ghost use Rattle.std.specs.Coded.{Coded-set, coded_list};
ghost use Rattle.go_table_core.specs.codes.EntryCodes.{coded_entry};

use crate::here::Here;
use crate::meaning::Meaning;
use crate::recall::{Recall, TypesOf};
use go_declared_core::handle_core::{Decl, SignatureRef, TypeRef, chosen};
use go_expr_core::Exprs;
use go_expr_core::denote_core::{Exported, Found, LiteralField, Literals, Names, Selection};
use go_expr_core::local_core::Fault;
use go_expr_core::operand_core::{TypeForm, TypeLooks};
use go_select_core::EmbedPath;
use go_tree_nodes::TypeExpr;
use std::alloc::{AllocError, Global};

/// A place of a package, with what was decided of the types of its table. Its answers are those of the place.
#[derive(Drop)]
pub struct Recalling<'m, 'n, 'p, K: TypesOf> {
    pub here: Here<'n, 'p>,
    pub recall: &'m Recall<'p, K>,
    pub ghost same: { here.scene.now.types.now ≡ K.types } by { Coded-set (coded_list coded_entry) _ _ },
}

impl<'m, 'n, 'p, K: TypesOf> TypeLooks for Recalling<'m, 'n, 'p, K> {
    ghost use Rattle.go_env_core.specs.Looks.{types_at};

    type Type = TypeRef<'p>;

    ghost types = { λ r. types_at r.here };

    fn again(&self, t: &TypeRef<'p>) -> TypeRef<'p> {
        self.here.again(t)
    }

    fn form(&self, t: &TypeRef<'p>) -> TypeForm<TypeRef<'p>> {
        self.here.form(t)
    }

    fn pointer_to(&self, alloc: Global, t: &TypeRef<'p>) -> Result<TypeRef<'p>, AllocError> {
        self.here.pointer_to(alloc, t)
    }

    fn int(&self) -> TypeRef<'p> {
        self.here.int()
    }

    fn string(&self) -> TypeRef<'p> {
        self.here.string()
    }

    fn bool(&self) -> TypeRef<'p> {
        self.here.bool()
    }

    fn any(&self) -> TypeRef<'p> {
        self.here.any()
    }

    fn identical(&self, a: &TypeRef<'p>, b: &TypeRef<'p>) -> bool {
        self.here.identical(a, b)
    }

    fn assignable(
        &self,
        alloc: Global,
        value: &TypeRef<'p>,
        variable: &TypeRef<'p>,
    ) -> Result<bool, AllocError> {
        if let Some(answer) = self.recall.assignable(value, variable) {
            return Ok(answer);
        }
        let answer = self.here.assignable(alloc, value, variable)?;
        self.recall.note_assignable(value, variable, answer);
        Ok(answer)
    }

    fn convertible(&self, value: &TypeRef<'p>, to: &TypeRef<'p>) -> bool {
        if let Some(answer) = self.recall.convertible(value, to) {
            return answer;
        }
        let answer = self.here.convertible(value, to);
        self.recall.note_convertible(value, to, answer);
        answer
    }
}

impl<'m, 'n, 'p, K: TypesOf> Names for Recalling<'m, 'n, 'p, K> {
    ghost use Rattle.go_env_core.specs.Looks.{here_names};

    type Signature = SignatureRef<'p>;

    type Decl = Decl<'p>;

    type Path = EmbedPath;

    ghost names = { λ r. here_names r.here };

    fn again_signature(&self, signature: &SignatureRef<'p>) -> SignatureRef<'p> {
        self.here.again_signature(signature)
    }

    fn again_decl(&self, decl: &Decl<'p>) -> Decl<'p> {
        self.here.again_decl(decl)
    }

    fn find(
        &self,
        alloc: Global,
        name: &str,
    ) -> Result<Found<TypeRef<'p>, SignatureRef<'p>, Decl<'p>>, AllocError> {
        self.here.find(alloc, name)
    }

    fn exported(
        &self,
        alloc: Global,
        import: &Decl<'p>,
        name: &str,
    ) -> Result<Exported<TypeRef<'p>, SignatureRef<'p>, Decl<'p>>, AllocError> {
        self.here.exported(alloc, import, name)
    }

    fn select(
        &self,
        alloc: Global,
        t: &TypeRef<'p>,
        name: &str,
    ) -> Result<Selection<TypeRef<'p>, SignatureRef<'p>, Decl<'p>, EmbedPath>, AllocError> {
        let types = self.here.scene.types;
        let home = self.here.scene.home;
        if let Some(answered) = self.recall.select(alloc, types, t, name, home.path()) {
            return chosen(types, home, answered);
        }
        let found = self.here.select(alloc, t, name)?;
        self.recall
            .note_selection(alloc, types, home.path(), t, name, &found);
        Ok(found)
    }

    fn param_count(&self, signature: &SignatureRef<'p>) -> usize {
        self.here.param_count(signature)
    }

    fn param_at(&self, signature: &SignatureRef<'p>, at: usize) -> Option<TypeRef<'p>> {
        self.here.param_at(signature, at)
    }

    fn result_count(&self, signature: &SignatureRef<'p>) -> usize {
        self.here.result_count(signature)
    }

    fn result_at(&self, signature: &SignatureRef<'p>, at: usize) -> Option<TypeRef<'p>> {
        self.here.result_at(signature, at)
    }
}

impl<'m, 'n, 'p, K: TypesOf> Literals for Recalling<'m, 'n, 'p, K> {
    ghost use Rattle.go_env_core.specs.Looks.{here_literals};

    ghost literals = { λ r. here_literals r.here };

    fn field_count(&self, t: &TypeRef<'p>) -> usize {
        self.here.field_count(t)
    }

    fn field_at(&self, t: &TypeRef<'p>, at: usize) -> LiteralField<TypeRef<'p>, Decl<'p>> {
        self.here.field_at(t, at)
    }

    fn field_names(&self, alloc: Global, t: &TypeRef<'p>) -> Result<Vec<&str>, AllocError> {
        self.here.field_names(alloc, t)
    }

    fn has_index(&self, t: &TypeRef<'p>) -> bool {
        self.here.has_index(t)
    }

    fn field_number(
        &self,
        alloc: Global,
        t: &TypeRef<'p>,
        name: &str,
    ) -> Result<Option<usize>, AllocError> {
        self.here.field_number(alloc, t, name)
    }
}

impl<'m, 'n, 'p, K: TypesOf> Exprs for Recalling<'m, 'n, 'p, K> {
    ghost use Rattle.go_env_core.specs.Looks.{here_written};

    ghost written = { λ r. here_written r.here };

    fn written(&self, alloc: Global, tree: &TypeExpr) -> Result<Option<TypeRef<'p>>, AllocError> {
        self.here.written(alloc, tree)
    }

    fn add_type_faults(
        &self,
        alloc: Global,
        tree: &TypeExpr,
        faults: &mut Vec<Fault>,
    ) -> Result<(), AllocError> {
        self.here.add_type_faults(alloc, tree, faults)
    }
}
