//! Types as they are seen from a place.
ghost use Rattle.go_handle_core.specs.deciding.Rules.{term_rules};

use crate::assignment::is_assignable;
use crate::conversion::is_convertible;
use crate::home::Home;
use crate::identity::is_identical;
use crate::types::TypeRef;
use go_denote_core::operand_core::{TypeForm, TypeLooks};
use go_table_core::TypeTable;
use std::alloc::{AllocError, Global};

/// The types of a table, as a place of a package sees them.
#[derive(Clone, Copy)]
pub struct TypesHere<'a> {
    pub table: &'a TypeTable,
    pub home: &'a Home,
}

impl<'a> TypeLooks for TypesHere<'a> {
    type Type = TypeRef<'a>;

    ghost types = { λ here. term_rules here.table.now here.home.now };

    fn again(&self, t: &TypeRef<'a>) -> TypeRef<'a> {
        t.again()
    }

    fn form(&self, t: &TypeRef<'a>) -> TypeForm<TypeRef<'a>> {
        t.form(self.table)
    }

    fn pointer_to(&self, alloc: Global, t: &TypeRef<'a>) -> Result<TypeRef<'a>, AllocError> {
        t.pointer_to()
    }

    fn int(&self) -> TypeRef<'a> {
        self.home.int()
    }

    fn string(&self) -> TypeRef<'a> {
        self.home.string()
    }

    fn bool(&self) -> TypeRef<'a> {
        self.home.bool()
    }

    fn any(&self) -> TypeRef<'a> {
        self.home.any()
    }

    fn identical(&self, a: &TypeRef<'a>, b: &TypeRef<'a>) -> bool {
        is_identical(a, b)
    }

    fn assignable(
        &self,
        alloc: Global,
        value: &TypeRef<'a>,
        variable: &TypeRef<'a>,
    ) -> Result<bool, AllocError> {
        is_assignable(alloc, self.table, value, variable)
    }

    fn convertible(&self, value: &TypeRef<'a>, to: &TypeRef<'a>) -> bool {
        is_convertible(self.table, value, to)
    }
}
