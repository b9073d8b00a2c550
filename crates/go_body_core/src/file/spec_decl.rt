//! Declarations outside functions by specifications, and their check in any environment.
ghost use Rattle.std.specs.Prelude.{◌≡◌, ◌++◌, OnOk};
ghost use Rattle.go_expr_core.specs.Looks.{everywhere};
ghost use Rattle.go_body_core.specs.file.mirrors.SpecDecls.{spec_decl_faults, spec_decl_uses};

use go_expr_core::{Exprs, Notes};
use go_stmt_core::toplevel::{check_type_decl, check_value_decl};
use go_tree_nodes::{TypeDecl, ValueDecl};
use std::alloc::{AllocError, Global};

/// A declaration that consists of specifications.
#[derive(Clone, Copy)]
pub(crate) enum SpecDecl<'t> {
    /// One of constants or variables.
    Values(&'t ValueDecl),
    /// One of types.
    Types(&'t TypeDecl),
}

/// Notes what a declaration has and breaks, where names mean what the environment says.
pub(crate) fn check_spec_decl<E: Exprs>(
    env: &E,
    alloc: Global,
    decl: &SpecDecl<'_>,
    notes: &mut Notes<E::Decl, E::Path>,
) -> Result<(), AllocError>
    ensures uses { OnOk result (notes.new.uses.items ≡ notes.old.uses.items ++ spec_decl_uses (everywhere (E.types env.now) (E.names env.now) (E.literals env.now) (E.written env.now)) decl.now) }
    ensures faults { OnOk result (notes.new.faults.items ≡ notes.old.faults.items ++ spec_decl_faults (everywhere (E.types env.now) (E.names env.now) (E.literals env.now) (E.written env.now)) decl.now) }
{
    match decl {
        SpecDecl::Values(values) => check_value_decl(env, alloc, values, notes),
        SpecDecl::Types(types) => check_type_decl(env, alloc, types, notes),
    }
}
