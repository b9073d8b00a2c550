//! What is returned.
ghost use Rattle.std.specs.Prelude.{◌≡◌, ◌++◌, OnOk};
ghost use Rattle.go_tree_nodes.specs.Shapes.{shape_some_exprs};
ghost use Rattle.go_expr_core.specs.Looks.{everywhere};
ghost use Rattle.go_stmt_core.specs.piece.Statements as statements;

use crate::piece::given::check_list;
use crate::statement::return_rule;
use go_constant_core::text_core::Span;
use go_expr_core::{Exprs, Notes, note_fault};
use std::alloc::{AllocError, Global};

/// Notes what is returned has and breaks, by the place of its `return`, in a function whose results have these types, and have names or
/// not. Y4 lies at the place. The Go specification, "Return statements".
///
/// # Errors
///
/// `AllocError` where memory is wanting; then some may be noted.
pub fn check_returned<E: Exprs>(
    env: &E,
    alloc: Global,
    place: Span,
    values: &Option<Box<go_tree_nodes::Exprs>>,
    results: &[Option<E::Type>],
    has_names: bool,
    notes: &mut Notes<E::Decl, E::Path>,
) -> Result<(), AllocError>
    ensures uses { OnOk result (notes.new.uses.items ≡ notes.old.uses.items ++ statements.returned_uses (everywhere (E.types env.now) (E.names env.now) (E.literals env.now) (E.written env.now)) (shape_some_exprs values.now)) }
    ensures faults { OnOk result (notes.new.faults.items ≡ notes.old.faults.items ++ statements.returned_faults (everywhere (E.types env.now) (E.names env.now) (E.literals env.now) (E.written env.now)) results.now has_names place (shape_some_exprs values.now)) }
{
    let offset = place.start as usize;
    match values {
        None => {
            let none = Vec::new(alloc);
            let rule = return_rule(env, alloc, results, has_names, false, &none)?;
            note_fault(&mut notes.faults, offset, rule)
        }
        Some(values) => {
            let given = check_list(env, alloc, values, notes)?;
            let unknown = given.is_unknown;
            let rule = return_rule(env, alloc, results, has_names, unknown, &given.values)?;
            note_fault(&mut notes.faults, offset, rule)
        }
    }
}
