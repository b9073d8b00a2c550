//! What statements and declarations ask of what their expressions denote: assignments, declarations of variables and constants,
//! returns, expression statements, conditions and operators with `=`.
//!
//! No tree is looked at here: a statement comes with what stands on its left, or what it declares, and with the values that its list
//! gives, as [`go_expr_core::denote_core::arguments_of`] makes them. Each call answers the rule that is broken, if one is, or the types and
//! constants that are declared.
//! The Go specification, "Assignment statements", "Variable declarations", "Short variable declarations", "Constant declarations",
//! "Return statements", "Expression statements", "IncDec statements", "If statements", "For statements".

mod assignments;
mod constants;
mod declarations;
mod laws;
mod returns;
mod statements;
mod targets;
mod updates;

pub use crate::statement::assignments::assignment_rule;
pub use crate::statement::constants::{ConstantAnswer, constant_answer, constants_rule};
pub use crate::statement::declarations::{
    declared_types, initial_argument, initials_rule, short_types, some_type_again, variables_rule,
};
pub use crate::statement::laws::{
    assignments_stand, calls_stand, conditions_are_boolean, constants_are_declared, returns_stand,
    short_declarations, statements_are_local, targets_are_addressable, updates_stand,
    variables_are_declared, worked_statements,
};
pub use crate::statement::returns::return_rule;
pub use crate::statement::statements::{condition_rule, statement_rule};
pub use crate::statement::targets::{Target, target_of};
pub use crate::statement::updates::{increment_rule, update_rule};
