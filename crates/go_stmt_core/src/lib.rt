//! Statements, the pieces of functions and the declarations outside them, in any environment.
#![tactic(auto)]

pub mod piece;
pub mod statement;
pub mod toplevel;

/// What the crates above name of `go_denote_core`.
pub mod denote_core {
    pub use go_expr_core::denote_core::{
        Argument, Builtin, Denoted, Outcome, Stand, argument_of, arguments_of, fits_type,
    };
}

/// What the crates above name of `go_expr_core`.
pub mod expr_core {
    pub use go_expr_core::{Exprs, Notes, Use, check_expr, check_type_name, start};
}

/// What the crates above name of `go_inline_core`.
pub mod inline_core {
    pub use go_inline_core::{Ground, InlineTypes, initialiser_types};
}

/// What the crates above name of `go_operand_core`.
pub mod operand_core {
    pub use go_expr_core::operand_core::{Operand, TypeLooks, ValueType, basic_under};
}
