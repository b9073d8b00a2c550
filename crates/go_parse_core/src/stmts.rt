//! Reading declarations of values and types, and statements (the Go specification, "Declarations and scope" and
//! "Statements").

mod headers;
mod simple_stmts;
mod stmts;
mod type_decls;
mod value_decls;

pub use crate::stmts::stmts::block;
pub use crate::stmts::type_decls::type_decl;
pub use crate::stmts::value_decls::{value_decl, value_keyword};
