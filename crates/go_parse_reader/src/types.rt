//! Reading types, parameters and signatures (the Go specification, "Types").

mod ahead;
mod entries;
mod heights;
mod names;
mod stop;
mod type_reader;

pub use crate::types::ahead::Ahead;
pub use crate::types::heights::type_height;
pub use crate::types::names::{idents, named_type, type_name};
pub use crate::types::stop::Stop;
pub use crate::types::type_reader::{signature, struct_type, type_expr};
pub use go_tree_nodes::text_core::{add, boxed, fitted};
