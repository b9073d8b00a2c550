//! The types of a package, from what is written of them: which are types at all, their underlying types and their methods.
//!
//! It is the public face of types: terms and identity, settled terms and tables are given out from here. The Go specification, "Type
//! declarations", "Underlying types".
#![tactic(auto)]

mod build;
mod laws;
mod looped;
mod marks;
mod methods;
mod nothing;
mod own_keys;
mod roots;
mod settled;

pub use build::{TypeFault, build_types};
pub use go_table_core::{DeclaredMethod, DefinedType, Located, PackageTypes, TypeEntry, TypeTable};
pub use go_term_core::settling::{Kind, Kinds, can_embed, kind_of, settle, settle_signature};
pub use go_term_core::{
    Basic, Field, LocalPlace, MemberPlace, Method, Signature, Tag, TypeTerm, has_same_signature,
    identical, identical_but_for_tags,
};
pub use laws::{
    building_is_local, built_mentions_written, one_settled, underlying_as_defined, worked_types,
};
pub use looped::type_loops;

/// What the crates above name of `go_table_core`.
pub mod table_core {
    pub use go_table_core::{
        DeclaredMethod, FieldTable, StructField, StructFields, TypeEntry, TypeTable,
    };
}
