//! The package block and the file blocks of a package: which names they bind, and the faults in them.
//!
//! "The package block contains all Go source text for that package", and each file "has a file block that
//! contains all Go source text in that file" (the Go specification, "Blocks"). Constants, types, variables and
//! functions outside functions are declared in the package block, the names of imports in the file block
//! ("Declarations and scope", "Import declarations").
//!
//! A package is judged from its trees and from what its imports come to, each as a refusal or as what the
//! imported package shows ([`Exports`]): its path, its name, and its exported names with their declarations.
#![tactic(auto)]

mod binding;
mod block;
mod decls;
mod exports;
mod fault;
mod imports;
mod laws;
mod making;
mod name_order;
mod naming;
mod package_block;
mod table;
mod word;

pub use binding::{Binding, Target};
pub use block::Blocks;
pub use exports::{Exports, NamedDecl};
pub use fault::{BlockFault, BlockRule};
pub use go_decl_core::{DeclKey, DeclKind, DeclRef};
pub use imports::{ImportNames, Imported};
pub use laws::{
    alone_is_whole, bindings_are_in_order, declarations_are_in_order, each_workspace_has_blocks,
    faults_are_these, file_answers_its_own, file_has_the_first, import_texts_agree, one_blocks,
    one_blocks_alone, package_has_the_first, package_is_never_hidden,
};
pub use making::blocks;
pub use naming::{import_names, import_specs};

/// What the crates above name of `go_decl_core`.
pub mod decl_core {
    pub use go_decl_core::{Anchor, DeclKind, DeclRef, Outline, Places, TopDecl, anchors, outline};
}

/// What the crates above name of `go_graph_core`.
pub mod graph_core {
    pub use go_graph_core::{
        ImportAt, ImportOutcome, Package, PackageSource, Plan, SourceFile, Workspace, assemble,
        one_outcome, plan_imports,
    };
}

/// What the crates above name of `go_scope_stack`.
pub mod scope_stack {
    pub use go_scope_stack::{DeclId, NameList, OpenBlocks, ShortDecl, ShortName};
}
