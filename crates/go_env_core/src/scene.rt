//! What is known of a package where its expressions are judged.
use go_declared_core::block_core::Blocks;
use go_declared_core::handle_core::Home;
use go_declared_core::{FaceTable, WrittenFaces};
use go_table_core::TypeTable;

/// What is known of a package where its expressions are judged. All is lent.
#[derive(Clone, Copy)]
pub struct Scene<'p> {
    /// The package's path, and the predeclared types.
    pub home: &'p Home,
    /// What its package block and its file blocks bind.
    pub blocks: &'p Blocks,
    /// The types of the package and of those that it reaches.
    pub types: &'p TypeTable,
    /// What the packages show that it imports.
    pub others: &'p FaceTable,
    /// Its own declarations outside functions, as far as they are written.
    pub written: &'p WrittenFaces,
}
