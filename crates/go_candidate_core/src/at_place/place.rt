//! A place of a package that was checked.
use go_inline_core::block_core::Blocks;
use go_summary_core::declared_core::{Face, FaceTable, WrittenFaces};
use go_summary_core::handle_core::Home;
use go_table_core::TypeTable;
use go_term_core::decl_core::Places;
use go_term_core::{Signature, TypeTerm};

/// A file of a package that was checked, with what is kept of the package and known of the packages that it reaches. All is lent.
#[derive(Drop)]
pub struct PlaceAt<'a, P> {
    /// The package's path, and the predeclared types.
    pub home: &'a Home,
    /// What its package block and its file blocks bind.
    pub blocks: &'a Blocks,
    /// The types of the package and of those that it reaches.
    pub types: &'a TypeTable,
    /// What the packages show that it imports.
    pub others: &'a FaceTable,
    /// Its own declarations outside functions, as far as they are written.
    pub written: &'a WrittenFaces,
    /// What its own declarations are, by their places in `written`: none where what one needs leads back to itself.
    pub declared: &'a [Option<Face<TypeTerm, Signature>>],
    /// What other packages show to names of types.
    pub imported: &'a P,
    /// The number of the file among those of the package in order of name, from 0.
    pub file: usize,
    /// The identifiers that the file declares outside function bodies.
    pub places: &'a Places,
}
