//! A file of a package whose types are written inside functions and in initialisers.
use go_names_core::block_core::Blocks;
use go_table_core::TypeTable;
use go_table_core::path_core::ImportPath;
use go_term_core::decl_core::Places;
use go_typexpr_core::entry::ImportedNames;

/// What is known of a file of a package where types are written in it. All is lent.
#[derive(Drop)]
pub struct Ground<'a, P> {
    /// The path of the package.
    pub path: &'a ImportPath,
    /// The package's blocks.
    pub blocks: &'a Blocks,
    /// The file's number among those of the package in order of name, from 0.
    pub file: usize,
    /// What other packages show, and what declarations of types mean.
    pub imported: &'a P,
    /// The identifiers that the file declares outside function bodies.
    pub places: &'a Places,
    /// The types of the package and of those that it reaches.
    pub types: &'a TypeTable,
}
