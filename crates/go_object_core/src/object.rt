//! Objects.
ghost use Rattle.std.specs.Prelude.{◌≡◌, option_map, slice_get};
ghost use Rattle.go_object_core.specs.Listing.{references_of};

use crate::instructions::Instruction;
use go_path_core::ImportPath;
use go_path_core::text_core::Name;

/// A function as it runs. `D` says where something is declared.
#[derive(Drop)]
pub struct FunctionCode<D> {
    /// Where the function is declared.
    pub declaration: D,
    pub name: Name,
    pub has_receiver: bool,
    /// How many slots it has: for its receiver, its parameters, and its local variables but `_`.
    pub slots: usize,
    /// What the occurrences of its body come to, in order of place.
    pub references: Vec<D>,
    pub code: Vec<Instruction>,
}

/// A package as it runs. `D` says where something is declared.
#[derive(Drop)]
pub struct Object<D> {
    pub path: ImportPath,
    /// The name in its clauses.
    pub name: Name,
    /// The packages that its imports come to: those of its files in order of name, those of a file in order of place.
    pub imports: Vec<ImportPath>,
    /// Its functions, in order of file and place.
    pub functions: Vec<FunctionCode<D>>,
}

impl<D: Drop> Object<D> {
    /// The references of the function of a number: none where there is no such function.
    pub fn refs(&self, function: usize) -> Option<&[D]>
        ensures { option_map (λ r. r.now) result ≡ option_map references_of (slice_get self.now.functions.items function) }
    {
        match self.functions.get(function) {
            Some(found) => Some(found.references.as_slice()),
            None => None,
        }
    }
}
