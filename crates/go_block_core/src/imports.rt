//! The imports of a package, and the names that they bind.
ghost use Rattle.std.specs.Prelude.{◌≡◌, IfOk, OnErr, map, true};
ghost use Rattle.go_block_core.specs.Holding.{imports_in, AreImportsInOrder};
ghost use Rattle.go_block_core.specs.Naming.{comes_to_package};

use crate::exports::Exports;
use go_tree_nodes::text_core::{Name, Rule};
use std::alloc::AllocError;

/// What an import comes to, as the package that has it sees it.
pub enum Imported {
    /// A package that shows this.
    Package(Exports),
    /// None, by this rule.
    Refused(Rule),
}

impl Drop for Imported {
    fn drop(self) {
        match self {
            Imported::Package(_) => {}
            Imported::Refused(_) => {}
        }
    }
}

impl Imported {
    /// The same once more. It takes no memory.
    ///
    /// # Errors
    ///
    /// `AllocError` where what the package shows has too many owners: never of an import that comes to none.
    pub fn share(&self) -> Result<Imported, AllocError>
        ensures same { IfOk result (λ imported. imported ≡ self.now) }
        ensures memory { OnErr result (comes_to_package self.now ≡ true) }
    {
        match self {
            Imported::Package(exports) => Ok(Imported::Package(exports.share()?)),
            Imported::Refused(rule) => Ok(Imported::Refused(*rule)),
        }
    }
}

/// The form of an import.
#[derive(Drop)]
pub(crate) enum ImportForm {
    /// Without a name: that in the clauses of the package that it comes to. Where the import is refused, it is what
    /// stands behind the last `/` of its path, if that is an identifier other than `_`.
    Own(Option<Name>),
    /// Under another name. `_` binds nothing.
    Named(Name),
    /// With a dot: it binds what the package shows that it comes to, and nothing where it is refused.
    Dot,
}

/// An import.
#[derive(Drop)]
pub(crate) struct NamedImport {
    /// The offset in bytes of its string.
    pub(crate) at: usize,
    pub(crate) imported: Imported,
    pub(crate) form: ImportForm,
}

/// The imports of each file of a package: the files in order of name, the imports of each in order of place.
#[derive(Drop)]
pub struct ImportNames {
    pub(crate) files: Vec<Vec<NamedImport>>,
    ghost in_order: { AreImportsInOrder (map imports_in files.items) },
}

impl ImportNames {
    ghost use Rattle.go_block_core.specs.Blocks.{imports_of};

    /// These imports: for each file of the package, in order of name, its imports in order of place.
    pub(crate) fn new(files: Vec<Vec<NamedImport>>) -> ImportNames
        requires { AreImportsInOrder (map imports_in files.items) }
        ensures { imports_of result ≡ map imports_in files.items }
    {
        ImportNames { files }
    }
}
