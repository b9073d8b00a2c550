//! How a declaration is known in its package and in a workspace.
ghost use Rattle.std.specs.Prelude.{◌≡◌, ◌↔◌, IfOk, IsTrue};
ghost use Rattle.go_decl_core.specs.Order.{is_ref_before, place_cmp};

use crate::places::DeclKind;
use go_path_core::ImportPath;
use std::alloc::AllocError;
use std::cmp::Ordering;

/// A declaration of a package.
#[derive(Clone, Copy, Debug, PartialEq, Eq)]
pub struct DeclRef {
    /// The number of its file in order of name, from 0.
    pub file: usize,
    /// Its number among the identifiers that the file declares outside function bodies, from 0.
    pub number: usize,
    pub kind: DeclKind,
}

impl DeclRef {
    /// Whether it stands before another of its package: by file, then by number there. What they declare does not count.
    pub fn is_before(self, other: DeclRef) -> bool
        ensures { result ≡ is_ref_before self other }
    {
        self.file < other.file || (self.file == other.file && self.number < other.number)
    }
}

/// The order in which declarations of a package stand: by file, then by number there. What they declare does not count.
pub fn place_order(one: DeclRef, other: DeclRef) -> Ordering
    ensures { result ≡ place_cmp one other }
{
    one.file
        .cmp(&other.file)
        .then(one.number.cmp(&other.number))
}

/// A declaration of a workspace.
pub struct DeclKey {
    /// The path of its package.
    pub path: ImportPath,
    pub decl: DeclRef,
}

impl Drop for DeclKey {
    fn drop(self) {
        let DeclKey { path: _, decl: _ } = self;
    }
}

impl DeclKey {
    /// The same key once more. It takes no memory.
    ///
    /// # Errors
    ///
    /// [`AllocError`] where the path has too many owners.
    pub fn share(&self) -> Result<DeclKey, AllocError>
        ensures { IfOk result (λ key. key ≡ self.now) }
    {
        Ok(DeclKey {
            path: self.path.share()?,
            decl: self.decl,
        })
    }

    /// Whether two keys are of the same declaration.
    pub fn is_same(&self, other: &DeclKey) -> bool
        ensures { IsTrue result ↔ (self.now ≡ other.now) }
    {
        self.decl == other.decl && self.path.is_same(&other.path)
    }
}
