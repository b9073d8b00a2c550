//! How trees are copied.
ghost use Rattle.std.specs.Prelude.{◌≡◌, IfOk};
ghost use Rattle.go_tree_core.specs.copies.Respelled.{spelled};

use go_tree_nodes::Ident;
use go_tree_nodes::text_core::Name;
use std::alloc::{AllocError, Global};

/// The spelling that the identifier at an offset has in the copy.
#[derive(Clone, Copy)]
pub(crate) struct Renaming<'a> {
    pub(crate) start: u32,
    pub(crate) name: &'a str,
}

/// What a tree is copied with: where its memory comes from, and which identifier is spelled otherwise.
#[derive(Clone, Copy)]
pub(crate) struct Copier<'a> {
    pub(crate) alloc: Global,
    pub(crate) renaming: Option<Renaming<'a>>,
}

impl<'a> Copier<'a> {
    /// The spelling of an identifier in the copy.
    pub(crate) fn copy_name(&self, ident: &Ident) -> Result<Name, AllocError>
        ensures { IfOk result (λ n. n ≡ (spelled self.now ident.now).name) }
    {
        if let Some(renaming) = &self.renaming {
            if renaming.start == ident.span.start {
                return Name::from_text(self.alloc, renaming.name);
            }
        }
        ident.name.copy(self.alloc)
    }
}
