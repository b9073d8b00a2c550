//! The locals that are open at a place of a function.
ghost use Rattle.std.specs.Prelude.{◌≡◌, ◌≤◌, [], ◌++◌, length, take, drop, OnOk};
ghost use Rattle.std.specs.List.{list_any};
ghost use Rattle.std.specs.Str.{bytes_eq};
ghost use Rattle.go_cursor_core.specs.Blocks.{opened};
ghost use Rattle.go_cursor_core.specs.Shown.{idents_shown};
ghost use Rattle.go_cursor_core.specs.Opened.{is_new, with_ident};

use go_tree_nodes::Ident;
use go_tree_nodes::text_core::is_blank;
use std::alloc::{AllocError, Global};
use std::marker::Model;

/// The locals that are open at a place of a function: those of outer blocks first, in order of their declarations.
#[derive(Drop)]
pub(crate) struct OpenNames<'t> {
    names: Vec<&'t Ident>,
    // How many of them are of blocks around the innermost.
    outer: usize,
}

impl<'t> Model for OpenNames<'t> {
    ghost use Rattle.std.specs.Prelude.{◌≤◌, length, take, drop};
    ghost use Rattle.go_cursor_core.specs.Blocks.{OpenBlock, opened};
    ghost use Rattle.go_cursor_core.specs.Shown.{idents_shown};

    ghost Value = { OpenBlock };

    ghost view = { λ s. opened (take s.outer (idents_shown s.names.items)) (drop s.outer (idents_shown s.names.items)) };

    ghost invariant = { λ s. s.outer ≤ length s.names.items };
}

// Whether an identifier among these is spelled so.
fn has_name(idents: &[&Ident], name: &str) -> bool
    ensures { result ≡ list_any (λ y. bytes_eq name.now y.name) (idents_shown idents.now) }
{
    for ident in idents {
        if name == ident.name.as_str() {
            return true;
        }
    }
    false
}

// Whether an identifier is new in a block whose names begin behind so many: not blank, and spelled as none of them.
fn is_new(names: &[&Ident], outer: usize, ident: &Ident) -> bool
    requires { outer ≤ length names.now }
    ensures { result ≡ is_new (drop outer (idents_shown names.now)) ident.now }
{
    let name = ident.name.as_str();
    !is_blank(name) && !has_name(&names[outer..], name)
}

impl<'t> OpenNames<'t> {
    /// None.
    pub(crate) fn new(alloc: Global) -> Self
        ensures { result ≡ opened [] [] }
    {
        OpenNames {
            names: Vec::new(alloc),
            outer: 0,
        }
    }

    /// Declares an identifier in the innermost block, unless it is blank or the block has one that is spelled the same.
    ///
    /// # Errors
    ///
    /// [`AllocError`] where memory runs out.
    pub(crate) fn declare(&mut self, ident: &'t Ident) -> Result<(), AllocError>
        ensures { OnOk result (self.new ≡ opened self.old.outer (with_ident self.old.block ident.now)) }
    {
        if is_new(&self.names, self.outer, ident) {
            self.names.push(ident)?;
        }
        Ok(())
    }

    /// Opens a block. Answers how many names are open that are not of the block around it.
    pub(crate) fn enter(&mut self) -> usize
        ensures names { self.new ≡ opened (self.old.outer ++ self.old.block) [] }
        ensures count { result ≡ length self.old.outer }
    {
        let outer = self.outer;
        self.outer = self.names.len();
        outer
    }

    /// Closes the innermost block. The names of the block around it begin behind so many.
    pub(crate) fn leave(&mut self, outer: usize)
        ensures { self.new ≡ opened (take outer self.old.outer) (drop outer self.old.outer) }
    {
        self.names.truncate(self.outer);
        self.outer = outer.min(self.names.len());
    }

    /// All of them.
    pub(crate) fn into_list(self) -> Vec<&'t Ident>
        ensures { idents_shown result.items ≡ self.entry.outer ++ self.entry.block }
    {
        let OpenNames { names, outer: _ } = self;
        names
    }
}
