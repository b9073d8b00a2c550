//! The blocks that are open at a place of a file.
ghost use Rattle.std.specs.Prelude.{◌≡◌, ℕ, ◌<◌, ◌⊎◌, [], ◌∷◌, ◌++◌, length, map, IfOk, IfErr, OnOk, IfSome, IsSome, IsNone, IsOk, option_map, Some, true, false, List, ◌↔◌, Contains, AllPairs};
ghost use Rattle.go_block_core.specs.scope_stack.Blocks.{found_in, innermost, with_innermost, is_taken, block_with, block_after, short_names, any_new, named, names_in, all_names, list_names, NoneHas, IsInnermost};
ghost use Rattle.go_text_core.specs.Text.{is_blank};
ghost use Rattle.go_scope_core.specs.Models.{scopes_model};
ghost use Rattle.go_scope_core.specs.Scopes.{Denoted, denoted_of, with_open, scope_blocks};

use crate::names::listed_names;
use go_block_core::scope_stack::{DeclId, NameList, OpenBlocks, ShortDecl};
use go_block_core::{Binding, Blocks, DeclRef};
use go_text_core::Rule;
use go_universe_core::{Predeclared, find_predeclared};
use std::alloc::Global;
use std::marker::Model;

/// What a name in scope denotes.
#[derive(Clone, Copy)]
pub enum InScope<'a> {
    /// A predeclared name.
    Universe(Predeclared),
    /// A declaration of the package block.
    Package(DeclRef),
    /// A binding of the file block: of an import, or of a name of a package that is imported with a dot.
    File(&'a Binding),
    /// A declaration in a function, by its number in a list that the caller keeps.
    Local(DeclId),
}

/// The blocks that are open at a place of a file: the universe's, the package's inside it, the file's inside that, and
/// those of the function innermost. Contracts see it as the blocks of the package, the number of the file in order of name, and the
/// open blocks of the function, the outermost first.
pub struct Scopes<'a> {
    blocks: &'a Blocks,
    file: usize,
    open_blocks: OpenBlocks,
}

impl Drop for Scopes<'_> {
    fn drop(self) {
        let Scopes {
            blocks: _,
            file: _,
            open_blocks: _,
        } = self;
    }
}

impl<'a> Model for Scopes<'a> {
    ghost use Rattle.go_scope_core.specs.Models.{ScopesModel, coded_scopes, scopes_model};

    ghost Value = { ScopesModel };

    ghost coded = { coded_scopes };

    ghost view = { λ s. scopes_model s.blocks.now s.file s.open_blocks };
}

impl<'a> Scopes<'a> {
    /// The blocks of a package and of a file in it, by the file's number in order of name, from 0. No block of a
    /// function is open. A number that no file has is that of a file without bindings.
    pub fn begin(alloc: Global, blocks: &'a Blocks, file: usize) -> Scopes<'a>
        ensures { result ≡ scopes_model blocks.now file [] }
    {
        Scopes {
            blocks,
            file,
            open_blocks: OpenBlocks::new(alloc),
        }
    }

    /// Opens a block of the function inside the others.
    ///
    /// # Errors
    ///
    /// M0 where memory is wanting; the blocks are then as they were.
    pub fn enter(&mut self) -> Result<(), Rule>
        ensures ok { OnOk result (self.new ≡ with_open self.old (self.old.open_blocks ++ [] ∷ [])) }
        ensures err { IfErr result (λ rule. (self.new ≡ self.old) × (rule ≡ Rule.M0)) }
    {
        self.open_blocks.enter()
    }

    /// Closes the innermost block of the function. Takes no memory.
    pub fn leave(&mut self)
        requires { 0 < length self.old.open_blocks }
        ensures left { self.old.open_blocks ≡ self.new.open_blocks ++ innermost self.old.open_blocks ∷ [] }
        ensures kept { self.new ≡ with_open self.old self.new.open_blocks }
    {
        self.open_blocks.leave();
    }

    /// How many blocks of the function are open. Takes no memory.
    pub fn depth(&self) -> usize
        ensures { result ≡ length self.now.open_blocks }
    {
        self.open_blocks.depth()
    }

    /// Whether the innermost block of the function has a declaration of the name, so that another would be the second.
    /// The blank identifier has none. Takes no memory.
    pub fn is_taken(&self, name: &str) -> bool
        requires { 0 < length self.now.open_blocks }
        ensures { result ≡ is_taken self.now.open_blocks name.now }
    {
        self.open_blocks.is_taken(name)
    }

    /// Declares a name in the innermost block of the function. The blank identifier binds nothing.
    ///
    /// "No identifier may be declared twice in the same block" (the Go specification, "Declarations and scope").
    ///
    /// # Errors
    ///
    /// B1 where the innermost block has a declaration of the name, and otherwise M0 where memory is wanting. The
    /// blocks are then as they were. The blank identifier has no error.
    pub fn declare(&mut self, name: &str, id: DeclId) -> Result<(), Rule>
        requires { 0 < length self.old.open_blocks }
        ensures ok { OnOk result ((is_taken self.old.open_blocks name.now ≡ false) × (self.new ≡ with_open self.old (with_innermost self.old.open_blocks (block_with (innermost self.old.open_blocks) name.now id)))) }
        ensures err { IfErr result (λ rule. (self.new ≡ self.old) × (((rule ≡ Rule.M0) × (is_taken self.old.open_blocks name.now ≡ false)) ⊎ ((rule ≡ Rule.B1) × (is_taken self.old.open_blocks name.now ≡ true)))) }
        ensures blank { is_blank name.now ≡ true → IsOk result }
    {
        self.open_blocks.declare(name, id)
    }

    /// Declares those names to the left of a `:=` that are new in the innermost block of the function, and answers what
    /// each is. One of them is new; each that is repeated breaks B1 (the Go specification, "Short variable
    /// declarations").
    ///
    /// # Errors
    ///
    /// B4 where no name is new, of which `short_names` tells what each is, and otherwise M0 where memory is wanting. The
    /// blocks are then as they were. B4 takes no memory.
    pub fn declare_short(&mut self, names: &[(&str, DeclId)]) -> Result<ShortDecl, Rule>
        requires { 0 < length self.old.open_blocks }
        ensures shorts { IfOk result (λ short. (short ≡ short_names (innermost self.old.open_blocks) (names_in (named names.now))) × (any_new short ≡ true)) }
        ensures ok { OnOk result (self.new ≡ with_open self.old (with_innermost self.old.open_blocks (block_after (innermost self.old.open_blocks) (named names.now)))) }
        ensures err { IfErr result (λ rule. (self.new ≡ self.old) × (((rule ≡ Rule.M0) × (any_new (short_names (innermost self.old.open_blocks) (names_in (named names.now))) ≡ true)) ⊎ ((rule ≡ Rule.B4) × (any_new (short_names (innermost self.old.open_blocks) (names_in (named names.now))) ≡ false)))) }
    {
        self.open_blocks.declare_short(names)
    }

    /// What each name to the left of a `:=` is in the innermost block of the function, in their order, with nothing
    /// declared (the Go specification, "Short variable declarations"). Where none is new the declaration breaks B4, and
    /// each that is repeated breaks B1.
    ///
    /// # Errors
    ///
    /// M0 where memory is wanting.
    pub fn short_names(&self, names: &[&str]) -> Result<ShortDecl, Rule>
        requires { 0 < length self.now.open_blocks }
        ensures ok { IfOk result (λ short. short ≡ short_names (innermost self.now.open_blocks) (map (λ n. n.now) names.now)) }
        ensures err { IfErr result (λ rule. rule ≡ Rule.M0) }
    {
        self.open_blocks.short_names(names)
    }

    /// What a name denotes: what the innermost block that has it has there, if any block has it. Takes no memory.
    pub fn find(&self, name: &str) -> Option<InScope<'a>>
        ensures value { option_map denoted_of result ≡ found_in (scope_blocks self.now) name.now }
        ensures innermost { IfSome result (λ denoted. IsInnermost (scope_blocks self.now) name.now (denoted_of denoted)) }
        ensures only { (denoted : Denoted) → IsInnermost (scope_blocks self.now) name.now denoted → option_map denoted_of result ≡ Some denoted }
        ensures none { IsNone result → NoneHas (scope_blocks self.now) name.now }
    {
        if let Some(id) = self.open_blocks.find(name) {
            return Some(InScope::Local(id));
        }
        if let Some(decl) = self.blocks.package(name) {
            return Some(InScope::Package(decl));
        }
        if let Some(binding) = self.blocks.in_file(self.file, name) {
            return Some(InScope::File(binding));
        }
        match find_predeclared(name) {
            Some(predeclared) => Some(InScope::Universe(predeclared)),
            None => None,
        }
    }

    /// The names that denote something, each once: the predeclared names first, in the order of their table, then those
    /// of the package block, then those that hold in the file's block, then those of the function's blocks, the
    /// outermost first, and those of one block in the order of their declarations.
    ///
    /// # Errors
    ///
    /// M0 where memory is wanting.
    pub fn names(&self, alloc: Global) -> Result<Vec<&str>, Rule>
        ensures value { IfOk result (λ names. map (λ n. n.now) names.items ≡ list_names [] (all_names (scope_blocks self.now))) }
        ensures found { IfOk result (λ names. (name : List ℕ) → Contains (map (λ n. n.now) names.items) name ↔ IsSome (found_in (scope_blocks self.now) name)) }
        ensures once { IfOk result (λ names. AllPairs (λ a b. ¬ (a ≡ b)) (map (λ n. n.now) names.items)) }
        ensures err { IfErr result (λ rule. rule ≡ Rule.M0) }
    {
        let mut all = NameList::new(alloc);
        listed_names(&mut all, alloc, self.blocks, self.file, &self.open_blocks)
    }

    /// A second value with the same blocks.
    ///
    /// # Errors
    ///
    /// M0 where memory is wanting.
    pub fn copy(&self, alloc: Global) -> Result<Scopes<'a>, Rule>
        ensures ok { IfOk result (λ s. s ≡ self.now) }
        ensures err { IfErr result (λ rule. rule ≡ Rule.M0) }
    {
        let open_blocks = self.open_blocks.copy(alloc)?;
        Ok(Scopes {
            blocks: self.blocks,
            file: self.file,
            open_blocks,
        })
    }
}
