//! The open blocks at a place of a file, with the names that are declared in each.
#![tactic(auto)]

mod laws;
mod name_list;
mod short;
mod sorted;

ghost use Rattle.std.specs.Prelude.{◌≡◌, ℕ, ◌+◌, ◌<◌, ◌≤◌, ◌⊎◌, [], ◌∷◌, ◌++◌, length, IfOk, IfErr, OnOk, OnErr, IfSome, IsSome, IsNone, IsOk, true, false, None, Some, is_some, map, if◌then◌else◌, ◌↔◌, Contains, AllPairs, List};
ghost use Rattle.go_scope_stack.specs.Blocks.{found_in, innermost, with_innermost, is_taken, block_with, block_of, in_block, block_after, short_names, any_new, named, names_in, all_names, list_names, NoneHas, IsInnermost};
ghost use Rattle.go_collections_core.specs.name_table.Named.{entries_named};
ghost use Rattle.go_collections_core.specs.text_core.Text.{is_blank};

use go_collections_core::name_table::NameTable;
use go_collections_core::text_core::Rule;
pub use laws::short_adds_new;
pub use name_list::NameList;
use short::{declare_each, short_names_in};
pub use short::{ShortDecl, ShortName};
use std::alloc::Global;
use std::marker::Model;

/// The number of a declaration in a list that the caller keeps.
#[derive(Clone, Copy, Debug, PartialEq, Eq)]
pub struct DeclId(pub usize);

/// The open blocks, from the outermost to the innermost.
pub struct OpenBlocks {
    blocks: Vec<NameTable<DeclId>>,
}

impl Drop for OpenBlocks {
    fn drop(self) {
        let OpenBlocks { blocks: _ } = self;
    }
}

impl Model for OpenBlocks {
    ghost use Rattle.std.specs.Prelude.{ℕ, List, map};
    ghost use Rattle.go_scope_stack.specs.declared.DeclId.{DeclId};

    ghost Value = { List (List (List ℕ × DeclId)) };

    ghost use Rattle.go_scope_stack.specs.Blocks.{block_of};

    ghost view = { λ s. map block_of s.blocks.items };
}

// How many names are compared one by one, which is less work than a look-up by hash.
const FEW: usize = 8;

// The declaration of a name in one block, by its hash.
fn find_hashed(block: &NameTable<DeclId>, name: &str) -> Option<DeclId>
    ensures { result ≡ in_block (block_of block.now) name.now }
{
    block.find(name).copied()
}

// The declaration of a name among those of one block, by comparing it with each.
fn find_listed(decls: &[(String, DeclId)], name: &str) -> Option<DeclId>
    ensures { result ≡ in_block (entries_named decls.now) name.now }
{
    for (key, id) in decls {
        if name == key.as_str() {
            return Some(*id);
        }
    }
    None
}

// The declaration of a name in one block.
fn find_in(block: &NameTable<DeclId>, name: &str) -> Option<DeclId>
    ensures { result ≡ in_block (block_of block.now) name.now }
{
    if block.len() > FEW {
        return find_hashed(block, name);
    }
    find_listed(block.entries(), name)
}

// The innermost declaration of a name in these blocks.
fn find_among(blocks: &[NameTable<DeclId>], name: &str) -> Option<DeclId>
    ensures { result ≡ found_in (map block_of blocks.now) name.now }
{
    let mut i = blocks.len();
    while i > 0 {
        i -= 1;
        if let Some(id) = find_in(&blocks[i], name) {
            return Some(id);
        }
    }
    None
}

// Adds a declaration to a block that has none of the name. Errors: M0; the block is then as it was.
fn add_decl(
    block: &mut NameTable<DeclId>,
    alloc: Global,
    name: &str,
    id: DeclId,
) -> Result<(), Rule>
    requires { in_block (block_of block.old) name.now ≡ None }
    ensures ok { OnOk result (block_of block.new ≡ block_of block.old ++ (name.now, id) ∷ []) }
    ensures err { IfErr result (λ rule. (block_of block.new ≡ block_of block.old) × (rule ≡ Rule.M0)) }
{
    match block.add(alloc, name, id) {
        Ok(()) => Ok(()),
        Err(_) => Err(Rule::M0),
    }
}

// Declares a name in one block. Takes memory only where the block has no declaration of the name.
fn declare_in(
    block: &mut NameTable<DeclId>,
    alloc: Global,
    name: &str,
    id: DeclId,
) -> Result<(), Rule>
    ensures ok { OnOk result ((in_block (block_of block.old) name.now ≡ None) × (block_of block.new ≡ block_of block.old ++ (name.now, id) ∷ [])) }
    ensures err { IfErr result (λ rule. (block_of block.new ≡ block_of block.old) × (((rule ≡ Rule.M0) × (is_some (in_block (block_of block.old) name.now) ≡ false)) ⊎ ((rule ≡ Rule.B1) × (is_some (in_block (block_of block.old) name.now) ≡ true)))) }
{
    if find_in(block, name).is_some() {
        return Err(Rule::B1);
    }
    add_decl(block, alloc, name, id)
}

// A second table with the names and declarations of a block, in their order.
fn copy_block(alloc: Global, block: &NameTable<DeclId>) -> Result<NameTable<DeclId>, Rule>
    ensures ok { IfOk result (λ copied. block_of copied ≡ block_of block.now) }
    ensures err { IfErr result (λ rule. rule ≡ Rule.M0) }
{
    match block.copy(alloc) {
        Ok(copied) => Ok(copied),
        Err(_) => Err(Rule::M0),
    }
}

// Adds the names of a block to others, each unless it is there.
fn add_block_names<'a>(names: &mut NameList<'a>, block: &'a NameTable<DeclId>) -> Result<(), Rule>
    ensures ok { OnOk result (names.new ≡ list_names names.old (names_in (block_of block.now))) }
    ensures err { IfErr result (λ rule. rule ≡ Rule.M0) }
{
    for (name, _) in block.entries() {
        let _ = names.add(name.as_str())?;
    }
    Ok(())
}

impl OpenBlocks {
    /// No open block.
    pub fn new(alloc: Global) -> Self
        ensures { result ≡ [] }
    {
        OpenBlocks {
            blocks: Vec::new(alloc),
        }
    }

    /// Opens a block inside the others. Errors: M0 where memory is wanting; the blocks are then as they were.
    pub fn enter(&mut self) -> Result<(), Rule>
        ensures ok { OnOk result (self.new ≡ self.old ++ [] ∷ []) }
        ensures err { IfErr result (λ rule. (self.new ≡ self.old) × (rule ≡ Rule.M0)) }
    {
        let alloc = *self.blocks.allocator();
        match self.blocks.push(NameTable::new(alloc)) {
            Ok(()) => Ok(()),
            Err(_) => Err(Rule::M0),
        }
    }

    /// Closes the innermost block. Takes no memory.
    pub fn leave(&mut self)
        requires { 0 < length self.old }
        ensures { self.old ≡ self.new ++ innermost self.old ∷ [] }
    {
        let _ = self.blocks.pop();
    }

    /// How many blocks are open. Takes no memory.
    pub fn depth(&self) -> usize
        ensures { result ≡ length self.now }
    {
        self.blocks.len()
    }

    /// Whether the innermost block has a declaration of the name, so that another would be the second. The blank
    /// identifier has none. Takes no memory.
    pub fn is_taken(&self, name: &str) -> bool
        requires { 0 < length self.now }
        ensures { result ≡ is_taken self.now name.now }
    {
        let top = self.blocks.len() - 1;
        name != "_" && find_in(&self.blocks[top], name).is_some()
    }

    /// Declares a name in the innermost block. The blank identifier binds nothing.
    ///
    /// Errors: B1 where the innermost block has a declaration of the name, and otherwise M0 where memory is wanting.
    /// The blocks are then as they were. The blank identifier has no error.
    pub fn declare(&mut self, name: &str, id: DeclId) -> Result<(), Rule>
        requires { 0 < length self.old }
        ensures ok { OnOk result ((is_taken self.old name.now ≡ false) × (self.new ≡ with_innermost self.old (block_with (innermost self.old) name.now id))) }
        ensures err { IfErr result (λ rule. (self.new ≡ self.old) × (((rule ≡ Rule.M0) × (is_taken self.old name.now ≡ false)) ⊎ ((rule ≡ Rule.B1) × (is_taken self.old name.now ≡ true)))) }
        ensures blank { is_blank name.now ≡ true → IsOk result }
    {
        if name == "_" {
            return Ok(());
        }
        let alloc = *self.blocks.allocator();
        let top = self.blocks.len() - 1;
        declare_in(&mut self.blocks[top], alloc, name, id)
    }

    /// Declares those names to the left of a `:=` that are new in the innermost block, and answers what each is. One of
    /// them is new; each that is repeated breaks B1 (the Go specification, "Short variable declarations").
    ///
    /// Errors: B4 where no name is new, of which `short_names` tells what each is, and otherwise M0 where memory is
    /// wanting. The blocks are then as they were. B4 takes no memory.
    pub fn declare_short(&mut self, names: &[(&str, DeclId)]) -> Result<ShortDecl, Rule>
        requires { 0 < length self.old }
        ensures shorts { IfOk result (λ short. (short ≡ short_names (innermost self.old) (names_in (named names.now))) × (any_new short ≡ true)) }
        ensures ok { OnOk result (self.new ≡ with_innermost self.old (block_after (innermost self.old) (named names.now))) }
        ensures err { IfErr result (λ rule. (self.new ≡ self.old) × (((rule ≡ Rule.M0) × (any_new (short_names (innermost self.old) (names_in (named names.now))) ≡ true)) ⊎ ((rule ≡ Rule.B4) × (any_new (short_names (innermost self.old) (names_in (named names.now))) ≡ false)))) }
    {
        let alloc = *self.blocks.allocator();
        let top = self.blocks.len() - 1;
        declare_each(&mut self.blocks[top], alloc, names)
    }

    /// What each name to the left of a `:=` is in the innermost block, in their order, with nothing declared (the Go
    /// specification, "Short variable declarations"). Where none is new the declaration breaks B4, and each that is
    /// repeated breaks B1. Errors: M0 where memory is wanting.
    pub fn short_names(&self, names: &[&str]) -> Result<ShortDecl, Rule>
        requires { 0 < length self.now }
        ensures ok { IfOk result (λ short. short ≡ short_names (innermost self.now) (map (λ n. n.now) names.now)) }
        ensures err { IfErr result (λ rule. rule ≡ Rule.M0) }
    {
        let alloc = *self.blocks.allocator();
        let top = self.blocks.len() - 1;
        short_names_in(&self.blocks[top], alloc, names)
    }

    /// The declaration of a name in the innermost block that has one, if any has. Takes no memory.
    pub fn find(&self, name: &str) -> Option<DeclId>
        ensures value { result ≡ found_in self.now name.now }
        ensures innermost { IfSome result (λ id. IsInnermost self.now name.now id) }
        ensures only { (id : DeclId) → IsInnermost self.now name.now id → result ≡ Some id }
        ensures none { IsNone result → NoneHas self.now name.now }
    {
        find_among(self.blocks.as_slice(), name)
    }

    /// A second value with the same blocks. Errors: M0 where memory is wanting.
    pub fn copy(&self, alloc: Global) -> Result<OpenBlocks, Rule>
        ensures ok { IfOk result (λ s. s ≡ self.now) }
        ensures err { IfErr result (λ rule. rule ≡ Rule.M0) }
    {
        let mut blocks = Vec::new(alloc);
        for block in &self.blocks {
            let copied = copy_block(alloc, block)?;
            if blocks.push(copied).is_err() {
                return Err(Rule::M0);
            }
        }
        Ok(OpenBlocks { blocks })
    }

    /// The names that have a declaration in an open block, each once: those of the outermost block first,
    /// and those of one block in the order of their declarations. Errors: M0 where memory is wanting.
    pub fn names(&self, alloc: Global) -> Result<Vec<&str>, Rule>
        ensures value { IfOk result (λ names. map (λ n. n.now) names.items ≡ list_names [] (all_names self.now)) }
        ensures found { IfOk result (λ names. (name : List ℕ) → Contains (map (λ n. n.now) names.items) name ↔ IsSome (found_in self.now name)) }
        ensures once { IfOk result (λ names. AllPairs (λ a b. ¬ (a ≡ b)) (map (λ n. n.now) names.items)) }
        ensures err { IfErr result (λ rule. rule ≡ Rule.M0) }
    {
        let mut names = NameList::new(alloc);
        for block in &self.blocks {
            add_block_names(&mut names, block)?;
        }
        names.to_list(alloc)
    }
}
