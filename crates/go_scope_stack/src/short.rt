//! Names to the left of `:=` (the Go specification, "Short variable declarations").
ghost use Rattle.std.specs.Prelude.{◌≡◌, ◌⊎◌, [], ◌∷◌, ◌++◌, IfOk, IfErr, OnOk, OnErr, map, not, true, false, if◌then◌else◌};
ghost use Rattle.std.specs.List.{list_any};
ghost use Rattle.go_scope_stack.specs.Blocks.{block_of, block_after, named, names_in, is_listed, is_new, list_name, list_names, short_name, short_names, short_names_behind, is_short_new, any_new};

use crate::name_list::NameList;
use crate::{DeclId, add_decl, find_in};
use go_collections_core::name_table::NameTable;
use go_collections_core::text_core::Rule;
use std::alloc::Global;
use std::marker::Model;

/// What a name to the left of `:=` is.
#[derive(Clone, Copy)]
pub enum ShortName {
    /// Declared here: not blank, the first of its spelling to the left of `:=`, and not declared before in the block.
    New,
    /// Declared before in this very block.
    Old,
    /// The blank identifier, which declares nothing.
    Blank,
    /// Not blank, and to its left already. This is B1.
    Repeated,
}

impl ShortName {
    /// Whether the name is declared here.
    pub fn is_new(self) -> bool
        ensures { result ≡ is_short_new self }
    {
        matches!(self, ShortName::New)
    }
}

/// What the names to the left of a `:=` are, in their order. Contracts see it as that list.
pub struct ShortDecl {
    names: Vec<ShortName>,
}

impl Drop for ShortDecl {
    fn drop(self) {
        let ShortDecl { names: _ } = self;
    }
}

impl Model for ShortDecl {
    ghost use Rattle.std.specs.Prelude.{List};
    ghost use Rattle.go_scope_stack.specs.declared.short.ShortName.{ShortName};

    ghost Value = { List ShortName };

    ghost view = { λ s. s.names.items };
}

impl ShortDecl {
    /// What each name is, in their order.
    pub fn names(&self) -> &[ShortName]
        ensures { result.now ≡ self.now }
    {
        self.names.as_slice()
    }

    /// Whether one of the names is new. A short declaration of which none is breaks B4.
    pub fn is_any_new(&self) -> bool
        ensures { result ≡ any_new self.now }
    {
        self.names.iter().any(|name| name.is_new())
    }
}

// What a name is in a block, behind those that were seen. Errors: M0.
fn short_name_in<'a>(
    block: &NameTable<DeclId>,
    seen: &mut NameList<'a>,
    name: &'a str,
) -> Result<ShortName, Rule>
    ensures short { IfOk result (λ short. short ≡ short_name (block_of block.now) seen.old name.now) }
    ensures seen { OnOk result (seen.new ≡ list_name seen.old name.now) }
    ensures err { IfErr result (λ rule. rule ≡ Rule.M0) }
{
    let is_first = seen.add(name)?;
    if name == "_" {
        return Ok(ShortName::Blank);
    }
    if !is_first {
        return Ok(ShortName::Repeated);
    }
    match find_in(block, name) {
        Some(_) => Ok(ShortName::Old),
        None => Ok(ShortName::New),
    }
}

// Notes what a name is in a block, behind those that were seen, and answers it. Errors: M0.
fn note_short<'a>(
    block: &NameTable<DeclId>,
    seen: &mut NameList<'a>,
    shorts: &mut Vec<ShortName>,
    name: &'a str,
) -> Result<ShortName, Rule>
    ensures short { IfOk result (λ short. short ≡ short_name (block_of block.now) seen.old name.now) }
    ensures noted { OnOk result (shorts.new.items ≡ shorts.old.items ++ short_name (block_of block.now) seen.old name.now ∷ []) }
    ensures seen { OnOk result (seen.new ≡ list_name seen.old name.now) }
    ensures err { IfErr result (λ rule. rule ≡ Rule.M0) }
{
    let short = short_name_in(block, seen, name)?;
    if shorts.push(short).is_err() {
        return Err(Rule::M0);
    }
    Ok(short)
}

// What each of some names is in a block, in their order. Errors: M0.
pub(crate) fn short_names_in(
    block: &NameTable<DeclId>,
    alloc: Global,
    names: &[&str],
) -> Result<ShortDecl, Rule>
    ensures ok { IfOk result (λ short. short ≡ short_names (block_of block.now) (map (λ n. n.now) names.now)) }
    ensures err { IfErr result (λ rule. rule ≡ Rule.M0) }
{
    let mut seen = NameList::new(alloc);
    let mut shorts = Vec::new(alloc);
    for name in names {
        if note_short(block, &mut seen, &mut shorts, name).is_err() {
            return Err(Rule::M0);
        }
    }
    Ok(ShortDecl { names: shorts })
}

// Declares a name in one block, if it is new there, and notes what it is. Errors: M0; the block is then as it was.
fn declare_new<'a>(
    block: &mut NameTable<DeclId>,
    alloc: Global,
    seen: &mut NameList<'a>,
    shorts: &mut Vec<ShortName>,
    name: &'a str,
    id: DeclId,
) -> Result<(), Rule>
    ensures noted { OnOk result (shorts.new.items ≡ shorts.old.items ++ short_name (block_of block.old) seen.old name.now ∷ []) }
    ensures seen { OnOk result (seen.new ≡ list_name seen.old name.now) }
    ensures block { OnOk result (block_of block.new ≡ (if is_short_new (short_name (block_of block.old) seen.old name.now) then block_of block.old ++ (name.now, id) ∷ [] else block_of block.old)) }
    ensures err { OnErr result (block_of block.new ≡ block_of block.old) }
{
    let short = note_short(block, seen, shorts, name)?;
    if short.is_new() {
        return add_decl(block, alloc, name, id);
    }
    Ok(())
}

// Whether a name is not blank and not declared in a block. Takes no memory.
fn can_declare(block: &NameTable<DeclId>, name: &str) -> bool
    ensures { result ≡ is_new (block_of block.now) name.now }
{
    name != "_" && find_in(block, name).is_none()
}

// Whether one of some names is not blank and not declared in a block. Takes no memory.
fn can_declare_any(block: &NameTable<DeclId>, names: &[(&str, DeclId)]) -> bool
    ensures { result ≡ list_any (is_new (block_of block.now)) (names_in (named names.now)) }
{
    for (name, _) in names {
        if can_declare(block, name) {
            return true;
        }
    }
    false
}

// Declares those names in one block that are new there, and answers what each is. Errors: B4 where none is new, which
// takes no memory, and otherwise M0; the block is then as it was.
pub(crate) fn declare_each(
    block: &mut NameTable<DeclId>,
    alloc: Global,
    names: &[(&str, DeclId)],
) -> Result<ShortDecl, Rule>
    ensures shorts { IfOk result (λ short. (short ≡ short_names (block_of block.old) (names_in (named names.now))) × (any_new short ≡ true)) }
    ensures ok { OnOk result (block_of block.new ≡ block_after (block_of block.old) (named names.now)) }
    ensures err { IfErr result (λ rule. (block_of block.new ≡ block_of block.old) × (((rule ≡ Rule.M0) × (any_new (short_names (block_of block.old) (names_in (named names.now))) ≡ true)) ⊎ ((rule ≡ Rule.B4) × (any_new (short_names (block_of block.old) (names_in (named names.now))) ≡ false)))) }
{
    if !can_declare_any(block, names) {
        return Err(Rule::B4);
    }
    let before = block.len();
    let mut seen = NameList::new(alloc);
    let mut shorts = Vec::new(alloc);
    for (name, id) in names {
        if declare_new(block, alloc, &mut seen, &mut shorts, name, *id).is_err() {
            block.truncate(before);
            return Err(Rule::M0);
        }
    }
    Ok(ShortDecl { names: shorts })
}
