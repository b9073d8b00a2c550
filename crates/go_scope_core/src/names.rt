//! The names of a scope, each once.
ghost use Rattle.std.specs.Prelude.{◌≡◌, ℕ, List, Vec, [], Ok, IfOk, IfErr, OnOk, map};
ghost use Rattle.std.specs.Global.{Global};
ghost use denote.Ref.{Bor};
ghost use Rattle.go_block_core.specs.scope_stack.Blocks.{list_names, all_names};
ghost use Rattle.go_block_core.specs.Tables.{names_in};
ghost use Rattle.go_block_core.specs.Blocks.{held_in};
ghost use Rattle.go_universe_core.specs.Universe.{spelling_of};
ghost use Rattle.go_scope_core.specs.Scopes.{universe};

use go_block_core::Blocks;
use go_block_core::scope_stack::{NameList, OpenBlocks};
use go_text_core::Rule;
use go_universe_core::{PREDECLARED, Predeclared};
use std::alloc::Global;

/// Adds how some predeclared names are spelled, each unless it is there.
fn add_spellings(names: &mut NameList<'_>, predeclared: &[Predeclared]) -> Result<(), Rule>
    ensures ok { OnOk result (names.new ≡ list_names names.old (map spelling_of predeclared.now)) }
    ensures err { IfErr result (λ rule. rule ≡ Rule.M0) }
{
    for name in predeclared {
        let _ = names.add(name.spelling())?;
    }
    Ok(())
}

/// Adds all predeclared names, each unless it is there.
fn add_predeclared(names: &mut NameList<'_>) -> Result<(), Rule>
    ensures ok { OnOk result (names.new ≡ list_names names.old (names_in universe)) }
    ensures err { IfErr result (λ rule. rule ≡ Rule.M0) }
{
    add_spellings(names, &PREDECLARED)
}

/// Adds the names of a list, each unless it is there; the list may have failed for want of memory.
fn add_listed<'a, E: Drop>(
    names: &mut NameList<'a>,
    listed: Result<Vec<&'a str>, E>,
) -> Result<(), Rule>
    ensures ok { OnOk result ((more : Vec (Bor (List ℕ)) Global) × (listed.entry ≡ Ok more) × (names.new ≡ list_names names.old (map (λ n. n.now) more.items))) }
    ensures err { IfErr result (λ rule. rule ≡ Rule.M0) }
{
    match listed {
        Ok(more) => names.add_all(more.as_slice()),
        Err(_) => Err(Rule::M0),
    }
}

/// The names of a list, then those of the universe block, of a package block, of those that hold in the block of a file, and of the blocks
/// of a function, each once. The list is the caller's, so that it is let go in one place, and not wherever this ends.
pub(crate) fn listed_names<'a>(
    names: &mut NameList<'a>,
    alloc: Global,
    blocks: &'a Blocks,
    file: usize,
    open_blocks: &'a OpenBlocks,
) -> Result<Vec<&'a str>, Rule>
    ensures ok { IfOk result (λ listed. map (λ n. n.now) listed.items ≡ list_names (list_names (list_names (list_names names.old (names_in universe)) (names_in blocks.now.names)) (names_in (held_in blocks.now file))) (list_names [] (all_names open_blocks.now))) }
    ensures err { IfErr result (λ rule. rule ≡ Rule.M0) }
{
    add_predeclared(names)?;
    add_listed(names, blocks.package_names(alloc))?;
    add_listed(names, blocks.file_names(alloc, file))?;
    add_listed(names, open_blocks.names(alloc))?;
    names.to_list(alloc)
}
