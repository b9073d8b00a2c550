//! Faults of blocks.
ghost use Rattle.std.specs.Prelude.{◌≡◌, ◌++◌, OnOk};
ghost use Rattle.go_block_core.specs.Faults.{block_fault, fault_if, rule_of};

use go_tree_nodes::text_core::Rule;
use std::alloc::AllocError;

/// A rule that a declaration or an import of a block may break.
#[derive(Clone, Copy, Debug, PartialEq, Eq, PartialOrd, Ord)]
pub enum BlockRule {
    /// A second declaration of a name in one block.
    B1,
    /// A file's binding of a name of the package block.
    B2,
    /// An `init`, or in package main a `main`, that is no function without parameters and results.
    B3,
}

impl BlockRule {
    /// The rule, among all rules.
    pub fn rule(self) -> Rule
        ensures { result ≡ rule_of self }
    {
        match self {
            BlockRule::B1 => Rule::B1,
            BlockRule::B2 => Rule::B2,
            BlockRule::B3 => Rule::B3,
        }
    }
}

/// A fault in a block. Faults are in order of file, offset and rule.
#[derive(Clone, Copy, Debug, PartialEq, Eq, PartialOrd, Ord)]
pub struct BlockFault {
    /// The number of the file in order of name, from 0.
    pub file: usize,
    /// The offset in bytes of the identifier, or of an import's string.
    pub offset: usize,
    pub rule: BlockRule,
}

/// Adds a fault where the test holds.
pub(crate) fn add_fault_if(
    faults: &mut Vec<BlockFault>,
    is_fault: bool,
    file: usize,
    offset: usize,
    rule: BlockRule,
) -> Result<(), AllocError>
    ensures { OnOk result (faults.new.items ≡ faults.old.items ++ fault_if is_fault (block_fault file offset rule)) }
{
    if is_fault {
        faults.push(BlockFault { file, offset, rule })?;
    }
    Ok(())
}
