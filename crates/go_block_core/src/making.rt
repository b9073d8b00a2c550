//! The making of the blocks of a package.
ghost use Rattle.std.specs.Prelude.{◌≡◌, IfOk, OnOk, AllPairs};
ghost use Rattle.go_graph_core.specs.Packages.{trees_of};
ghost use Rattle.go_block_core.specs.Declarations.{package_declared};
ghost use Rattle.go_block_core.specs.Laws.{StandsBefore};
ghost use Rattle.go_block_core.specs.Blocks.{AreBlocks, HoldsEachOnce, imports_of};

use crate::block::Blocks;
use crate::fault::BlockFault;
use crate::imports::ImportNames;
use crate::package_block::{file_blocks, package_block};
use go_graph_core::Package;
use std::alloc::{AllocError, Global};

/// Puts faults in order, each once.
fn in_order(faults: &mut Vec<BlockFault>) -> Result<(), AllocError>
    ensures { OnOk result (HoldsEachOnce faults.old.items faults.new.items) }
{
    faults.sort()?;
    faults.dedup();
    Ok(())
}

/// The blocks of a package with these imports.
///
/// "No identifier may be declared twice in the same block", and no identifier in both the file and the package
/// block (the Go specification, "Declarations and scope"): the first declaration of a name holds, and the
/// package's hides the files'. `init` and, in package main, `main` are functions without parameters and results
/// ("Package initialization", "Program execution").
///
/// # Errors
///
/// `AllocError` for want of memory.
pub fn blocks(alloc: Global, package: &Package, names: &ImportNames) -> Result<Blocks, AllocError>
    ensures blocks { IfOk result (AreBlocks (trees_of «package».now.1) (imports_of names.now)) }
    // The first declaration of a name in this list is the first by file and offset, and by file and number.
    ensures order { OnOk result (AllPairs StandsBefore (package_declared (trees_of «package».now.1))) }
{
    let mut faults = Vec::new(alloc);
    let table = package_block(alloc, package, &mut faults)?;
    // The table is let go by name: its drop is then one call.
    let Ok(files) = file_blocks(alloc, &table, &names.files, &mut faults) else {
        drop(table);
        return Err(AllocError);
    };
    let Ok(()) = in_order(&mut faults) else {
        drop(table);
        return Err(AllocError);
    };
    Ok(Blocks {
        package: table,
        files,
        faults,
    })
}
