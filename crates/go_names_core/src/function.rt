//! The check of a function.

ghost use Rattle.std.specs.Prelude.{◌≡◌, IfOk};
ghost use Rattle.go_tree_nodes.specs.Shapes.{func_of};
ghost use Rattle.go_local_core.specs.Tables.{IsFuncPlaced};
ghost use Rattle.go_names_core.specs.Scope.{beyond_in};
ghost use Rattle.go_names_core.specs.Body.{AreWalked, AreGiven};

use crate::checker::Checker;
use crate::walker::Walker;
use go_local_core::Fault;
use go_local_core::walks::visit_lines;
use go_scope_core::Scopes;
use go_scope_core::block_core::Blocks;
use go_tree_nodes::FuncDecl;
use std::alloc::{AllocError, Global};

/// What was noted of a function, and the faults of the names that it declares.
#[derive(Drop)]
pub struct Checked<N> {
    /// What the rules note of each piece, the pieces in order of their places.
    pub notes: Vec<N>,
    /// B1 and B4 of the names that pieces declare, the pieces in order of their places.
    pub faults: Vec<Fault>,
}

/// Checks each piece of a function with the names that are open there. The function stands in a file of a package, by the file's number
/// in order of name, from 0.
///
/// What is noted is what the rules give on the way through the function, and what they give by the regions of its declarations, where each
/// means what its piece gives under the names as these very regions bind them.
///
/// The Go specification, "Blocks", "Declarations and scope" and "Short variable declarations".
///
/// # Errors
///
/// [`AllocError`] where memory runs out.
pub fn check_function<C: Checker>(
    alloc: Global,
    checker: &C,
    blocks: &Blocks,
    file: usize,
    func: &FuncDecl,
) -> Result<Checked<C::Note>, AllocError>
    requires placed { IsFuncPlaced (func_of func.now) }
    ensures walked { IfOk result (λ checked. AreWalked (C.rules checker.now) (beyond_in C.Meaning.outside blocks.now file) (func_of func.now) checked.notes.items checked.faults.items) }
    ensures given { IfOk result (λ checked. AreGiven (C.rules checker.now) (beyond_in C.Meaning.outside blocks.now file) (func_of func.now) checked.notes.items checked.faults.items) }
{
    let mut walker = Walker {
        alloc,
        checker,
        scopes: Scopes::begin(alloc, blocks, file),
        locals: Vec::new(alloc),
        notes: Vec::new(alloc),
        faults: Vec::new(alloc),
        lacks_memory: false,
    };
    walker.lacks_memory = walker.header(func).is_err();
    visit_lines(&mut walker, &func.body);
    if walker.lacks_memory {
        return Err(AllocError);
    }
    Ok(Checked {
        notes: walker.notes,
        faults: walker.faults,
    })
}
