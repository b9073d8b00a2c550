//! What ends a function with results.
ghost use Rattle.std.specs.Prelude.{◌≡◌, ◌++◌, IfOk, OnOk};
ghost use Rattle.go_tree_nodes.specs.Shapes.{func_of, lines_of};
ghost use Rattle.go_tree_nodes.specs.TypeShapes.{shape_results};
ghost use Rattle.go_local_core.specs.walks.Ends.{are_terminating};
ghost use Rattle.go_body_core.specs.Ends.{has_result, panics_at, calls_one, end_faults};

use crate::notes::BodyUse;
use crate::panics::{PanicCalls, panic_offsets};
use go_local_core::Fault;
use go_local_core::walks::are_terminating;
use go_text_core::{Rule, add};
use go_tree_nodes::{FuncDecl, Line, Results};
use std::alloc::{AllocError, Global};

// Whether there are results.
fn has_result(results: &Results) -> bool
    ensures { result ≡ has_result (shape_results results.now) }
{
    match results {
        Results::Nothing => false,
        Results::Single(_) => true,
        Results::Listed(params) => params.entries.len() > 0,
    }
}

// Whether statements end in a terminating one, by what the occurrences have.
fn are_ending(alloc: Global, uses: &[BodyUse<'_>], lines: &Vec<Line>) -> Result<bool, AllocError>
    ensures { IfOk result (λ ends. ends ≡ are_terminating (calls_one (panics_at uses.now)) (lines_of lines.now.items)) }
{
    let offsets = panic_offsets(alloc, uses)?;
    let calls = PanicCalls { offsets: &offsets };
    Ok(are_terminating(&calls, lines))
}

/// Adds Y5 of a function with results whose body does not end in a terminating statement, by what its occurrences have.
pub(crate) fn add_end(
    alloc: Global,
    uses: &[BodyUse<'_>],
    func: &FuncDecl,
    faults: &mut Vec<Fault>,
) -> Result<(), AllocError>
    ensures { OnOk result (faults.new.items ≡ faults.old.items ++ end_faults uses.now (func_of func.now)) }
{
    if !has_result(&func.signature.results) {
        return Ok(());
    }
    if are_ending(alloc, uses, &func.body)? {
        return Ok(());
    }
    add(
        faults,
        Fault {
            offset: func.close_brace.start as usize,
            rule: Rule::Y5,
        },
    )
}
