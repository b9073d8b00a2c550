//! Runs of folders, over whatever runs them.
ghost use Rattle.std.specs.Prelude.{ℕ, List, IfOk, option_map};
ghost use Rattle.std.specs.Result.{result_ok};
ghost use Rattle.govisd_folders.specs.runs.Answers.{IsAnswerOfRun};
ghost use Rattle.govisd.specs.Launches.{RunsFolder};

use crate::program::{Ran, give, run_out};
use govisd_folders::CheckAnswer;
use govisd_folders::runs::RunOrder;
use std::alloc::AllocError;
use std::io::Write;

/// What runs folders.
pub trait Launches {
    ghost use Rattle.std.specs.Prelude.{List, Option, ℕ};
    ghost use Rattle.govisd_folders.specs.declared.checking.CheckAnswer.{CheckAnswer as TheAnswer};

    // what it may answer: by the folder, by the path of the module and that of the package, if they are given, and by the number of steps; none for want of memory
    ghost Outcomes: { Self → List ℕ → Option (List ℕ) → Option (List ℕ) → ℕ → Option TheAnswer → Type 0 };

    /// Compiles the Go packages of a folder, and runs one.
    ///
    /// # Errors
    ///
    /// `AllocError` for want of memory.
    fn launch(&self, order: &RunOrder<'_>) -> Result<CheckAnswer, AllocError>
        ensures outcomes { Outcomes self.now order.now.folder.now (option_map (λ m. m.now) order.now.module_path) (option_map (λ m. m.now) order.now.main_path) order.now.steps (result_ok result) }
        ensures is { IfOk result (IsAnswerOfRun order.now.folder.now (option_map (λ m. m.now) order.now.module_path) (option_map (λ m. m.now) order.now.main_path) order.now.steps) };
}

/// Runs a folder.
pub fn launch<L: Launches, W: Write, E: Write>(
    launches: &L,
    out: &mut W,
    err: &mut E,
    order: &RunOrder<'_>,
) -> Ran
    ensures { RunsFolder (L.Outcomes launches.now) order.now.folder.now (option_map (λ m. m.now) order.now.module_path) (option_map (λ m. m.now) order.now.main_path) order.now.steps result (W.contents out.old) (W.contents out.new) (E.contents err.old) (E.contents err.new) }
{
    match launches.launch(order) {
        Ok(answer) => give(out, err, &answer),
        Err(AllocError) => run_out(err),
    }
}
