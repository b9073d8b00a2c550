//! Whole runs.
ghost use Rattle.std.specs.Prelude.{◌≡◌, map, string_bytes, IfOk, MatchOption, Some, None};
ghost use Rattle.go_machine_core.specs.Ends.{ran_shown, run_of};
ghost use Rattle.go_machine_core.specs.Machine.{At, all_begun, run_from, machine};
ghost use Rattle.go_machine_core.specs.Programs.{linked_shown};
ghost use Rattle.go_machine_core.specs.mirrors.Shown.{frames_shown, from_state};

use crate::bounds::Bounds;
use crate::callers::Callers;
use crate::frame::begin;
use crate::linked::{Linked, code_of};
use crate::state::{End, State};
use crate::steps::step;
use std::alloc::{AllocError, Global};

/// What a run came to.
#[derive(Drop)]
pub struct Ran {
    pub end: End,
    /// What was printed.
    pub output: String,
}

// The functions that are to run one after another, the first of them the innermost: none where one is missing.
fn begin_all(
    alloc: Global,
    program: &[Linked<'_>],
    starts: &[usize],
) -> Result<Option<Callers>, AllocError>
    ensures { IfOk result (λ callers. MatchOption callers (all_begun (map linked_shown program.now) starts.now ≡ None) (λ frames. all_begun (map linked_shown program.now) starts.now ≡ Some (frames_shown program.now frames))) }
{
    let mut frames = Callers::new(alloc);
    for number in (0..starts.len()).rev() {
        let Some(frame) = begin(alloc, program, starts[number], Vec::new(alloc))? else {
            return Ok(None);
        };
        frames.push(frame)?;
    }
    Ok(Some(frames))
}

// Goes on from a state in at most so many steps. The code of the running function is looked up once until another runs.
fn run_on(
    alloc: Global,
    program: &[Linked<'_>],
    state: &mut State,
    steps: u64,
) -> Result<End, AllocError>
    ensures { IfOk result (λ end. run_of end (string_bytes state.new.output) ≡ run_from (map linked_shown program.now) steps (from_state program.now state.old At)) }
{
    let mut function = state.frame.function;
    let mut code = code_of(program, function);
    for _turn in 0..steps {
        if let Some(end) = step(alloc, program, code, state)? {
            return Ok(end);
        }
        if state.frame.function != function {
            function = state.frame.function;
            code = code_of(program, function);
        }
    }
    Ok(End::Spent)
}

/// Runs the functions of these numbers, one after another, in at most so many steps, one for each instruction. What memory a run takes is bounded by
/// the words that are alive, at most 16,777,216 with one for each call, and by what it prints, at most `most_printed` bytes.
///
/// # Errors
///
/// `AllocError` where memory is wanting, or the run goes beyond these bounds, or lays more slots in all than 64 for each step that it may take and
/// 16,777,216 more.
pub fn execute(
    alloc: Global,
    program: &[Linked<'_>],
    starts: &[usize],
    steps: u64,
    most_printed: usize,
) -> Result<Ran, AllocError>
    ensures { IfOk result (λ ran. ran_shown ran ≡ machine (map linked_shown program.now) starts.now steps) }
{
    let output = String::new(alloc);
    let Some(mut callers) = begin_all(alloc, program, starts)? else {
        let end = End::Stuck;
        return Ok(Ran { end, output });
    };
    let Some(frame) = callers.pop() else {
        let end = End::Ended;
        return Ok(Ran { end, output });
    };
    let mut state = State {
        frame,
        callers,
        output,
        bounds: Bounds::new(steps, most_printed),
    };
    let end = run_on(alloc, program, &mut state, steps)?;
    let output = state.output;
    Ok(Ran { end, output })
}
