//! Steps of the machine.
ghost use Rattle.std.specs.Prelude.{◌≡◌, ◌<◌, ℕ, List, [], ◌∷◌, map, IfOk};
ghost use Rattle.go_object_core.specs.declared.instructions.instruction.Instruction.TheVariants as instructions;
ghost use Rattle.go_machine_core.specs.declared.linked.Linked.{Linked};
ghost use Rattle.go_machine_core.specs.Programs.{linked_shown};
ghost use Rattle.go_machine_core.specs.Machine.{on_one, on_two, onward, left, entered, step, run_from, panic_value};
ghost use Rattle.go_machine_core.specs.mirrors.Shown.{operation, numbered, after, from_state, acted};

use crate::frame::begin;
use crate::linked::{Linked, callee_of};
use crate::state::{End, PanicValue, State};
use crate::text::write_line;
use crate::words::{Operation, holds, invert, negate, operate};
use go_object_core::instructions::{Distance, Instruction, Word};
use std::alloc::{AllocError, Global};
use std::mem;

fn push(state: &mut State, word: i64) -> Result<Option<End>, AllocError>
    requires { state.old.frame.place < usize.MAX }
    ensures { (p : List Linked) → IfOk result (λ end. after p end state.new ≡ from_state p state.old (λ f callers out. onward f (word ∷ f.stack) callers out)) }
{
    state.frame.stack.push(word)?;
    state.frame.place += 1;
    Ok(None)
}

fn load(state: &mut State, slot: usize) -> Result<Option<End>, AllocError>
    requires { state.old.frame.place < usize.MAX }
    ensures { (p : List Linked) → IfOk result (λ end. after p end state.new ≡ acted p (instructions.Load slot) state.old) }
{
    if state.frame.slots.len() <= slot {
        return Ok(Some(End::Stuck));
    }
    let word = state.frame.slots[slot];
    state.frame.stack.push(word)?;
    state.frame.place += 1;
    Ok(None)
}

fn store(state: &mut State, slot: usize) -> Result<Option<End>, AllocError>
    requires { state.old.frame.place < usize.MAX }
    ensures { (p : List Linked) → IfOk result (λ end. after p end state.new ≡ acted p (instructions.Store slot) state.old) }
{
    let Some(word) = state.frame.stack.pop() else {
        return Ok(Some(End::Stuck));
    };
    if state.frame.slots.len() <= slot {
        return Ok(Some(End::Stuck));
    }
    state.frame.slots[slot] = word;
    state.frame.place += 1;
    Ok(None)
}

fn drop_word(state: &mut State) -> Result<Option<End>, AllocError>
    requires { state.old.frame.place < usize.MAX }
    ensures { (p : List Linked) → IfOk result (λ end. after p end state.new ≡ acted p instructions.Drop state.old) }
{
    let Some(_word) = state.frame.stack.pop() else {
        return Ok(Some(End::Stuck));
    };
    state.frame.place += 1;
    Ok(None)
}

// What a word is that holds this.
fn panic_value(letter: Word, word: i64) -> PanicValue
    ensures { result ≡ panic_value letter word }
{
    match letter {
        Word::Int => PanicValue::Int(word),
        Word::Bool => PanicValue::Bool(holds(word)),
    }
}

fn panic(state: &mut State, letter: Word) -> Result<Option<End>, AllocError>
    ensures { (p : List Linked) → IfOk result (λ end. after p end state.new ≡ acted p (instructions.Panic letter) state.old) }
{
    let Some(word) = state.frame.stack.pop() else {
        return Ok(Some(End::Stuck));
    };
    Ok(Some(End::Panicked(panic_value(letter, word))))
}

fn negate_word(state: &mut State) -> Result<Option<End>, AllocError>
    requires { state.old.frame.place < usize.MAX }
    ensures { (p : List Linked) → IfOk result (λ end. after p end state.new ≡ acted p instructions.Neg state.old) }
{
    let Some(word) = state.frame.stack.pop() else {
        return Ok(Some(End::Stuck));
    };
    state.frame.stack.push(negate(word))?;
    state.frame.place += 1;
    Ok(None)
}

fn invert_word(state: &mut State) -> Result<Option<End>, AllocError>
    requires { state.old.frame.place < usize.MAX }
    ensures { (p : List Linked) → IfOk result (λ end. after p end state.new ≡ acted p instructions.Not state.old) }
{
    let Some(word) = state.frame.stack.pop() else {
        return Ok(Some(End::Stuck));
    };
    state.frame.stack.push(invert(word))?;
    state.frame.place += 1;
    Ok(None)
}

fn binary(state: &mut State, operator: Operation) -> Result<Option<End>, AllocError>
    requires { state.old.frame.place < usize.MAX }
    ensures { (p : List Linked) → IfOk result (λ end. after p end state.new ≡ from_state p state.old (λ f callers out. on_two (operation operator) f.stack f callers out)) }
{
    let Some(upper) = state.frame.stack.pop() else {
        return Ok(Some(End::Stuck));
    };
    let Some(lower) = state.frame.stack.top() else {
        return Ok(Some(End::Stuck));
    };
    let Some(word) = operate(operator, lower, upper) else {
        return Ok(Some(End::Panicked(PanicValue::DivideByZero)));
    };
    state.frame.stack.replace_top(word);
    state.frame.place += 1;
    Ok(None)
}

fn jump(state: &mut State, distance: Distance) -> Result<Option<End>, AllocError>
    requires { state.old.frame.place < usize.MAX }
    ensures { (p : List Linked) → IfOk result (λ end. after p end state.new ≡ acted p (instructions.Jump distance) state.old) }
{
    let next = state.frame.place + 1;
    match distance {
        Distance::Forward(count) => {
            state.frame.place = next.saturating_add(count);
            Ok(None)
        }
        Distance::Back(count) => {
            state.frame.place = next.saturating_sub(count);
            Ok(None)
        }
    }
}

fn jump_false(state: &mut State, count: usize) -> Result<Option<End>, AllocError>
    requires { state.old.frame.place < usize.MAX }
    ensures { (p : List Linked) → IfOk result (λ end. after p end state.new ≡ acted p (instructions.JumpFalse count) state.old) }
{
    let Some(word) = state.frame.stack.pop() else {
        return Ok(Some(End::Stuck));
    };
    let next = state.frame.place + 1;
    if holds(word) {
        state.frame.place = next;
        return Ok(None);
    }
    state.frame.place = next.saturating_add(count);
    Ok(None)
}

// The function of a number begins, and the running one waits.
fn enter(
    alloc: Global,
    program: &[Linked<'_>],
    state: &mut State,
    function: usize,
    arguments: Vec<i64>,
) -> Result<Option<End>, AllocError>
    ensures { IfOk result (λ end. after program.now end state.new ≡ from_state program.now state.old (λ f callers out. entered (map linked_shown program.now) function arguments.items (f ∷ callers) out)) }
{
    let Some(called) = begin(alloc, program, function, arguments)? else {
        return Ok(Some(End::Stuck));
    };
    let waiting = state.frame.stack.len();
    state.bounds.begin(called.slots.len(), waiting)?;
    let caller = mem::replace(&mut state.frame, called);
    state.callers.push(caller)?;
    Ok(None)
}

fn call(
    alloc: Global,
    program: &[Linked<'_>],
    state: &mut State,
    reference: usize,
    arguments: usize,
) -> Result<Option<End>, AllocError>
    requires { state.old.frame.place < usize.MAX }
    ensures { IfOk result (λ end. after program.now end state.new ≡ acted program.now (instructions.Call reference arguments) state.old) }
{
    let Some(taken) = state.frame.stack.take(arguments)? else {
        return Ok(Some(End::Stuck));
    };
    let Some(function) = callee_of(program, state.frame.function, reference) else {
        return Ok(Some(End::Stuck));
    };
    state.frame.place += 1;
    enter(alloc, program, state, function, taken)
}

fn leave(state: &mut State) -> Result<Option<End>, AllocError>
    ensures { (p : List Linked) → IfOk result (λ end. after p end state.new ≡ from_state p state.old (λ f callers out. left callers [] out)) }
{
    let Some(caller) = state.callers.pop() else {
        return Ok(Some(End::Ended));
    };
    let waiting = caller.stack.len();
    state.bounds.leave(state.frame.slots.len(), waiting);
    state.frame = caller;
    Ok(None)
}

fn leave_with(state: &mut State) -> Result<Option<End>, AllocError>
    ensures { (p : List Linked) → IfOk result (λ end. after p end state.new ≡ from_state p state.old (λ f callers out. on_one f.stack out (λ word stack. left callers (word ∷ []) out))) }
{
    let Some(word) = state.frame.stack.pop() else {
        return Ok(Some(End::Stuck));
    };
    let Some(caller) = state.callers.pop() else {
        return Ok(Some(End::Ended));
    };
    let waiting = caller.stack.len();
    state.bounds.leave(state.frame.slots.len(), waiting);
    state.frame = caller;
    state.frame.stack.push(word)?;
    Ok(None)
}

fn leave_by(state: &mut State, gives: bool) -> Result<Option<End>, AllocError>
    ensures { (p : List Linked) → IfOk result (λ end. after p end state.new ≡ acted p (instructions.Return gives) state.old) }
{
    if gives {
        leave_with(state)
    } else {
        leave(state)
    }
}

fn println(state: &mut State, letters: &[Word]) -> Result<Option<End>, AllocError>
    requires { state.old.frame.place < usize.MAX }
    ensures { (p : List Linked) → IfOk result (λ end. after p end state.new ≡ acted p (instructions.Println letters.now) state.old) }
{
    let Some(taken) = state.frame.stack.take(letters.len())? else {
        return Ok(Some(End::Stuck));
    };
    write_line(&mut state.output, letters, &taken)?;
    if !state.bounds.allow(state.output.len()) {
        return Err(AllocError);
    }
    state.frame.place += 1;
    Ok(None)
}

// One instruction, whose place is the running function's.
fn apply(
    alloc: Global,
    program: &[Linked<'_>],
    state: &mut State,
    instruction: &Instruction,
) -> Result<Option<End>, AllocError>
    requires { state.old.frame.place < usize.MAX }
    ensures { IfOk result (λ end. after program.now end state.new ≡ acted program.now instruction.now state.old) }
{
    match instruction {
        Instruction::Push(word) => push(state, *word),
        Instruction::Load(slot) => load(state, *slot),
        Instruction::Store(slot) => store(state, *slot),
        Instruction::Drop => drop_word(state),
        Instruction::Neg => negate_word(state),
        Instruction::Not => invert_word(state),
        Instruction::Add => binary(state, Operation::Add),
        Instruction::Sub => binary(state, Operation::Sub),
        Instruction::Mul => binary(state, Operation::Mul),
        Instruction::Div => binary(state, Operation::Div),
        Instruction::Rem => binary(state, Operation::Rem),
        Instruction::Eq => binary(state, Operation::Eq),
        Instruction::Ne => binary(state, Operation::Ne),
        Instruction::Lt => binary(state, Operation::Lt),
        Instruction::Le => binary(state, Operation::Le),
        Instruction::Gt => binary(state, Operation::Gt),
        Instruction::Ge => binary(state, Operation::Ge),
        Instruction::Jump(distance) => jump(state, *distance),
        Instruction::JumpFalse(count) => jump_false(state, *count),
        Instruction::Call {
            reference,
            arguments,
        } => call(alloc, program, state, *reference, *arguments),
        Instruction::Return(result) => leave_by(state, *result),
        Instruction::Println(letters) => println(state, letters.words()),
        Instruction::Panic(letter) => panic(state, *letter),
        Instruction::Outside => Ok(Some(End::Stuck)),
    }
}

/// One step of the running function, whose code is at hand: whatever number of steps follows, the run comes to what the machine comes to.
pub(crate) fn step(
    alloc: Global,
    program: &[Linked<'_>],
    code: &[Instruction],
    state: &mut State,
) -> Result<Option<End>, AllocError>
    requires { code.now ≡ (numbered program.now state.old.frame.function).code }
    ensures { IfOk result (λ end. (k : ℕ) → run_from (map linked_shown program.now) k (after program.now end state.new) ≡ run_from (map linked_shown program.now) k (from_state program.now state.old (step (map linked_shown program.now)))) }
{
    if code.len() <= state.frame.place {
        return Ok(Some(End::Stuck));
    }
    apply(alloc, program, state, &code[state.frame.place])
}
