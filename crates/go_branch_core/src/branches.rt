//! Parts of a function that are checked at once.
ghost use Rattle.std.specs.Prelude.{◌≡◌, ◌≤◌, IfOk, length};
ghost use Rattle.std.specs.Thread.{IsSend, IsSync};
ghost use Rattle.go_tree_nodes.specs.Shapes.{func_of, lines_of};
ghost use Rattle.go_local_core.specs.Tables.{IsFuncPlaced};
ghost use Rattle.go_local_core.specs.Steps.{Done};
ghost use Rattle.go_local_core.specs.Outline.{lines_steps};
ghost use Rattle.go_names_core.specs.Body.{AreWalked, AreGiven};
ghost use Rattle.go_names_core.specs.Scenes.{name_scene};
ghost use Rattle.go_names_core.specs.mirrors.Run.{noted};
ghost use Rattle.go_names_core.specs.mirrors.States.{state};
ghost use Rattle.go_env_core.specs.declared.meaning.Meaning.TheVariants as meanings;
ghost use Rattle.go_env_core.specs.Scenes.{scene_shown};
ghost use Rattle.go_body_core.specs.Rules.{rules_of, outside_in};
ghost use Rattle.go_branch_core.specs.mirrors.Ways.{EndsTo, IsNotedOf};

use crate::halves::{are_quiet, cut_of, place_behind};
use crate::turn::visit_run;
use crate::walk::Walk;
use go_body_core::env_core::{Recall, TypesOf};
use go_body_core::walking::{Note, Pieces, RecalledPieces};
use go_env_core::Meaning;
use go_names_core::Checked;
use go_names_core::scope_core::Scopes;
use go_tree_nodes::{FuncDecl, Line};
use std::alloc::AllocError;
use std::thread::{Threads, join};

/// How often a part of a function is taken apart again.
const MOST_LEVELS: u64 = 16;

// Checks the last statements of a block in turn.
fn check_in_turn<'p, K: TypesOf>(walk: &mut Walk<'_, '_, RecalledPieces<'_, 'p, K>>, lines: &[Line])
    ensures { EndsTo meanings.Outside (state (rules_of walk.old.checker.now.pieces) walk.old.scopes walk.old.locals.items walk.old.notes.items walk.old.faults.items walk.old.lacks_memory) (λ rest. lines_steps (lines_of lines.now) rest) (state (rules_of walk.new.checker.now.pieces) walk.new.scopes walk.new.locals.items walk.new.notes.items walk.new.faults.items walk.new.lacks_memory) }
{
    visit_run(walk, lines);
}

// What is noted of the last statements of a block, which begin at a place, by the names that are open before them.
#[cycle(branches)]
fn check_rest<'p, R: Threads + Sync, K: TypesOf + Send + Sync>(
    rt: &R,
    checker: &RecalledPieces<'_, 'p, K>,
    scopes: &Scopes<'_>,
    locals: &[Meaning<'p>],
    begin: usize,
    lines: &[Line],
    levels: u64,
) -> Result<Checked<Note<'p>>, AllocError>
    ensures { IfOk result (λ c. IsNotedOf meanings.Outside (rules_of checker.now.pieces) (name_scene scopes.now locals.now) (lines_steps (lines_of lines.now) Done) (noted c.notes.items c.faults.items)) }
{
    let mut walk = Walk::beside(checker.pieces.alloc, checker, scopes, locals)?;
    check_lines::<R, K>(rt, &mut walk, begin, lines, levels);
    walk.end()
}

// The same, with a memory of its own.
#[cycle(branches)]
fn check_apart<'p, R: Threads + Sync, K: TypesOf + Send + Sync>(
    rt: &R,
    pieces: &Pieces<'_, 'p>,
    scopes: &Scopes<'_>,
    locals: &[Meaning<'p>],
    begin: usize,
    lines: &[Line],
    levels: u64,
) -> Result<Checked<Note<'p>>, AllocError>
    requires table { pieces.now.scene.now.types.now ≡ K.types }
    ensures { IfOk result (λ c. IsNotedOf meanings.Outside (rules_of pieces.now) (name_scene scopes.now locals.now) (lines_steps (lines_of lines.now) Done) (noted c.notes.items c.faults.items)) }
{
    let recall: Recall<'p, K> = Recall::new(pieces.alloc);
    let checker = RecalledPieces {
        pieces: Pieces {
            alloc: pieces.alloc,
            scene: pieces.scene,
            file: pieces.file,
            inline: pieces.inline,
            known: pieces.known,
            results: pieces.results,
            has_names: pieces.has_names,
        },
        recall: &recall,
    };
    check_rest::<R, K>(rt, &checker, scopes, locals, begin, lines, levels)
}

// Checks the last statements of a block, which begin at a place: so many of the first and the others at once, where the first declare nothing in the
// block and parts are taken apart still.
#[cycle(branches)]
fn check_halves<'p, R: Threads + Sync, K: TypesOf + Send + Sync>(
    rt: &R,
    walk: &mut Walk<'_, '_, RecalledPieces<'_, 'p, K>>,
    begin: usize,
    lines: &[Line],
    count: usize,
    levels: u64,
)
    requires within { count ≤ length lines.now }
    ensures { EndsTo meanings.Outside (state (rules_of walk.old.checker.now.pieces) walk.old.scopes walk.old.locals.items walk.old.notes.items walk.old.faults.items walk.old.lacks_memory) (λ rest. lines_steps (lines_of lines.now) rest) (state (rules_of walk.new.checker.now.pieces) walk.new.scopes walk.new.locals.items walk.new.notes.items walk.new.faults.items walk.new.lacks_memory) }
{
    if levels == 0 {
        check_in_turn(walk, lines);
        return;
    }
    let (front, back) = lines.split_at(count);
    if walk.lacks_memory || !are_quiet(front) {
        check_in_turn(walk, lines);
        return;
    }
    let less = levels - 1;
    let place = place_behind(front, begin);
    let checker = walk.checker;
    let pieces = &checker.pieces;
    let scopes = &walk.scopes;
    let locals = walk.locals.as_slice();
    let one = || -> Result<Checked<Note>, AllocError>
        requires { IsSync R.row × IsSend K.row × IsSync K.row × (pieces.now.scene.now.types.now ≡ K.types) }
        ensures { IfOk result (λ c. IsNotedOf meanings.Outside (rules_of pieces.entry.now) (name_scene scopes.entry.now locals.entry.now) (lines_steps (lines_of front.entry.now) Done) (noted c.notes.items c.faults.items)) }
    { check_apart::<R, K>(rt, pieces, scopes, locals, begin, front, less) };
    let other = || -> Result<Checked<Note>, AllocError>
        requires { IsSync R.row × IsSend K.row × IsSync K.row }
        ensures { IfOk result (λ c. IsNotedOf meanings.Outside (rules_of checker.entry.now.pieces) (name_scene scopes.entry.now locals.entry.now) (lines_steps (lines_of back.entry.now) Done) (noted c.notes.items c.faults.items)) }
    { check_rest::<R, K>(rt, checker, scopes, locals, place, back, less) };
    let (first, second) = join(rt, one, other);
    walk.lacks_memory = walk.add_both(first, second).is_err();
}

// Checks the last statements of a block, which begin at a place, in two halves at once where they are worth it.
#[cycle(branches)]
fn check_lines<'p, R: Threads + Sync, K: TypesOf + Send + Sync>(
    rt: &R,
    walk: &mut Walk<'_, '_, RecalledPieces<'_, 'p, K>>,
    begin: usize,
    lines: &[Line],
    levels: u64,
)
    ensures { EndsTo meanings.Outside (state (rules_of walk.old.checker.now.pieces) walk.old.scopes walk.old.locals.items walk.old.notes.items walk.old.faults.items walk.old.lacks_memory) (λ rest. lines_steps (lines_of lines.now) rest) (state (rules_of walk.new.checker.now.pieces) walk.new.scopes walk.new.locals.items walk.new.notes.items walk.new.faults.items walk.new.lacks_memory) }
{
    let Some(cut) = cut_of(lines, begin) else {
        check_in_turn(walk, lines);
        return;
    };
    let (before, rest) = lines.split_at(cut.before);
    visit_run(walk, before);
    let place = place_behind(before, begin);
    check_halves::<R, K>(rt, walk, place, rest, cut.middle - cut.before, levels);
}

/// Checks a function in its file, as `check_function` of `go_names_core` does, parts of its body at once.
///
/// # Errors
///
/// `AllocError` where memory is wanting.
pub(crate) fn check_parts<'p, R: Threads + Sync, K: TypesOf + Send + Sync>(
    rt: &R,
    checker: &RecalledPieces<'_, 'p, K>,
    func: &FuncDecl,
) -> Result<Checked<Note<'p>>, AllocError>
    requires placed { IsFuncPlaced (func_of func.now) }
    ensures walked { IfOk result (λ c. AreWalked (rules_of checker.now.pieces) (outside_in (scene_shown checker.now.pieces.scene.now) checker.now.pieces.file) (func_of func.now) c.notes.items c.faults.items) }
    ensures given { IfOk result (λ c. AreGiven (rules_of checker.now.pieces) (outside_in (scene_shown checker.now.pieces.scene.now) checker.now.pieces.file) (func_of func.now) c.notes.items c.faults.items) }
{
    let alloc = checker.pieces.alloc;
    let scene = checker.pieces.scene;
    let mut walk = Walk {
        alloc,
        checker,
        scopes: Scopes::begin(alloc, scene.blocks, checker.pieces.file),
        locals: Vec::new(alloc),
        notes: Vec::new(alloc),
        faults: Vec::new(alloc),
        lacks_memory: false,
    };
    walk.lacks_memory = walk.header(func).is_err();
    let begin = func.open_brace.end as usize;
    let lines = func.body.as_slice();
    check_lines::<R, K>(rt, &mut walk, begin, lines, MOST_LEVELS);
    walk.end()
}
