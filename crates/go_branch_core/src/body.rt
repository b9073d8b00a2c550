//! The check of one function on branches.
ghost use Rattle.std.specs.Prelude.{◌≡◌, IfOk};
ghost use Rattle.go_tree_nodes.specs.Shapes.{func_of};
ghost use Rattle.go_local_core.specs.Tables.{IsFuncPlaced};
ghost use Rattle.go_env_core.specs.Scenes.{scene_shown};
ghost use Rattle.go_env_core.specs.Looks.{inline_rules};
ghost use Rattle.go_body_core.specs.Body.{IsWalkedBody, IsGivenBody};

use crate::branches::check_parts;
use go_body_core::CheckedBody;
use go_body_core::env_core::{Recall, Scene, TypesOf};
use go_body_core::walking::{Pieces, RecalledPieces, gathered, results};
use go_declared_core::Face;
use go_handle_core::{SignatureRef, TypeRef};
use go_inline_core::InlineTypes;
use go_stmt_core::piece::has_named_results;
use go_tree_nodes::FuncDecl;
use std::alloc::{AllocError, Global};
use std::thread::Threads;

/// Checks a function of a package, as [`check_body`](go_body_core::check_body) does; parts of its body are checked at once. The answer is the same, however
/// it is taken apart.
///
/// A list of statements is taken apart where its first ones declare nothing in the list's own block: there what comes of the others rests on nothing that
/// the first declare. Each half has 2 KB of source at least and a copy of the names that are open; the first goes to a thread, with a memory of its own of
/// what was decided of types, and the other adds to `recall`. Each half is taken apart again, to a depth of 16. What stands inside one statement, as
/// the operands of an expression and the statements of its blocks, is checked in turn. Where no thread can be made the halves are checked in turn too.
///
/// The Go specification, "Blocks", "Declarations and scope", "Statements", "Terminating statements".
///
/// # Errors
///
/// `AllocError` where memory is wanting.
pub fn check_body_par<'n, 'p, R: Threads + Sync, K: TypesOf + Send + Sync>(
    rt: &R,
    alloc: Global,
    scene: &'n Scene<'p>,
    file: usize,
    inline: &'p InlineTypes,
    known: &'n [Option<Face<TypeRef<'p>, SignatureRef<'p>>>],
    func: &FuncDecl,
    recall: &'n Recall<'p, K>,
) -> Result<CheckedBody<'p>, AllocError>
    requires table { scene.now.types.now ≡ K.types }
    requires placed { IsFuncPlaced (func_of func.now) }
    ensures walked { IfOk result (λ body. IsWalkedBody (scene_shown scene.now) file known.now (inline_rules (scene_shown scene.now) inline.now) (func_of func.now) body.uses.items body.faults.items body.locals.items) }
    ensures given { IfOk result (λ body. IsGivenBody (scene_shown scene.now) file known.now (inline_rules (scene_shown scene.now) inline.now) (func_of func.now) body.uses.items body.faults.items body.locals.items) }
{
    let results = results(alloc, scene, file, inline, known, func)?;
    let pieces = Pieces {
        alloc,
        scene,
        file,
        inline,
        known,
        results: results.as_slice(),
        has_names: has_named_results(&func.signature),
    };
    let recalled = RecalledPieces { pieces, recall };
    let checked = check_parts(rt, &recalled, func)?;
    gathered(alloc, checked.notes, checked.faults.as_slice(), func)
}
