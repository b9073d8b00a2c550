//! The check of one function.
ghost use Rattle.std.specs.Prelude.{◌≡◌, IfOk};
ghost use Rattle.go_tree_nodes.specs.Shapes.{func_of};
ghost use Rattle.go_tree_nodes.specs.TypeShapes.{shape_signature};
ghost use Rattle.go_local_core.specs.Tables.{IsFuncPlaced};
ghost use Rattle.go_env_core.specs.Scenes.{scene_shown};
ghost use Rattle.go_env_core.specs.Looks.{inline_rules};
ghost use Rattle.go_stmt_core.specs.piece.Headers.{returned_types};
ghost use Rattle.go_body_core.specs.Rules.{outside_looks};
ghost use Rattle.go_body_core.specs.Body.{IsBody, IsWalkedBody, IsGivenBody};

use crate::ends::add_end;
use crate::locals::Local;
use crate::notes::{BodyUse, Note, joined};
use crate::pieces::{Pieces, RecalledPieces};
use go_declared_core::Face;
use go_env_core::{Recall, Scene, TypesOf, outer_names};
use go_handle_core::{SignatureRef, TypeRef};
use go_inline_core::InlineTypes;
use go_local_core::Fault;
use go_local_core::walks::lines_loop_faults;
use go_names_core::check_function;
use go_names_core::scope_core::Scopes;
use go_stmt_core::piece::has_named_results;
use go_tree_nodes::FuncDecl;
use std::alloc::{AllocError, Global};

/// What the check of a function's body gives.
#[derive(Drop)]
pub struct CheckedBody<'p> {
    /// What its occurrences have, in order of their places.
    pub uses: Vec<BodyUse<'p>>,
    /// Its faults beside these outcomes: those of its pieces in order, those of the names that it declares, Y6 and Y5. A pair of a place and a
    /// rule may stand there twice, and as an outcome too.
    pub faults: Vec<Fault>,
    /// The locals that it declares, in order of their identifiers' places: one for each that is not blank and is the first of its name in its
    /// block. A name that a short declaration uses again has none there.
    pub locals: Vec<Local<'p>>,
}

/// The types of a function's results, as they are written in its header.
///
/// # Errors
///
/// `AllocError` where memory is wanting.
pub fn results<'n, 'p>(
    alloc: Global,
    scene: &'n Scene<'p>,
    file: usize,
    inline: &'p InlineTypes,
    known: &'n [Option<Face<TypeRef<'p>, SignatureRef<'p>>>],
    func: &FuncDecl,
) -> Result<Vec<Option<TypeRef<'p>>>, AllocError>
    ensures { IfOk result (λ ts. ts.items ≡ returned_types (outside_looks (scene_shown scene.now) file known.now (inline_rules (scene_shown scene.now) inline.now)) (shape_signature func.now.signature)) }
{
    let pieces = Pieces {
        alloc,
        scene,
        file,
        inline,
        known,
        results: &[],
        has_names: false,
    };
    let scopes = Scopes::begin(alloc, scene.blocks, file);
    let names = outer_names(scene, &scopes);
    pieces.results_at(&names, func)
}

/// What was noted of the pieces of a function, with the faults of its names, of `break` and `continue`, and of its end.
///
/// # Errors
///
/// `AllocError` where memory is wanting.
pub fn gathered<'p>(
    alloc: Global,
    notes: Vec<Note<'p>>,
    names: &[Fault],
    func: &FuncDecl,
) -> Result<CheckedBody<'p>, AllocError>
    ensures { IfOk result (λ body. IsBody (func_of func.now) notes.entry.items names.now body.uses.items body.faults.items body.locals.items) }
{
    let CheckedBody {
        uses,
        mut faults,
        locals,
    } = joined(alloc, notes)?;
    faults.extend_from_slice(names)?;
    let mut loops = Vec::new(alloc);
    lines_loop_faults(&mut loops, false, &func.body)?;
    faults.extend_from_slice(loops.as_slice())?;
    add_end(alloc, uses.as_slice(), func, &mut faults)?;
    Ok(CheckedBody {
        uses,
        faults,
        locals,
    })
}

/// Checks a function of a package: in a file, by the file's number in order of name, from 0, with the types that are written inside the
/// function, with what the package's own declarations are, by their places in `scene.written`, and with what was decided of the types of its
/// table, to which it adds what it decides. No answer rests on what was decided before.
///
/// What its occurrences have, its faults and its locals are what the rules of pieces give on the way through the function, and what they give by
/// the regions of its declarations, where each means what its piece gives under the names as these very regions bind them.
///
/// The Go specification, "Blocks", "Declarations and scope", "Statements", "Terminating statements".
///
/// # Errors
///
/// `AllocError` where memory is wanting.
pub fn check_body<'n, 'p, K: TypesOf>(
    alloc: Global,
    scene: &'n Scene<'p>,
    file: usize,
    inline: &'p InlineTypes,
    known: &'n [Option<Face<TypeRef<'p>, SignatureRef<'p>>>],
    func: &FuncDecl,
    recall: &'n Recall<'p, K>,
) -> Result<CheckedBody<'p>, AllocError>
    requires table { scene.now.types.now ≡ K.types }
    requires placed { IsFuncPlaced (func_of func.now) }
    ensures walked { IfOk result (λ body. IsWalkedBody (scene_shown scene.now) file known.now (inline_rules (scene_shown scene.now) inline.now) (func_of func.now) body.uses.items body.faults.items body.locals.items) }
    ensures given { IfOk result (λ body. IsGivenBody (scene_shown scene.now) file known.now (inline_rules (scene_shown scene.now) inline.now) (func_of func.now) body.uses.items body.faults.items body.locals.items) }
{
    let results = results(alloc, scene, file, inline, known, func)?;
    let pieces = Pieces {
        alloc,
        scene,
        file,
        inline,
        known,
        results: results.as_slice(),
        has_names: has_named_results(&func.signature),
    };
    let recalled = RecalledPieces { pieces, recall };
    let checked = check_function(alloc, &recalled, scene.blocks, file, func)?;
    gathered(alloc, checked.notes, checked.faults.as_slice(), func)
}
