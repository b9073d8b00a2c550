//! The check of a file.
ghost use Rattle.std.specs.Prelude.{◌≡◌, IfOk};
ghost use Rattle.go_tree_nodes.specs.Shapes.{file_of};
ghost use Rattle.go_body_core.specs.file.Files.{file_uses, file_faults, file_locals};
ghost use Rattle.go_body_core.specs.file.Stands.{AreInitialTypes, AreFunctionTypes, stand_of};
ghost use Rattle.go_tree_nodes.specs.Spelling.{IsPlaced};

use crate::file::decls::check_decls;
use crate::file::file_at::FileAt;
use crate::file::imports::add_imports;
use crate::file::notes::nothing;
use crate::{BodyUse, Local};
use go_env_core::{Recall, TypesOf};
use go_expr_core::Notes;
use go_local_core::Fault;
use go_tree_nodes::File;
use go_typexpr_core::entry::ImportedNames;
use std::alloc::{AllocError, Global};

/// What the check of a file gives.
#[derive(Drop)]
pub struct CheckedFile<'p> {
    /// What its occurrences have, in order of their places: of an import the package that it comes to or the first rule that it breaks, of an
    /// identifier and a call the declaration or the first rule.
    pub uses: Vec<BodyUse<'p>>,
    /// Its faults beside these outcomes, one declaration behind another. A pair of a place and a rule may stand there twice, and as an outcome
    /// too. What is asked of the package as a whole is not among them.
    pub faults: Vec<Fault>,
    /// The locals that its functions declare, in order of their identifiers' places.
    pub locals: Vec<Local<'p>>,
}

/// How many bytes of a file its declarations end behind.
pub fn file_bytes(tree: &File) -> usize {
    match tree.decls.last() {
        Some(top) => top.semicolon.end as usize,
        None => 0,
    }
}

/// Checks a file of a package.
///
/// What its imports have comes first, then what each declaration has and breaks, in order of place. A constant or a variable outside functions
/// is checked with the names as they are at the top of the file, a function as its own blocks say; each type that is written is what its names
/// mean at its place. `at.initial` and `at.functions` have these types, as `initialiser_types` and `function_types` of `go_inline_core` give
/// them for the file's declarations. `recall` has what was decided of the types of the package's table, and is told what is decided; no answer
/// rests on what was decided before.
///
/// The Go specification, "Import declarations", "Declarations and scope", "Constant declarations", "Variable declarations", "Package
/// initialization", "Type declarations", "Function declarations".
///
/// # Errors
///
/// `AllocError` where memory is wanting.
pub fn check_file<'n, 'p, P: ImportedNames, K: TypesOf>(
    alloc: Global,
    at: &FileAt<'n, 'p, P>,
    tree: &File,
    recall: &Recall<'p, K>,
) -> Result<CheckedFile<'p>, AllocError>
    requires table { at.now.scene.now.types.now ≡ K.types }
    requires placed { IsPlaced (file_of tree.now) }
    requires initial { AreInitialTypes (stand_of P.shows at.now) (file_of tree.now) at.now.initial.now }
    requires functions { AreFunctionTypes (stand_of P.shows at.now) (file_of tree.now) at.now.functions.now }
    ensures uses { IfOk result (λ c. c.uses.items ≡ file_uses (stand_of P.shows at.now) at.now.imports.now (file_of tree.now)) }
    ensures faults { IfOk result (λ c. c.faults.items ≡ file_faults (stand_of P.shows at.now) (file_of tree.now)) }
    ensures locals { IfOk result (λ c. c.locals.items ≡ file_locals (stand_of P.shows at.now) (file_of tree.now)) }
{
    let mut notes = nothing(alloc);
    add_imports(alloc, &tree.imports, at.imports, &mut notes.uses)?;
    let mut locals = Vec::new(alloc);
    let decls = tree.decls.as_slice();
    check_decls(alloc, at, decls, recall, &mut notes, &mut locals)?;
    let Notes { uses, faults } = notes;
    Ok(CheckedFile {
        uses,
        faults,
        locals,
    })
}
