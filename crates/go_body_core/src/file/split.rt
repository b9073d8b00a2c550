//! Pieces of source that are checked at once: how many bytes they have, and runs of declarations. What comes of them is what one thread gives.
ghost use Rattle.std.specs.Prelude.{◌≡◌, All, IfOk, map};
ghost use Rattle.go_body_core.specs.file.Package.{checked_file_shown};
ghost use Rattle.go_body_core.specs.file.Stands.{stand_of};
ghost use Rattle.go_body_core.specs.file.Runs.{IsRunMade, run_checked};

use crate::file::alone::check_alone;
use crate::file::file_at::FileAt;
use crate::file::runs::Run;
use crate::file::whole::CheckedFile;
use go_env_core::TypesOf;
use go_typexpr_core::entry::ImportedNames;
use rayon::prelude::*;
use std::alloc::{AllocError, Global};
use std::thread::Threads;

/// The least bytes of source that are worth a thread.
const LEAST_BYTES: usize = 32_768;

/// The most pieces into which a package goes, but for the last of each file.
const MOST_PIECES: usize = 16;

/// How many bytes of source a piece has at least, but for the last, of a package that has so many. It rests on no count of processors.
pub fn piece_bytes(bytes: usize) -> usize {
    LEAST_BYTES.max(bytes / MOST_PIECES)
}

/// What runs of declarations of a file have and break, in order, at once, each with a memory of its own.
///
/// # Errors
///
/// `AllocError` where memory is wanting, or a thread.
pub(crate) fn check_runs<'p, R: Threads + Sync, P: ImportedNames + Sync, K: TypesOf + Send + Sync>(
    rt: &R,
    alloc: Global,
    at: &FileAt<'_, 'p, P>,
    runs: &[Run<'_, 'p>],
) -> Result<Vec<CheckedFile<'p>>, AllocError>
    requires table { at.now.scene.now.types.now ≡ K.types }
    requires made { All (IsRunMade (stand_of P.shows at.now) at.now.initial.now) runs.now }
    ensures { IfOk result (λ cs. map checked_file_shown cs.items ≡ map (run_checked (stand_of P.shows at.now)) runs.now) }
{
    runs.par_iter()
        .with_min_len(1)
        .map(
            |run: &Run| -> Result<CheckedFile, AllocError>
                requires { (at.now.scene.now.types.now ≡ K.types) × IsRunMade (stand_of P.shows at.now) at.now.initial.now run.now }
                ensures { IfOk result (λ c. checked_file_shown c ≡ run_checked (stand_of P.shows at.entry.now) run.entry.now) }
            { check_alone::<P, K>(alloc, at, run) },
        )
        .collect::<Result<Vec<CheckedFile<'p>>, AllocError>>(rt, alloc)?
}
