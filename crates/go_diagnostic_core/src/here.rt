//! The places of faults, with the tokens of their files.

use crate::tokens::Tokens;
use go_block_core::graph_core::{PackageSource, SourceFile};
use go_package_core::path_core::ImportPath;
use go_snap_core::{PlacedFault, Snapshot};
use std::alloc::{AllocError, Global};

/// A file of a snapshot with its tokens, which are read once for the diagnostics of all its faults.
pub struct ScannedFile<'s> {
    snapshot: &'s Snapshot,
    source: &'s PackageSource,
    file: &'s SourceFile,
    package: usize,
    number: usize,
    tokens: Tokens<'s>,
}

impl Drop for ScannedFile<'_> {
    fn drop(self) {
        let ScannedFile {
            snapshot: _,
            source: _,
            file: _,
            package: _,
            number: _,
            tokens: _,
        } = self;
    }
}

impl<'s> ScannedFile<'s> {
    /// The file of a fault of a snapshot, with its tokens; none where the snapshot has no such file. The time is linear in the text of the file.
    ///
    /// # Errors
    ///
    /// `AllocError` where memory is wanting.
    pub fn of(
        alloc: Global,
        snapshot: &'s Snapshot,
        fault: &PlacedFault,
    ) -> Result<Option<ScannedFile<'s>>, AllocError> {
        let Some(source) = snapshot.sources().packages().get(fault.package) else {
            return Ok(None);
        };
        let Some(file) = source.files().get(fault.file) else {
            return Ok(None);
        };
        let tokens = match Tokens::of(alloc, file.text()) {
            Ok(tokens) => tokens,
            Err(error) => return Err(error),
        };
        Ok(Some(ScannedFile {
            snapshot,
            source,
            file,
            package: fault.package,
            number: fault.file,
            tokens,
        }))
    }
}

/// The place of a fault: of what a diagnostic speaks.
#[derive(Clone, Copy)]
pub struct Here<'s> {
    /// The snapshot of the fault.
    pub snapshot: &'s Snapshot,
    /// The path of the module below whose folder files are named.
    pub module: &'s str,
    /// The package of the fault.
    pub source: &'s PackageSource,
    /// The file of the fault.
    pub file: &'s SourceFile,
    /// The number of the file in its package, in byte order of name, from 0.
    pub number: usize,
    /// The offset of the fault in bytes from the start of the file.
    pub offset: usize,
    /// The tokens of the file; none where its text has a fault of its tokens.
    pub tokens: &'s Tokens<'s>,
    /// The number of the first token that begins at the offset or after it; how many tokens there are where none does.
    pub at: usize,
}

impl<'s> Here<'s> {
    /// The place of a fault in a file; none where the fault lies in another file.
    pub fn of(
        scanned: &'s ScannedFile<'s>,
        module: &'s str,
        fault: &PlacedFault,
    ) -> Option<Here<'s>> {
        if fault.package != scanned.package || fault.file != scanned.number {
            return None;
        }
        let tokens = &scanned.tokens;
        Some(Here {
            snapshot: scanned.snapshot,
            module,
            source: scanned.source,
            file: scanned.file,
            number: scanned.number,
            offset: fault.offset,
            tokens,
            at: tokens.from(fault.offset),
        })
    }

    /// The path of the package.
    pub fn path(&self) -> &'s ImportPath {
        self.source.path()
    }

    /// The text of the token at the place; nothing where there is none.
    pub fn word(&self) -> &'s str {
        self.tokens.word(self.at)
    }
}
