//! The folders of the system, as an editor's server reads them.

use go_graph_core::Workspace;
use govisd_disk::{FoundPackages, Progress, ReadFolder, STAND_IN, read_folder};
use govisd_documents::Disk;
use std::alloc::{AllocError, Global};
use std::fs;

/// The most bytes of a text.
const MOST: usize = 1_048_576;

/// The folders of the system.
#[derive(Drop)]
pub struct HostDisk<'a> {
    rt: &'a HostRuntime,
}

impl<'a> HostDisk<'a> {
    /// The folders that a runtime reads.
    pub fn new(rt: &'a HostRuntime) -> HostDisk<'a> {
        HostDisk { rt }
    }
}

// The text of the file at a path that has so many bytes, if it can be read, is UTF-8 and has no more of them than a text may have.
fn taken(rt: &HostRuntime, path: &str, length: u64) -> Option<String> {
    let most = u64::try_from(MOST).unwrap_or(u64::MAX);
    if length > most {
        return None;
    }
    let bytes = fs::read(rt, path).ok()?;
    String::from_utf8(bytes).ok()
}

// What stands for the text of a file that cannot be taken, as where a folder is read.
fn stand_in(alloc: Global) -> Option<String> {
    match String::from_str(alloc, STAND_IN) {
        Ok(text) => Some(text),
        Err(AllocError) => None,
    }
}

// The packages that were found.
fn workspace_of(found: FoundPackages) -> Workspace {
    let FoundPackages {
        module_path: _,
        workspace,
        told: _,
        file: _,
        notes: _,
        passed: _,
    } = found;
    workspace
}

impl Disk for HostDisk<'_> {
    fn packages(&self, folder: &str, module: &str) -> Result<Option<Workspace>, AllocError> {
        let mut progress = Progress::begin(self.rt);
        let read = read_folder(self.rt, folder, Some(module), &mut progress);
        progress.end();
        match read? {
            ReadFolder::Found(found) => Ok(Some(workspace_of(found))),
            ReadFolder::Refused(_) => Ok(None),
        }
    }

    fn text(&self, path: &str) -> Option<String> {
        let Ok(metadata) = fs::metadata(self.rt, path) else {
            return None;
        };
        if !metadata.is_file() {
            return None;
        }
        match taken(self.rt, path, metadata.len()) {
            Some(text) => Some(text),
            None => stand_in(self.rt.alloc()),
        }
    }
}
