//! Folders whose files are parsed together.
ghost use Rattle.std.specs.Prelude.{◌≡◌, ◌≤◌, ◌++◌, [], ◌∷◌, IfOk, OnOk, length};
ghost use Rattle.std.specs.List.Sorted.{IsStrictlySortedBy};
ghost use Rattle.std.specs.Map.{keys_of};
ghost use Rattle.std.specs.String.{string_cmp};
ghost use Rattle.std.specs.Vec.Iter.{into_iter_items};
ghost use Rattle.govisd_disk.specs.Puts.{IsGroup, folder_of, group_of};

use crate::at_once::text_bytes;
use crate::reading::FolderFiles;
use go_graph_core::SourceFile;
use std::alloc::{AllocError, Global};
use std::collections::BTreeMap;
use std::vec::IntoIter;

/// The bytes of source that a group has before it is parsed.
const MOST_BYTES: usize = 4_194_304;

/// Folders whose files are parsed together: the path of each, with how many files it has, and the names and texts of the files of all.
#[derive(Drop)]
pub struct Group {
    pub folders: Vec<(String, usize)>,
    pub files: Vec<(String, String)>,
    bytes: usize,
}

// Files with their names, in order of name.
fn named_files(
    alloc: Global,
    files: BTreeMap<String, String>,
) -> Result<Vec<(String, String)>, AllocError>
    ensures files { IfOk result (λ v. v.items ≡ files.entries) }
    ensures order { IfOk result (λ v. IsStrictlySortedBy string_cmp (keys_of v.items)) }
{
    files.into_iter().collect(alloc)
}

impl Group {
    /// A group without folders.
    pub fn empty(alloc: Global) -> Group
        ensures group { IsGroup result }
        ensures folders { group_of result ≡ [] }
    {
        Group {
            folders: Vec::new(alloc),
            files: Vec::new(alloc),
            bytes: 0,
        }
    }

    /// Whether the texts of the files have so many bytes that the group is parsed before it gets another folder.
    pub fn is_full(&self) -> bool {
        self.bytes >= MOST_BYTES
    }

    /// Adds a folder.
    ///
    /// # Errors
    ///
    /// `AllocError` for want of memory.
    pub fn add(&mut self, alloc: Global, found: FolderFiles) -> Result<(), AllocError>
        requires { IsGroup self.old }
        ensures group { OnOk result (IsGroup self.new) }
        ensures folders { OnOk result (group_of self.new ≡ group_of self.old ++ folder_of found ∷ []) }
    {
        let FolderFiles { folder, files } = found;
        let mut files = named_files(alloc, files)?;
        self.bytes = self.bytes.saturating_add(text_bytes(&files));
        self.folders.push((folder, files.len()))?;
        self.files.append(&mut files)?;
        Ok(())
    }
}

/// Takes so many files from those that come next.
///
/// # Errors
///
/// `AllocError` for want of memory.
pub fn next_files(
    alloc: Global,
    files: &mut IntoIter<SourceFile>,
    count: usize,
) -> Result<Vec<SourceFile>, AllocError>
    requires { count ≤ length (into_iter_items files.old) }
    ensures count { IfOk result (λ v. length v.items ≡ count) }
    ensures items { IfOk result (λ v. v.items ++ into_iter_items files.new ≡ into_iter_items files.old) }
{
    let mut taken = Vec::with_capacity(alloc, count)?;
    for _ in 0..count {
        if let Some(file) = files.next() {
            taken.push(file)?;
        }
    }
    Ok(taken)
}
