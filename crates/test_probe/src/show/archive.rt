//! Archives of the files of a workspace.
//!
//! An archive has the form of Go's txtar: a line `-- ex.com/a/x.go --` begins the file `x.go` of the package `ex.com/a`, and what
//! follows up to the next such line is its text. What stands before the first is passed over, and of two files of one path
//! and name the later one is kept.
ghost use Rattle.std.specs.Prelude.{IfOk};
ghost use Rattle.std.specs.List.Sorted.{IsStrictlySortedBy};
ghost use Rattle.std.specs.String.{string_cmp};
ghost use Rattle.std.specs.Map.{keys_of};

use go_decl_core::path_core::ImportPath;
use go_graph_core::Workspace;
use go_scope_core::text_core::{Rule, add};
use std::alloc::{AllocError, Global};
use std::collections::BTreeMap;

/// A file of an archive: the path of its package, its name, and its text.
#[derive(Clone, Copy)]
struct Member<'a> {
    path: &'a str,
    name: &'a str,
    text: &'a str,
}

/// The path of the package and the name of the file that a line begins: in `-- ex.com/a/x.go --` what stands
/// before the last `/`, and what stands behind it.
pub fn member_place(line: &str) -> Option<(&str, &str)> {
    let place = line.strip_prefix("-- ")?.trim_end().strip_suffix(" --")?;
    place.trim().rsplit_once('/')
}

/// Gives the last file its text.
fn set_text<'a>(members: &mut [Member<'a>], text: &'a str) {
    if let Some(last) = members.last_mut() {
        last.text = text;
    }
}

/// The files that an archive writes, those of a package in the archive's order.
fn members<'a>(alloc: Global, text: &'a str) -> Result<Vec<Member<'a>>, AllocError> {
    let mut members = Vec::new(alloc);
    let (mut start, mut at) = (0usize, 0usize);
    for line in text.split_inclusive('\n') {
        let end = at.saturating_add(line.len());
        if let Some((path, name)) = member_place(line) {
            set_text(&mut members, text.get(start..at).unwrap_or(""));
            let text = "";
            add(&mut members, Member { path, name, text })?;
            start = end;
        }
        at = end;
    }
    set_text(&mut members, text.get(start..at).unwrap_or(""));
    members.sort_by_key(|member| member.path)?;
    Ok(members)
}

/// Adds a file, in the place of one of its name.
fn add_file(
    files: &mut BTreeMap<String, String>,
    alloc: Global,
    member: Member<'_>,
) -> Result<(), AllocError> {
    let name = String::from_str(alloc, member.name)?;
    let text = String::from_str(alloc, member.text)?;
    match files.insert(name, text) {
        Ok(_) => Ok(()),
        Err(_) => Err(AllocError),
    }
}

/// The files of the package of a path, which stand in front, in order of name.
fn files_of(
    alloc: Global,
    path: &str,
    members: &[Member<'_>],
) -> Result<Vec<(String, String)>, AllocError>
    ensures { IfOk result (λ files. IsStrictlySortedBy string_cmp (keys_of files.items)) }
{
    let mut files = BTreeMap::new(alloc);
    for member in members {
        if member.path != path {
            break;
        }
        add_file(&mut files, alloc, *member)?;
    }
    files.into_iter().collect(alloc)
}

/// Puts the files of the package of a path, which stand in front, in the place of those of that path.
fn put(
    workspace: &mut Workspace,
    alloc: Global,
    path: &str,
    members: &[Member<'_>],
) -> Result<(), Rule> {
    let Ok(files) = files_of(alloc, path, members) else {
        return Err(Rule::M0);
    };
    let path = ImportPath::read(alloc, path)?;
    workspace.put(alloc, &path, files)
}

/// Puts the files that an archive writes into a workspace, package by package.
///
/// # Errors
///
/// `Rule::I1` where the path of a package is malformed, and `Rule::M0` for want of memory. Packages of lower paths are put then.
pub fn put_archive(workspace: &mut Workspace, alloc: Global, text: &str) -> Result<(), Rule> {
    let Ok(members) = members(alloc, text) else {
        return Err(Rule::M0);
    };
    let mut rest = members.as_slice();
    let mut put_last = None;
    for member in &members {
        if put_last != Some(member.path) {
            put(workspace, alloc, member.path, rest)?;
            put_last = Some(member.path);
        }
        rest = rest.get(1..).unwrap_or(&[]);
    }
    Ok(())
}
