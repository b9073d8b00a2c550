//! The doc comments of methods, from files that are read once.
ghost use Rattle.std.specs.Prelude.{◌≡◌, ◌<◌, List, All, IfOk, IfSome, MatchOption, OnOk, [], length, map, nat_lt};
ghost use Rattle.go_term_core.specs.decl_core.Shown.{decl_shown};
ghost use Rattle.go_graph_core.specs.Sources.{SourceModel};
ghost use Rattle.go_scan_core.specs.Texts.{CommentHasItsText};
ghost use Rattle.go_scan_core.specs.Tokens.{CommentsInOrder};
ghost use Rattle.go_doc_core.specs.symbol.Symbols.{comments_found};
ghost use Rattle.go_doc_core.specs.symbol.mirrors.Docs.{AreDocsOf, AreRising, HasNumber, HasNumberAt};
ghost use Rattle.go_package_core.specs.package_part.Inputs.{path_in};
ghost use Rattle.go_snap_core.specs.Snapshots.{IsPartAt, SnapshotModel};
ghost use Rattle.go_type_doc_core.specs.Comments.{IsMethodDoc, IsPartDoc};
ghost use Rattle.go_type_doc_core.specs.mirrors.Read.{AreRead, IsDocIn, read_shown};

use go_doc_core::doc_comment;
use go_graph_core::Package;
use go_package_core::package_part::Part;
use go_path_core::ImportPath;
use go_scan_core::comments;
use go_snap_core::Snapshot;
use go_term_core::decl_core::{Anchor, DeclRef, Outline, TopDecl, anchors, outline};
use go_tree_nodes::token_core::{Comment, ScanError};
use std::alloc::{AllocError, Global};
use std::collections::BTreeMap;

/// What the doc comments of a file are read from: its text, its declarations outside functions, where their comments are, and all its comments.
pub(crate) struct FileDocs<'p> {
    file: usize,
    text: &'p str,
    outline: Outline<'p>,
    anchors: Vec<Anchor>,
    comments: Vec<Comment>,
}

impl Drop for FileDocs<'_> {
    fn drop(self) {
        let FileDocs {
            file: _,
            text: _,
            outline: _,
            anchors: _,
            comments: _,
        } = self;
    }
}

/// Files that are read, by the paths of their packages and their numbers there.
#[derive(Drop)]
pub(crate) struct ReadFiles<'s> {
    files: BTreeMap<(&'s str, usize), FileDocs<'s>>,
}

// The comments of a text; none where it has a fault.
fn comments_of(alloc: Global, text: &str) -> Result<Vec<Comment>, AllocError>
    ensures value { IfOk result (λ found. found.items ≡ comments_found text.now) }
    ensures order { IfOk result (λ found. CommentsInOrder 0 found.items (length text.now)) }
    ensures texts { IfOk result (λ found. All (CommentHasItsText text.now) found.items) }
{
    match comments(alloc, text) {
        Ok(found) => Ok(found),
        Err(ScanError::Fault(_)) => Ok(Vec::new(alloc)),
        Err(ScanError::Memory) => Err(AllocError),
    }
}

// What the doc comments of the file of a number in a package are read from.
fn read_file<'p>(
    alloc: Global,
    package: &'p Package,
    file: usize,
) -> Result<FileDocs<'p>, AllocError>
    requires { file < length «package».now.1 }
    ensures docs { IfOk result (λ docs. AreDocsOf «package».now.1 (read_shown docs)) }
    ensures file { IfOk result (λ docs. docs.file ≡ file) }
{
    let files = package.files();
    let tree = package.tree(file);
    let text = files[file].text();
    Ok(FileDocs {
        file,
        text,
        outline: outline(alloc, tree)?,
        anchors: anchors(alloc, tree)?,
        comments: comments_of(alloc, text)?,
    })
}

// Where a declaration would stand among those in order of number.
fn place_of(decls: &[TopDecl<'_>], number: usize) -> Option<usize>
    requires { AreRising (map decl_shown decls.now) }
    ensures { MatchOption result (¬ HasNumber (map decl_shown decls.now) number) (λ place. (place < length decls.now) × HasNumberAt (map decl_shown decls.now) place number) }
{
    decls.binary_search_by_key(&number, |decl| decl.number).ok()
}

impl<'p> FileDocs<'p> {
    // The doc comment of the declaration of a number; empty where there is none.
    fn doc(&self, number: usize) -> &'p str
        requires { (files : List SourceModel) × AreDocsOf files (read_shown self.now) }
        ensures { IsDocIn (read_shown self.now) number result.now }
    {
        match place_of(&self.outline.decls, number) {
            Some(place) => {
                let anchor = self.anchors[place];
                doc_comment(self.text, &self.comments, anchor.at, anchor.behind)
            }
            None => "",
        }
    }
}

impl<'s> ReadFiles<'s> {
    /// No file.
    pub(crate) fn new(alloc: Global) -> ReadFiles<'s>
        ensures { result.files.entries ≡ [] }
    {
        ReadFiles {
            files: BTreeMap::new(alloc),
        }
    }
}

// Whether the package of a part has a file of a number.
fn has_file(part: &Part, file: usize) -> bool
    ensures { result ≡ nat_lt file (length part.now.input.source.1) }
{
    let package = part.input().package();
    let files = package.files();
    file < files.len()
}

// The doc comment of a declaration of the package of a part, whose file is read.
fn read_doc<'s>(
    alloc: Global,
    read: &mut ReadFiles<'s>,
    part: &'s Part,
    decl: DeclRef,
) -> Result<&'s str, AllocError>
    requires { decl.file < length part.now.input.source.1 }
    ensures read { OnOk result ((s : SnapshotModel) → IsPartAt s.sources s.parts (path_in part.now.input) part.now → AreRead s read.old.files.entries → AreRead s read.new.files.entries) }
    ensures doc { IfOk result (λ doc. IsPartDoc part.now decl doc.now) }
{
    let package = part.input().package();
    let docs = read_file(alloc, package, decl.file)?;
    let doc = docs.doc(decl.number);
    let path = part.path().as_str();
    read.files.insert((path, decl.file), docs)?;
    Ok(doc)
}

// The doc comment of a declaration of the package of a part; empty where there is none.
fn new_doc<'s>(
    alloc: Global,
    read: &mut ReadFiles<'s>,
    part: &'s Part,
    decl: DeclRef,
) -> Result<&'s str, AllocError>
    ensures read { OnOk result ((s : SnapshotModel) → IsPartAt s.sources s.parts (path_in part.now.input) part.now → AreRead s read.old.files.entries → AreRead s read.new.files.entries) }
    ensures doc { IfOk result (λ doc. IsPartDoc part.now decl doc.now) }
{
    if has_file(part, decl.file) {
        read_doc(alloc, read, part, decl)
    } else {
        Ok("")
    }
}

// The doc comment of a declaration of the package of a path, where its file was read.
fn found_doc<'s>(read: &ReadFiles<'s>, path: &'s str, decl: DeclRef) -> Option<&'s str>
    requires { (s : SnapshotModel) × AreRead s read.now.files.entries }
    ensures { (s : SnapshotModel) → AreRead s read.now.files.entries → IfSome result (λ doc. IsMethodDoc s (path.now, decl) doc.now) }
{
    match read.files.get(&(path, decl.file)) {
        Some(docs) => Some(docs.doc(decl.number)),
        None => None,
    }
}

/// The doc comment of a declaration of the package of a path; empty where there is none. Its file is read unless it was read before.
///
/// # Errors
///
/// `AllocError` where memory is wanting.
pub(crate) fn method_doc<'s>(
    alloc: Global,
    snapshot: &'s Snapshot,
    read: &mut ReadFiles<'s>,
    path: &ImportPath,
    decl: DeclRef,
) -> Result<&'s str, AllocError>
    requires { AreRead snapshot.now read.old.files.entries }
    ensures read { OnOk result (AreRead snapshot.now read.new.files.entries) }
    ensures doc { IfOk result (λ doc. IsMethodDoc snapshot.now (path.now, decl) doc.now) }
{
    // Its parts are those of its packages.
    let _sources = snapshot.sources();
    match snapshot.part(path) {
        Some(part) => match found_doc(read, part.path().as_str(), decl) {
            Some(doc) => Ok(doc),
            None => new_doc(alloc, read, part, decl),
        },
        None => Ok(""),
    }
}
