//! What the doc comments of a file are read from.
ghost use Rattle.std.specs.Prelude.{◌≡◌, ◌<◌, List, All, IfOk, length, map, nat_lt};
ghost use Rattle.go_block_core.specs.decl_core.Shown.{decl_shown};
ghost use Rattle.go_block_core.specs.graph_core.Sources.{SourceModel};
ghost use Rattle.go_scan_core.specs.Texts.{CommentHasItsText};
ghost use Rattle.go_scan_core.specs.Tokens.{CommentsInOrder};
ghost use Rattle.go_doc_core.specs.symbol.Symbols.{comments_found, symbol_shown};
ghost use Rattle.go_doc_core.specs.symbol.mirrors.Docs.{AreDocsOf, AreRising, HasNumber, HasNumberAt, IsShownIn, docs_shown};

use crate::doc_comment;
use crate::symbol::symbols::Symbol;
use go_block_core::decl_core::{Anchor, DeclRef, Outline, TopDecl, anchors, outline};
use go_block_core::graph_core::Package;
use go_scan_core::comments;
use go_tree_nodes::token_core::{Comment, ScanError};
use std::alloc::{AllocError, Global};

/// What the doc comments of a file are read from: its text, its declarations outside functions, where their comments are, and all its comments.
pub(crate) struct FileDocs<'p> {
    file: usize,
    text: &'p str,
    outline: Outline<'p>,
    anchors: Vec<Anchor>,
    comments: Vec<Comment>,
}

impl Drop for FileDocs<'_> {
    fn drop(self) {
        let FileDocs {
            file: _,
            text: _,
            outline: _,
            anchors: _,
            comments: _,
        } = self;
    }
}

// The comments of a text; none where it has a fault.
fn comments_of(alloc: Global, text: &str) -> Result<Vec<Comment>, AllocError>
    ensures value { IfOk result (λ found. found.items ≡ comments_found text.now) }
    ensures order { IfOk result (λ found. CommentsInOrder 0 found.items (length text.now)) }
    ensures texts { IfOk result (λ found. All (CommentHasItsText text.now) found.items) }
{
    match comments(alloc, text) {
        Ok(found) => Ok(found),
        Err(ScanError::Fault(_)) => Ok(Vec::new(alloc)),
        Err(ScanError::Memory) => Err(AllocError),
    }
}

/// What the doc comments of the file of a number in a package are read from.
///
/// # Errors
///
/// `AllocError` where memory is wanting.
pub(crate) fn docs_of<'p>(
    alloc: Global,
    package: &'p Package,
    file: usize,
) -> Result<FileDocs<'p>, AllocError>
    requires { file < length «package».now.1 }
    ensures docs { IfOk result (λ docs. AreDocsOf «package».now.1 (docs_shown docs)) }
    ensures file { IfOk result (λ docs. docs.file ≡ file) }
{
    let files = package.files();
    let tree = package.tree(file);
    let text = files[file].text();
    Ok(FileDocs {
        file,
        text,
        outline: outline(alloc, tree)?,
        anchors: anchors(alloc, tree)?,
        comments: comments_of(alloc, text)?,
    })
}

/// The same of another file, where these are not of it.
///
/// # Errors
///
/// `AllocError` where memory is wanting.
pub(crate) fn docs_for<'p>(
    alloc: Global,
    package: &'p Package,
    docs: FileDocs<'p>,
    file: usize,
) -> Result<FileDocs<'p>, AllocError>
    requires within { file < length «package».now.1 }
    requires docs { AreDocsOf «package».now.1 (docs_shown docs) }
    ensures docs { IfOk result (λ docs. AreDocsOf «package».now.1 (docs_shown docs)) }
    ensures file { IfOk result (λ docs. docs.file ≡ file) }
{
    if docs.file == file {
        return Ok(docs);
    }
    docs_of(alloc, package, file)
}

// Where a declaration stands among those in order of number, one of which has the number.
fn place_of(decls: &[TopDecl<'_>], number: usize) -> usize
    requires rising { AreRising (map decl_shown decls.now) }
    requires some { HasNumber (map decl_shown decls.now) number }
    ensures bound { result < length decls.now }
    ensures there { HasNumberAt (map decl_shown decls.now) result number }
{
    decls.partition_point(
        |decl: &TopDecl<'_>| -> bool
            ensures { result ≡ nat_lt decl.now.number number }
        { decl.number < number },
    )
}

impl<'p> FileDocs<'p> {
    /// A declaration of the file, with its doc comment.
    pub(crate) fn symbol(&self, decl: DeclRef) -> Symbol<'p>
        requires docs { (files : List SourceModel) × AreDocsOf files (docs_shown self.now) }
        requires some { HasNumber (docs_shown self.now).decls decl.number }
        ensures { IsShownIn (docs_shown self.now) decl (symbol_shown result) }
    {
        let place = place_of(&self.outline.decls, decl.number);
        let anchor = self.anchors[place];
        Symbol {
            name: self.outline.decls[place].ident.name.as_str(),
            kind: decl.kind,
            doc: doc_comment(self.text, &self.comments, anchor.at, anchor.behind),
        }
    }
}
