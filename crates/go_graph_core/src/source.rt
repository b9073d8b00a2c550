//! Source files.
ghost use Rattle.std.specs.Prelude.{◌≡◌, ◌↔◌, IfOk, IsTrue, string_bytes, option_map, Ok};
ghost use Rattle.go_tree_nodes.specs.Shapes.{file_of};
ghost use Rattle.go_graph_core.specs.Sources.{source, IsRead, IsPlacedContent, content_shown, clause_of};
ghost use Rattle.go_graph_core.specs.mirrors.Sameness.{HaveSameFault};
ghost use Rattle.go_tree_nodes.specs.Spelling.{IsPlaced};

use go_parse_core::{ParseError, SynFault, tree_of};
use go_tree_nodes::{File, Ident};
use std::alloc::{AllocError, Global};
use std::marker::Model;
use std::sync::Arc;

/// What a file holds.
#[derive(Drop)]
struct FileContent {
    name: String,
    text: String,
    tree: Result<File, SynFault>,
}

/// A file of a package: its name, its text, and a tree or why there is none. It is a handle: what is shared has one content.
/// Contracts see it as these three.
pub struct SourceFile {
    content: Arc<FileContent>,
}

impl Drop for SourceFile {
    fn drop(self) {
        let SourceFile { content: _ } = self;
    }
}

impl Model for SourceFile {
    ghost use Rattle.std.specs.Prelude.{string_bytes};
    ghost use Rattle.std.specs.Arc.{arc_value};
    ghost use Rattle.go_graph_core.specs.Sources.{SourceModel, coded_source, source, content_of, IsPlacedContent};

    ghost Value = { SourceModel };

    ghost coded = { coded_source };

    ghost view = { λ f. source (string_bytes (arc_value f.content).name) (string_bytes (arc_value f.content).text) (content_of (arc_value f.content).tree) };

    ghost invariant = { λ f. IsPlacedContent (content_of (arc_value f.content).tree) };
}

/// Whether of two files both have a tree, or both have none for one fault.
fn have_same_fault(one: Result<&File, SynFault>, other: Result<&File, SynFault>) -> bool
    ensures { IsTrue result ↔ HaveSameFault (content_shown one.entry) (content_shown other.entry) }
{
    match (one, other) {
        (Ok(_), Ok(_)) => true,
        (Err(one), Err(other)) => one == other,
        (Ok(_), Err(_)) | (Err(_), Ok(_)) => false,
    }
}

impl SourceFile {
    /// Parses a text, and keeps it with its name.
    ///
    /// # Errors
    ///
    /// `AllocError` for want of memory. A text without a tree is no error here: see [`SourceFile::tree`].
    pub fn read(alloc: Global, name: String, text: String) -> Result<SourceFile, AllocError>
        ensures name { IfOk result (λ f. f.name ≡ string_bytes name) }
        ensures text { IfOk result (λ f. f.text ≡ string_bytes text) }
        ensures content { IfOk result IsRead }
    {
        let tree = match tree_of(alloc, text.as_str()) {
            Ok(tree) => Ok(tree),
            Err(ParseError::Memory) => return Err(AllocError),
            Err(ParseError::Fault(fault)) => Err(fault),
        };
        let mut text = text;
        text.shrink_to_fit();
        let content = Arc::new(alloc, FileContent { name, text, tree })?;
        Ok(SourceFile { content })
    }

    /// A file with a tree that need not be that of its text, so that a tree in which a name was replaced is judged by the same
    /// calls. The tree's tokens follow one another.
    ///
    /// # Errors
    ///
    /// `AllocError` for want of memory.
    pub fn with_tree(
        alloc: Global,
        name: String,
        text: String,
        tree: File,
    ) -> Result<SourceFile, AllocError>
        requires { IsPlaced (file_of tree) }
        ensures { IfOk result (λ f. f ≡ source (string_bytes name) (string_bytes text) (Ok (file_of tree))) }
    {
        let tree = Ok(tree);
        let content = Arc::new(alloc, FileContent { name, text, tree })?;
        Ok(SourceFile { content })
    }

    /// The same file, once more. It takes no memory.
    ///
    /// # Errors
    ///
    /// `AllocError` where the file has too many owners.
    pub fn share(&self) -> Result<SourceFile, AllocError>
        ensures { IfOk result (λ f. f ≡ self.now) }
    {
        Ok(SourceFile {
            content: Arc::try_clone(&self.content)?,
        })
    }

    /// The file's name.
    pub fn name(&self) -> &str
        ensures { result.now ≡ self.now.name }
    {
        self.content.name.as_str()
    }

    /// The file's text.
    pub fn text(&self) -> &str
        ensures { result.now ≡ self.now.text }
    {
        self.content.text.as_str()
    }

    /// The file's tree, or why it has none. The tokens of the tree follow one another.
    ///
    /// # Errors
    ///
    /// The text's fault, as [`tree_of`] answers it.
    pub fn tree(&self) -> Result<&File, SynFault>
        ensures value { content_shown result ≡ self.now.content }
        ensures placed { IsPlacedContent self.now.content }
    {
        match &self.content.tree {
            Ok(tree) => Ok(tree),
            Err(fault) => Err(*fault),
        }
    }

    /// The name in the file's package clause, if the file has a tree.
    pub fn clause(&self) -> Option<&Ident>
        ensures { option_map (λ id. id.now) result ≡ clause_of self.now }
    {
        match &self.content.tree {
            Ok(tree) => Some(&tree.name),
            Err(_) => None,
        }
    }

    /// Whether two files, each with the content that its text has, are the same. A text has one tree at most, so names, texts and faults
    /// are compared.
    pub fn is_same(&self, other: &SourceFile) -> bool
        requires own { IsRead self.now }
        requires other { IsRead other.now }
        ensures { IsTrue result ↔ (self.now ≡ other.now) }
    {
        if self.name() != other.name() {
            return false;
        }
        if self.text() != other.text() {
            return false;
        }
        have_same_fault(self.tree(), other.tree())
    }
}
