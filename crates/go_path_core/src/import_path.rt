//! Import paths, and which of them a package may import.
ghost use Rattle.std.specs.Prelude.{◌≡◌, ◌↔◌, ◌⊎◌, IfOk, IfErr, IsTrue, string_bytes};
ghost use Rattle.go_path_core.specs.Path.{elements, IsPath, MayImport};

use crate::path_text::{is_importable, is_path};
use go_text_core::Rule;
use std::alloc::{AllocError, Global};
use std::marker::Model;
use std::sync::Arc;

/// A well-formed path where its text stands. Contracts see it as its bytes.
pub struct PathText<'a> {
    text: &'a str,
}

impl Drop for PathText<'_> {
    fn drop(self) {
        let PathText { text: _ } = self;
    }
}

impl<'a> Model for PathText<'a> {
    ghost use Rattle.std.specs.Prelude.{List, ℕ};
    ghost use Rattle.go_path_core.specs.Path.{IsPath};

    ghost Value = { List ℕ };

    ghost view = { λ p. p.text.now };

    ghost invariant = { λ p. IsPath p.text.now };
}

impl<'a> PathText<'a> {
    /// Reads the text between the quotes of an import, with no memory.
    ///
    /// # Errors
    ///
    /// `Rule::I1` exactly where the text is no path, and no other.
    pub fn read(text: &'a str) -> Result<PathText<'a>, Rule>
        ensures ok { IfOk result (λ path. (path ≡ text.now) × IsPath text.now) }
        ensures err { IfErr result (λ rule. (rule ≡ Rule.I1) × ¬ IsPath text.now) }
    {
        if !is_path(text) {
            return Err(Rule::I1);
        }
        Ok(PathText { text })
    }

    /// The path that a text is which was tested.
    pub(crate) fn from_tested(text: &'a str) -> PathText<'a>
        requires { IsPath text.now }
        ensures { result ≡ text.now }
    {
        PathText { text }
    }

    /// The path as it is written.
    pub fn as_str(&self) -> &'a str
        ensures text { result.now ≡ self.now }
        ensures path { IsPath self.now }
    {
        self.text
    }
}

/// A well-formed import path, shared by all that hold it. Contracts see it as its bytes.
pub struct ImportPath {
    text: Arc<String>,
}

impl Drop for ImportPath {
    fn drop(self) {
        let ImportPath { text: _ } = self;
    }
}

impl Model for ImportPath {
    ghost use Rattle.std.specs.Prelude.{List, ℕ, string_bytes};
    ghost use Rattle.std.specs.Arc.{arc_value};
    ghost use Rattle.go_path_core.specs.Path.{IsPath};

    ghost Value = { List ℕ };

    ghost view = { λ p. string_bytes (arc_value p.text) };

    ghost invariant = { λ p. IsPath (string_bytes (arc_value p.text)) };
}

impl ImportPath {
    /// Reads the text between the quotes of an import.
    ///
    /// # Errors
    ///
    /// `Rule::I1` exactly where the text is no path, and `Rule::M0` where it is one and memory is wanting.
    pub fn read(alloc: Global, text: &str) -> Result<ImportPath, Rule>
        ensures ok { IfOk result (λ path. (path ≡ text.now) × IsPath text.now) }
        ensures err { IfErr result (λ rule. ((rule ≡ Rule.M0) × IsPath text.now) ⊎ ((rule ≡ Rule.I1) × ¬ IsPath text.now)) }
    {
        let path = PathText::read(text)?;
        match ImportPath::new(alloc, &path) {
            Ok(path) => Ok(path),
            Err(_) => Err(Rule::M0),
        }
    }

    /// The import path that is written so.
    pub(crate) fn new(alloc: Global, path: &PathText<'_>) -> Result<ImportPath, AllocError>
        ensures { IfOk result (λ own. own ≡ path.now) }
    {
        Ok(ImportPath {
            text: Arc::new(alloc, String::from_str(alloc, path.text)?)?,
        })
    }

    /// The path as it is written.
    pub fn as_str(&self) -> &str
        ensures text { result.now ≡ self.now }
        ensures path { IsPath self.now }
    {
        self.text.as_str()
    }

    /// The path where its text stands.
    pub fn as_text(&self) -> PathText<'_>
        ensures { result ≡ self.now }
    {
        PathText {
            text: self.text.as_str(),
        }
    }

    /// The same path once more. It takes no memory.
    ///
    /// # Errors
    ///
    /// `AllocError` where the path has too many owners.
    pub fn share(&self) -> Result<ImportPath, AllocError>
        ensures { IfOk result (λ path. path ≡ self.now) }
    {
        Ok(ImportPath {
            text: Arc::try_clone(&self.text)?,
        })
    }

    /// Whether two paths are written alike.
    pub fn is_same(&self, other: &ImportPath) -> bool
        ensures { IsTrue result ↔ (self.now ≡ other.now) }
    {
        self.text.as_bytes() == other.text.as_bytes()
    }
}

/// Whether the package `from` may import the package `path`.
///
/// A package below a directory `internal` is for those alone that lie below the parent of that directory.
/// So the elements before each element `internal` of `path` have to be the first elements of `from`.
/// See `go help gopath`, "Internal Directories".
pub fn may_import(from: &ImportPath, path: &ImportPath) -> bool
    ensures { IsTrue result ↔ MayImport (elements from.now) (elements path.now) }
{
    may_import_text(from, &path.as_text())
}

/// Whether the package `from` may import the package that is written so.
///
/// The rule is that of [`may_import`].
pub fn may_import_text(from: &ImportPath, path: &PathText<'_>) -> bool
    ensures { IsTrue result ↔ MayImport (elements from.now) (elements path.now) }
{
    is_importable(from.text.as_bytes(), path.text.as_bytes())
}
