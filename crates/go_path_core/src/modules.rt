//! Modules, and the paths that lie in them.
ghost use Rattle.std.specs.Prelude.{◌≡◌, ◌↔◌, ◌⊎◌, IfOk, IfErr, IsTrue};
ghost use Rattle.go_path_core.specs.Path.{elements, overlap, IsPath, IsPrefix};

use crate::import_path::{ImportPath, PathText};
use crate::path_text::{is_path, is_within};
use go_text_core::Rule;
use std::alloc::{AllocError, Global};
use std::marker::Model;
use std::sync::Arc;

/// A well-formed module: the path under which its packages lie, shared by all that hold it. Contracts see it as its bytes.
pub struct Module {
    text: Arc<String>,
}

impl Drop for Module {
    fn drop(self) {
        let Module { text: _ } = self;
    }
}

impl Model for Module {
    ghost use Rattle.std.specs.Prelude.{List, ℕ, string_bytes};
    ghost use Rattle.std.specs.Arc.{arc_value};
    ghost use Rattle.go_path_core.specs.Path.{IsPath};

    ghost Value = { List ℕ };

    ghost view = { λ p. string_bytes (arc_value p.text) };

    ghost invariant = { λ p. IsPath (string_bytes (arc_value p.text)) };
}

impl Module {
    /// Reads the path of a module.
    ///
    /// # Errors
    ///
    /// `Rule::O2` exactly where the text is no path, and `Rule::M0` where it is one and memory is wanting.
    pub fn read(alloc: Global, text: &str) -> Result<Module, Rule>
        ensures ok { IfOk result (λ own. (own ≡ text.now) × IsPath text.now) }
        ensures err { IfErr result (λ rule. ((rule ≡ Rule.M0) × IsPath text.now) ⊎ ((rule ≡ Rule.O2) × ¬ IsPath text.now)) }
    {
        if !is_path(text) {
            return Err(Rule::O2);
        }
        match Module::new(alloc, text) {
            Ok(own) => Ok(own),
            Err(_) => Err(Rule::M0),
        }
    }

    // The module that is written so.
    fn new(alloc: Global, text: &str) -> Result<Module, AllocError>
        requires { IsPath text.now }
        ensures { IfOk result (λ own. own ≡ text.now) }
    {
        Ok(Module {
            text: Arc::new(alloc, String::from_str(alloc, text)?)?,
        })
    }

    /// The module's path as it is written.
    pub fn as_str(&self) -> &str
        ensures text { result.now ≡ self.now }
        ensures path { IsPath self.now }
    {
        self.text.as_str()
    }

    /// The import path of the package that lies in the module's own directory.
    ///
    /// # Errors
    ///
    /// `AllocError` for want of memory.
    pub fn path(&self, alloc: Global) -> Result<ImportPath, AllocError>
        ensures { IfOk result (λ path. path ≡ self.now) }
    {
        ImportPath::new(alloc, &PathText::from_tested(self.as_str()))
    }

    /// The same module once more. It takes no memory.
    ///
    /// # Errors
    ///
    /// `AllocError` where the module has too many owners.
    pub fn share(&self) -> Result<Module, AllocError>
        ensures { IfOk result (λ own. own ≡ self.now) }
    {
        Ok(Module {
            text: Arc::try_clone(&self.text)?,
        })
    }

    /// Whether two modules are written alike.
    pub fn is_same(&self, other: &Module) -> bool
        ensures { IsTrue result ↔ (self.now ≡ other.now) }
    {
        self.text.as_bytes() == other.text.as_bytes()
    }

    /// Whether a path is the module's own or lies below it, by elements: `ex.com/ab` is not below `ex.com/a`.
    pub fn contains(&self, path: &ImportPath) -> bool
        ensures { IsTrue result ↔ IsPrefix (elements self.now) (elements path.now) }
    {
        is_within(path.as_str().as_bytes(), self.text.as_bytes())
    }
}

/// Whether one of two modules is the other or lies below it, by elements.
pub fn overlaps(one: &Module, other: &Module) -> bool
    ensures exact { IsTrue result ↔ (IsPrefix (elements one.now) (elements other.now) ⊎ IsPrefix (elements other.now) (elements one.now)) }
    ensures value { result ≡ overlap one.now other.now }
{
    let one = one.as_str().as_bytes();
    let other = other.as_str().as_bytes();
    is_within(one, other) || is_within(other, one)
}
