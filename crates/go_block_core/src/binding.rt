//! The names that imports bind in the block of their file.
ghost use Rattle.std.specs.Prelude.{◌≡◌, ◌++◌, ◌∷◌, [], OnOk, IfOk, map};
ghost use Rattle.go_block_core.specs.Exports.{name_and_decl};
ghost use Rattle.go_block_core.specs.Bindings.{bound_as, import_target, bound_if, named_bound, exported_bound, dot_bound, import_bound, file_bound};
ghost use Rattle.go_block_core.specs.mirrors.Shown.{bound_shown, text_shown};

use crate::exports::NamedDecl;
use crate::imports::{ImportForm, Imported, NamedImport};
use go_decl_core::DeclKey;
use go_decl_core::path_core::ImportPath;
use go_parse_reader::types::add;
use go_tree_nodes::text_core::{Name, Rule};
use std::alloc::{AllocError, Global};

/// What a name of a file block denotes.
pub enum Target {
    /// The package of this path.
    Package(ImportPath),
    /// An import that this rule refuses.
    Refused(Rule),
    /// This declaration of an imported package.
    Exported(DeclKey),
}

impl Drop for Target {
    fn drop(self) {
        match self {
            Target::Package(_) => {}
            Target::Refused(_) => {}
            Target::Exported(_) => {}
        }
    }
}

/// A binding of a file block.
pub struct Binding {
    /// The offset in bytes of the string of the import that makes it.
    pub at: usize,
    pub target: Target,
}

impl Drop for Binding {
    fn drop(self) {
        let Binding { at: _, target: _ } = self;
    }
}

/// A name with its binding.
#[derive(Drop)]
pub(crate) struct BoundName<'a> {
    pub(crate) name: &'a str,
    pub(crate) binding: Binding,
}

/// Adds a binding.
fn add_binding<'a>(
    bound: &mut Vec<BoundName<'a>>,
    name: &'a str,
    at: usize,
    target: Target,
) -> Result<(), AllocError>
    ensures { OnOk result (map bound_shown bound.new.items ≡ map bound_shown bound.old.items ++ bound_as at name.now target ∷ []) }
{
    let binding = Binding { at, target };
    add(bound, BoundName { name, binding })
}

/// What the name of an import denotes.
fn target_of(imported: &Imported) -> Result<Target, AllocError>
    ensures { IfOk result (λ target. target ≡ import_target imported.now) }
{
    match imported {
        Imported::Package(exports) => Ok(Target::Package(exports.path().share()?)),
        Imported::Refused(rule) => Ok(Target::Refused(*rule)),
    }
}

/// Adds what an import without a name binds: its own name, if it has one.
fn add_own<'a>(
    bound: &mut Vec<BoundName<'a>>,
    name: Option<&'a Name>,
    import: &NamedImport,
) -> Result<(), AllocError>
    ensures { OnOk result (map bound_shown bound.new.items ≡ map bound_shown bound.old.items ++ bound_if import.now.at (text_shown name.entry) (import_target import.now.imported)) }
{
    match name {
        Some(name) => {
            let target = target_of(&import.imported)?;
            add_binding(bound, name.as_str(), import.at, target)
        }
        None => Ok(()),
    }
}

/// Adds what an import under another name binds.
fn add_named<'a>(
    bound: &mut Vec<BoundName<'a>>,
    name: &'a Name,
    import: &NamedImport,
) -> Result<(), AllocError>
    ensures { OnOk result (map bound_shown bound.new.items ≡ map bound_shown bound.old.items ++ named_bound import.now.at name.now (import_target import.now.imported)) }
{
    let name = name.as_str();
    if name == "_" {
        return Ok(());
    }
    let target = target_of(&import.imported)?;
    add_binding(bound, name, import.at, target)
}

/// Adds an exported name of the package of a path.
fn add_exported<'a>(
    bound: &mut Vec<BoundName<'a>>,
    at: usize,
    path: &ImportPath,
    named: &'a NamedDecl,
) -> Result<(), AllocError>
    ensures { OnOk result (map bound_shown bound.new.items ≡ map bound_shown bound.old.items ++ exported_bound at path.now (name_and_decl named.now) ∷ []) }
{
    let key = DeclKey {
        path: path.share()?,
        decl: named.decl,
    };
    add_binding(bound, named.name.as_str(), at, Target::Exported(key))
}

/// Adds what an import with a dot binds.
fn add_dot<'a>(bound: &mut Vec<BoundName<'a>>, import: &'a NamedImport) -> Result<(), AllocError>
    ensures { OnOk result (map bound_shown bound.new.items ≡ map bound_shown bound.old.items ++ dot_bound import.now.at import.now.imported) }
{
    if let Imported::Package(exports) = &import.imported {
        for named in exports.names() {
            add_exported(bound, import.at, exports.path(), named)?;
        }
    }
    Ok(())
}

/// Adds what an import binds.
fn add_import<'a>(bound: &mut Vec<BoundName<'a>>, import: &'a NamedImport) -> Result<(), AllocError>
    ensures { OnOk result (map bound_shown bound.new.items ≡ map bound_shown bound.old.items ++ import_bound import.now) }
{
    match &import.form {
        ImportForm::Own(name) => add_own(bound, name.as_ref(), import),
        ImportForm::Named(name) => add_named(bound, name, import),
        ImportForm::Dot => add_dot(bound, import),
    }
}

/// What the imports of a file bind, in order of their places, those that do not hold among them.
pub(crate) fn bindings<'a>(
    alloc: Global,
    imports: &'a Vec<NamedImport>,
) -> Result<Vec<BoundName<'a>>, AllocError>
    ensures { IfOk result (λ bound. map bound_shown bound.items ≡ file_bound imports.now.items) }
{
    let mut bound = Vec::new(alloc);
    for import in imports {
        add_import(&mut bound, import)?;
    }
    Ok(bound)
}
