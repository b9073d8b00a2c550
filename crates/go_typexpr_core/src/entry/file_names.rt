//! What the names of types mean at the top of a file.
ghost use Rattle.std.specs.Prelude.{◌≡◌, IfOk, option_copied, option_map};
ghost use Rattle.go_scope_core.specs.block_core.Blocks.{file_binding};
ghost use Rattle.go_scope_core.specs.block_core.Tables.{in_block};
ghost use Rattle.go_term_core.specs.Shapes.{shape};
ghost use Rattle.go_universe_core.specs.Universe.{found};
ghost use Rattle.go_typexpr_core.specs.entry.Meanings.{named_meaning, outside_meaning, plain_meaning, qualified_meaning, shown_type, type_in_binding, type_in_target, type_of_key, type_of_target, type_of_universe, through};
ghost use Rattle.go_typexpr_core.specs.entry.mirrors.Targeted.{named_target};
ghost use Rattle.go_scope_core.specs.block_core.Bindings.{key_of};

use crate::written::TypeNames;
use go_path_core::ImportPath;
use go_scope_core::block_core::{Binding, Blocks, DeclKey, DeclKind, DeclRef, Target};
use go_term_core::{Basic, TypeTerm};
use go_tree_nodes::TypeName;
use go_universe_core::{Predeclared, find_predeclared};
use std::alloc::{AllocError, Global};

/// What names of types lead to in a package: what other packages show, and what declarations of types mean.
pub trait ImportedNames {
    ghost use Rattle.std.specs.Prelude.{◌≡◌, IfOk};
    ghost use Rattle.go_term_core.specs.Shapes.{shape};
    ghost use Rattle.go_typexpr_core.specs.entry.Meanings.{Shows};

    ghost shows: { Self → Shows };

    /// The declaration of an exported name in the package block of the package of a path, or none where that package shows no such name. The
    /// Go specification, "Qualified identifiers".
    fn shown(&self, path: &ImportPath, name: &str) -> Option<DeclRef>
        ensures { result ≡ (shows self.now).shown path.now name.now };

    /// What the declaration of a type means: the target of an alias, and what is no alias itself. The Go specification, "Alias declarations".
    ///
    /// # Errors
    ///
    /// `AllocError` where memory is wanting.
    fn target(&self, alloc: Global, key: &DeclKey) -> Result<TypeTerm, AllocError>
        ensures { IfOk result (λ t. shape t ≡ (shows self.now).target key.now) };
}

/// The names at the top of a file of a package, outside functions: those of the universe, of the package's block and of the file's block, and
/// what the packages show that the file imports. A name of the package block is never one of the file's block; both hide the universe's. A
/// name that denotes an alias means the alias's target. The Go specification, "Declarations and scope", "Alias declarations".
#[derive(Drop)]
pub struct FileNames<'a, P: ImportedNames> {
    /// The path of the package.
    pub path: &'a ImportPath,
    /// The package's blocks.
    pub blocks: &'a Blocks,
    /// The file's number among those of the package in order of name, from 0.
    pub file: usize,
    /// What other packages show, and what declarations mean.
    pub imported: &'a P,
}

/// The same names where each means the declaration that it denotes: one that denotes an alias means the alias, and not its target.
#[derive(Drop)]
pub struct DeclaredNames<'a, P: ImportedNames> {
    /// The path of the package.
    pub path: &'a ImportPath,
    /// The package's blocks.
    pub blocks: &'a Blocks,
    /// The file's number among those of the package in order of name, from 0.
    pub file: usize,
    /// What other packages show.
    pub imported: &'a P,
}

// The type that a declaration declares.
fn type_of_key(key: DeclKey) -> TypeTerm
    ensures { shape result ≡ type_of_key key }
{
    match key.decl.kind {
        DeclKind::Type => TypeTerm::Defined(key),
        _ => TypeTerm::NoType,
    }
}

// The type that a declaration of the package of a path declares.
fn declared_type(path: &ImportPath, decl: DeclRef) -> Result<TypeTerm, AllocError>
    ensures { IfOk result (λ t. shape t ≡ type_of_key (key_of path.now decl)) }
{
    let path = path.share()?;
    Ok(type_of_key(DeclKey { path, decl }))
}

// The predeclared type of a name that is written in the package of a path, where it is one that may be used.
fn universe_type(alloc: Global, path: &ImportPath, name: &str) -> Result<TypeTerm, AllocError>
    ensures { IfOk result (λ t. shape t ≡ type_of_universe path.now (found name.now)) }
{
    match find_predeclared(name) {
        Some(Predeclared::Any) => Ok(TypeTerm::Interface(path.share()?, Vec::new(alloc))),
        Some(Predeclared::Bool) => Ok(TypeTerm::Basic(Basic::Bool)),
        Some(Predeclared::Error) => Ok(TypeTerm::Error),
        Some(Predeclared::Int) => Ok(TypeTerm::Basic(Basic::Int)),
        Some(Predeclared::String) => Ok(TypeTerm::Basic(Basic::Text)),
        _ => Ok(TypeTerm::NoType),
    }
}

// The type that what a binding of a file block denotes is.
fn target_type(target: &Target) -> Result<TypeTerm, AllocError>
    ensures { IfOk result (λ t. shape t ≡ type_of_target target.now) }
{
    match target {
        Target::Exported(key) => Ok(type_of_key(key.share()?)),
        Target::Package(_) => Ok(TypeTerm::NoType),
        Target::Refused(_) => Ok(TypeTerm::NoType),
    }
}

// The type that a package shows under a name.
fn shown_type<P: ImportedNames>(
    imported: &P,
    path: &ImportPath,
    name: &str,
) -> Result<TypeTerm, AllocError>
    ensures { IfOk result (λ t. shape t ≡ shown_type path.now ((P.shows imported.now).shown path.now name.now)) }
{
    match imported.shown(path, name) {
        Some(decl) => declared_type(path, decl),
        None => Ok(TypeTerm::NoType),
    }
}

// The type that a name behind a dot denotes, where the name before it denotes this.
fn type_in_target<P: ImportedNames>(
    imported: &P,
    target: &Target,
    name: &str,
) -> Result<TypeTerm, AllocError>
    ensures { IfOk result (λ t. shape t ≡ type_in_target (P.shows imported.now).shown name.now target.now) }
{
    match target {
        Target::Package(path) => shown_type(imported, path, name),
        Target::Refused(_) => Ok(TypeTerm::NoType),
        Target::Exported(_) => Ok(TypeTerm::NoType),
    }
}

// The same, where the name before the dot has this binding in the file block, or none.
fn type_in_binding<P: ImportedNames>(
    imported: &P,
    binding: Option<&Binding>,
    name: &str,
) -> Result<TypeTerm, AllocError>
    ensures { IfOk result (λ t. shape t ≡ type_in_binding (P.shows imported.now).shown name.now (option_copied binding.entry)) }
{
    match binding {
        Some(binding) => type_in_target(imported, &binding.target, name),
        None => Ok(TypeTerm::NoType),
    }
}

impl<'a, P: ImportedNames> DeclaredNames<'a, P> {
    // The type that a name denotes which the package block has not.
    fn outside(&self, alloc: Global, name: &str) -> Result<TypeTerm, AllocError>
        ensures { IfOk result (λ t. shape t ≡ outside_meaning self.now.path.now name.now (file_binding self.now.blocks.now self.now.file name.now)) }
    {
        match self.blocks.file(self.file, name) {
            Some(binding) => target_type(&binding.target),
            None => universe_type(alloc, self.path, name),
        }
    }

    // The type that a name alone denotes.
    fn plain(&self, alloc: Global, name: &str) -> Result<TypeTerm, AllocError>
        ensures { IfOk result (λ t. shape t ≡ plain_meaning self.now.path.now self.now.blocks.now self.now.file name.now (in_block self.now.blocks.now.names name.now)) }
    {
        match self.blocks.package(name) {
            Some(decl) => declared_type(self.path, decl),
            None => self.outside(alloc, name),
        }
    }

    // The type that a name behind another and a dot denotes.
    fn qualified(&self, qualifier: &str, name: &str) -> Result<TypeTerm, AllocError>
        ensures { IfOk result (λ t. shape t ≡ qualified_meaning (P.shows self.now.imported.now).shown self.now.blocks.now self.now.file qualifier.now name.now (in_block self.now.blocks.now.names qualifier.now)) }
    {
        match self.blocks.package(qualifier) {
            Some(_) => Ok(TypeTerm::NoType),
            None => type_in_binding(self.imported, self.blocks.file(self.file, qualifier), name),
        }
    }

    // The declaration of a type, or the predeclared type, that a name denotes.
    fn declared(&self, alloc: Global, name: &TypeName) -> Result<TypeTerm, AllocError>
        ensures { IfOk result (λ t. shape t ≡ named_meaning (P.shows self.now.imported.now).shown self.now.path.now self.now.blocks.now self.now.file name.now) }
    {
        match name {
            TypeName::Plain(ident) => self.plain(alloc, ident.name.as_str()),
            TypeName::Qualified(qualifier, _, ident) => {
                self.qualified(qualifier.name.as_str(), ident.name.as_str())
            }
        }
    }
}

// What a type means that is a name alone, or none where it is no name.
fn named_target<P: ImportedNames>(
    alloc: Global,
    imported: &P,
    term: &TypeTerm,
) -> Result<Option<TypeTerm>, AllocError>
    ensures { IfOk result (λ t. option_map shape t ≡ named_target (P.shows imported.now).target (shape term.now)) }
{
    match term {
        TypeTerm::Defined(key) => Ok(Some(imported.target(alloc, key)?)),
        TypeTerm::NoType => Ok(None),
        TypeTerm::Basic(_) => Ok(None),
        TypeTerm::Error => Ok(None),
        TypeTerm::Pointer(_) => Ok(None),
        TypeTerm::Struct(_, _, _) => Ok(None),
        TypeTerm::Interface(_, _) => Ok(None),
    }
}

// A type, with what it means in its place, where it is a name alone.
fn through_target<P: ImportedNames>(
    alloc: Global,
    imported: &P,
    term: TypeTerm,
) -> Result<TypeTerm, AllocError>
    ensures { IfOk result (λ t. shape t ≡ through (P.shows imported.now).target (shape term)) }
{
    match named_target(alloc, imported, &term)? {
        Some(target) => Ok(target),
        None => Ok(term),
    }
}

impl<'a, P: ImportedNames> TypeNames for DeclaredNames<'a, P> {
    ghost use Rattle.go_typexpr_core.specs.entry.Meanings.{file_meaning, raw};

    ghost meaning = { λ n. file_meaning (raw (P.shows n.imported.now)) n.path.now n.blocks.now n.file };

    fn named(&self, alloc: Global, name: &TypeName) -> Result<TypeTerm, AllocError> {
        self.declared(alloc, name)
    }
}

impl<'a, P: ImportedNames> TypeNames for FileNames<'a, P> {
    ghost use Rattle.go_typexpr_core.specs.entry.Meanings.{file_meaning};

    ghost meaning = { λ n. file_meaning (P.shows n.imported.now) n.path.now n.blocks.now n.file };

    fn named(&self, alloc: Global, name: &TypeName) -> Result<TypeTerm, AllocError> {
        let declared = DeclaredNames {
            path: self.path,
            blocks: self.blocks,
            file: self.file,
            imported: self.imported,
        };
        let term = declared.declared(alloc, name)?;
        through_target(alloc, self.imported, term)
    }
}
