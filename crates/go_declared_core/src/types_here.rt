//! What declarations of types mean in a package.
ghost use Rattle.std.specs.Prelude.{◌≡◌, IfOk};
ghost use Rattle.std.specs.Option.{option_map};
ghost use Rattle.go_term_core.specs.Shapes.{shape};
ghost use Rattle.std.specs.Str.{bytes_eq};
ghost use Rattle.go_typexpr_core.specs.aliases.Aliases.{alias_in, far_alone, target_by, target_or};
ghost use Rattle.go_typexpr_core.specs.entry.Meanings.{through};
ghost use Rattle.go_typexpr_core.specs.entry.mirrors.Targeted.{named_target};
ghost use Rattle.go_declared_core.specs.Here.{face_type, far_type};

use crate::face::Face;
use crate::holding::hold_type;
use crate::table::FaceTable;
use go_handle_core::{SignatureRef, TypeRef};
use go_term_core::TypeTerm;
use go_term_core::decl_core::{DeclKey, DeclRef};
use go_typexpr_core::aliases::Aliases;
use go_typexpr_core::entry::ImportedNames;
use go_typexpr_core::path_core::ImportPath;
use std::alloc::{AllocError, Global};

/// What names of types lead to in a package: an alias of the package means its target, and a declaration of another package means the type that
/// its face says, so that of an alias the target there. What is no alias means itself.
///
/// The Go specification, "Alias declarations".
#[derive(Drop)]
pub struct TypesHere<'a, P: ImportedNames> {
    /// The path of the package.
    pub path: &'a ImportPath,
    /// What other packages show.
    pub shown: &'a P,
    /// The faces of other packages.
    pub faces: &'a FaceTable,
    /// The package's aliases, with their targets.
    pub aliases: &'a Aliases,
}

// The type of a face: none of what is no type, and where there is no face.
fn face_type(
    alloc: Global,
    face: &Option<Face<TypeRef<'_>, SignatureRef<'_>>>,
) -> Result<TypeTerm, AllocError>
    ensures { IfOk result (λ t. shape t ≡ face_type face.now) }
{
    match face {
        Some(Face::Type(Some(lent))) => hold_type(alloc, lent),
        Some(Face::Type(None)) => Ok(TypeTerm::NoType),
        Some(Face::Func(_)) => Ok(TypeTerm::NoType),
        Some(Face::Value(_)) => Ok(TypeTerm::NoType),
        None => Ok(TypeTerm::NoType),
    }
}

// What a declaration of another package means there.
fn far_type(alloc: Global, faces: &FaceTable, key: &DeclKey) -> Result<TypeTerm, AllocError>
    ensures { IfOk result (λ t. shape t ≡ far_type faces.now key.now) }
{
    match faces.locate(&key.path) {
        Some(package) => {
            let face = package.face(key.decl)?;
            face_type(alloc, &face)
        }
        None => Ok(TypeTerm::NoType),
    }
}

impl<'a, P: ImportedNames> TypesHere<'a, P> {
    // Whether a declaration is one of the package.
    fn is_own(&self, key: &DeclKey) -> bool
        ensures { result ≡ bytes_eq self.now.path.now key.now.path }
    {
        self.path.is_same(&key.path)
    }

    // What a declaration means that is no alias of the package.
    fn far_alone(&self, alloc: Global, key: &DeclKey) -> Result<TypeTerm, AllocError>
        ensures { IfOk result (λ t. shape t ≡ far_alone self.now.path.now (far_type self.now.faces.now) key.now) }
    {
        if self.is_own(key) {
            Ok(TypeTerm::Defined(key.share()?))
        } else {
            far_type(alloc, self.faces, key)
        }
    }

    // What a type means that is a name alone, or none where it is no name.
    fn named_target(&self, alloc: Global, term: &TypeTerm) -> Result<Option<TypeTerm>, AllocError>
        ensures { IfOk result (λ t. option_map shape t ≡ named_target (far_alone self.now.path.now (far_type self.now.faces.now)) (shape term.now)) }
    {
        match term {
            TypeTerm::Defined(key) => Ok(Some(self.far_alone(alloc, key)?)),
            TypeTerm::NoType => Ok(None),
            TypeTerm::Basic(_) => Ok(None),
            TypeTerm::Error => Ok(None),
            TypeTerm::Pointer(_) => Ok(None),
            TypeTerm::Struct(_, _, _) => Ok(None),
            TypeTerm::Interface(_, _) => Ok(None),
        }
    }

    // A type at the end of a chain of aliases, with what it means in its place where it is a name alone.
    fn through_far(&self, alloc: Global, term: TypeTerm) -> Result<TypeTerm, AllocError>
        ensures { IfOk result (λ t. shape t ≡ through (far_alone self.now.path.now (far_type self.now.faces.now)) (shape term)) }
    {
        match self.named_target(alloc, &term)? {
            Some(target) => Ok(target),
            None => Ok(term),
        }
    }

    // What a declaration of the package means: an alias its target, and what is no alias itself.
    fn own_target(&self, alloc: Global, key: &DeclKey) -> Result<TypeTerm, AllocError>
        ensures { IfOk result (λ t. shape t ≡ target_or key.now (far_alone self.now.path.now (far_type self.now.faces.now)) (alias_in self.now.aliases.now key.now.decl)) }
    {
        match self.aliases.target(alloc, key.decl)? {
            Some(target) => self.through_far(alloc, target),
            None => Ok(TypeTerm::Defined(key.share()?)),
        }
    }

    // What a declaration means.
    fn meant(&self, alloc: Global, key: &DeclKey) -> Result<TypeTerm, AllocError>
        ensures { IfOk result (λ t. shape t ≡ target_by self.now.path.now self.now.aliases.now (far_type self.now.faces.now) key.now) }
    {
        if self.is_own(key) {
            self.own_target(alloc, key)
        } else {
            far_type(alloc, self.faces, key)
        }
    }
}

impl<'a, P: ImportedNames> ImportedNames for TypesHere<'a, P> {
    ghost use Rattle.go_typexpr_core.specs.aliases.Aliases.{target_by};
    ghost use Rattle.go_declared_core.specs.Here.{far_type};

    ghost shows = { λ t. record { shown = (P.shows t.shown.now).shown; target = target_by t.path.now t.aliases.now (far_type t.faces.now) } };

    fn shown(&self, path: &ImportPath, name: &str) -> Option<DeclRef> {
        self.shown.shown(path, name)
    }

    fn target(&self, alloc: Global, key: &DeclKey) -> Result<TypeTerm, AllocError> {
        self.meant(alloc, key)
    }
}
