//! What a package shows to those that import it, with faces.
ghost use Rattle.std.specs.Prelude.{◌≡◌, ◌↔◌, IfOk, IsTrue, map};
ghost use Rattle.std.specs.Option.{option_map};
ghost use Rattle.go_declared_core.specs.Faces.{face_shown};
ghost use Rattle.go_declared_core.specs.Held.{declared_shown};
ghost use Rattle.go_declared_core.specs.Packages.{decls_declared, face_among, face_by, names_seen, package_faces, shown_by};
ghost use Rattle.go_declared_core.specs.Written.{DeclsRise};

use crate::face::Face;
use crate::lending::lend;
use crate::seen::SeenNames;
use go_block_core::{Blocks, DeclRef};
use go_handle_core::{SignatureRef, TypeRef};
use go_term_core::decl_core::place_order;
use go_term_core::{Signature, TypeTerm};
use go_typexpr_core::path_core::ImportPath;
use std::alloc::{AllocError, Global};
use std::marker::Model;
use std::sync::Arc;

/// What a name is behind the name of a package and a dot.
///
/// The Go specification, "Qualified identifiers" and "Exported identifiers".
#[derive(Drop)]
pub enum ShownFace<'a> {
    /// The package does not declare it.
    Absent,
    /// The package declares it, and it is not exported.
    Hidden,
    /// A declaration, and what it is: none where nothing is known of it.
    Shown(DeclRef, Option<Face<TypeRef<'a>, SignatureRef<'a>>>),
}

/// A declaration of a package, and what it is.
pub struct DeclaredFace {
    pub decl: DeclRef,
    pub face: Face<TypeTerm, Signature>,
}

impl Drop for DeclaredFace {
    fn drop(self) {
        let DeclaredFace { decl: _, face: _ } = self;
    }
}

/// What is shared of what a package shows.
#[derive(Drop)]
struct FacesContent {
    path: ImportPath,
    /// The names of the package block, each with its declaration where it is exported.
    names: SeenNames,
    /// The faces, in order of file and number.
    faces: Vec<DeclaredFace>,
}

/// What a package shows to those that import it, shared by all that hold it: its path, the names of its package block, and the faces of
/// declarations. Contracts see these.
pub struct PackageFaces {
    content: Arc<FacesContent>,
}

impl Drop for PackageFaces {
    fn drop(self) {
        let PackageFaces { content: _ } = self;
    }
}

impl Model for PackageFaces {
    ghost use Rattle.std.specs.Prelude.{map};
    ghost use Rattle.std.specs.Arc.{arc_value};
    ghost use Rattle.go_declared_core.specs.Held.{declared_shown};
    ghost use Rattle.go_declared_core.specs.Packages.{PackageFacesModel, decls_declared, package_faces};
    ghost use Rattle.go_declared_core.specs.Written.{DeclsRise};
    ghost use Rattle.go_declared_core.specs.codes.FaceCodes.{coded_package_faces};

    ghost Value = { PackageFacesModel };

    ghost coded = { coded_package_faces };

    ghost view = { λ p. package_faces (arc_value p.content).path (arc_value p.content).names (map declared_shown (arc_value p.content).faces.items) };

    ghost invariant = { λ p. DeclsRise (decls_declared (map declared_shown (arc_value p.content).faces.items)) };
}

// The face of a declaration among faces in order.
fn face_among<'a>(faces: &'a [DeclaredFace], decl: DeclRef) -> Option<&'a Face<TypeTerm, Signature>>
    requires { DeclsRise (decls_declared (map declared_shown faces.now)) }
    ensures { option_map (λ f. face_shown f.now) result ≡ face_among (map declared_shown faces.now) decl }
{
    match faces.binary_search_by(|declared| place_order(declared.decl, decl)) {
        Ok(place) => Some(&faces[place].face),
        Err(_) => None,
    }
}

impl PackageFaces {
    /// What the package of a path shows: the names of its package block, where they are exported with their declarations, and these faces,
    /// which stand in order of file and number. The time that it takes is linear in the names of the block.
    ///
    /// # Errors
    ///
    /// `AllocError` where memory is wanting.
    pub fn new(
        alloc: Global,
        path: ImportPath,
        blocks: &Blocks,
        faces: Vec<DeclaredFace>,
    ) -> Result<PackageFaces, AllocError>
        requires { DeclsRise (decls_declared (map declared_shown faces.items)) }
        ensures { IfOk result (λ p. p ≡ package_faces path (names_seen blocks.now.names) (map declared_shown faces.items)) }
    {
        let names = SeenNames::of(alloc, blocks.names(alloc)?)?;
        let content = FacesContent { path, names, faces };
        Ok(PackageFaces {
            content: Arc::new(alloc, content)?,
        })
    }

    /// The same once more. It takes no memory.
    ///
    /// # Errors
    ///
    /// `AllocError` where it has too many owners.
    pub fn share(&self) -> Result<PackageFaces, AllocError>
        ensures { IfOk result (λ p. p ≡ self.now) }
    {
        Ok(PackageFaces {
            content: Arc::try_clone(&self.content)?,
        })
    }

    /// The path of the package.
    pub fn path(&self) -> &ImportPath
        ensures { result.now ≡ self.now.path }
    {
        &self.content.path
    }

    /// The faces, in order of file and number.
    pub fn faces(&self) -> &[DeclaredFace]
        ensures { map declared_shown result.now ≡ self.now.faces }
    {
        self.content.faces.as_slice()
    }

    /// Whether two packages have the same names in their package blocks, in the same order, as others see them. The time that it takes is
    /// linear in the names. It takes no memory.
    pub fn has_same_names(&self, other: &PackageFaces) -> bool
        ensures { IsTrue result ↔ (self.now.names ≡ other.now.names) }
    {
        self.content.names.is_same(&other.content.names)
    }

    /// What a declaration of the package is, by its file and its number: none where nothing is known of it. The time that it takes is
    /// logarithmic in the number of faces. It takes no memory.
    ///
    /// # Errors
    ///
    /// `AllocError` where the text of a constant has too many owners.
    pub fn face(
        &self,
        decl: DeclRef,
    ) -> Result<Option<Face<TypeRef<'_>, SignatureRef<'_>>>, AllocError>
        ensures { IfOk result (λ f. f ≡ face_by self.now decl) }
    {
        match face_among(self.content.faces.as_slice(), decl) {
            Some(face) => Ok(Some(lend(face)?)),
            None => Ok(None),
        }
    }

    /// What a name is behind the name of the package and a dot. It takes no memory.
    ///
    /// # Errors
    ///
    /// `AllocError` where the text of a constant has too many owners.
    pub fn shown(&self, name: &str) -> Result<ShownFace<'_>, AllocError>
        ensures { IfOk result (λ s. s ≡ shown_by self.now name.now) }
    {
        match self.content.names.find(name) {
            Some(Some(decl)) => Ok(ShownFace::Shown(decl, self.face(decl)?)),
            Some(None) => Ok(ShownFace::Hidden),
            None => Ok(ShownFace::Absent),
        }
    }
}
