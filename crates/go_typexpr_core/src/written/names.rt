//! What is known where a type is written.
ghost use Rattle.std.specs.Prelude.{◌≡◌, IfOk};
ghost use Rattle.go_term_core.specs.Shapes.{shape};

use go_path_core::ImportPath;
use go_term_core::decl_core::{DeclKind, DeclRef, Places};
use go_term_core::{LocalPlace, MemberPlace, TypeTerm};
use go_tree_nodes::TypeName;
use std::alloc::{AllocError, Global};

/// What the names of types mean at a place.
pub trait TypeNames {
    ghost use Rattle.go_tree_nodes.specs.declared.types.TypeName.{TypeName as TheName};
    ghost use Rattle.go_term_core.specs.Terms.{Term};
    ghost use Rattle.go_term_core.specs.Shapes.{shape};
    ghost use Rattle.std.specs.Prelude.{IfOk, ◌≡◌};

    ghost meaning: { Self → TheName → Term };

    /// The type that a name denotes: no type where it denotes none.
    ///
    /// # Errors
    ///
    /// `AllocError` where memory is wanting.
    fn named(&self, alloc: Global, name: &TypeName) -> Result<TypeTerm, AllocError>
        ensures { IfOk result (λ t. shape t ≡ meaning self.now name.now) };
}

/// The file in which a type is written.
#[derive(Clone, Copy)]
pub struct WrittenIn<'a> {
    /// The path of its package.
    pub path: &'a ImportPath,
    /// Its number among the files of the package in order of name, from 0.
    pub file: usize,
    /// The identifiers that it declares outside function bodies.
    pub places: &'a Places,
}

impl<'a> WrittenIn<'a> {
    ghost use Rattle.go_typexpr_core.specs.written.Written.{member_place, in_file};

    /// Where an identifier is declared that stands at an offset in bytes from the file's start.
    pub fn place(&self, kind: DeclKind, offset: usize) -> MemberPlace
        ensures { result ≡ member_place (in_file self.now) kind offset }
    {
        // What this call promises is needed: the places rise, so that an offset has one number.
        let _ = self.places.places();
        match self.places.number(offset) {
            Some(number) => MemberPlace::Declared(DeclRef {
                file: self.file,
                number,
                kind,
            }),
            None => MemberPlace::Local(LocalPlace {
                file: self.file,
                offset,
            }),
        }
    }
}
