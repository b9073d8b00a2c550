//! What packages show, by their paths.
ghost use Rattle.std.specs.Prelude.{◌≡◌, [], OnOk, OnErr, option_copied};
ghost use Rattle.go_declared_core.specs.Packages.{package_in, with_faces};
ghost use Rattle.go_declared_core.specs.mirrors.Tables.{keyed, place_of};

use crate::shown::PackageFaces;
use go_collections_core::name_table::NameTable;
use go_typexpr_core::path_core::ImportPath;
use std::alloc::{AllocError, Global};
use std::marker::Model;

/// What packages show to those that import them, by their paths. It holds one handle for each package, and copies no name and no face.
/// Contracts see what the packages show, in the order in which their paths were added first.
pub struct FaceTable {
    packages: Vec<PackageFaces>,
    /// The place of the package of each path.
    places: NameTable<usize>,
}

impl Drop for FaceTable {
    fn drop(self) {
        let FaceTable {
            packages: _,
            places: _,
        } = self;
    }
}

impl Model for FaceTable {
    ghost use Rattle.std.specs.Prelude.{List};
    ghost use Rattle.std.specs.Coded.{coded_list};
    ghost use Rattle.go_declared_core.specs.Packages.{PackageFacesModel};
    ghost use Rattle.go_declared_core.specs.codes.FaceCodes.{coded_package_faces};
    ghost use Rattle.go_declared_core.specs.mirrors.Tables.{ArePlaced, keyed};

    ghost Value = { List PackageFacesModel };

    ghost coded = { coded_list coded_package_faces };

    ghost view = { λ t. t.packages.items };

    ghost invariant = { λ t. ArePlaced t.places.names (keyed t.packages.items) };
}

impl FaceTable {
    /// No packages.
    pub fn new(alloc: Global) -> FaceTable
        ensures { result ≡ [] }
    {
        FaceTable {
            packages: Vec::new(alloc),
            places: NameTable::new(alloc),
        }
    }

    // The place of the package of a path.
    fn place(&self, path: &ImportPath) -> Option<usize>
        ensures { result ≡ place_of (keyed self.now) path.now }
    {
        self.places.find(path.as_str()).copied()
    }

    /// Adds what a package shows, behind the other packages or in place of what was there under the package's path.
    ///
    /// # Errors
    ///
    /// `AllocError` where memory is wanting; the table is then as it was.
    pub fn add(&mut self, faces: PackageFaces) -> Result<(), AllocError>
        ensures ok { OnOk result (self.new ≡ with_faces self.old faces) }
        ensures err { OnErr result (self.new ≡ self.old) }
    {
        if let Some(place) = self.place(faces.path()) {
            self.packages[place] = faces;
            return Ok(());
        }
        let alloc = *self.packages.allocator();
        self.packages.reserve(1)?;
        self.places
            .add(alloc, faces.path().as_str(), self.packages.len())?;
        self.packages.push(faces)?;
        Ok(())
    }

    /// What the package of a path shows, or none where the table has no such package.
    pub fn locate(&self, path: &ImportPath) -> Option<&PackageFaces>
        ensures { option_copied result ≡ package_in self.now path.now }
    {
        match self.place(path) {
            Some(place) => Some(&self.packages[place]),
            None => None,
        }
    }
}
