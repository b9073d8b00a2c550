//! Where functions are declared.
ghost use Rattle.std.specs.Prelude.{◌≡◌, option_map};
ghost use Rattle.go_machine_core.specs.link.Functions.{place_shown};

/// Where something is declared outside functions.
#[derive(Clone, Copy, PartialEq, Eq, Hash)]
pub struct Place<'a> {
    /// The path of its package.
    pub path: &'a str,
    /// The number of its file in order of name, from 0.
    pub file: usize,
    /// Its number among the identifiers that the file declares outside function bodies.
    pub number: usize,
}

/// Where declarations are.
pub trait Places<D> {
    ghost use Rattle.std.specs.Prelude.{Option};
    ghost use Rattle.go_machine_core.specs.link.Functions.{PlaceModel};

    // the place of a declaration, if it is declared outside functions
    ghost place_of: { Self → D → Option PlaceModel };

    /// The place of a declaration, if it is declared outside functions.
    fn place<'d>(&self, decl: &'d D) -> Option<Place<'d>>
        ensures { option_map place_shown result ≡ place_of self.now decl.now };
}
