//! What names mean that are declared outside a function.
ghost use Rattle.std.specs.Prelude.{◌≡◌, IfOk};

use go_scope_core::block_core::DeclRef;
use go_universe_core::Predeclared;
use std::alloc::AllocError;

/// What a name denotes that is declared outside the function.
#[derive(Clone, Copy)]
pub enum Outside {
    /// A declaration of the package block.
    Package(DeclRef),
    /// A binding of the file block, by the offset in bytes of the string of the import that makes it.
    File(usize),
    /// A predeclared name.
    Universe(Predeclared),
}

/// What names mean to a checker: what its pieces give to the locals that they declare, and what stands outside the function.
pub trait Meant {
    ghost use Rattle.go_names_core.specs.declared.meaning.Outside.{Outside};

    // what a name means that is declared outside the function
    ghost outside: { Outside → Self };

    /// What a name means that is declared outside the function.
    fn of_outside(found: Outside) -> Self
        ensures { result ≡ outside found };

    /// The same meaning once more.
    ///
    /// # Errors
    ///
    /// [`AllocError`] where memory is wanting for what is shared with it.
    fn again(&self) -> Result<Self, AllocError>
        ensures { IfOk result (λ meaning. meaning ≡ self.now) };
}
