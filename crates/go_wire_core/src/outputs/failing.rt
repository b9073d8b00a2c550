//! Why a read or a write failed.
ghost use Rattle.std.specs.Prelude.{◌≡◌, ◌↔◌, IsTrue};
ghost use Rattle.std.specs.declared.io.ErrorKind.TheVariants.{Interrupted};

use std::io::ErrorKind;

/// Whether a failure of this kind is an interruption, behind which the same is tried again.
pub fn is_interruption(kind: ErrorKind) -> bool
    ensures { IsTrue result ↔ (kind ≡ Interrupted) }
{
    kind == ErrorKind::Interrupted
}
