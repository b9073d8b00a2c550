//! Laws of blanks.
ghost use Rattle.go_recovery_core.specs.standin.Blanks.{BlankedIsAlike};

/// Blanks change neither the length of a text, nor its ends of lines, nor what stands outside their parts.
pub fn blanked_is_alike()
    ensures { BlankedIsAlike }
{}
