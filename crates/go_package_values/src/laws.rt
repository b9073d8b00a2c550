//! Laws of the places of a package's declarations.
ghost use Rattle.go_package_values.specs.Laws.{DeclsStandAlike};

/// A law, with nothing to run: in what is written of a package and in the list of its declarations with their places the same declaration
/// stands at each position, so that both have as many. Where `scene.written` was made of the same outlines, this is what `package_values` requires.
pub fn places_agree()
    ensures { DeclsStandAlike }
{}
