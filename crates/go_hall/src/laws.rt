//! Laws of refusals.
ghost use Rattle.go_hall.specs.Refusals.{RefusalsAreListed};

/// An open is refused by O1, O3, O4, H1, H2 or M0 alone, and a build by O5, E1, H1, H2 or M0 alone.
pub fn refusals_are_listed()
    ensures { RefusalsAreListed }
{}
