//! Laws of the names that may stand at a place.
ghost use Rattle.go_candidate_core.specs.context.Laws.{ThingsDecide};

/// A law, with nothing to run: whether a name has a declaration where it stands alone follows from what kind of thing it stands for there.
pub fn things_decide<T, S, D, P>()
    ensures { ThingsDecide T S D P }
{}
