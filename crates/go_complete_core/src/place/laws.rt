//! A law of where identifiers stand.
ghost use Rattle.go_complete_core.specs.place.Laws.{SpotsArePlaces};

/// A law, with nothing to run: each identifier of a file that is found by the tree alone, with its spot and the locals that are open there, stands
/// among those that are checked, in the context that its spot gives; and the names that are open there on the way through its function are these
/// locals, in their order.
pub fn spots_are_places()
    ensures { SpotsArePlaces }
{}
