//! Laws of the identifiers that are used and of their spots.
ghost use Rattle.go_cursor_core.specs.Laws.{SpotsDecide, NamesAreOccurrences};
ghost use Rattle.go_cursor_core.specs.Walks.{OpenNamesAreWalked};

/// A law, with nothing to run: by any look-ups the identifiers of a piece of a function stand in the contexts that their spots give, in
/// order of their places, and so does the one that begins at an offset.
pub fn spots_decide<T, S, D, P>()
    ensures { SpotsDecide T S D P }
{}

/// A law, with nothing to run: the identifiers of a file that are used, each with its spot, are the identifiers among its occurrences, with
/// their roles. So one is found at an offset exactly where an occurrence that is an identifier begins there, and it is this.
pub fn names_are_occurrences()
    ensures { NamesAreOccurrences }
{}

/// A law, with nothing to run: on the walk through a function by any rules, the names that are open in front of a piece are the locals that
/// are open there by the tree alone, in the same order.
pub fn open_names_are_walked<X, N>()
    ensures { OpenNamesAreWalked X N }
{}
