//! Laws of the pieces of functions.
ghost use Rattle.go_stmt_core.specs.piece.Worked.{WorkedPieces};
ghost use Rattle.go_stmt_core.specs.piece.Laws.{PiecesHaveOccurrences, NamesHaveValues, OuterIsLocal, PiecesAreLocal, PiecesLookAtNames};

/// A law, with nothing to run: what is noted of a piece stands where its occurrences stand, with their roles and in their order, so that
/// each has exactly one outcome; and the occurrences of a function are those of its pieces.
pub fn pieces_have_occurrences<T, S, D, P>()
    ensures { PiecesHaveOccurrences T S D P }
{}

/// A law, with nothing to run: what is answered of a piece is one thing for each name that it declares.
pub fn names_have_values<T, S, D, P>()
    ensures { NamesHaveValues T S D P }
{}

/// A law, with nothing to run: look-ups that agree on each name of a piece, where it stands, and make the same of each type that it
/// writes, make the same of it.
pub fn pieces_are_local<T, S, D, P>()
    ensures { PiecesAreLocal T S D P }
{}

/// A law, with nothing to run: and so it is of a specification outside functions.
pub fn outer_is_local<T, S, D, P>()
    ensures { OuterIsLocal T S D P }
{}

/// A law, with nothing to run: rules that are made of what pieces have, break and declare look at the names of a piece alone, if what a
/// name stands for rests on what it means where it stands.
pub fn pieces_look_at_names<X, N, T, S, D, P>()
    ensures { PiecesLookAtNames X N T S D P }
{}

/// A law, with nothing to run: what a few pieces have and break, where their rules lie, and what their names stand for.
pub fn worked_pieces()
    ensures { WorkedPieces }
{}
