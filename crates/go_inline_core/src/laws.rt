//! Laws of types inside functions.
ghost use Rattle.go_inline_core.specs.Hiding.{AnyTableTells};
ghost use Rattle.go_inline_core.specs.Laws.{TypesAreFound};

/// A law, with nothing to run: no two types of a function, or of the specifications of a file, begin at one offset, so that each is found at its first
/// byte with what it is; the outline of a file lists the types of its specifications, each once; and the fault of a member stands at the member's
/// identifier.
pub fn types_are_found()
    ensures { TypesAreFound }
{}

/// A law, with nothing to run: what the types of a function are rests on where its declarations stand alone. By any rules, whatever the names mean
/// to them, the declarations of the function tell which names of types are hidden where they stand.
pub fn any_table_tells<X: Drop, N: Drop>()
    ensures { AnyTableTells X N }
{}
