//! Laws of types as they are written.
ghost use Rattle.go_typexpr_core.specs.written.Laws.{WrittenByNames};

/// A law, with nothing to run: the term of a type and that of a signature depend on what the names of types mean that stand there, and on no other
/// name; and each defined type that they mention is mentioned by what such a name means.
pub fn written_by_names()
    ensures { WrittenByNames }
{}
