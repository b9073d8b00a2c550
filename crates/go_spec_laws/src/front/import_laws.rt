//! What imports bind in the block of their file.
ghost use Rattle.go_spec_laws.specs.front.ImportLaws.{ImportsBindByForm};

/// A law, with nothing to run: an import binds the name in the clauses of its package where it is written without one, the name that it is written with,
/// each name that the package shows where it is written with a dot, and nothing where its name is `_`; a refused import binds the names that it would
/// have, with its rule, and nothing by a dot. The Go specification, "Import declarations", "Exported identifiers", "Identifiers".
pub fn imports_bind_by_form()
    ensures { ImportsBindByForm }
{}
