//! Which types are names.
ghost use Rattle.std.specs.Prelude.{◌≡◌, IsTrue, ◌↔◌};
ghost use Rattle.go_term_core.specs.Shapes.{shape};
ghost use Rattle.go_table_core.specs.Assign.{IsNamed, is_named};

use go_term_core::TypeTerm;

/// Whether a type as it is written is a name, declared or predeclared. `any` is no such name but an interface type. The Go specification,
/// "Types".
pub fn is_named_type(term: &TypeTerm) -> bool
    ensures named { IsTrue result ↔ IsNamed (shape term.now) }
    ensures decided { result ≡ is_named (shape term.now) }
{
    match term {
        TypeTerm::Basic(_) | TypeTerm::Error | TypeTerm::Defined(_) => true,
        TypeTerm::NoType
        | TypeTerm::Pointer(_)
        | TypeTerm::Struct(_, _, _)
        | TypeTerm::Interface(_, _) => false,
    }
}
