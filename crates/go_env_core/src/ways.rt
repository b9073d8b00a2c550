//! Where selections of a name from a type are looked up: by the type that its only embedded field leads to.
use go_declared_core::handle_core::TypeRef;
use go_select_core::surveys::{SoleField, sole_embedded};
use go_table_core::TypeTable;
use go_table_core::path_core::ImportPath;
use go_term_core::TypeTerm;

/// How many embedded fields are followed, one behind the other.
const STEPS: usize = 8;

/// How many only embedded fields lead to a type, with the last of them; of none, all is 0.
#[derive(Clone, Copy, PartialEq, Eq, PartialOrd, Ord)]
struct Way {
    steps: usize,
    position: usize,
    pointer: bool,
}

/// Where selections are looked up: by a declared type to which only embedded fields lead, with the path of its package and the place of its
/// declaration there, and the way to it.
#[derive(Clone, Copy, PartialEq, Eq, PartialOrd, Ord)]
pub(crate) struct Place<'p> {
    path: &'p str,
    file: usize,
    number: usize,
    way: Way,
}

/// The type to which only embedded fields lead, and the way to it.
#[derive(Clone, Copy)]
struct End<'p> {
    term: &'p TypeTerm,
    way: Way,
}

impl<'p> End<'p> {
    // One field further.
    fn behind(self, field: &SoleField<'p>) -> End<'p> {
        End {
            term: field.target,
            way: Way {
                steps: self.way.steps.saturating_add(1),
                position: field.position,
                pointer: field.pointer,
            },
        }
    }
}

// The type to which the only embedded fields lead, one behind the other, as far as the types on the way have themselves no member which the name
// names or which is spelled so. It takes no memory.
fn end_of<'p>(table: &'p TypeTable, term: &'p TypeTerm, name: &str, from: &ImportPath) -> End<'p> {
    let mut end = End {
        term,
        way: Way {
            steps: 0,
            position: 0,
            pointer: false,
        },
    };
    for _ in 0..STEPS {
        let Some(field) = sole_embedded(table, end.term, name, from) else {
            return end;
        };
        end = end.behind(&field);
    }
    end
}

/// Where selections of a name from a type are looked up, which may stand under one star; none where no declared type is there. It takes no memory.
pub(crate) fn place_of<'p>(
    table: &'p TypeTable,
    t: &TypeRef<'p>,
    name: &str,
    from: &ImportPath,
) -> Option<Place<'p>> {
    let parts = t.parts();
    if parts.stars > 1 {
        return None;
    }
    let end = end_of(table, parts.term, name, from);
    match end.term {
        TypeTerm::Defined(key) => Some(Place {
            path: key.path.as_str(),
            file: key.decl.file,
            number: key.decl.number,
            way: end.way,
        }),
        _ => None,
    }
}
