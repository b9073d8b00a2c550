//! The kinds of the types of a table.
ghost use Rattle.std.specs.Prelude.{◌≡◌};
ghost use Rattle.go_table_core.specs.Entries.{find_entry, term_in};
ghost use Rattle.go_term_core.specs.settling.Settled.{kind_of_term};

use crate::table::TypeTable;
use go_term_core::decl_core::DeclKey;
use go_term_core::settling::{Kind, Kinds, kind_of};

impl Kinds for TypeTable {
    ghost kinds = { λ table k. kind_of_term (term_in (find_entry table k)) };

    /// The kind of a defined type of the table, by its underlying type; `Kind::Nothing` where the table has no such type.
    fn kind(&self, key: &DeclKey) -> Kind {
        match self.locate(key) {
            Some(located) => kind_of(located.defined.underlying()),
            None => Kind::Nothing,
        }
    }
}
