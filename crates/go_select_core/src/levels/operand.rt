//! Where a selector is searched.
ghost use Rattle.std.specs.Prelude.{◌≡◌};
ghost use Rattle.go_embed_core.specs.table_core.Entries.{find_entry};
ghost use Rattle.go_term_core.specs.Shapes.{shape};
ghost use Rattle.go_select_core.specs.levels.Selectors.{searched, searched_under, unless_refused, term_kind_in};
ghost use Rattle.go_select_core.specs.levels.mirrors.Operands.{operand_shown, searched_shown};

use go_embed_core::type_core::{Kind, TypeTable, TypeTerm, kind_of};
use go_path_core::text_core::Rule;

/// Where a selector is searched.
#[derive(Drop)]
pub enum Operand<'a> {
    /// In a type, with whether the operand's type is a pointer type.
    In(&'a TypeTerm, bool),
    /// In what a defined pointer type points to, where fields alone are found.
    FieldsIn(&'a TypeTerm),
}

/// Where a selector is searched behind a pointer to a type, which may be neither a pointer type nor an interface type.
///
/// # Errors
///
/// `Rule::S4` where the type is none; `Rule::S6` where it is a pointer type or an interface type.
pub(crate) fn behind_pointer<'a>(
    table: &TypeTable,
    target: &TypeTerm,
    operand: Operand<'a>,
) -> Result<Operand<'a>, Rule>
    ensures { searched_shown result ≡ unless_refused (term_kind_in (find_entry table.now) (shape target.now)) (operand_shown operand.entry) }
{
    match kind_of(table.underlying(target)) {
        Kind::Nothing => Err(Rule::S4),
        Kind::Pointer => Err(Rule::S6),
        Kind::Interface => Err(Rule::S6),
        Kind::Other => Ok(operand),
    }
}

// Where a selector is searched behind a defined type.
fn behind_name<'a>(
    table: &'a TypeTable,
    term: &'a TypeTerm,
    under: &'a TypeTerm,
) -> Result<Operand<'a>, Rule>
    ensures { searched_shown result ≡ searched_under (find_entry table.now) (shape term.now) (shape under.now) }
{
    match under {
        TypeTerm::NoType => Err(Rule::S4),
        TypeTerm::Pointer(target) => behind_pointer(table, target, Operand::FieldsIn(target)),
        TypeTerm::Basic(_) => Ok(Operand::In(term, false)),
        TypeTerm::Error => Ok(Operand::In(term, false)),
        TypeTerm::Defined(_) => Ok(Operand::In(term, false)),
        TypeTerm::Struct(_, _, _) => Ok(Operand::In(term, false)),
        TypeTerm::Interface(_, _) => Ok(Operand::In(term, false)),
    }
}

/// Where a selector is searched behind an operand of a type.
///
/// # Errors
///
/// `Rule::S4` where the type is none; `Rule::S6` where it is a pointer to a pointer type or to an interface type.
pub fn behind<'a>(table: &'a TypeTable, term: &'a TypeTerm) -> Result<Operand<'a>, Rule>
    ensures { searched_shown result ≡ searched (find_entry table.now) (shape term.now) }
{
    match term {
        TypeTerm::NoType => Err(Rule::S4),
        TypeTerm::Pointer(target) => behind_pointer(table, target, Operand::In(target, true)),
        TypeTerm::Defined(_) => behind_name(table, term, table.underlying(term)),
        TypeTerm::Basic(_) => Ok(Operand::In(term, false)),
        TypeTerm::Error => Ok(Operand::In(term, false)),
        TypeTerm::Struct(_, _, _) => Ok(Operand::In(term, false)),
        TypeTerm::Interface(_, _) => Ok(Operand::In(term, false)),
    }
}
