//! Types of which selectors denote the same, since each embeds one type.
ghost use Rattle.std.specs.Bool.{OnTrue};
ghost use Rattle.std.specs.Prelude.{◌≡◌, IfSome};
ghost use Rattle.go_term_core.specs.Shapes.{shape};
ghost use Rattle.go_embed_core.specs.table_core.Entries.{find_entry};
ghost use Rattle.go_embed_core.specs.OwnersShown.{owner_shown};
ghost use Rattle.go_select_core.specs.surveys.Sole.{IsSoleBehind};
ghost use Rattle.go_select_core.specs.surveys.SoleShown.{sole_shown};
ghost use Rattle.go_select_core.specs.surveys.mirrors.Alike.{IsSoleOf, AreAlike};

use go_embed_core::type_core::{TypeTable, TypeTerm};
use go_embed_core::{Hits, Owner};
use go_path_core::ImportPath;

/// How many fields a type may have of which the only embedded one is followed.
const FIELDS: usize = 8;

/// How many types are gone through, each embedded by the one before.
const STEPS: usize = 9;

/// The only embedded field of a struct type.
#[derive(Clone, Copy)]
pub struct SoleField<'a> {
    /// The field's place among those of its struct type, from 0.
    pub position: usize,
    /// Whether it is written with a star.
    pub pointer: bool,
    /// The type that it embeds, without the star.
    pub target: &'a TypeTerm,
}

// The only embedded field of a type; none where it embeds no type or several.
fn sole_field<'a>(owner: &Owner<'a>) -> Option<SoleField<'a>>
    ensures { IfSome result (λ e. IsSoleOf (owner_shown owner.now) (sole_shown e)) }
{
    let mut sole: Option<SoleField<'a>> = None;
    'fields: for i in 0..owner.field_count() {
        if let Some(field) = owner.embedded(i) {
            if sole.is_some() {
                return None;
            }
            sole = Some(SoleField {
                position: field.position,
                pointer: field.pointer,
                target: field.target,
            });
        }
    }
    sole
}

/// The only embedded field of a type of at most eight fields that has itself no member which a name names, written in the package `from`, or
/// which is spelled so; none where it has one, has more fields, or embeds no type or several. What the name denotes behind the type, it denotes
/// behind the type that is embedded. It takes no memory.
pub fn sole_embedded<'a>(
    table: &'a TypeTable,
    term: &'a TypeTerm,
    name: &str,
    from: &ImportPath,
) -> Option<SoleField<'a>>
    ensures { IfSome result (λ e. IsSoleBehind (find_entry table.now) (shape term.now) name.now from.now (sole_shown e)) }
{
    let owner = Owner::of(table, term);
    if owner.field_count() > FIELDS {
        return None;
    }
    match owner.hits(name, from) {
        Hits::Nothing => {
            if owner.has_spelled(name) {
                return None;
            }
            let sole = sole_field(&owner)?;
            Some(sole)
        }
        Hits::One(_) => None,
        Hits::More => None,
    }
}

// Whether two types are one declared type. It takes no memory.
fn is_same_name(a: &TypeTerm, b: &TypeTerm) -> bool
    ensures { OnTrue result (shape a.now ≡ shape b.now) }
{
    match (a, b) {
        (TypeTerm::Defined(one), TypeTerm::Defined(other)) => one.is_same(other),
        _ => false,
    }
}

/// Whether a name is seen to denote the same behind two types: they are one declared type, or each embeds one type alone by a field at the same
/// place, with a star or without, has itself no member that is spelled so, and what they embed is such again. It takes no memory.
pub(crate) fn is_alike<'a>(
    table: &'a TypeTable,
    a: &'a TypeTerm,
    b: &'a TypeTerm,
    name: &str,
    from: &ImportPath,
) -> bool
    ensures { OnTrue result (AreAlike (find_entry table.now) name.now from.now (shape a.now) (shape b.now)) }
{
    let mut x = a;
    let mut y = b;
    'steps: for _ in 0..STEPS {
        if is_same_name(x, y) {
            return true;
        }
        let Some(e) = sole_embedded(table, x, name, from) else {
            return false;
        };
        let Some(f) = sole_embedded(table, y, name, from) else {
            return false;
        };
        if e.position != f.position || e.pointer != f.pointer {
            return false;
        }
        x = e.target;
        y = f.target;
    }
    false
}
