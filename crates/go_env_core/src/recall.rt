//! What was decided of declared types, remembered behind a shared reference. Its locks are tried and never waited for: what is not had is decided anew.
ghost use Rattle.std.specs.Bool.{OnTrue};
ghost use Rattle.std.specs.Prelude.{◌≡◌, IfSome};
ghost use Rattle.go_term_core.specs.Shapes.{shape};
ghost use Rattle.go_select_core.specs.levels.Selectors.{IsSelectorAnswer};
ghost use Rattle.go_table_core.specs.Entries.{find_entry};
ghost use Rattle.go_declared_core.specs.handle_core.Stars.{starred};
ghost use Rattle.go_env_core.specs.Recalled.{assignable_in, convertible_in};

use crate::surveys::{AskedTypes, cost_of};
use crate::ways::place_of;
use go_collections_core::text_core::Rule;
use go_declared_core::handle_core::{Decl, SignatureRef, TypeParts, TypeRef};
use go_expr_core::denote_core::Selection;
use go_select_core::{EmbedPath, Selected};
use go_table_core::TypeTable;
use go_table_core::path_core::ImportPath;
use go_term_core::TypeTerm;
use std::alloc::Global;
use std::collections::HashMap;
use std::marker::{Brand, PhantomData};
use std::sync::Mutex;

/// Which table of types it is. A caller with a table picks it.
pub trait TypesOf {
    ghost use Rattle.std.specs.Prelude.{List};
    ghost use Rattle.go_table_core.specs.Entries.{Entry};

    ghost types: { List Entry };
}

impl TypesOf for Brand {
    ghost use Rattle.std.specs.Prelude.{[]};

    ghost types = { [] };
}

// Where two types are looked up: by the places of their declarations, and the stars before them. Types of several packages may share one.
#[derive(Clone, Copy, PartialEq, Eq, Hash)]
struct Spot {
    file: usize,
    number: usize,
    stars: usize,
    to_file: usize,
    to_number: usize,
    to_stars: usize,
}

// Whether a value of a type is assignable to a variable of another.
#[derive(Drop)]
struct Assigned<'p, K: TypesOf> {
    value: TypeRef<'p>,
    variable: TypeRef<'p>,
    answer: bool,
    of: PhantomData<K>,
    ghost right: { answer ≡ assignable_in K.types value variable },
}

// Whether a value of a type is convertible to another by their underlying types.
#[derive(Drop)]
struct Converted<'p, K: TypesOf> {
    value: TypeRef<'p>,
    to: TypeRef<'p>,
    answer: bool,
    of: PhantomData<K>,
    ghost right: { answer ≡ convertible_in K.types value to },
}

/// What was decided of the declared types of a table.
pub struct Recall<'p, K: TypesOf> {
    assigned: Mutex<HashMap<Spot, Assigned<'p, K>>>,
    converted: Mutex<HashMap<Spot, Converted<'p, K>>>,
    asked: Mutex<AskedTypes<'p, K>>,
}

impl<'p, K: TypesOf> Drop for Recall<'p, K> {
    fn drop(self) {
        let Recall {
            assigned: _,
            converted: _,
            asked: _,
        } = self;
    }
}

// The parts of a type, where a pointer type that is written counts as a star.
fn counted<'p>(t: &TypeRef<'p>) -> TypeParts<'p>
    ensures { starred result.stars (shape result.term.now) ≡ t.now }
{
    let parts = t.parts();
    if parts.stars > 0 {
        return parts;
    }
    match parts.term {
        TypeTerm::Pointer(base) => TypeParts {
            stars: 1,
            term: base,
        },
        _ => parts,
    }
}

// Where two declared types are looked up, which may stand under stars; none where one is another type.
fn spot_of(value: &TypeRef<'_>, to: &TypeRef<'_>) -> Option<Spot> {
    let value = counted(value);
    let to = counted(to);
    match (value.term, to.term) {
        (TypeTerm::Defined(a), TypeTerm::Defined(b)) => Some(Spot {
            file: a.decl.file,
            number: a.decl.number,
            stars: value.stars,
            to_file: b.decl.file,
            to_number: b.decl.number,
            to_stars: to.stars,
        }),
        _ => None,
    }
}

// Whether two types are one declared type under as many stars. It takes no memory.
fn is_same_name(a: &TypeRef<'_>, b: &TypeRef<'_>) -> bool
    ensures { OnTrue result (a.now ≡ b.now) }
{
    let a = counted(a);
    let b = counted(b);
    if a.stars != b.stars {
        return false;
    }
    match (a.term, b.term) {
        (TypeTerm::Defined(one), TypeTerm::Defined(other)) => one.is_same(other),
        _ => false,
    }
}

impl<'p, K: TypesOf> Recall<'p, K> {
    /// Nothing was decided.
    pub fn new(alloc: Global) -> Recall<'p, K> {
        Recall {
            assigned: Mutex::new(HashMap::new(alloc)),
            converted: Mutex::new(HashMap::new(alloc)),
            asked: Mutex::new(AskedTypes::new(alloc)),
        }
    }

    /// Whether a value of a type is assignable to a variable of another, where it was decided. It takes constant expected time and no memory.
    pub fn assignable(&self, value: &TypeRef<'p>, variable: &TypeRef<'p>) -> Option<bool>
        ensures { IfSome result (λ answer. answer ≡ assignable_in K.types value.now variable.now) }
    {
        let spot = spot_of(value, variable)?;
        let Some(assigned) = self.assigned.try_lock() else {
            return None;
        };
        let found = assigned.get(&spot)?;
        if is_same_name(&found.value, value) && is_same_name(&found.variable, variable) {
            return Some(found.answer);
        }
        None
    }

    /// Notes whether a value of a type is assignable to a variable of another. Where memory is wanting, it is forgotten.
    pub fn note_assignable(&self, value: &TypeRef<'p>, variable: &TypeRef<'p>, answer: bool)
        requires { answer ≡ assignable_in K.types value.now variable.now }
    {
        let Some(spot) = spot_of(value, variable) else {
            return;
        };
        if let Some(mut assigned) = self.assigned.try_lock() {
            let found = Assigned {
                value: value.again(),
                variable: variable.again(),
                answer,
                of: PhantomData,
            };
            let _ = assigned.insert(spot, found);
        }
    }

    /// Whether a value of a type is convertible to another by their underlying types, where it was decided. It takes constant expected time
    /// and no memory.
    pub fn convertible(&self, value: &TypeRef<'p>, to: &TypeRef<'p>) -> Option<bool>
        ensures { IfSome result (λ answer. answer ≡ convertible_in K.types value.now to.now) }
    {
        let spot = spot_of(value, to)?;
        let Some(converted) = self.converted.try_lock() else {
            return None;
        };
        let found = converted.get(&spot)?;
        if is_same_name(&found.value, value) && is_same_name(&found.to, to) {
            return Some(found.answer);
        }
        None
    }

    /// Notes whether a value of a type is convertible to another by their underlying types. Where memory is wanting, it is forgotten.
    pub fn note_convertible(&self, value: &TypeRef<'p>, to: &TypeRef<'p>, answer: bool)
        requires { answer ≡ convertible_in K.types value.now to.now }
    {
        let Some(spot) = spot_of(value, to) else {
            return;
        };
        if let Some(mut converted) = self.converted.try_lock() {
            let found = Converted {
                value: value.again(),
                to: to.again(),
                answer,
                of: PhantomData,
            };
            let _ = converted.insert(spot, found);
        }
    }

    /// What a name selects behind an operand of a type, as [`select`](go_select_core::select) answers it in the package `from`, where
    /// that is known of the type, or of one that embeds the same type alone. It takes constant expected time beside that of the path.
    pub fn select(
        &self,
        alloc: Global,
        table: &'p TypeTable,
        t: &TypeRef<'p>,
        name: &str,
        from: &ImportPath,
    ) -> Option<Result<Selected<'p>, Rule>>
        ensures { IfSome result (λ answered. IsSelectorAnswer (find_entry K.types) t.now name.now from.now answered) }
    {
        let Some(asked) = self.asked.try_lock() else {
            return None;
        };
        if asked.is_empty() {
            return None;
        }
        let place = place_of(table, t, name, from)?;
        asked.select(alloc, &place, t, name, from)
    }

    /// Notes what a name was found to select behind an operand of a type, and what that cost: once the selections from a type, or from those
    /// that embed it alone, have cost about as much as it takes to know all of them, these are found. Where memory is wanting, it is forgotten.
    pub fn note_selection(
        &self,
        alloc: Global,
        table: &'p TypeTable,
        from: &'p ImportPath,
        t: &TypeRef<'p>,
        name: &str,
        selection: &Selection<TypeRef<'p>, SignatureRef<'p>, Decl<'p>, EmbedPath>,
    )
        requires { table.now ≡ K.types }
    {
        let term = t.parts().term;
        let cost = cost_of(table, term, selection);
        if cost == 0 {
            return;
        }
        let Some(place) = place_of(table, t, name, from) else {
            return;
        };
        if let Some(mut asked) = self.asked.try_lock() {
            asked.note(alloc, table, from, place, term, cost, selection);
        }
    }
}
