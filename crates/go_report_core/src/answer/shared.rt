//! Values of locals that are held, shared among those of one type.
ghost use Rattle.std.specs.Bool.{OnTrue};
ghost use Rattle.std.specs.Prelude.{◌≡◌, IfOk, IfSome};
ghost use Rattle.std.specs.Arc.{arc_value};
ghost use Rattle.std.specs.Option.{option_map};
ghost use Rattle.go_term_core.specs.Shapes.{shape};
ghost use Rattle.go_summary_core.specs.handle_core.Stars.{starred};
ghost use Rattle.go_summary_core.specs.declared_core.Faces.{operand_shown, value_type_shown};

use go_expr_core::operand_core::{Operand, ValueType};
use go_summary_core::alike::equal_term;
use go_summary_core::declared_core::{Face, hold};
use go_summary_core::handle_core::TypeRef;
use go_term_core::{MemberPlace, TypeTerm};
use std::alloc::{AllocError, Global};
use std::collections::{BTreeMap, HashMap};
use std::sync::Arc;

// How many stars before types may be held for one package, each of which takes a box. Variables of ever longer pointer types have some half of the square
// of their number: in a text of 64 KB eight million.
const MOST_STARS: usize = 2_097_152;

// What a local stands for, held.
type HeldValue = Arc<Option<Operand<TypeTerm>>>;

// Where a type is looked up in its package: by the place of its declaration, or of its first field or method, how many of these it has, and the stars
// before it.
#[derive(Clone, Copy, PartialEq, Eq, Hash)]
struct Spot {
    file: usize,
    at: usize,
    members: usize,
    stars: usize,
}

// The values that are held of types of one package.
type PackageValues = HashMap<Spot, Vec<HeldValue>>;

/// The values of variables that were held, each once, so that variables of one type share what is held of it.
pub struct HeldValues {
    /// By the path of the package where the type is written, which is empty for a type that is written alike everywhere.
    kept: BTreeMap<String, PackageValues>,
    /// How many stars may still be held.
    room: usize,
}

impl Drop for HeldValues {
    fn drop(self) {
        let HeldValues { kept: _, room: _ } = self;
    }
}

// Where a type whose first member stands at a place is looked up.
fn member_spot(place: MemberPlace, members: usize, stars: usize) -> Spot {
    match place {
        MemberPlace::Declared(decl) => Spot {
            file: decl.file,
            at: decl.number,
            members,
            stars,
        },
        MemberPlace::Local(local) => Spot {
            file: local.file,
            at: local.offset,
            members,
            stars,
        },
    }
}

// Where a type is looked up: the path of its package, and where there.
type TypeSpot<'t> = (&'t str, Spot);

// Where a type under stars is looked up. Those that are written alike wherever they stand have no path, and share one spot.
fn term_spot(stars: usize, term: &TypeTerm) -> TypeSpot<'_> {
    let plain = Spot {
        file: 0,
        at: 0,
        members: 0,
        stars,
    };
    match term {
        TypeTerm::NoType | TypeTerm::Basic(_) | TypeTerm::Error => ("", plain),
        TypeTerm::Defined(key) => {
            let spot = Spot {
                file: key.decl.file,
                at: key.decl.number,
                members: 0,
                stars,
            };
            (key.path.as_str(), spot)
        }
        TypeTerm::Pointer(base) => term_spot(stars.saturating_add(1), base),
        TypeTerm::Struct(path, fields, _) => match fields.first() {
            Some(first) => (path.as_str(), member_spot(first.place, fields.len(), stars)),
            None => ("", plain),
        },
        TypeTerm::Interface(path, methods) => match methods.first() {
            Some(first) => (
                path.as_str(),
                member_spot(first.place, methods.len(), stars),
            ),
            None => ("", plain),
        },
    }
}

// Where a value is looked up: none where it is no variable of a type.
fn value_spot<'p>(value: &Option<Operand<TypeRef<'p>>>) -> Option<TypeSpot<'p>> {
    let Some(operand) = value else {
        return None;
    };
    match (&operand.value_type, &operand.constant) {
        (ValueType::Typed(lent), None) => {
            let parts = lent.parts();
            Some(term_spot(parts.stars, parts.term))
        }
        _ => None,
    }
}

// Whether a type that is held is a term under so many stars.
fn is_starred(held: &TypeTerm, stars: usize, term: &TypeTerm) -> bool
    ensures { OnTrue result (shape held.now ≡ starred stars (shape term.now)) }
{
    if stars == 0 {
        return equal_term(held, term);
    }
    match held {
        TypeTerm::Pointer(base) => is_starred(base, stars - 1, term),
        TypeTerm::NoType
        | TypeTerm::Basic(_)
        | TypeTerm::Error
        | TypeTerm::Defined(_)
        | TypeTerm::Struct(_, _, _)
        | TypeTerm::Interface(_, _) => false,
    }
}

// Whether the type of a value that is held is one that is lent: never, where a value is untyped.
fn is_held_type(held: &ValueType<TypeTerm>, lent: &ValueType<TypeRef<'_>>) -> bool
    ensures { OnTrue result (value_type_shown held.now ≡ lent.now) }
{
    match (held, lent) {
        (ValueType::Typed(held), ValueType::Typed(lent)) => {
            let parts = lent.parts();
            is_starred(held, parts.stars, parts.term)
        }
        _ => false,
    }
}

// Whether an operand that is held is one that is lent: never, where one is constant.
fn is_held_operand(held: &Operand<TypeTerm>, lent: &Operand<TypeRef<'_>>) -> bool
    ensures { OnTrue result (operand_shown held.now ≡ lent.now) }
{
    match (&held.constant, &lent.constant) {
        (None, None) => {
            held.addressable == lent.addressable && is_held_type(&held.value_type, &lent.value_type)
        }
        _ => false,
    }
}

// Whether a value that is held is one that is lent: never, where there is none.
fn is_held(held: &Option<Operand<TypeTerm>>, lent: &Option<Operand<TypeRef<'_>>>) -> bool
    ensures { OnTrue result (option_map operand_shown held.now ≡ lent.now) }
{
    match (held, lent) {
        (Some(held), Some(lent)) => is_held_operand(held, lent),
        _ => false,
    }
}

// The first of some values that are held which is one that is lent.
fn first_held<'v>(
    kept: &'v [HeldValue],
    lent: &Option<Operand<TypeRef<'_>>>,
) -> Option<&'v HeldValue>
    ensures { IfSome result (λ held. option_map operand_shown (arc_value held.now) ≡ lent.now) }
{
    for held in kept {
        if is_held(held, lent) {
            return Some(held);
        }
    }
    None
}

// A value, held anew.
fn held_anew(alloc: Global, value: Option<Operand<TypeRef<'_>>>) -> Result<HeldValue, AllocError>
    ensures { IfOk result (λ held. option_map operand_shown (arc_value held) ≡ value.entry) }
{
    match hold(alloc, &Face::Value(value))? {
        Face::Value(value) => Ok(Arc::new(alloc, value)?),
        // No face but a value's is held of a value.
        Face::Type(_) => Err(AllocError),
        Face::Func(_) => Err(AllocError),
    }
}

// Keeps a value among those of its package, to be looked up at a spot.
fn keep_at(
    alloc: Global,
    values: &mut PackageValues,
    spot: Spot,
    held: HeldValue,
) -> Result<(), AllocError> {
    if let Some(kept) = values.get_mut(&spot) {
        kept.push(held)?;
        return Ok(());
    }
    let mut kept = Vec::new(alloc);
    kept.push(held)?;
    values.insert(spot, kept)?;
    Ok(())
}

impl HeldValues {
    /// No value was held.
    pub fn new(alloc: Global) -> HeldValues {
        HeldValues {
            kept: BTreeMap::new(alloc),
            room: MOST_STARS,
        }
    }

    // The value that was held and is one that is lent, which is looked up at a spot.
    fn find(&self, at: TypeSpot<'_>, lent: &Option<Operand<TypeRef<'_>>>) -> Option<&HeldValue>
        ensures { IfSome result (λ held. option_map operand_shown (arc_value held.now) ≡ lent.now) }
    {
        let (path, spot) = at;
        let kept = self.kept.get(path)?.get(&spot)?;
        first_held(kept.as_slice(), lent)
    }

    // Keeps a value that is held, to be looked up at a spot.
    fn keep(&mut self, alloc: Global, at: TypeSpot<'_>, held: HeldValue) -> Result<(), AllocError> {
        let (path, spot) = at;
        if let Some(values) = self.kept.get_mut(path) {
            return keep_at(alloc, values, spot, held);
        }
        let mut values = HashMap::new(alloc);
        keep_at(alloc, &mut values, spot, held)?;
        self.kept.insert(String::from_str(alloc, path)?, values)?;
        Ok(())
    }

    /// A value, held: that which was held before, where a variable of the same type was.
    ///
    /// # Errors
    ///
    /// `AllocError` where memory is wanting, or more than 2,097,152 stars would be held before types.
    pub(crate) fn hold(
        &mut self,
        alloc: Global,
        value: Option<Operand<TypeRef<'_>>>,
    ) -> Result<HeldValue, AllocError>
        ensures { IfOk result (λ held. option_map operand_shown (arc_value held) ≡ value.entry) }
    {
        let Some(at) = value_spot(&value) else {
            return held_anew(alloc, value);
        };
        if let Some(held) = self.find(at, &value) {
            return Arc::try_clone(held);
        }
        let Some(room) = self.room.checked_sub(at.1.stars) else {
            return Err(AllocError);
        };
        self.room = room;
        let held = held_anew(alloc, value)?;
        self.keep(alloc, at, Arc::try_clone(&held)?)?;
        Ok(held)
    }
}
