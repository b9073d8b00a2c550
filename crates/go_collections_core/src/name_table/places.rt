//! Where names stand in a list, found by a hash, in time that no names make more than logarithmic.
ghost use Rattle.std.specs.Prelude.{◌≡◌, ℕ, List, ◌+◌, ◌<◌, ◌≤◌, Some, None, IfOk, IfSome, IfNone, OnOk, OnErr, length, slice_get, option_copied};
ghost use Rattle.std.specs.BTreeMap.{IsUnchanged};
ghost use Rattle.go_collections_core.specs.name_table.Named.{entries_named, value_at, AreOnce};
ghost use Rattle.go_collections_core.specs.name_table.Placed.{if_named, behind, hash_of, start_of, ArePlaced, Noted};

use std::alloc::{AllocError, Global};
use std::collections::BTreeMap;
use std::hash::{FoldHasher, Hash, Hasher};

/// How many slots a name may have its place in.
const WAYS: usize = 4;

/// Where names stand. A name's place is in one of the few slots that its hash names, or, where they were taken when it came, in an ordered map. So
/// names that share their slots cost a look-up in that map, and no more. A slot without a place has one past the end.
#[derive(Drop)]
pub(crate) struct Places {
    pub(crate) slots: Vec<usize>,
    pub(crate) more: BTreeMap<String, usize>,
}

// The hash of a name.
fn hash_of(name: &str) -> u64
    ensures { result ≡ hash_of name.now }
{
    let mut hasher = FoldHasher::default();
    name.hash(&mut hasher);
    hasher.finish()
}

// The first of the slots of a name, among so many.
fn start_of(name: &str, len: usize) -> usize
    requires { 4 ≤ len }
    ensures value { result ≡ start_of name.now len }
    ensures room { result + 4 ≤ len }
{
    hash_of(name) as usize & (len - WAYS)
}

// What stands at a place, if it is the name's.
fn named_at<'e, V>(entries: &'e [(String, V)], place: usize, name: &str) -> Option<&'e V>
    ensures { option_copied result ≡ if_named (slice_get (entries_named entries.now) place) name.now }
{
    match entries.get(place) {
        Some((key, value)) => {
            if name == key.as_str() {
                Some(value)
            } else {
                None
            }
        }
        None => None,
    }
}

// What a name has by the places in its slots, which begin here.
fn find_near<'e, V>(
    entries: &'e [(String, V)],
    slots: &[usize],
    start: usize,
    name: &str,
) -> Option<&'e V>
    requires { start + 4 ≤ length slots.now }
    ensures found { IfSome result (λ v. (p : ℕ) × (if_named (slice_get (entries_named entries.now) p) name.now ≡ Some v.now)) }
    ensures none { IfNone result ((m p : ℕ) → start ≤ m → m < start + 4 → slice_get slots.now m ≡ Some p → if_named (slice_get (entries_named entries.now) p) name.now ≡ None) }
{
    for m in start..start + WAYS {
        if let Some(value) = named_at(entries, slots[m], name) {
            return Some(value);
        }
    }
    None
}

// What a name has by its place in the map.
fn find_behind<'e, V>(
    entries: &'e [(String, V)],
    more: &BTreeMap<String, usize>,
    name: &str,
) -> Option<&'e V>
    ensures { option_copied result ≡ behind more.now (entries_named entries.now) name.now }
{
    match more.get(name) {
        Some(place) => named_at(entries, *place, name),
        None => None,
    }
}

// A slot among those that begin here whose place is not below this one.
fn free_from(slots: &[usize], start: usize, place: usize) -> Option<usize>
    requires { start + 4 ≤ length slots.now }
    ensures { IfSome result (λ m. (start ≤ m) × (m < start + 4) × ((i : ℕ) → slice_get slots.now m ≡ Some i → place ≤ i)) }
{
    for m in start..start + WAYS {
        if slots[m] >= place {
            return Some(m);
        }
    }
    None
}

// How many slots are made where there are so many names and no room for one more.
fn slots_for(len: usize) -> usize {
    let spread = len.saturating_mul(4).saturating_add(8);
    let mask = match usize::MAX.checked_shr(spread.leading_zeros()) {
        Some(mask) => mask,
        None => spread,
    };
    mask.saturating_add(4)
}

impl Places {
    /// No places.
    pub(crate) fn new(alloc: Global) -> Places {
        Places {
            slots: Vec::new(alloc),
            more: BTreeMap::new(alloc),
        }
    }

    /// What a name has among entries that stand at these places. It takes constant expected time, at most one that is logarithmic in the entries
    /// but for comparing the names, and no memory.
    pub(crate) fn find<'e, V>(&self, entries: &'e [(String, V)], name: &str) -> Option<&'e V>
        requires placed { ArePlaced self.now.slots.items self.now.more (entries_named entries.now) }
        requires once { AreOnce (entries_named entries.now) }
        ensures { option_copied result ≡ value_at (entries_named entries.now) name.now }
    {
        let slots = self.slots.as_slice();
        if slots.len() >= WAYS {
            let start = start_of(name, slots.len());
            if let Some(value) = find_near(entries, slots, start, name) {
                return Some(value);
            }
        }
        find_behind(entries, &self.more, name)
    }

    /// Notes the place of a name, behind all places that are noted.
    ///
    /// # Errors
    ///
    /// `AllocError` where memory is wanting; the places are then as they were.
    pub(crate) fn note(&mut self, alloc: Global, name: &str, place: usize) -> Result<(), AllocError>
        ensures ok { OnOk result (Noted self.old.slots.items self.old.more self.new.slots.items self.new.more name.now place) }
        ensures slots { OnErr result (self.new.slots.items ≡ self.old.slots.items) }
        ensures map { OnErr result (IsUnchanged self.old.more self.new.more) }
    {
        let len = self.slots.len();
        if len >= WAYS {
            let start = start_of(name, len);
            if let Some(free) = free_from(self.slots.as_slice(), start, place) {
                self.slots[free] = place;
                return Ok(());
            }
        }
        let key = String::from_str(alloc, name)?;
        self.more.insert(key, place)?;
        Ok(())
    }

    /// The places of entries, in so many slots.
    ///
    /// # Errors
    ///
    /// `AllocError` where memory is wanting.
    pub(crate) fn of<V>(
        alloc: Global,
        entries: &[(String, V)],
        len: usize,
    ) -> Result<Places, AllocError>
        requires { AreOnce (entries_named entries.now) }
        ensures { IfOk result (λ places. ArePlaced places.slots.items places.more (entries_named entries.now)) }
    {
        let mut slots = Vec::with_capacity(alloc, len)?;
        for _ in 0..len {
            slots.push(usize::MAX)?;
        }
        let mut places = Places {
            slots,
            more: BTreeMap::new(alloc),
        };
        for (place, (name, _)) in entries.iter().enumerate() {
            places.note(alloc, name.as_str(), place)?;
        }
        Ok(places)
    }

    /// Makes more slots, where there is little room for one name more.
    ///
    /// # Errors
    ///
    /// `AllocError` where memory is wanting; the places are then as they were.
    pub(crate) fn widen<V>(
        &mut self,
        alloc: Global,
        entries: &[(String, V)],
    ) -> Result<(), AllocError>
        requires placed { ArePlaced self.old.slots.items self.old.more (entries_named entries.now) }
        requires once { AreOnce (entries_named entries.now) }
        ensures { ArePlaced self.new.slots.items self.new.more (entries_named entries.now) }
    {
        if entries.len() >= self.slots.len() / 2 {
            let places = Places::of(alloc, entries, slots_for(entries.len()))?;
            *self = places;
        }
        Ok(())
    }
}
