//! Stampers and their stamps.
ghost use Rattle.std.specs.Prelude.{◌≡◌, ℕ, ◌++◌, ◌∷◌, [], IsTrue, MatchOption, Some, slice_get};
ghost use Rattle.go_hall_core.specs.stamping.Books.{head_of};

use crate::stamping::book::{Adds, Counts, NamesBook, Nothing};
use logbook::{Offer, Seen, Start, Word};
use std::marker::{Model, PhantomData};
use std::snapshot::Snapshot;

/// A book without values, which has no name yet.
#[derive(Drop)]
pub struct StampBook<T> {
    head: Word<T, u64, Counts>,
    seen: Seen<T, u64, Counts>,
    pub ghost head_is: { head ≡ head_of seen.book },
}

impl<T> StampBook<T> {
    /// A new book. It takes no memory.
    pub fn new() -> StampBook<T> {
        let (seen, mut first, _second) = Seen::open(Start::alone(), 0, 0);
        StampBook {
            head: Word::tracked(0, &mut first),
            seen,
        }
    }

    /// The stamper of the book, under a name. It has stamped nothing.
    pub fn named<J: NamesBook>(self) -> Stamper<J, T>
        requires { self.seen.book ≡ J.book }
        ensures { result ≡ [] }
    {
        let StampBook { head, seen } = self;
        Stamper {
            head,
            count: 0,
            seen,
            of: PhantomData,
        }
    }
}

/// Stamps values. Contracts see the list of those that it stamped, in order, of which nothing is stored but their number.
#[derive(Drop)]
pub struct Stamper<J: NamesBook, T> {
    head: Word<T, u64, Counts>,
    count: u64,
    seen: Seen<T, u64, Counts>,
    of: PhantomData<J>,
}

impl<J: NamesBook, T> Model for Stamper<J, T> {
    ghost use Rattle.std.specs.Prelude.{◌≡◌, ◌≤◌, List, length, take};
    ghost use Rattle.go_hall_core.specs.stamping.Books.{head_of};

    ghost Value = { List T };

    ghost view = { λ s. take s.count s.seen.log };

    ghost invariant = { λ s. (s.head ≡ head_of J.book) × (s.seen.book ≡ J.book) × (s.count ≤ length s.seen.log) };
}

/// A stamp of a value, which is not stored. Contracts see the value.
#[derive(Drop)]
pub struct Stamp<J: NamesBook, T> {
    number: u64,
    value: Snapshot<T>,
    seen: Seen<T, u64, Counts>,
    of: PhantomData<J>,
}

impl<J: NamesBook, T> Model for Stamp<J, T> {
    ghost use Rattle.std.specs.Prelude.{◌≡◌, Some, slice_get};

    ghost Value = { T };

    ghost view = { λ s. s.value.value };

    ghost invariant = { λ s. (slice_get s.seen.log s.number ≡ Some s.value.value) × (s.seen.book ≡ J.book) };
}

/// What a stamper stamped up to a time, of which nothing is stored but the number. Contracts see the list.
#[derive(Drop)]
pub struct Seal<J: NamesBook, T> {
    count: u64,
    seen: Seen<T, u64, Counts>,
    of: PhantomData<J>,
}

impl<J: NamesBook, T> Model for Seal<J, T> {
    ghost use Rattle.std.specs.Prelude.{◌≡◌, ◌≤◌, List, length, take};

    ghost Value = { List T };

    ghost view = { λ s. take s.count s.seen.log };

    ghost invariant = { λ s. (s.seen.book ≡ J.book) × (s.count ≤ length s.seen.log) };
}

impl<J: NamesBook, T> Seal<J, T> {
    /// The same seal once more. It takes no memory.
    pub fn again(&self) -> Seal<J, T>
        ensures { result ≡ self.now }
    {
        Seal {
            count: self.count,
            seen: self.seen.again(),
            of: PhantomData,
        }
    }

    /// Whether all that was stamped up to another seal was stamped up to this one, at the same places. Numbers are compared, and nothing else.
    pub fn covers(&self, other: &Seal<J, T>) -> bool
        ensures { IsTrue result → (k : ℕ) (x : T) → slice_get other.now k ≡ Some x → slice_get self.now k ≡ Some x }
    {
        let mut both = self.seen.again();
        both.learn(&other.seen);
        other.count <= self.count
    }
}

impl<J: NamesBook, T> Stamper<J, T> {
    /// What was stamped up to now.
    pub fn seal(&self) -> Seal<J, T>
        ensures { result ≡ self.now }
    {
        Seal {
            count: self.count,
            seen: self.seen.again(),
            of: PhantomData,
        }
    }

    /// A stamp of a value, where a number is left. It takes no memory.
    pub fn stamp(&mut self, value: &T) -> Option<Stamp<J, T>>
        ensures { MatchOption result (self.new ≡ self.old) (λ s. (s ≡ value.now) × (self.new ≡ self.old ++ value.now ∷ [])) }
    {
        let count = self.count;
        if count == u64::MAX {
            return None;
        }
        let mut offer: Offer<T, u64, Counts, Nothing> = self.seen.plain::<Nothing, T, Adds>(value);
        let mut pen = self.seen.no_pen();
        let found = self
            .head
            .compare_exchange::<Adds, Nothing>(
                count,
                count + 1,
                &mut self.seen,
                &mut offer,
                &mut pen,
            );
        if found != count {
            return None;
        }
        self.count = count + 1;
        Some(Stamp {
            number: count,
            value: Snapshot::of(value),
            seen: self.seen.again(),
            of: PhantomData,
        })
    }

    /// Whether the stamper gave this stamp: then it stamped its value. Numbers are compared, and nothing else.
    pub fn has_given(&self, stamp: &Stamp<J, T>) -> bool
        ensures { IsTrue result → (k : ℕ) × (slice_get self.now k ≡ Some stamp.now) }
    {
        let mut both = self.seen.again();
        both.learn(&stamp.seen);
        stamp.number < self.count
    }
}
