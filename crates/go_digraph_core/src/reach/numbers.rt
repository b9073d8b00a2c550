//! Sets of numbers below a bound, as bits.
ghost use Rattle.std.specs.Prelude.{◌≡◌, ◌<◌, ◌≤◌, ◌↔◌, ◌⊎◌, ℕ, All, Contains, IfOk, bit_or, length, slice_index};
ghost use Rattle.std.specs.List.Sorted.{IsStrictlyIncreasing};
ghost use Rattle.go_digraph_core.specs.reach.Numbers.{no_numbers};
ghost use Rattle.go_digraph_core.specs.reach.mirrors.Words.{has_bit};

use std::alloc::{AllocError, Global};
use std::marker::Model;

/// A set of numbers below a bound. Contracts see it as the bound and the list of its numbers in rising order.
pub struct NumberSet {
    bound: usize,
    words: Vec<u64>,
}

impl Drop for NumberSet {
    fn drop(self) {
        let NumberSet { bound: _, words: _ } = self;
    }
}

impl Model for NumberSet {
    ghost use Rattle.go_digraph_core.specs.reach.Numbers.{Numbers};
    ghost use Rattle.go_digraph_core.specs.reach.mirrors.Words.{numbers_of, AreWords};

    ghost Value = { Numbers };

    ghost view = { λ s. numbers_of s.bound s.words.items };

    ghost invariant = { λ s. AreWords s.bound s.words.items };
}

// The word at a place, 0 past the end.
fn word_at(words: &[u64], place: usize) -> u64
    ensures { result ≡ slice_index words.now place }
{
    if place < words.len() { words[place] } else { 0 }
}

// Whether the words have the bit of a number.
fn has_bit(words: &[u64], number: usize) -> bool
    ensures { result ≡ has_bit words.now number }
{
    (word_at(words, number / 64) >> (number % 64)) & 1 == 1
}

// Sets each bit of the one list of words in the other.
fn unite(words: &mut [u64], more: &[u64])
    requires { length more.now ≤ length words.old }
    ensures { (i : ℕ) → slice_index words.new i ≡ bit_or (slice_index words.old i) (slice_index more.now i) }
{
    for (i, word) in more.iter().enumerate() {
        words[i] |= *word;
    }
}

impl NumberSet {
    /// The set without a number, for numbers below a bound.
    ///
    /// # Errors
    ///
    /// `AllocError` for want of memory.
    pub fn empty(alloc: Global, bound: usize) -> Result<NumberSet, AllocError>
        ensures { IfOk result (λ s. s ≡ no_numbers bound) }
    {
        Ok(NumberSet {
            bound,
            words: Vec::from_elem(alloc, 0u64, bound / 64 + 1)?,
        })
    }

    /// Puts a number below the bound into the set.
    pub fn insert(&mut self, number: usize)
        requires { number < self.old.bound }
        ensures bound { self.new.bound ≡ self.old.bound }
        ensures members { (k : ℕ) → Contains self.new.members k ↔ ((k ≡ number) ⊎ Contains self.old.members k) }
    {
        let word = self.words[number / 64] | (1 << (number % 64));
        self.words[number / 64] = word;
    }

    /// Puts all numbers of another set, whose bound is no higher, into this one, 64 at a time.
    pub fn add_all(&mut self, other: &NumberSet)
        requires { other.now.bound ≤ self.old.bound }
        ensures bound { self.new.bound ≡ self.old.bound }
        ensures members { (k : ℕ) → Contains self.new.members k ↔ (Contains self.old.members k ⊎ Contains other.now.members k) }
    {
        unite(&mut self.words, &other.words);
    }

    /// The numbers of the set, each once and in rising order. All lie below the bound.
    ///
    /// # Errors
    ///
    /// `AllocError` for want of memory.
    pub fn list(&self, alloc: Global) -> Result<Vec<usize>, AllocError>
        ensures all { IfOk result (λ numbers. numbers.items ≡ self.now.members) }
        ensures rising { IsStrictlyIncreasing self.now.members }
        ensures below { All (λ k. k < self.now.bound) self.now.members }
    {
        let mut numbers = Vec::new(alloc);
        for number in 0..self.bound {
            if has_bit(&self.words, number) {
                numbers.push(number)?;
            }
        }
        Ok(numbers)
    }
}
