//! Names that were seen.
ghost use Rattle.std.specs.Prelude.{◌≡◌, ℕ, List, [], ◌∷◌, ◌++◌, IfOk, OnOk, map, not};
ghost use Rattle.go_term_core.specs.settling.Settled.{is_among_names};

use std::alloc::{AllocError, Global};
use std::collections::BTreeSet;
use std::marker::Model;

/// How many names are searched one by one.
const FEW: usize = 8;

/// A set of names. Contracts see a list that has them, and promise of it which names it has. The first few are searched one by one, the
/// others by their order.
#[derive(Drop)]
pub struct SeenNames<'a> {
    few: Vec<&'a str>,
    more: BTreeSet<&'a str>,
}

impl<'a> Model for SeenNames<'a> {
    ghost use Rattle.std.specs.Prelude.{ℕ, List, map, ◌++◌};

    ghost Value = { List (List ℕ) };

    ghost view = { λ s. map (λ n. n.now) s.few.items ++ map (λ n. n.now) s.more.keys };
}

// Whether a name is among these.
fn is_among(names: &[&str], name: &str) -> bool
    ensures { result ≡ is_among_names (map (λ n. n.now) names.now) name.now }
{
    for other in names {
        if *other == name {
            return true;
        }
    }
    false
}

// Adds a name to a set, unless it is there, and answers whether it was not.
fn insert<'a>(names: &mut BTreeSet<&'a str>, name: &'a str) -> Result<bool, AllocError>
    ensures added { IfOk result (λ is_new. is_new ≡ not (is_among_names (map (λ n. n.now) names.old.keys) name.now)) }
    ensures seen { OnOk result ((n : List ℕ) → is_among_names (map (λ n. n.now) names.new.keys) n ≡ is_among_names (name.now ∷ map (λ n. n.now) names.old.keys) n) }
{
    match names.insert(name) {
        Ok(is_new) => Ok(is_new),
        Err(_) => Err(AllocError),
    }
}

// Adds a name to a list.
fn push<'a>(names: &mut Vec<&'a str>, name: &'a str) -> Result<(), AllocError>
    ensures { OnOk result (map (λ n. n.now) names.new.items ≡ map (λ n. n.now) names.old.items ++ name.now ∷ []) }
{
    names.push(name)?;
    Ok(())
}

impl<'a> SeenNames<'a> {
    /// No name.
    pub fn new(alloc: Global) -> Self
        ensures { result ≡ [] }
    {
        SeenNames {
            few: Vec::new(alloc),
            more: BTreeSet::new(alloc),
        }
    }

    /// Adds a name, unless it is there, and answers whether it was not. Time grows with the logarithm of how many there are.
    pub fn add(&mut self, name: &'a str) -> Result<bool, AllocError>
        ensures added { IfOk result (λ is_new. is_new ≡ not (is_among_names self.old name.now)) }
        ensures seen { OnOk result ((n : List ℕ) → is_among_names self.new n ≡ is_among_names (name.now ∷ self.old) n) }
    {
        if is_among(&self.few, name) {
            return Ok(false);
        }
        if self.few.len() < FEW && self.more.is_empty() {
            push(&mut self.few, name)?;
            return Ok(true);
        }
        insert(&mut self.more, name)
    }
}
