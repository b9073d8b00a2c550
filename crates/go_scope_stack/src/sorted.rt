//! Lists of names, each once, that are found by their order.
ghost use Rattle.std.specs.Prelude.{◌≡◌, ◌↔◌, ℕ, List, [], ◌∷◌, ◌++◌, IfOk, IfErr, IsTrue, OnErr, OnOk, map, not, false};
ghost use Rattle.go_scope_stack.specs.Blocks.{is_listed, list_name};

use go_collections_core::text_core::Rule;
use std::alloc::Global;
use std::collections::BTreeSet;
use std::marker::Model;

/// Names, each once, in the order in which they were added first, that are found by their order. Contracts see it as their list.
pub(crate) struct SortedNames<'a> {
    names: Vec<&'a str>,
    /// The same names, to be looked up.
    known: BTreeSet<&'a str>,
}

impl Drop for SortedNames<'_> {
    fn drop(self) {
        let SortedNames { names: _, known: _ } = self;
    }
}

impl<'a> Model for SortedNames<'a> {
    ghost use Rattle.std.specs.Prelude.{◌≡◌, ℕ, List, map};
    ghost use Rattle.go_scope_stack.specs.Blocks.{is_listed};

    ghost Value = { List (List ℕ) };

    ghost view = { λ n. map (λ name. name.now) n.names.items };

    ghost invariant = { λ n. (name : List ℕ) → is_listed (map (λ k. k.now) n.known.keys) name ≡ is_listed (map (λ k. k.now) n.names.items) name };
}

// Adds a name to a list.
pub(crate) fn append<'a>(names: &mut Vec<&'a str>, name: &'a str) -> Result<(), Rule>
    ensures ok { OnOk result (map (λ n. n.now) names.new.items ≡ map (λ n. n.now) names.old.items ++ name.now ∷ []) }
    ensures err { IfErr result (λ rule. rule ≡ Rule.M0) }
    ensures kept { OnErr result (names.new.items ≡ names.old.items) }
{
    match names.push(name) {
        Ok(()) => Ok(()),
        Err(_) => Err(Rule::M0),
    }
}

// Adds a name to a set that may have it. Errors: M0; the set is then as it was.
fn note<'a>(known: &mut BTreeSet<&'a str>, name: &'a str) -> Result<(), Rule>
    ensures ok { OnOk result ((n : List ℕ) → is_listed (map (λ k. k.now) known.new.keys) n ≡ is_listed (map (λ k. k.now) known.old.keys ++ name.now ∷ []) n) }
    ensures err { IfErr result (λ rule. rule ≡ Rule.M0) }
    ensures kept { OnErr result (known.new.keys ≡ known.old.keys) }
{
    match known.insert(name) {
        Ok(_) => Ok(()),
        Err(_) => Err(Rule::M0),
    }
}

impl<'a> SortedNames<'a> {
    /// No name.
    pub(crate) fn new(alloc: Global) -> Self
        ensures { result ≡ [] }
    {
        SortedNames {
            names: Vec::new(alloc),
            known: BTreeSet::new(alloc),
        }
    }

    /// Whether there is no name.
    pub(crate) fn is_empty(&self) -> bool
        ensures { IsTrue result ↔ (self.now ≡ []) }
    {
        self.names.is_empty()
    }

    /// The names, in their order.
    pub(crate) fn names(&self) -> &[&'a str]
        ensures { map (λ n. n.now) result.now ≡ self.now }
    {
        self.names.as_slice()
    }

    // Whether a name is among them.
    fn has(&self, name: &str) -> bool
        ensures { result ≡ is_listed self.now name.now }
    {
        self.known.contains(name)
    }

    /// Adds a name, unless it is there, and answers whether it was not. Errors: M0; the names are then as they were.
    pub(crate) fn insert(&mut self, name: &'a str) -> Result<bool, Rule>
        ensures added { IfOk result (λ added. added ≡ not (is_listed self.old name.now)) }
        ensures ok { OnOk result (self.new ≡ list_name self.old name.now) }
        ensures err { IfErr result (λ rule. rule ≡ Rule.M0) }
        ensures kept { OnErr result (self.new ≡ self.old) }
        ensures absent { OnErr result (is_listed self.old name.now ≡ false) }
    {
        if self.has(name) {
            return Ok(false);
        }
        let before = self.names.len();
        append(&mut self.names, name)?;
        match note(&mut self.known, name) {
            Ok(()) => Ok(true),
            Err(rule) => {
                self.names.truncate(before);
                Err(rule)
            }
        }
    }
}
