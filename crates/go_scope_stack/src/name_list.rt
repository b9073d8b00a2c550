//! Lists of names, each once.
ghost use Rattle.std.specs.Prelude.{◌≡◌, [], ◌∷◌, ◌++◌, IfOk, IfErr, OnErr, OnOk, map, not, false};
ghost use Rattle.go_scope_stack.specs.Blocks.{is_listed, list_name, list_names};

use crate::sorted::{SortedNames, append};
use go_collections_core::text_core::Rule;
use std::alloc::Global;
use std::marker::Model;

/// How many names are compared one by one, which is less work than a look-up.
const FEW: usize = 8;

/// Names, each once, in the order in which they were added first. Contracts see it as their list.
pub struct NameList<'a> {
    /// The first of them, which are compared one by one.
    few: Vec<&'a str>,
    /// The others.
    more: SortedNames<'a>,
}

impl Drop for NameList<'_> {
    fn drop(self) {
        let NameList { few: _, more: _ } = self;
    }
}

impl<'a> Model for NameList<'a> {
    ghost use Rattle.std.specs.Prelude.{ℕ, List, map, ◌++◌};

    ghost Value = { List (List ℕ) };

    ghost view = { λ n. map (λ name. name.now) n.few.items ++ n.more };
}

// Whether a name is among some.
fn is_among(names: &[&str], name: &str) -> bool
    ensures { result ≡ is_listed (map (λ n. n.now) names.now) name.now }
{
    for other in names {
        if name == *other {
            return true;
        }
    }
    false
}

// Adds a name that is not among the few to these or to the others, unless it is there, and answers whether it was not.
fn add_behind<'a>(
    few: &mut Vec<&'a str>,
    more: &mut SortedNames<'a>,
    name: &'a str,
) -> Result<bool, Rule>
    requires { is_listed (map (λ n. n.now) few.old.items) name.now ≡ false }
    ensures added { IfOk result (λ added. added ≡ not (is_listed (map (λ n. n.now) few.old.items ++ more.old) name.now)) }
    ensures ok { OnOk result (map (λ n. n.now) few.new.items ++ more.new ≡ list_name (map (λ n. n.now) few.old.items ++ more.old) name.now) }
    ensures err { IfErr result (λ rule. rule ≡ Rule.M0) }
    ensures kept { OnErr result (map (λ n. n.now) few.new.items ++ more.new ≡ map (λ n. n.now) few.old.items ++ more.old) }
    ensures absent { OnErr result (is_listed (map (λ n. n.now) few.old.items ++ more.old) name.now ≡ false) }
{
    if more.is_empty() && few.len() < FEW {
        append(few, name)?;
        return Ok(true);
    }
    let added = more.insert(name)?;
    Ok(added)
}

impl<'a> NameList<'a> {
    /// No name.
    pub fn new(alloc: Global) -> Self
        ensures { result ≡ [] }
    {
        NameList {
            few: Vec::new(alloc),
            more: SortedNames::new(alloc),
        }
    }

    /// Adds a name, unless it is there, and answers whether it was not.
    ///
    /// # Errors
    ///
    /// `Rule::M0` where the name is not there and memory is wanting. The list is then as it was.
    pub fn add(&mut self, name: &'a str) -> Result<bool, Rule>
        ensures added { IfOk result (λ added. added ≡ not (is_listed self.old name.now)) }
        ensures ok { OnOk result (self.new ≡ list_name self.old name.now) }
        ensures err { IfErr result (λ rule. rule ≡ Rule.M0) }
        ensures kept { OnErr result (self.new ≡ self.old) }
        ensures absent { OnErr result (is_listed self.old name.now ≡ false) }
    {
        if is_among(self.few.as_slice(), name) {
            return Ok(false);
        }
        add_behind(&mut self.few, &mut self.more, name)
    }

    /// Adds names, each unless it is there.
    ///
    /// # Errors
    ///
    /// `Rule::M0` where memory is wanting. Some of the names may have been added then.
    pub fn add_all(&mut self, more: &[&'a str]) -> Result<(), Rule>
        ensures ok { OnOk result (self.new ≡ list_names self.old (map (λ n. n.now) more.now)) }
        ensures err { IfErr result (λ rule. rule ≡ Rule.M0) }
    {
        for name in more {
            let _ = self.add(name)?;
        }
        Ok(())
    }

    /// The names, in their order. Errors: M0 where memory is wanting.
    pub fn to_list(&self, alloc: Global) -> Result<Vec<&'a str>, Rule>
        ensures ok { IfOk result (λ list. map (λ n. n.now) list.items ≡ self.now) }
        ensures err { IfErr result (λ rule. rule ≡ Rule.M0) }
    {
        let mut list = Vec::new(alloc);
        for name in &self.few {
            append(&mut list, name)?;
        }
        for other in self.more.names() {
            append(&mut list, other)?;
        }
        Ok(list)
    }
}
