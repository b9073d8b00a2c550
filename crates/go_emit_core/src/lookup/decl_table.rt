//! What declarations outside functions come to.
ghost use Rattle.std.specs.Prelude.{◌≡◌, IfOk, map};
ghost use Rattle.std.specs.Map.{lookup};
ghost use Rattle.go_emit_core.specs.lookup.Places.{spotted_meaning, decl_spot};
ghost use Rattle.go_emit_core.specs.lookup.mirrors.Spotting.{IsNumbered, item_shown, same_key, spot_shown};

use go_code_core::fragments::Meaning;
use go_table_core::path_core::ImportPath;
use go_term_core::decl_core::DeclRef;
use std::alloc::{AllocError, Global};
use std::collections::HashMap;
use std::marker::Model;

/// Where something is declared outside functions.
#[derive(Clone, Copy, PartialEq, Eq, Hash)]
pub struct DeclSpot<'a> {
    /// The path of its package.
    pub path: &'a str,
    /// The number of its file in order of name, from 0.
    pub file: usize,
    /// Its number among the identifiers that the file declares outside function bodies.
    pub number: usize,
}

impl<'a> DeclSpot<'a> {
    /// The place of a declaration of the package of a path.
    pub fn new(path: &'a ImportPath, decl: DeclRef) -> DeclSpot<'a>
        ensures { spot_shown result ≡ decl_spot path.now decl }
    {
        DeclSpot {
            path: path.as_str(),
            file: decl.file,
            number: decl.number,
        }
    }
}

/// A declaration, and what it comes to.
#[derive(Clone, Copy)]
pub struct SpottedDecl<'a> {
    pub spot: DeclSpot<'a>,
    pub meaning: Meaning,
}

/// What declarations come to, by where they stand. Contracts see the list of both.
pub struct DeclTable<'a> {
    items: Vec<SpottedDecl<'a>>,
    /// The number of the first item of each place.
    numbers: HashMap<DeclSpot<'a>, usize>,
}

impl Drop for DeclTable<'_> {
    fn drop(self) {
        let DeclTable {
            items: _,
            numbers: _,
        } = self;
    }
}

impl<'a> Model for DeclTable<'a> {
    ghost use Rattle.std.specs.Prelude.{map};
    ghost use Rattle.go_emit_core.specs.lookup.Places.{Spotted};
    ghost use Rattle.go_emit_core.specs.lookup.mirrors.Spotting.{IsNumbered, item_shown};

    ghost Value = { Spotted };

    ghost view = { λ t. map item_shown t.items.items };

    ghost invariant = { λ t. IsNumbered t.numbers t.items.items };
}

// The number that a table has at a place.
fn number_in<'a>(numbers: &HashMap<DeclSpot<'a>, usize>, spot: DeclSpot<'a>) -> Option<usize>
    ensures { result ≡ lookup (same_key spot.entry) numbers.now.entries }
{
    numbers.get(&spot).copied()
}

// The number of the first item of each place.
fn numbers_of<'a>(
    alloc: Global,
    items: &[SpottedDecl<'a>],
) -> Result<HashMap<DeclSpot<'a>, usize>, AllocError>
    ensures { IfOk result (λ numbers. IsNumbered numbers items.now) }
{
    let mut numbers = HashMap::new(alloc);
    // The first of several at one place is put in last, and stays.
    for number in (0..items.len()).rev() {
        numbers.insert(items[number].spot, number)?;
    }
    Ok(numbers)
}

impl<'a> DeclTable<'a> {
    /// What declarations come to: of several at one place the first counts.
    ///
    /// # Errors
    ///
    /// `AllocError` where memory is wanting.
    pub fn new(alloc: Global, items: Vec<SpottedDecl<'a>>) -> Result<DeclTable<'a>, AllocError>
        ensures { IfOk result (λ t. t ≡ map item_shown items.entry.items) }
    {
        let numbers = numbers_of(alloc, &items)?;
        Ok(DeclTable { items, numbers })
    }

    /// What the declaration at a place comes to: none where the table has none there.
    pub fn meaning(&self, path: &ImportPath, decl: DeclRef) -> Option<Meaning>
        ensures { result ≡ spotted_meaning self.now (decl_spot path.now decl) }
    {
        let key = DeclSpot::new(path, decl);
        match number_in(&self.numbers, key) {
            Some(number) => Some(self.items[number].meaning),
            None => None,
        }
    }
}
