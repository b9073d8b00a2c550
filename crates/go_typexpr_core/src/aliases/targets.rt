//! What aliases mean.
ghost use Rattle.std.specs.Prelude.{◌≡◌, IfOk, is_some, map, None, option_map, slice_index_or};
ghost use Rattle.go_term_core.specs.Shapes.{shape};
ghost use Rattle.go_typexpr_core.specs.aliases.Aliases.{alias_ends, alias_in, decls_of, DeclsRise};
ghost use Rattle.go_typexpr_core.specs.aliases.Shown.{alias_shown};
ghost use Rattle.go_typexpr_core.specs.aliases.mirrors.Numbered.{ended, ends_in, type_of};
ghost use Rattle.std.specs.Prelude.{slice_get};

use crate::aliases::written::{Alias, next_aliases, number};
use go_digraph_core::chain::chain_ends;
use go_path_core::ImportPath;
use go_term_core::decl_core::DeclRef;
use go_term_core::{TypeTerm, copy};
use std::alloc::{AllocError, Global};
use std::marker::Model;

/// The aliases that a package declares, with their targets. Contracts see each with its target, in order of file and number.
#[derive(Drop)]
pub struct Aliases {
    written: Vec<Alias>,
    /// Of each alias the number of the one at which its chain ends.
    ends: Vec<Option<usize>>,
}

impl Model for Aliases {
    ghost use Rattle.std.specs.Prelude.{List, map};
    ghost use Rattle.go_term_core.specs.Terms.{Term};
    ghost use Rattle.go_term_core.specs.decl_core.declared.keys.DeclRef.{DeclRef as TheRef};
    ghost use Rattle.go_typexpr_core.specs.aliases.Aliases.{decls_of, DeclsRise};
    ghost use Rattle.go_typexpr_core.specs.aliases.Shown.{alias_shown};
    ghost use Rattle.go_typexpr_core.specs.aliases.codes.AliasCodes.{coded_aliases};
    ghost use Rattle.go_typexpr_core.specs.aliases.mirrors.Numbered.{ends_in};

    ghost Value = { List (TheRef × Term) };

    ghost coded = { coded_aliases };

    ghost view = { λ a. ends_in (map alias_shown a.written.items) a.ends.items };

    ghost invariant = { λ a. DeclsRise (decls_of (map alias_shown a.written.items)) };
}

// The number at which a chain ends, or none where it has no end.
fn end_at(ends: &[Option<usize>], number: usize) -> Option<usize>
    ensures { result ≡ slice_index_or ends.now number None }
{
    if number < ends.len() {
        ends[number]
    } else {
        None
    }
}

// What is written of the alias of a number.
fn written_at(alloc: Global, aliases: &[Alias], number: usize) -> Result<TypeTerm, AllocError>
    ensures { IfOk result (λ t. shape t ≡ type_of (slice_get (map alias_shown aliases.now) number)) }
{
    match aliases.get(number) {
        Some(alias) => copy(alloc, &alias.term),
        None => Ok(TypeTerm::NoType),
    }
}

// What is written of the alias at which a chain ends.
fn ended(alloc: Global, aliases: &[Alias], end: Option<usize>) -> Result<TypeTerm, AllocError>
    ensures { IfOk result (λ t. shape t ≡ ended (map alias_shown aliases.now) end) }
{
    match end {
        Some(number) => written_at(alloc, aliases, number),
        None => Ok(TypeTerm::NoType),
    }
}

impl Aliases {
    // The aliases whose chains end at these numbers.
    fn with(written: Vec<Alias>, ends: Vec<Option<usize>>) -> Aliases
        requires { DeclsRise (decls_of (map alias_shown written.items)) }
        ensures { result ≡ ends_in (map alias_shown written.items) ends.items }
    {
        Aliases { written, ends }
    }

    /// Whether a declaration of the package is an alias.
    pub fn has(&self, decl: DeclRef) -> bool
        ensures { result ≡ is_some (alias_in self.now decl) }
    {
        number(&self.written, decl).is_some()
    }

    /// The target of an alias, or none where the declaration is no alias of the package. A target is no type where it is refused, and
    /// where the chain of aliases has no end. It takes a binary search, and a copy of the target.
    ///
    /// # Errors
    ///
    /// `AllocError` where memory is wanting.
    pub fn target(&self, alloc: Global, decl: DeclRef) -> Result<Option<TypeTerm>, AllocError>
        ensures { IfOk result (λ t. option_map shape t ≡ alias_in self.now decl) }
    {
        match number(&self.written, decl) {
            Some(place) => Ok(Some(ended(alloc, &self.written, end_at(&self.ends, place))?)),
            None => Ok(None),
        }
    }
}

/// The aliases of the package of a path with their targets, from what is written of them, in order of file and number. It takes time that is
/// linear in their number, but for a binary search for each.
///
/// # Errors
///
/// `AllocError` where memory is wanting.
pub fn aliases_of(
    alloc: Global,
    path: &ImportPath,
    written: Vec<Alias>,
) -> Result<Aliases, AllocError>
    requires { DeclsRise (decls_of (map alias_shown written.items)) }
    ensures { IfOk result (λ aliases. aliases ≡ alias_ends (map alias_shown written.items) path.now) }
{
    let next = next_aliases(alloc, path, &written)?;
    let ends = chain_ends(alloc, &next)?;
    Ok(Aliases::with(written, ends))
}
