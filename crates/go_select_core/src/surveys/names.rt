//! What is known of names, as a package sees them.
ghost use Rattle.std.specs.Prelude.{◌≡◌, ℕ, List, Some, None, if◌then◌else◌, IfOk, OnOk, not, ◌&&◌, ◌||◌};
ghost use Rattle.std.specs.Str.{bytes_eq, chars};
ghost use Rattle.go_path_core.specs.text_core.Text.{exported};
ghost use Rattle.go_select_core.specs.mirrors.Names.{identifier_of, key_shown, same_identifier, names_of, known_of};
ghost use Rattle.go_select_core.specs.surveys.mirrors.Seen.{seen_of, first_seen, has_word, has_hidden};

use crate::{Id, Known, Names};
use go_path_core::ImportPath;
use go_path_core::text_core::is_exported;
use std::alloc::{AllocError, Global};
use std::collections::{BTreeMap, BTreeSet};

// Whether an identifier is the one that its name is in a package.
fn is_of(id: Id<'_>, from: &ImportPath) -> bool
    ensures { result ≡ bytes_eq id.entry.1.now (identifier_of id.entry.0.now from.now).1 }
{
    let (name, home) = id;
    if is_exported(name) {
        home == ""
    } else {
        home == from.as_str()
    }
}

// Notes what is known of a name, unless it is there.
fn put<'a>(
    known: &mut BTreeMap<&'a str, Known<'a>>,
    name: &'a str,
    new: Known<'a>,
) -> Result<(), AllocError>
    ensures { OnOk result ((n : List ℕ) → seen_of known.new.entries n ≡ first_seen (seen_of known.old.entries n) (if bytes_eq name.now n then Some new.entry else None)) }
{
    if known.contains_key(name) {
        return Ok(());
    }
    match known.insert(name, new) {
        Ok(_) => Ok(()),
        Err(_) => Err(AllocError),
    }
}

// Notes what is known of an identifier by its name, where it is the one that the name is in a package.
fn put_if<'a>(
    known: &mut BTreeMap<&'a str, Known<'a>>,
    id: Id<'a>,
    new: Known<'a>,
    from: &ImportPath,
) -> Result<(), AllocError>
    ensures { OnOk result ((n : List ℕ) → seen_of known.new.entries n ≡ first_seen (seen_of known.old.entries n) (if same_identifier (identifier_of n from.now) (key_shown id.entry) then Some new.entry else None)) }
{
    if is_of(id, from) {
        return put(known, id.0, new);
    }
    Ok(())
}

/// What is known of the identifiers that names are in a package, by these names.
pub(crate) fn known_from<'a>(
    alloc: Global,
    names: &Names<'a>,
    from: &ImportPath,
) -> Result<BTreeMap<&'a str, Known<'a>>, AllocError>
    ensures { IfOk result (λ known. (n : List ℕ) → seen_of known.entries n ≡ known_of (names_of names.now) (identifier_of n from.now)) }
{
    let mut known = BTreeMap::new(alloc);
    'names: for (id, new) in &names.known {
        put_if(&mut known, *id, *new, from)?;
    }
    Ok(known)
}

// Adds the name of an identifier, unless it is exported.
fn add_if<'a>(hidden: &mut BTreeSet<&'a str>, id: Id<'a>) -> Result<(), AllocError>
    ensures { OnOk result ((n : List ℕ) → has_word hidden.new.keys n ≡ (has_word hidden.old.keys n || (bytes_eq n id.entry.0.now && not (exported (chars id.entry.0.now))))) }
{
    if is_exported(id.0) {
        return Ok(());
    }
    match hidden.insert(id.0) {
        Ok(_) => Ok(()),
        Err(_) => Err(AllocError),
    }
}

/// The names that are not exported, in whichever package they are written.
pub(crate) fn hidden_in<'a>(
    alloc: Global,
    names: &Names<'a>,
) -> Result<BTreeSet<&'a str>, AllocError>
    ensures { IfOk result (λ hidden. (n : List ℕ) → has_word hidden.keys n ≡ has_hidden (names_of names.now) n) }
{
    let mut hidden = BTreeSet::new(alloc);
    'names: for (id, _) in &names.known {
        add_if(&mut hidden, *id)?;
    }
    Ok(hidden)
}
