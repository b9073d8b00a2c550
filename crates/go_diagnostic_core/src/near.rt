//! Names that are spelled nearly alike.
ghost use Rattle.std.specs.Prelude.{◌≡◌, ◌++◌, ◌∷◌, [], List, ℕ, Some, IfOk, MatchOption, map, string_bytes};
ghost use Rattle.std.specs.Bool.{MatchBool};
ghost use Rattle.std.specs.Option.{option_map};
ghost use Rattle.go_diagnostic_core.specs.Near.{IsBest, IsDistance, IsNear, IsOfLikeLength, IsOfOtherLength, IsSuggested, nearer, reach};
ghost use Rattle.go_diagnostic_core.specs.mirrors.Nears.{near_of, near_shown};

use std::alloc::{AllocError, Global};
use strsim::osa_distance;

// How many letters may be amiss in a spelling: none of up to two, one of up to five, and of more a third.
fn reach(spelled: &str) -> usize
    ensures { result ≡ reach spelled.now }
{
    let letters = spelled.len();
    if letters < 3 {
        return 0;
    }
    if letters < 6 {
        return 1;
    }
    letters / 3
}

// How far a name is from a spelling: nothing where they differ in upper and lower case alone, and else by how many letters, of which two that are exchanged
// count as one.
fn distance(alloc: Global, spelled: &str, name: &str) -> Result<usize, AllocError>
    ensures { IfOk result (IsDistance spelled.now name.now) }
{
    if spelled.eq_ignore_ascii_case(name) {
        return Ok(0);
    }
    osa_distance(alloc, spelled, name)
}

// Whether a name is so much longer or shorter than a spelling that it is not near.
fn is_of_other_length(spelled: &str, name: &str) -> bool
    ensures { MatchBool result (IsOfOtherLength spelled.now name.now) (IsOfLikeLength spelled.now name.now) }
{
    let most = reach(spelled);
    name.len().saturating_sub(spelled.len()) > most
        || spelled.len().saturating_sub(name.len()) > most
}

// How far a name is from a spelling that may be meant for it: another one, and near enough. `None` where it is not.
fn nearness(alloc: Global, spelled: &str, name: &str) -> Result<Option<usize>, AllocError>
    ensures { IfOk result (λ found. MatchOption found ((far : ℕ) → IsNear spelled.now name.now far → ⊥) (IsNear spelled.now name.now)) }
{
    if spelled == name || is_of_other_length(spelled, name) {
        return Ok(None);
    }
    let far = distance(alloc, spelled, name)?;
    if far > reach(spelled) {
        return Ok(None);
    }
    Ok(Some(far))
}

// A name, with how far it is from a spelling.
#[derive(Clone, Copy)]
struct Near<'n> {
    name: &'n str,
    far: usize,
}

// The nearer of two names, and of equally near ones the first.
fn nearer<'n>(best: Option<Near<'n>>, name: &'n str, far: usize) -> Near<'n>
    ensures { Some (near_of result) ≡ nearer (near_shown best.entry) name.now far }
{
    match best {
        Some(found) if found.far <= far => found,
        _ => Near { name, far },
    }
}

// The best of some names with one more.
#[tactic(auto, using(crate::proofs::Best::best_passed))]
fn with_name<'n>(
    alloc: Global,
    best: Option<Near<'n>>,
    name: &'n str,
    spelled: &str,
) -> Result<Option<Near<'n>>, AllocError>
    ensures { IfOk result (λ next. (names : List (List ℕ)) → IsBest spelled.now names (near_shown best.entry) → IsBest spelled.now (names ++ name.now ∷ []) (near_shown next)) }
{
    match nearness(alloc, spelled, name)? {
        Some(far) => Ok(Some(nearer(best, name, far))),
        None => Ok(best),
    }
}

// The name that is nearest to a spelling among several, with how far it is.
fn best_of<'n>(
    alloc: Global,
    names: &'n [String],
    spelled: &str,
) -> Result<Option<Near<'n>>, AllocError>
    ensures { IfOk result (λ best. IsBest spelled.now (map string_bytes names.now) (near_shown best)) }
{
    let mut best = None;
    for name in names {
        best = with_name(alloc, best, name.as_str(), spelled)?;
    }
    Ok(best)
}

/// The name among several that is nearest to a spelling, and of equally near ones the first. `None` where none is near. Another name is near where it has
/// the same letters but for upper and lower case, or where few letters are amiss: none of a spelling of up to two bytes, one of up to five, and a third of
/// more; two neighbours that are exchanged count as one.
///
/// # Errors
///
/// `AllocError` where memory is wanting.
pub fn nearest<'n>(
    alloc: Global,
    names: &'n [String],
    spelled: &str,
) -> Result<Option<&'n str>, AllocError>
    ensures { IfOk result (λ found. IsSuggested spelled.now (map string_bytes names.now) (option_map (λ n. n.now) found)) }
{
    match best_of(alloc, names, spelled)? {
        Some(found) => Ok(Some(found.name)),
        None => Ok(None),
    }
}
