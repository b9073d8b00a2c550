//! What the packages of a workspace tell, by their numbers.
ghost use Rattle.std.specs.Prelude.{◌≡◌, ◌<◌, ℕ, IfOk, None, OnErr, OnOk, Some, length, replicate, slice_set};
ghost use Rattle.std.specs.List.{AllZip, filter_map};
ghost use Rattle.std.specs.List.Sorted.{IsStrictlyIncreasing};
ghost use Rattle.go_snap_core.specs.make.mirrors.Telling.{AreTold, IsToldAt, at_number};

use go_digraph_core::reach::NumberSet;
use go_path_core::text_core::add;
use go_report_core::summary_core::{ReachedSummaries, Summary, SummaryList};
use std::alloc::{AllocError, Global};
use std::marker::Model;

/// What the packages of a workspace tell that are made, by the numbers of these. It is listed in the order in which it is added, and by the number of
/// each package stands its place in this list: what is told to a package is the list, shared, with the places of those that it reaches. Contracts see
/// by the number of each package what it tells, where it is added.
pub struct Told {
    summaries: SummaryList,
    places: Vec<Option<usize>>,
}

impl Drop for Told {
    fn drop(self) {
        let Told {
            summaries: _,
            places: _,
        } = self;
    }
}

impl Model for Told {
    ghost use Rattle.std.specs.Prelude.{List, Option};
    ghost use Rattle.std.specs.Coded.{coded_list, coded_option};
    ghost use Rattle.go_report_core.specs.summary_core.Summaries.{SummaryModel};
    ghost use Rattle.go_report_core.specs.summary_core.codes.SummaryCodes.{coded_summary};
    ghost use Rattle.go_snap_core.specs.make.mirrors.Telling.{ArePlaces, by_places};

    ghost Value = { List (Option SummaryModel) };

    ghost coded = { coded_list (coded_option coded_summary) };

    ghost view = { λ t. by_places t.summaries t.places.items };

    ghost invariant = { λ t. ArePlaces t.summaries t.places.items };
}

// The place of a number, if it has one.
fn place_at(places: &[Option<usize>], number: usize) -> Option<usize>
    ensures { result ≡ at_number places.now number }
{
    match places.get(number) {
        Some(place) => *place,
        None => None,
    }
}

// The places of those of these numbers that have one.
fn places_of(
    alloc: Global,
    numbers: &[usize],
    places: &[Option<usize>],
) -> Result<Vec<usize>, AllocError>
    ensures { IfOk result (λ found. found.items ≡ filter_map (at_number places.now) numbers.now) }
{
    let mut found = Vec::with_capacity(alloc, numbers.len())?;
    for number in numbers {
        match place_at(places, *number) {
            Some(place) => add(&mut found, place)?,
            None => {}
        }
    }
    Ok(found)
}

impl Told {
    /// Nothing is told, of so many packages.
    ///
    /// # Errors
    ///
    /// `AllocError` where memory is wanting.
    pub fn new(alloc: Global, count: usize) -> Result<Told, AllocError>
        ensures { IfOk result (λ t. t ≡ replicate count None) }
    {
        let places = vec![in alloc; None; count]?;
        Ok(Told {
            summaries: SummaryList::new(alloc),
            places,
        })
    }

    /// The same once more: what is told is shared, by pieces, and the places are copied. The time is linear in the packages.
    ///
    /// # Errors
    ///
    /// `AllocError` where memory is wanting.
    pub fn copy(&self, alloc: Global) -> Result<Told, AllocError>
        ensures { IfOk result (λ t. t ≡ self.now) }
    {
        let summaries = self.summaries.share(alloc)?;
        let places = Vec::from_slice(alloc, &self.places)?;
        Ok(Told { summaries, places })
    }

    /// Adds what the package of a number tells, in the place of what was told of it.
    ///
    /// # Errors
    ///
    /// `AllocError` where memory is wanting; all is as it was then.
    pub fn add(&mut self, number: usize, summary: Summary) -> Result<(), AllocError>
        requires { number < length self.old }
        ensures added { OnOk result (self.new ≡ slice_set self.old number (Some summary)) }
        ensures kept { OnErr result (self.new ≡ self.old) }
    {
        let place = self.summaries.len();
        self.summaries.push(summary)?;
        self.places[number] = Some(place);
        Ok(())
    }

    /// What `add` makes of this, beside it: so it can be made before a step that may take no memory, and be put in the place of this by that step.
    /// What is told is shared. The time is that of `copy`.
    ///
    /// # Errors
    ///
    /// `AllocError` where memory is wanting.
    pub fn with(&self, alloc: Global, number: usize, summary: Summary) -> Result<Told, AllocError>
        requires { number < length self.now }
        ensures { IfOk result (λ t. t ≡ slice_set self.now number (Some summary)) }
    {
        let mut told = self.copy(alloc)?;
        told.add(number, summary)?;
        Ok(told)
    }

    /// What the packages of a set tell, in order of number, each of which is told of.
    ///
    /// # Errors
    ///
    /// `AllocError` where memory is wanting.
    pub(crate) fn by(&self, alloc: Global, set: &NumberSet) -> Result<ReachedSummaries, AllocError>
        requires { AreTold self.now set.now.members }
        ensures rising { IfOk result (λ _. IsStrictlyIncreasing set.now.members) }
        ensures all { IfOk result (λ ss. AllZip (IsToldAt self.now) set.now.members ss) }
    {
        let numbers = set.list(alloc)?;
        let places = places_of(alloc, &numbers, &self.places)?;
        let summaries = self.summaries.share(alloc)?;
        let reached = ReachedSummaries::new(summaries, places);
        Ok(reached)
    }
}
