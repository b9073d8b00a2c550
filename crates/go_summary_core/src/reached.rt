//! What the packages tell that a package reaches.
ghost use Rattle.std.specs.Prelude.{◌≡◌, ◌↔◌, ◌<◌, ℕ, [], All, IfOk, IsTrue, Some, length, map, slice_get};
ghost use Rattle.std.specs.Option.{option_map};
ghost use Rattle.go_summary_core.specs.Summaries.{IsOfOne};
ghost use Rattle.go_summary_core.specs.Views.{PathsAreApart, types_told};

use crate::list::SummaryList;
use crate::summary::Summary;
use crate::view::add_types;
use go_table_core::TypeTable;
use go_term_core::text_core::add;
use std::alloc::{AllocError, Global};
use std::marker::Model;

/// What the packages tell that a package reaches: a list that it shares with others, and the places in it. Contracts see the summaries at these
/// places, in order.
///
/// The Go specification, "Import declarations".
pub struct ReachedSummaries {
    told: SummaryList,
    places: Vec<usize>,
}

impl Drop for ReachedSummaries {
    fn drop(self) {
        let ReachedSummaries { told: _, places: _ } = self;
    }
}

impl Model for ReachedSummaries {
    ghost use Rattle.std.specs.Prelude.{List};
    ghost use Rattle.std.specs.Coded.{coded_list};
    ghost use Rattle.go_summary_core.specs.Summaries.{SummaryModel};
    ghost use Rattle.go_summary_core.specs.codes.SummaryCodes.{coded_summary};
    ghost use Rattle.go_summary_core.specs.Told.{AreAt, at_places};

    ghost Value = { List SummaryModel };

    ghost coded = { coded_list coded_summary };

    ghost view = { λ r. at_places r.told r.places.items };

    ghost invariant = { λ r. AreAt r.told r.places.items };
}

impl ReachedSummaries {
    /// The summaries at these places of a list.
    pub fn new(told: SummaryList, places: Vec<usize>) -> ReachedSummaries
        requires { All (λ (p : ℕ). p < length told) places.items }
        ensures { map Some result ≡ map (slice_get told) places.items }
    {
        // All of each summary is of one package.
        let _count = told.len();
        ReachedSummaries { told, places }
    }

    /// No summaries: those of a package that reaches no other.
    pub fn none(alloc: Global) -> ReachedSummaries
        ensures { result ≡ [] }
    {
        ReachedSummaries::new(SummaryList::new(alloc), Vec::new(alloc))
    }

    /// The same summaries once more: the list that they stand in is shared, their places are copied. The time is linear in the places, of which each
    /// is a number.
    ///
    /// # Errors
    ///
    /// `AllocError` where memory is wanting.
    pub fn share(&self, alloc: Global) -> Result<ReachedSummaries, AllocError>
        ensures { IfOk result (λ r. r ≡ self.now) }
    {
        let shared = self.told.share(alloc)?;
        let places = Vec::from_slice(alloc, &self.places)?;
        Ok(ReachedSummaries {
            told: shared,
            places,
        })
    }

    /// How many summaries there are. Each of them is of one package.
    pub fn len(&self) -> usize
        ensures value { result ≡ length self.now }
        ensures own { All IsOfOne self.now }
    {
        self.places.len()
    }

    /// The summary of a number, where there is one.
    pub fn get(&self, number: usize) -> Option<&Summary>
        ensures { option_map (λ s. s.now) result ≡ slice_get self.now number }
    {
        if number < self.places.len() {
            self.told.get(self.places[number])
        } else {
            None
        }
    }

    /// Where the summary of a number stands in the list that it is shared from. No contract says so: inputs of one batch share a list, so it is what to
    /// remember a summary by that is looked up for each of them.
    pub fn place(&self, number: usize) -> usize {
        match self.places.get(number) {
            Some(place) => *place,
            None => 0,
        }
    }

    /// The summaries, each a handle.
    ///
    /// # Errors
    ///
    /// `AllocError` where memory is wanting.
    pub fn list(&self, alloc: Global) -> Result<Vec<Summary>, AllocError>
        ensures { IfOk result (λ v. v.items ≡ self.now) }
    {
        let mut summaries = Vec::with_capacity(alloc, self.len())?;
        for number in 0..self.len() {
            match self.get(number) {
                Some(summary) => add(&mut summaries, summary.share()?)?,
                None => unreachable!(),
            }
        }
        Ok(summaries)
    }

    /// The types of the packages, where each path is there once: one package's behind another's, in order. They are shared. The time is linear in the
    /// packages.
    ///
    /// # Errors
    ///
    /// `AllocError` where memory is wanting.
    pub fn types(&self, alloc: Global) -> Result<TypeTable, AllocError>
        requires { PathsAreApart self.now }
        ensures { IfOk result (λ t. t ≡ types_told self.now) }
    {
        let mut types = TypeTable::new(alloc);
        for index in 0..self.len() {
            match self.get(index) {
                Some(summary) => add_types(&mut types, summary)?,
                None => unreachable!(),
            }
        }
        Ok(types)
    }

    /// Whether two are the same summaries in order, wherever they stand. It takes no memory; the time that it takes is linear in the one and in
    /// the other.
    pub fn is_same(&self, other: &ReachedSummaries) -> bool
        ensures { IsTrue result ↔ (self.now ≡ other.now) }
    {
        if self.len() != other.len() {
            return false;
        }
        for number in 0..self.len() {
            if !self.is_same_at(other, number) {
                return false;
            }
        }
        true
    }

    // Whether two have the same summary of a number, or have none both.
    fn is_same_at(&self, other: &ReachedSummaries, number: usize) -> bool
        ensures { IsTrue result ↔ (slice_get self.now number ≡ slice_get other.now number) }
    {
        match (self.get(number), other.get(number)) {
            (Some(one), Some(other)) => one.is_same(other),
            (None, None) => true,
            (Some(_), None) => false,
            (None, Some(_)) => false,
        }
    }
}
