//! What is seen of packages, and the parts that are made over it.
ghost use Rattle.std.specs.Prelude.{◌≡◌, ◌⊎◌, ◌++◌, ◌∷◌, [], IfOk, IsTrue, OnOk, false};
ghost use Rattle.go_typexpr_core.specs.entry.Showing.{with_shown};
ghost use Rattle.go_summary_core.specs.declared_core.Packages.{with_faces};
ghost use Rattle.go_summary_core.specs.Summaries.{IsOfOne, path_of};
ghost use Rattle.go_summary_core.specs.Views.{PathsAreApart};
ghost use Rattle.go_package_core.specs.package_part.Inputs.{path_in};
ghost use Rattle.go_package_core.specs.package_part.Parts.{IsPart};
ghost use Rattle.go_batch_core.specs.seen.Local.{AreAmong, IsLocal, NoneIsOf};
ghost use Rattle.go_batch_core.specs.seen.Sights.{Agrees, AreSeen, AreSeenBy, AreWithReached, IsSeenOf};

use go_package_core::package_part::{Part, PartInput, compile_over, compile_over_at_once};
use go_path_core::ImportPath;
use go_path_core::text_core::add;
use go_summary_core::{ReachedSummaries, Summary, View, view_of};
use std::alloc::{AllocError, Global};
use std::marker::Model;
use std::thread::Threads;

/// What is seen of some packages: what they tell, and the tables of it that a check looks into. Contracts see the list of what they tell, each path
/// once, in the order in which they were added.
pub struct Sight {
    told: Vec<Summary>,
    view: View,
    // By the place of a summary in the list that inputs share, which one of these it may be. Each guess is tried.
    guesses: Vec<usize>,
}

impl Drop for Sight {
    fn drop(self) {
        let Sight {
            told: _,
            view: _,
            guesses: _,
        } = self;
    }
}

impl Model for Sight {
    ghost use Rattle.std.specs.Prelude.{List};
    ghost use Rattle.std.specs.Coded.{coded_list};
    ghost use Rattle.go_summary_core.specs.Summaries.{SummaryModel};
    ghost use Rattle.go_summary_core.specs.codes.SummaryCodes.{coded_summary};
    ghost use Rattle.go_batch_core.specs.seen.Sights.{AreSeen};

    ghost Value = { List SummaryModel };

    ghost coded = { coded_list coded_summary };

    ghost view = { λ s. s.told.items };

    ghost invariant = { λ s. AreSeen s.told.items s.view.types s.view.shown s.view.faces };
}

/// A part that was made, and what is seen after it.
#[derive(Drop)]
pub struct Compiled {
    pub part: Part,
    pub sight: Sight,
}

// Whether a package of this path is seen.
fn has_package(told: &Vec<Summary>, view: &View, path: &ImportPath) -> bool
    requires { AreSeen told.now.items view.now.types view.now.shown view.now.faces }
    ensures there { IsTrue result → IsSeenOf told.now.items path.now }
    ensures none { result ≡ false → NoneIsOf told.now.items path.now }
{
    let _ = told;
    view.faces.locate(path).is_some()
}

// Whether the summary of a number is of this path, if there is one.
fn is_at(told: &Vec<Summary>, number: usize, path: &ImportPath) -> bool
    ensures { IsTrue result → IsSeenOf told.now.items path.now }
{
    match told.get(number) {
        Some(summary) => summary.path().is_same(path),
        None => false,
    }
}

// What is guessed for a place.
fn guess_at(guesses: &Vec<usize>, place: usize) -> usize {
    match guesses.get(place) {
        Some(guess) => *guess,
        None => usize::MAX,
    }
}

// Notes a guess for a place, where there is memory.
fn note(guesses: &mut Vec<usize>, place: usize, guess: usize) {
    for _place in guesses.len()..place {
        if guesses.push(usize::MAX).is_err() {
            return;
        }
    }
    if place < guesses.len() {
        guesses[place] = guess;
    } else {
        let _ = guesses.push(guess);
    }
}

// Whether a package of this path is seen, whose summary stands at a place of the list that inputs share: what is guessed for the place is tried, then what was
// added last, and then the path is looked up.
fn is_seen(
    told: &Vec<Summary>,
    view: &View,
    guesses: &mut Vec<usize>,
    place: usize,
    path: &ImportPath,
) -> bool
    requires { AreSeen told.now.items view.now.types view.now.shown view.now.faces }
    ensures there { IsTrue result → IsSeenOf told.now.items path.now }
    ensures none { result ≡ false → NoneIsOf told.now.items path.now }
{
    if is_at(told, guess_at(guesses, place), path) {
        return true;
    }
    let last = told.len().wrapping_sub(1);
    if is_at(told, last, path) {
        note(guesses, place, last);
        return true;
    }
    if has_package(told, view, path) {
        return true;
    }
    // It is added next.
    note(guesses, place, told.len());
    false
}

// Adds what a package tells, of which nothing is seen yet.
fn add_summary(
    told: &mut Vec<Summary>,
    view: &mut View,
    summary: &Summary,
) -> Result<(), AllocError>
    requires seen { AreSeen told.old.items view.old.types view.old.shown view.old.faces }
    requires new { NoneIsOf told.old.items (path_of summary.now) }
    ensures told { OnOk result (told.new.items ≡ told.old.items ++ summary.now ∷ []) }
    ensures seen { OnOk result (AreSeen told.new.items view.new.types view.new.shown view.new.faces) }
{
    // All of a summary is of one package.
    let _path = summary.path();
    view.types.add(summary.types().share()?)?;
    add_after_types(told, view, summary)?;
    Ok(())
}

// Adds what a package tells but its types.
fn add_after_types(
    told: &mut Vec<Summary>,
    view: &mut View,
    summary: &Summary,
) -> Result<(), AllocError>
    ensures told { OnOk result (told.new.items ≡ told.old.items ++ summary.now ∷ []) }
    ensures types { view.new.types ≡ view.old.types }
    ensures shown { OnOk result (view.new.shown ≡ with_shown view.old.shown summary.now.exports) }
    ensures faces { OnOk result (view.new.faces ≡ with_faces view.old.faces summary.now.faces) }
    ensures own { IsOfOne summary.now }
{
    // All of a summary is of one package.
    let _path = summary.path();
    view.shown.add(summary.exports().share()?)?;
    view.faces.add(summary.faces().share()?)?;
    add(told, summary.share()?)?;
    Ok(())
}

// Adds what a package tells, where nothing is seen of it yet. Its summary stands at a place of the list that inputs share.
fn add_new(
    told: &mut Vec<Summary>,
    view: &mut View,
    guesses: &mut Vec<usize>,
    place: usize,
    summary: &Summary,
) -> Result<(), AllocError>
    requires seen { AreSeen told.old.items view.old.types view.old.shown view.old.faces }
    requires agrees { Agrees told.old.items (summary.now ∷ []) }
    ensures seen { OnOk result (AreSeen told.new.items view.new.types view.new.shown view.new.faces) }
    ensures all { OnOk result (AreWithReached told.old.items (summary.now ∷ []) told.new.items) }
{
    if is_seen(told, view, guesses, place, summary.path()) {
        return Ok(());
    }
    add_summary(told, view, summary)?;
    Ok(())
}

// The same of a summary that stands at no place of that list.
fn add_told(told: &mut Vec<Summary>, view: &mut View, summary: &Summary) -> Result<(), AllocError>
    requires seen { AreSeen told.old.items view.old.types view.old.shown view.old.faces }
    requires agrees { Agrees told.old.items (summary.now ∷ []) }
    ensures seen { OnOk result (AreSeen told.new.items view.new.types view.new.shown view.new.faces) }
    ensures all { OnOk result (AreWithReached told.old.items (summary.now ∷ []) told.new.items) }
{
    if has_package(told, view, summary.path()) {
        return Ok(());
    }
    add_summary(told, view, summary)?;
    Ok(())
}

// Adds those of these summaries of which nothing is seen yet.
fn add_reached(
    told: &mut Vec<Summary>,
    view: &mut View,
    guesses: &mut Vec<usize>,
    reached: &ReachedSummaries,
) -> Result<(), AllocError>
    requires seen { AreSeen told.old.items view.old.types view.old.shown view.old.faces }
    requires agrees { Agrees told.old.items reached.now }
    requires apart { PathsAreApart reached.now }
    ensures seen { OnOk result (AreSeen told.new.items view.new.types view.new.shown view.new.faces) }
    ensures all { OnOk result (AreWithReached told.old.items reached.now told.new.items) }
{
    for number in 0..reached.len() {
        match reached.get(number) {
            Some(summary) => add_new(told, view, guesses, reached.place(number), summary)?,
            None => unreachable!(),
        }
    }
    Ok(())
}

impl Sight {
    /// Nothing is seen.
    ///
    /// # Errors
    ///
    /// `AllocError` where memory is wanting.
    pub fn none(alloc: Global) -> Result<Sight, AllocError>
        ensures { IfOk result (λ s. s ≡ []) }
    {
        let view = view_of(alloc, &[])?;
        let guesses = Vec::new(alloc);
        Ok(Sight {
            told: Vec::new(alloc),
            view,
            guesses,
        })
    }

    // The same; nothing where the package of a path is seen.
    fn without(self, alloc: Global, path: &ImportPath) -> Result<Sight, AllocError>
        ensures none { IfOk result (λ s. NoneIsOf s path.now) }
        ensures same { IfOk result (λ s. (s ≡ self) ⊎ (s ≡ [])) }
    {
        if has_package(&self.told, &self.view, path) {
            let nothing = Sight::none(alloc)?;
            return Ok(nothing);
        }
        Ok(self)
    }

    // With those of these summaries of which nothing is seen yet.
    fn with_reached(self, reached: &ReachedSummaries) -> Result<Sight, AllocError>
        requires agrees { Agrees self reached.now }
        requires apart { PathsAreApart reached.now }
        ensures { IfOk result (λ s. AreWithReached self reached.now s) }
    {
        let Sight {
            mut told,
            mut view,
            mut guesses,
        } = self;
        add_reached(&mut told, &mut view, &mut guesses, reached)?;
        Ok(Sight {
            told,
            view,
            guesses,
        })
    }

    /// The same, and what a package tells, where nothing is seen of it yet. Where memory is wanting nothing is seen any more. It takes one look-up of a path.
    ///
    /// # Errors
    ///
    /// `AllocError` where memory is wanting.
    pub fn with_told(self, summary: &Summary) -> Result<Sight, AllocError>
        requires agrees { Agrees self (summary.now ∷ []) }
        ensures { IfOk result (λ s. AreWithReached self (summary.now ∷ []) s) }
    {
        let Sight {
            mut told,
            mut view,
            guesses,
        } = self;
        add_told(&mut told, &mut view, summary)?;
        Ok(Sight {
            told,
            view,
            guesses,
        })
    }

    /// The part of an input, where all that it reaches is seen and its own package is not, where its files are checked in pieces of source at once. Nothing
    /// is looked up of what is reached. What the part tells is seen after it. Where memory is wanting nothing is seen any more.
    ///
    /// The Go specification, "Packages", "Import declarations".
    ///
    /// # Errors
    ///
    /// `AllocError` where memory is wanting, or a thread.
    pub fn compile_seen_at_once<R: Threads + Sync>(
        self,
        rt: &R,
        alloc: Global,
        input: &PartInput,
    ) -> Result<Compiled, AllocError>
        requires local { IsLocal input.now }
        requires none { NoneIsOf self (path_in input.now) }
        requires all { AreAmong input.now.reached self }
        ensures input { IfOk result (λ c. c.part.input ≡ input.now) }
        ensures made { IfOk result (λ c. IsPart input.now c.part.content) }
        ensures seen { IfOk result (λ c. c.sight ≡ self ++ c.part.content.summary ∷ []) }
    {
        let Sight {
            mut told,
            mut view,
            guesses,
        } = self;
        let content = compile_over_at_once(rt, alloc, input, &mut view)?;
        add_after_types(&mut told, &mut view, &content.summary)?;
        let shared = input.share()?;
        let part = Part::new(alloc, shared, content)?;
        let sight = Sight {
            told,
            view,
            guesses,
        };
        Ok(Compiled { part, sight })
    }

    /// The same part as [`Sight::compile_seen_at_once`] gives, with the same seen after it. Nothing of it is checked at once, so a thread without a handle may
    /// call it.
    ///
    /// The Go specification, "Packages", "Import declarations".
    ///
    /// # Errors
    ///
    /// `AllocError` where memory is wanting.
    pub fn compile_seen(self, alloc: Global, input: &PartInput) -> Result<Compiled, AllocError>
        requires local { IsLocal input.now }
        requires none { NoneIsOf self (path_in input.now) }
        requires all { AreAmong input.now.reached self }
        ensures input { IfOk result (λ c. c.part.input ≡ input.now) }
        ensures made { IfOk result (λ c. IsPart input.now c.part.content) }
        ensures seen { IfOk result (λ c. c.sight ≡ self ++ c.part.content.summary ∷ []) }
    {
        let Sight {
            mut told,
            mut view,
            guesses,
        } = self;
        let content = compile_over(alloc, input, &mut view)?;
        add_after_types(&mut told, &mut view, &content.summary)?;
        let shared = input.share()?;
        let part = Part::new(alloc, shared, content)?;
        let sight = Sight {
            told,
            view,
            guesses,
        };
        Ok(Compiled { part, sight })
    }

    /// The part of an input: the one that `compile_part` gives, where its files are checked in pieces of source at once. Of what the input reaches only that
    /// is added to what is seen of which nothing is seen yet; what the part tells is seen after it. Where memory is wanting nothing is seen any more. The time
    /// is that of the check, of a comparison of paths for each package that is reached, and of what is added.
    ///
    /// The Go specification, "Packages", "Import declarations".
    ///
    /// # Errors
    ///
    /// `AllocError` where memory is wanting, or a thread.
    pub fn compile<R: Threads + Sync>(
        self,
        rt: &R,
        alloc: Global,
        input: &PartInput,
    ) -> Result<Compiled, AllocError>
        requires local { IsLocal input.now }
        requires agrees { Agrees self input.now.reached }
        ensures input { IfOk result (λ c. c.part.input ≡ input.now) }
        ensures made { IfOk result (λ c. IsPart input.now c.part.content) }
        ensures seen { IfOk result (λ c. AreSeenBy self input.now c.sight) }
    {
        let reached = input.reached();
        let others = self.without(alloc, input.path())?;
        let whole = others.with_reached(reached)?;
        let made = whole.compile_seen_at_once(rt, alloc, input)?;
        Ok(made)
    }

    /// The same part as [`Sight::compile`] gives, with the same seen after it. Nothing of it is checked at once, so a thread without a handle may call it.
    ///
    /// The Go specification, "Packages", "Import declarations".
    ///
    /// # Errors
    ///
    /// `AllocError` where memory is wanting.
    pub fn compile_alone(self, alloc: Global, input: &PartInput) -> Result<Compiled, AllocError>
        requires local { IsLocal input.now }
        requires agrees { Agrees self input.now.reached }
        ensures input { IfOk result (λ c. c.part.input ≡ input.now) }
        ensures made { IfOk result (λ c. IsPart input.now c.part.content) }
        ensures seen { IfOk result (λ c. AreSeenBy self input.now c.sight) }
    {
        let reached = input.reached();
        let others = self.without(alloc, input.path())?;
        let whole = others.with_reached(reached)?;
        let made = whole.compile_seen(alloc, input)?;
        Ok(made)
    }
}
