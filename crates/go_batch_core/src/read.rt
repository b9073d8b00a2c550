//! Inputs and parts of packages whose files are as they are read.
ghost use Rattle.std.specs.Prelude.{◌≡◌, ◌↔◌, IfOk, IfSome, IsTrue};
ghost use Rattle.go_block_core.specs.graph_core.Workspaces.{AreAllRead};
ghost use Rattle.go_package_core.specs.package_part.Parts.{IsPart};
ghost use Rattle.go_batch_core.specs.seen.Local.{IsLocal};
ghost use Rattle.go_batch_core.specs.seen.Sights.{Agrees, AreSeenBy};

use crate::seen::{Compiled, Sight};
use go_package_core::package_part::{Part, PartInput, compile_part_in};
use std::alloc::{AllocError, Global};
use std::marker::Model;
use std::thread::Threads;

/// The input of a package of a workspace: each of its files has the content that its text has, and over what any other packages tell beside those that it
/// reaches, the package has what the input gives. It has the package's part with it where that is known. Contracts see the input.
pub struct ReadInput {
    input: PartInput,
    part: Option<Part>,
}

impl Drop for ReadInput {
    fn drop(self) {
        let ReadInput { input: _, part: _ } = self;
    }
}

impl Model for ReadInput {
    ghost use Rattle.go_block_core.specs.graph_core.Workspaces.{AreAllRead};
    ghost use Rattle.go_package_core.specs.package_part.Inputs.{InputModel, coded_input};
    ghost use Rattle.std.specs.Prelude.{◌≡◌, IfSome};
    ghost use Rattle.go_batch_core.specs.seen.Local.{IsLocal};

    ghost Value = { InputModel };

    ghost coded = { coded_input };

    ghost view = { λ i. i.input };

    ghost invariant = { λ i. AreAllRead i.input.source × IsLocal i.input × IfSome i.part (λ p. p.input ≡ i.input) };
}

impl ReadInput {
    /// An input whose files are as they are read.
    pub fn new(input: PartInput) -> ReadInput
        requires read { AreAllRead input.source }
        requires local { IsLocal input }
        ensures { result ≡ input }
    {
        ReadInput { input, part: None }
    }

    /// The input of a part, with the part.
    ///
    /// # Errors
    ///
    /// `AllocError` where the input has too many owners.
    pub fn known(part: Part) -> Result<ReadInput, AllocError>
        requires read { AreAllRead part.input.source }
        requires local { IsLocal part.input }
        ensures { IfOk result (λ i. i ≡ part.input) }
    {
        let input = part.input().share()?;
        Ok(ReadInput {
            input,
            part: Some(part),
        })
    }

    /// The part of the input, where it is known.
    pub fn part(&self) -> Option<&Part>
        ensures { IfSome result (λ p. p.now.input ≡ self.now) }
    {
        self.part.as_ref()
    }

    /// The input.
    pub fn get(&self) -> &PartInput
        ensures value { result.now ≡ self.now }
        ensures read { AreAllRead self.now.source }
        ensures local { IsLocal self.now }
    {
        &self.input
    }
}

/// A part of a package each file of which has the content that its text has, as those of a workspace have. Contracts see the part.
pub struct ReadPart {
    part: Part,
}

impl Drop for ReadPart {
    fn drop(self) {
        let ReadPart { part: _ } = self;
    }
}

impl Model for ReadPart {
    ghost use Rattle.go_block_core.specs.graph_core.Workspaces.{AreAllRead};
    ghost use Rattle.go_package_core.specs.package_part.Parts.{PartModel};
    ghost use Rattle.go_batch_core.specs.Coding.{coded_part};

    ghost Value = { PartModel };

    ghost coded = { coded_part };

    ghost view = { λ p. p.part };

    ghost invariant = { λ p. AreAllRead p.part.input.source };
}

impl ReadPart {
    /// A part whose package's files are as they are read.
    pub fn new(part: Part) -> ReadPart
        requires { AreAllRead part.input.source }
        ensures { result ≡ part }
    {
        ReadPart { part }
    }

    /// The part.
    pub fn get(&self) -> &Part
        ensures value { result.now ≡ self.now }
        ensures read { AreAllRead self.now.input.source }
    {
        &self.part
    }

    /// The same part once more. It takes no memory.
    ///
    /// # Errors
    ///
    /// `AllocError` where it has too many owners.
    pub fn share(&self) -> Result<ReadPart, AllocError>
        ensures { IfOk result (λ p. p ≡ self.now) }
    {
        Ok(ReadPart {
            part: self.part.share()?,
        })
    }
}

// Whether a part was made of an input.
fn is_made_of(part: &ReadPart, input: &ReadInput) -> bool
    ensures { IsTrue result ↔ (part.now.input ≡ input.now) }
{
    part.get().input().is_same(input.get())
}

// The part of an input once more, where it is known.
fn known_of(input: &ReadInput) -> Result<Option<ReadPart>, AllocError>
    ensures { IfOk result (λ o. IfSome o (λ p. p.input ≡ input.now)) }
{
    // Its files are as they are read.
    let _input = input.get();
    match input.part() {
        Some(part) => Ok(Some(ReadPart::new(part.share()?))),
        None => Ok(None),
    }
}

/// The part of an input once more, where it is known, and else an earlier one, where that was made of the input. The time is none, or linear in the two
/// inputs.
///
/// # Errors
///
/// `AllocError` where the part has too many owners.
pub fn earlier_of(
    input: &ReadInput,
    earlier: Option<&ReadPart>,
) -> Result<Option<ReadPart>, AllocError>
    ensures { IfOk result (λ o. IfSome o (λ p. p.input ≡ input.now)) }
{
    if let Some(part) = known_of(input)? {
        return Ok(Some(part));
    }
    let Some(part) = earlier else {
        return Ok(None);
    };
    if is_made_of(part, input) {
        Ok(Some(part.share()?))
    } else {
        Ok(None)
    }
}

// A part of an input has what the input gives.
fn is_made(part: &ReadPart, input: &ReadInput)
    requires { part.now.input ≡ input.now }
    ensures { IsPart input.now part.now.content }
{
    let _ = input;
    let _made = part.get().content();
}

/// The part of an input: an earlier one, shared, where that was made of the same input, else one that is compiled, which says that it was made in this
/// generation.
///
/// # Errors
///
/// `AllocError` where memory is wanting.
pub fn rebuild(
    alloc: Global,
    input: &ReadInput,
    earlier: Option<&ReadPart>,
    generation: u64,
) -> Result<ReadPart, AllocError>
    ensures input { IfOk result (λ p. p.input ≡ input.now) }
    ensures made { IfOk result (λ p. IsPart input.now p.content) }
{
    if let Some(part) = earlier_of(input, earlier)? {
        is_made(&part, input);
        return Ok(part);
    }
    let part = compile_part_in(alloc, input.get(), generation)?;
    Ok(ReadPart::new(part))
}

/// A part that was compiled over what is seen of packages, and what is seen after it.
#[derive(Drop)]
pub struct Rebuilt {
    pub part: ReadPart,
    pub sight: Sight,
}

impl Rebuilt {
    /// The part of an input, compiled over what is seen, as `Sight::compile` does.
    ///
    /// # Errors
    ///
    /// `AllocError` where memory is wanting, or a thread; nothing is seen any more then.
    pub fn over<R: Threads + Sync>(
        rt: &R,
        alloc: Global,
        input: &ReadInput,
        sight: Sight,
    ) -> Result<Rebuilt, AllocError>
        requires agrees { Agrees sight input.now.reached }
        ensures input { IfOk result (λ r. r.part.input ≡ input.now) }
        ensures made { IfOk result (λ r. IsPart input.now r.part.content) }
        ensures seen { IfOk result (λ r. AreSeenBy sight input.now r.sight) }
    {
        let compiled = sight.compile(rt, alloc, input.get())?;
        let Compiled { part, sight } = compiled;
        Ok(Rebuilt {
            part: ReadPart::new(part),
            sight,
        })
    }
}
