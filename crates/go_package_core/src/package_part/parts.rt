//! The parts of packages, by the numbers of these.
ghost use Rattle.std.specs.Prelude.{◌≡◌, ◌≤◌, ◌<◌, ◌+◌, ◌++◌, [], IfOk, None, Some, length, replicate, slice_set, vec_capacity};
ghost use Rattle.go_package_core.specs.package_part.Slots.{if_there, somes};

use crate::package_part::part::Part;
use go_path_core::text_core::add;
use std::alloc::{AllocError, Global};
use std::marker::Model;

/// The parts of packages, by the numbers of these: none where a package has none. Contracts see the list.
#[derive(Drop)]
pub struct Parts {
    slots: Vec<Option<Part>>,
}

impl Model for Parts {
    ghost use Rattle.std.specs.Prelude.{List, Option};
    ghost use Rattle.std.specs.Coded.{codes};
    ghost use Rattle.go_block_core.specs.Blocks.{coded_blocks};
    ghost use Rattle.go_report_core.specs.declared_core.codes.FaceCodes.{coded_face, coded_operand};
    ghost use Rattle.go_report_core.specs.summary_core.codes.SummaryCodes.{coded_summary};
    ghost use Rattle.go_package_core.specs.package_part.Inputs.{coded_input};
    ghost use Rattle.go_package_core.specs.package_part.Parts.{PartModel};

    ghost Value = { List (Option PartModel) };

    ghost coded = { Prim.hlevel (codes, coded_input, coded_blocks, coded_face, coded_operand, coded_summary) };

    ghost view = { λ p. p.slots.items };
}

// No part, for so many packages.
fn no_parts(alloc: Global, count: usize) -> Result<Vec<Option<Part>>, AllocError>
    ensures { IfOk result (λ parts. parts.items ≡ replicate count None) }
{
    let mut parts = Vec::with_capacity(alloc, count)?;
    for _package in 0..count {
        add(&mut parts, None)?;
    }
    Ok(parts)
}

// Puts a part back, if there is one, into a list that has room for it.
fn put_back(slot: Option<Part>, parts: &mut Vec<Part>)
    requires { length parts.old.items + length (if_there slot) ≤ vec_capacity parts.old }
    ensures parts { parts.new.items ≡ parts.old.items ++ if_there slot }
    ensures room { vec_capacity parts.old ≤ vec_capacity parts.new }
{
    let Some(part) = slot else {
        return;
    };
    match parts.push(part) {
        Ok(()) => {}
        // There is room for it.
        Err(_) => unreachable!(),
    }
}

// What stands at the number of a package, once more: its part, if it has one, is shared.
fn shared_slot(slot: &Option<Part>) -> Result<Option<Part>, AllocError>
    ensures { IfOk result (λ shared. shared ≡ slot.now) }
{
    match slot {
        Some(part) => Ok(Some(part.share()?)),
        None => Ok(None),
    }
}

// The parts of packages once more, by their numbers. Each is shared.
fn shared_slots(alloc: Global, slots: &[Option<Part>]) -> Result<Vec<Option<Part>>, AllocError>
    ensures { IfOk result (λ shared. shared.items ≡ slots.now) }
{
    let mut shared = Vec::with_capacity(alloc, slots.len())?;
    for slot in slots {
        add(&mut shared, shared_slot(slot)?)?;
    }
    Ok(shared)
}

impl Parts {
    /// No part, for so many packages.
    ///
    /// # Errors
    ///
    /// `AllocError` where memory is wanting.
    pub fn none(alloc: Global, count: usize) -> Result<Parts, AllocError>
        ensures { IfOk result (λ p. p ≡ replicate count None) }
    {
        Ok(Parts {
            slots: no_parts(alloc, count)?,
        })
    }

    /// The same parts once more, by the same numbers: each is shared. The time is linear in the numbers.
    ///
    /// # Errors
    ///
    /// `AllocError` where memory is wanting, or where a part has too many owners.
    pub fn copy(&self, alloc: Global) -> Result<Parts, AllocError>
        ensures { IfOk result (λ p. p ≡ self.now) }
    {
        Ok(Parts {
            slots: shared_slots(alloc, &self.slots)?,
        })
    }

    /// The parts by the numbers of their packages.
    pub fn as_slice(&self) -> &[Option<Part>]
        ensures { result.now ≡ self.now }
    {
        self.slots.as_slice()
    }

    /// Puts a part to the number of its package, in the place of the one that is there.
    pub fn put(&mut self, number: usize, part: Part)
        requires { number < length self.old }
        ensures { self.new ≡ slice_set self.old number (Some part) }
    {
        self.slots[number] = Some(part);
    }

    /// Takes the parts that are there, in order of number, back into a list that has room for them.
    pub fn take_back(self, parts: &mut Vec<Part>)
        requires empty { parts.old.items ≡ [] }
        requires room { length (somes self) ≤ vec_capacity parts.old }
        ensures { parts.new.items ≡ somes self }
    {
        for slot in self.slots {
            put_back(slot, parts);
        }
    }
}
