//! The numbers of functions by their places.
ghost use Rattle.std.specs.Prelude.{◌≡◌, Some, IfOk, OnOk, if◌then◌else◌, map, option_map};
ghost use Rattle.go_machine_core.specs.declared.link.places.Place.{Place};
ghost use Rattle.go_machine_core.specs.link.Functions.{is_at, place_shown};
ghost use Rattle.go_machine_core.specs.link.mirrors.Numbering.{AreNumbered, found_in, found_key};

use crate::link::places::Place;
use std::alloc::{AllocError, Global};
use std::collections::HashMap;

// Notes the number of what is at a place, if it is at one.
fn note<'a>(
    numbers: &mut HashMap<Place<'a>, usize>,
    place: Option<Place<'a>>,
    number: usize,
) -> Result<(), AllocError>
    ensures { OnOk result ((k : Place) → found_key k numbers.new.entries ≡ (if is_at (place_shown k) (option_map place_shown place.entry) then Some number else found_key k numbers.old.entries)) }
{
    if let Some(place) = place {
        numbers.insert(place, number)?;
    }
    Ok(())
}

/// The number of the first function of each place, of functions that are declared there, in order.
pub(crate) fn numbers_of<'a>(
    alloc: Global,
    places: &[Option<Place<'a>>],
) -> Result<HashMap<Place<'a>, usize>, AllocError>
    ensures { IfOk result (λ numbers. AreNumbered numbers.entries (map (option_map place_shown) places.now)) }
{
    let mut numbers = HashMap::new(alloc);
    // The first of several of one place is noted last, and stays.
    for number in (0..places.len()).rev() {
        note(&mut numbers, places[number], number)?;
    }
    Ok(numbers)
}

/// The number of the function of a place.
pub(crate) fn number_at<'a>(
    numbers: &HashMap<Place<'a>, usize>,
    place: Option<Place<'a>>,
) -> Option<usize>
    ensures { result ≡ found_in numbers.now.entries (option_map place_shown place.entry) }
{
    match place {
        Some(place) => numbers.get(&place).copied(),
        None => None,
    }
}
