//! The functions of a program.
ghost use Rattle.std.specs.Prelude.{◌≡◌, ◌≤◌, ◌+◌, ◌++◌, IfOk, OnOk, length, map, option_map, slice_get};
ghost use Rattle.std.specs.List.{flat_map};
ghost use Rattle.go_object_core.specs.Objects.{function_shown, object_shown};
ghost use Rattle.go_machine_core.specs.Programs.{linked_shown};
ghost use Rattle.go_machine_core.specs.link.Functions.{all_functions, is_called, linked_of, number_if, numbers_called, place_shown, places_of};
ghost use Rattle.go_machine_core.specs.link.mirrors.Numbering.{found_in};

use crate::Linked;
use crate::link::numbers::number_at;
use crate::link::places::{Place, Places};
use go_object_core::{FunctionCode, Object};
use std::alloc::{AllocError, Global};
use std::collections::HashMap;

// Adds the places of functions.
fn add_places<'a, D, P: Places<D>>(
    found: &mut Vec<Option<Place<'a>>>,
    places: &P,
    functions: &'a [FunctionCode<D>],
) -> Result<(), AllocError>
    ensures { OnOk result (map (option_map place_shown) found.new.items ≡ map (option_map place_shown) found.old.items ++ map (λ f. P.place_of places.now f.declaration) (map function_shown functions.now)) }
{
    for function in functions {
        found.push(places.place(&function.declaration))?;
    }
    Ok(())
}

/// The places of the functions of objects, in order.
pub(crate) fn places_of<'a, D, P: Places<D>>(
    alloc: Global,
    places: &P,
    objects: &'a [Object<D>],
) -> Result<Vec<Option<Place<'a>>>, AllocError>
    ensures { IfOk result (λ found. map (option_map place_shown) found.items ≡ places_of (P.place_of places.now) (all_functions (map object_shown objects.now))) }
{
    let mut found = Vec::new(alloc);
    for object in objects {
        add_places(&mut found, places, &object.functions)?;
    }
    Ok(found)
}

// The numbers of the functions that declarations are.
fn callees_of<'a, D, P: Places<D>>(
    alloc: Global,
    places: &P,
    numbers: &HashMap<Place<'a>, usize>,
    references: &'a [D],
) -> Result<Vec<Option<usize>>, AllocError>
    ensures { IfOk result (λ callees. callees.items ≡ map (λ d. found_in numbers.now.entries (P.place_of places.now d)) references.now) }
{
    let mut callees = Vec::new(alloc);
    for reference in references {
        callees.push(number_at(numbers, places.place(reference)))?;
    }
    Ok(callees)
}

/// Adds functions, with their references as numbers.
pub(crate) fn add_functions<'a, D, P: Places<D>>(
    alloc: Global,
    linked: &mut Vec<Linked<'a>>,
    places: &P,
    numbers: &HashMap<Place<'a>, usize>,
    functions: &'a [FunctionCode<D>],
) -> Result<(), AllocError>
    ensures { OnOk result (map linked_shown linked.new.items ≡ map linked_shown linked.old.items ++ map (linked_of (λ d. found_in numbers.now.entries (P.place_of places.now d))) (map function_shown functions.now)) }
{
    for function in functions {
        let callees = callees_of(alloc, places, numbers, &function.references)?;
        linked.push(Linked {
            slots: function.slots,
            callees,
            code: &function.code,
        })?;
    }
    Ok(())
}

// Whether a function has this name and no receiver.
fn is_called<D>(function: &FunctionCode<D>, name: &str) -> bool
    ensures { result ≡ is_called name.now (function_shown function.now) }
{
    function.name.as_str() == name && !function.has_receiver
}

/// Adds a number, if it is one of those that are looked for.
pub(crate) fn add_if(
    numbers: &mut Vec<usize>,
    is_one: bool,
    number: usize,
) -> Result<(), AllocError>
    ensures { OnOk result (numbers.new.items ≡ numbers.old.items ++ number_if is_one number) }
{
    if is_one {
        numbers.push(number)?;
    }
    Ok(())
}

/// The numbers of the functions of a name that have no receiver, where they are numbered from the first on.
pub(crate) fn numbers_called<D>(
    alloc: Global,
    name: &str,
    first: usize,
    functions: &[FunctionCode<D>],
) -> Result<Vec<usize>, AllocError>
    requires { first + length functions.now ≤ usize.MAX }
    ensures { IfOk result (λ numbers. numbers.items ≡ numbers_called name.now first (map function_shown functions.now)) }
{
    let mut numbers = Vec::new(alloc);
    for (place, function) in functions.iter().enumerate() {
        add_if(&mut numbers, is_called(function, name), first + place)?;
    }
    Ok(numbers)
}

// The function of a number of an object.
fn function_in<D>(object: &Object<D>, number: usize) -> Option<&FunctionCode<D>>
    ensures { option_map (λ f. function_shown f.now) result ≡ slice_get (object_shown object.now).functions number }
{
    object.functions.get(number)
}

/// The function of a number, where those of all objects are numbered one behind another.
pub(crate) fn function_at<'a, D>(
    objects: &'a [Object<D>],
    number: usize,
) -> Option<&'a FunctionCode<D>>
    ensures { option_map (λ f. function_shown f.now) result ≡ slice_get (all_functions (map object_shown objects.now)) number }
{
    let mut rest = number;
    for object in objects {
        let count = object.functions.len();
        if rest < count {
            return function_in(object, rest);
        }
        rest -= count;
    }
    None
}
