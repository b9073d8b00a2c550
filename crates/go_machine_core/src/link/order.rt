//! The order in which packages are initialised.
ghost use Rattle.std.specs.Prelude.{◌≡◌, ◌++◌, IfOk, OnOk, length, map, slice_get};
ghost use Rattle.std.specs.List.{position_from};
ghost use Rattle.go_machine_core.specs.link.Packages.{package_shown};
ghost use Rattle.go_machine_core.specs.link.Order.{are_done, initialised, inits_in, is_done, is_marked, is_ready, marked_in, starts_of};
ghost use Rattle.go_machine_core.specs.link.mirrors.Numbering.{AreBelow};

use crate::link::functions::add_if;
use crate::link::packages::Package;
use std::alloc::{AllocError, Global};

// Whether a number bears a mark.
fn is_marked(marks: &[bool], number: usize) -> bool
    ensures { result ≡ is_marked marks.now number }
{
    number < marks.len() && marks[number]
}

// Those numbers that bear a mark.
fn marked_in(alloc: Global, numbers: &[usize], marks: &[bool]) -> Result<Vec<usize>, AllocError>
    ensures { IfOk result (λ marked. marked.items ≡ marked_in numbers.now marks.now) }
{
    let mut marked = Vec::new(alloc);
    for number in numbers {
        add_if(&mut marked, is_marked(marks, *number), *number)?;
    }
    Ok(marked)
}

fn is_done(done: &[bool], number: Option<usize>) -> bool
    ensures { result ≡ is_done done.now number }
{
    match number {
        Some(number) => is_marked(done, number),
        None => false,
    }
}

fn are_done(done: &[bool], numbers: &[Option<usize>]) -> bool
    ensures { result ≡ are_done done.now numbers.now }
{
    for number in numbers {
        if !is_done(done, *number) {
            return false;
        }
    }
    true
}

// Whether the imports of a package are done.
fn is_ready(packages: &[Package], done: &[bool], number: usize) -> bool
    ensures { result ≡ is_ready (map package_shown packages.now) done.now number }
{
    match packages.get(number) {
        Some(package) => are_done(done, &package.imports),
        None => true,
    }
}

// The place of the first that is ready.
fn first_ready(packages: &[Package], done: &[bool], waiting: &[usize]) -> Option<usize>
    ensures { result ≡ position_from (is_ready (map package_shown packages.now) done.now) 0 waiting.now }
{
    for (place, number) in waiting.iter().enumerate() {
        if is_ready(packages, done, *number) {
            return Some(place);
        }
    }
    None
}

// Of packages that are in the order of their paths those that bear a mark, in the order in which they are initialised.
fn initialised(
    alloc: Global,
    packages: &[Package],
    order: &[usize],
    marks: &[bool],
) -> Result<Vec<usize>, AllocError>
    requires { AreBelow (length packages.now) order.now }
    ensures { IfOk result (λ numbers. numbers.items ≡ initialised (map package_shown packages.now) order.now marks.now) }
{
    let mut waiting = marked_in(alloc, order, marks)?;
    let mut done = vec![in alloc; false; packages.len()]?;
    let mut numbers = Vec::new(alloc);
    for _turn in 0..waiting.len() {
        let Some(place) = first_ready(packages, &done, &waiting) else {
            return Ok(numbers);
        };
        let number = waiting.remove(place);
        done[number] = true;
        numbers.push(number)?;
    }
    Ok(numbers)
}

// Adds numbers.
fn add_all(numbers: &mut Vec<usize>, more: &[usize]) -> Result<(), AllocError>
    ensures { OnOk result (numbers.new.items ≡ numbers.old.items ++ more.now) }
{
    for number in more {
        numbers.push(*number)?;
    }
    Ok(())
}

// Adds the functions `init` of a package.
fn add_inits(starts: &mut Vec<usize>, packages: &[Package], number: usize) -> Result<(), AllocError>
    ensures { OnOk result (starts.new.items ≡ starts.old.items ++ inits_in (slice_get (map package_shown packages.now) number)) }
{
    match packages.get(number) {
        Some(package) => add_all(starts, &package.inits),
        None => Ok(()),
    }
}

/// The functions that run one after another: the functions `init` of the packages that bear a mark, in the order in which these are initialised, and
/// `main`.
pub(crate) fn starts_of(
    alloc: Global,
    packages: &[Package],
    order: &[usize],
    marks: &[bool],
    main: usize,
) -> Result<Vec<usize>, AllocError>
    requires { AreBelow (length packages.now) order.now }
    ensures { IfOk result (λ starts. starts.items ≡ starts_of (map package_shown packages.now) order.now marks.now main) }
{
    let numbers = initialised(alloc, packages, order, marks)?;
    let mut starts = Vec::new(alloc);
    for number in &numbers {
        add_inits(&mut starts, packages, *number)?;
    }
    starts.push(main)?;
    Ok(starts)
}
