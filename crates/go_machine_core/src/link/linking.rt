//! What can be run.
ghost use Rattle.std.specs.Prelude.{◌≡◌, ◌⊎◌, IfOk, IfErr, MatchOption, OnOk, length, map};
ghost use Rattle.go_collections_core.specs.spelling_index.Spelled.{AreSpelled, places_of as spelled_places};
ghost use Rattle.go_object_core.specs.Objects.{function_shown, object_shown};
ghost use Rattle.go_machine_core.specs.Programs.{linked_shown};
ghost use Rattle.go_machine_core.specs.link.Functions.{all_functions, functions_of, linked_of};
ghost use Rattle.go_machine_core.specs.link.Packages.{entry_in, package_shown, packages_from, packages_of};
ghost use Rattle.go_machine_core.specs.link.Linked.{HasNoMain, HasNoneOutside, IsBeyond, IsOutsideOf, IsRunnable, program_of, runnable_shown};
ghost use Rattle.go_machine_core.specs.link.mirrors.Layouts.{AreWithin, IsBeginning, IsLinking, layout_more, layout_of, layout_shown, program_with};
ghost use Rattle.go_machine_core.specs.link.mirrors.Numbering.{AreBelow, found_in, numbered_path};

use crate::Linked;
use crate::link::functions::{add_functions, function_at, places_of};
use crate::link::numbers::numbers_of;
use crate::link::order::starts_of;
use crate::link::packages::{Package, number_of, order_of, package_of, paths_of};
use crate::link::places::{Place, Places};
use crate::link::reached::{marked_lacks, outside_of, reached_packages};
use go_collections_core::spelling_index::Spellings;
use go_collections_core::text_core::Rule;
use go_object_core::{FunctionCode, Object};
use go_path_core::ImportPath;
use std::alloc::{AllocError, Global};
use std::collections::HashMap;

/// A program that can be run: its functions, and the numbers of those that begin it, one after another.
#[derive(Drop)]
pub struct Runnable<'a> {
    pub functions: Vec<Linked<'a>>,
    pub starts: Vec<usize>,
}

/// Where a program begins: its main package, and the function `main`, by their numbers.
#[derive(Clone, Copy)]
pub(crate) struct Entry {
    pub(crate) root: usize,
    pub(crate) main: usize,
}

/// The functions and packages of a program.
#[derive(Drop)]
pub(crate) struct Layout<'a> {
    pub(crate) functions: Vec<Linked<'a>>,
    pub(crate) packages: Vec<Package>,
}

/// What begins a program.
#[derive(Drop)]
pub(crate) enum Beginning {
    /// It has no `main`.
    NoMain,
    /// A package that is reached has no object.
    Cut,
    /// The function of this number is the first that is reached and of which no code is made.
    Outside(usize),
    /// The functions of these numbers, one after another.
    Starts(Vec<usize>),
}

/// The functions of a program, and what begins it.
#[derive(Drop)]
pub(crate) struct Linking<'a> {
    pub(crate) functions: Vec<Linked<'a>>,
    pub(crate) beginning: Beginning,
}

// Adds the functions of an object, and its package.
fn add_object<'a, D, P: Places<D>>(
    alloc: Global,
    layout: &mut Layout<'a>,
    places: &P,
    numbers: &HashMap<Place<'a>, usize>,
    paths: &Spellings,
    object: &'a Object<D>,
) -> Result<(), AllocError>
    ensures { OnOk result (layout_shown layout.new ≡ layout_more (λ d. found_in numbers.now.entries (P.place_of places.now d)) (numbered_path (spelled_places paths.now)) (layout_shown layout.old) (object_shown object.now)) }
{
    add_functions(
        alloc,
        &mut layout.functions,
        places,
        numbers,
        &object.functions,
    )?;
    let first = layout.functions.len() - object.functions.len();
    let package = package_of(alloc, paths, first, object)?;
    layout.packages.push(package)?;
    Ok(())
}

// The functions and packages of objects, one object behind another.
fn lay<'a, D, P: Places<D>>(
    alloc: Global,
    places: &P,
    numbers: &HashMap<Place<'a>, usize>,
    paths: &Spellings,
    objects: &'a [Object<D>],
) -> Result<Layout<'a>, AllocError>
    ensures functions { IfOk result (λ layout. map linked_shown layout.functions.items ≡ map (linked_of (λ d. found_in numbers.now.entries (P.place_of places.now d))) (all_functions (map object_shown objects.now))) }
    ensures packages { IfOk result (λ layout. map package_shown layout.packages.items ≡ packages_from (numbered_path (spelled_places paths.now)) 0 (map object_shown objects.now)) }
{
    let mut layout = Layout {
        functions: Vec::new(alloc),
        packages: Vec::new(alloc),
    };
    for object in objects {
        add_object(alloc, &mut layout, places, numbers, paths, object)?;
    }
    Ok(layout)
}

// The functions and packages of objects, with the numbers of packages by their paths.
fn laid_out<'a, D, P: Places<D>>(
    alloc: Global,
    places: &P,
    paths: &Spellings,
    objects: &'a [Object<D>],
) -> Result<Layout<'a>, AllocError>
    requires { AreSpelled (spelled_places paths.now) (map (λ o. o.path) (map object_shown objects.now)) }
    ensures { IfOk result (λ layout. layout_shown layout ≡ layout_of (functions_of (P.place_of places.now) (map object_shown objects.now)) (packages_of (map object_shown objects.now))) }
{
    let found = places_of(alloc, places, objects)?;
    let numbers = numbers_of(alloc, &found)?;
    let layout = lay(alloc, places, &numbers, paths, objects)?;
    Ok(layout)
}

// Where a program begins whose main package has a number.
fn entry_in(packages: &[Package], number: Option<usize>) -> Option<Entry>
    ensures { result ≡ entry_in (map package_shown packages.now) number }
{
    let Some(root) = number else {
        return None;
    };
    let Some(found) = packages.get(root) else {
        return None;
    };
    if !found.is_main {
        return None;
    }
    match found.mains.first() {
        Some(main) => Some(Entry { root, main: *main }),
        None => None,
    }
}

// What begins a program with these packages, whose main package has a number.
fn begin(
    alloc: Global,
    functions: &[Linked<'_>],
    packages: &[Package],
    order: &[usize],
    number: Option<usize>,
) -> Result<Beginning, AllocError>
    requires within { AreWithin (layout_of (map linked_shown functions.now) (map package_shown packages.now)) }
    requires order { AreBelow (length packages.now) order.now }
    ensures { IfOk result (λ b. IsBeginning (program_with (layout_of (map linked_shown functions.now) (map package_shown packages.now)) order.now number) b) }
{
    let Some(entry) = entry_in(packages, number) else {
        return Ok(Beginning::NoMain);
    };
    let reached = reached_packages(alloc, packages, entry.root)?;
    let lacks = marked_lacks(packages, &reached);
    if lacks {
        return Ok(Beginning::Cut);
    }
    let starts = starts_of(alloc, packages, order, &reached, entry.main)?;
    let outside = outside_of(alloc, functions, &starts)?;
    match outside {
        Some(number) => Ok(Beginning::Outside(number)),
        None => Ok(Beginning::Starts(starts)),
    }
}

// What comes of the objects of a program.
fn linked<'a, D, P: Places<D>>(
    alloc: Global,
    places: &P,
    objects: &'a [Object<D>],
    main: &ImportPath,
) -> Result<Linking<'a>, AllocError>
    ensures { IfOk result (λ linking. IsLinking (program_of (P.place_of places.now) (map object_shown objects.now) main.now) linking) }
{
    let paths = paths_of(alloc, objects)?;
    let order = order_of(alloc, &paths)?;
    let spelled = Spellings::of(alloc, &paths)?;
    let layout = laid_out(alloc, places, &spelled, objects)?;
    let number = number_of(&spelled, main);
    let beginning = begin(alloc, &layout.functions, &layout.packages, &order, number)?;
    let functions = layout.functions;
    Ok(Linking {
        functions,
        beginning,
    })
}

/// The program of the package of a path, from the objects of it and of all that it reaches. Its packages are initialised in the order of their paths,
/// each behind those that it imports. The time that it takes is linear in the objects, but for the order of packages, which takes their number
/// squared where they do not stand in the order of their paths, or wait for those behind them.
///
/// # Errors
///
/// `Rule::J1` exactly where there is no object of the path, or its package is not called `main`, or has no function `main`; `Rule::J2` exactly where
/// there is one, and a package that it reaches by imports has no object, or references lead, from `main` or from an `init` that runs, to a function of
/// which no code is made; `Rule::M0` where memory is wanting.
#[tactic(auto, using(crate::proofs::LinkSettled::led_beyond))]
pub fn link<'a, D, P: Places<D>>(
    alloc: Global,
    places: &P,
    objects: &'a [Object<D>],
    main: &ImportPath,
) -> Result<Runnable<'a>, Rule>
    ensures ok { IfOk result (λ r. IsRunnable (program_of (P.place_of places.now) (map object_shown objects.now) main.now) (runnable_shown r)) }
    ensures err { IfErr result (λ rule. (rule ≡ Rule.M0) ⊎ ((rule ≡ Rule.J1) × HasNoMain (program_of (P.place_of places.now) (map object_shown objects.now) main.now)) ⊎ ((rule ≡ Rule.J2) × IsBeyond (program_of (P.place_of places.now) (map object_shown objects.now) main.now))) }
{
    let Ok(linking) = linked(alloc, places, objects, main) else {
        return Err(Rule::M0);
    };
    let functions = linking.functions;
    match linking.beginning {
        Beginning::Starts(starts) => Ok(Runnable { functions, starts }),
        Beginning::NoMain => Err(Rule::J1),
        Beginning::Cut => Err(Rule::J2),
        Beginning::Outside(_) => Err(Rule::J2),
    }
}

/// The function that keeps a program from being run whose packages all have objects: of those to which references lead, from `main` or from an `init`
/// that runs, the first, in order of the objects, of which no code is made. The time that it takes is that of [`link`].
///
/// # Errors
///
/// `AllocError` where memory is wanting.
pub fn outside<'a, D, P: Places<D>>(
    alloc: Global,
    places: &P,
    objects: &'a [Object<D>],
    main: &ImportPath,
) -> Result<Option<&'a FunctionCode<D>>, AllocError>
    ensures { IfOk result (λ found. MatchOption found (HasNoneOutside (program_of (P.place_of places.now) (map object_shown objects.now) main.now)) (λ f. IsOutsideOf (program_of (P.place_of places.now) (map object_shown objects.now) main.now) (map object_shown objects.now) (function_shown f.now))) }
{
    let linking = linked(alloc, places, objects, main)?;
    match linking.beginning {
        Beginning::Outside(number) => Ok(function_at(objects, number)),
        Beginning::NoMain => Ok(None),
        Beginning::Cut => Ok(None),
        Beginning::Starts(_) => Ok(None),
    }
}
