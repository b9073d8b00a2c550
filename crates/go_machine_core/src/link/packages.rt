//! The packages of a program.
ghost use Rattle.std.specs.Prelude.{◌≡◌, ◌≤◌, ◌+◌, [], IfOk, length, map, slice_index_or};
ghost use Rattle.std.specs.List.{prefix_len};
ghost use Rattle.go_object_core.specs.Objects.{object_shown};
ghost use Rattle.go_collections_core.specs.spelling_index.Spelled.{places_of as spelled_places};
ghost use Rattle.go_machine_core.specs.link.Packages.{is_before, order_from, package_shown, package_of};
ghost use Rattle.go_machine_core.specs.link.mirrors.Numbering.{numbered_path};

use crate::link::functions::numbers_called;
use go_collections_core::spelling_index::Spellings;
use go_object_core::Object;
use go_path_core::ImportPath;
use std::alloc::{AllocError, Global};

/// A package of a program, by the numbers of packages and functions.
#[derive(Drop)]
pub(crate) struct Package {
    /// Whether it is called `main`.
    pub(crate) is_main: bool,
    /// The packages that its imports come to: none where one has no object.
    pub(crate) imports: Vec<Option<usize>>,
    /// Its functions `init`.
    pub(crate) inits: Vec<usize>,
    /// Its functions `main`.
    pub(crate) mains: Vec<usize>,
}

/// The paths of packages.
pub(crate) fn paths_of<'a, D>(
    alloc: Global,
    objects: &'a [Object<D>],
) -> Result<Vec<&'a str>, AllocError>
    ensures { IfOk result (λ paths. map (λ p. p.now) paths.items ≡ map (λ o. o.path) (map object_shown objects.now)) }
{
    let mut paths = Vec::new(alloc);
    for object in objects {
        paths.push(object.path.as_str())?;
    }
    Ok(paths)
}

// Whether the path of a number stands before another.
fn is_before(paths: &[&str], number: usize, path: &str) -> bool
    ensures { result ≡ is_before (slice_index_or (map (λ p. p.now) paths.now) number []) path.now }
{
    let found = match paths.get(number) {
        Some(found) => *found,
        None => "",
    };
    found < path
}

// How many numbers stand in front whose paths are before a path.
fn place_of(paths: &[&str], order: &[usize], path: &str) -> usize
    ensures value { result ≡ prefix_len (λ k. is_before (slice_index_or (map (λ p. p.now) paths.now) k []) path.now) order.now }
    ensures within { result ≤ length order.now }
{
    for (place, number) in order.iter().enumerate() {
        if !is_before(paths, *number, path) {
            return place;
        }
    }
    order.len()
}

/// The numbers of paths in their order. Where they stand in it the time that it takes is linear in them, but for moves of numbers.
pub(crate) fn order_of(alloc: Global, paths: &[&str]) -> Result<Vec<usize>, AllocError>
    ensures { IfOk result (λ order. order.items ≡ order_from (map (λ p. p.now) paths.now) 0 (map (λ p. p.now) paths.now)) }
{
    let mut order = Vec::new(alloc);
    for number in (0..paths.len()).rev() {
        let place = place_of(paths, &order, paths[number]);
        order.insert(place, number)?;
    }
    Ok(order)
}

/// The number of the package of a path.
pub(crate) fn number_of(numbers: &Spellings, path: &ImportPath) -> Option<usize>
    ensures { result ≡ numbered_path (spelled_places numbers.now) path.now }
{
    match numbers.find(path.as_str()) {
        Some(found) => Some(found.first),
        None => None,
    }
}

// The numbers of the packages of paths.
fn numbers_of_paths(
    alloc: Global,
    numbers: &Spellings,
    paths: &[ImportPath],
) -> Result<Vec<Option<usize>>, AllocError>
    ensures { IfOk result (λ r. r.items ≡ map (numbered_path (spelled_places numbers.now)) paths.now) }
{
    let mut found = Vec::new(alloc);
    for path in paths {
        found.push(number_of(numbers, path))?;
    }
    Ok(found)
}

/// The package of an object whose functions are numbered from the first on.
pub(crate) fn package_of<D>(
    alloc: Global,
    numbers: &Spellings,
    first: usize,
    object: &Object<D>,
) -> Result<Package, AllocError>
    requires { first + length object.now.functions.items ≤ usize.MAX }
    ensures { IfOk result (λ p. package_shown p ≡ package_of (numbered_path (spelled_places numbers.now)) first (object_shown object.now)) }
{
    let imports = numbers_of_paths(alloc, numbers, &object.imports)?;
    let inits = numbers_called(alloc, "init", first, &object.functions)?;
    let mains = numbers_called(alloc, "main", first, &object.functions)?;
    Ok(Package {
        is_main: object.name.as_str() == "main",
        imports,
        inits,
        mains,
    })
}
