//! Packages as they run, as they are listed.
use crate::answers::add_site;
use crate::shot::Shot;
use go_emit_core::emit;
use go_object_core::{Object, listing};
use go_report_core::answer::Site;
use go_site_core::SiteSpelling;
use go_table_core::path_core::ImportPath;
use std::alloc::{AllocError, Global};
use test_probe::show::Lines;

/// Adds an object: its path, its name, the packages that its imports come to, and its functions.
fn add_object(out: &mut Lines, alloc: Global, spelling: &SiteSpelling<'_>, object: &Object<Site>) {
    out.pieces(&["object ", object.path.as_str(), " ", object.name.as_str()]);
    for import in &object.imports {
        out.pieces(&[" ", import.as_str()]);
    }
    out.line("");
    match listing(alloc, spelling, object.functions.as_slice()) {
        Ok(listed) => out.add(listed.as_str()),
        Err(AllocError) => out.cut(),
    }
}

/// Adds the objects of all packages that have one, in order of path.
pub fn add_objects(out: &mut Lines, alloc: Global, shot: &Shot<'_>) {
    match shot.snapshot.objects(alloc) {
        Ok(objects) => {
            for object in &objects {
                add_object(out, alloc, &shot.spelling, object);
            }
        }
        Err(AllocError) => out.cut(),
    }
}

/// Adds what the occurrences of the functions of an object come to, by the numbers of the functions, up to the first number that none has.
fn add_refs(out: &mut Lines, spelling: &SiteSpelling<'_>, object: &Object<Site>) {
    for number in 0..usize::MAX {
        out.count("", number, "");
        let Some(sites) = object.refs(number) else {
            return out.line(" none");
        };
        for site in sites {
            out.add(" ");
            add_site(out, spelling, site);
        }
        out.line("");
    }
}

/// Adds the object of the package of a path, or what the occurrences of its functions come to; where there is none, why.
pub fn add_emitted(
    out: &mut Lines,
    alloc: Global,
    shot: &Shot<'_>,
    path: &ImportPath,
    is_listed: bool,
) {
    let Some(part) = shot.snapshot.part(path) else {
        return out.line("no package");
    };
    match emit(alloc, part) {
        Ok(Some(object)) => {
            if is_listed {
                add_object(out, alloc, &shot.spelling, &object);
            } else {
                add_refs(out, &shot.spelling, &object);
            }
        }
        Ok(None) => out.line("no object"),
        Err(AllocError) => out.cut(),
    }
}
