//! Packages in which one identifier is spelled otherwise, and all else is as it was.
ghost use Rattle.std.specs.Prelude.{◌≡◌, ◌<◌, List, length, HoldsAt, IfOk, IfSome};
ghost use Rattle.go_site_core.specs.graph_core.Packages.{trees_of};
ghost use Rattle.go_declared_core.specs.block_core.Naming.{HaveOneEach};
ghost use Rattle.go_declared_core.specs.block_core.declared.imports.Imported.{Imported};
ghost use Rattle.test_snapshot.specs.Likeness.{AreAlike};

use crate::answers::add_answer;
use crate::shot::Shot;
use go_denote_core::text_core::add;
use go_emit_core::package_core::{Part, compile_part};
use go_parse_core::tree_core::{OccId, occurrences, renamed};
use go_site_core::graph_core::{Package, PackageSource, SourceFile, assemble};
use go_table_core::path_core::ImportPath;
use std::alloc::{AllocError, Global};
use test_probe::show::Lines;

/// The file of a number of a package, in which the identifier that is the occurrence of a number is spelled otherwise; none where that is no identifier.
fn respelled_file(
    alloc: Global,
    package: &Package,
    file: usize,
    at: OccId,
    name: &str,
) -> Result<Option<SourceFile>, AllocError>
    requires { file < length «package».now.1 }
    ensures { IfOk result (λ found. IfSome found (λ changed. HoldsAt (λ source. AreAlike source changed) «package».now.1 file)) }
{
    let tree = package.tree(file);
    let uses = occurrences(alloc, tree)?;
    match uses.get(at.0) {
        Some(used) if used.role.is_identifier() => {
            let tree = renamed(alloc, tree, at, name)?;
            let source = &package.files()[file];
            let file_name = String::from_str(alloc, source.name())?;
            let text = String::from_str(alloc, source.text())?;
            let changed = SourceFile::with_tree(alloc, file_name, text, tree)?;
            Ok(Some(changed))
        }
        _ => Ok(None),
    }
}

/// The path and the files of a package, with another file in the place of the one of a number.
fn source_with(
    alloc: Global,
    package: &Package,
    file: usize,
    changed: SourceFile,
) -> Result<PackageSource, AllocError>
    requires there { file < length «package».now.1 }
    requires alike { HoldsAt (λ source. AreAlike source changed) «package».now.1 file }
    ensures path { IfOk result (λ p. p.0 ≡ «package».now.0) }
    ensures imports { IfOk result (λ p. (is : List (List Imported)) → HaveOneEach (trees_of «package».now.1) is → HaveOneEach (trees_of p.1) is) }
{
    let sources = package.files();
    let mut files = Vec::with_capacity(alloc, sources.len())?;
    for source in sources {
        add(&mut files, source.share()?)?;
    }
    files[file] = changed;
    PackageSource::new(alloc, package.path().share()?, files)
}

/// The part of a package, over what an earlier part sees, in which the identifier that is the occurrence of a number of the file of a number is spelled
/// otherwise; none where that is no identifier.
fn respelled_part(
    alloc: Global,
    part: &Part,
    file: usize,
    at: OccId,
    name: &str,
) -> Result<Option<Part>, AllocError>
    requires { file < length part.now.input.source.1 }
{
    let package = part.input().package();
    let Some(changed) = respelled_file(alloc, package, file, at, name)? else {
        return Ok(None);
    };
    let source = source_with(alloc, package, file, changed)?;
    let Ok(package) = assemble(source) else {
        return Ok(None);
    };
    let _imports = part.input().imports();
    let input = part.input().with_package(alloc, package)?;
    let part = compile_part(alloc, &input)?;
    Ok(Some(part))
}

/// Adds what the occurrence of a number of the file of a number has, which is spelled so, and what is reported of the package.
fn add_part(out: &mut Lines, shot: &Shot<'_>, part: &Part, file: usize, at: OccId, name: &str) {
    let files = part.content().files.as_slice();
    if let Some(made) = files.get(file) {
        if let Some(answer) = made.answers.answers.get(at.0) {
            add_answer(out, &shot.spelling, name, answer);
        }
    }
    for package in shot.named {
        if package.path.as_str() == part.path().as_str() {
            let mut number = 0usize;
            for made in files {
                for fault in &made.report {
                    out.add("fault ");
                    package.add_place(out, number, fault.offset);
                    out.add(" ");
                    out.refuse(fault.rule);
                }
                number = number.saturating_add(1);
            }
        }
    }
}

/// Adds what the package of a path has where an identifier is spelled otherwise: of a file, the number of an occurrence, and the other spelling, with
/// blanks between them.
pub fn add_respelled(
    out: &mut Lines,
    alloc: Global,
    shot: &Shot<'_>,
    path: &ImportPath,
    asked: &str,
) {
    let (name_of_file, rest) = asked.split_once(' ').unwrap_or((asked, ""));
    let (number, name) = rest.split_once(' ').unwrap_or((rest, ""));
    let at = OccId(number.parse().unwrap_or(0));
    let Some(part) = shot.snapshot.part(path) else {
        return out.line("no package");
    };
    let files = part.input().package().files();
    for file in 0..files.len() {
        if files[file].name() == name_of_file {
            return match respelled_part(alloc, part, file, at, name) {
                Ok(Some(part)) => add_part(out, shot, &part, file, at, name),
                Ok(None) => out.line("none"),
                Err(AllocError) => out.cut(),
            };
        }
    }
    out.line("no file");
}
