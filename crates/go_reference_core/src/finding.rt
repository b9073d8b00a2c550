//! All uses of a declaration.
ghost use Rattle.std.specs.Prelude.{◌≡◌, IfOk, MatchOption, None, OnOk, Some, slice_get};
ghost use Rattle.go_handle_core.specs.Declarations.{site_shown};
ghost use Rattle.go_query_core.specs.package_core.PackagePartParts.{FileOf, PartModel};
ghost use Rattle.go_reference_core.specs.References.{AreFileReferences, AreReferences, IsFileOf};
ghost use Rattle.go_reference_core.specs.mirrors.Adding.{Adds, IsOfFiles, IsOfSlot, IsOfUses, IsUseAt};

use crate::reference::Reference;
use crate::sites::has_declaration;
use go_handle_core::DeclSite;
use go_query_core::package_core::Part;
use go_query_core::report_core::Answer;
use go_query_core::snap_core::Snapshot;
use std::alloc::{AllocError, Global};

// Adds the occurrence of three numbers, where it uses a declaration.
fn add_use(
    references: &mut Vec<Reference>,
    package: usize,
    file: usize,
    number: usize,
    answer: &Answer,
    site: DeclSite<'_>,
) -> Result<(), AllocError>
    ensures { OnOk result (Adds (IsUseAt (site_shown site.entry) «package» file number answer.now) references.old.items references.new.items) }
{
    if !has_declaration(answer, site) {
        return Ok(());
    }
    references.push(Reference {
        package,
        file,
        number,
        offset: answer.offset,
    })?;
    Ok(())
}

// Adds the uses of a declaration among what the occurrences of the file of two numbers have.
fn add_uses(
    references: &mut Vec<Reference>,
    package: usize,
    file: usize,
    answers: &[Answer],
    site: DeclSite<'_>,
) -> Result<(), AllocError>
    ensures { OnOk result (Adds (IsOfUses (site_shown site.entry) «package» file answers.now) references.old.items references.new.items) }
{
    for number in 0..answers.len() {
        add_use(references, package, file, number, &answers[number], site)?;
    }
    Ok(())
}

// Adds those in the files of the package of a number.
fn add_part(
    references: &mut Vec<Reference>,
    package: usize,
    part: &Part,
    site: DeclSite<'_>,
) -> Result<(), AllocError>
    ensures { OnOk result (Adds (IsOfFiles (site_shown site.entry) «package» part.now.content.files) references.old.items references.new.items) }
{
    let files = &part.content().files;
    for file in 0..files.len() {
        add_uses(
            references,
            package,
            file,
            &files[file].answers.answers,
            site,
        )?;
    }
    Ok(())
}

// Adds those in the package of a number, where it is assembled.
fn add_slot(
    references: &mut Vec<Reference>,
    package: usize,
    slot: &Option<Part>,
    site: DeclSite<'_>,
) -> Result<(), AllocError>
    ensures { OnOk result (Adds (IsOfSlot (site_shown site.entry) «package» slot.now) references.old.items references.new.items) }
{
    match slot {
        Some(part) => add_part(references, package, part, site),
        None => Ok(()),
    }
}

/// The identifiers that have a declaration, in all files of all assembled packages of a snapshot, in order. The time is linear in the occurrences of the
/// snapshot.
///
/// # Errors
///
/// `AllocError` where memory is wanting.
pub fn references(
    alloc: Global,
    snapshot: &Snapshot,
    site: DeclSite<'_>,
) -> Result<Vec<Reference>, AllocError>
    ensures { IfOk result (λ references. AreReferences snapshot.now (site_shown site.entry) references.items) }
{
    let parts = snapshot.parts();
    let mut references = Vec::new(alloc);
    for package in 0..parts.len() {
        add_slot(&mut references, package, &parts[package], site)?;
    }
    Ok(references)
}

// The part of a number, if there is one.
fn part_at(parts: &[Option<Part>], package: usize) -> Option<&Part>
    ensures { MatchOption result ((p : PartModel) → ¬ (slice_get parts.now «package» ≡ Some (Some p))) (λ p. slice_get parts.now «package» ≡ Some (Some p.now)) }
{
    match parts.get(package) {
        Some(Some(part)) => Some(part),
        Some(None) => None,
        None => None,
    }
}

// What the occurrences of the file of a number have; none where the part has no such file.
fn answers_at(part: &Part, file: usize) -> Option<&[Answer]>
    ensures { MatchOption result (slice_get part.now.content.files file ≡ None) (λ us. (f : FileOf) × (slice_get part.now.content.files file ≡ Some f) × (us.now ≡ f.answers.uses)) }
{
    match part.content().files.get(file) {
        Some(made) => Some(made.answers.answers.as_slice()),
        None => None,
    }
}

// What the occurrences of the file of two numbers have; none where there is no such file.
fn answers_in(snapshot: &Snapshot, package: usize, file: usize) -> Option<&[Answer]>
    ensures { MatchOption result ((f : FileOf) → ¬ IsFileOf snapshot.now «package» file f) (λ us. (f : FileOf) × IsFileOf snapshot.now «package» file f × (us.now ≡ f.answers.uses)) }
{
    match part_at(snapshot.parts(), package) {
        Some(part) => answers_at(part, file),
        None => None,
    }
}

/// The identifiers that have a declaration, of a file by its number and that of its package, in order: those that [`references`] has there. There are none
/// where there is no assembled package or no file of these numbers. The time is linear in the occurrences of the file.
///
/// # Errors
///
/// `AllocError` where memory is wanting.
pub fn file_references(
    alloc: Global,
    snapshot: &Snapshot,
    package: usize,
    file: usize,
    site: DeclSite<'_>,
) -> Result<Vec<Reference>, AllocError>
    ensures { IfOk result (λ references. AreFileReferences snapshot.now «package» file (site_shown site.entry) references.items) }
{
    let mut references = Vec::new(alloc);
    match answers_in(snapshot, package, file) {
        Some(answers) => {
            add_uses(&mut references, package, file, answers, site)?;
            Ok(references)
        }
        None => Ok(references),
    }
}
