//! Which imports of a file are used.
ghost use Rattle.std.specs.Prelude.{◌≡◌, IfOk, OnOk, None, Some, option_copied, slice_get};
ghost use Rattle.std.specs.Option.{option_to_list};
ghost use Rattle.go_block_core.specs.Blocks.{file_binding};
ghost use Rattle.go_summary_core.specs.handle_core.Declarations.{site_shown};
ghost use Rattle.go_report_core.specs.usage.Used.{has_next, is_declared, is_exported, is_import, is_name_role, is_package_outcome, is_package_decl, is_qualifier, is_target_outcome, is_target_decl, is_target_place, used_by, used_if, used_places, uses_binding};
ghost use Rattle.go_report_core.specs.usage.mirrors.Steps.{some_used, with_places};

use crate::answer::Answer;
use go_block_core::{Binding, Blocks, Target};
use go_expr_core::denote_core::Outcome;
use go_path_core::ImportPath;
use go_summary_core::handle_core::DeclSite;
use go_term_core::MemberPlace;
use go_term_core::decl_core::DeclRef;
use go_tree_core::{Occ, Role};
use indexmap::IndexSet;
use std::alloc::{AllocError, Global};

// Whether a package is declared at a site.
fn is_package_site(site: DeclSite<'_>) -> bool
    ensures { result ≡ is_package_decl (site_shown site.entry) }
{
    match site {
        DeclSite::Package(_) => true,
        DeclSite::Universe(_) => false,
        DeclSite::ErrorMethod => false,
        DeclSite::InFile(_, _) => false,
    }
}

// Whether what an occurrence has is a package.
fn is_package(answer: &Answer) -> bool
    ensures { result ≡ is_package_outcome answer.now.outcome }
{
    match &answer.outcome {
        Outcome::Declared(site) => is_package_site(site.decl().site()),
        Outcome::Selected(_, _) => false,
        Outcome::Refused(_) => false,
    }
}

// Whether an occurrence has a declaration.
fn is_declared(answer: &Answer) -> bool
    ensures { result ≡ is_declared answer.now.outcome }
{
    match &answer.outcome {
        Outcome::Declared(_) => true,
        Outcome::Selected(_, _) => true,
        Outcome::Refused(_) => false,
    }
}

// Whether a dot import binds this declaration of the package of a path.
fn is_exported(target: &Target, path: &ImportPath, decl: DeclRef) -> bool
    ensures { result ≡ is_exported target.now path.now decl }
{
    match target {
        Target::Package(_) => false,
        Target::Refused(_) => false,
        Target::Exported(key) => {
            key.decl.file == decl.file
                && key.decl.number == decl.number
                && key.path.as_str() == path.as_str()
        }
    }
}

// Whether a dot import binds the declaration at a place of the package of a path.
fn is_target_place(target: &Target, path: &ImportPath, place: MemberPlace) -> bool
    ensures { result ≡ is_target_place target.now path.now place }
{
    match place {
        MemberPlace::Declared(decl) => is_exported(target, path, decl),
        MemberPlace::Local(_) => false,
    }
}

// Whether a dot import binds what is declared at a site.
fn is_target_site(target: &Target, site: DeclSite<'_>) -> bool
    ensures { result ≡ is_target_decl target.now (site_shown site.entry) }
{
    match site {
        DeclSite::InFile(path, place) => is_target_place(target, path, place),
        DeclSite::Package(_) => false,
        DeclSite::Universe(_) => false,
        DeclSite::ErrorMethod => false,
    }
}

// Whether what an occurrence has is the declaration that a dot import binds.
fn is_target(target: &Target, answer: &Answer) -> bool
    ensures { result ≡ is_target_outcome target.now answer.now.outcome }
{
    match &answer.outcome {
        Outcome::Declared(site) => is_target_site(target, site.decl().site()),
        Outcome::Selected(_, _) => false,
        Outcome::Refused(_) => false,
    }
}

// Whether there is an occurrence behind another, and has a declaration.
fn has_next(next: Option<&Answer>) -> bool
    ensures { result ≡ has_next (option_copied next.entry) }
{
    match next {
        Some(answer) => is_declared(answer),
        None => false,
    }
}

// Whether an occurrence of this role is a name that is looked up.
fn is_name(role: Role) -> bool
    ensures { result ≡ is_name_role role }
{
    match role {
        Role::Import => false,
        Role::Type => true,
        Role::Value => true,
        Role::Callee => true,
        Role::Qualifier => true,
        Role::Selector(_) => false,
        Role::Key => false,
        Role::Call => false,
    }
}

// Whether an occurrence of this role stands left of a dot.
fn is_qualifier(role: Role) -> bool
    ensures { result ≡ is_qualifier role }
{
    match role {
        Role::Qualifier => true,
        Role::Import => false,
        Role::Type => false,
        Role::Value => false,
        Role::Callee => false,
        Role::Selector(_) => false,
        Role::Key => false,
        Role::Call => false,
    }
}

// Whether an occurrence is an import.
pub(crate) fn is_import(role: Role) -> bool
    ensures { result ≡ is_import role }
{
    match role {
        Role::Import => true,
        Role::Qualifier => false,
        Role::Type => false,
        Role::Value => false,
        Role::Callee => false,
        Role::Selector(_) => false,
        Role::Key => false,
        Role::Call => false,
    }
}

// Whether a name uses the import that binds it so.
fn uses_binding(target: &Target, role: Role, answer: &Answer, next: Option<&Answer>) -> bool
    ensures { result ≡ uses_binding target.now role answer.now.outcome (option_copied next.entry) }
{
    if is_package(answer) {
        is_qualifier(role) && has_next(next)
    } else {
        is_target(target, answer)
    }
}

// The place of the import that a name uses which is bound so, if it is bound.
fn used_if(
    binding: Option<&Binding>,
    role: Role,
    answer: &Answer,
    next: Option<&Answer>,
) -> Option<usize>
    ensures { option_to_list result ≡ used_if (option_copied binding.entry) role answer.now.outcome (option_copied next.entry) }
{
    match binding {
        Some(binding) => {
            if uses_binding(&binding.target, role, answer, next) {
                Some(binding.at)
            } else {
                None
            }
        }
        None => None,
    }
}

// The place of the import that an occurrence of the file of a number uses, if it uses one.
fn used_by(
    blocks: &Blocks,
    file: usize,
    occ: &Occ,
    answer: &Answer,
    next: Option<&Answer>,
) -> Option<usize>
    ensures { option_to_list result ≡ used_by blocks.now file occ.now answer.now (option_copied next.entry) }
{
    if is_name(occ.role) {
        let binding = blocks.file(file, occ.spelling.as_str());
        used_if(binding, occ.role, answer, next)
    } else {
        None
    }
}

// Adds the place of the import that an occurrence uses, if it uses one and the place is not there. Without what it has there is none.
fn add_used(
    places: &mut IndexSet<usize>,
    blocks: &Blocks,
    file: usize,
    occ: &Occ,
    answer: Option<&Answer>,
    next: Option<&Answer>,
) -> Result<(), AllocError>
    ensures { OnOk result (places.new.keys ≡ with_places places.old.keys (some_used blocks.now file occ.now (option_copied answer.entry) (option_copied next.entry))) }
{
    match answer {
        Some(answer) => {
            if let Some(place) = used_by(blocks, file, occ, answer, next) {
                places.insert(place)?;
            }
            Ok(())
        }
        None => Ok(()),
    }
}

// What the occurrence of a number has, if there is one.
fn answer_at(answers: &[Answer], number: usize) -> Option<&Answer>
    ensures { option_copied result ≡ slice_get answers.now number }
{
    answers.get(number)
}

/// Adds the places of the imports of the file of a number that its occurrences use, each once, in the order of first use.
pub(crate) fn add_used_places(
    places: &mut IndexSet<usize>,
    blocks: &Blocks,
    file: usize,
    occs: &[Occ],
    answers: &[Answer],
) -> Result<(), AllocError>
    ensures { OnOk result (places.new.keys ≡ with_places places.old.keys (used_places blocks.now file occs.now answers.now)) }
{
    for (number, occ) in occs.iter().enumerate() {
        let answer = answer_at(answers, number);
        let next = answer_at(answers, number + 1);
        add_used(places, blocks, file, occ, answer, next)?;
    }
    Ok(())
}
