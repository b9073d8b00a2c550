//! What selectors choose.
ghost use Rattle.std.specs.Prelude.{◌≡◌, ◌↔◌, ℕ, List, IsTrue, IfOk, Ok};
ghost use Rattle.go_term_core.specs.Terms.{Term};
ghost use Rattle.go_table_core.specs.Entries.{find_entry};
ghost use Rattle.go_mset_core.specs.select_core.LevelsSelectors.{IsSelectorAnswer};
ghost use Rattle.go_handle_core.specs.deciding.Selecting.{chosen_of};
ghost use Rattle.go_handle_core.specs.Names.{shown_choice, selection_in};

use crate::decls::{Decl, member_decl};
use crate::home::Home;
use crate::signatures::{SignatureRef, typed};
use crate::types::TypeRef;
use go_denote_core::Selection;
use go_denote_core::text_core::Rule;
use go_mset_core::select_core::{EmbedPath, Member, Selected, select, select_behind_pointer};
use go_table_core::TypeTable;
use go_table_core::path_core::ImportPath;
use std::alloc::{AllocError, Global};

// Whether memory was wanting.
fn is_memory(rule: Rule) -> bool
    ensures { IsTrue result ↔ (rule ≡ Rule.M0) }
{
    rule == Rule::M0
}

// What a selector denotes behind an operand of a type, where its name is written in the package `from`. Errors: M0, and the rule that it
// breaks.
fn answer<'a>(
    alloc: Global,
    table: &'a TypeTable,
    t: &TypeRef<'a>,
    name: &str,
    from: &ImportPath,
) -> Result<Selected<'a>, Rule>
    ensures { IsSelectorAnswer (find_entry table.now) t.now name.now from.now result }
{
    if t.stars == 0 {
        return select(alloc, table, t.term, name, from);
    }
    if t.stars == 1 {
        return select_behind_pointer(alloc, table, t.term, name, from);
    }
    if name == "_" {
        return Err(Rule::S8);
    }
    Err(Rule::S6)
}

// What is selected, with its declaration.
fn shown<'a>(
    table: &'a TypeTable,
    home: &'a Home,
    selected: Selected<'a>,
) -> Selection<TypeRef<'a>, SignatureRef<'a>, Decl<'a>, EmbedPath>
    ensures { result ≡ shown_choice (find_entry table.now) (chosen_of (Ok selected.entry)) }
{
    let decl = member_decl(selected.member);
    let path = selected.path;
    let passes = selected.through_pointer;
    match selected.member {
        Member::Field(_, field) => {
            Selection::Field(decl, path, typed(table, field.term()), passes)
        }
        Member::Method(_, method) => {
            let signature = SignatureRef::of(&method.signature);
            Selection::Method(decl, path, signature, method.pointer, passes)
        }
        Member::InterfaceMethod(_, method) => {
            let signature = SignatureRef::of(&method.signature);
            Selection::Method(decl, path, signature, false, passes)
        }
        Member::ErrorMethod => {
            Selection::Method(decl, path, home.error_signature(), false, passes)
        }
    }
}

/// What a selector denotes, with its declaration, by how it is answered: as [`select`](go_mset_core::select_core::select) answers it
/// in the package of a place.
///
/// # Errors
///
/// `AllocError` where memory was wanting.
pub fn chosen<'a>(
    table: &'a TypeTable,
    home: &'a Home,
    answered: Result<Selected<'a>, Rule>,
) -> Result<Selection<TypeRef<'a>, SignatureRef<'a>, Decl<'a>, EmbedPath>, AllocError>
    ensures { (t : Term) (name : List ℕ) → IsSelectorAnswer (find_entry table.now) t name home.now answered.entry → IfOk result (λ found. found ≡ selection_in table.now home.now t name) }
{
    match answered {
        Ok(selected) => Ok(shown(table, home, selected)),
        Err(rule) => {
            if is_memory(rule) {
                return Err(AllocError);
            }
            Ok(Selection::Missing(rule))
        }
    }
}

/// The member that a name selects behind an operand of a type, asked for from a package.
///
/// The Go specification, "Selectors".
///
/// # Errors
///
/// `AllocError` where memory is wanting.
pub fn selection<'a>(
    alloc: Global,
    table: &'a TypeTable,
    home: &'a Home,
    t: &TypeRef<'a>,
    name: &str,
) -> Result<Selection<TypeRef<'a>, SignatureRef<'a>, Decl<'a>, EmbedPath>, AllocError>
    ensures { IfOk result (λ found. found ≡ selection_in table.now home.now t.now name.now) }
{
    let answered = answer(alloc, table, t, name, home.path());
    chosen(table, home, answered)
}
