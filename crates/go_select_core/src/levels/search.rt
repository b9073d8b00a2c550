//! A selector, searched by one level after another.
ghost use Rattle.std.specs.Prelude.{◌≡◌, ◌↔◌, IsTrue, IfOk};
ghost use Rattle.go_embed_core.specs.table_core.Entries.{find_entry};
ghost use Rattle.go_term_core.specs.Shapes.{shape};
ghost use Rattle.go_embed_core.specs.Owners.{owner_in, has_spelled};
ghost use Rattle.go_embed_core.specs.OwnersShown.{found_shown};
ghost use Rattle.go_select_core.specs.levels.Selectors.{In, FieldsIn, IsSelectorAnswer, IsFieldFound};
ghost use Rattle.go_term_core.specs.Terms.{PointerTo};
ghost use Rattle.go_select_core.specs.levels.mirrors.Levels.{HasOne};
ghost use Rattle.go_select_core.specs.levels.mirrors.Searches.{IsSearched, IsSearchedOrNot, IsFoundOrNot};

use crate::levels::level::{Judged, Levels, expand, judge};
use crate::levels::operand::{Operand, behind, behind_pointer};
use crate::levels::path::EmbedPath;
use go_embed_core::type_core::{TypeTable, TypeTerm};
use go_embed_core::{Hits, Member, Owner};
use go_path_core::ImportPath;
use go_path_core::text_core::Rule;
use std::alloc::{AllocError, Global};

/// What a selector denotes.
#[derive(Drop)]
pub struct Selected<'a> {
    pub member: Member<'a>,
    /// The embedded fields that lead to the type which has the member, each by its place among the fields of its struct type.
    pub path: EmbedPath,
    /// Whether the operand's type is a pointer type, or a field on the path is embedded with a star.
    pub through_pointer: bool,
}

// What a name denotes in a type that has itself no member of it, or the rule that it breaks. `spelled` says whether the type has a member that
// is spelled so.
fn search_deeper<'a>(
    alloc: Global,
    table: &'a TypeTable,
    start: &'a TypeTerm,
    spelled: bool,
    name: &str,
    from: &ImportPath,
) -> Result<Result<Selected<'a>, Rule>, AllocError>
    requires none { HasOne (find_entry table.now) name.now from.now (shape start.now) → ⊥ }
    requires spelled { spelled ≡ has_spelled (owner_in (find_entry table.now) (shape start.now)) name.now }
    ensures { IfOk result (λ found. IsSearched (find_entry table.now) (shape start.now) name.now from.now found) }
{
    let mut levels = Levels::begin(alloc, table, start)?;
    let mut spelled = spelled;
    let mut first: usize = 0;
    'levels: while first < levels.types.len() {
        let end = levels.types.len();
        expand(table, &mut levels, first, end)?;
        match judge(table, &levels.types, end, name, from) {
            Judged::Nothing(here) => spelled = spelled || here,
            Judged::One(n, member) => {
                return Ok(Ok(Selected {
                    member,
                    path: levels.trails.path(alloc, n)?,
                    through_pointer: levels.types[n].pointer,
                }));
            }
            Judged::More => return Ok(Err(Rule::S2)),
        }
        first = end;
    }
    Ok(Err(if spelled { Rule::S3 } else { Rule::S1 }))
}

// What a name denotes in a type, at the shallowest depth. Errors: M0, and the rule that it breaks.
fn search<'a>(
    alloc: Global,
    table: &'a TypeTable,
    start: &'a TypeTerm,
    name: &str,
    from: &ImportPath,
) -> Result<Selected<'a>, Rule>
    ensures { IsSearchedOrNot (find_entry table.now) (shape start.now) name.now from.now result }
{
    let owner = Owner::of(table, start);
    match owner.hits(name, from) {
        Hits::Nothing => {
            let spelled = owner.has_spelled(name);
            match search_deeper(alloc, table, start, spelled, name, from) {
                Ok(found) => found,
                Err(_) => Err(Rule::M0),
            }
        }
        Hits::One(member) => Ok(Selected {
            member,
            path: EmbedPath::new(alloc),
            through_pointer: false,
        }),
        Hits::More => Err(Rule::S2),
    }
}

// What a name denotes in a type. Errors: M0, and the rule that it breaks.
fn select_in<'a>(
    alloc: Global,
    table: &'a TypeTable,
    start: &'a TypeTerm,
    by_pointer: bool,
    name: &str,
    from: &ImportPath,
) -> Result<Selected<'a>, Rule>
    ensures { IsFoundOrNot (find_entry table.now) (In (shape start.now) by_pointer) name.now from.now result }
{
    let found = search(alloc, table, start, name, from)?;
    Ok(Selected {
        member: found.member,
        path: found.path,
        through_pointer: by_pointer || found.through_pointer,
    })
}

// What a name denotes in what a defined pointer type points to, where fields alone are found. Errors: M0, and the rule that it breaks.
fn select_field<'a>(
    alloc: Global,
    table: &'a TypeTable,
    start: &'a TypeTerm,
    name: &str,
    from: &ImportPath,
) -> Result<Selected<'a>, Rule>
    ensures { IsFoundOrNot (find_entry table.now) (FieldsIn (shape start.now)) name.now from.now result }
{
    let found = search(alloc, table, start, name, from)?;
    if !is_field(found.member) {
        return Err(Rule::S7);
    }
    Ok(Selected {
        member: found.member,
        path: found.path,
        through_pointer: true,
    })
}

/// What the selector `x.name` denotes for an operand `x` of a type, where `name` is written in the package `from`.
///
/// It is the field or method at the shallowest depth, where there is exactly one. The Go specification, "Selectors".
///
/// # Errors
///
/// The first of these that holds, and no other but `Rule::M0` where memory is wanting:
/// - `S8`: the name is `_`.
/// - `S4`: the operand has no type.
/// - `S6`: the type is a pointer to a pointer type or to an interface type.
/// - `S2`: there are members of the name, and none is alone at the shallowest depth.
/// - `S3`: there is none, and a member is spelled so that is not exported and of another package.
/// - `S1`: there is none.
/// - `S7`: the type is a defined pointer type, and the member a method.
pub fn select<'a>(
    alloc: Global,
    table: &'a TypeTable,
    term: &'a TypeTerm,
    name: &str,
    from: &ImportPath,
) -> Result<Selected<'a>, Rule>
    ensures { IsSelectorAnswer (find_entry table.now) (shape term.now) name.now from.now result }
{
    if name == "_" {
        return Err(Rule::S8);
    }
    match behind(table, term) {
        Ok(Operand::In(start, by_pointer)) => select_in(
            alloc, table, start, by_pointer, name, from,
        ),
        Ok(Operand::FieldsIn(start)) => select_field(alloc, table, start, name, from),
        Err(rule) => Err(rule),
    }
}

/// What the selector `x.name` denotes for an operand `x` whose type is a pointer to a type, where `name` is written in the package `from`.
///
/// # Errors
///
/// As of [`select`].
pub fn select_behind_pointer<'a>(
    alloc: Global,
    table: &'a TypeTable,
    base: &'a TypeTerm,
    name: &str,
    from: &ImportPath,
) -> Result<Selected<'a>, Rule>
    ensures { IsSelectorAnswer (find_entry table.now) (PointerTo (shape base.now)) name.now from.now result }
{
    if name == "_" {
        return Err(Rule::S8);
    }
    match behind_pointer(table, base, Operand::In(base, true)) {
        Ok(Operand::In(start, by_pointer)) => select_in(
            alloc, table, start, by_pointer, name, from,
        ),
        Ok(Operand::FieldsIn(start)) => select_field(alloc, table, start, name, from),
        Err(rule) => Err(rule),
    }
}

/// Whether a member is a field.
pub fn is_field(member: Member<'_>) -> bool
    ensures { IsTrue result ↔ IsFieldFound (found_shown member.entry) }
{
    match member {
        Member::Field(_, _) => true,
        Member::Method(_, _) => false,
        Member::InterfaceMethod(_, _) => false,
        Member::ErrorMethod => false,
    }
}
