//! The members of a type.
ghost use Rattle.std.specs.Prelude.{◌≡◌, IfOk, map, option_map};
ghost use Rattle.go_summary_core.specs.table_core.Entries.{find_entry};
ghost use Rattle.go_term_core.specs.Shapes.{shape};
ghost use Rattle.go_select_core.specs.embed_core.OwnersShown.{found_shown};
ghost use Rattle.go_type_doc_core.specs.members.Members.{AreMembers, declared_place, kind_found, member_with, method_found, place_shown, start_of, type_member_shown};

use go_path_core::ImportPath;
use go_path_core::text_core::{Name, add};
use go_select_core::levels::{Operand, behind};
use go_select_core::{Member, Selected, path_names, selectable};
use go_term_core::MemberPlace;
use go_term_core::decl_core::DeclRef;
use go_typexpr_core::type_core::{TypeTable, TypeTerm};
use std::alloc::{AllocError, Global};

/// What a member of a type is.
#[derive(Clone, Copy, Debug, PartialEq, Eq)]
pub enum MemberKind {
    /// A field, which a selector names as an operand.
    Field,
    /// A method, which a selector names where it is called.
    Method,
}

/// Where a method is declared with its receiver: the path of its package, and its declaration there.
#[derive(Clone, Copy)]
pub struct MethodPlace<'a> {
    pub path: &'a ImportPath,
    pub decl: DeclRef,
}

/// A member of a type, as a variable of the type has it.
#[derive(Drop)]
pub struct TypeMember<'a> {
    pub name: Name,
    pub kind: MemberKind,
    /// The names of the embedded fields that lead to it, in order.
    pub through: Vec<Name>,
    /// Where it is declared, if it is a method that is declared with a receiver.
    pub method: Option<MethodPlace<'a>>,
}

// What a member is.
fn kind_of(member: Member<'_>) -> MemberKind
    ensures { result ≡ kind_found (found_shown member.entry) }
{
    match member {
        Member::Field(_, _) => MemberKind::Field,
        Member::Method(_, _) => MemberKind::Method,
        Member::InterfaceMethod(_, _) => MemberKind::Method,
        Member::ErrorMethod => MemberKind::Method,
    }
}

// The place of a method of the package of a path, if it stands outside functions.
fn declared_at(path: &ImportPath, place: MemberPlace) -> Option<MethodPlace<'_>>
    ensures { option_map place_shown result ≡ declared_place path.now place }
{
    match place {
        MemberPlace::Declared(decl) => Some(MethodPlace { path, decl }),
        MemberPlace::Local(_) => None,
    }
}

// Where a member is declared, if it is a method that is declared with a receiver.
fn method_of<'a>(member: Member<'a>) -> Option<MethodPlace<'a>>
    ensures { option_map place_shown result ≡ method_found (found_shown member.entry) }
{
    match member {
        Member::Method(path, method) => declared_at(path, method.place),
        Member::Field(_, _) => None,
        Member::InterfaceMethod(_, _) => None,
        Member::ErrorMethod => None,
    }
}

// Names of their own.
fn owned_names(alloc: Global, all: &[&str]) -> Result<Vec<Name>, AllocError>
    ensures { IfOk result (λ v. v.items ≡ map (λ n. n.now) all.now) }
{
    let mut names = Vec::new(alloc);
    for text in all {
        let name = Name::from_text(alloc, text)?;
        add(&mut names, name)?;
    }
    Ok(names)
}

// The type in which the members of a type are searched: what a pointer type points to, and else the type itself.
fn start_of<'a>(table: &'a TypeTable, term: &'a TypeTerm) -> &'a TypeTerm
    ensures { shape result.now ≡ start_of (find_entry table.now) (shape term.now) }
{
    match behind(table, term) {
        Ok(Operand::In(start, _)) => start,
        Ok(Operand::FieldsIn(start)) => start,
        Err(_) => term,
    }
}

// A member that is searched in a type.
fn member<'a>(
    alloc: Global,
    table: &'a TypeTable,
    start: &'a TypeTerm,
    name: &Name,
    selected: &Selected<'a>,
) -> Result<TypeMember<'a>, AllocError>
    ensures { IfOk result (λ m. type_member_shown m ≡ member_with (find_entry table.now) (shape start.now) (name.now, selected.now)) }
{
    let names = path_names(alloc, table, start, &selected.path)?;
    let through = owned_names(alloc, &names)?;
    let name = Name::from_text(alloc, name.as_str())?;
    Ok(TypeMember {
        name,
        kind: kind_of(selected.member),
        through,
        method: method_of(selected.member),
    })
}

// The members of a listing that are searched in a type.
fn members_in<'a>(
    alloc: Global,
    table: &'a TypeTable,
    start: &'a TypeTerm,
    listed: &[(Name, Selected<'a>)],
) -> Result<Vec<TypeMember<'a>>, AllocError>
    ensures { IfOk result (λ members. map type_member_shown members.items ≡ map (member_with (find_entry table.now) (shape start.now)) listed.now) }
{
    let mut members = Vec::new(alloc);
    for entry in listed {
        let member = member(alloc, table, start, &entry.0, &entry.1)?;
        add(&mut members, member)?;
    }
    Ok(members)
}

/// What a variable of a type has in the package `from`: each field that a selector behind it names as an operand there, and each method that a
/// selector names as what is called, in order of the bytes of their names. There is none where the type is none.
///
/// The time is linear in the members of the types that embedded fields reach, but for a logarithm.
///
/// # Errors
///
/// `AllocError` where memory is wanting.
pub fn members_of<'a>(
    alloc: Global,
    table: &'a TypeTable,
    term: &'a TypeTerm,
    from: &ImportPath,
) -> Result<Vec<TypeMember<'a>>, AllocError>
    ensures { IfOk result (λ members. AreMembers table.now (shape term.now) from.now (map type_member_shown members.items)) }
{
    let start = start_of(table, term);
    let listed = selectable(alloc, table, term, from)?;
    let members = members_in(alloc, table, start, &listed)?;
    Ok(members)
}
