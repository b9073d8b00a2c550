//! What a variable of a type has, with doc comments.
ghost use Rattle.std.specs.Prelude.{◌≡◌, ◌↔◌, ◌⊎◌, ◌<◌, IfErr, IfOk, IsTrue, OnOk, Some, length, map, option_map};
ghost use Rattle.std.specs.List.{AllZip};
ghost use Rattle.go_term_core.specs.Shapes.{shape};
ghost use Rattle.go_package_core.specs.package_part.Inputs.{path_in};
ghost use Rattle.go_type_doc_core.specs.members.Members.{type_member_shown};
ghost use Rattle.go_query_core.specs.Parts.{IsPartOf};
ghost use Rattle.go_type_doc_core.specs.Comments.{IsMemberDoc};
ghost use Rattle.go_type_doc_core.specs.Naming.{IsOwnRefusal, types_seen};
ghost use Rattle.go_type_doc_core.specs.TypeDocs.{AreTold, IsDocOfType, IsNameRefused, IsTold, IsTypeDoc, IsTypeDocRefusal, member_shown, type_doc_shown};
ghost use Rattle.go_type_doc_core.specs.mirrors.Read.{AreRead};
ghost use Rattle.go_type_doc_core.specs.mirrors.Shown.{IsShownRefusal};
ghost use Rattle.go_type_doc_core.specs.mirrors.Steps.{IsOtherDocOf, IsOtherStop, IsOwnDocOf, IsShownDocOf, method_shown};

use crate::finding::{imported_part, own_part};
use crate::members::{MemberKind, MethodPlace, TypeMember, members_of};
use crate::naming::{other_type, own_type};
use crate::reading::{ReadFiles, method_doc};
use go_package_core::package_part::{Part, types_of};
use go_path_core::ImportPath;
use go_path_core::text_core::{Name, Rule, add};
use go_snap_core::Snapshot;
use go_summary_core::table_core::TypeTable;
use go_term_core::TypeTerm;
use std::alloc::{AllocError, Global};

/// A member of a type, as a variable of the type has it.
pub struct Member<'s> {
    /// The doc comment of a method that is declared with a receiver, as it stands in the text, from the first byte of its first comment to the last byte
    /// of its last one. Empty where there is none, and of a field and of a method of an interface type.
    pub doc: &'s str,
    pub kind: MemberKind,
    pub name: Name,
    /// The names of the embedded fields that lead to it, in order.
    pub through: Vec<Name>,
}

impl Drop for Member<'_> {
    fn drop(self) {
        let Member {
            doc: _,
            kind: _,
            name: _,
            through: _,
        } = self;
    }
}

/// What a variable of a type has.
pub struct TypeDoc<'s> {
    /// Of the package that declares the type.
    pub path: &'s ImportPath,
    /// The name in the clauses of the package.
    pub name: &'s str,
    /// In byte order of name.
    pub members: Vec<Member<'s>>,
}

impl Drop for TypeDoc<'_> {
    fn drop(self) {
        let TypeDoc {
            path: _,
            name: _,
            members: _,
        } = self;
    }
}

// The doc comment of a member.
fn member_doc<'s>(
    alloc: Global,
    snapshot: &'s Snapshot,
    read: &mut ReadFiles<'s>,
    method: Option<MethodPlace<'_>>,
) -> Result<&'s str, AllocError>
    requires { AreRead snapshot.now read.old.files.entries }
    ensures read { OnOk result (AreRead snapshot.now read.new.files.entries) }
    ensures doc { IfOk result (λ doc. IsMemberDoc snapshot.now (method_shown method.entry) doc.now) }
{
    match method {
        Some(place) => method_doc(alloc, snapshot, read, place.path, place.decl),
        None => Ok(""),
    }
}

// A member with its doc comment.
fn member_told<'s>(
    alloc: Global,
    snapshot: &'s Snapshot,
    read: &mut ReadFiles<'s>,
    member: TypeMember<'_>,
) -> Result<Member<'s>, AllocError>
    requires { AreRead snapshot.now read.old.files.entries }
    ensures read { OnOk result (AreRead snapshot.now read.new.files.entries) }
    ensures told { IfOk result (λ m. IsTold snapshot.now (type_member_shown member.entry) (member_shown m)) }
{
    let TypeMember {
        name,
        kind,
        through,
        method,
    } = member;
    let doc = member_doc(alloc, snapshot, read, method)?;
    Ok(Member {
        doc,
        kind,
        name,
        through,
    })
}

// Members with their doc comments.
#[tactic(auto, using(crate::proofs::Zipped::begun))]
fn all_told<'s>(
    alloc: Global,
    snapshot: &'s Snapshot,
    members: Vec<TypeMember<'_>>,
) -> Result<Vec<Member<'s>>, AllocError>
    ensures { IfOk result (λ told. AllZip (IsTold snapshot.now) (map type_member_shown members.entry.items) (map member_shown told.items)) }
{
    let mut read = ReadFiles::new(alloc);
    let mut told = Vec::new(alloc);
    for member in members {
        let member = member_told(alloc, snapshot, &mut read, member)?;
        add(&mut told, member)?;
    }
    Ok(told)
}

// What a variable of a type has, over these types.
fn term_told<'s>(
    alloc: Global,
    snapshot: &'s Snapshot,
    table: &TypeTable,
    term: &TypeTerm,
    from: &ImportPath,
) -> Result<Vec<Member<'s>>, AllocError>
    ensures { IfOk result (λ told. AreTold snapshot.now table.now (Some (shape term.now)) from.now (map member_shown told.items)) }
{
    let members = members_of(alloc, table, term, from)?;
    all_told(alloc, snapshot, members)
}

// The same where the type may be none.
fn members_told<'s>(
    alloc: Global,
    snapshot: &'s Snapshot,
    table: &TypeTable,
    term: &Option<TypeTerm>,
    from: &ImportPath,
) -> Result<Vec<Member<'s>>, AllocError>
    ensures { IfOk result (λ told. AreTold snapshot.now table.now (option_map shape term.now) from.now (map member_shown told.items)) }
{
    match term {
        Some(term) => term_told(alloc, snapshot, table, term, from),
        None => Ok(Vec::new(alloc)),
    }
}

// What a variable of a type of the package of a part has.
fn type_doc<'s>(
    alloc: Global,
    snapshot: &'s Snapshot,
    part: &'s Part,
    table: &TypeTable,
    term: &Option<TypeTerm>,
    from: &ImportPath,
) -> Result<TypeDoc<'s>, AllocError>
    requires { table.now ≡ types_seen part.now }
    ensures { IfOk result (λ d. IsDocOfType snapshot.now from.now part.now (option_map shape term.now) (type_doc_shown d)) }
{
    let members = members_told(alloc, snapshot, table, term, from)?;
    let package = part.input().package();
    Ok(TypeDoc {
        path: part.path(),
        name: package.name(),
        members,
    })
}

// The same where the type may break a rule.
fn named_doc<'s>(
    alloc: Global,
    snapshot: &'s Snapshot,
    part: &'s Part,
    table: &TypeTable,
    term: &Option<TypeTerm>,
    from: &ImportPath,
) -> Result<TypeDoc<'s>, Rule>
    requires { table.now ≡ types_seen part.now }
    ensures ok { IfOk result (λ d. IsDocOfType snapshot.now from.now part.now (option_map shape term.now) (type_doc_shown d)) }
    ensures err { IfErr result (λ rule. rule ≡ Rule.M0) }
{
    match type_doc(alloc, snapshot, part, table, term, from) {
        Ok(doc) => Ok(doc),
        Err(AllocError) => Err(Rule::M0),
    }
}

// What a variable of a type has that the package of a part names itself, in that package.
fn own_type_doc<'s>(
    alloc: Global,
    snapshot: &'s Snapshot,
    part: &'s Part,
    type_name: &str,
) -> Result<TypeDoc<'s>, Rule>
    ensures ok { IfOk result (λ d. IsOwnDocOf snapshot.now part.now type_name.now (type_doc_shown d)) }
    ensures err { IfErr result (λ rule. (rule ≡ Rule.M0) ⊎ IsOwnRefusal part.now type_name.now rule) }
{
    match types_of(alloc, part) {
        Ok(table) => match own_type(alloc, part, &table, type_name) {
            Ok(term) => named_doc(alloc, snapshot, part, &table, &term, part.path()),
            Err(rule) => Err(rule),
        },
        Err(AllocError) => Err(Rule::M0),
    }
}

// What a variable of a type has that another package names behind the name of that of a part.
fn shown_type_doc<'s>(
    alloc: Global,
    snapshot: &'s Snapshot,
    part: &'s Part,
    type_name: &str,
    from: &ImportPath,
) -> Result<TypeDoc<'s>, Rule>
    ensures ok { IfOk result (λ d. IsShownDocOf snapshot.now from.now part.now type_name.now (type_doc_shown d)) }
    ensures err { IfErr result (λ rule. (rule ≡ Rule.M0) ⊎ IsShownRefusal part.now type_name.now rule) }
{
    match types_of(alloc, part) {
        Ok(table) => match other_type(alloc, part, type_name) {
            Ok(term) => named_doc(alloc, snapshot, part, &table, &term, from),
            Err(rule) => Err(rule),
        },
        Err(AllocError) => Err(Rule::M0),
    }
}

// The same for a package that an import of a path comes to in the package of a number and a part.
fn other_type_doc<'s>(
    alloc: Global,
    snapshot: &'s Snapshot,
    number: usize,
    part: &'s Part,
    path: &str,
    type_name: &str,
) -> Result<TypeDoc<'s>, Rule>
    requires { number < length snapshot.now.sources }
    ensures ok { IfOk result (λ d. IsOtherDocOf snapshot.now number part.now path.now type_name.now (type_doc_shown d)) }
    ensures err { IfErr result (λ rule. (rule ≡ Rule.M0) ⊎ IsOtherStop snapshot.now number part.now path.now type_name.now rule) }
{
    match imported_part(alloc, snapshot, number, path) {
        Ok(other) => {
            // What it tells is of its own path.
            let _content = other.content();
            shown_type_doc(alloc, snapshot, other, type_name, part.path())
        }
        Err(rule) => Err(rule),
    }
}

// Whether two texts are the same.
fn is_same(one: &str, other: &str) -> bool
    ensures { IsTrue result ↔ (one.now ≡ other.now) }
{
    one == other
}

// What a variable of a type has, as the package of a number and a part sees it.
fn type_doc_of<'s>(
    alloc: Global,
    snapshot: &'s Snapshot,
    number: usize,
    part: &'s Part,
    path: &str,
    type_name: &str,
) -> Result<TypeDoc<'s>, Rule>
    requires { IsPartOf snapshot.now (path_in part.now.input) number part.now }
    ensures ok { IfOk result (λ d. IsTypeDoc snapshot.now (path_in part.now.input) path.now type_name.now (type_doc_shown d)) }
    ensures err { IfErr result (λ rule. (rule ≡ Rule.M0) ⊎ IsNameRefused snapshot.now (path_in part.now.input) path.now type_name.now rule) }
{
    if is_same(path, part.path().as_str()) {
        own_type_doc(alloc, snapshot, part, type_name)
    } else {
        other_type_doc(alloc, snapshot, number, part, path, type_name)
    }
}

/// What a variable of a type has in the package of `from`, where the package of a path declares the type under a name: each field that a selector
/// behind the variable names as an operand there, and each method that a selector names as what is called, with the embedded fields that lead to it, once,
/// in byte order; a method that is declared with a receiver with its doc comment. It is empty where the declaration of the type breaks a rule so that it
/// is none.
///
/// Nothing is checked again. The time is linear in the members, in the texts of the files that declare the methods, in the packages that are
/// reached, and for another package in the imports of the workspace, but for logarithms.
///
/// # Errors
///
/// - `Rule::Q1` where there is no assembled package of `from`.
/// - For another path the rule that an import of it in the package of `from` breaks first, of `Rule::I1`, `Rule::I3`, `Rule::I2`, `Rule::I6`,
///   `Rule::I5` and `Rule::I4`. That an import would not be used is none.
/// - The rule that the name breaks where a type is written: in the package itself at the top of a file that imports nothing `Rule::N8`, `Rule::N1`,
///   `Rule::N7` or `Rule::N6`, and behind the name of another package and a dot `Rule::S8`, `Rule::N3`, `Rule::N2` or `Rule::N6`. A text that is no
///   identifier is declared nowhere.
/// - `Rule::M0` where memory is wanting.
///
/// The Go specification, "Selectors", "Exported identifiers", "Import declarations".
pub fn doc_of_type<'s>(
    alloc: Global,
    snapshot: &'s Snapshot,
    from: &ImportPath,
    path: &str,
    type_name: &str,
) -> Result<TypeDoc<'s>, Rule>
    ensures ok { IfOk result (λ d. IsTypeDoc snapshot.now from.now path.now type_name.now (type_doc_shown d)) }
    ensures err { IfErr result (λ rule. (rule ≡ Rule.M0) ⊎ IsTypeDocRefusal snapshot.now from.now path.now type_name.now rule) }
{
    // Its parts are those of its packages.
    let _sources = snapshot.sources();
    match own_part(snapshot, from) {
        Some((number, part)) => type_doc_of(alloc, snapshot, number, part, path, type_name),
        None => Err(Rule::Q1),
    }
}
