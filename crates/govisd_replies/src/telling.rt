//! What is found, as it goes out.
ghost use Rattle.std.specs.Prelude.{◌≡◌, IfOk, map, string_bytes};
ghost use Rattle.std.specs.List.{AllZip};
ghost use Rattle.go_summary_core.specs.shown.Shown.{texts};
ghost use Rattle.govisd_replies.specs.Told.{AreNamesTold, IsEntryFor, TellsDoc, TellsListing, TellsOutcome, TellsTypeDoc, kind_told, member_kind_told, member_told, or_memory, place_of, symbol_shown, symbol_told};

use go_decl_core::DeclKind;
use go_doc_core::symbol::Symbol as FoundSymbol;
use go_graph_core::SourceFile;
use go_machine_core::runs::Run;
use go_session_core::queries::Fault;
use go_session_core::query_core::{Listing, PackageDoc, PackageEntry as FoundEntry};
use go_session_core::type_doc_core::{Member, MemberKind, TypeDoc};
use go_text_core::{Name, Rule, add};
use go_wire_core::{FaultPlace, PackageEntry, RunEnd, Symbol, SymbolKind, Text, WireReply};
use std::alloc::{AllocError, Global};

// Texts of their own.
fn owned_texts(alloc: Global, all: &[&str]) -> Result<Vec<Text>, AllocError>
    ensures { IfOk result (λ v. v.items ≡ texts all.now) }
{
    let mut owned = Vec::new(alloc);
    for text in all {
        let text = Text::copied(alloc, text)?;
        add(&mut owned, text)?;
    }
    Ok(owned)
}

// The names of files.
fn file_names(alloc: Global, files: &[SourceFile]) -> Result<Vec<Text>, AllocError>
    ensures { IfOk result (λ v. v.items ≡ map (λ f. f.name) files.now) }
{
    let mut names = Vec::new(alloc);
    for file in files {
        let name = Text::copied(alloc, file.name())?;
        add(&mut names, name)?;
    }
    Ok(names)
}

// A fault, with where it stands.
fn place(alloc: Global, fault: &Fault) -> Result<FaultPlace, AllocError>
    ensures { IfOk result (λ p. p ≡ place_of fault.now) }
{
    let path = Text::copied(alloc, fault.path.as_str())?;
    let file = Text::copied(alloc, fault.file.as_str())?;
    Ok(FaultPlace {
        path,
        file,
        offset: fault.offset as u64,
        rule: fault.rule,
    })
}

/// Faults, with where they stand.
///
/// # Errors
///
/// `AllocError` where memory is wanting.
pub fn places(alloc: Global, all: &[Fault]) -> Result<Vec<FaultPlace>, AllocError>
    ensures { IfOk result (λ v. v.items ≡ map place_of all.now) }
{
    let mut places = Vec::new(alloc);
    for fault in all {
        let place = place(alloc, fault)?;
        add(&mut places, place)?;
    }
    Ok(places)
}

// What is listed of a package.
fn entry(alloc: Global, found: &FoundEntry<'_>) -> Result<PackageEntry, AllocError>
    ensures { IfOk result (IsEntryFor found.now) }
{
    let deps = owned_texts(alloc, &found.deps(alloc)?)?;
    let files = file_names(alloc, found.files())?;
    let path = Text::copied(alloc, found.path().as_str())?;
    let imports = owned_texts(alloc, &found.imports(alloc)?)?;
    let name = Name::from_text(alloc, found.name())?;
    Ok(PackageEntry {
        deps,
        files,
        path,
        imports,
        name,
    })
}

// What is listed of packages.
#[tactic(auto, using(crate::proofs::Zips::entry_more))]
fn entries(alloc: Global, all: &[FoundEntry<'_>]) -> Result<Vec<PackageEntry>, AllocError>
    ensures { IfOk result (λ v. AllZip IsEntryFor all.now v.items) }
{
    let mut entries = Vec::new(alloc);
    for found in all {
        let entry = entry(alloc, found)?;
        add(&mut entries, entry)?;
    }
    Ok(entries)
}

/// A list as it goes out.
///
/// # Errors
///
/// `AllocError` where memory is wanting.
pub fn listed(alloc: Global, batch: u64, found: &Listing<'_>) -> Result<WireReply, AllocError>
    ensures { IfOk result (TellsListing (batch, found.now)) }
{
    let own = entry(alloc, &found.own)?;
    let importable = entries(alloc, &found.importable)?;
    Ok(WireReply::Listed {
        batch,
        own,
        importable,
    })
}

// What a declaration is.
fn kind(found: DeclKind) -> SymbolKind
    ensures { result ≡ kind_told found }
{
    match found {
        DeclKind::Const => SymbolKind::Const,
        DeclKind::Var => SymbolKind::Var,
        DeclKind::Type => SymbolKind::Type,
        DeclKind::Func => SymbolKind::Func,
        DeclKind::Method => SymbolKind::Method,
        DeclKind::Field => SymbolKind::Field,
        DeclKind::Param => SymbolKind::Var,
    }
}

// What is told of a name of a package.
fn symbol(alloc: Global, found: FoundSymbol<'_>) -> Result<Symbol, AllocError>
    ensures { IfOk result (λ s. symbol_told s ≡ symbol_shown found.entry) }
{
    let doc = Text::copied(alloc, found.doc)?;
    let name = Name::from_text(alloc, found.name)?;
    Ok(Symbol {
        doc,
        kind: kind(found.kind),
        name,
        through: None,
    })
}

// What is told of names of a package.
fn symbols(alloc: Global, all: &[FoundSymbol<'_>]) -> Result<Vec<Symbol>, AllocError>
    ensures { IfOk result (λ v. map symbol_told v.items ≡ map symbol_shown all.now) }
{
    let mut symbols = Vec::new(alloc);
    for found in all {
        let symbol = symbol(alloc, *found)?;
        add(&mut symbols, symbol)?;
    }
    Ok(symbols)
}

/// The names of a package as they go out.
///
/// # Errors
///
/// `AllocError` where memory is wanting.
pub fn described(alloc: Global, batch: u64, found: &PackageDoc<'_>) -> Result<WireReply, AllocError>
    ensures { IfOk result (TellsDoc (batch, found.now)) }
{
    let name = Name::from_text(alloc, found.name)?;
    let path = Text::copied(alloc, found.path.as_str())?;
    let symbols = symbols(alloc, &found.symbols)?;
    Ok(WireReply::Described {
        batch,
        name,
        path,
        symbols,
    })
}

// Names of their own.
fn owned_names(alloc: Global, all: &[String]) -> Result<Vec<Name>, AllocError>
    ensures { IfOk result (λ v. v.items ≡ map (λ s. string_bytes s) all.now) }
{
    let mut owned = Vec::new(alloc);
    for text in all {
        let name = Name::from_text(alloc, text.as_str())?;
        add(&mut owned, name)?;
    }
    Ok(owned)
}

/// The names that may stand somewhere, as they go out.
///
/// # Errors
///
/// `AllocError` where memory is wanting.
pub fn names_told(alloc: Global, batch: u64, found: &[String]) -> Result<WireReply, AllocError>
    ensures { IfOk result (AreNamesTold batch found.now) }
{
    let names = owned_names(alloc, found)?;
    Ok(WireReply::Completed { batch, names })
}

// Names once more.
fn names_again(alloc: Global, all: &[Name]) -> Result<Vec<Name>, AllocError>
    ensures { IfOk result (λ v. v.items ≡ all.now) }
{
    let mut names = Vec::new(alloc);
    for name in all {
        let name = name.copy(alloc)?;
        add(&mut names, name)?;
    }
    Ok(names)
}

// What a member is.
fn member_kind(found: MemberKind) -> SymbolKind
    ensures { result ≡ member_kind_told found }
{
    match found {
        MemberKind::Field => SymbolKind::Field,
        MemberKind::Method => SymbolKind::Method,
    }
}

// What is told of a member of a type.
fn member(alloc: Global, found: &Member<'_>) -> Result<Symbol, AllocError>
    ensures { IfOk result (λ s. symbol_told s ≡ member_told found.now) }
{
    let doc = Text::copied(alloc, found.doc)?;
    let name = found.name.copy(alloc)?;
    let through = names_again(alloc, &found.through)?;
    Ok(Symbol {
        doc,
        kind: member_kind(found.kind),
        name,
        through: Some(through),
    })
}

// What is told of members of a type.
fn members(alloc: Global, all: &[Member<'_>]) -> Result<Vec<Symbol>, AllocError>
    ensures { IfOk result (λ v. map symbol_told v.items ≡ map member_told all.now) }
{
    let mut symbols = Vec::new(alloc);
    for found in all {
        let symbol = member(alloc, found)?;
        add(&mut symbols, symbol)?;
    }
    Ok(symbols)
}

/// The members of a type as they go out.
///
/// # Errors
///
/// `AllocError` where memory is wanting.
pub fn described_type(
    alloc: Global,
    batch: u64,
    found: &TypeDoc<'_>,
) -> Result<WireReply, AllocError>
    ensures { IfOk result (TellsTypeDoc (batch, found.now)) }
{
    let name = Name::from_text(alloc, found.name)?;
    let path = Text::copied(alloc, found.path.as_str())?;
    let symbols = members(alloc, &found.members)?;
    Ok(WireReply::Described {
        batch,
        name,
        path,
        symbols,
    })
}

/// What a package that ran came to, as it goes out: how it ended, and what it printed.
pub fn ran(batch: u64, run: Run) -> WireReply
    ensures { TellsOutcome (batch, run) result }
{
    match run {
        Run::Ended(output) => WireReply::Ran {
            batch,
            end: RunEnd::Ended,
            output: Text::new(output),
        },
        Run::Panicked(_, output) => WireReply::Ran {
            batch,
            end: RunEnd::Panicked,
            output: Text::new(output),
        },
        Run::Spent(output) => WireReply::Ran {
            batch,
            end: RunEnd::Spent,
            output: Text::new(output),
        },
    }
}

/// A reply, or that memory is wanting.
pub fn or_memory(reply: Result<WireReply, AllocError>) -> WireReply
    ensures { result ≡ or_memory reply }
{
    match reply {
        Ok(reply) => reply,
        Err(_) => WireReply::Refused { rule: Rule::M0 },
    }
}
