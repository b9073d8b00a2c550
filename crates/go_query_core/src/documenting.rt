//! What a package declares, with its doc comments.
ghost use Rattle.std.specs.Prelude.{◌≡◌, ◌↔◌, ◌⊎◌, ◌<◌, IfErr, IfOk, IsTrue, length};
ghost use Rattle.go_import_core.specs.graph_core.declared.imports.ImportOutcome.TheVariants.{Refused};
ghost use Rattle.go_import_core.specs.list.Importing.{IsJudgedAt};
ghost use Rattle.go_complete_core.specs.package_core.PackagePartInputs.{path_in};
ghost use Rattle.go_query_core.specs.Documenting.{IsDoc, IsDocRefusal, IsExportedDoc, IsImportRefused, IsImportedDoc, IsImportedPart, IsOwnDoc, doc_shown};
ghost use Rattle.go_query_core.specs.Parts.{IsPartOf};

use crate::parts::{own_part, part_there};
use go_complete_core::package_core::Part;
use go_complete_core::snap_core::Snapshot;
use go_doc_core::symbol::{Symbol, exported_symbols, own_symbols};
use go_import_core::graph_core::ImportOutcome;
use go_import_core::list::judge_import;
use go_import_core::path_core::ImportPath;
use go_tree_nodes::text_core::Rule;
use std::alloc::{AllocError, Global};

/// What a package declares outside functions.
pub struct PackageDoc<'s> {
    pub path: &'s ImportPath,
    /// The name in the clauses of the package.
    pub name: &'s str,
    /// In byte order of name.
    pub symbols: Vec<Symbol<'s>>,
}

impl Drop for PackageDoc<'_> {
    fn drop(self) {
        let PackageDoc {
            path: _,
            name: _,
            symbols: _,
        } = self;
    }
}

// All that the package of a part declares.
fn own_doc(alloc: Global, part: &Part) -> Result<PackageDoc<'_>, Rule>
    ensures ok { IfOk result (λ d. IsOwnDoc part.now (doc_shown d)) }
    ensures err { IfErr result (λ rule. rule ≡ Rule.M0) }
{
    let package = part.input().package();
    let content = part.content();
    match own_symbols(alloc, package, &content.blocks) {
        Ok(symbols) => Ok(PackageDoc {
            path: part.path(),
            name: package.name(),
            symbols,
        }),
        Err(AllocError) => Err(Rule::M0),
    }
}

// What the package of a part exports.
fn exported_doc(alloc: Global, part: &Part) -> Result<PackageDoc<'_>, Rule>
    ensures ok { IfOk result (λ d. IsExportedDoc part.now (doc_shown d)) }
    ensures err { IfErr result (λ rule. rule ≡ Rule.M0) }
{
    // What it tells is by its blocks.
    let _content = part.content();
    let package = part.input().package();
    let exports = part.summary().exports();
    match exported_symbols(alloc, package, exports) {
        Ok(symbols) => Ok(PackageDoc {
            path: part.path(),
            name: package.name(),
            symbols,
        }),
        Err(AllocError) => Err(Rule::M0),
    }
}

// The part of the package that an import of a path comes to in the package of a number, or the rule of the import.
fn imported_part<'s>(
    alloc: Global,
    snapshot: &'s Snapshot,
    own: usize,
    path: &str,
) -> Result<&'s Part, Rule>
    requires { own < length snapshot.now.sources }
    ensures ok { IfOk result (λ p. IsImportedPart snapshot.now own path.now p.now) }
    ensures err { IfErr result (λ rule. (rule ≡ Rule.M0) ⊎ IsJudgedAt snapshot.now.sources own path.now (Refused rule)) }
{
    let sources = snapshot.sources();
    match judge_import(alloc, sources, own, path) {
        Ok(ImportOutcome::Package(number)) => Ok(part_there(snapshot, number)),
        Ok(ImportOutcome::Refused(rule)) => Err(rule),
        Err(AllocError) => Err(Rule::M0),
    }
}

// What another package declares, as the package of a number sees it.
fn other_doc<'s>(
    alloc: Global,
    snapshot: &'s Snapshot,
    own: usize,
    path: &str,
) -> Result<PackageDoc<'s>, Rule>
    requires { own < length snapshot.now.sources }
    ensures ok { IfOk result (λ d. IsImportedDoc snapshot.now own path.now (doc_shown d)) }
    ensures err { IfErr result (λ rule. (rule ≡ Rule.M0) ⊎ IsJudgedAt snapshot.now.sources own path.now (Refused rule)) }
{
    match imported_part(alloc, snapshot, own, path) {
        Ok(part) => exported_doc(alloc, part),
        Err(rule) => Err(rule),
    }
}

// Whether two texts are the same.
fn is_same(one: &str, other: &str) -> bool
    ensures { IsTrue result ↔ (one.now ≡ other.now) }
{
    one == other
}

// What a package declares, as the package of a number and a part sees it.
fn doc_of<'s>(
    alloc: Global,
    snapshot: &'s Snapshot,
    number: usize,
    part: &'s Part,
    path: &str,
) -> Result<PackageDoc<'s>, Rule>
    requires { IsPartOf snapshot.now (path_in part.now.input) number part.now }
    ensures ok { IfOk result (λ d. IsDoc snapshot.now (path_in part.now.input) path.now (doc_shown d)) }
    ensures err { IfErr result (λ rule. (rule ≡ Rule.M0) ⊎ IsImportRefused snapshot.now (path_in part.now.input) path.now rule) }
{
    if is_same(path, part.path().as_str()) {
        own_doc(alloc, part)
    } else {
        other_doc(alloc, snapshot, number, path)
    }
}

/// What the package of a path declares outside functions, as the package of `from` sees it: all names of its block where it is that package itself, and
/// else those that it exports; each with what it is and its doc comment, once, in byte order.
///
/// The time is linear in the texts of the files that declare them, and for another package in the imports of the workspace.
///
/// # Errors
///
/// - `Rule::Q1` where there is no assembled package of `from`.
/// - For another path the rule that an import of it in the package of `from` breaks first, of `Rule::I1`, `Rule::I3`, `Rule::I2`, `Rule::I6`,
///   `Rule::I5` and `Rule::I4`. That an import would not be used is none.
/// - `Rule::M0` where memory is wanting.
///
/// The Go specification, "Exported identifiers", "Import declarations".
pub fn doc<'s>(
    alloc: Global,
    snapshot: &'s Snapshot,
    from: &ImportPath,
    path: &str,
) -> Result<PackageDoc<'s>, Rule>
    ensures ok { IfOk result (λ d. IsDoc snapshot.now from.now path.now (doc_shown d)) }
    ensures err { IfErr result (λ rule. (rule ≡ Rule.M0) ⊎ IsDocRefusal snapshot.now from.now path.now rule) }
{
    // Its parts are those of its packages.
    let _sources = snapshot.sources();
    match own_part(snapshot, from) {
        Some((number, part)) => doc_of(alloc, snapshot, number, part, path),
        None => Err(Rule::Q1),
    }
}
