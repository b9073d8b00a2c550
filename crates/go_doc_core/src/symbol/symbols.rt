//! The symbols of a package.
ghost use Rattle.std.specs.Prelude.{◌≡◌, IfOk, map};
ghost use Rattle.std.specs.List.{AllZip};
ghost use Rattle.std.specs.List.Sorted.{IsPermutation, IsSortedBy};
ghost use Rattle.std.specs.Ordering.{is_lt};
ghost use Rattle.go_block_core.specs.graph_core.Packages.{trees_of};
ghost use Rattle.go_block_core.specs.graph_core.Workspaces.{by_bytes};
ghost use Rattle.go_block_core.specs.Exports.{exported_names, name_and_decl};
ghost use Rattle.go_block_core.specs.Holding.{package_block};
ghost use Rattle.go_doc_core.specs.symbol.Symbols.{AreSymbols, IsSymbolOf, symbol_shown};
ghost use Rattle.go_doc_core.specs.symbol.mirrors.Docs.{AreDeclaredIn};

use crate::symbol::docs::{docs_for, docs_of};
use go_block_core::decl_core::DeclKind;
use go_block_core::graph_core::Package;
use go_block_core::{Blocks, Exports, NamedDecl};
use go_tree_nodes::text_core::add;
use std::alloc::{AllocError, Global};
use std::cmp::Ordering;

/// A name that a package declares outside functions.
#[derive(Clone, Copy)]
pub struct Symbol<'p> {
    pub name: &'p str,
    /// A constant, a variable, a type or a function.
    pub kind: DeclKind,
    /// Its doc comment, as it stands in the text, from the first byte of its first comment to the last byte of its last one. Empty where there is
    /// none.
    pub doc: &'p str,
}

// Names of a package with their declarations, each with its doc comment.
fn listed<'p>(
    alloc: Global,
    package: &'p Package,
    names: &[NamedDecl],
) -> Result<Vec<Symbol<'p>>, AllocError>
    requires { AreDeclaredIn «package».now.1 (map name_and_decl names.now) }
    ensures { IfOk result (λ symbols. AllZip (IsSymbolOf «package».now.1) (map name_and_decl names.now) (map symbol_shown symbols.items)) }
{
    let mut symbols = Vec::new(alloc);
    let Some(first) = names.first() else {
        return Ok(symbols);
    };
    let mut docs = docs_of(alloc, package, first.decl.file)?;
    for named in names {
        docs = docs_for(alloc, package, docs, named.decl.file)?;
        add(&mut symbols, docs.symbol(named.decl))?;
    }
    Ok(symbols)
}

// Puts symbols in byte order of name.
fn sort(symbols: &mut Vec<Symbol<'_>>)
    ensures permutation { IsPermutation symbols.old.items symbols.new.items }
    ensures sorted { IsSortedBy (λ x y. is_lt (by_bytes x.name.now y.name.now)) symbols.new.items }
{
    symbols.sort_unstable_by(
        |one: &Symbol<'_>, other: &Symbol<'_>| -> Ordering
            ensures { result ≡ by_bytes one.now.name.now other.now.name.now }
        { one.name.cmp(other.name) },
    );
}

/// The names of a package's block, each once, in byte order: what it is, and its doc comment. The time is linear in the texts of the files that
/// declare them, but for a logarithm in the names.
///
/// # Errors
///
/// `AllocError` where memory is wanting.
pub fn own_symbols<'p>(
    alloc: Global,
    package: &'p Package,
    blocks: &Blocks,
) -> Result<Vec<Symbol<'p>>, AllocError>
    requires { blocks.now.names ≡ package_block (trees_of «package».now.1) }
    ensures { IfOk result (λ symbols. AreSymbols «package».now.1 blocks.now.names (map symbol_shown symbols.items)) }
{
    // Each of its files has a tree.
    let _files = package.files();
    let names = blocks.names(alloc)?;
    let mut symbols = listed(alloc, package, &names)?;
    sort(&mut symbols);
    Ok(symbols)
}

/// The exported names of a package's block, in the same way.
///
/// The Go specification, "Exported identifiers".
///
/// # Errors
///
/// `AllocError` where memory is wanting.
pub fn exported_symbols<'p>(
    alloc: Global,
    package: &'p Package,
    exports: &Exports,
) -> Result<Vec<Symbol<'p>>, AllocError>
    requires { exports.now.names ≡ exported_names (package_block (trees_of «package».now.1)) }
    ensures { IfOk result (λ symbols. AreSymbols «package».now.1 exports.now.names (map symbol_shown symbols.items)) }
{
    // Each of its files has a tree.
    let _files = package.files();
    let mut symbols = listed(alloc, package, exports.names())?;
    sort(&mut symbols);
    Ok(symbols)
}
