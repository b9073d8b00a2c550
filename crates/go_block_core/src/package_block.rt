//! What the package block and the file blocks hold, and the faults in them.
ghost use Rattle.std.specs.Prelude.{◌≡◌, ◌++◌, ◌∷◌, [], not, ◌&&◌, OnOk, IfOk, map};
ghost use Rattle.std.specs.Str.{chars};
ghost use Rattle.go_tree_nodes.specs.text_core.Text.{exported};
ghost use Rattle.go_tree_nodes.specs.Shapes.{file_of};
ghost use Rattle.go_graph_core.specs.Packages.{trees_of};
ghost use Rattle.go_decl_core.specs.Shown.{decl_shown};
ghost use Rattle.go_block_core.specs.Exports.{name_and_decl, exported_names};
ghost use Rattle.go_block_core.specs.Tables.{block_of};
ghost use Rattle.go_block_core.specs.Declarations.{is_bindable, has_fixed_form, top_declared, file_declared, is_main_package, package_declared};
ghost use Rattle.go_block_core.specs.Faults.{decl_faults_at, block_decl_faults, bound_faults_at, bound_faults, block_file_faults};
ghost use Rattle.go_block_core.specs.Holding.{is_second_declaration, with_declared, declared_block, package_block, with_bound, bound_block, file_block, file_blocks, imports_in};
ghost use Rattle.go_block_core.specs.Bindings.{file_bound};
ghost use Rattle.go_block_core.specs.Laws.{ArePlaced};
ghost use Rattle.go_block_core.specs.mirrors.Shown.{bound_shown, declaration_shown};
ghost use Rattle.go_tree_nodes.specs.Spelling.{IsPlaced};

use crate::binding::{Binding, BoundName, bindings};
use crate::decls::{NamedPlace, declaration};
use crate::exports::NamedDecl;
use crate::fault::{BlockFault, BlockRule, add_fault_if};
use crate::imports::NamedImport;
use crate::table::{bind_first, has};
use go_decl_core::{DeclRef, TopDecl, outline};
use go_graph_core::Package;
use go_graph_core::collections_core::NameTable;
use go_parse_reader::types::add;
use go_tree_nodes::File;
use go_tree_nodes::text_core::{Name, is_exported};
use std::alloc::{AllocError, Global};

/// Whether a declaration of this name binds it.
fn is_bindable(name: &str) -> bool
    ensures { result ≡ is_bindable name.now }
{
    name != "_" && name != "init"
}

/// Whether a declaration must be a function without parameters and results, and is none.
fn is_malformed(is_main: bool, declared: &NamedPlace<'_>) -> bool
    ensures { result ≡ (has_fixed_form is_main (declaration_shown declared.now).name && not declared.now.is_procedure) }
{
    let name = declared.name;
    (name == "init" || (is_main && name == "main")) && !declared.is_procedure
}

/// Binds the name of a declaration, unless the table has it, and answers whether the table had it.
fn declare(
    table: &mut NameTable<DeclRef>,
    alloc: Global,
    declared: &NamedPlace<'_>,
) -> Result<bool, AllocError>
    ensures second { IfOk result (λ second. second ≡ is_second_declaration (block_of table.old) (declaration_shown declared.now)) }
    ensures table { OnOk result (block_of table.new ≡ with_declared (block_of table.old) (declaration_shown declared.now)) }
{
    let name = declared.name;
    if is_bindable(name) {
        return bind_first(table, alloc, name, declared.decl);
    }
    Ok(false)
}

/// Declares a name in the package block.
fn add_declared(
    table: &mut NameTable<DeclRef>,
    alloc: Global,
    is_main: bool,
    declared: &NamedPlace<'_>,
    faults: &mut Vec<BlockFault>,
) -> Result<(), AllocError>
    ensures table { OnOk result (block_of table.new ≡ with_declared (block_of table.old) (declaration_shown declared.now)) }
    ensures faults { OnOk result (faults.new.items ≡ faults.old.items ++ decl_faults_at is_main (block_of table.old) (declaration_shown declared.now)) }
{
    let file = declared.decl.file;
    let at = declared.at;
    let is_second = declare(table, alloc, declared)?;
    add_fault_if(faults, is_second, file, at, BlockRule::B1)?;
    let is_malformed = is_malformed(is_main, declared);
    add_fault_if(faults, is_malformed, file, at, BlockRule::B3)
}

/// Declares what a declaration of a file declares in the package block.
fn add_top(
    table: &mut NameTable<DeclRef>,
    alloc: Global,
    is_main: bool,
    file: usize,
    top: &TopDecl<'_>,
    faults: &mut Vec<BlockFault>,
) -> Result<(), AllocError>
    ensures table { OnOk result (block_of table.new ≡ declared_block (block_of table.old) (top_declared file (decl_shown top.now))) }
    ensures faults { OnOk result (faults.new.items ≡ faults.old.items ++ block_decl_faults is_main (block_of table.old) (top_declared file (decl_shown top.now))) }
{
    match declaration(file, top) {
        Some(declared) => add_declared(table, alloc, is_main, &declared, faults),
        None => Ok(()),
    }
}

/// Declares what a file declares in the package block.
fn add_file(
    table: &mut NameTable<DeclRef>,
    alloc: Global,
    is_main: bool,
    file: usize,
    tree: &File,
    faults: &mut Vec<BlockFault>,
) -> Result<(), AllocError>
    requires { IsPlaced (file_of tree.now) }
    ensures table { OnOk result (block_of table.new ≡ declared_block (block_of table.old) (file_declared file (file_of tree.now))) }
    ensures faults { OnOk result (faults.new.items ≡ faults.old.items ++ block_decl_faults is_main (block_of table.old) (file_declared file (file_of tree.now))) }
{
    let outline = outline(alloc, tree)?;
    for top in &outline.decls {
        add_top(table, alloc, is_main, file, top, faults)?;
    }
    Ok(())
}

/// The package block: of several declarations of one name the first. Adds the faults in it.
pub(crate) fn package_block(
    alloc: Global,
    package: &Package,
    faults: &mut Vec<BlockFault>,
) -> Result<NameTable<DeclRef>, AllocError>
    ensures table { IfOk result (λ table. block_of table ≡ package_block (trees_of «package».now.1)) }
    ensures faults { OnOk result (faults.new.items ≡ faults.old.items ++ block_decl_faults (is_main_package (trees_of «package».now.1)) [] (package_declared (trees_of «package».now.1))) }
    // The tokens of each tree follow one another in its text.
    ensures placed { OnOk result (ArePlaced (trees_of «package».now.1)) }
{
    let is_main = package.name() == "main";
    let files = package.files();
    let mut table = NameTable::new(alloc);
    for file in 0..files.len() {
        let tree = package.tree(file);
        let Ok(()) = add_file(&mut table, alloc, is_main, file, tree, faults) else {
            // By name: the drop of a table is then one call.
            drop(table);
            return Err(AllocError);
        };
    }
    Ok(table)
}

/// Binds a name in a file block.
fn add_bound(
    table: &mut NameTable<Binding>,
    alloc: Global,
    names: &NameTable<DeclRef>,
    file: usize,
    bound: BoundName<'_>,
    faults: &mut Vec<BlockFault>,
) -> Result<(), AllocError>
    ensures table { OnOk result (block_of table.new ≡ with_bound (block_of table.old) (bound_shown bound.entry)) }
    ensures faults { OnOk result (faults.new.items ≡ faults.old.items ++ bound_faults_at (block_of names.now) file (block_of table.old) (bound_shown bound.entry)) }
{
    let BoundName { name, binding } = bound;
    let at = binding.at;
    let is_second = bind_first(table, alloc, name, binding)?;
    add_fault_if(faults, is_second, file, at, BlockRule::B1)?;
    let is_hidden = has(names, name);
    add_fault_if(faults, is_hidden, file, at, BlockRule::B2)
}

/// What the imports of a file bind: of several bindings of one name the first. Adds the faults in it. The
/// package block has these names.
fn file_block(
    alloc: Global,
    names: &NameTable<DeclRef>,
    file: usize,
    imports: &Vec<NamedImport>,
    faults: &mut Vec<BlockFault>,
) -> Result<NameTable<Binding>, AllocError>
    ensures table { IfOk result (λ table. block_of table ≡ file_block imports.now.items) }
    ensures faults { OnOk result (faults.new.items ≡ faults.old.items ++ bound_faults (block_of names.now) file [] (file_bound imports.now.items)) }
{
    let all = bindings(alloc, imports)?;
    let mut table = NameTable::new(alloc);
    for bound in all {
        let Ok(()) = add_bound(&mut table, alloc, names, file, bound, faults) else {
            // By name: the drop of a table is then one call.
            drop(table);
            return Err(AllocError);
        };
    }
    Ok(table)
}

/// The blocks of all files. Adds the faults in them.
pub(crate) fn file_blocks(
    alloc: Global,
    names: &NameTable<DeclRef>,
    files: &Vec<Vec<NamedImport>>,
    faults: &mut Vec<BlockFault>,
) -> Result<Vec<NameTable<Binding>>, AllocError>
    ensures tables { IfOk result (λ tables. map block_of tables.items ≡ file_blocks (map imports_in files.now.items)) }
    ensures faults { OnOk result (faults.new.items ≡ faults.old.items ++ block_file_faults (block_of names.now) 0 (map imports_in files.now.items)) }
{
    let mut tables = Vec::new(alloc);
    for imports in files {
        let table = file_block(alloc, names, tables.len(), imports, faults)?;
        add(&mut tables, table)?;
    }
    Ok(tables)
}

/// Adds a name with its declaration.
fn add_entry(
    names: &mut Vec<NamedDecl>,
    alloc: Global,
    name: &str,
    decl: DeclRef,
) -> Result<(), AllocError>
    ensures { OnOk result (map name_and_decl names.new.items ≡ map name_and_decl names.old.items ++ (name.now, decl) ∷ []) }
{
    let named = NamedDecl {
        name: Name::from_text(alloc, name)?,
        decl,
    };
    add(names, named)
}

/// The names of a table with their declarations, in order.
pub(crate) fn names_of(
    alloc: Global,
    table: &NameTable<DeclRef>,
) -> Result<Vec<NamedDecl>, AllocError>
    ensures { IfOk result (λ names. map name_and_decl names.items ≡ block_of table.now) }
{
    let mut names = Vec::new(alloc);
    for (name, decl) in table.entries() {
        add_entry(&mut names, alloc, name.as_str(), *decl)?;
    }
    Ok(names)
}

/// The exported names of a table with their declarations, in order.
pub(crate) fn exported_of(
    alloc: Global,
    table: &NameTable<DeclRef>,
) -> Result<Vec<NamedDecl>, AllocError>
    ensures { IfOk result (λ names. map name_and_decl names.items ≡ exported_names (block_of table.now)) }
{
    let mut names = Vec::new(alloc);
    for (name, decl) in table.entries() {
        let name = name.as_str();
        if is_exported(name) {
            add_entry(&mut names, alloc, name, *decl)?;
        }
    }
    Ok(names)
}
