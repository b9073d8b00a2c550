//! Tables of names.
ghost use Rattle.std.specs.Prelude.{◌≡◌, OnOk, IfOk, map};
ghost use Rattle.go_block_core.specs.Tables.{block_of, has, with_first, names_in, without};

use go_graph_core::collections_core::NameTable;
use go_parse_reader::types::add;
use std::alloc::{AllocError, Global};

/// Whether a table has a name.
pub(crate) fn has<V>(table: &NameTable<V>, name: &str) -> bool
    ensures { result ≡ has (block_of table.now) name.now }
{
    table.find(name).is_some()
}

/// Binds a name, unless the table has it, and answers whether the table had it.
pub(crate) fn bind_first<V: Drop>(
    table: &mut NameTable<V>,
    alloc: Global,
    name: &str,
    value: V,
) -> Result<bool, AllocError>
    ensures had { IfOk result (λ had. had ≡ has (block_of table.old) name.now) }
    ensures table { OnOk result (block_of table.new ≡ with_first (block_of table.old) name.now value) }
{
    if has(table, name) {
        return Ok(true);
    }
    table.add(alloc, name, value)?;
    Ok(false)
}

/// The names of a table, in order.
pub(crate) fn names_in<'a, V>(
    alloc: Global,
    table: &'a NameTable<V>,
) -> Result<Vec<&'a str>, AllocError>
    ensures { IfOk result (λ names. map (λ n. n.now) names.items ≡ names_in (block_of table.now)) }
{
    let mut names = Vec::with_capacity(alloc, table.len())?;
    for (name, _) in table.entries() {
        add(&mut names, name.as_str())?;
    }
    Ok(names)
}

/// The names of a table that another table has not, in order.
pub(crate) fn names_without<'a, V, W>(
    alloc: Global,
    table: &'a NameTable<V>,
    other: &NameTable<W>,
) -> Result<Vec<&'a str>, AllocError>
    ensures { IfOk result (λ names. map (λ n. n.now) names.items ≡ names_in (without (block_of other.now) (block_of table.now))) }
{
    let mut names = Vec::new(alloc);
    for (name, _) in table.entries() {
        let name = name.as_str();
        if !has(other, name) {
            add(&mut names, name)?;
        }
    }
    Ok(names)
}
