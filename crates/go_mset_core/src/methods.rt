//! The method set of a type.
ghost use Rattle.std.specs.Prelude.{◌≡◌, ◌++◌, ◌∷◌, [], IfOk, OnOk};
ghost use Rattle.go_select_core.specs.table_core.Entries.{find_entry};
ghost use Rattle.go_term_core.specs.Shapes.{shape};
ghost use Rattle.go_mset_core.specs.MethodLists.{IsMethodSet};
ghost use Rattle.go_mset_core.specs.mirrors.Keeping.{kept};

use crate::wanted::is_callable;
use go_path_core::text_core::add;
use go_select_core::type_core::{TypeTable, TypeTerm};
use go_select_core::{EmbedPath, Member, Selected, selections};
use std::alloc::{AllocError, Global};

/// A method of a method set.
pub struct SetMethod<'a> {
    pub member: Member<'a>,
    /// The embedded fields that lead to the type which has the method, each by its place among the fields of its struct type.
    pub path: EmbedPath,
}

impl Drop for SetMethod<'_> {
    fn drop(self) {
        let SetMethod { member: _, path: _ } = self;
    }
}

// Adds what a selector denotes, where it is a method of the method set.
fn add_callable<'a>(
    methods: &mut Vec<SetMethod<'a>>,
    selected: Selected<'a>,
) -> Result<(), AllocError>
    ensures { OnOk result (methods.new.items ≡ methods.old.items ++ kept (selected.entry ∷ [])) }
{
    if !is_callable(selected.member, selected.through_pointer) {
        return Ok(());
    }
    let method = SetMethod {
        member: selected.member,
        path: selected.path,
    };
    add(methods, method)
}

// The methods of a method set among what selectors denote.
fn keep<'a>(alloc: Global, found: Vec<Selected<'a>>) -> Result<Vec<SetMethod<'a>>, AllocError>
    ensures { IfOk result (λ methods. methods.items ≡ kept found.entry.items) }
{
    let mut methods = Vec::new(alloc);
    'selections: for selected in found {
        add_callable(&mut methods, selected)?;
    }
    Ok(methods)
}

/// The method set of a type: its methods, each identifier once, in order of the bytes of their names, and those of one name that is not
/// exported in order of the bytes of their packages' paths.
///
/// A method is in the set where a selector denotes it behind an operand of the type, and its receiver is written without a star or the
/// selector passes a pointer: the type is a pointer type, or an embedded field on the way to the method has a star. An interface type has its
/// own methods. A pointer to a pointer type or to an interface type has none, nor has a defined pointer type, nor has what is no type. The Go
/// specification, "Method sets", "Struct types".
///
/// # Errors
///
/// `AllocError` where memory is wanting.
pub fn method_set<'a>(
    alloc: Global,
    table: &'a TypeTable,
    term: &'a TypeTerm,
) -> Result<Vec<SetMethod<'a>>, AllocError>
    ensures { IfOk result (λ methods. IsMethodSet (find_entry table.now) (shape term.now) methods.items) }
{
    keep(alloc, selections(alloc, table, term)?)
}
