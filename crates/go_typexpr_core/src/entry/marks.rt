//! Which type declarations declare aliases.
ghost use Rattle.std.specs.Prelude.{◌≡◌, is_some};
ghost use Rattle.go_tree_nodes.specs.Shapes.{shape_type_spec};
ghost use Rattle.go_typexpr_core.specs.entry.Entries.{is_listed};
ghost use Rattle.go_typexpr_core.specs.entry.Marks.{alias_mark};

use go_tree_nodes::TypeSpec;

/// Whether a type declaration declares an alias: it has `=` before its type. The Go specification, "Alias declarations".
pub fn is_alias(spec: &TypeSpec) -> bool
    ensures { result ≡ is_some (alias_mark (shape_type_spec spec.now)) }
{
    spec.alias.is_some()
}

/// Whether a type declaration counts, where types count alone or aliases also.
pub(crate) fn is_listed(also: bool, spec: &TypeSpec) -> bool
    ensures { result ≡ is_listed also (alias_mark (shape_type_spec spec.now)) }
{
    also || !is_alias(spec)
}
