//! The methods of a type, listed.
ghost use Rattle.std.specs.Prelude.{◌≡◌, ◌++◌, OnOk, map};
ghost use Rattle.go_term_core.specs.Shapes.{method_shapes};
ghost use Rattle.go_type_core.specs.table_core.Shown.{member_shown};
ghost use Rattle.go_embed_core.specs.Owners.{declared_found, methods_found};
ghost use Rattle.go_embed_core.specs.OwnersShown.{named_shown};

use crate::member::Member;
use go_collections_core::text_core::add;
use go_path_core::ImportPath;
use go_type_core::{DeclaredMethod, Method};
use std::alloc::AllocError;

// Adds the methods that are declared of a type of a package.
pub(crate) fn add_methods<'a>(
    path: &'a ImportPath,
    methods: &'a [DeclaredMethod],
    members: &mut Vec<Member<'a>>,
) -> Result<(), AllocError>
    ensures { OnOk result (map named_shown members.new.items ≡ map named_shown members.old.items ++ declared_found path.now (map member_shown methods.now)) }
{
    for method in methods {
        add(members, Member::Method(path, method))?;
    }
    Ok(())
}

// Adds the methods of an interface type that is written in a package.
pub(crate) fn add_interface<'a>(
    path: &'a ImportPath,
    methods: &'a [Method],
    members: &mut Vec<Member<'a>>,
) -> Result<(), AllocError>
    ensures { OnOk result (map named_shown members.new.items ≡ map named_shown members.old.items ++ methods_found path.now (method_shapes methods.now)) }
{
    for method in methods {
        add(members, Member::InterfaceMethod(path, method))?;
    }
    Ok(())
}
