//! What the names of packages are looked up in, by what some packages tell.
ghost use Rattle.std.specs.Prelude.{◌≡◌, ◌++◌, IfOk, OnOk, map};
ghost use Rattle.go_table_core.specs.Shown.{member_shown};
ghost use Rattle.go_package_core.specs.summary_core.Views.{types_told};
ghost use Rattle.go_emit_core.specs.meaning.Scenes.{method_at, method_spotted, methods_spotted};
ghost use Rattle.go_emit_core.specs.lookup.mirrors.Spotting.{item_shown};

use crate::lookup::{DeclSpot, DeclTable, SpottedDecl};
use crate::meaning::words::sign_gives;
use go_code_core::fragments::Meaning;
use go_constant_core::text_core::add;
use go_declared_core::FaceTable;
use go_declared_core::handle_core::SignatureRef;
use go_package_core::summary_core::Summary;
use go_table_core::path_core::ImportPath;
use go_table_core::{DeclaredMethod, DefinedType, TypeTable};
use go_term_core::MemberPlace;
use std::alloc::{AllocError, Global};

/// What the names of packages are looked up in, by what some packages tell. It is made once for all of them. Types and faces are lent.
pub struct Tables<'a> {
    /// The types that the packages declare.
    pub types: &'a TypeTable,
    /// The methods of these types.
    pub methods: DeclTable<'a>,
    /// What the packages show.
    pub faces: &'a FaceTable,
}

impl Drop for Tables<'_> {
    fn drop(self) {
        let Tables {
            types: _,
            methods: _,
            faces: _,
        } = self;
    }
}

// Adds a method of a type of the package of a path.
fn add_method<'a>(
    items: &mut Vec<SpottedDecl<'a>>,
    types: &TypeTable,
    path: &'a ImportPath,
    method: &DeclaredMethod,
) -> Result<(), AllocError>
    ensures { OnOk result (map item_shown items.new.items ≡ map item_shown items.old.items ++ method_at types.now path.now (member_shown method.now) method.now.place) }
{
    match method.place {
        MemberPlace::Declared(decl) => {
            let gives = sign_gives(types, &SignatureRef::of(&method.signature));
            let item = SpottedDecl {
                spot: DeclSpot::new(path, decl),
                meaning: Meaning::Method(gives),
            };
            add(items, item)
        }
        MemberPlace::Local(_) => Ok(()),
    }
}

// Adds the methods of a type.
fn add_methods<'a>(
    items: &mut Vec<SpottedDecl<'a>>,
    types: &TypeTable,
    defined: &'a DefinedType,
) -> Result<(), AllocError>
    ensures { OnOk result (map item_shown items.new.items ≡ map item_shown items.old.items ++ method_spotted types.now defined.now.key.path defined.now.methods) }
{
    let path = &defined.key().path;
    for method in defined.methods() {
        add_method(items, types, path, method)?;
    }
    Ok(())
}

// Adds the methods of the types of a package.
fn add_all<'a>(
    items: &mut Vec<SpottedDecl<'a>>,
    types: &TypeTable,
    summary: &'a Summary,
) -> Result<(), AllocError>
    ensures { OnOk result (map item_shown items.new.items ≡ map item_shown items.old.items ++ methods_spotted types.now summary.now.types.entries) }
{
    for defined in summary.types().types() {
        add_methods(items, types, defined)?;
    }
    Ok(())
}

// The methods of the types of packages, with what they come to.
fn method_items<'a>(
    alloc: Global,
    types: &TypeTable,
    told: &'a [Summary],
) -> Result<Vec<SpottedDecl<'a>>, AllocError>
    ensures { IfOk result (λ items. map item_shown items.items ≡ methods_spotted types.now (types_told told.now)) }
{
    let mut items = Vec::new(alloc);
    for summary in told {
        add_all(&mut items, types, summary)?;
    }
    Ok(items)
}

/// What the methods come to of the types that some packages tell, over the types of a table. The time that it takes is linear in what they tell, but
/// for a logarithm.
///
/// The Go specification, "Method declarations", "Method sets".
///
/// # Errors
///
/// `AllocError` where memory is wanting.
pub fn methods_of<'a>(
    alloc: Global,
    types: &TypeTable,
    told: &'a [Summary],
) -> Result<DeclTable<'a>, AllocError>
    ensures { IfOk result (λ t. t ≡ methods_spotted types.now (types_told told.now)) }
{
    let items = method_items(alloc, types, told)?;
    let methods = DeclTable::new(alloc, items)?;
    Ok(methods)
}
