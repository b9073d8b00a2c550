//! What the imports of a file have.
ghost use Rattle.std.specs.Prelude.{◌≡◌, ◌++◌, ◌∷◌, [], OnOk, map};
ghost use Rattle.go_tree_nodes.specs.Shapes.{import_of, shape_import_spec};
ghost use Rattle.go_block_core.specs.Naming.{specs_of};
ghost use Rattle.go_block_core.specs.mirrors.Shown.{spec_shown};
ghost use Rattle.go_body_core.specs.file.Imports as has;

use crate::BodyUse;
use go_block_core::{Imported, import_specs};
use go_denote_core::Outcome;
use go_expr_core::Use;
use go_handle_core::{Decl, DeclSite};
use go_select_core::EmbedPath;
use go_text_core::add;
use go_tree_core::Role;
use go_tree_nodes::{ImportDecl, ImportSpec};
use std::alloc::{AllocError, Global};

// The package that an import comes to, or the rule that it breaks.
fn import_outcome<'p>(imported: &'p Imported) -> Outcome<Decl<'p>, EmbedPath>
    ensures { result ≡ has.import_outcome imported.now }
{
    match imported {
        Imported::Package(exports) => {
            Outcome::Declared(Decl::at(DeclSite::Package(exports.path())))
        }
        Imported::Refused(rule) => Outcome::Refused(*rule),
    }
}

// Adds what an import has.
fn add_import<'p>(
    spec: &ImportSpec,
    imported: &'p Imported,
    uses: &mut Vec<BodyUse<'p>>,
) -> Result<(), AllocError>
    ensures { OnOk result (uses.new.items ≡ uses.old.items ++ has.import_use (shape_import_spec spec.now) imported.now ∷ []) }
{
    let offset = spec.path.span.start as usize;
    let outcome = import_outcome(imported);
    add(
        uses,
        Use {
            offset,
            role: Role::Import,
            outcome,
        },
    )
}

// Adds what imports have, each with what it comes to.
fn add_specs<'p>(
    specs: &[&ImportSpec],
    imported: &'p [Imported],
    uses: &mut Vec<BodyUse<'p>>,
) -> Result<(), AllocError>
    ensures { OnOk result (uses.new.items ≡ uses.old.items ++ has.imports_uses (map spec_shown specs.now) imported.now) }
{
    for (spec, given) in specs.iter().zip(imported) {
        add_import(spec, given, uses)?;
    }
    Ok(())
}

/// Adds what the imports of declarations have, in order of place, where this is what they come to.
pub(crate) fn add_imports<'p>(
    alloc: Global,
    imports: &Vec<ImportDecl>,
    imported: &'p [Imported],
    uses: &mut Vec<BodyUse<'p>>,
) -> Result<(), AllocError>
    ensures { OnOk result (uses.new.items ≡ uses.old.items ++ has.imports_uses (specs_of (map import_of imports.now.items)) imported.now) }
{
    let specs = import_specs(alloc, imports)?;
    add_specs(specs.as_slice(), imported, uses)
}
