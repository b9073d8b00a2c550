//! What is made of a package before its files are checked.
ghost use Rattle.std.specs.Prelude.{◌≡◌, IfOk, map};
ghost use Rattle.std.specs.List.{AllByRecursion};
ghost use Rattle.go_body_core.specs.typexpr_core.EntryOutlines.{outline_shown};
ghost use Rattle.go_package_core.specs.prepare.Inlines.{AreFunctionsIn, IsPlacedOutline, initial_in};
ghost use Rattle.go_package_core.specs.prepare.Packages.{outlines_in, package_in_shown, scene_in, shows_in};

use crate::prepare::inlines::{package_functions, package_initial};
use crate::prepare::package_at::PackageAt;
use go_body_core::typexpr_core::ImportedNames;
use go_inline_core::InlineTypes;
use go_report_core::declared_core::{WrittenFaces, written_faces};
use go_report_core::handle_core::Home;
use go_term_core::decl_core::Outline;
use go_type_core::TypeTable;
use std::alloc::{AllocError, Global};

/// What is made of a package before its files are checked, beside its types.
pub struct Ready {
    /// The package's path, and the predeclared types.
    pub home: Home,
    /// Its declarations outside functions, as far as they are written.
    pub written: WrittenFaces,
    /// Of each file, in order of name, the types in its initialisers.
    pub initial: Vec<InlineTypes>,
    /// Of each file the types in each of its functions, in order of place.
    pub functions: Vec<Vec<InlineTypes>>,
}

impl Drop for Ready {
    fn drop(self) {
        let Ready {
            home: _,
            written: _,
            initial: _,
            functions: _,
        } = self;
    }
}

/// Makes what is to be known of a package before its files are checked. `names` says what names of types lead to in it, `outlines` are those of
/// its files, in order of name, and `types` has the types of the package and of those that it reaches.
///
/// The Go specification, "Declarations and scope", "Types".
///
/// # Errors
///
/// `AllocError` where memory is wanting.
pub fn make_ready<P: ImportedNames, N: ImportedNames>(
    alloc: Global,
    at: &PackageAt<'_, P>,
    names: &N,
    outlines: &[Outline<'_>],
    types: &TypeTable,
) -> Result<Ready, AllocError>
    requires names { N.shows names.now ≡ shows_in (package_in_shown P.shows at.now) }
    requires outlines { map outline_shown outlines.now ≡ outlines_in (package_in_shown P.shows at.now) }
    requires placed { AllByRecursion IsPlacedOutline (map outline_shown outlines.now) }
    ensures home { IfOk result (λ ready. ready.home ≡ (package_in_shown P.shows at.now).path) }
    ensures written { IfOk result (λ ready. ready.written ≡ (scene_in (package_in_shown P.shows at.now) types.now).written) }
    ensures initial { IfOk result (λ ready. ready.initial.items ≡ initial_in (package_in_shown P.shows at.now) types.now) }
    ensures functions { IfOk result (λ ready. AreFunctionsIn (package_in_shown P.shows at.now) types.now (map (λ of_file. of_file.items) ready.functions.items)) }
{
    let path = at.package.path();
    let initial = package_initial(alloc, at, names, outlines, types)?;
    let functions = package_functions(alloc, at, names, outlines, types)?;
    let written = written_faces(alloc, path, at.blocks, names, types, outlines)?;
    Ok(Ready {
        home: Home::new(alloc, path.share()?)?,
        written,
        initial,
        functions,
    })
}
