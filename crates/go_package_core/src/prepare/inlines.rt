//! The types that the files of a package write in initialisers and in functions.
ghost use Rattle.std.specs.Prelude.{◌≡◌, [], IfOk, OnOk, map};
ghost use Rattle.std.specs.List.{AllByRecursion, AllZip};
ghost use Rattle.go_term_core.specs.decl_core.Shown.{decl_shown, form_shown};
ghost use Rattle.go_local_core.specs.Tables.{IsFuncPlaced};
ghost use Rattle.go_body_core.specs.typexpr_core.EntryOutlines.{outline_shown};
ghost use Rattle.go_inline_core.specs.Functions as functions;
ghost use Rattle.go_package_core.specs.prepare.Inlines.{AreOutlinedTypes, AreFunctionsIn, IsPlacedOutline, form_funcs, initial_in, initial_types, outline_funcs};
ghost use Rattle.go_package_core.specs.prepare.Packages.{outlines_in, package_in_shown, shows_in, stand_in};
ghost use Rattle.go_package_core.specs.prepare.mirrors.Adding.{Adds};

use crate::prepare::package_at::PackageAt;
use go_body_core::typexpr_core::ImportedNames;
use go_inline_core::{Ground, InlineTypes, function_types, initialiser_types};
use go_path_core::text_core::add;
use go_term_core::decl_core::{DeclForm, Outline, TopDecl};
use go_type_core::TypeTable;
use std::alloc::{AllocError, Global};

// The types in the initialisers of a file.
fn file_initial<P: ImportedNames, N: ImportedNames>(
    alloc: Global,
    at: &PackageAt<'_, P>,
    names: &N,
    types: &TypeTable,
    file: usize,
    outline: &Outline<'_>,
) -> Result<InlineTypes, AllocError>
    requires names { N.shows names.now ≡ shows_in (package_in_shown P.shows at.now) }
    requires placed { IsPlacedOutline (outline_shown outline.now) }
    ensures { IfOk result (λ written. written ≡ initial_types (stand_in (package_in_shown P.shows at.now) types.now [] file (outline_shown outline.now)) (outline_shown outline.now)) }
{
    let ground = Ground {
        path: at.package.path(),
        blocks: at.blocks,
        file,
        imported: names,
        places: &outline.places,
        types,
    };
    initialiser_types(alloc, &ground, &outline.decls)
}

/// The types that each file of a package writes in the specifications of constants and variables outside functions, in order of name.
/// `names` says what names of types lead to in the package, `outlines` are those of its files, and `types` has the types of the package and of
/// those that it reaches.
///
/// The Go specification, "Constant declarations", "Variable declarations", "Composite literals".
///
/// # Errors
///
/// `AllocError` where memory is wanting.
pub fn package_initial<P: ImportedNames, N: ImportedNames>(
    alloc: Global,
    at: &PackageAt<'_, P>,
    names: &N,
    outlines: &[Outline<'_>],
    types: &TypeTable,
) -> Result<Vec<InlineTypes>, AllocError>
    requires names { N.shows names.now ≡ shows_in (package_in_shown P.shows at.now) }
    requires outlines { map outline_shown outlines.now ≡ outlines_in (package_in_shown P.shows at.now) }
    requires placed { AllByRecursion IsPlacedOutline (map outline_shown outlines.now) }
    ensures { IfOk result (λ written. written.items ≡ initial_in (package_in_shown P.shows at.now) types.now) }
{
    let mut written = Vec::new(alloc);
    for (file, outline) in outlines.iter().enumerate() {
        add(
            &mut written,
            file_initial(alloc, at, names, types, file, outline)?,
        )?;
    }
    Ok(written)
}

// Adds the types of a function, where a declaration is one.
fn add_function<P: ImportedNames>(
    alloc: Global,
    ground: &Ground<'_, P>,
    form: DeclForm<'_>,
    written: &mut Vec<InlineTypes>,
) -> Result<(), AllocError>
    requires { AllByRecursion IsFuncPlaced (form_funcs (form_shown form)) }
    ensures { OnOk result (Adds (functions.AreInlines (functions.kinds_in_ground ground.now) (functions.file_in ground.now) (functions.top_in P.shows ground.now) (functions.scoped_beyond ground.now)) (form_funcs (form_shown form.entry)) written.old.items written.new.items) }
{
    match form {
        DeclForm::Func(func) => add(written, function_types(alloc, ground, func)?),
        DeclForm::Value(_, _, _) => Ok(()),
        DeclForm::Type(_) => Ok(()),
    }
}

// The types of the functions among declarations.
fn decl_functions<P: ImportedNames>(
    alloc: Global,
    ground: &Ground<'_, P>,
    decls: &[TopDecl<'_>],
) -> Result<Vec<InlineTypes>, AllocError>
    requires { AllByRecursion IsFuncPlaced (outline_funcs (map decl_shown decls.now)) }
    ensures { IfOk result (λ written. AllZip (functions.AreInlines (functions.kinds_in_ground ground.now) (functions.file_in ground.now) (functions.top_in P.shows ground.now) (functions.scoped_beyond ground.now)) (outline_funcs (map decl_shown decls.now)) written.items) }
{
    let mut written = Vec::new(alloc);
    for decl in decls {
        add_function(alloc, ground, decl.form, &mut written)?;
    }
    Ok(written)
}

// The types of the functions of a file.
fn file_functions<P: ImportedNames, N: ImportedNames>(
    alloc: Global,
    at: &PackageAt<'_, P>,
    names: &N,
    types: &TypeTable,
    file: usize,
    outline: &Outline<'_>,
) -> Result<Vec<InlineTypes>, AllocError>
    requires names { N.shows names.now ≡ shows_in (package_in_shown P.shows at.now) }
    requires placed { IsPlacedOutline (outline_shown outline.now) }
    ensures { IfOk result (λ written. AreOutlinedTypes (stand_in (package_in_shown P.shows at.now) types.now [] file (outline_shown outline.now)) (outline_shown outline.now) written.items) }
{
    let ground = Ground {
        path: at.package.path(),
        blocks: at.blocks,
        file,
        imported: names,
        places: &outline.places,
        types,
    };
    decl_functions(alloc, &ground, &outline.decls)
}

/// The types that each file of a package writes in each of its functions: the files in order of name, the functions of each in order of place.
/// `names` says what names of types lead to in the package, `outlines` are those of its files, and `types` has the types of the package and of
/// those that it reaches.
///
/// The Go specification, "Types", "Declarations and scope", "Composite literals".
///
/// # Errors
///
/// `AllocError` where memory is wanting.
pub fn package_functions<P: ImportedNames, N: ImportedNames>(
    alloc: Global,
    at: &PackageAt<'_, P>,
    names: &N,
    outlines: &[Outline<'_>],
    types: &TypeTable,
) -> Result<Vec<Vec<InlineTypes>>, AllocError>
    requires names { N.shows names.now ≡ shows_in (package_in_shown P.shows at.now) }
    requires outlines { map outline_shown outlines.now ≡ outlines_in (package_in_shown P.shows at.now) }
    requires placed { AllByRecursion IsPlacedOutline (map outline_shown outlines.now) }
    ensures { IfOk result (λ written. AreFunctionsIn (package_in_shown P.shows at.now) types.now (map (λ of_file. of_file.items) written.items)) }
{
    let mut written = Vec::new(alloc);
    for (file, outline) in outlines.iter().enumerate() {
        add(
            &mut written,
            file_functions(alloc, at, names, types, file, outline)?,
        )?;
    }
    Ok(written)
}
