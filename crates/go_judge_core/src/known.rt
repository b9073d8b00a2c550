//! What is known of a checked package where its expressions are judged.
use go_complete_core::package_core::{PackageAt, Part, package_outlines, types_of};
use go_complete_core::summary_core::View;
use go_complete_core::views::view_of_imports;
use go_env_core::declared_core::{FaceTable, WrittenFaces, written_faces};
use go_env_core::handle_core::Home;
use go_stmt_core::inline_core::{Ground, InlineTypes, initialiser_types};
use go_table_core::TypeTable;
use go_term_core::decl_core::{Outline, Places, TopDecl};
use go_typexpr_core::entry::ShownPackages;
use std::alloc::{AllocError, Global};

/// What is known of a checked package where its expressions are judged: the types that it sees, what the packages show that it imports, and the places of
/// its own declarations.
pub(crate) struct PackageKnown {
    pub(crate) types: TypeTable,
    pub(crate) view: View,
    pub(crate) places: DeclPlaces,
    pub(crate) home: Home,
}

impl Drop for PackageKnown {
    fn drop(self) {
        let PackageKnown {
            types: _,
            view: _,
            places: _,
            home: _,
        } = self;
    }
}

/// The places of the declarations of a package, and no types that are written in expressions.
pub(crate) struct DeclPlaces {
    pub(crate) written: WrittenFaces,
    pub(crate) inline: InlineTypes,
}

impl Drop for DeclPlaces {
    fn drop(self) {
        let DeclPlaces {
            written: _,
            inline: _,
        } = self;
    }
}

// No types that are written in expressions, of a file with these places.
fn no_types(
    alloc: Global,
    part: &Part,
    shown: &ShownPackages,
    types: &TypeTable,
    file: usize,
    places: &Places,
) -> Result<InlineTypes, AllocError> {
    let ground = Ground {
        path: part.path(),
        blocks: &part.content().blocks,
        file,
        imported: shown,
        places,
        types,
    };
    let decls: Vec<TopDecl<'_>> = Vec::new(alloc);
    initialiser_types(alloc, &ground, &decls)
}

// The same of the file of a number; want of memory where there is no such file, as there is one where an expression stands.
fn no_types_in(
    alloc: Global,
    part: &Part,
    shown: &ShownPackages,
    types: &TypeTable,
    file: usize,
    outlines: &[Outline<'_>],
) -> Result<InlineTypes, AllocError> {
    match outlines.get(file) {
        Some(outline) => no_types(alloc, part, shown, types, file, &outline.places),
        None => Err(AllocError),
    }
}

// The places of the declarations of the package of a part: what names of types mean is not asked.
fn decl_places(
    alloc: Global,
    part: &Part,
    types: &TypeTable,
    file: usize,
) -> Result<DeclPlaces, AllocError> {
    let input = part.input();
    let content = part.content();
    let shown = ShownPackages::new(alloc);
    let faces = FaceTable::new(alloc);
    let at = PackageAt {
        package: input.package(),
        blocks: &content.blocks,
        imports: input.imports(),
        shown: &shown,
        faces: &faces,
    };
    let outlines = package_outlines(alloc, &at)?;
    let inline = no_types_in(alloc, part, &shown, types, file, outlines.as_slice())?;
    let path = part.path();
    let written = written_faces(alloc, path, &content.blocks, &shown, types, &outlines)?;
    Ok(DeclPlaces { written, inline })
}

// The package of a part as a home of its expressions.
fn home_of(alloc: Global, part: &Part) -> Result<Home, AllocError> {
    let path = part.path().share()?;
    Home::new(alloc, path)
}

/// What is known of the package of a part where the expressions of the file of a number are judged. The time is linear in the packages that the package
/// reaches and in its declarations.
///
/// # Errors
///
/// `AllocError` where memory is wanting.
pub(crate) fn package_known(
    alloc: Global,
    part: &Part,
    file: usize,
) -> Result<PackageKnown, AllocError> {
    let types = types_of(alloc, part)?;
    let places = decl_places(alloc, part, &types, file)?;
    let view = view_of_imports(alloc, part.input())?;
    let home = home_of(alloc, part)?;
    Ok(PackageKnown {
        types,
        view,
        places,
        home,
    })
}
