//! What a package sees of those that it reaches.
ghost use Rattle.std.specs.Prelude.{◌≡◌, ◌++◌, IfOk, OnOk};
ghost use Rattle.go_table_core.specs.Tables.{AreOthers};
ghost use Rattle.go_declared_core.specs.Packages.{with_faces};
ghost use Rattle.go_summary_core.specs.Summaries.{IsOfOne, path_of};
ghost use Rattle.go_summary_core.specs.Views.{PathsAreApart, exports_told, faces_told, types_told};

use crate::summary::Summary;
use go_declared_core::FaceTable;
use go_declared_core::typexpr_core::ShownPackages;
use go_table_core::TypeTable;
use std::alloc::{AllocError, Global};

/// What a package sees of the packages that it reaches by imports: their types, what they show behind a dot, and what their declarations are.
pub struct View {
    pub types: TypeTable,
    pub shown: ShownPackages,
    pub faces: FaceTable,
}

impl Drop for View {
    fn drop(self) {
        let View {
            types: _,
            shown: _,
            faces: _,
        } = self;
    }
}

/// Adds the types of a package behind others.
pub(crate) fn add_types(types: &mut TypeTable, summary: &Summary) -> Result<(), AllocError>
    requires { AreOthers (path_of summary.now) types.old }
    ensures types { OnOk result (types.new ≡ types.old ++ summary.now.types.entries) }
    ensures own { IsOfOne summary.now }
{
    let _path = summary.path();
    types.add(summary.types().share()?)
}

/// The types of all these packages.
fn types_of(alloc: Global, summaries: &[Summary]) -> Result<TypeTable, AllocError>
    requires { PathsAreApart summaries.now }
    ensures { IfOk result (λ t. t ≡ types_told summaries.now) }
{
    let mut types = TypeTable::new(alloc);
    for summary in summaries {
        add_types(&mut types, summary)?;
    }
    Ok(types)
}

/// What all these packages show.
fn shown_of(alloc: Global, summaries: &[Summary]) -> Result<ShownPackages, AllocError>
    requires { PathsAreApart summaries.now }
    ensures { IfOk result (λ s. s ≡ exports_told summaries.now) }
{
    let mut shown = ShownPackages::new(alloc);
    for summary in summaries {
        shown.add(summary.exports().share()?)?;
    }
    Ok(shown)
}

/// Adds what the declarations of a package are behind those of others.
fn add_faces(faces: &mut FaceTable, summary: &Summary) -> Result<(), AllocError>
    ensures faces { OnOk result (faces.new ≡ with_faces faces.old summary.now.faces) }
    ensures own { IsOfOne summary.now }
{
    let _path = summary.path();
    faces.add(summary.faces().share()?)
}

/// What the declarations of all these packages are.
fn faces_of(alloc: Global, summaries: &[Summary]) -> Result<FaceTable, AllocError>
    requires { PathsAreApart summaries.now }
    ensures { IfOk result (λ f. f ≡ faces_told summaries.now) }
{
    let mut faces = FaceTable::new(alloc);
    for summary in summaries {
        add_faces(&mut faces, summary)?;
    }
    Ok(faces)
}

/// What a package sees that reaches these packages, each path once: in each table what the summaries tell, in their order. Types and faces are
/// shared. The time that it takes is linear in the summaries and, but for a logarithm, in the exported names.
///
/// # Errors
///
/// `AllocError` where memory is wanting.
pub fn view_of(alloc: Global, summaries: &[Summary]) -> Result<View, AllocError>
    requires { PathsAreApart summaries.now }
    ensures types { IfOk result (λ v. v.types ≡ types_told summaries.now) }
    ensures shown { IfOk result (λ v. v.shown ≡ exports_told summaries.now) }
    ensures faces { IfOk result (λ v. v.faces ≡ faces_told summaries.now) }
{
    let types = types_of(alloc, summaries)?;
    let shown = shown_of(alloc, summaries)?;
    let faces = faces_of(alloc, summaries)?;
    Ok(View {
        types,
        shown,
        faces,
    })
}
