//! The functions of a package that are checked in both ways.
ghost use Rattle.std.specs.Prelude.{◌≡◌, map};
ghost use Rattle.go_tree_nodes.specs.Shapes.{decl_of, func_of, top_of};
ghost use Rattle.go_local_core.specs.Tables.{IsFuncPlaced};
ghost use Rattle.test_snapshot.specs.Functions.{ArePlacedTops, IsPlacedDecl};

use crate::branches::Sums;
use go_body_core::check_body;
use go_body_core::env_core::{Recall, Scene, TypesOf};
use go_branch_core::check_body_par;
use go_declared_core::Face;
use go_declared_core::handle_core::{SignatureRef, TypeRef};
use go_inline_core::InlineTypes;
use go_site_core::graph_core::SourceFile;
use go_tree_nodes::{Decl, FuncDecl, TopDecl};
use std::alloc::{AllocError, Global};
use std::thread::Threads;

/// A file of a package, with what is known of the package. All is lent.
#[derive(Clone, Copy)]
struct FileAt<'n, 'p> {
    scene: &'n Scene<'p>,
    file: usize,
    known: &'n [Option<Face<TypeRef<'p>, SignatureRef<'p>>>],
}

/// Checks a function in both ways, each with its own memory of what was decided of types.
fn compare_func<'p, R: Threads + Sync, K: TypesOf + Send + Sync>(
    rt: &R,
    alloc: Global,
    at: &FileAt<'_, 'p>,
    inline: &'p InlineTypes,
    func: &FuncDecl,
    in_turn: &Recall<'p, K>,
    in_parts: &Recall<'p, K>,
    sums: &mut Sums,
) -> Result<(), AllocError>
    requires table { at.now.scene.now.types.now ≡ K.types }
    requires placed { IsFuncPlaced (func_of func.now) }
{
    let one = check_body(alloc, at.scene, at.file, inline, at.known, func, in_turn)?;
    let other = check_body_par(
        rt, alloc, at.scene, at.file, inline, at.known, func, in_parts,
    )?;
    sums.count(&one, &other);
    Ok(())
}

/// Checks a declaration in both ways, where it is a function. Gives the number of the function that comes next.
fn compare_decl<'p, R: Threads + Sync, K: TypesOf + Send + Sync>(
    rt: &R,
    alloc: Global,
    at: &FileAt<'_, 'p>,
    functions: &'p [InlineTypes],
    next: usize,
    decl: &Decl,
    in_turn: &Recall<'p, K>,
    in_parts: &Recall<'p, K>,
    sums: &mut Sums,
) -> Result<usize, AllocError>
    requires table { at.now.scene.now.types.now ≡ K.types }
    requires placed { IsPlacedDecl (decl_of decl.now) }
{
    match decl {
        Decl::Func(func) => {
            if let Some(inline) = functions.get(next) {
                compare_func(rt, alloc, at, inline, func, in_turn, in_parts, sums)?;
            }
            Ok(next.saturating_add(1))
        }
        Decl::Value(_) => Ok(next),
        Decl::Type(_) => Ok(next),
    }
}

/// Checks the functions among declarations in both ways.
fn compare_decls<'p, R: Threads + Sync, K: TypesOf + Send + Sync>(
    rt: &R,
    alloc: Global,
    at: &FileAt<'_, 'p>,
    functions: &'p [InlineTypes],
    decls: &[TopDecl],
    in_turn: &Recall<'p, K>,
    in_parts: &Recall<'p, K>,
    sums: &mut Sums,
) -> Result<(), AllocError>
    requires table { at.now.scene.now.types.now ≡ K.types }
    requires placed { ArePlacedTops (map top_of decls.now) }
{
    let mut next = 0usize;
    for top in decls {
        next = compare_decl(
            rt, alloc, at, functions, next, &top.decl, in_turn, in_parts, sums,
        )?;
    }
    Ok(())
}

/// Checks the functions of a file in both ways.
fn compare_file<'p, R: Threads + Sync, K: TypesOf + Send + Sync>(
    rt: &R,
    alloc: Global,
    at: &FileAt<'_, 'p>,
    functions: &'p [InlineTypes],
    file: &SourceFile,
    in_turn: &Recall<'p, K>,
    in_parts: &Recall<'p, K>,
    sums: &mut Sums,
) -> Result<(), AllocError>
    requires { at.now.scene.now.types.now ≡ K.types }
{
    match file.tree() {
        Ok(tree) => compare_decls(
            rt,
            alloc,
            at,
            functions,
            &tree.decls,
            in_turn,
            in_parts,
            sums,
        ),
        Err(_) => Ok(()),
    }
}

/// Checks the functions of the files of a package in both ways. Of each file in order of name it takes the types that its functions write.
pub(crate) fn compare_files<'n, 'p, R: Threads + Sync, K: TypesOf + Send + Sync>(
    rt: &R,
    alloc: Global,
    scene: &'n Scene<'p>,
    known: &'n [Option<Face<TypeRef<'p>, SignatureRef<'p>>>],
    functions: &'p [Vec<InlineTypes>],
    files: &[SourceFile],
    sums: &mut Sums,
) -> Result<(), AllocError>
    requires { scene.now.types.now ≡ K.types }
{
    let in_turn: Recall<'p, K> = Recall::new(alloc);
    let in_parts: Recall<'p, K> = Recall::new(alloc);
    for (number, file) in files.iter().enumerate() {
        let at = FileAt {
            scene,
            file: number,
            known,
        };
        if let Some(functions) = functions.get(number) {
            compare_file(rt, alloc, &at, functions, file, &in_turn, &in_parts, sums)?;
        }
    }
    Ok(())
}
