//! Where to look for the doc comments of the declarations of a file.
//!
//! Where a function that adds anchors ends for want of memory, some of them may stand behind those that were there. Nothing is made of
//! that list: it is let go.
ghost use Rattle.std.specs.Prelude.{◌≡◌, ◌++◌, IfOk, OnOk};
ghost use Rattle.go_tree_nodes.specs.Shapes.{decl_of, file_of, shape_type_decl, shape_value};
ghost use Rattle.go_tree_nodes.specs.Trees as decls;
ghost use Rattle.go_tree_nodes.specs.TypeShapes.{shape_idents};
ghost use Rattle.go_decl_core.specs.Anchors.{anchors_of, decl_anchors, named_anchors};

use go_path_core::text_core::add;
use go_tree_nodes::{Decl, File, Idents, TypeDecl, TypeSpecs, ValueDecl, ValueSpecs};
use std::alloc::{AllocError, Global};

/// Where the doc comment of a declaration stands, in byte offsets of its file.
#[derive(Clone, Copy, Debug, PartialEq, Eq)]
pub struct Anchor {
    /// The comment ends on the line above the one that this offset is on: that of the declaration's keyword, or in a group (in
    /// parentheses) that of the first name of its specification.
    pub at: usize,
    /// No comment that begins before this offset counts: 0, or that of the group's keyword.
    pub behind: usize,
}

// Adds the anchor of a specification once for each of its names.
fn add_names(anchors: &mut Vec<Anchor>, anchor: Anchor, names: &Idents) -> Result<(), AllocError>
    ensures { OnOk result (anchors.new.items ≡ anchors.old.items ++ named_anchors anchor (shape_idents names.now)) }
{
    add(anchors, anchor)?;
    for next in &names.more {
        let _ident = &next.ident;
        add(anchors, anchor)?;
    }
    Ok(())
}

// Adds the anchors of constants or variables.
fn add_values(anchors: &mut Vec<Anchor>, value: &ValueDecl) -> Result<(), AllocError>
    ensures { OnOk result (anchors.new.items ≡ anchors.old.items ++ decl_anchors (decls.Value (shape_value value.now))) }
{
    let keyword = value.keyword.start as usize;
    match &value.specs {
        ValueSpecs::One(spec) => {
            let anchor = Anchor {
                at: keyword,
                behind: 0,
            };
            add_names(anchors, anchor, &spec.names)
        }
        ValueSpecs::Group(_, lines, _) => {
            for line in lines {
                let names = &line.spec.names;
                let anchor = Anchor {
                    at: names.first.span.start as usize,
                    behind: keyword,
                };
                add_names(anchors, anchor, names)?;
            }
            Ok(())
        }
    }
}

// Adds the anchors of types.
fn add_types(anchors: &mut Vec<Anchor>, types: &TypeDecl) -> Result<(), AllocError>
    ensures { OnOk result (anchors.new.items ≡ anchors.old.items ++ decl_anchors (decls.Types (shape_type_decl types.now))) }
{
    let keyword = types.keyword.start as usize;
    match &types.specs {
        TypeSpecs::One(_) => {
            let anchor = Anchor {
                at: keyword,
                behind: 0,
            };
            add(anchors, anchor)
        }
        TypeSpecs::Group(_, lines, _) => {
            for line in lines {
                let anchor = Anchor {
                    at: line.spec.name.span.start as usize,
                    behind: keyword,
                };
                add(anchors, anchor)?;
            }
            Ok(())
        }
    }
}

// Adds the anchors of a declaration.
fn add_decl(anchors: &mut Vec<Anchor>, decl: &Decl) -> Result<(), AllocError>
    ensures { OnOk result (anchors.new.items ≡ anchors.old.items ++ decl_anchors (decl_of decl.now)) }
{
    match decl {
        Decl::Value(value) => add_values(anchors, value),
        Decl::Type(types) => add_types(anchors, types),
        Decl::Func(func) => {
            let anchor = Anchor {
                at: func.func.start as usize,
                behind: 0,
            };
            add(anchors, anchor)
        }
    }
}

/// Where the doc comments of the declarations of a file stand: one for each of the declarations that [`outline`](crate::outline)
/// lists, in their order. The names of a specification have the same.
///
/// # Errors
///
/// [`AllocError`] where memory runs out.
pub fn anchors(alloc: Global, tree: &File) -> Result<Vec<Anchor>, AllocError>
    ensures { IfOk result (λ v. v.items ≡ anchors_of (file_of tree.now)) }
{
    let mut anchors = Vec::new(alloc);
    for top in &tree.decls {
        add_decl(&mut anchors, &top.decl)?;
    }
    Ok(anchors)
}
