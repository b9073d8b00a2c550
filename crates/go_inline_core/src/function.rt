//! The types that are written in a function, and in the specifications of constants and variables of a file.

ghost use Rattle.std.specs.Prelude.{◌≡◌, IfOk, map};
ghost use Rattle.go_tree_nodes.specs.TypeShapes.{shape_type};
ghost use Rattle.go_tree_nodes.specs.Shapes.{func_of};
ghost use Rattle.go_tree_nodes.specs.Trees.{FileTree};
ghost use Rattle.go_term_core.specs.decl_core.Shown.{decl_shown, form_shown};
ghost use Rattle.go_term_core.specs.decl_core.TopDecls.{top_decls};
ghost use Rattle.go_typexpr_core.specs.written.Written.{in_file};
ghost use Rattle.go_names_core.specs.local_core.Tables.{IsFuncPlaced};
ghost use Rattle.go_names_core.specs.Scope.{beyond_in};
ghost use Rattle.go_inline_core.specs.Trees.{file_types, form_types, outline_types};
ghost use Rattle.go_inline_core.specs.Functions as functions;
ghost use Rattle.go_inline_core.specs.Inline as inline;
ghost use Rattle.go_inline_core.specs.mirrors.Listing.{Lists};
ghost use Rattle.go_tree_nodes.specs.Spelling.{IsPlaced};

use crate::checker::InlineChecker;
use crate::ground::Ground;
use crate::listing::{TypeList, list_spec};
use crate::making::note_types;
use crate::types::{InlineTypes, Note};
use go_names_core::block_core::Blocks;
use go_names_core::check_function;
use go_term_core::decl_core::{DeclForm, TopDecl};
use go_term_core::settling::Kinds;
use go_tree_nodes::FuncDecl;
use go_typexpr_core::entry::{FileNames, ImportedNames};
use go_typexpr_core::written::{TypeNames, WrittenIn};
use std::alloc::{AllocError, Global};

// The types of a function, by what names of types mean at the top of its file.
fn checked_types<'a, N: TypeNames, K: Kinds>(
    alloc: Global,
    top: &'a N,
    at: &'a WrittenIn<'a>,
    kinds: &'a K,
    blocks: &Blocks,
    func: &FuncDecl,
) -> Result<InlineTypes, AllocError>
    requires placed { IsFuncPlaced (func_of func.now) }
    ensures { IfOk result (functions.AreInlines (K.kinds kinds.now) (in_file at.now) (N.meaning top.now) (beyond_in functions.scoped_outside blocks.now at.now.file) (func_of func.now)) }
{
    let checker = InlineChecker {
        alloc,
        top,
        at,
        kinds,
    };
    let checked = check_function(alloc, &checker, blocks, at.file, func)?;
    InlineTypes::of(alloc, checked.notes)
}

/// The types that are written in a function, by their first bytes: those of its parameters and results, of the specifications in its body, and the
/// struct types before literals, at any depth of expressions. Each is settled, with the faults of its fields, its methods and their parameters. A
/// name of a type that is a local where it stands means no type.
///
/// The Go specification, "Types", "Declarations and scope", "Composite literals".
///
/// # Errors
///
/// `AllocError` where memory is wanting.
pub fn function_types<P: ImportedNames>(
    alloc: Global,
    ground: &Ground<'_, P>,
    func: &FuncDecl,
) -> Result<InlineTypes, AllocError>
    requires placed { IsFuncPlaced (func_of func.now) }
    ensures { IfOk result (functions.AreInlines (functions.kinds_in_ground ground.now) (functions.file_in ground.now) (functions.top_in P.shows ground.now) (functions.scoped_beyond ground.now) (func_of func.now)) }
{
    let top = FileNames {
        path: ground.path,
        blocks: ground.blocks,
        file: ground.file,
        imported: ground.imported,
    };
    let at = WrittenIn {
        path: ground.path,
        file: ground.file,
        places: ground.places,
    };
    checked_types(alloc, &top, &at, ground.types, ground.blocks, func)
}

// Lists the types of a declaration, where it is the first of a specification of constants or variables.
fn list_decl<'a>(decl: &TopDecl<'a>, list: &mut TypeList<'a>)
    ensures { Lists list.old (form_types (form_shown decl.now.form)) list.new }
{
    match decl.form {
        DeclForm::Value(_, spec, place) => {
            if place == 0 {
                list_spec(spec, list);
            }
        }
        DeclForm::Type(_) => {}
        DeclForm::Func(_) => {}
    }
}

// Lists the types of declarations.
fn list_decls<'a>(decls: &[TopDecl<'a>], list: &mut TypeList<'a>)
    ensures { Lists list.old (outline_types (map decl_shown decls.now)) list.new }
{
    for decl in decls {
        list_decl(decl, list);
    }
}

// The types of declarations, by what names of types mean at the top of their file.
fn declared_types<N: TypeNames, K: Kinds>(
    alloc: Global,
    top: &N,
    at: &WrittenIn<'_>,
    kinds: &K,
    decls: &[TopDecl<'_>],
) -> Result<InlineTypes, AllocError>
    ensures { IfOk result (λ types. types ≡ inline.inlines (K.kinds kinds.now) (in_file at.now) (N.meaning top.now) (outline_types (map decl_shown decls.now))) }
{
    let mut list = TypeList::new(alloc);
    list_decls(decls, &mut list);
    let mut notes = Vec::new(alloc);
    note_types(alloc, top, at, kinds, &list, &mut notes)?;
    InlineTypes::of(alloc, notes)
}

/// The types that are written in the specifications of constants and variables of a file outside functions, by their first bytes: the written type
/// of each, and the struct types before literals in its values. The declarations are those of the file's outline.
///
/// The Go specification, "Constant declarations", "Variable declarations", "Composite literals".
///
/// # Errors
///
/// `AllocError` where memory is wanting.
pub fn initialiser_types<P: ImportedNames>(
    alloc: Global,
    ground: &Ground<'_, P>,
    decls: &[TopDecl<'_>],
) -> Result<InlineTypes, AllocError>
    ensures listed { IfOk result (λ types. inline.AreFoundAlike types (inline.inlines (functions.kinds_in_ground ground.now) (functions.file_in ground.now) (functions.top_in P.shows ground.now) (outline_types (map decl_shown decls.now)))) }
    ensures placed { IfOk result (λ types. (f : FileTree) → IsPlaced f → map decl_shown decls.now ≡ top_decls f → types ≡ inline.inlines (functions.kinds_in_ground ground.now) (functions.file_in ground.now) (functions.top_in P.shows ground.now) (file_types f)) }
{
    let top = FileNames {
        path: ground.path,
        blocks: ground.blocks,
        file: ground.file,
        imported: ground.imported,
    };
    let at = WrittenIn {
        path: ground.path,
        file: ground.file,
        places: ground.places,
    };
    declared_types(alloc, &top, &at, ground.types, decls)
}
