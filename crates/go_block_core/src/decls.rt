//! The declarations of the package block.
ghost use Rattle.std.specs.Prelude.{◌≡◌};
ghost use Rattle.go_decl_core.specs.Shown.{decl_shown};
ghost use Rattle.go_tree_nodes.specs.TypeShapes.{shape_results, shape_signature};
ghost use Rattle.go_block_core.specs.Declarations.{top_declared, without_results, is_procedure};
ghost use Rattle.go_block_core.specs.mirrors.Shown.{declaration_shown, declared_shown, named_place};

use go_decl_core::{DeclForm, DeclKind, DeclRef, TopDecl, kind_of_value};
use go_tree_nodes::{Results, Signature};

/// A declaration of a package block with its name and the offset in bytes of its identifier, and whether it is a
/// function without parameters and results.
#[derive(Clone, Copy)]
pub(crate) struct NamedPlace<'a> {
    pub(crate) name: &'a str,
    pub(crate) at: usize,
    pub(crate) decl: DeclRef,
    pub(crate) is_procedure: bool,
}

/// Whether a signature has no results.
fn is_without_results(results: &Results) -> bool
    ensures { result ≡ without_results (shape_results results.now) }
{
    match results {
        Results::Nothing => true,
        Results::Single(_) => false,
        Results::Listed(results) => results.entries.is_empty(),
    }
}

/// Whether a signature has neither parameters nor results.
fn is_procedure(signature: &Signature) -> bool
    ensures { result ≡ is_procedure (shape_signature signature.now) }
{
    signature.params.entries.is_empty() && is_without_results(&signature.results)
}

/// A declaration of the file of this number.
fn named_place<'a>(
    file: usize,
    top: &TopDecl<'a>,
    kind: DeclKind,
    is_procedure: bool,
) -> NamedPlace<'a>
    ensures { declaration_shown result ≡ named_place file top.now kind is_procedure }
{
    NamedPlace {
        name: top.ident.name.as_str(),
        at: top.ident.span.start as usize,
        decl: DeclRef {
            file,
            number: top.number,
            kind,
        },
        is_procedure,
    }
}

/// What a declaration of the file of this number declares in the package block: a method nothing.
pub(crate) fn declaration<'a>(file: usize, top: &TopDecl<'a>) -> Option<NamedPlace<'a>>
    ensures { declared_shown result ≡ top_declared file (decl_shown top.now) }
{
    match top.form {
        DeclForm::Value(kind, _, _) => Some(named_place(file, top, kind_of_value(kind), false)),
        DeclForm::Type(_) => Some(named_place(file, top, DeclKind::Type, false)),
        DeclForm::Func(func) => {
            if func.receiver.is_some() {
                return None;
            }
            let is_procedure = is_procedure(&func.signature);
            Some(named_place(file, top, DeclKind::Func, is_procedure))
        }
    }
}
