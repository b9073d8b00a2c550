//! The identifiers of a file that are used, its imports and its calls.

ghost use Rattle.std.specs.Prelude.{◌≡◌, ℕ, [], ◌∷◌, ◌++◌, OnOk, IfOk, IsOk, map};
ghost use Rattle.go_tree_nodes.specs.Shapes.{shape_import_spec, shape_import_specs, func_of, decl_of, top_of, import_of, file_of};
ghost use Rattle.go_tree_nodes.specs.Spelling.{spell_file};
ghost use Rattle.go_tree_nodes.specs.Terminals.{InOrder};
ghost use Rattle.go_tree_core.specs.Occurrences.{occ_at, import_occs, specs_occs, receiver_occs, func_occs, decl_occs, imports_occs, tops_occs, file_occs, Follow};

use crate::expr_occurrences::{visit_type_decl, visit_value};
use crate::occurrence::{Occ, Role};
use crate::stmt_occurrences::visit_lines;
use crate::type_occurrences::{visit_signature, visit_type_name};
use crate::visitor::Visitor;
use go_tree_nodes::text_core::{Name, Span};
use go_tree_nodes::{Decl, File, FuncDecl, ImportDecl, ImportSpec, ImportSpecs, Receiver, TopDecl};
use std::alloc::{AllocError, Global};

/// The identifiers of a file that are used, its imports and its calls, each once, in order of their places.
///
/// The names that a declaration declares, the package's name and blank targets of assignments are none.
///
/// # Errors
///
/// [`AllocError`] where memory runs out.
pub fn occurrences(alloc: Global, file: &File) -> Result<Vec<Occ>, AllocError>
    ensures value { IfOk result (λ os. os.items ≡ file_occs (file_of file.now)) }
    ensures ordered { IfOk result (λ os. (high : ℕ) → InOrder 0 (spell_file (file_of file.now)) high → Follow 0 os.items high) }
{
    let mut collector = Collector {
        alloc,
        occs: Vec::new(alloc),
        outcome: Ok(()),
    };
    visit_file(&mut collector, file);
    collector.outcome?;
    Ok(collector.occs)
}

// The occurrences that have been visited.
#[derive(Drop)]
struct Collector {
    alloc: Global,
    occs: Vec<Occ>,
    // Whether there was memory for each of them. Where there was none, those behind are left out.
    outcome: Result<(), AllocError>,
}

impl Collector {
    // Adds an occurrence.
    fn add(&mut self, role: Role, spelling: &str, span: Span) -> Result<(), AllocError>
        ensures { OnOk result (self.new.occs.items ≡ self.old.occs.items ++ occ_at role spelling.now span ∷ []) }
    {
        let spelling = Name::from_text(self.alloc, spelling)?;
        self.occs.push(Occ {
            role,
            spelling,
            span,
        })?;
        Ok(())
    }
}

impl Visitor for Collector {
    ghost Sees = { λ a os b. IsOk b.outcome → IsOk a.outcome × (b.occs.items ≡ a.occs.items ++ os) };

    ghost use Rattle.std.proofs.Common.{ap, sym, ◌∙◌, append-nil, append_assoc};

    ghost sees_none = { λ a ok. (ok, sym (append-nil a.occs.items)) };

    ghost sees_more = { λ a b c xs ys first second ok. ((first (second ok).0).0, (second ok).1 ∙ ap (λ os. os ++ ys) (first (second ok).0).1 ∙ append_assoc a.occs.items xs ys) };

    fn visit(&mut self, role: Role, spelling: &str, span: Span) {
        if self.outcome.is_ok() {
            self.outcome = self.add(role, spelling, span);
        }
    }
}

/// Visits the occurrences of a file.
pub(crate) fn visit_file<V: Visitor>(visitor: &mut V, file: &File)
    ensures { V.Sees visitor.old (file_occs (file_of file.now)) visitor.new }
{
    visit_imports(visitor, &file.imports);
    visit_tops(visitor, &file.decls);
}

// Visits an import.
fn visit_import<V: Visitor>(visitor: &mut V, spec: &ImportSpec)
    ensures { V.Sees visitor.old (import_occs (shape_import_spec spec.now)) visitor.new }
{
    visitor.visit(Role::Import, spec.path.spelled.as_str(), spec.path.span);
}

// Visits the imports of one declaration.
fn visit_import_specs<V: Visitor>(visitor: &mut V, specs: &ImportSpecs)
    ensures { V.Sees visitor.old (specs_occs import_occs (shape_import_specs specs.now)) visitor.new }
{
    match specs {
        ImportSpecs::One(spec) => visit_import(visitor, spec),
        ImportSpecs::Group(_, lines, _) => {
            for line in lines {
                visit_import(visitor, &line.spec);
            }
        }
    }
}

// Visits the imports of a file.
fn visit_imports<V: Visitor>(visitor: &mut V, imports: &Vec<ImportDecl>)
    ensures { V.Sees visitor.old (imports_occs (map import_of imports.now.items)) visitor.new }
{
    for import in imports {
        visit_import_specs(visitor, &import.specs);
    }
}

// Visits the occurrences of a receiver.
fn visit_receiver<V: Visitor>(visitor: &mut V, receiver: &Option<Receiver>)
    ensures { V.Sees visitor.old (receiver_occs receiver.now) visitor.new }
{
    match receiver {
        None => {}
        Some(receiver) => visit_type_name(visitor, &receiver.base),
    }
}

// Visits the occurrences of a function or a method.
fn visit_func<V: Visitor>(visitor: &mut V, func: &FuncDecl)
    ensures { V.Sees visitor.old (func_occs (func_of func.now)) visitor.new }
{
    visit_receiver(visitor, &func.receiver);
    visit_signature(visitor, &func.signature);
    visit_lines(visitor, &func.body);
}

// Visits the occurrences of a declaration of the package block.
fn visit_decl<V: Visitor>(visitor: &mut V, decl: &Decl)
    ensures { V.Sees visitor.old (decl_occs (decl_of decl.now)) visitor.new }
{
    match decl {
        Decl::Value(value) => visit_value(visitor, value),
        Decl::Type(types) => visit_type_decl(visitor, types),
        Decl::Func(func) => visit_func(visitor, func),
    }
}

// Visits the occurrences of the declarations of the package block.
fn visit_tops<V: Visitor>(visitor: &mut V, tops: &Vec<TopDecl>)
    ensures { V.Sees visitor.old (tops_occs (map top_of tops.now.items)) visitor.new }
{
    for top in tops {
        visit_decl(visitor, &top.decl);
    }
}
