//! What declarations of a file have and break that follow one another.
ghost use Rattle.std.specs.Prelude.{◌≡◌, ◌++◌, [], IfOk, OnOk, map};
ghost use Rattle.go_tree_nodes.specs.Shapes.{decl_of, func_of, shape_type_decl, shape_value, top_of};
ghost use Rattle.go_tree_nodes.specs.WrittenTypes.{specs_types};
ghost use Rattle.go_local_core.specs.Tables.{IsFuncPlaced};
ghost use Rattle.go_inline_core.specs.Trees.{decl_types};
ghost use Rattle.go_names_core.specs.scope_core.Models.{scopes_model};
ghost use Rattle.go_env_core.specs.Scenes.{scene_shown};
ghost use Rattle.go_stmt_core.specs.toplevel.Tops as tops;
ghost use Rattle.go_body_core.specs.function.Stands.{outer_looks};
ghost use Rattle.go_body_core.specs.function.Functions.{checked_func};
ghost use Rattle.go_body_core.specs.function.Laws.{AreFuncTypes};
ghost use Rattle.go_body_core.specs.file.Files.{decl_uses, decl_faults, decl_locals, tops_uses, tops_faults, tops_locals};
ghost use Rattle.go_body_core.specs.file.Stands.{stand_of};
ghost use Rattle.go_body_core.specs.file.Runs.{IsRunMade};
ghost use Rattle.go_body_core.specs.file.mirrors.SpecDecls.{AreSpecsSeen, spec_decl_faults, spec_decl_uses};
ghost use Rattle.go_body_core.specs.file.mirrors.Steps.{AreMade, AreSeen, HasNext, behind};

use crate::file::file_at::FileAt;
use crate::file::notes::FileNotes;
use crate::file::runs::Run;
use crate::file::spec_decl::{SpecDecl, check_spec_decl};
use crate::{Local, check_body};
use go_env_core::{Meaning, Recall, Recalling, TypesOf, outer_names, stand};
use go_inline_core::InlineTypes;
use go_names_core::OpenNames;
use go_names_core::scope_core::Scopes;
use go_tree_nodes::{Decl, FuncDecl, TopDecl, TypeDecl, ValueDecl};
use go_typexpr_core::entry::ImportedNames;
use std::alloc::{AllocError, Global};

// Notes what a declaration has and breaks that consists of specifications, by the names as they are at the top of the file.
fn check_at_top<'p, P: ImportedNames, K: TypesOf>(
    alloc: Global,
    at: &FileAt<'_, 'p, P>,
    names: &OpenNames<Meaning<'p>>,
    decl: &SpecDecl<'_>,
    recall: &Recall<'p, K>,
    notes: &mut FileNotes<'p>,
) -> Result<(), AllocError>
    requires table { at.now.scene.now.types.now ≡ K.types }
    requires scopes { names.now.scopes.now ≡ scopes_model (scene_shown at.now.scene.now).blocks at.now.file [] }
    requires locals { names.now.locals.now ≡ [] }
    requires types { AreSpecsSeen (stand_of P.shows at.now) at.now.initial.now decl.now }
    ensures uses { OnOk result (notes.new.uses.items ≡ notes.old.uses.items ++ spec_decl_uses (outer_looks (stand_of P.shows at.now)) decl.now) }
    ensures faults { OnOk result (notes.new.faults.items ≡ notes.old.faults.items ++ spec_decl_faults (outer_looks (stand_of P.shows at.now)) decl.now) }
{
    let here = stand(at.scene, at.file, at.initial, at.known, names);
    let place = Recalling { here, recall };
    check_spec_decl(&place, alloc, decl, notes)
}

// Notes what a declaration of constants or variables has and breaks.
fn check_values<'p, P: ImportedNames, K: TypesOf>(
    alloc: Global,
    at: &FileAt<'_, 'p, P>,
    names: &OpenNames<Meaning<'p>>,
    decl: &ValueDecl,
    recall: &Recall<'p, K>,
    notes: &mut FileNotes<'p>,
) -> Result<(), AllocError>
    requires table { at.now.scene.now.types.now ≡ K.types }
    requires scopes { names.now.scopes.now ≡ scopes_model (scene_shown at.now.scene.now).blocks at.now.file [] }
    requires locals { names.now.locals.now ≡ [] }
    requires types { AreSeen (stand_of P.shows at.now) at.now.initial.now (specs_types (shape_value decl.now).specs) }
    ensures uses { OnOk result (notes.new.uses.items ≡ notes.old.uses.items ++ tops.value_decl_uses (outer_looks (stand_of P.shows at.now)) (shape_value decl.now)) }
    ensures faults { OnOk result (notes.new.faults.items ≡ notes.old.faults.items ++ tops.value_decl_faults (outer_looks (stand_of P.shows at.now)) (shape_value decl.now)) }
{
    let values = SpecDecl::Values(decl);
    check_at_top(alloc, at, names, &values, recall, notes)
}

// Notes what a declaration of types has and breaks.
fn check_types<'p, P: ImportedNames, K: TypesOf>(
    alloc: Global,
    at: &FileAt<'_, 'p, P>,
    names: &OpenNames<Meaning<'p>>,
    decl: &TypeDecl,
    recall: &Recall<'p, K>,
    notes: &mut FileNotes<'p>,
) -> Result<(), AllocError>
    requires table { at.now.scene.now.types.now ≡ K.types }
    requires scopes { names.now.scopes.now ≡ scopes_model (scene_shown at.now.scene.now).blocks at.now.file [] }
    requires locals { names.now.locals.now ≡ [] }
    ensures uses { OnOk result (notes.new.uses.items ≡ notes.old.uses.items ++ tops.type_decl_uses (outer_looks (stand_of P.shows at.now)) (shape_type_decl decl.now)) }
    ensures faults { OnOk result (notes.new.faults.items ≡ notes.old.faults.items ++ tops.type_decl_faults (shape_type_decl decl.now)) }
{
    let types = SpecDecl::Types(decl);
    check_at_top(alloc, at, names, &types, recall, notes)
}

// Notes what a function has and breaks, with the types that are written in it, and adds the locals that it declares.
fn check_func<'p, P: ImportedNames, K: TypesOf>(
    alloc: Global,
    at: &FileAt<'_, 'p, P>,
    inline: &'p InlineTypes,
    func: &FuncDecl,
    recall: &Recall<'p, K>,
    notes: &mut FileNotes<'p>,
    locals: &mut Vec<Local<'p>>,
) -> Result<(), AllocError>
    requires table { at.now.scene.now.types.now ≡ K.types }
    requires placed { IsFuncPlaced (func_of func.now) }
    requires types { AreFuncTypes (stand_of P.shows at.now) (func_of func.now) inline.now }
    ensures uses { OnOk result (notes.new.uses.items ≡ notes.old.uses.items ++ (checked_func (stand_of P.shows at.now) (func_of func.now)).uses) }
    ensures faults { OnOk result (notes.new.faults.items ≡ notes.old.faults.items ++ (checked_func (stand_of P.shows at.now) (func_of func.now)).faults) }
    ensures locals { OnOk result (locals.new.items ≡ locals.old.items ++ (checked_func (stand_of P.shows at.now) (func_of func.now)).locals) }
{
    let mut body = check_body(alloc, at.scene, at.file, inline, at.known, func, recall)?;
    notes.uses.append(&mut body.uses)?;
    locals.append(&mut body.locals)?;
    notes.faults.append(&mut body.faults)
}

// Notes what a declaration has and breaks, and adds the locals that it declares, where the functions of the file that are not checked yet begin at
// this number. The answer is where they begin behind it.
fn check_decl<'p, P: ImportedNames, K: TypesOf>(
    alloc: Global,
    at: &FileAt<'_, 'p, P>,
    names: &OpenNames<Meaning<'p>>,
    functions: &'p [InlineTypes],
    next: usize,
    decl: &Decl,
    recall: &Recall<'p, K>,
    notes: &mut FileNotes<'p>,
    declared: &mut Vec<Local<'p>>,
) -> Result<usize, AllocError>
    requires table { at.now.scene.now.types.now ≡ K.types }
    requires scopes { names.now.scopes.now ≡ scopes_model (scene_shown at.now.scene.now).blocks at.now.file [] }
    requires locals { names.now.locals.now ≡ [] }
    requires types { AreSeen (stand_of P.shows at.now) at.now.initial.now (decl_types (decl_of decl.now)) }
    requires functions { HasNext (stand_of P.shows at.now) (decl_of decl.now) functions.now next }
    ensures uses { IfOk result (λ n. notes.new.uses.items ≡ notes.old.uses.items ++ decl_uses (stand_of P.shows at.now) (decl_of decl.now)) }
    ensures faults { IfOk result (λ n. notes.new.faults.items ≡ notes.old.faults.items ++ decl_faults (stand_of P.shows at.now) (decl_of decl.now)) }
    ensures declared { IfOk result (λ n. declared.new.items ≡ declared.old.items ++ decl_locals (stand_of P.shows at.now) (decl_of decl.now)) }
    ensures next { IfOk result (λ n. n ≡ behind (decl_of decl.now) next) }
{
    match decl {
        Decl::Value(values) => {
            check_values(alloc, at, names, values, recall, notes)?;
            Ok(next)
        }
        Decl::Type(types) => {
            check_types(alloc, at, names, types, recall, notes)?;
            Ok(next)
        }
        Decl::Func(func) => {
            check_func(alloc, at, &functions[next], func, recall, notes, declared)?;
            Ok(next + 1)
        }
    }
}

// Notes what declarations have and break, and adds the locals that they declare, one behind another.
fn check_tops<'p, P: ImportedNames, K: TypesOf>(
    alloc: Global,
    at: &FileAt<'_, 'p, P>,
    names: &OpenNames<Meaning<'p>>,
    decls: &[TopDecl],
    functions: &'p [InlineTypes],
    recall: &Recall<'p, K>,
    notes: &mut FileNotes<'p>,
    declared: &mut Vec<Local<'p>>,
) -> Result<(), AllocError>
    requires table { at.now.scene.now.types.now ≡ K.types }
    requires scopes { names.now.scopes.now ≡ scopes_model (scene_shown at.now.scene.now).blocks at.now.file [] }
    requires locals { names.now.locals.now ≡ [] }
    requires made { AreMade (stand_of P.shows at.now) at.now.initial.now functions.now (map top_of decls.now) }
    ensures uses { OnOk result (notes.new.uses.items ≡ notes.old.uses.items ++ tops_uses (stand_of P.shows at.now) (map top_of decls.now)) }
    ensures faults { OnOk result (notes.new.faults.items ≡ notes.old.faults.items ++ tops_faults (stand_of P.shows at.now) (map top_of decls.now)) }
    ensures declared { OnOk result (declared.new.items ≡ declared.old.items ++ tops_locals (stand_of P.shows at.now) (map top_of decls.now)) }
{
    let mut next = 0;
    for top in decls {
        next = check_decl(
            alloc, at, names, functions, next, &top.decl, recall, notes, declared,
        )?;
    }
    Ok(())
}

/// Notes what a run of declarations has and breaks, and adds the locals that it declares.
pub(crate) fn check_run<'p, P: ImportedNames, K: TypesOf>(
    alloc: Global,
    at: &FileAt<'_, 'p, P>,
    run: &Run<'_, 'p>,
    recall: &Recall<'p, K>,
    notes: &mut FileNotes<'p>,
    declared: &mut Vec<Local<'p>>,
) -> Result<(), AllocError>
    requires table { at.now.scene.now.types.now ≡ K.types }
    requires made { IsRunMade (stand_of P.shows at.now) at.now.initial.now run.now }
    ensures uses { OnOk result (notes.new.uses.items ≡ notes.old.uses.items ++ tops_uses (stand_of P.shows at.now) (map top_of run.now.decls.now)) }
    ensures faults { OnOk result (notes.new.faults.items ≡ notes.old.faults.items ++ tops_faults (stand_of P.shows at.now) (map top_of run.now.decls.now)) }
    ensures declared { OnOk result (declared.new.items ≡ declared.old.items ++ tops_locals (stand_of P.shows at.now) (map top_of run.now.decls.now)) }
{
    let scopes = Scopes::begin(alloc, at.scene.blocks, at.file);
    let names = outer_names(at.scene, &scopes);
    check_tops(
        alloc,
        at,
        &names,
        run.decls,
        run.functions,
        recall,
        notes,
        declared,
    )
}

/// Notes what the declarations of a file have and break, and adds the locals that they declare, one behind another.
pub(crate) fn check_decls<'p, P: ImportedNames, K: TypesOf>(
    alloc: Global,
    at: &FileAt<'_, 'p, P>,
    decls: &[TopDecl],
    recall: &Recall<'p, K>,
    notes: &mut FileNotes<'p>,
    declared: &mut Vec<Local<'p>>,
) -> Result<(), AllocError>
    requires table { at.now.scene.now.types.now ≡ K.types }
    requires made { AreMade (stand_of P.shows at.now) at.now.initial.now at.now.functions.now (map top_of decls.now) }
    ensures uses { OnOk result (notes.new.uses.items ≡ notes.old.uses.items ++ tops_uses (stand_of P.shows at.now) (map top_of decls.now)) }
    ensures faults { OnOk result (notes.new.faults.items ≡ notes.old.faults.items ++ tops_faults (stand_of P.shows at.now) (map top_of decls.now)) }
    ensures declared { OnOk result (declared.new.items ≡ declared.old.items ++ tops_locals (stand_of P.shows at.now) (map top_of decls.now)) }
{
    let all = Run {
        decls,
        functions: at.functions,
    };
    check_run(alloc, at, &all, recall, notes, declared)
}
