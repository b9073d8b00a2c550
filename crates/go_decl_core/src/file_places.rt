//! The walk over the declarations of a file.
ghost use Rattle.std.specs.Prelude.{◌≡◌, [], ◌∷◌, IfOk, map};
ghost use Rattle.go_tree_nodes.specs.Shapes.{shape_value_spec, shape_value, shape_type_spec, shape_type_decl, func_of, decl_of, top_of, file_of};
ghost use Rattle.go_tree_nodes.specs.TypeShapes.{shape_idents};
ghost use Rattle.go_decl_core.specs.Outer.{Whole, outer, idents_outers, kind_of_value, kind_of_func, value_spec_outers, type_spec_outers, receiver_outers, func_outers, decl_outers, tops_outers, places_of};
ghost use Rattle.go_decl_core.specs.TopDecls.{top_decl, named_decls, value_spec_decls, type_spec_decls, func_decls, decl_decls, tops_decls, top_decls};
ghost use Rattle.go_tree_nodes.specs.Trees as decls;
ghost use Rattle.go_decl_core.specs.Shown.{form_shown, decl_shown};
ghost use Rattle.go_decl_core.specs.mirrors.Listing.{Adds, Lists};
ghost use Rattle.go_tree_nodes.specs.Spelling.{IsPlaced};

use crate::expr_places::list_rest;
use crate::lister::Lister;
use crate::places::{DeclKind, Places};
use crate::tops::{DeclForm, Outline, TopDecl, kind_of_func, kind_of_value};
use crate::type_places::{list_signature, list_type};
use go_tree_nodes::{
    Decl, File, FuncDecl, Ident, Receiver, TypeDecl, TypeSpec, TypeSpecs, ValueDecl, ValueKind,
    ValueSpec, ValueSpecs,
};
use std::alloc::{AllocError, Global};

// The places and the declarations that have been listed.
#[derive(Drop)]
struct Outliner<'a> {
    lister: Lister,
    decls: Vec<TopDecl<'a>>,
}

// Adds a declaration, at its identifier.
fn add<'a>(outliner: &mut Outliner<'a>, kind: DeclKind, ident: &'a Ident, form: DeclForm<'a>)
    ensures { Lists outliner.old (outer kind Whole ident.now ∷ []) (λ n. top_decl ident.now n (form_shown form.entry) ∷ []) outliner.new }
{
    let decl = TopDecl {
        ident,
        number: outliner.lister.places.len(),
        form,
    };
    outliner.lister.add(kind, ident);
    if outliner.lister.outcome.is_ok() && outliner.decls.push(decl).is_err() {
        outliner.lister.outcome = Err(AllocError);
    }
}

// Lists the constants or variables of a specification.
fn list_names<'a>(outliner: &mut Outliner<'a>, kind: ValueKind, spec: &'a ValueSpec)
    ensures { Lists outliner.old (idents_outers (kind_of_value kind) Whole (shape_idents spec.now.names)) (λ n. value_spec_decls kind n (shape_value_spec spec.now)) outliner.new }
{
    let decl_kind = kind_of_value(kind);
    let first = &spec.names.first;
    add(outliner, decl_kind, first, DeclForm::Value(kind, spec, 0));
    for (before, next) in spec.names.more.iter().enumerate() {
        let form = DeclForm::Value(kind, spec, before + 1);
        add(outliner, decl_kind, &next.ident, form);
    }
}

// Lists what a specification of values declares.
fn list_value_spec<'a>(outliner: &mut Outliner<'a>, kind: ValueKind, spec: &'a ValueSpec)
    ensures { Lists outliner.old (value_spec_outers kind (shape_value_spec spec.now)) (λ n. value_spec_decls kind n (shape_value_spec spec.now)) outliner.new }
{
    list_names(outliner, kind, spec);
    list_rest(&mut outliner.lister, spec);
}

// Lists what a declaration of constants or variables declares.
fn list_value<'a>(outliner: &mut Outliner<'a>, value: &'a ValueDecl)
    ensures { Lists outliner.old (decl_outers (decls.Value (shape_value value.now))) (λ n. decl_decls n (decls.Value (shape_value value.now))) outliner.new }
{
    match &value.specs {
        ValueSpecs::One(spec) => list_value_spec(outliner, value.kind, spec),
        ValueSpecs::Group(_, lines, _) => {
            for line in lines {
                list_value_spec(outliner, value.kind, &line.spec);
            }
        }
    }
}

// Lists what a specification of a type declares.
fn list_type_spec<'a>(outliner: &mut Outliner<'a>, spec: &'a TypeSpec)
    ensures { Lists outliner.old (type_spec_outers (shape_type_spec spec.now)) (λ n. type_spec_decls n (shape_type_spec spec.now)) outliner.new }
{
    add(outliner, DeclKind::Type, &spec.name, DeclForm::Type(spec));
    list_type(&mut outliner.lister, &spec.type_expr);
}

// Lists what a declaration of types declares.
fn list_types<'a>(outliner: &mut Outliner<'a>, types: &'a TypeDecl)
    ensures { Lists outliner.old (decl_outers (decls.Types (shape_type_decl types.now))) (λ n. decl_decls n (decls.Types (shape_type_decl types.now))) outliner.new }
{
    match &types.specs {
        TypeSpecs::One(spec) => list_type_spec(outliner, spec),
        TypeSpecs::Group(_, lines, _) => {
            for line in lines {
                list_type_spec(outliner, &line.spec);
            }
        }
    }
}

// Lists the name of a receiver, where it has one.
fn list_receiver(lister: &mut Lister, receiver: &Option<Receiver>)
    ensures { Adds lister.old (receiver_outers receiver.now) lister.new }
{
    if let Some(receiver) = receiver {
        if let Some(name) = &receiver.name {
            lister.add(DeclKind::Param, name);
        }
    }
}

// Lists what a function or a method declares outside its body.
fn list_func<'a>(outliner: &mut Outliner<'a>, func: &'a FuncDecl)
    ensures { Lists outliner.old (func_outers (func_of func.now)) (λ n. func_decls n (func_of func.now)) outliner.new }
{
    list_receiver(&mut outliner.lister, &func.receiver);
    let kind = kind_of_func(&func.receiver);
    add(outliner, kind, &func.name, DeclForm::Func(func));
    list_signature(&mut outliner.lister, &func.signature);
}

// Lists what a declaration of the package block declares.
fn list_decl<'a>(outliner: &mut Outliner<'a>, decl: &'a Decl)
    ensures { Lists outliner.old (decl_outers (decl_of decl.now)) (λ n. decl_decls n (decl_of decl.now)) outliner.new }
{
    match decl {
        Decl::Value(value) => list_value(outliner, value),
        Decl::Type(types) => list_types(outliner, types),
        Decl::Func(func) => list_func(outliner, func),
    }
}

// Lists what the declarations of a file declare.
fn list_tops<'a>(outliner: &mut Outliner<'a>, tops: &'a Vec<go_tree_nodes::TopDecl>)
    ensures { Lists outliner.old (tops_outers (map top_of tops.now.items)) (λ n. tops_decls n (map top_of tops.now.items)) outliner.new }
{
    for top in tops {
        list_decl(outliner, &top.decl);
    }
}

/// The identifiers that a file declares outside function bodies, and its declarations with their trees.
///
/// Listed are, in order of offset: constants, variables, types, functions and methods; the receiver, the parameters and the
/// results of functions and methods; and wherever a type is written outside bodies, the fields of struct types, an embedded
/// field at the last identifier of its type's name, the methods of interface types, and their parameters and results. The
/// blank identifier is listed where it is written. The package clause, imports and function bodies are left out. See the Go
/// specification, "Declarations and scope", "Struct types" and "Interface types".
///
/// # Errors
///
/// [`AllocError`] where memory runs out.
pub fn outline<'a>(alloc: Global, tree: &'a File) -> Result<Outline<'a>, AllocError>
    requires { IsPlaced (file_of tree.now) }
    ensures places { IfOk result (λ o. o.places ≡ places_of (file_of tree.now)) }
    ensures decls { IfOk result (λ o. map decl_shown o.decls.items ≡ top_decls (file_of tree.now)) }
{
    let mut outliner = Outliner {
        lister: Lister::new(alloc),
        decls: Vec::new(alloc),
    };
    list_tops(&mut outliner, &tree.decls);
    outliner.lister.outcome?;
    Ok(Outline {
        places: Places {
            places: outliner.lister.places,
        },
        decls: outliner.decls,
    })
}
