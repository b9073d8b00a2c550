//! What follows from what in a file.
use crate::exprs::{
    Seen, by_fault, note_ident, open_ident, said_by, see_signature, see_type, see_type_name,
};
use crate::found::{Blame, Found};
use crate::look::{Look, Wanted};
use crate::stmts::{see_lines, see_value_spec};
use go_denote_core::text_core::Rule;
use go_tree_nodes::{
    Decl, File, FuncDecl, Ident, ImportDecl, ImportSpec, ImportSpecs, Receiver, TypeDecl, TypeSpec,
    TypeSpecs, ValueDecl, ValueSpec, ValueSpecs,
};

// An import: one of a package that is not assembled follows from why it is not, one that is not used from a second declaration at the same place.
fn see_import(look: &Look<'_>, found: &mut Found, spec: &ImportSpec) {
    let offset = spec.path.span.start as usize;
    let unused = look.fault(offset, Wanted::One(Rule::I7));
    if unused.is_some() {
        found.set(unused, by_fault(look.fault(offset, Wanted::Block)));
    }
    let Some(path) = spec.path.plain() else {
        return;
    };
    let Some(package) = look.package_number(path) else {
        return;
    };
    let unassembled = look.fault(offset, Wanted::One(Rule::I6));
    if unassembled.is_some() {
        found.set(unassembled, by_fault(look.assembly_fault(package)));
    }
    if let Some(on_cycle) = look.fault(offset, Wanted::One(Rule::I4)) {
        found.cycle(on_cycle, package);
    }
}

// The imports of one declaration.
fn see_import_specs(look: &Look<'_>, found: &mut Found, specs: &ImportSpecs) {
    match specs {
        ImportSpecs::One(spec) => see_import(look, found, spec),
        ImportSpecs::Group(_, lines, _) => {
            for line in lines {
                see_import(look, found, &line.spec);
            }
        }
    }
}

// The imports of a file.
fn see_imports(look: &Look<'_>, found: &mut Found, imports: &Vec<ImportDecl>) {
    for import in imports {
        see_import_specs(look, found, &import.specs);
    }
}

// The fault of a declaration that contains itself or is defined by itself, at its name.
fn own_fault(look: &Look<'_>, ident: &Ident, rule: Rule) -> Option<usize> {
    look.fault(ident.span.start as usize, Wanted::One(rule))
}

// By what an expression is refused or has no type, other than by this fault, which stands where it begins.
fn blame_beside(seen: Seen, fault: Option<usize>) -> Option<Blame> {
    match (seen.said.blame, fault) {
        (Some(Blame::Fault(one)), Some(other)) if one == other => seen.operands,
        (blame, _) => blame,
    }
}

// A specification of constants or variables outside functions. An initialiser that is outside the profile follows from what it is refused by, where
// no call, no literal and no `&` stands in it.
fn see_top_value(look: &Look<'_>, found: &mut Found, spec: &ValueSpec) {
    let own = own_fault(look, &spec.names.first, Rule::Y7);
    found.linking = own;
    let seen = see_value_spec(look, found, spec);
    found.linking = None;
    if let Some(seen) = seen {
        if seen.is_plain {
            let unsupported = look.fault(seen.start, Wanted::One(Rule::X1));
            found.set(unsupported, blame_beside(seen, unsupported));
        }
    }
    if own.is_some() {
        note_ident(look, found, &spec.names.first, said_by(own));
    }
}

// Constants or variables outside functions.
fn see_top_values(look: &Look<'_>, found: &mut Found, decl: &ValueDecl) {
    match &decl.specs {
        ValueSpecs::One(spec) => see_top_value(look, found, spec),
        ValueSpecs::Group(_, lines, _) => {
            for line in lines {
                see_top_value(look, found, &line.spec);
            }
        }
    }
}

// A type: one that contains itself has no type by that.
fn see_top_type(look: &Look<'_>, found: &mut Found, spec: &TypeSpec) {
    open_ident(look, found, &spec.name);
    let own = own_fault(look, &spec.name, Rule::Y1);
    found.linking = own;
    let said = see_type(look, found, &spec.type_expr);
    found.linking = None;
    let known = if own.is_some() { said_by(own) } else { said };
    note_ident(look, found, &spec.name, known);
}

// Types outside functions.
fn see_top_types(look: &Look<'_>, found: &mut Found, decl: &TypeDecl) {
    match &decl.specs {
        TypeSpecs::One(spec) => see_top_type(look, found, spec),
        TypeSpecs::Group(_, lines, _) => {
            for line in lines {
                see_top_type(look, found, &line.spec);
            }
        }
    }
}

// A receiver, which bodies look up as a local, and only those of a file with faults.
fn see_receiver(look: &Look<'_>, found: &mut Found, receiver: &Receiver) {
    let said = see_type_name(look, found, &receiver.base);
    if let Some(name) = &receiver.name {
        if look.is_faulty {
            found.note_local(name.span.start as usize, said);
        }
    }
}

// A function or a method: a call of it has no type by its results.
fn see_func(look: &Look<'_>, found: &mut Found, func: &FuncDecl) {
    if let Some(receiver) = &func.receiver {
        see_receiver(look, found, receiver);
    }
    open_ident(look, found, &func.name);
    let said = see_signature(look, found, &func.signature);
    note_ident(look, found, &func.name, said);
    if look.is_faulty {
        see_lines(look, found, &func.body);
    }
}

/// What follows from what in a file. Bodies of functions are gone through, and parameters noted, only where the file has a fault.
pub(crate) fn see_file(look: &Look<'_>, found: &mut Found, tree: &File) {
    if look.is_faulty {
        see_imports(look, found, &tree.imports);
    }
    for top in &tree.decls {
        match &top.decl {
            Decl::Value(value) => see_top_values(look, found, value),
            Decl::Type(types) => see_top_types(look, found, types),
            Decl::Func(func) => see_func(look, found, func),
        }
    }
}
