//! The methods that belong to types.
ghost use Rattle.std.specs.Prelude.{◌≡◌, ◌≤◌, ◌∷◌, [], false, length, IfOk, OnOk, map, true};
ghost use Rattle.std.specs.List.Sorted.{IsPartitionPoint};
ghost use Rattle.go_term_core.specs.decl_core.Shown.{decl_shown};
ghost use Rattle.go_term_core.specs.Shapes.{shape};
ghost use Rattle.go_term_core.specs.Terms.{Defined};
ghost use Rattle.go_tree_nodes.specs.Shapes.{func_of};
ghost use Rattle.go_type_core.specs.table_core.Shown.{entry_shown, member_shown};
ghost use Rattle.go_type_core.specs.table_core.Tables.{KeysRise};
ghost use Rattle.go_typexpr_core.specs.written.Written.{in_file};
ghost use Rattle.go_typexpr_core.specs.entry.Entries.{decl_methods, file_methods, method_of, received_of};
ghost use Rattle.go_typexpr_core.specs.entry.mirrors.Gaining.{all_gaining, IsMeantAt};
ghost use Rattle.go_term_core.specs.decl_core.Order.{is_ref_before};

use crate::written::{TypeNames, WrittenIn, write_signature};
use go_path_core::text_core::add;
use go_term_core::decl_core::{DeclForm, DeclKey, DeclKind, DeclRef, TopDecl};
use go_term_core::{MemberPlace, TypeTerm};
use go_tree_nodes::{FuncDecl, Receiver, TypeName};
use go_type_core::table_core::{DeclaredMethod, TypeEntry};
use std::alloc::{AllocError, Global};

// How many entries stand before a declaration.
fn count_before(entries: &[TypeEntry], decl: DeclRef) -> usize
    requires { KeysRise (map entry_shown entries.now) }
    ensures bound { result ≤ length entries.now }
    ensures split { IsPartitionPoint (λ e. is_ref_before e.key.decl decl ≡ true) (λ e. is_ref_before e.key.decl decl ≡ false) entries.now result }
{
    entries.partition_point(
        |entry: &TypeEntry| -> bool
            ensures { result ≡ is_ref_before entry.now.key.decl decl }
        { entry.key.decl.is_before(decl) },
    )
}

// The place of the entry of a key, or none.
fn entry_of(entries: &[TypeEntry], key: &DeclKey) -> Option<usize>
    requires { KeysRise (map entry_shown entries.now) }
    ensures { IsMeantAt (map entry_shown entries.now) (Defined key.now) result }
{
    let place = count_before(entries, key.decl);
    match entries.get(place) {
        Some(entry) => {
            if entry.key.is_same(key) {
                Some(place)
            } else {
                None
            }
        }
        None => None,
    }
}

// The place of the entry of a type, or none.
fn entry_of_type(entries: &[TypeEntry], term: &TypeTerm) -> Option<usize>
    requires { KeysRise (map entry_shown entries.now) }
    ensures { IsMeantAt (map entry_shown entries.now) (shape term.now) result }
{
    match term {
        TypeTerm::Defined(key) => entry_of(entries, key),
        TypeTerm::NoType => None,
        TypeTerm::Basic(_) => None,
        TypeTerm::Error => None,
        TypeTerm::Pointer(_) => None,
        TypeTerm::Struct(_, _, _) => None,
        TypeTerm::Interface(_, _) => None,
    }
}

// The place of the entry of the type that a name denotes, or none.
fn entry_meant<N: TypeNames>(
    alloc: Global,
    names: &N,
    entries: &[TypeEntry],
    name: &TypeName,
) -> Result<Option<usize>, AllocError>
    requires { KeysRise (map entry_shown entries.now) }
    ensures { IfOk result (IsMeantAt (map entry_shown entries.now) (N.meaning names.now name.now)) }
{
    let term = names.named(alloc, name)?;
    let place = entry_of_type(entries, &term);
    drop(term);
    Ok(place)
}

// A method as it is written.
fn write_method<N: TypeNames>(
    alloc: Global,
    names: &N,
    at: &WrittenIn<'_>,
    decl: &TopDecl<'_>,
    func: &FuncDecl,
    receiver: &Receiver,
) -> Result<DeclaredMethod, AllocError>
    ensures { IfOk result (λ m. member_shown m ≡ method_of (N.meaning names.now) (in_file at.now) (decl_shown decl.now) (func_of func.now) receiver.now) }
{
    let name = decl.ident.name.copy(alloc)?;
    let signature = write_signature(alloc, names, at, &func.signature)?;
    let place = MemberPlace::Declared(DeclRef {
        file: at.file,
        number: decl.number,
        kind: DeclKind::Method,
    });
    Ok(DeclaredMethod {
        name,
        place,
        pointer: receiver.star.is_some(),
        signature,
    })
}

// Adds a method with a receiver to the entry of the type that its receiver's base denotes, where there is one.
fn add_received<N: TypeNames>(
    alloc: Global,
    names: &N,
    at: &WrittenIn<'_>,
    decl: &TopDecl<'_>,
    func: &FuncDecl,
    receiver: &Receiver,
    entries: &mut Vec<TypeEntry>,
) -> Result<(), AllocError>
    requires { KeysRise (map entry_shown entries.old.items) }
    ensures { OnOk result (map entry_shown entries.new.items ≡ all_gaining (received_of (N.meaning names.now) (in_file at.now) (decl_shown decl.now) (func_of func.now) receiver.now ∷ []) (map entry_shown entries.old.items)) }
{
    let place = match entry_meant(alloc, names, entries, &receiver.base)? {
        Some(place) => place,
        None => return Ok(()),
    };
    let method = write_method(alloc, names, at, decl, func, receiver)?;
    let entry = &mut entries[place];
    add(&mut entry.methods, method)
}

// Adds what a declaration declares, where that is a method of one of the types.
fn add_method<N: TypeNames>(
    alloc: Global,
    names: &N,
    at: &WrittenIn<'_>,
    decl: &TopDecl<'_>,
    entries: &mut Vec<TypeEntry>,
) -> Result<(), AllocError>
    requires { KeysRise (map entry_shown entries.old.items) }
    ensures { OnOk result (map entry_shown entries.new.items ≡ all_gaining (decl_methods (N.meaning names.now) (in_file at.now) (decl_shown decl.now) (decl_shown decl.now).form) (map entry_shown entries.old.items)) }
{
    match decl.form {
        DeclForm::Func(func) => match &func.receiver {
            Some(receiver) => add_received(alloc, names, at, decl, func, receiver, entries),
            None => Ok(()),
        },
        DeclForm::Value(_, _, _) => Ok(()),
        DeclForm::Type(_) => Ok(()),
    }
}

/// Adds the methods that a file declares, each to the entry of the type that its receiver's base denotes, where there is one.
pub(crate) fn add_methods<N: TypeNames>(
    alloc: Global,
    names: &N,
    at: &WrittenIn<'_>,
    decls: &[TopDecl<'_>],
    entries: &mut Vec<TypeEntry>,
) -> Result<(), AllocError>
    requires { KeysRise (map entry_shown entries.old.items) }
    ensures { OnOk result (map entry_shown entries.new.items ≡ all_gaining (file_methods (N.meaning names.now) (in_file at.now) (map decl_shown decls.now)) (map entry_shown entries.old.items)) }
{
    for decl in decls {
        add_method(alloc, names, at, decl, entries)?;
    }
    Ok(())
}
