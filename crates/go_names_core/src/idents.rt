//! The identifiers that a piece or a signature declares.

ghost use Rattle.std.specs.Prelude.{◌≡◌, ◌++◌, IfOk, OnOk, map};
ghost use Rattle.go_tree_nodes.specs.TypeShapes.{shape_idents, shape_names, shape_results, shape_signature, params_of};
ghost use Rattle.go_local_core.specs.Outline.{idents, some_idents, param_idents, result_idents, signature_idents, receiver_idents};
ghost use Rattle.go_names_core.specs.Body.{func_idents};

use go_tree_nodes::{FuncDecl, Ident, Idents, Param, Receiver, Results, Signature};
use std::alloc::{AllocError, Global};

/// Adds identifiers with commas between them.
fn add_idents<'a>(list: &mut Vec<&'a Ident>, names: &'a Idents) -> Result<(), AllocError>
    ensures { OnOk result (map (λ i. i.now) list.new.items ≡ map (λ i. i.now) list.old.items ++ idents (shape_idents names.now)) }
{
    list.push(&names.first)?;
    for next in &names.more {
        list.push(&next.ident)?;
    }
    Ok(())
}

/// Adds the identifiers of parameters.
fn add_params<'a>(list: &mut Vec<&'a Ident>, params: &'a Vec<Param>) -> Result<(), AllocError>
    ensures { OnOk result (map (λ i. i.now) list.new.items ≡ map (λ i. i.now) list.old.items ++ param_idents (params_of params.now.items)) }
{
    for param in params {
        if let Some(names) = &param.names {
            add_idents(list, names)?;
        }
    }
    Ok(())
}

/// Adds the identifiers of results.
fn add_results<'a>(list: &mut Vec<&'a Ident>, results: &'a Results) -> Result<(), AllocError>
    ensures { OnOk result (map (λ i. i.now) list.new.items ≡ map (λ i. i.now) list.old.items ++ result_idents (shape_results results.now)) }
{
    match results {
        Results::Nothing | Results::Single(_) => return Ok(()),
        Results::Listed(params) => return add_params(list, &params.entries),
    }
}

/// Adds the identifier of a receiver.
fn add_receiver<'a>(
    list: &mut Vec<&'a Ident>,
    receiver: &'a Option<Receiver>,
) -> Result<(), AllocError>
    ensures { OnOk result (map (λ i. i.now) list.new.items ≡ map (λ i. i.now) list.old.items ++ receiver_idents receiver.now) }
{
    if let Some(receiver) = receiver {
        if let Some(ident) = &receiver.name {
            list.push(ident)?;
        }
    }
    Ok(())
}

/// Identifiers with commas between them, as a list, in order of their places.
///
/// # Errors
///
/// [`AllocError`] where memory runs out.
pub fn listed_idents<'a>(alloc: Global, names: &'a Idents) -> Result<Vec<&'a Ident>, AllocError>
    ensures { IfOk result (λ list. map (λ i. i.now) list.items ≡ idents (shape_idents names.now)) }
{
    let mut list = Vec::new(alloc);
    add_idents(&mut list, names)?;
    Ok(list)
}

/// The identifiers that the parameters and the results of a signature declare, as a list, in order of their places.
///
/// The Go specification, "Function types".
///
/// # Errors
///
/// [`AllocError`] where memory runs out.
pub fn signature_idents<'a>(
    alloc: Global,
    signature: &'a Signature,
) -> Result<Vec<&'a Ident>, AllocError>
    ensures { IfOk result (λ list. map (λ i. i.now) list.items ≡ signature_idents (shape_signature signature.now)) }
{
    let mut list = Vec::new(alloc);
    add_params(&mut list, &signature.params.entries)?;
    add_results(&mut list, &signature.results)?;
    Ok(list)
}

/// The identifiers that a function's receiver, parameters and results declare, as a list, in order of their places.
///
/// The Go specification, "Function declarations" and "Method declarations".
///
/// # Errors
///
/// [`AllocError`] where memory runs out.
pub fn header_idents<'a>(alloc: Global, func: &'a FuncDecl) -> Result<Vec<&'a Ident>, AllocError>
    ensures { IfOk result (λ list. map (λ i. i.now) list.items ≡ func_idents func.now) }
{
    let mut list = Vec::new(alloc);
    add_receiver(&mut list, &func.receiver)?;
    add_params(&mut list, &func.signature.params.entries)?;
    add_results(&mut list, &func.signature.results)?;
    Ok(list)
}
