//! Copies of terms.
ghost use Rattle.std.specs.Prelude.{◌≡◌, IfOk, map};
ghost use Rattle.go_term_core.specs.Shapes.{shape, sign_of, line_shapes, method_shapes, param_shapes};

use crate::term::{Field, FieldLine, Method, Params, Signature, TypeTerm};
use go_tree_nodes::text_core::{add, boxed};
use std::alloc::{AllocError, Global};

/// The copy that was made, or the end of the function where memory ran out. A `?` is two calls of generic functions, and a proof
/// writes out the term's type for each.
macro_rules! copied {
    ($copy:expr) => {
        match $copy {
            Ok(copy) => copy,
            Err(error) => return Err(error),
        }
    };
}

/// Two results at once. Where there was no memory for one, the other is dropped.
///
/// # Errors
///
/// `AllocError` where one of them is.
pub fn both<A: Drop, B: Drop>(
    first: Result<A, AllocError>,
    second: Result<B, AllocError>,
) -> Result<(A, B), AllocError>
    ensures { IfOk result (λ x. (first ≡ Ok x.0) × (second ≡ Ok x.1)) }
{
    Ok((first?, second?))
}

/// A second term of the same type.
///
/// # Errors
///
/// `AllocError` where memory is wanting.
#[cycle(copies)]
pub fn copy(alloc: Global, term: &TypeTerm) -> Result<TypeTerm, AllocError>
    ensures { IfOk result (λ t. shape t ≡ shape term.now) }
{
    match term {
        TypeTerm::NoType => Ok(TypeTerm::NoType),
        TypeTerm::Basic(basic) => Ok(TypeTerm::Basic(*basic)),
        TypeTerm::Error => Ok(TypeTerm::Error),
        TypeTerm::Defined(key) => Ok(TypeTerm::Defined(copied!(key.share()))),
        TypeTerm::Pointer(base) => Ok(TypeTerm::Pointer(copied!(copy_boxed(alloc, base)))),
        TypeTerm::Struct(path, fields, lines) => {
            let heads = both(path.share(), copy_fields(alloc, fields));
            let ((path, fields), lines) = copied!(both(heads, copy_lines(alloc, lines)));
            Ok(TypeTerm::Struct(path, fields, lines))
        }
        TypeTerm::Interface(path, methods) => {
            let (path, methods) = copied!(both(path.share(), copy_methods(alloc, methods)));
            Ok(TypeTerm::Interface(path, methods))
        }
    }
}

/// The same term, in a box.
#[cycle(copies)]
fn copy_boxed(alloc: Global, term: &Box<TypeTerm>) -> Result<Box<TypeTerm>, AllocError>
    ensures { IfOk result (λ t. shape t.value ≡ shape term.now.value) }
{
    let copy = copied!(copy(alloc, term));
    boxed(alloc, copy)
}

/// The same fields.
fn copy_fields(alloc: Global, fields: &Vec<Field>) -> Result<Vec<Field>, AllocError>
    ensures { IfOk result (λ fs. fs.items ≡ fields.now.items) }
{
    let mut copies = copied!(Vec::with_capacity(alloc, fields.len()));
    for field in fields {
        let name = copied!(field.name.copy(alloc));
        copied!(add(
            &mut copies,
            Field {
                name,
                place: field.place,
                line: field.line,
            },
        ));
    }
    Ok(copies)
}

/// The same lines.
#[cycle(copies)]
fn copy_lines(alloc: Global, lines: &Vec<FieldLine>) -> Result<Vec<FieldLine>, AllocError>
    ensures { IfOk result (λ ls. line_shapes ls.items ≡ line_shapes lines.now.items) }
{
    let mut copies = copied!(Vec::with_capacity(alloc, lines.len()));
    for line in lines {
        let (tag, term) = copied!(both(line.tag.copy(alloc), copy(alloc, &line.term)));
        copied!(add(
            &mut copies,
            FieldLine {
                embedded: line.embedded,
                term,
                tag,
            },
        ));
    }
    Ok(copies)
}

/// The same methods.
#[cycle(copies)]
fn copy_methods(alloc: Global, methods: &Vec<Method>) -> Result<Vec<Method>, AllocError>
    ensures { IfOk result (λ ms. method_shapes ms.items ≡ method_shapes methods.now.items) }
{
    let mut copies = copied!(Vec::with_capacity(alloc, methods.len()));
    for method in methods {
        let name = method.name.copy(alloc);
        let (name, signature) = copied!(both(name, copy_signature(alloc, &method.signature)));
        copied!(add(
            &mut copies,
            Method {
                name,
                place: method.place,
                signature,
            },
        ));
    }
    Ok(copies)
}

/// A second signature of the same types.
///
/// # Errors
///
/// `AllocError` where memory is wanting.
#[cycle(copies)]
pub fn copy_signature(alloc: Global, signature: &Signature) -> Result<Signature, AllocError>
    ensures { IfOk result (λ s. sign_of s ≡ sign_of signature.now) }
{
    let params = copy_params(alloc, &signature.params);
    let (params, results) = copied!(both(params, copy_params(alloc, &signature.results)));
    Ok(Signature { params, results })
}

/// A second list of the same numbers.
///
/// # Errors
///
/// `AllocError` where memory is wanting.
pub fn copy_numbers(alloc: Global, numbers: &Vec<usize>) -> Result<Vec<usize>, AllocError>
    ensures { IfOk result (λ ns. ns.items ≡ numbers.now.items) }
{
    Ok(numbers.as_slice().to_vec(alloc)?)
}

/// The same types, shared as they are.
#[cycle(copies)]
fn copy_params(alloc: Global, params: &Params) -> Result<Params, AllocError>
    ensures { IfOk result (λ ps. param_shapes ps ≡ param_shapes params.now) }
{
    let lines = copy_numbers(alloc, &params.lines);
    let (lines, terms) = copied!(both(lines, copy_terms(alloc, &params.terms)));
    Ok(Params { lines, terms })
}

/// The same types.
#[cycle(copies)]
fn copy_terms(alloc: Global, terms: &Vec<TypeTerm>) -> Result<Vec<TypeTerm>, AllocError>
    ensures { IfOk result (λ ts. map shape ts.items ≡ map shape terms.now.items) }
{
    let mut copies = copied!(Vec::with_capacity(alloc, terms.len()));
    for term in terms {
        let copy = copied!(copy(alloc, term));
        copied!(add(&mut copies, copy));
    }
    Ok(copies)
}
