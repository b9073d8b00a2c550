//! Settling terms.
ghost use Rattle.std.specs.Prelude.{◌≡◌, [], IfOk, map};
ghost use Rattle.go_term_core.specs.Terms.{NoMethod};
ghost use Rattle.go_term_core.specs.Shapes.{shape, sign_of, line_shape, line_shapes, method_shapes, param_shapes};
ghost use Rattle.go_term_core.specs.settling.Settled.{defined_unless, pointer_to, settled, settled_methods, settled_sign, settled_terms};
ghost use Rattle.go_term_core.specs.settling.mirrors.Kept.{make_method, put_method, settled_line};

use crate::settling::embed::can_embed;
use crate::settling::kept::{kept_methods, settle_fields};
use crate::settling::kind::{Kind, Kinds};
use crate::{FieldLine, Method, Params, Signature, TypeTerm, both, copy_numbers, is_no_type};
use go_decl_core::DeclKey;
use go_tree_nodes::text_core::{add, boxed};
use std::alloc::{AllocError, Global};

/// What was made, or the end of the function where memory ran out. A `?` is two calls of generic functions, and a proof writes out
/// the term's type for each.
macro_rules! made {
    ($made:expr) => {
        match $made {
            Ok(made) => made,
            Err(error) => return Err(error),
        }
    };
}

// The defined type of a declaration, unless it is no type.
fn settle_key(key: &DeclKey, kind: Kind) -> Result<TypeTerm, AllocError>
    ensures { IfOk result (λ t. shape t ≡ defined_unless kind key.now) }
{
    match kind {
        Kind::Nothing => Ok(TypeTerm::NoType),
        Kind::Pointer | Kind::Interface | Kind::Other => Ok(TypeTerm::Defined(key.share()?)),
    }
}

// A pointer to a type, unless that is no type.
fn point_to(alloc: Global, base: TypeTerm) -> Result<TypeTerm, AllocError>
    ensures { IfOk result (λ t. shape t ≡ pointer_to (shape base)) }
{
    if is_no_type(&base) {
        return Ok(base);
    }
    Ok(TypeTerm::Pointer(made!(boxed(alloc, base))))
}

/// The settled term of a written one.
///
/// A name of what is no type, and a pointer to what is none, is no type. Of fields and of methods that repeat a name the first is
/// kept, blank fields are all kept, and a blank method is left out. A field that may not be embedded is a plain one.
///
/// # Errors
///
/// `AllocError` where memory is wanting.
#[cycle(settling)]
pub fn settle<K: Kinds>(alloc: Global, kinds: &K, term: &TypeTerm) -> Result<TypeTerm, AllocError>
    ensures { IfOk result (λ t. shape t ≡ settled (K.kinds kinds.now) (shape term.now)) }
{
    match term {
        TypeTerm::NoType => Ok(TypeTerm::NoType),
        TypeTerm::Basic(basic) => Ok(TypeTerm::Basic(*basic)),
        TypeTerm::Error => Ok(TypeTerm::Error),
        TypeTerm::Defined(key) => settle_key(key, kinds.kind(key)),
        TypeTerm::Pointer(base) => point_to(alloc, made!(settle(alloc, kinds, base))),
        TypeTerm::Struct(path, fields, lines) => {
            let heads = both(path.share(), settle_fields(alloc, fields));
            let ((path, fields), lines) = made!(both(heads, settle_lines(alloc, kinds, lines)));
            Ok(TypeTerm::Struct(path, fields, lines))
        }
        TypeTerm::Interface(path, methods) => {
            let methods = settle_methods(alloc, kinds, methods);
            let (path, methods) = made!(both(path.share(), methods));
            Ok(TypeTerm::Interface(path, methods))
        }
    }
}

// The settled lines of a struct type.
#[cycle(settling)]
fn settle_lines<K: Kinds>(
    alloc: Global,
    kinds: &K,
    lines: &Vec<FieldLine>,
) -> Result<Vec<FieldLine>, AllocError>
    ensures { IfOk result (λ ls. line_shapes ls.items ≡ map (settled_line (K.kinds kinds.now)) (line_shapes lines.now.items)) }
{
    let mut settled = Vec::new(alloc);
    for line in lines {
        let line = made!(settle_line(alloc, kinds, line));
        made!(add(&mut settled, line));
    }
    Ok(settled)
}

// A settled line.
#[cycle(settling)]
fn settle_line<K: Kinds>(
    alloc: Global,
    kinds: &K,
    line: &FieldLine,
) -> Result<FieldLine, AllocError>
    ensures { IfOk result (λ l. line_shape l ≡ settled_line (K.kinds kinds.now) (line_shape line.now)) }
{
    let (tag, term) = made!(both(line.tag.copy(alloc), settle(alloc, kinds, &line.term)));
    Ok(FieldLine {
        embedded: line.embedded && can_embed(kinds, &line.term),
        term,
        tag,
    })
}

// The settled methods of an interface type.
#[cycle(settling)]
fn settle_methods<K: Kinds>(
    alloc: Global,
    kinds: &K,
    methods: &Vec<Method>,
) -> Result<Vec<Method>, AllocError>
    ensures { IfOk result (λ ms. method_shapes ms.items ≡ settled_methods (K.kinds kinds.now) [] (method_shapes methods.now.items)) }
{
    let kept = made!(kept_methods(alloc, methods));
    let mut settled = Vec::new(alloc);
    for (i, method) in methods.iter().enumerate() {
        if kept[i] {
            let method = made!(settle_method(alloc, kinds, method));
            made!(add(&mut settled, method));
        }
    }
    Ok(settled)
}

// A settled method.
#[cycle(settling)]
fn settle_method<K: Kinds>(alloc: Global, kinds: &K, method: &Method) -> Result<Method, AllocError>
    ensures { IfOk result (λ m. put_method m NoMethod ≡ make_method (K.kinds kinds.now) method.now NoMethod) }
{
    let name = method.name.copy(alloc);
    let signature = settle_signature(alloc, kinds, &method.signature);
    let (name, signature) = made!(both(name, signature));
    Ok(Method {
        name,
        place: method.place,
        signature,
    })
}

/// The signature of settled parameters and results of a written one.
///
/// # Errors
///
/// `AllocError` where memory is wanting.
#[cycle(settling)]
pub fn settle_signature<K: Kinds>(
    alloc: Global,
    kinds: &K,
    signature: &Signature,
) -> Result<Signature, AllocError>
    ensures { IfOk result (λ s. sign_of s ≡ settled_sign (K.kinds kinds.now) (sign_of signature.now)) }
{
    let params = settle_params(alloc, kinds, &signature.params);
    let (params, results) = made!(both(params, settle_params(alloc, kinds, &signature.results)));
    Ok(Signature { params, results })
}

// The settled types of parameters or of results.
#[cycle(settling)]
fn settle_params<K: Kinds>(alloc: Global, kinds: &K, params: &Params) -> Result<Params, AllocError>
    ensures { IfOk result (λ ps. param_shapes ps ≡ settled_terms (K.kinds kinds.now) (param_shapes params.now)) }
{
    let lines = copy_numbers(alloc, &params.lines);
    let (lines, terms) = made!(both(lines, settle_terms(alloc, kinds, &params.terms)));
    Ok(Params { lines, terms })
}

// The settled terms of a list.
#[cycle(settling)]
fn settle_terms<K: Kinds>(
    alloc: Global,
    kinds: &K,
    terms: &Vec<TypeTerm>,
) -> Result<Vec<TypeTerm>, AllocError>
    ensures { IfOk result (λ ts. map shape ts.items ≡ map (settled (K.kinds kinds.now)) (map shape terms.now.items)) }
{
    let mut settled = Vec::new(alloc);
    for term in terms {
        let term = made!(settle(alloc, kinds, term));
        made!(add(&mut settled, term));
    }
    Ok(settled)
}
