//! Equality of types as contracts see them, places and tags included.
//!
//! Identity of types is another thing: it passes over the places of fields and over the order of an interface's methods. What is told
//! of a package is the same only where all of it is.
ghost use Rattle.std.specs.Prelude.{◌≡◌, ◌↔◌, ◌⊎◌, IsTrue, map};
ghost use Rattle.go_term_core.specs.Shapes.{shape, sign_of, fields_in, line_at, line_shape, line_shapes, method_shapes, param_shapes, term_at, terms_in};
ghost use Rattle.go_term_core.specs.Meeting.{IsMet};
ghost use Rattle.go_summary_core.specs.alike.mirrors.Equality.{IsEqualToNoLine, IsEqualHead, IsEqualLine, IsEqualMethod, EqualFields, EqualMethods, EqualSign, EqualTerm, EqualTerms};

use go_term_core::{
    Field, FieldLine, LinePair, Method, Params, Signature, Tag, TypeTerm, is_met, is_no_type,
};

/// Whether two types are equal, places and tags included. It takes no memory.
pub fn equal_term(a: &TypeTerm, b: &TypeTerm) -> bool
    ensures { IsTrue result ↔ (shape a.now ≡ shape b.now) }
{
    is_equal_term(a, b)
}

/// Whether two signatures are equal. It takes no memory.
pub(crate) fn equal_signature(a: &Signature, b: &Signature) -> bool
    ensures { IsTrue result ↔ (sign_of a.now ≡ sign_of b.now) }
{
    is_equal_signature(a, b)
}

/// Whether two types are equal.
#[cycle(equal)]
fn is_equal_term(a: &TypeTerm, b: &TypeTerm) -> bool
    ensures { IsTrue result ↔ EqualTerm (shape a.now) (shape b.now) }
{
    match (a, b) {
        (TypeTerm::NoType, TypeTerm::NoType) => true,
        (TypeTerm::Basic(a), TypeTerm::Basic(b)) => *a == *b,
        (TypeTerm::Error, TypeTerm::Error) => true,
        (TypeTerm::Defined(a), TypeTerm::Defined(b)) => a.is_same(b),
        (TypeTerm::Pointer(a), TypeTerm::Pointer(b)) => is_equal_term(a, b),
        (TypeTerm::Struct(p, fs, ls), TypeTerm::Struct(q, gs, ks)) => {
            p.is_same(q) && equal_fields(fs, ls, gs, ks)
        }
        (TypeTerm::Interface(p, ms), TypeTerm::Interface(q, ns)) => {
            p.is_same(q) && equal_methods(ms, ns)
        }
        _ => false,
    }
}

/// Whether two struct types have equal fields in order. Two lines are compared where they meet first, and not once for each name.
#[cycle(equal)]
fn equal_fields(fs: &Vec<Field>, ls: &Vec<FieldLine>, gs: &Vec<Field>, ks: &Vec<FieldLine>) -> bool
    ensures { IsTrue result ↔ EqualFields (fields_in (line_shapes ls.now.items) fs.now.items) (fields_in (line_shapes ks.now.items) gs.now.items) }
{
    if fs.len() != gs.len() {
        return false;
    }
    let mut met = None;
    for (i, f) in fs.iter().enumerate() {
        let g = &gs[i];
        let pair = LinePair {
            one: f.line,
            other: g.line,
        };
        if !is_equal_head(f, g) || !are_lines_equal(ls, ks, met, pair) {
            return false;
        }
        met = Some(pair);
    }
    true
}

/// Whether two fields have the same name and the same place.
fn is_equal_head(f: &Field, g: &Field) -> bool
    ensures { IsTrue result ↔ IsEqualHead f.now g.now }
{
    f.name.as_str() == g.name.as_str() && f.place == g.place
}

/// Whether two lines met last, or are equal.
#[cycle(equal)]
fn are_lines_equal(
    ls: &Vec<FieldLine>,
    ks: &Vec<FieldLine>,
    met: Option<LinePair>,
    pair: LinePair,
) -> bool
    ensures { IsTrue result ↔ (IsMet met pair ⊎ IsEqualLine (line_at (line_shapes ls.now.items) pair.one) (line_at (line_shapes ks.now.items) pair.other)) }
{
    if is_met(met, pair) {
        return true;
    }
    match (ls.get(pair.one), ks.get(pair.other)) {
        (Some(l), Some(k)) => is_equal_line(l, k),
        (Some(l), None) => is_equal_to_no_line(l),
        (None, Some(k)) => is_equal_to_no_line(k),
        (None, None) => true,
    }
}

/// Whether two lines are equal.
#[cycle(equal)]
fn is_equal_line(l: &FieldLine, k: &FieldLine) -> bool
    ensures { IsTrue result ↔ IsEqualLine (line_shape l.now) (line_shape k.now) }
{
    l.embedded == k.embedded && l.tag.is_same(&k.tag) && is_equal_term(&l.term, &k.term)
}

/// Whether a line is as one that is not there.
fn is_equal_to_no_line(l: &FieldLine) -> bool
    ensures { IsTrue result ↔ IsEqualToNoLine (line_shape l.now) }
{
    !l.embedded && l.tag.is_same(&Tag::none()) && is_no_type(&l.term)
}

/// Whether two interface types have equal methods in order.
#[cycle(equal)]
fn equal_methods(ms: &Vec<Method>, ns: &Vec<Method>) -> bool
    ensures { IsTrue result ↔ EqualMethods (method_shapes ms.now.items) (method_shapes ns.now.items) }
{
    if ms.len() != ns.len() {
        return false;
    }
    for (i, m) in ms.iter().enumerate() {
        if !is_equal_method(m, &ns[i]) {
            return false;
        }
    }
    true
}

/// Whether two methods have the same name, the same place and equal signatures.
#[cycle(equal)]
fn is_equal_method(m: &Method, n: &Method) -> bool
    ensures { IsTrue result ↔ IsEqualMethod m.now n.now }
{
    m.name.as_str() == n.name.as_str()
        && m.place == n.place
        && is_equal_signature(&m.signature, &n.signature)
}

/// Whether two signatures have equal parameters and results.
#[cycle(equal)]
fn is_equal_signature(a: &Signature, b: &Signature) -> bool
    ensures { IsTrue result ↔ EqualSign (sign_of a.now) (sign_of b.now) }
{
    equal_params(&a.params, &b.params) && equal_params(&a.results, &b.results)
}

/// Whether two lists have equal types. Two terms are compared where they meet first.
#[cycle(equal)]
fn equal_params(ps: &Params, qs: &Params) -> bool
    ensures { IsTrue result ↔ EqualTerms (param_shapes ps.now) (param_shapes qs.now) }
{
    equal_terms(&ps.terms, &ps.lines, &qs.terms, &qs.lines)
}

/// Whether two lists of numbers are of equal types.
#[cycle(equal)]
fn equal_terms(ts: &Vec<TypeTerm>, ns: &Vec<usize>, us: &Vec<TypeTerm>, ms: &Vec<usize>) -> bool
    ensures { IsTrue result ↔ EqualTerms (terms_in (map shape ts.now.items) ns.now.items) (terms_in (map shape us.now.items) ms.now.items) }
{
    if ns.len() != ms.len() {
        return false;
    }
    let mut met = None;
    for (i, n) in ns.iter().enumerate() {
        let pair = LinePair {
            one: *n,
            other: ms[i],
        };
        if !are_terms_equal(ts, us, met, pair) {
            return false;
        }
        met = Some(pair);
    }
    true
}

/// Whether two terms met last, or are equal.
#[cycle(equal)]
fn are_terms_equal(
    ts: &Vec<TypeTerm>,
    us: &Vec<TypeTerm>,
    met: Option<LinePair>,
    pair: LinePair,
) -> bool
    ensures { IsTrue result ↔ (IsMet met pair ⊎ EqualTerm (term_at (map shape ts.now.items) pair.one) (term_at (map shape us.now.items) pair.other)) }
{
    if is_met(met, pair) {
        return true;
    }
    match (ts.get(pair.one), us.get(pair.other)) {
        (Some(t), Some(u)) => is_equal_term(t, u),
        (Some(t), None) => is_no_type(t),
        (None, Some(u)) => is_no_type(u),
        (None, None) => true,
    }
}
