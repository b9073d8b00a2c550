//! Identity of types.
ghost use Rattle.std.specs.Prelude.{◌≡◌, ◌↔◌, ◌⊎◌, IsTrue, map};
ghost use Rattle.go_tree_nodes.specs.text_core.Text.{SameId};
ghost use Rattle.go_term_core.specs.Shapes.{shape, sign_of, fields_in, line_at, line_shape, line_shapes, method_shapes, param_shapes, term_at, terms_in};
ghost use Rattle.go_term_core.specs.Terms.{NoType, is_no_type};
ghost use Rattle.go_term_core.specs.Identity.{Identical, IdenticalButForTags, SameSign, TagsAgree, IdenticalBy, SameFieldsBy, HasAllBy, SameSignBy, SameTermsBy, method_count};
ghost use Rattle.go_term_core.specs.Meeting.{IsMet};
ghost use Rattle.go_term_core.specs.mirrors.Alike.{HasAlike, IsNoLine, SameLine};

use crate::tag::Tag;
use crate::term::{Field, FieldLine, Method, Params, Signature, TypeTerm};
use go_decl_core::path_core::ImportPath;
use go_tree_nodes::text_core::{Name, same_id};

/// Whether two types are identical. It takes no memory.
///
/// A defined type and a predeclared one are identical to themselves alone; pointers where what they point to is; struct types
/// with the same fields in order: the same names, identical types, the same tags, embedded alike; interface types with the same
/// methods. Two terms that are no type are identical, and none is identical to a type. The Go specification, "Type identity".
pub fn identical(a: &TypeTerm, b: &TypeTerm) -> bool
    ensures { IsTrue result ↔ Identical (shape a.now) (shape b.now) }
{
    identical_by(true, a, b)
}

/// Whether two types are identical, were it not for tags of fields at any depth. It takes no memory. The Go specification, "Conversions":
/// "ignoring struct tags".
pub fn identical_but_for_tags(a: &TypeTerm, b: &TypeTerm) -> bool
    ensures { IsTrue result ↔ IdenticalButForTags (shape a.now) (shape b.now) }
{
    identical_by(false, a, b)
}

/// Whether two signatures have as many parameters and results, each of identical types. It takes no memory.
pub fn has_same_signature(a: &Signature, b: &Signature) -> bool
    ensures { IsTrue result ↔ SameSign (sign_of a.now) (sign_of b.now) }
{
    same_signature(true, a, b)
}

/// Whether two types are identical, where tags count or do not.
#[cycle(same)]
fn identical_by(tags: bool, a: &TypeTerm, b: &TypeTerm) -> bool
    ensures { IsTrue result ↔ IdenticalBy tags (shape a.now) (shape b.now) }
{
    match (a, b) {
        (TypeTerm::NoType, TypeTerm::NoType) => true,
        (TypeTerm::Basic(a), TypeTerm::Basic(b)) => *a == *b,
        (TypeTerm::Error, TypeTerm::Error) => true,
        (TypeTerm::Defined(a), TypeTerm::Defined(b)) => a.is_same(b),
        (TypeTerm::Pointer(a), TypeTerm::Pointer(b)) => identical_by(tags, a, b),
        (TypeTerm::Struct(p, fs, ls), TypeTerm::Struct(q, gs, ks)) => same_fields(
            tags, p, fs, ls, q, gs, ks,
        ),
        (TypeTerm::Interface(p, ms), TypeTerm::Interface(q, ns)) => same_methods(
            tags, p, ms, q, ns,
        ),
        _ => false,
    }
}

/// Whether two names are the same identifier, each in the package where it is written.
fn is_same_name(a: &Name, p: &ImportPath, b: &Name, q: &ImportPath) -> bool
    ensures { IsTrue result ↔ SameId a.now p.now b.now q.now }
{
    same_id(a.as_str(), p.as_str(), b.as_str(), q.as_str())
}

/// Whether two tags are the same, where tags count.
fn is_same_tag(tags: bool, a: &Tag, b: &Tag) -> bool
    ensures { IsTrue result ↔ TagsAgree tags a.now b.now }
{
    if tags { a.is_same(b) } else { true }
}

/// The numbers of two lines that meet, or of two terms: of the one type and of the other.
#[derive(Clone, Copy)]
pub struct LinePair {
    pub one: usize,
    pub other: usize,
}

/// Whether these two are those that met last: a walk over two lists at once need not compare them again. It takes no memory.
pub fn is_met(met: Option<LinePair>, pair: LinePair) -> bool
    ensures { IsTrue result ↔ IsMet met pair }
{
    match met {
        Some(met) => met.one == pair.one && met.other == pair.other,
        None => false,
    }
}

/// Whether two struct types have the same fields in order. Two lines are compared where they meet first, and not once for each name.
#[cycle(same)]
fn same_fields(
    tags: bool,
    p: &ImportPath,
    fs: &Vec<Field>,
    ls: &Vec<FieldLine>,
    q: &ImportPath,
    gs: &Vec<Field>,
    ks: &Vec<FieldLine>,
) -> bool
    ensures { IsTrue result ↔ SameFieldsBy tags p.now (fields_in (line_shapes ls.now.items) fs.now.items) q.now (fields_in (line_shapes ks.now.items) gs.now.items) }
{
    if fs.len() != gs.len() {
        return false;
    }
    let mut met = None;
    for (i, f) in fs.iter().enumerate() {
        let g = &gs[i];
        let pair = LinePair {
            one: f.line,
            other: g.line,
        };
        if !is_same_named(p, f, q, g) || !are_lines_same(tags, ls, ks, met, pair) {
            return false;
        }
        met = Some(pair);
    }
    true
}

/// Whether two fields have the same name.
fn is_same_named(p: &ImportPath, f: &Field, q: &ImportPath, g: &Field) -> bool
    ensures { IsTrue result ↔ SameId f.now.name p.now g.now.name q.now }
{
    is_same_name(&f.name, p, &g.name, q)
}

/// Whether two lines met last, or are the same.
#[cycle(same)]
fn are_lines_same(
    tags: bool,
    ls: &Vec<FieldLine>,
    ks: &Vec<FieldLine>,
    met: Option<LinePair>,
    pair: LinePair,
) -> bool
    ensures { IsTrue result ↔ (IsMet met pair ⊎ SameLine tags (line_at (line_shapes ls.now.items) pair.one) (line_at (line_shapes ks.now.items) pair.other)) }
{
    if is_met(met, pair) {
        return true;
    }
    match (ls.get(pair.one), ks.get(pair.other)) {
        (Some(l), Some(k)) => is_same_line(tags, l, k),
        (Some(l), None) => is_no_line(tags, l),
        (None, Some(k)) => is_no_line(tags, k),
        (None, None) => true,
    }
}

/// Whether two lines are the same.
#[cycle(same)]
fn is_same_line(tags: bool, l: &FieldLine, k: &FieldLine) -> bool
    ensures { IsTrue result ↔ SameLine tags (line_shape l.now) (line_shape k.now) }
{
    l.embedded == k.embedded
        && is_same_tag(tags, &l.tag, &k.tag)
        && identical_by(tags, &l.term, &k.term)
}

/// Whether a line is as one that is not there.
fn is_no_line(tags: bool, l: &FieldLine) -> bool
    ensures { IsTrue result ↔ IsNoLine tags (line_shape l.now) }
{
    !l.embedded && is_same_tag(tags, &l.tag, &Tag::none()) && is_no_type(&l.term)
}

/// Whether a term is no type, as the type of what is not there. It takes no memory.
pub fn is_no_type(term: &TypeTerm) -> bool
    ensures nothing { IsTrue result ↔ (shape term.now ≡ NoType) }
    ensures test { result ≡ is_no_type (shape term.now) }
{
    match term {
        TypeTerm::NoType => true,
        TypeTerm::Basic(_) => false,
        TypeTerm::Error => false,
        TypeTerm::Defined(_) => false,
        TypeTerm::Pointer(_) => false,
        TypeTerm::Struct(_, _, _) => false,
        TypeTerm::Interface(_, _) => false,
    }
}

/// Whether two interface types have as many methods, and the one has each of the other.
#[cycle(same)]
fn same_methods(
    tags: bool,
    p: &ImportPath,
    ms: &Vec<Method>,
    q: &ImportPath,
    ns: &Vec<Method>,
) -> bool
    ensures { IsTrue result ↔ ((method_count (method_shapes ms.now.items) ≡ method_count (method_shapes ns.now.items)) × HasAllBy tags p.now (method_shapes ms.now.items) q.now (method_shapes ns.now.items)) }
{
    if ms.len() != ns.len() {
        return false;
    }
    for (i, m) in ms.iter().enumerate() {
        // Methods in the same order are found at once.
        let (before, behind) = ns.split_at(i);
        if !has_alike(tags, p, m, q, behind) && !has_alike(tags, p, m, q, before) {
            return false;
        }
    }
    true
}

/// Whether one of the methods is the same identifier with the same signature.
#[cycle(same)]
fn has_alike(tags: bool, p: &ImportPath, m: &Method, q: &ImportPath, ns: &[Method]) -> bool
    ensures { IsTrue result ↔ HasAlike tags p.now m.now.name (sign_of m.now.signature) q.now (method_shapes ns.now) }
{
    for n in ns {
        if is_same_name(&m.name, p, &n.name, q)
            && same_signature(tags, &m.signature, &n.signature)
        {
            return true;
        }
    }
    false
}

/// Whether two signatures have as many parameters and results, each of identical types.
#[cycle(same)]
fn same_signature(tags: bool, a: &Signature, b: &Signature) -> bool
    ensures { IsTrue result ↔ SameSignBy tags (sign_of a.now) (sign_of b.now) }
{
    same_params(tags, &a.params, &b.params) && same_params(tags, &a.results, &b.results)
}

/// Whether two lists have as many types, each identical to the other's at its place. Two terms are compared where they meet first.
#[cycle(same)]
fn same_params(tags: bool, ps: &Params, qs: &Params) -> bool
    ensures { IsTrue result ↔ SameTermsBy tags (param_shapes ps.now) (param_shapes qs.now) }
{
    same_terms(tags, &ps.terms, &ps.lines, &qs.terms, &qs.lines)
}

/// Whether two lists of numbers are of as many types, each identical to the other's at its place.
#[cycle(same)]
fn same_terms(
    tags: bool,
    ts: &Vec<TypeTerm>,
    ns: &Vec<usize>,
    us: &Vec<TypeTerm>,
    ms: &Vec<usize>,
) -> bool
    ensures { IsTrue result ↔ SameTermsBy tags (terms_in (map shape ts.now.items) ns.now.items) (terms_in (map shape us.now.items) ms.now.items) }
{
    if ns.len() != ms.len() {
        return false;
    }
    let mut met = None;
    for (i, n) in ns.iter().enumerate() {
        let pair = LinePair {
            one: *n,
            other: ms[i],
        };
        if !are_terms_same(tags, ts, us, met, pair) {
            return false;
        }
        met = Some(pair);
    }
    true
}

/// Whether two terms met last, or are identical.
#[cycle(same)]
fn are_terms_same(
    tags: bool,
    ts: &Vec<TypeTerm>,
    us: &Vec<TypeTerm>,
    met: Option<LinePair>,
    pair: LinePair,
) -> bool
    ensures { IsTrue result ↔ (IsMet met pair ⊎ IdenticalBy tags (term_at (map shape ts.now.items) pair.one) (term_at (map shape us.now.items) pair.other)) }
{
    if is_met(met, pair) {
        return true;
    }
    match (ts.get(pair.one), us.get(pair.other)) {
        (Some(t), Some(u)) => identical_by(tags, t, u),
        (Some(t), None) => is_no_type(t),
        (None, Some(u)) => is_no_type(u),
        (None, None) => true,
    }
}
