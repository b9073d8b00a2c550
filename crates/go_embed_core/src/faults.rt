//! The faults of struct types, interface types, methods and receivers.
ghost use Rattle.std.specs.Prelude.{◌≡◌, ◌++◌, ◌∷◌, [], true, false, not, ◌&&◌, ◌||◌, IfOk, OnOk, IfErr, map, List};
ghost use Rattle.go_collections_core.specs.text_core.Text.{is_blank};
ghost use Rattle.go_term_core.specs.Shapes.{Line, shape, sign_of, fields_in, line_at, line_shapes, method_shapes, term_at, terms_in};
ghost use Rattle.go_term_core.specs.settling.Settled.{can_be_embedded, is_among_names};
ghost use Rattle.go_type_core.specs.table_core.Methods.{has_field_before};
ghost use Rattle.go_type_core.specs.table_core.Shown.{member_shown};
ghost use Rattle.go_embed_core.specs.Faults.{member_fault_if, same_place, first_field, first_method, first_place, is_shared, line_faults, term_faults, fields_faults, methods_faults, sign_faults, terms_faults, declared_faults, can_be_base};
ghost use Rattle.go_embed_core.specs.mirrors.Passing.{SameNames, field_own, method_own, declared_own};
ghost use Rattle.go_term_core.specs.settling.Settled.{can_be_pointed};

use go_collections_core::text_core::{Name, Rule, add, is_blank};
use go_path_core::ImportPath;
use go_term_core::FieldLine;
use go_term_core::settling::SeenNames;
use go_type_core::table_core::FieldTable;
use go_type_core::{
    DeclaredMethod, Field, Kind, Kinds, MemberPlace, Method, Signature, TypeTerm, can_embed,
};
use std::alloc::{AllocError, Global};

/// A fault at the declaration of a field or a method.
#[derive(Clone, Copy, Debug, PartialEq, Eq)]
pub struct MemberFault {
    pub place: MemberPlace,
    /// B5 where its name is repeated, or blank where it may not be; Y2 where a field's type may not be embedded.
    pub rule: Rule,
}

// Notes a fault, where there is one.
pub(crate) fn note_if(
    faults: &mut Vec<MemberFault>,
    is_fault: bool,
    place: MemberPlace,
    rule: Rule,
) -> Result<(), AllocError>
    ensures { OnOk result (faults.new.items ≡ faults.old.items ++ member_fault_if is_fault place rule) }
{
    if !is_fault {
        return Ok(());
    }
    add(faults, MemberFault { place, rule })
}

// Whether a field repeats a name.
fn is_repeated(name: &Name, is_met: bool) -> bool
    ensures { result ≡ not (is_blank name.now) && is_met }
{
    !is_blank(name.as_str()) && is_met
}

// Whether a field is written as an embedded one, and its type may not be embedded.
fn is_refused<K: Kinds>(kinds: &K, lines: &Vec<FieldLine>, number: usize) -> bool
    ensures { let l = line_at (line_shapes lines.now.items) number in result ≡ l.embedded && not (can_be_embedded (K.kinds kinds.now) l.term) }
{
    match lines.get(number) {
        Some(line) => is_line_refused(kinds, line),
        None => false,
    }
}

// Whether the field of a line is written as an embedded one, and its type may not be embedded.
fn is_line_refused<K: Kinds>(kinds: &K, line: &FieldLine) -> bool
    ensures { result ≡ line.now.embedded && not (can_be_embedded (K.kinds kinds.now) (shape line.now.term)) }
{
    line.embedded && !can_embed(kinds, &line.term)
}

// Whether a method of an interface type is blank, or repeats a name.
fn is_second(name: &Name, is_met: bool) -> bool
    ensures { result ≡ is_blank name.now || is_met }
{
    is_blank(name.as_str()) || is_met
}

// Whether a field comes before a declared method, or another method.
fn is_preceded(
    path: &ImportPath,
    fields: &FieldTable<'_>,
    method: &DeclaredMethod,
    is_met: bool,
) -> bool
    ensures { result ≡ is_met || has_field_before path.now fields.now (member_shown method.now) }
{
    is_met || fields.comes_before(path, method)
}

// Passes a name, and answers whether it was passed before.
fn meet<'a>(passed: &mut SeenNames<'a>, name: &'a Name) -> Result<bool, AllocError>
    ensures before { IfOk result (λ before. before ≡ is_among_names passed.old name.now) }
    ensures ok { OnOk result (SameNames passed.new (name.now ∷ passed.old)) }
{
    let is_new = passed.add(name.as_str())?;
    Ok(!is_new)
}

// The faults of a field beside those of its type.
fn check_field<'a, K: Kinds>(
    kinds: &K,
    field: &'a Field,
    lines: &Vec<FieldLine>,
    passed: &mut SeenNames<'a>,
    faults: &mut Vec<MemberFault>,
) -> Result<(), AllocError>
    ensures names { OnOk result (SameNames passed.new (field.now.name ∷ passed.old)) }
    ensures faults { OnOk result (faults.new.items ≡ faults.old.items ++ field_own (K.kinds kinds.now) (line_shapes lines.now.items) passed.old field.now) }
{
    let is_met = meet(passed, &field.name)?;
    note_if(
        faults,
        is_repeated(&field.name, is_met),
        field.place,
        Rule::B5,
    )?;
    note_if(
        faults,
        is_refused(kinds, lines, field.line),
        field.place,
        Rule::Y2,
    )
}

// The faults of a method of an interface type beside those of its signature.
fn check_method<'a>(
    method: &'a Method,
    passed: &mut SeenNames<'a>,
    faults: &mut Vec<MemberFault>,
) -> Result<(), AllocError>
    ensures names { OnOk result (SameNames passed.new (method.now.name ∷ passed.old)) }
    ensures faults { OnOk result (faults.new.items ≡ faults.old.items ++ method_own passed.old method.now) }
{
    let is_met = meet(passed, &method.name)?;
    note_if(
        faults,
        is_second(&method.name, is_met),
        method.place,
        Rule::B5,
    )
}

// Whether two places are one.
fn is_same_place(one: MemberPlace, other: MemberPlace) -> bool
    ensures { result ≡ same_place one other }
{
    match one {
        MemberPlace::Declared(a) => match other {
            MemberPlace::Declared(b) => a.file == b.file
                && (a.number == b.number && a.kind == b.kind),
            MemberPlace::Local(_) => false,
        },
        MemberPlace::Local(a) => match other {
            MemberPlace::Declared(_) => false,
            MemberPlace::Local(b) => a.file == b.file && a.offset == b.offset,
        },
    }
}

// The place of the first of some fields.
fn first_field(fields: &Vec<Field>) -> Option<MemberPlace>
    ensures { (ls : List Line) → result ≡ first_field (fields_in ls fields.now.items) }
{
    match fields.first() {
        Some(field) => Some(field.place),
        None => None,
    }
}

// The place of the first of some methods.
fn first_method(methods: &Vec<Method>) -> Option<MemberPlace>
    ensures { result ≡ first_method (method_shapes methods.now.items) }
{
    match methods.first() {
        Some(method) => Some(method.place),
        None => None,
    }
}

// The place of the first member that a type declares.
fn first_place(term: &TypeTerm) -> Option<MemberPlace>
    ensures { result ≡ first_place (shape term.now) }
{
    match term {
        TypeTerm::Pointer(base) => first_place(base),
        TypeTerm::Struct(_, fields, _) => first_field(fields),
        TypeTerm::Interface(_, methods) => first_method(methods),
        TypeTerm::NoType | TypeTerm::Basic(_) | TypeTerm::Error | TypeTerm::Defined(_) => None,
    }
}

// Whether a type is written once for a name and for the one before it, the place of whose first member is given.
fn is_shared(last: Option<MemberPlace>, term: &TypeTerm) -> bool
    ensures { result ≡ is_shared last (shape term.now) }
{
    match last {
        None => false,
        Some(one) => match first_place(term) {
            None => false,
            Some(other) => is_same_place(one, other),
        },
    }
}

// The faults in a type behind another.
#[cycle(faults)]
fn add_term<'a, K: Kinds>(
    alloc: Global,
    kinds: &K,
    last: Option<MemberPlace>,
    term: &'a TypeTerm,
    faults: &mut Vec<MemberFault>,
) -> Result<(), AllocError>
    ensures { OnOk result (faults.new.items ≡ faults.old.items ++ line_faults (K.kinds kinds.now) last (shape term.now)) }
{
    if is_shared(last, term) {
        return Ok(());
    }
    match term {
        TypeTerm::Pointer(base) => add_term(alloc, kinds, None, base, faults),
        TypeTerm::Struct(_, fields, lines) => {
            let mut passed_fields = SeenNames::new(alloc);
            add_fields(alloc, kinds, lines, fields, &mut passed_fields, faults)
        }
        TypeTerm::Interface(_, methods) => {
            let mut passed_methods = SeenNames::new(alloc);
            add_methods(alloc, kinds, methods, &mut passed_methods, faults)
        }
        TypeTerm::NoType | TypeTerm::Basic(_) | TypeTerm::Error | TypeTerm::Defined(_) => Ok(()),
    }
}

// The faults of fields behind those of the names that were passed.
#[cycle(faults)]
fn add_fields<'a, K: Kinds>(
    alloc: Global,
    kinds: &K,
    lines: &'a Vec<FieldLine>,
    fields: &'a Vec<Field>,
    passed: &mut SeenNames<'a>,
    faults: &mut Vec<MemberFault>,
) -> Result<(), AllocError>
    ensures { OnOk result (faults.new.items ≡ faults.old.items ++ fields_faults (K.kinds kinds.now) passed.old None (fields_in (line_shapes lines.now.items) fields.now.items)) }
{
    let mut last = None;
    for field in fields {
        check_field(kinds, field, lines, passed, faults)?;
        add_line(alloc, kinds, last, lines, field.line, faults)?;
        last = first_of_line(lines, field.line);
    }
    Ok(())
}

// The place of the first member that the type of a line declares.
fn first_of_line(lines: &Vec<FieldLine>, number: usize) -> Option<MemberPlace>
    ensures { result ≡ first_place (line_at (line_shapes lines.now.items) number).term }
{
    match lines.get(number) {
        Some(line) => first_place(&line.term),
        None => None,
    }
}

// The faults in the type of a line behind another type.
#[cycle(faults)]
fn add_line<'a, K: Kinds>(
    alloc: Global,
    kinds: &K,
    last: Option<MemberPlace>,
    lines: &'a Vec<FieldLine>,
    number: usize,
    faults: &mut Vec<MemberFault>,
) -> Result<(), AllocError>
    ensures { OnOk result (faults.new.items ≡ faults.old.items ++ line_faults (K.kinds kinds.now) last (line_at (line_shapes lines.now.items) number).term) }
{
    match lines.get(number) {
        Some(line) => add_term(alloc, kinds, last, &line.term, faults),
        None => Ok(()),
    }
}

// The faults of the methods of an interface type behind those of the names that were passed.
#[cycle(faults)]
fn add_methods<'a, K: Kinds>(
    alloc: Global,
    kinds: &K,
    methods: &'a Vec<Method>,
    passed: &mut SeenNames<'a>,
    faults: &mut Vec<MemberFault>,
) -> Result<(), AllocError>
    ensures { OnOk result (faults.new.items ≡ faults.old.items ++ methods_faults (K.kinds kinds.now) passed.old (method_shapes methods.now.items)) }
{
    for method in methods {
        check_method(method, passed, faults)?;
        let signature = &method.signature;
        add_terms(
            alloc,
            kinds,
            &signature.params.terms,
            &signature.params.lines,
            faults,
        )?;
        add_terms(
            alloc,
            kinds,
            &signature.results.terms,
            &signature.results.lines,
            faults,
        )?;
    }
    Ok(())
}

// The faults in the types of parameters or of results.
#[cycle(faults)]
fn add_terms<'a, K: Kinds>(
    alloc: Global,
    kinds: &K,
    terms: &'a Vec<TypeTerm>,
    numbers: &Vec<usize>,
    faults: &mut Vec<MemberFault>,
) -> Result<(), AllocError>
    ensures { OnOk result (faults.new.items ≡ faults.old.items ++ terms_faults (K.kinds kinds.now) None (terms_in (map shape terms.now.items) numbers.now.items)) }
{
    let mut last = None;
    for number in numbers {
        add_numbered(alloc, kinds, last, terms, *number, faults)?;
        last = first_of_number(terms, *number);
    }
    Ok(())
}

// The place of the first member that the type of a number declares.
fn first_of_number(terms: &Vec<TypeTerm>, number: usize) -> Option<MemberPlace>
    ensures { result ≡ first_place (term_at (map shape terms.now.items) number) }
{
    match terms.get(number) {
        Some(term) => first_place(term),
        None => None,
    }
}

// The faults in the type of a number behind another type.
#[cycle(faults)]
fn add_numbered<'a, K: Kinds>(
    alloc: Global,
    kinds: &K,
    last: Option<MemberPlace>,
    terms: &'a Vec<TypeTerm>,
    number: usize,
    faults: &mut Vec<MemberFault>,
) -> Result<(), AllocError>
    ensures { OnOk result (faults.new.items ≡ faults.old.items ++ line_faults (K.kinds kinds.now) last (term_at (map shape terms.now.items) number)) }
{
    match terms.get(number) {
        Some(term) => add_term(alloc, kinds, last, term, faults),
        None => Ok(()),
    }
}

// The faults in a signature.
fn add_signature<K: Kinds>(
    alloc: Global,
    kinds: &K,
    signature: &Signature,
    faults: &mut Vec<MemberFault>,
) -> Result<(), AllocError>
    ensures { OnOk result (faults.new.items ≡ faults.old.items ++ sign_faults (K.kinds kinds.now) (sign_of signature.now)) }
{
    let params = &signature.params;
    let results = &signature.results;
    add_terms(alloc, kinds, &params.terms, &params.lines, faults)?;
    add_terms(alloc, kinds, &results.terms, &results.lines, faults)
}

// The faults of a declared method beside those of its signature.
fn check_declared<'a>(
    path: &ImportPath,
    fields: &FieldTable<'_>,
    method: &'a DeclaredMethod,
    passed: &mut SeenNames<'a>,
    faults: &mut Vec<MemberFault>,
) -> Result<(), AllocError>
    ensures names { OnOk result (SameNames passed.new (method.now.name ∷ passed.old)) }
    ensures faults { OnOk result (faults.new.items ≡ faults.old.items ++ declared_own path.now fields.now passed.old method.now) }
{
    let is_met = meet(passed, &method.name)?;
    let is_late = is_preceded(path, fields, method, is_met);
    note_if(
        faults,
        is_repeated(&method.name, is_late),
        method.place,
        Rule::B5,
    )
}

// The faults of declared methods behind those of the names that were passed.
fn add_declared<'a, K: Kinds>(
    alloc: Global,
    kinds: &K,
    path: &ImportPath,
    fields: &FieldTable<'_>,
    methods: &'a [DeclaredMethod],
    passed: &mut SeenNames<'a>,
    faults: &mut Vec<MemberFault>,
) -> Result<(), AllocError>
    ensures { OnOk result (faults.new.items ≡ faults.old.items ++ declared_faults (K.kinds kinds.now) path.now fields.now passed.old (map member_shown methods.now)) }
{
    for method in methods {
        check_declared(path, fields, method, passed, faults)?;
        add_signature(alloc, kinds, &method.signature, faults)?;
    }
    Ok(())
}

/// The faults of the struct types and the interface types that a type has in it, as it is written, in order: of fields and methods that
/// repeat a name of their type (B5), of an interface's method that is blank (B5), of embedded fields whose type may not be embedded (Y2). A type
/// that is written once for several fields or parameters has its faults once.
/// It takes expected time that is linear in the type.
///
/// # Errors
///
/// `AllocError` where memory is wanting.
pub fn check_struct<K: Kinds>(
    alloc: Global,
    kinds: &K,
    term: &TypeTerm,
) -> Result<Vec<MemberFault>, AllocError>
    ensures { IfOk result (λ faults. faults.items ≡ term_faults (K.kinds kinds.now) (shape term.now)) }
{
    let mut faults = Vec::new(alloc);
    add_term(alloc, kinds, None, term, &mut faults)?;
    Ok(faults)
}

/// The faults of the methods that are declared of a type, in order of file and place, and of the types in their signatures: a method that
/// repeats the name of an earlier one, or of a field that comes before it (B5). `path` is of the type's package, `fields` has the fields of
/// the type's underlying type. It takes expected time that is linear in the methods.
///
/// # Errors
///
/// `AllocError` where memory is wanting.
pub fn check_methods<K: Kinds>(
    alloc: Global,
    kinds: &K,
    path: &ImportPath,
    fields: &FieldTable<'_>,
    methods: &[DeclaredMethod],
) -> Result<Vec<MemberFault>, AllocError>
    ensures { IfOk result (λ faults. faults.items ≡ declared_faults (K.kinds kinds.now) path.now fields.now [] (map member_shown methods.now)) }
{
    let mut passed = SeenNames::new(alloc);
    let mut faults = Vec::new(alloc);
    match add_declared(
        alloc,
        kinds,
        path,
        fields,
        methods,
        &mut passed,
        &mut faults,
    ) {
        Ok(()) => Ok(faults),
        Err(error) => Err(error),
    }
}

// Whether a defined type of a kind may be the base of a receiver.
fn is_open_base(kind: Kind) -> bool
    ensures { result ≡ can_be_pointed kind }
{
    match kind {
        Kind::Nothing => true,
        Kind::Pointer => false,
        Kind::Interface => false,
        Kind::Other => true,
    }
}

// Whether a type, as its name is written, may be the base of a receiver.
fn can_be_base<K: Kinds>(kinds: &K, path: &ImportPath, base: &TypeTerm) -> bool
    ensures { result ≡ can_be_base (K.kinds kinds.now) path.now (shape base.now) }
{
    match base {
        TypeTerm::NoType => true,
        TypeTerm::Defined(key) => {
            key.path.as_str() == path.as_str() && is_open_base(kinds.kind(key))
        }
        TypeTerm::Basic(_)
        | TypeTerm::Error
        | TypeTerm::Pointer(_)
        | TypeTerm::Struct(_, _, _)
        | TypeTerm::Interface(_, _) => false,
    }
}

/// Whether a receiver's base, as its name is written without the star, is a defined type of the package that is neither a pointer type
/// nor an interface type.
///
/// # Errors
///
/// `Rule::B6` exactly where it is not; a name that is refused breaks no rule.
pub fn check_base<K: Kinds>(kinds: &K, path: &ImportPath, base: &TypeTerm) -> Result<(), Rule>
    ensures ok { OnOk result (can_be_base (K.kinds kinds.now) path.now (shape base.now) ≡ true) }
    ensures err { IfErr result (λ rule. (rule ≡ Rule.B6) × (can_be_base (K.kinds kinds.now) path.now (shape base.now) ≡ false)) }
{
    if can_be_base(kinds, path, base) {
        Ok(())
    } else {
        Err(Rule::B6)
    }
}
