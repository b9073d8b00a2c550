//! By what expressions and types are refused, or have no type.
use crate::found::{Blame, DeclAt, Found, Said, TypeOf, UNSAID};
use crate::look::{Look, Wanted};
use go_denote_core::Outcome;
use go_denote_core::text_core::Rule;
use go_handle_core::DeclSite;
use go_package_core::report_core::Site;
use go_term_core::MemberPlace;
use go_term_core::decl_core::{DeclKind, last_ident};
use go_tree_nodes::token_core::Operator;
use go_tree_nodes::{
    CallExpr, Expr, Exprs, FieldLine, Fields, Ident, Idents, Item, LiteralExpr, MethodLine, Param,
    Results, SelectExpr, Signature, StructLiteralExpr, TypeExpr, TypeName, type_name_start,
    type_start,
};

/// What is known of an expression.
#[derive(Clone, Copy)]
pub(crate) struct Seen {
    /// Its first byte, in bytes from the file's start.
    pub(crate) start: usize,
    pub(crate) said: Said,
    /// By what one of the operands of its operators is refused or has no type; where it has no operator, by what it is itself.
    pub(crate) operands: Option<Blame>,
    /// Whether no call, no literal and no `&` stands in it.
    pub(crate) is_plain: bool,
}

// The first that there is.
fn first_of(one: Option<Blame>, other: Option<Blame>) -> Option<Blame> {
    match one {
        Some(blame) => Some(blame),
        None => other,
    }
}

// The one that is a fault, the first where both are or none is.
fn surer_of(one: Option<Blame>, other: Option<Blame>) -> Option<Blame> {
    match (one, other) {
        (Some(Blame::Declared(_)), Some(Blame::Fault(fault))) => Some(Blame::Fault(fault)),
        (None, other) => other,
        (one, _) => one,
    }
}

/// The fault of a number, if there is one.
pub(crate) fn by_fault(fault: Option<usize>) -> Option<Blame> {
    match fault {
        Some(fault) => Some(Blame::Fault(fault)),
        None => None,
    }
}

/// What is refused by a fault, if there is one.
pub(crate) fn said_by(fault: Option<usize>) -> Said {
    Said {
        blame: by_fault(fault),
        of: None,
        embedded: None,
    }
}

// What is known of a declaration outside function bodies.
fn said_of(at: DeclAt, kind: DeclKind) -> Said {
    let of = if matches!(kind, DeclKind::Type) {
        TypeOf::Type(at)
    } else {
        TypeOf::Value(at)
    };
    Said {
        blame: Some(Blame::Declared(at)),
        of: Some(of),
        embedded: None,
    }
}

// What is known of a declaration.
fn by_site(look: &Look<'_>, found: &mut Found, site: &Site) -> Said {
    match site.decl().site() {
        DeclSite::InFile(path, MemberPlace::Declared(decl)) => {
            let Some(package) = look.package_number(path.as_str()) else {
                return UNSAID;
            };
            let at = DeclAt {
                package,
                file: decl.file,
                number: decl.number,
            };
            found.link(at);
            said_of(at, decl.kind)
        }
        DeclSite::InFile(_, MemberPlace::Local(local)) => {
            match found.locals.get(&local.offset) {
                Some(said) => *said,
                None => UNSAID,
            }
        }
        DeclSite::Universe(_) | DeclSite::ErrorMethod | DeclSite::Package(_) => UNSAID,
    }
}

// By what the occurrence at an offset is refused.
fn refused_at(look: &Look<'_>, offset: usize) -> Option<usize> {
    let answer = look.answer(offset)?;
    match &answer.outcome {
        Outcome::Refused(rule) => look.fault(offset, Wanted::One(*rule)),
        Outcome::Declared(_) => None,
        Outcome::Selected(_, _) => None,
    }
}

// What is known of what the occurrence at an offset denotes.
fn said_at(look: &Look<'_>, found: &mut Found, offset: usize) -> Said {
    let Some(answer) = look.answer(offset) else {
        return UNSAID;
    };
    match &answer.outcome {
        Outcome::Refused(rule) => said_by(look.fault(offset, Wanted::One(*rule))),
        Outcome::Declared(site) => by_site(look, found, site),
        Outcome::Selected(site, _) => by_site(look, found, site),
    }
}

// Whether the occurrence at an offset denotes a package.
fn is_package(look: &Look<'_>, offset: usize) -> bool {
    match look.answer(offset) {
        Some(answer) => match &answer.outcome {
            Outcome::Declared(site) => matches!(site.decl().site(), DeclSite::Package(_)),
            Outcome::Selected(_, _) => false,
            Outcome::Refused(_) => false,
        },
        None => false,
    }
}

// A name: one that an import binds which is refused follows from what refuses the import, and an import that is not used from a name of a package that
// is no qualifier.
fn see_name(look: &Look<'_>, found: &mut Found, ident: &Ident) -> Said {
    let offset = ident.span.start as usize;
    let refused = look.fault(offset, Wanted::One(Rule::N9));
    if refused.is_some() {
        let import = look.import_fault(ident.name.as_str(), Wanted::Import);
        found.set(refused, by_fault(import));
    }
    let misused = look.fault(offset, Wanted::One(Rule::N4));
    if misused.is_some() {
        let unused = look.import_fault(ident.name.as_str(), Wanted::One(Rule::I7));
        found.set(unused, by_fault(misused));
    }
    said_at(look, found, offset)
}

// An import that is not used follows from the name behind its qualifier, where that is refused.
fn see_qualified(look: &Look<'_>, found: &mut Found, qualifier: &Ident, name: &Ident) {
    if is_package(look, qualifier.span.start as usize) {
        let refused = refused_at(look, name.span.start as usize);
        if refused.is_some() {
            let unused = look.import_fault(qualifier.name.as_str(), Wanted::One(Rule::I7));
            found.set(unused, by_fault(refused));
        }
    }
}

/// The name of a type. Behind a package that is refused, it follows from what refuses that.
pub(crate) fn see_type_name(look: &Look<'_>, found: &mut Found, name: &TypeName) -> Said {
    match name {
        TypeName::Plain(ident) => see_name(look, found, ident),
        TypeName::Qualified(qualifier, _, ident) => {
            let package = see_name(look, found, qualifier);
            let offset = ident.span.start as usize;
            found.set(look.fault(offset, Wanted::One(Rule::S4)), package.blame);
            see_qualified(look, found, qualifier, ident);
            said_at(look, found, offset)
        }
    }
}

/// Notes an identifier that is declared outside function bodies, where it is one.
pub(crate) fn open_ident(look: &Look<'_>, found: &mut Found, ident: &Ident) {
    if let Some(number) = look.places.number(ident.span.start as usize) {
        found.open_note(DeclAt {
            package: look.package,
            file: look.file,
            number,
        });
    }
}

/// Notes what is known of an identifier that is declared.
pub(crate) fn note_ident(look: &Look<'_>, found: &mut Found, ident: &Ident, said: Said) {
    let offset = ident.span.start as usize;
    match look.places.number(offset) {
        Some(number) => found.set_note(
            DeclAt {
                package: look.package,
                file: look.file,
                number,
            },
            said,
        ),
        None => found.note_local(offset, said),
    }
}

/// Notes identifiers that are declared.
pub(crate) fn open_idents(look: &Look<'_>, found: &mut Found, idents: &Idents) {
    open_ident(look, found, &idents.first);
    for next in &idents.more {
        open_ident(look, found, &next.ident);
    }
}

/// Notes what is known of all identifiers of a list.
pub(crate) fn note_idents(look: &Look<'_>, found: &mut Found, idents: &Idents, said: Said) {
    note_ident(look, found, &idents.first, said);
    for next in &idents.more {
        note_ident(look, found, &next.ident, said);
    }
}

/// A type.
#[cycle(types)]
pub(crate) fn see_type(look: &Look<'_>, found: &mut Found, type_expr: &TypeExpr) -> Said {
    match type_expr {
        TypeExpr::Name(name) => see_type_name(look, found, name),
        TypeExpr::Pointer(_, inner) => {
            let linking = found.unlinked();
            let said = see_type(look, found, inner);
            found.linking = linking;
            said
        }
        TypeExpr::Paren(_, inner, _) => see_type(look, found, inner),
        TypeExpr::Struct(_, _, lines, _) => Said {
            blame: None,
            of: None,
            embedded: see_fields(look, found, lines),
        },
        TypeExpr::Interface(_, _, methods, _) => {
            let linking = found.unlinked();
            see_methods(look, found, methods);
            found.linking = linking;
            UNSAID
        }
    }
}

// The fields of one line: by what the embedded field has no type.
#[cycle(types)]
fn see_line(look: &Look<'_>, found: &mut Found, fields: &Fields) -> Option<Blame> {
    match fields {
        Fields::Named(idents, type_expr) => {
            open_idents(look, found, idents);
            let said = see_type(look, found, type_expr);
            note_idents(look, found, idents, said);
            None
        }
        Fields::Embedded(_, name) => {
            open_ident(look, found, last_ident(name));
            let said = see_type_name(look, found, name);
            note_ident(look, found, last_ident(name), said);
            said.blame
        }
    }
}

// The fields of a struct type: by what the first embedded field has no type that has none.
#[cycle(types)]
fn see_fields(look: &Look<'_>, found: &mut Found, lines: &Vec<FieldLine>) -> Option<Blame> {
    let mut first = None;
    for line in lines {
        let blame = see_line(look, found, &line.fields);
        first = surer_of(first, blame);
    }
    first
}

// The methods of an interface type: a call of one is of the type of its results.
#[cycle(types)]
fn see_methods(look: &Look<'_>, found: &mut Found, methods: &Vec<MethodLine>) {
    for method in methods {
        open_ident(look, found, &method.name);
        let said = see_signature(look, found, &method.signature);
        note_ident(look, found, &method.name, said);
    }
}

/// Parameters and results: what is known of the results.
#[cycle(types)]
pub(crate) fn see_signature(look: &Look<'_>, found: &mut Found, signature: &Signature) -> Said {
    let _params = see_params(look, found, &signature.params.entries);
    see_results(look, found, &signature.results)
}

// Results.
#[cycle(types)]
fn see_results(look: &Look<'_>, found: &mut Found, results: &Results) -> Said {
    match results {
        Results::Nothing => UNSAID,
        Results::Single(type_expr) => see_type(look, found, type_expr),
        Results::Listed(params) => see_params(look, found, &params.entries),
    }
}

// Parameters or results: of which type the first is, and by what the first of them has no type that has none.
#[cycle(types)]
fn see_params(look: &Look<'_>, found: &mut Found, params: &Vec<Param>) -> Said {
    let mut first = UNSAID;
    for param in params {
        let said = see_type(look, found, &param.type_expr);
        note_names(look, found, &param.names, said);
        first = joined(first, said);
    }
    first
}

// Notes what is known of parameters, which bodies look up as locals, and only those of a file with faults.
fn note_names(look: &Look<'_>, found: &mut Found, names: &Option<Idents>, said: Said) {
    match names {
        Some(names) => {
            if look.is_faulty {
                note_locals(found, names, said);
            }
        }
        None => {}
    }
}

// Notes what is known of all identifiers of a list, as locals.
fn note_locals(found: &mut Found, idents: &Idents, said: Said) {
    found.note_local(idents.first.span.start as usize, said);
    for next in &idents.more {
        found.note_local(next.ident.span.start as usize, said);
    }
}

// What is known of both: of which type the first is, and by what the surer of them has no type.
fn joined(one: Said, other: Said) -> Said {
    Said {
        blame: surer_of(one.blame, other.blame),
        of: if one.of.is_some() { one.of } else { other.of },
        embedded: None,
    }
}

/// An expression.
#[cycle(exprs)]
pub(crate) fn see_expr(look: &Look<'_>, found: &mut Found, expr: &Expr) -> Seen {
    match expr {
        Expr::Integer(_, span) => plain(span.start as usize, UNSAID),
        Expr::Text(literal) => plain(literal.span.start as usize, UNSAID),
        Expr::Name(ident) => plain(ident.span.start as usize, see_name(look, found, ident)),
        Expr::Paren(open, inner, _) => {
            let seen = see_expr(look, found, inner);
            Seen {
                start: open.start as usize,
                said: seen.said,
                operands: seen.operands,
                is_plain: seen.is_plain,
            }
        }
        Expr::Unary(operator, span, inner) => {
            let seen = see_expr(look, found, inner);
            unary(look, span.start as usize, seen, is_address(*operator))
        }
        Expr::Binary(binary) => {
            let left = see_expr(look, found, &binary.left);
            let right = see_expr(look, found, &binary.right);
            both(look, left, right)
        }
        Expr::Select(select) => see_select(look, found, select),
        Expr::Call(call) => see_call(look, found, call),
        Expr::Literal(literal) => see_literal(look, found, literal),
        Expr::StructLiteral(literal) => see_struct_literal(look, found, literal),
    }
}

// What is plain, and stands at an offset.
fn plain(start: usize, said: Said) -> Seen {
    Seen {
        start,
        said,
        operands: said.blame,
        is_plain: true,
    }
}

// Whether an operator takes an address.
fn is_address(operator: Operator) -> bool {
    matches!(operator, Operator::And)
}

// What a unary operator gives.
fn unary(look: &Look<'_>, start: usize, inner: Seen, is_address: bool) -> Seen {
    let own = by_fault(look.fault(start, Wanted::Operator));
    Seen {
        start,
        said: Said {
            blame: first_of(inner.said.blame, own),
            of: inner.said.of,
            embedded: inner.said.embedded,
        },
        operands: inner.operands,
        is_plain: inner.is_plain && !is_address,
    }
}

// What a binary operator gives.
fn both(look: &Look<'_>, left: Seen, right: Seen) -> Seen {
    let own = by_fault(look.fault(left.start, Wanted::Operator));
    Seen {
        start: left.start,
        said: Said {
            blame: surer_of(surer_of(left.said.blame, right.said.blame), own),
            of: None,
            embedded: None,
        },
        operands: surer_of(left.operands, right.operands),
        is_plain: left.is_plain && right.is_plain,
    }
}

// The name that an expression is.
fn name_of(expr: &Expr) -> Option<&Ident> {
    match expr {
        Expr::Name(ident) => Some(ident),
        Expr::Integer(_, _)
        | Expr::Text(_)
        | Expr::Paren(_, _, _)
        | Expr::Unary(_, _, _)
        | Expr::Binary(_)
        | Expr::Select(_)
        | Expr::Call(_)
        | Expr::Literal(_)
        | Expr::StructLiteral(_) => None,
    }
}

// By what an embedded field of a type has no type.
fn by_embedded(of: Option<TypeOf>) -> Option<Blame> {
    match of {
        Some(of) => Some(Blame::Embedded(of)),
        None => None,
    }
}

// A selector: where the operand has no type, it follows from what that has none by; where the type has no such member, from an embedded field that has
// no type and might have it.
#[cycle(exprs)]
fn see_select(look: &Look<'_>, found: &mut Found, select: &SelectExpr) -> Seen {
    let operand = see_expr(look, found, &select.operand);
    let offset = select.name.span.start as usize;
    found.set(
        look.fault(offset, Wanted::One(Rule::S4)),
        operand.said.blame,
    );
    found.set(
        look.fault(offset, Wanted::One(Rule::S1)),
        by_embedded(operand.said.of),
    );
    if let Some(qualifier) = name_of(&select.operand) {
        see_qualified(look, found, qualifier, &select.name);
    }
    let said = said_at(look, found, offset);
    Seen {
        start: operand.start,
        said,
        operands: said.blame,
        is_plain: operand.is_plain,
    }
}

// A call: where what is called is refused or has no type, it follows from that.
#[cycle(exprs)]
fn see_call(look: &Look<'_>, found: &mut Found, call: &CallExpr) -> Seen {
    let callee = see_expr(look, found, &call.callee);
    let offset = call.open.start as usize;
    found.set(look.fault(offset, Wanted::One(Rule::C1)), callee.said.blame);
    see_items(look, found, &call.args, callee.said.blame);
    let said = said_at(look, found, offset);
    Seen {
        start: callee.start,
        said,
        operands: said.blame,
        is_plain: false,
    }
}

// Arguments and elements. An argument that is a type follows from what refuses the function that would take one.
#[cycle(exprs)]
fn see_items(look: &Look<'_>, found: &mut Found, items: &Vec<Item>, callee: Option<Blame>) {
    for item in items {
        let seen = see_expr(look, found, &item.value);
        see_argument(look, found, seen, callee);
    }
}

// An argument of what is called.
fn see_argument(look: &Look<'_>, found: &mut Found, argument: Seen, callee: Option<Blame>) {
    if let Some(fault) = fault_of(argument.said.blame) {
        if let Some(refused) = fault_of(callee) {
            if is_rule(look, fault, Wanted::One(Rule::N5))
                && is_rule(look, refused, Wanted::One(Rule::N7))
            {
                found.set(Some(fault), callee);
            }
        }
    }
}

// The fault that something is refused by.
fn fault_of(blame: Option<Blame>) -> Option<usize> {
    match blame {
        Some(Blame::Fault(fault)) => Some(fault),
        Some(Blame::Declared(_)) => None,
        Some(Blame::Embedded(_)) => None,
        None => None,
    }
}

// Whether a fault is of a rule.
fn is_rule(look: &Look<'_>, fault: usize, wanted: Wanted) -> bool {
    match look.faults.get(fault) {
        Some(fault) => wanted.has(fault.rule),
        None => false,
    }
}

// A literal of a named type.
#[cycle(exprs)]
fn see_literal(look: &Look<'_>, found: &mut Found, literal: &LiteralExpr) -> Seen {
    let said = see_type_name(look, found, &literal.type_name);
    see_items(look, found, &literal.elements, None);
    let start = type_name_start(&literal.type_name);
    literal_at(look, found, start, said, &literal.elements)
}

// A literal of a struct type that is written out.
#[cycle(exprs)]
fn see_struct_literal(look: &Look<'_>, found: &mut Found, literal: &StructLiteralExpr) -> Seen {
    let said = see_type(look, found, &literal.type_expr);
    see_items(look, found, &literal.elements, None);
    let start = type_start(&literal.type_expr);
    literal_at(look, found, start, said, &literal.elements)
}

// A literal at an offset: it follows from its type, and what its keys break from what the literal as a whole breaks.
fn literal_at(
    look: &Look<'_>,
    found: &mut Found,
    start: usize,
    said: Said,
    elements: &Vec<Item>,
) -> Seen {
    let no_struct = look.fault(start, Wanted::One(Rule::F8));
    let mixed = look.fault(start, Wanted::One(Rule::F5));
    found.set(no_struct, said.blame);
    for element in elements {
        if let Some(key) = &element.key {
            let offset = key.name.span.start as usize;
            found.set(
                look.fault(offset, Wanted::One(Rule::F8)),
                by_fault(no_struct),
            );
            found.set(look.fault(offset, Wanted::One(Rule::F5)), by_fault(mixed));
            found.set(look.fault(offset, Wanted::Promoted), by_embedded(said.of));
        }
    }
    let blame = first_of(said.blame, by_fault(no_struct));
    Seen {
        start,
        said: Said {
            blame,
            of: said.of,
            embedded: said.embedded,
        },
        operands: blame,
        is_plain: false,
    }
}

/// Expressions with commas between them: the first.
pub(crate) fn see_exprs(look: &Look<'_>, found: &mut Found, exprs: &Exprs) -> Seen {
    let first = see_expr(look, found, &exprs.first);
    for next in &exprs.more {
        let _seen = see_expr(look, found, &next.expr);
    }
    first
}
