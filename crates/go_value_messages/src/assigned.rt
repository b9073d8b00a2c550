//! What is said of values that are given to variables, and to fields by literals.

use go_case_core::diagnostic_core::{Message, Words};
use go_case_core::judge_core::{Judged, Piece, exprs_of, operand_type};
use go_case_core::{
    Case, Misfit, Values, add_why, article_of, counted, is_nil, mark, misfit_in, parts_of,
    type_told, values_of, values_told, why_fixed,
};
use go_expr_core::denote_core::Stand;
use go_expr_core::start;
use go_term_core::TypeTerm;
use go_tree_nodes::text_core::add;
use go_tree_nodes::{Assignment, Definition, Expr, Exprs, Ident, Idents, Item, Simple, ValueSpec};
use std::alloc::{AllocError, Global};

/// A message, as one that there is.
///
/// # Errors
///
/// `AllocError` where memory was wanting for it.
pub(crate) fn some_of(message: Result<Message, AllocError>) -> Result<Option<Message>, AllocError> {
    match message {
        Ok(message) => Ok(Some(message)),
        Err(error) => Err(error),
    }
}

/// What is said of values that break the rule Y4 elsewhere than in a `return`; none where no more is known of them.
///
/// # Errors
///
/// `AllocError` where memory is wanting.
pub(crate) fn of_values(alloc: Global, case: &Case<'_>) -> Result<Option<Message>, AllocError> {
    match case.setting.piece() {
        Some(piece) if piece.start() == case.here.offset => of_piece(alloc, case, piece),
        _ => element(alloc, case),
    }
}

// A piece that gives values to variables.
fn of_piece(
    alloc: Global,
    case: &Case<'_>,
    piece: Piece<'_>,
) -> Result<Option<Message>, AllocError> {
    match piece {
        Piece::Simple(Simple::Assign(assignment)) => assigned(alloc, case, assignment),
        Piece::Simple(Simple::Define(definition)) => defined(alloc, case, definition),
        Piece::Spec(_, spec) => specified(alloc, case, spec),
        _ => element(alloc, case),
    }
}

// Identifiers with commas between them.
fn idents_of(alloc: Global, idents: &Idents) -> Result<Vec<&Ident>, AllocError> {
    let mut all = Vec::new(alloc);
    add(&mut all, &idents.first)?;
    for next in &idents.more {
        add(&mut all, &next.ident)?;
    }
    Ok(all)
}

// What is given: expressions with commas between them.
fn given<'t>(alloc: Global, case: &Case<'_>, exprs: &'t Exprs) -> Result<Values<'t>, AllocError> {
    let list = exprs_of(alloc, exprs)?;
    values_of(alloc, case, list)
}

/// How many values are there, in a sentence, where others are wanted: `, but 2 values are given`, or of one call `, but f() gives 2 values`.
///
/// # Errors
///
/// `AllocError` where memory is wanting.
pub(crate) fn here_are(
    alloc: Global,
    case: &Case<'_>,
    values: &Values<'_>,
) -> Result<String, AllocError> {
    if let Some(call) = values.only_call() {
        let written = case.shown(alloc, call)?;
        let told = values_told(alloc, values.count())?;
        return Words::new(alloc)
            .and(", but ")
            .and(written.as_str())
            .and(" gives ")
            .and(told.as_str())
            .text();
    }
    let be = if values.count() == 1 {
        " is given"
    } else {
        " are given"
    };
    let told = counted(alloc, values.count(), "value")?;
    Words::new(alloc)
        .and(", but ")
        .and(told.as_str())
        .and(be)
        .text()
}

// As many values as variables are not there.
fn other_count(
    alloc: Global,
    case: &Case<'_>,
    targets: usize,
    values: &Values<'_>,
) -> Result<Message, AllocError> {
    let variables = counted(alloc, targets, "variable")?;
    let here = here_are(alloc, case, values)?;
    Message::of(Words::new(alloc).and(variables.as_str()).and(here.as_str()))
}

// A value that is given to what is of another type.
fn clash(
    alloc: Global,
    case: &Case<'_>,
    target: &str,
    values: &Values<'_>,
    found: &Misfit<'_>,
) -> Result<Message, AllocError> {
    let wanted = type_told(alloc, case, found.wanted)?;
    let words = Words::new(alloc)
        .and(target)
        .and(" is ")
        .and(article_of(wanted.as_str()))
        .and(wanted.as_str());
    if is_nil_at(values, found.number) {
        let mut message = Message::of(words.and(", which cannot be nil"))?;
        values.mark(found.number, &mut message);
        return Ok(message);
    }
    let right = values.is_text(alloc, case, found.number)?;
    let mut message = Message::of(words.and(", but ").and(right.as_str()))?;
    add_why(alloc, case, values, found, &mut message)?;
    Ok(message)
}

/// Whether the value of a number is `nil`.
pub(crate) fn is_nil_at(values: &Values<'_>, number: usize) -> bool {
    match values.operand(number) {
        Some(operand) => is_nil(operand),
        None => false,
    }
}

// The types of what is assigned to, in order: none for what has none.
fn target_types<'j>(
    alloc: Global,
    targets: &'j [Judged],
) -> Result<Vec<Option<&'j TypeTerm>>, AllocError> {
    let mut all = Vec::new(alloc);
    for judged in targets {
        add(&mut all, judged.value_type())?;
    }
    Ok(all)
}

// The first target that is a value without an address; none where each has one.
fn unaddressed(targets: &[Judged]) -> Option<usize> {
    let mut number: usize = 0;
    for judged in targets {
        if has_no_address(judged) {
            return Some(number);
        }
        number = number.saturating_add(1);
    }
    None
}

// Whether what is denoted is a value without an address.
fn has_no_address(judged: &Judged) -> bool {
    match judged.value() {
        Some(operand) => !operand.addressable,
        None => false,
    }
}

// Values that are assigned with `=`.
fn assigned(
    alloc: Global,
    case: &Case<'_>,
    assignment: &Assignment,
) -> Result<Option<Message>, AllocError> {
    let exprs = exprs_of(alloc, &assignment.targets)?;
    let targets = case.setting.judge(alloc, &exprs, Stand::Value)?;
    let values = given(alloc, case, &assignment.values)?;
    if exprs.len() != values.count() {
        return some_of(other_count(alloc, case, exprs.len(), &values));
    }
    if let Some(number) = unaddressed(&targets) {
        return not_assignable(alloc, case, &exprs, &targets, number);
    }
    let types = target_types(alloc, &targets)?;
    match misfit_in(alloc, case, &values, &types)? {
        Some(found) => target_told(alloc, case, &exprs, &values, &found),
        None => Ok(None),
    }
}

// A value that does not fit one of several targets.
fn target_told(
    alloc: Global,
    case: &Case<'_>,
    exprs: &[&Expr],
    values: &Values<'_>,
    found: &Misfit<'_>,
) -> Result<Option<Message>, AllocError> {
    match exprs.get(found.number) {
        Some(expr) => {
            let target = case.shown(alloc, *expr)?;
            some_of(clash(alloc, case, target.as_str(), values, found))
        }
        None => Ok(None),
    }
}

// A target that cannot be assigned to.
fn not_assignable(
    alloc: Global,
    case: &Case<'_>,
    exprs: &[&Expr],
    targets: &[Judged],
    number: usize,
) -> Result<Option<Message>, AllocError> {
    let Some(expr) = exprs.get(number) else {
        return Ok(None);
    };
    let written = case.shown(alloc, *expr)?;
    let why = why_fixed_at(targets, number);
    let mut message = Message::of(Words::new(alloc).and(written.as_str()).and(why))?;
    mark(*expr, &mut message);
    if let Some(call) = selected_call(*expr) {
        let base = case.shown(alloc, call)?;
        message.help(
            Words::new(alloc)
                .and("put ")
                .and(base.as_str())
                .and(" in a variable first"),
        )?;
    }
    Ok(Some(message))
}

// The call of whose value an expression is a field, or a field of a field; none of another expression.
fn selected_call(expr: &Expr) -> Option<&Expr> {
    match expr {
        Expr::Select(select) => match &select.operand {
            Expr::Call(_) => Some(&select.operand),
            _ => selected_call(&select.operand),
        },
        _ => None,
    }
}

// Why the target of a number cannot be assigned to.
fn why_fixed_at(targets: &[Judged], number: usize) -> &'static str {
    match targets.get(number) {
        Some(judged) => match judged.value() {
            Some(operand) => why_fixed(operand),
            None => " cannot be assigned to",
        },
        None => " cannot be assigned to",
    }
}

// Values that are given to variables of which some are new, with `:=`.
fn defined(
    alloc: Global,
    case: &Case<'_>,
    definition: &Definition,
) -> Result<Option<Message>, AllocError> {
    let idents = idents_of(alloc, &definition.names)?;
    let values = given(alloc, case, &definition.values)?;
    given_to(alloc, case, &idents, &values)
}

// Values that are given to names.
fn given_to(
    alloc: Global,
    case: &Case<'_>,
    idents: &[&Ident],
    values: &Values<'_>,
) -> Result<Option<Message>, AllocError> {
    if idents.len() != values.count() {
        return some_of(other_count(alloc, case, idents.len(), values));
    }
    if let Some(message) = nil_given(alloc, case, idents, values)? {
        return Ok(Some(message));
    }
    let types = declared_types(alloc, case, idents)?;
    let Some(found) = misfit_in(alloc, case, values, &types)? else {
        return Ok(None);
    };
    match idents.get(found.number) {
        Some(ident) => { some_of(clash(alloc, case, ident.name.as_str(), values, &found)) }
        None => Ok(None),
    }
}

// The type of the local that an identifier declares, or that it names again; none where it has none.
fn declared_type<'s>(case: &Case<'s>, ident: &Ident) -> Option<&'s TypeTerm> {
    match case.setting.declared_local(ident) {
        Some(operand) => operand_type(operand),
        None => operand_type(case.setting.local_value(ident.name.as_str())?),
    }
}

// The types of the locals that identifiers declare, or name again, in order: none for one that has none.
fn declared_types<'s>(
    alloc: Global,
    case: &Case<'s>,
    idents: &[&Ident],
) -> Result<Vec<Option<&'s TypeTerm>>, AllocError> {
    let mut all = Vec::new(alloc);
    for ident in idents {
        add(&mut all, declared_type(case, *ident))?;
    }
    Ok(all)
}

// A name without a type that is given `nil`.
fn nil_given(
    alloc: Global,
    case: &Case<'_>,
    idents: &[&Ident],
    values: &Values<'_>,
) -> Result<Option<Message>, AllocError> {
    let mut number: usize = 0;
    for ident in idents {
        if is_nil_at(values, number) && declared_type(case, *ident).is_none() {
            let mut message = nil_without_type(alloc, ident.name.as_str())?;
            values.mark(number, &mut message);
            return Ok(Some(message));
        }
        number = number.saturating_add(1);
    }
    Ok(None)
}

// A variable that is given nil and has no type.
fn nil_without_type(alloc: Global, name: &str) -> Result<Message, AllocError> {
    let mut message = Message::of(
        Words::new(alloc)
            .and("nil has no type, so ")
            .and(name)
            .and(" has none"),
    )?;
    message.help(
        Words::new(alloc)
            .and("write var ")
            .and(name)
            .and(" T, with its type"),
    )?;
    Ok(message)
}

// Values that a specification gives.
fn specified(
    alloc: Global,
    case: &Case<'_>,
    spec: &ValueSpec,
) -> Result<Option<Message>, AllocError> {
    let Some(values) = &spec.values else {
        return Ok(None);
    };
    let idents = idents_of(alloc, &spec.names)?;
    let values = given(alloc, case, &values.exprs)?;
    if case.setting.func().is_some() {
        return given_to(alloc, case, &idents, &values);
    }
    given_outside(alloc, case, &idents, &values)
}

// Values that are given to names that a package declares.
fn given_outside(
    alloc: Global,
    case: &Case<'_>,
    idents: &[&Ident],
    values: &Values<'_>,
) -> Result<Option<Message>, AllocError> {
    if idents.len() != values.count() {
        return some_of(other_count(alloc, case, idents.len(), values));
    }
    let mut names = Vec::new(alloc);
    for ident in idents {
        add(&mut names, name_of(alloc, *ident)?)?;
    }
    let judged = judged_names(alloc, case, &names)?;
    let types = target_types(alloc, &judged)?;
    let Some(found) = misfit_in(alloc, case, values, &types)? else {
        return Ok(None);
    };
    match idents.get(found.number) {
        Some(ident) => { some_of(clash(alloc, case, ident.name.as_str(), values, &found)) }
        None => Ok(None),
    }
}

/// An identifier once more.
///
/// # Errors
///
/// `AllocError` where memory is wanting.
pub(crate) fn copied(alloc: Global, ident: &Ident) -> Result<Ident, AllocError> {
    Ok(Ident {
        name: ident.name.copy(alloc)?,
        span: ident.span,
    })
}

/// A name as an expression.
///
/// # Errors
///
/// `AllocError` where memory is wanting.
pub(crate) fn name_of(alloc: Global, ident: &Ident) -> Result<Expr, AllocError> {
    Ok(Expr::Name(copied(alloc, ident)?))
}

// What names denote.
fn judged_names(alloc: Global, case: &Case<'_>, names: &[Expr]) -> Result<Vec<Judged>, AllocError> {
    let mut exprs = Vec::new(alloc);
    for name in names {
        add(&mut exprs, name)?;
    }
    case.setting.judge(alloc, &exprs, Stand::Value)
}

// The number, from 0, of the element of a literal that begins at an offset, key included.
fn element_at(elements: &[Item], offset: usize) -> Option<usize> {
    let mut number: usize = 0;
    for element in elements {
        let begin = match &element.key {
            Some(key) => key.name.span.start as usize,
            None => start(&element.value),
        };
        if begin == offset {
            return Some(number);
        }
        number = number.saturating_add(1);
    }
    None
}

// The elements of a composite literal; none of another expression.
fn elements_of(expr: &Expr) -> Option<&[Item]> {
    match expr {
        Expr::Literal(literal) => Some(literal.elements.as_slice()),
        Expr::StructLiteral(literal) => Some(literal.elements.as_slice()),
        _ => None,
    }
}

// An element of a literal at the place of a fault.
fn element(alloc: Global, case: &Case<'_>) -> Result<Option<Message>, AllocError> {
    let Some(literal) = case.literal_round(alloc)? else {
        return Ok(None);
    };
    let Some(elements) = elements_of(literal) else {
        return Ok(None);
    };
    let Some(number) = element_at(elements, case.here.offset) else {
        return Ok(None);
    };
    let judged = case.value(alloc, literal)?;
    match (judged.value_type(), elements.get(number)) {
        (Some(term), Some(item)) => element_of(alloc, case, term, number, item),
        _ => Ok(None),
    }
}

// The element of a number, from 0, of a literal of a type.
fn element_of(
    alloc: Global,
    case: &Case<'_>,
    term: &TypeTerm,
    number: usize,
    item: &Item,
) -> Result<Option<Message>, AllocError> {
    let Some(parts) = parts_of(case.setting.table().underlying(term)) else {
        return Ok(None);
    };
    let field = match &item.key {
        Some(key) => parts.number_of(key.name.name.as_str()),
        None => Some(number),
    };
    let Some(field) = field else {
        return Ok(None);
    };
    let (Some(named), Some(wanted)) = (parts.fields.get(field), parts.type_at(field)) else {
        return Ok(None);
    };
    field_told(alloc, case, named.name.as_str(), wanted, &item.value)
}

// A value that is given to a field of a type.
fn field_told(
    alloc: Global,
    case: &Case<'_>,
    name: &str,
    wanted: &TypeTerm,
    value: &Expr,
) -> Result<Option<Message>, AllocError> {
    let mut exprs = Vec::new(alloc);
    add(&mut exprs, value)?;
    let values = values_of(alloc, case, exprs)?;
    let mut types = Vec::new(alloc);
    add(&mut types, Some(wanted))?;
    match misfit_in(alloc, case, &values, &types)? {
        Some(found) => some_of(clash(alloc, case, name, &values, &found)),
        None => Ok(None),
    }
}
