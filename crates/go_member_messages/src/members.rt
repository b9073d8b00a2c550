//! What is said of selectors.

use go_case_core::diagnostic_core::{
    Message, Words, add_names, add_near, package_of_name, place_here,
};
use go_case_core::judge_core::{Judged, operand_type};
use go_case_core::{
    Case, Way, deep_pointer, has_method, is_nil, shallowest, type_of, under_told, values_told,
};
use go_operand_core::Operand;
use go_path_core::ImportPath;
use go_path_core::text_core::Rule;
use go_term_core::TypeTerm;
use go_tree_nodes::{Expr, SelectExpr};
use std::alloc::{AllocError, Global};

/// A message, as one that there is.
///
/// # Errors
///
/// `AllocError` where memory was wanting for it.
pub(crate) fn some_of(message: Result<Message, AllocError>) -> Result<Option<Message>, AllocError> {
    match message {
        Ok(message) => Ok(Some(message)),
        Err(error) => Err(error),
    }
}

/// What is said of a selector that breaks one of the rules S1 to S8; none where no more is known of it.
///
/// # Errors
///
/// `AllocError` where memory is wanting.
pub fn of_selector(
    alloc: Global,
    case: &Case<'_>,
    rule: Rule,
) -> Result<Option<Message>, AllocError> {
    let Some(select) = case.selector(alloc)? else {
        return Ok(None);
    };
    match rule {
        Rule::S8 => some_of(blank(alloc, case, select)),
        Rule::S4 => after_nothing(alloc, case, select),
        _ => after_value(alloc, case, rule, select),
    }
}

// A selector after what has no type.
fn after_nothing(
    alloc: Global,
    case: &Case<'_>,
    select: &SelectExpr,
) -> Result<Option<Message>, AllocError> {
    let judged = case.operand(alloc, select)?;
    match judged.value() {
        Some(operand) => after_nil(alloc, case, select, operand),
        None => some_of(untyped(alloc, case, select, &judged)),
    }
}

// A selector after `nil`.
fn after_nil(
    alloc: Global,
    case: &Case<'_>,
    select: &SelectExpr,
    operand: &Operand<TypeTerm>,
) -> Result<Option<Message>, AllocError> {
    if !is_nil(operand) {
        return Ok(None);
    }
    let words = selector(alloc, case, select)?;
    some_of(Message::of(words.and("nil has no members")))
}

// A selector after what is a value.
fn after_value(
    alloc: Global,
    case: &Case<'_>,
    rule: Rule,
    select: &SelectExpr,
) -> Result<Option<Message>, AllocError> {
    let judged = case.operand(alloc, select)?;
    match judged.value() {
        Some(operand) => of_value(alloc, case, rule, select, operand),
        None => Ok(None),
    }
}

// A selector after a value.
fn of_value(
    alloc: Global,
    case: &Case<'_>,
    rule: Rule,
    select: &SelectExpr,
    operand: &Operand<TypeTerm>,
) -> Result<Option<Message>, AllocError> {
    if is_nil(operand) {
        return after_nil(alloc, case, select, operand);
    }
    let told = type_of(alloc, case, operand)?;
    let told = told.as_str();
    match rule {
        Rule::S1 => some_of(no_member(alloc, case, select, told)),
        Rule::S2 => some_of(ambiguous(alloc, case, select, operand, told)),
        Rule::S3 => some_of(hidden(alloc, case, select, operand, told)),
        Rule::S5 => some_of(no_address(alloc, case, select, operand, told)),
        Rule::S6 => some_of(after_pointer(alloc, case, select, operand, told)),
        Rule::S7 => some_of(defined_pointer(alloc, case, select, operand, told)),
        _ => Ok(None),
    }
}

// The first words of what is said of a selector: itself, and a colon.
fn selector(alloc: Global, case: &Case<'_>, select: &SelectExpr) -> Result<Words, AllocError> {
    let operand = case.shown(alloc, &select.operand)?;
    let words = Words::new(alloc)
        .and(operand.as_str())
        .and(".")
        .and(select.name.name.as_str())
        .and(": ");
    Ok(words)
}

// A selector that finds nothing.
fn no_member(
    alloc: Global,
    case: &Case<'_>,
    select: &SelectExpr,
    told: &str,
) -> Result<Message, AllocError> {
    let name = select.name.name.as_str();
    let words = selector(alloc, case, select)?;
    let mut message = Message::of(words.and(told).and(" has no field or method ").and(name))?;
    if !add_near(alloc, &case.here, name, &mut message)? {
        add_names(alloc, &case.here, "it has ", &mut message)?;
    }
    add_hidden_package(alloc, case, select, &mut message)?;
    Ok(message)
}

// Adds that a local hides the package of its name.
fn add_hidden_package(
    alloc: Global,
    case: &Case<'_>,
    select: &SelectExpr,
    message: &mut Message,
) -> Result<(), AllocError> {
    let Expr::Name(ident) = &select.operand else {
        return Ok(());
    };
    let name = ident.name.as_str();
    let Some(path) = package_of_name(&case.here, name) else {
        return Ok(());
    };
    match case.setting.local(name) {
        Some(offset) => {
            let place = place_here(alloc, &case.here, offset)?;
            message.note(
                Words::new(alloc)
                    .and(name)
                    .and(" is declared at ")
                    .and(place.as_str())
                    .and(", and hides package ")
                    .and(path.as_str()),
            )
        }
        None => Ok(()),
    }
}

/// How many ways to a member are told.
const MOST_WAYS: usize = 4;

// Ways to members in a sentence, each after a piece in front of it.
fn joined(
    alloc: Global,
    ways: &[Way<'_>],
    front: &str,
    between: &str,
) -> Result<String, AllocError> {
    let mut text = String::new(alloc);
    let mut number: usize = 0;
    for way in ways {
        if number > 0 {
            text.push_str(between)?;
        }
        if number == MOST_WAYS {
            text.push_str("others")?;
            return Ok(text);
        }
        text.push_str(front)?;
        text.push_str(way.path.as_str())?;
        number = number.saturating_add(1);
    }
    Ok(text)
}

// Whether each of some ways may be written at the place.
fn are_open(ways: &[Way<'_>]) -> bool {
    for way in ways {
        if !way.is_open {
            return false;
        }
    }
    ways.len() <= MOST_WAYS
}

// The ways to the members of a name that the type of an operand has itself or by embedded fields at the least depth: those that are seen at the place, or those that are not.
fn ways_to<'t>(
    alloc: Global,
    case: &'t Case<'_>,
    operand: &'t Operand<TypeTerm>,
    name: &str,
    is_seen: bool,
) -> Result<Vec<Way<'t>>, AllocError> {
    let table = case.setting.table();
    match operand_type(operand) {
        Some(term) => shallowest(alloc, table, term, name, case.here.path(), is_seen),
        None => Ok(Vec::new(alloc)),
    }
}

// A selector that several embedded fields give.
fn ambiguous(
    alloc: Global,
    case: &Case<'_>,
    select: &SelectExpr,
    operand: &Operand<TypeTerm>,
    told: &str,
) -> Result<Message, AllocError> {
    let name = select.name.name.as_str();
    let written = case.shown(alloc, &select.operand)?;
    let words = Words::new(alloc)
        .and(written.as_str())
        .and(".")
        .and(name)
        .and(" is ambiguous: ")
        .and(told);
    let ways = ways_to(alloc, &*case, &*operand, name, true)?;
    if ways.len() < 2 {
        return Message::of(words.and(" has it by several embedded fields"));
    }
    let by = joined(alloc, &ways, "", " and ")?;
    let mut message = Message::of(words.and(" has it by ").and(by.as_str()))?;
    if are_open(&ways) {
        let front = Words::new(alloc).and(written.as_str()).and(".").text()?;
        let instead = joined(alloc, &ways, front.as_str(), " or ")?;
        message.help(Words::new(alloc).and("write ").and(instead.as_str()))?;
    }
    Ok(message)
}

/// Adds the package in which a name alone is seen.
///
/// # Errors
///
/// `AllocError` where memory is wanting.
pub(crate) fn add_package(
    alloc: Global,
    name: &str,
    path: &ImportPath,
    message: &mut Message,
) -> Result<(), AllocError> {
    message.note(
        Words::new(alloc)
            .and(name)
            .and(" may be used only in package ")
            .and(path.as_str()),
    )
}

// Adds the package in which alone the member of a name is seen that another package hides.
fn add_hiding(
    alloc: Global,
    ways: &[Way<'_>],
    name: &str,
    message: &mut Message,
) -> Result<(), AllocError> {
    let Some(way) = ways.first() else {
        return Ok(());
    };
    match way.owner.path() {
        Some(path) => add_package(alloc, name, path, message),
        None => Ok(()),
    }
}

// A selector that finds what another package hides.
fn hidden(
    alloc: Global,
    case: &Case<'_>,
    select: &SelectExpr,
    operand: &Operand<TypeTerm>,
    told: &str,
) -> Result<Message, AllocError> {
    let name = select.name.name.as_str();
    let words = selector(alloc, case, select)?;
    let mut message = Message::of(
        words
            .and(name)
            .and(" of ")
            .and(told)
            .and(" is not exported"),
    )?;
    let ways = ways_to(alloc, &*case, &*operand, name, false)?;
    add_hiding(alloc, &ways, name, &mut message)?;
    if !add_near(alloc, &case.here, name, &mut message)? {
        add_names(alloc, &case.here, "seen here: ", &mut message)?;
    }
    Ok(message)
}

// A selector after what is no single value with a type.
fn untyped(
    alloc: Global,
    case: &Case<'_>,
    select: &SelectExpr,
    judged: &Judged,
) -> Result<Message, AllocError> {
    let words = selector(alloc, case, select)?;
    let operand = case.shown(alloc, &select.operand)?;
    let words = words.and(operand.as_str());
    if let Some(count) = judged.count() {
        let values = values_told(alloc, count)?;
        return Message::of(words.and(" gives ").and(values.as_str()));
    }
    if is_function(alloc, case, select)? {
        return of_function(alloc, words, operand.as_str());
    }
    match judged {
        Judged::Typeless => Message::of(words.and(
            " has no type, since what gives it one has a fault",
        )),
        Judged::Face(_)
        | Judged::Several(_)
        | Judged::Nothing
        | Judged::Package
        | Judged::Builtin(_)
        | Judged::Refused => Message::of(words.and(" has a fault itself, and so no type")),
    }
}

// A selector after a function.
fn of_function(alloc: Global, words: Words, operand: &str) -> Result<Message, AllocError> {
    let mut message = Message::of(words.and(" is a function, which has no members"))?;
    message.help(
        Words::new(alloc)
            .and("to call it, write ")
            .and(operand)
            .and("(..)"),
    )?;
    Ok(message)
}

// Whether what stands left of a dot is a function or a method.
fn is_function(alloc: Global, case: &Case<'_>, select: &SelectExpr) -> Result<bool, AllocError> {
    let judged = case.callee(alloc, &select.operand)?;
    Ok(judged.signature().is_some())
}

// Whether the type of an operand has the method of a name itself, declared with a receiver.
fn has_own_method(case: &Case<'_>, operand: &Operand<TypeTerm>, name: &str) -> bool {
    match operand_type(operand) {
        Some(term) => has_method(case.setting.table(), term, name),
        None => false,
    }
}

// A method of pointers after a value without an address.
fn no_address(
    alloc: Global,
    case: &Case<'_>,
    select: &SelectExpr,
    operand: &Operand<TypeTerm>,
    told: &str,
) -> Result<Message, AllocError> {
    let name = select.name.name.as_str();
    let words = selector(alloc, case, select)?;
    let words = words
        .and("method ")
        .and(name)
        .and(" has a pointer receiver");
    let words = if has_own_method(case, operand, name) {
        words.and(" (*").and(told).and("), and ")
    } else {
        words.and(", and ")
    };
    let written = case.shown(alloc, &select.operand)?;
    let mut message = Message::of(words.and(written.as_str()).and(" has no address"))?;
    let help = Words::new(alloc);
    let help = if is_literal(&select.operand) {
        help.and("write (&")
            .and(written.as_str())
            .and(").")
            .and(name)
    } else {
        help.and("put the value in a variable first")
    };
    message.help(help)?;
    Ok(message)
}

// Whether an expression is a composite literal.
fn is_literal(expr: &Expr) -> bool {
    matches!(expr, Expr::Literal(_) | Expr::StructLiteral(_))
}

// What a pointer that has no members is, in a sentence.
fn pointer_told(case: &Case<'_>, operand: &Operand<TypeTerm>) -> &'static str {
    let found = match operand_type(operand) {
        Some(term) => deep_pointer(case.setting.table(), term),
        None => None,
    };
    match found {
        Some(told) => told,
        None => "a pointer",
    }
}

// Whether what a pointer points to has one member of a name at the least depth.
fn has_after_star<'t>(
    alloc: Global,
    case: &'t Case<'_>,
    operand: &'t Operand<TypeTerm>,
    name: &str,
) -> Result<bool, AllocError> {
    let table = case.setting.table();
    let Some(term) = operand_type(operand) else {
        return Ok(false);
    };
    match table.underlying(term) {
        TypeTerm::Pointer(target) => {
            let ways = shallowest(alloc, table, &**target, name, case.here.path(), true)?;
            Ok(ways.len() == 1)
        }
        TypeTerm::NoType => Ok(false),
        TypeTerm::Basic(_) => Ok(false),
        TypeTerm::Error => Ok(false),
        TypeTerm::Defined(_) => Ok(false),
        TypeTerm::Struct(_, _, _) => Ok(false),
        TypeTerm::Interface(_, _) => Ok(false),
    }
}

// A selector after a pointer to a pointer or to an interface.
fn after_pointer(
    alloc: Global,
    case: &Case<'_>,
    select: &SelectExpr,
    operand: &Operand<TypeTerm>,
    told: &str,
) -> Result<Message, AllocError> {
    let words = selector(alloc, case, select)?;
    let mut message = Message::of(
        words
            .and(told)
            .and(" is ")
            .and(pointer_told(case, operand))
            .and(", and has no members"),
    )?;
    if has_after_star(alloc, &*case, &*operand, select.name.name.as_str())? {
        add_dereferenced(alloc, case, select, &mut message)?;
    }
    Ok(message)
}

// Adds a star in front of what stands left of a dot.
fn add_dereferenced(
    alloc: Global,
    case: &Case<'_>,
    select: &SelectExpr,
    message: &mut Message,
) -> Result<(), AllocError> {
    let operand = case.shown(alloc, &select.operand)?;
    message.help(
        Words::new(alloc)
            .and("write (*")
            .and(operand.as_str())
            .and(").")
            .and(select.name.name.as_str()),
    )
}

// A method after a value of a defined pointer type.
fn defined_pointer(
    alloc: Global,
    case: &Case<'_>,
    select: &SelectExpr,
    operand: &Operand<TypeTerm>,
    told: &str,
) -> Result<Message, AllocError> {
    let words = selector(alloc, case, select)?;
    let words = words.and(told).and(" is defined as a pointer type");
    let target = match operand_type(operand) {
        Some(term) => target_told(alloc, &*case, &*term)?,
        None => String::new(alloc),
    };
    let mut message = Message::of(
        words
            .and(target.as_str())
            .and(": it has the fields of what it points to, and no methods"),
    )?;
    add_dereferenced(alloc, case, select, &mut message)?;
    Ok(message)
}

// What a defined pointer type is, after a comma; nothing where it is another type.
fn target_told<'t>(
    alloc: Global,
    case: &'t Case<'_>,
    term: &'t TypeTerm,
) -> Result<String, AllocError> {
    match case.setting.table().underlying(term) {
        TypeTerm::Pointer(_) => {
            let told = under_told(alloc, case, term)?;
            Words::new(alloc).and(", ").and(told.as_str()).text()
        }
        TypeTerm::NoType => Ok(String::new(alloc)),
        TypeTerm::Basic(_) => Ok(String::new(alloc)),
        TypeTerm::Error => Ok(String::new(alloc)),
        TypeTerm::Defined(_) => Ok(String::new(alloc)),
        TypeTerm::Struct(_, _, _) => Ok(String::new(alloc)),
        TypeTerm::Interface(_, _) => Ok(String::new(alloc)),
    }
}

// A selector of the blank identifier.
fn blank(alloc: Global, case: &Case<'_>, select: &SelectExpr) -> Result<Message, AllocError> {
    let words = selector(alloc, case, select)?;
    Message::of(words.and("_ names no member"))
}
