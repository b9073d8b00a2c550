//! What is told of what is wrong in files.

use crate::related::related_place;
use crate::remarks::{add_unused, unread_value, unused_in};
use go_cause_core::{Cause, causes};
use go_diagnostic_core::snap_core::{PlacedFault, Snapshot};
use go_diagnostic_core::{LineKind, Marked, MessageLine};
use go_explain_core::meaning;
use go_graph_core::SourceFile;
use go_mismatch_core::{FileMessages, is_of_types};
use go_path_core::ImportPath;
use go_path_core::text_core::Rule;
use govisd_documents::{
    Document, FileName, Hidden, Session, ToldFile, has_word, is_own, number_of, token_at,
    token_end, told_file, told_range,
};
use govisd_protocol::{Stop, send_note};
use serde_json::{Value, json};
use std::alloc::{AllocError, Global};
use std::collections::BTreeMap;
use std::io::Write;

/// The severities of the protocol.
const ERROR: u8 = 1;

const INFORMATION: u8 = 3;

/// Behind how many diagnostics of an open file no message is said any more. Of a further fault, and of one in a file that is not open, it is said what the rule means.
const IN_FULL: usize = 64;

/// What is said of an import of the standard library.
const UNKNOWN_LIBRARY: &str =
    "the packages of the standard library are not known; what is used of this one is not checked";

/// The path that the token of an import's string writes, between its quotes. None where the token is no whole string.
pub(crate) fn path_in(token: &str) -> Option<&str> {
    for quote in ['"', '`'] {
        if let Some(rest) = token.strip_prefix(quote) {
            return rest.strip_suffix(quote);
        }
    }
    None
}

// Whether the string of an import names a package that is below no module of the workspace.
fn names_other(session: &Session, token: &str) -> bool {
    match path_in(token) {
        Some(path) => !is_own(session.modules.as_slice(), path),
        None => false,
    }
}

// Whether the string of an import names a package of the standard library: it is below no module, and the first element of its path has no dot.
fn names_library(session: &Session, token: &str) -> bool {
    let Some(path) = path_in(token) else {
        return false;
    };
    if !names_other(session, token) {
        return false;
    }
    match path.split_once('/') {
        Some((first, _)) => !first.contains('.'),
        None => !path.contains('.'),
    }
}

// The bytes of a text from one offset up to another, as far as there are any.
fn piece(bytes: &[u8], start: usize, end: usize) -> &[u8] {
    let (front, _) = bytes.split_at(end.min(bytes.len()));
    let (_, piece) = front.split_at(start.min(front.len()));
    piece
}

// Whether a fault lies in a part that is blanked, or at its end.
fn is_hidden(hidden: &Hidden, offset: usize) -> bool {
    for part in &hidden.parts {
        if part.start <= offset && offset <= part.end.saturating_add(1) {
            return true;
        }
    }
    false
}

/// Whether a fault of a file is to be told, given what is blanked in the file's text, if anything is: not where the fault lies in what is blanked, nor where it may
/// come of the blanks alone.
pub(crate) fn is_shown(hidden: Option<&Hidden>, fault: PlacedFault) -> bool {
    let Some(hidden) = hidden else {
        return true;
    };
    match fault.rule {
        Rule::I7 | Rule::Y5 => false,
        _ => !is_hidden(hidden, fault.offset),
    }
}

// Whether a name stands in a part of a text that is blanked.
fn hides_word(document: &Document, name: &[u8]) -> bool {
    let Some(hidden) = &document.hidden else {
        return false;
    };
    let bytes = document.text.as_bytes();
    for part in &hidden.parts {
        if has_word(piece(bytes, part.start, part.end), name) {
            return true;
        }
    }
    false
}

// Whether the rule is one of a name that has no declaration.
fn is_of_missing(rule: Rule) -> bool {
    matches!(rule, Rule::N1 | Rule::N2 | Rule::N3 | Rule::S1 | Rule::F1)
}

// Whether a name that has no declaration stands in what is blanked of an open file.
fn is_hidden_name(session: &Session, rule: Rule, name: &[u8]) -> bool {
    if !is_of_missing(rule) {
        return false;
    }
    for document in session.documents.values() {
        if hides_word(document, name) {
            return true;
        }
    }
    false
}

/// What is said of a fault.
#[derive(Drop)]
struct Said {
    severity: u8,
    text: String,
    related: Vec<Value>,
    /// The part of the file's text that is amiss; none where that is the token at the place of the fault.
    marked: Option<Marked>,
}

// What is told of a fault, as a diagnostic of the protocol; the offsets are in bytes of the file's text.
fn diagnostic(
    session: &Session,
    file: &ToldFile<'_>,
    start: usize,
    end: usize,
    rule: Rule,
    said: Said,
) -> Result<Value, AllocError> {
    let alloc = session.alloc;
    let range = told_range(alloc, session, file, start, end)?;
    let code = rule.number();
    let Said {
        severity,
        text,
        related,
        marked: _,
    } = said;
    let related = Value::Array(related);
    json!(in alloc; {"range": range, "relatedInformation": related, "message": text, "severity": severity, "code": code, "source": "govisd"})
}

// What is said by a sentence alone.
fn said_by(alloc: Global, severity: u8, text: &str) -> Result<Said, AllocError> {
    Ok(Said {
        severity,
        text: String::from_str(alloc, text)?,
        related: Vec::new(alloc),
        marked: None,
    })
}

// The word that a line of a message begins with.
fn kind_word(kind: LineKind) -> &'static str {
    match kind {
        LineKind::First => "first: ",
        LineKind::Declared => "declared: ",
        LineKind::Have => "have: ",
        LineKind::Want => "want: ",
        LineKind::Note => "note: ",
        LineKind::Help => "help: ",
    }
}

// What a place beside a fault is.
fn place_word(kind: LineKind) -> &'static str {
    match kind {
        LineKind::First => "the first is here",
        _ => "it is declared here",
    }
}

// Adds a line of a message: the place that it names, or else its words.
fn add_line(
    session: &Session,
    said: &mut Said,
    module: &str,
    line: &MessageLine,
) -> Result<(), AllocError> {
    if matches!(line.kind, LineKind::First | LineKind::Declared) {
        let word = place_word(line.kind);
        if let Some(place) = related_place(session, module, line.text.as_str(), word)? {
            said.related.push(place)?;
            return Ok(());
        }
    }
    said.text.push_str("\n")?;
    said.text.push_str(kind_word(line.kind))?;
    said.text.push_str(line.text.as_str())
}

// Adds what a rule means, where that was not said.
fn add_meaning(said: &mut Said, rule: Rule, before: &str) -> Result<(), AllocError> {
    let words = meaning(rule);
    if words == before {
        return Ok(());
    }
    said.text.push_str("\n")?;
    said.text.push_str(rule.number())?;
    said.text.push_str(": ")?;
    said.text.push_str(words)
}

// What is said of the fault of a text that does not parse: what was met there and what helps, or else what its rule means.
fn said_of_text(alloc: Global, hidden: &Hidden) -> Result<Said, AllocError> {
    if hidden.said.is_empty() {
        return said_by(alloc, ERROR, meaning(hidden.fault.rule));
    }
    said_by(alloc, ERROR, hidden.said.as_str())
}

// What is said of a fault of an open file: its message, and what its rule means.
fn said_in_full(
    session: &Session,
    messages: &FileMessages<'_>,
    package: &str,
    fault: PlacedFault,
) -> Result<Said, AllocError> {
    let alloc = session.alloc;
    let module = session.module_path(package);
    let told = messages.message(alloc, module, &fault)?;
    let mut said = said_by(alloc, ERROR, told.headline.as_str())?;
    said.marked = told.marked;
    for line in &told.lines {
        add_line(session, &mut said, module, line)?;
    }
    add_meaning(&mut said, fault.rule, told.headline.as_str())?;
    Ok(said)
}

// Whether help is said of a fault.
fn has_help(said: &Said) -> bool {
    said.text.as_str().contains("\nhelp: ")
}

// What is said of a fault behind so many that are told: its message where there are messages, and else what its rule means.
fn said_of_fault(
    session: &Session,
    messages: Option<&FileMessages<'_>>,
    count: usize,
    package: &str,
    fault: PlacedFault,
) -> Result<Said, AllocError> {
    match messages {
        Some(messages) if count < IN_FULL => said_in_full(session, messages, package, fault),
        _ => said_by(session.alloc, ERROR, meaning(fault.rule)),
    }
}

// What is said of a fault at a token, behind so many that are told. An import of a package that is not known is no error: of one of the standard library it is
// said alone that it is not known, and one of another module is an information too, but where another path helps.
fn said_of(
    session: &Session,
    messages: Option<&FileMessages<'_>>,
    count: usize,
    package: &str,
    fault: PlacedFault,
    token: &str,
) -> Result<Said, AllocError> {
    if !matches!(fault.rule, Rule::I2) {
        return said_of_fault(session, messages, count, package, fault);
    }
    if names_library(session, token) {
        return said_by(session.alloc, INFORMATION, UNKNOWN_LIBRARY);
    }
    let mut said = said_of_fault(session, messages, count, package, fault)?;
    if names_other(session, token) && !has_help(&said) {
        said.severity = INFORMATION;
    }
    Ok(said)
}

// Adds what is told of a fault of a file.
fn add_fault(
    session: &Session,
    all: &mut Vec<Value>,
    file: &ToldFile<'_>,
    messages: Option<&FileMessages<'_>>,
    package: &str,
    fault: PlacedFault,
) -> Result<(), AllocError> {
    let token = token_at(file.text(), fault.offset);
    if is_hidden_name(session, fault.rule, token.as_bytes()) {
        return Ok(());
    }
    let said = said_of(session, messages, all.len(), package, fault, token)?;
    let (start, end) = match said.marked {
        Some(marked) => (marked.start, marked.end),
        None => (
            fault.offset,
            token_end(file.text().as_bytes(), fault.offset),
        ),
    };
    all.push(diagnostic(session, file, start, end, fault.rule, said)?)?;
    Ok(())
}

// Whether one of these faults has a rule of types.
fn have_types(faults: &[PlacedFault]) -> bool {
    for fault in faults {
        if is_of_types(fault.rule) {
            return true;
        }
    }
    false
}

// The messages of the faults of an open file; none of a file that is not open, and where there is no fault.
fn messages_of<'s>(
    session: &'s Session,
    file: &ToldFile<'_>,
    faults: &[PlacedFault],
) -> Result<Option<FileMessages<'s>>, AllocError> {
    if !file.is_open {
        return Ok(None);
    }
    match faults.first() {
        Some(first) => {
            FileMessages::of(session.alloc, &session.snapshot, first, have_types(faults))
        }
        None => Ok(None),
    }
}

// Adds what is told of the faults of a file.
fn add_faults(
    session: &Session,
    all: &mut Vec<Value>,
    file: &ToldFile<'_>,
    package: &str,
    hidden: Option<&Hidden>,
    faults: &[PlacedFault],
) -> Result<(), AllocError> {
    let found = match messages_of(session, file, faults) {
        Ok(found) => found,
        Err(error) => return Err(error),
    };
    for fault in faults {
        if is_shown(hidden, *fault) {
            add_fault(session, all, file, found.as_ref(), package, *fault)?;
        }
    }
    Ok(())
}

/// What is blanked in the text of the open file at a path. None where the path is of no open file, or the text is compiled as it is.
pub(crate) fn hidden_in<'s>(session: &'s Session, path: &str) -> Option<&'s Hidden> {
    match session.documents.get(path) {
        Some(document) => document.hidden.as_ref(),
        None => None,
    }
}

// What is told of a file: the fault of its text where it does not parse, the faults that the snapshot has, and where it is open the variables that nothing uses.
fn told_of<'s>(
    session: &'s Session,
    package: &ImportPath,
    source: &'s SourceFile,
    path: &str,
    faults: &[PlacedFault],
) -> Result<Value, AllocError> {
    let mut all = Vec::new(session.alloc);
    let hidden = hidden_in(session, path);
    let unused = unused_in(session, package, source, path)?;
    if hidden.is_none() && faults.is_empty() && unused.is_empty() {
        return Ok(Value::Array(all));
    }
    let file = told_file(session, package, source)?;
    if let Some(hidden) = hidden {
        let fault = hidden.fault;
        let end = token_end(file.text().as_bytes(), fault.offset);
        let said = said_of_text(session.alloc, hidden)?;
        all.push(diagnostic(session, &file, fault.offset, end, fault.rule, said)?)?;
    }
    add_faults(session, &mut all, &file, package.as_str(), hidden, faults)?;
    add_unused(session, &mut all, &file, unused.as_slice())?;
    Ok(Value::Array(all))
}

// How many faults at the front lie in the file of the first one.
fn count_beside(faults: &[PlacedFault]) -> usize {
    let Some(first) = faults.first() else {
        return 0;
    };
    for (at, fault) in faults.iter().enumerate() {
        if fault.package != first.package || fault.file != first.file {
            return at;
        }
    }
    faults.len()
}

// Whether a fault lies in a file before that of another one.
fn is_before(fault: PlacedFault, other: PlacedFault) -> bool {
    if fault.package == other.package {
        fault.file < other.file
    } else {
        fault.package < other.package
    }
}

// Of faults in order those from the file of a fault on.
fn from_file(faults: &[PlacedFault], first: PlacedFault) -> &[PlacedFault] {
    for (at, fault) in faults.iter().enumerate() {
        if !is_before(*fault, first) {
            let (_, rest) = faults.split_at(at.min(faults.len()));
            return rest;
        }
    }
    &[]
}

// Whether two faults are of one rule at one place.
fn is_same(fault: PlacedFault, other: PlacedFault) -> bool {
    fault.package == other.package
        && fault.file == other.file
        && fault.offset == other.offset
        && fault.rule == other.rule
}

// Whether the first of other faults are these, those of a file, and no more of them lie in it.
fn are_first(faults: &[PlacedFault], others: &[PlacedFault]) -> bool {
    if count_beside(others) != faults.len() {
        return false;
    }
    for (at, fault) in faults.iter().enumerate() {
        match others.get(at) {
            Some(other) if is_same(*fault, *other) => {}
            _ => return false,
        }
    }
    true
}

// Whether the part of the package of a number is that of the snapshot before.
fn is_kept(session: &Session, package: usize) -> bool {
    match session.kept.get(package) {
        Some(kept) => *kept,
        None => false,
    }
}

// Whether what is told of a fault of a file that is not open may hang on what is blanked in open ones.
fn hang_on_blanks(faults: &[PlacedFault]) -> bool {
    for fault in faults {
        if is_of_missing(fault.rule) {
            return true;
        }
    }
    false
}

// Whether the same is to be told of a file as before, by its faults and by those that were told before, from its own on: it is not open and is as it was, and it
// has the same faults, of which nothing is said but what their rules mean.
fn is_told_again(
    session: &Session,
    path: &str,
    package: usize,
    faults: &[PlacedFault],
    earlier: &[PlacedFault],
) -> bool {
    is_kept(session, package)
        && are_first(faults, earlier)
        && !hang_on_blanks(faults)
        && !session.documents.contains_key(path)
}

/// What is told of files, by their paths below the module's folder; none where it is the same as before.
type Told = BTreeMap<String, Option<Value>>;

// Adds what is told of the file of some faults, where these were told before, from that file on.
fn add_file(
    session: &Session,
    told: &mut Told,
    package: usize,
    file: usize,
    faults: &[PlacedFault],
    earlier: &[PlacedFault],
) -> Result<(), AllocError> {
    let packages = session.snapshot.sources().packages();
    let Some(source) = packages.get(package) else {
        return Ok(());
    };
    let Some(text) = source.files().get(file) else {
        return Ok(());
    };
    let path = session.file_path(source.path().as_str(), text.name())?;
    let value = if is_told_again(session, path.as_str(), package, faults, earlier) {
        None
    } else {
        Some(told_of(session, source.path(), text, path.as_str(), faults)?)
    };
    match told.insert(path, value) {
        Ok(_) => Ok(()),
        Err(_) => Err(AllocError),
    }
}

// Whether a fault of this rule follows from no other one, wherever it stands.
fn is_always_root(rule: Rule) -> bool {
    match rule.number().as_bytes().first() {
        Some(b'L' | b'P' | b'E' | b'B') => true,
        _ => matches!(
            rule,
            Rule::K2
                | Rule::I1
                | Rule::I2
                | Rule::I3
                | Rule::I5
                | Rule::N1
                | Rule::N2
                | Rule::N3
                | Rule::N4
                | Rule::S2
                | Rule::S3
                | Rule::Y2
                | Rule::Y5
        ),
    }
}

// Whether each of these faults is of a rule that follows from no other one. So nothing needs to be looked for where a single name is amiss.
fn none_follows(faults: &[PlacedFault]) -> bool {
    for fault in faults {
        if !is_always_root(fault.rule) {
            return false;
        }
    }
    true
}

// The faults of the snapshot that follow from no other one, in order.
fn root_faults(session: &Session) -> Result<Vec<PlacedFault>, AllocError> {
    let faults = session.snapshot.faults();
    if faults.len() < 2 || none_follows(faults) {
        return Vec::from_slice(session.alloc, faults);
    }
    let mut all = Vec::new(session.alloc);
    let found = causes(session.alloc, &session.snapshot)?;
    let list = found.as_slice();
    for (number, fault) in faults.iter().enumerate() {
        if is_root(list, number) {
            all.push(*fault)?;
        }
    }
    Ok(all)
}

// Whether the fault of a number follows from no other one.
fn is_root(list: &[Cause], number: usize) -> bool {
    match list.get(number) {
        Some(Cause::Follows { .. }) => false,
        _ => true,
    }
}

// Adds what is told of files with faults.
fn add_faulty(
    session: &Session,
    told: &mut Told,
    faults: &[PlacedFault],
) -> Result<(), AllocError> {
    let mut rest = faults;
    let mut earlier = session.told_faults.as_slice();
    for _turn in 0..faults.len() {
        let count = count_beside(rest);
        let (own, behind) = rest.split_at(count.min(rest.len()));
        let Some(first) = own.first() else {
            return Ok(());
        };
        earlier = from_file(earlier, *first);
        add_file(session, told, first.package, first.file, own, earlier)?;
        rest = behind;
    }
    Ok(())
}

// The package and the file that a name names, whether the package is assembled or not.
fn file_named<'s>(
    snapshot: &'s Snapshot,
    name: &FileName,
) -> Option<(&'s ImportPath, &'s SourceFile)> {
    let number = number_of(snapshot, &name.package)?;
    let package = snapshot.sources().packages().get(number)?;
    for source in package.files() {
        if source.name() == name.name.as_str() {
            return Some((package.path(), source));
        }
    }
    None
}

// What is told of an open file that has no fault in the snapshot.
fn told_of_open(session: &Session, path: &str) -> Result<Value, AllocError> {
    if let Some(name) = session.name_of(path)? {
        if let Some((package, source)) = file_named(&session.snapshot, &name) {
            return told_of(session, package, source, path, &[]);
        }
    }
    unread_value(session.alloc, path)
}

// Adds what is told of an open file that has no fault in the snapshot.
fn add_open(session: &Session, told: &mut Told, path: &str) -> Result<(), AllocError> {
    if told.contains_key(path) {
        return Ok(());
    }
    let value = told_of_open(session, path)?;
    let own = String::from_str(session.alloc, path)?;
    match told.insert(own, Some(value)) {
        Ok(_) => Ok(()),
        Err(_) => Err(AllocError),
    }
}

// Adds that nothing is wrong in a file of which something was told.
fn add_mended(alloc: Global, told: &mut Told, path: &str) -> Result<(), AllocError> {
    if told.contains_key(path) {
        return Ok(());
    }
    let own = String::from_str(alloc, path)?;
    match told.insert(own, Some(Value::Array(Vec::new(alloc)))) {
        Ok(_) => Ok(()),
        Err(_) => Err(AllocError),
    }
}

// What is to be told of all files of which something is or was told, and of those that are open, where these are the faults that are to be told.
fn all_told(session: &Session, faults: &[PlacedFault]) -> Result<Told, AllocError> {
    let mut told = BTreeMap::new(session.alloc);
    add_faulty(session, &mut told, faults)?;
    for path in session.documents.keys() {
        add_open(session, &mut told, path.as_str())?;
    }
    for path in session.told.keys() {
        add_mended(session.alloc, &mut told, path.as_str())?;
    }
    Ok(told)
}

// The parameters that tell what is wrong in a file, with the version of its text where it is open.
fn params_of(session: &Session, path: &str, faults: &Value) -> Result<Value, AllocError> {
    let alloc = session.alloc;
    let uri = session.uri_of(path)?;
    match session.documents.get(path) {
        Some(document) => {
            let version = document.version;
            json!(in alloc; {"uri": uri, "version": version, "diagnostics": faults})
        }
        None => json!(in alloc; {"uri": uri, "diagnostics": faults}),
    }
}

// Keeps what was told of a file; of one in which nothing is wrong and that is not open nothing is kept.
fn remember(
    session: &mut Session,
    path: String,
    text: String,
    is_none: bool,
) -> Result<(), AllocError> {
    if is_none && !session.documents.contains_key(path.as_str()) {
        let _before = session.told.remove(path.as_str());
        return Ok(());
    }
    match session.told.insert(path, text) {
        Ok(_) => Ok(()),
        Err(_) => Err(AllocError),
    }
}

// Whether the same was told of a file before.
fn is_told(session: &Session, path: &str, text: &str) -> bool {
    match session.told.get(path) {
        Some(before) => before.as_str() == text,
        None => false,
    }
}

// Whether a value is no list with something in it.
fn is_empty_list(value: &Value) -> bool {
    match value.as_array() {
        Some(list) => list.is_empty(),
        None => true,
    }
}

// Tells what is wrong in a file, where that was not told before.
fn tell<W: Write>(
    writer: &mut W,
    session: &mut Session,
    path: String,
    faults: &Value,
) -> Result<(), Stop> {
    let params = params_of(session, path.as_str(), faults)?;
    let text = params.to_string(session.alloc)?;
    if is_told(session, path.as_str(), text.as_str()) {
        return Ok(());
    }
    send_note(
        session.alloc,
        writer,
        "textDocument/publishDiagnostics",
        params,
    )?;
    remember(session, path, text, is_empty_list(faults))?;
    Ok(())
}

/// Sends `textDocument/publishDiagnostics` for each file of which not the same was sent before, in byte order of the files' paths, and keeps in the session what was
/// sent. Each file with a fault has its diagnostics, an open one its version; an open file without a fault, and one whose faults are gone, has an empty list.
///
/// # Errors
///
/// A [`Stop`] where memory is wanting or the writer fails; what was sent up to there stays sent.
pub fn publish<W: Write>(writer: &mut W, session: &mut Session) -> Result<(), Stop> {
    let faults = root_faults(session)?;
    let told = all_told(session, faults.as_slice())?;
    session.told_faults = faults;
    for (path, value) in told {
        if let Some(list) = value {
            tell(writer, session, path, &list)?;
        }
    }
    Ok(())
}
