//! How faults are written.
ghost use Rattle.std.specs.Prelude.{◌≡◌, ◌++◌, ◌-◌, ◌<◌, ◌≤◌, [], All, IfOk, IsTrue, OnOk, length, option_map, string_bytes, take, true};
ghost use Rattle.go_folder_core.specs.Folders.{joined_path};
ghost use Rattle.go_diagnostic_core.specs.snap_core.Faults.{LiesIn};
ghost use Rattle.go_diagnostic_core.specs.snap_core.Snapshots.{IsSnapshot};
ghost use Rattle.govisd_disk.specs.Scopes.{packages_in, source_at};
ghost use Rattle.govisd_folders.specs.Selecting.{shown_in, told_by, told_in};
ghost use Rattle.govisd_folders.specs.Telling.{AddsFault, AddsLines, AddsReport, AreTold, IsPlacedIn, IsReport, LiesTold, count_text, ending_text, faults_text, file_text, full_text, head_text, hidden_text, packages_text, several_text, shows_all, told_at};

use crate::lines::{push_beside, push_form};
use crate::looks::Look;
use crate::selecting::{Told, follows, joined_by, shown_in, told_by, told_in};
use crate::spots::{Spot, push_fault_place, push_fault_spot};
use crate::unused::{Beside, unused_in};
use crate::words::{Words, words_of};
use go_cause_core::{Cause, causes, repeated_names};
use go_diagnostic_core::snap_core::{PlacedFault, Snapshot, faults_lie_in_files};
use go_diagnostic_core::{LineKind, Message};
use go_folder_core::{Format, LineCounter, Position, below};
use go_graph_core::SourceFile;
use go_mismatch_core::{FileMessages, is_of_types, message_below};
use go_path_core::text_core::Rule;
use govisd_disk::{STAND_IN, Scope, folder_of, packages_in, push, push_number, source_of};
use std::alloc::{AllocError, Global};

/// Of how many faults the message is told; of others, what the rule means.
const IN_FULL: usize = 300;

/// How many bytes may be gone through for the messages of a file: each goes through the whole file. The first one is always told.
const MESSAGE_BYTES: usize = 2_000_000;

/// Of how many faults the line of the source is shown.
const WITH_SOURCE: usize = 50;

/// At how many other places of a name that is not declared it is said that it stands there, too.
const OTHER_PLACES: usize = 3;

/// What faults are written of, and how.
#[derive(Clone, Copy)]
pub struct Page<'a> {
    /// How.
    pub look: Look,
    /// The part of the module that is told of.
    pub scope: Scope<'a>,
    /// The path of the folder as it was given, for tools that read paths from where the program runs; or nothing.
    pub given: &'a str,
}

// Adds a line to a message.
fn add_note(message: &mut Message, text: String) -> Result<(), AllocError> {
    message.at(LineKind::Note, Some(text))
}

/// A file in which faults lie that are written, and what is written of all of them.
struct Sheet<'s, 'f> {
    page: &'s Page<'s>,
    snapshot: &'s Snapshot,
    /// The faults of names that stand at several places, but for the first of each name.
    again: &'s [Told],
    /// The path of its package.
    package: &'s str,
    /// The path of the file, as it is written.
    file: &'f str,
    text: &'s str,
    /// How many faults stand before its first one.
    before: usize,
    /// The messages of its faults; none where no fault of it is told in full.
    messages: Option<FileMessages<'s>>,
}

impl Drop for Sheet<'_, '_> {
    fn drop(self) {
        let Sheet {
            page: _,
            snapshot: _,
            again: _,
            package: _,
            file: _,
            text: _,
            before: _,
            messages: _,
        } = self;
    }
}

// That a fault follows from another.
fn note_root(
    alloc: Global,
    page: &Page<'_>,
    snapshot: &Snapshot,
    message: &mut Message,
    root: PlacedFault,
) -> Result<(), AllocError> {
    let mut text = String::from_str(alloc, "follows from ")?;
    push_fault_place(alloc, &mut text, &page.scope, snapshot.sources(), root)?;
    add_note(message, text)
}

// Whether a fault is of the name that another one is of, at another place.
fn is_of_name(told: Told, first: PlacedFault) -> bool {
    if follows(told) {
        return false;
    }
    match told.root {
        Some(root) => {
            root.package == first.package && root.file == first.file && root.offset == first.offset
        }
        None => false,
    }
}

// How many places are left out of a list.
fn push_left(alloc: Global, text: &mut String, left: usize) -> Result<(), AllocError> {
    if left == 0 {
        return Ok(());
    }
    push(text, " and ")?;
    push_number(alloc, text, left)?;
    push(
        text,
        if left == 1 {
            " other place"
        } else {
            " other places"
        },
    )
}

// Those of some faults that are of a name which an earlier one is of, too.
fn repeated_in(alloc: Global, faults: &[Told]) -> Result<Vec<Told>, AllocError> {
    let mut again = Vec::new(alloc);
    for told in faults {
        if told.root.is_some() && !follows(*told) {
            again.push(*told)?;
        }
    }
    Ok(again)
}

// At which other places a name stands that is told of once, if there are any.
fn other_places(
    alloc: Global,
    page: &Page<'_>,
    snapshot: &Snapshot,
    again: &[Told],
    first: PlacedFault,
) -> Result<Option<String>, AllocError> {
    let mut text = String::from_str(alloc, "also at")?;
    let mut places: usize = 0;
    let mut left: usize = 0;
    for other in again {
        if is_of_name(*other, first) {
            if places < OTHER_PLACES {
                push(&mut text, if places == 0 { " " } else { ", " })?;
                push_fault_spot(
                    alloc,
                    &mut text,
                    &page.scope,
                    snapshot.sources(),
                    other.fault,
                )?;
                places = places.saturating_add(1);
            } else {
                left = left.saturating_add(1);
            }
        }
    }
    if places == 0 {
        return Ok(None);
    }
    push_left(alloc, &mut text, left)?;
    Ok(Some(text))
}

// Adds what a fault follows from, or at which other places its name stands.
fn note_others(
    alloc: Global,
    page: &Page<'_>,
    snapshot: &Snapshot,
    again: &[Told],
    told: Told,
    message: &mut Message,
) -> Result<(), AllocError> {
    if let Some(root) = told.root {
        if follows(told) {
            return note_root(alloc, page, snapshot, message, root);
        }
    }
    if told.fault.rule == Rule::N1 && !page.look.all {
        if let Some(text) = other_places(alloc, page, snapshot, again, told.fault)? {
            return add_note(message, text);
        }
    }
    Ok(())
}

// What is said of a file that could not be read.
fn of_unread(alloc: Global) -> Result<Message, AllocError> {
    let headline = String::from_str(
        alloc,
        "this file could not be read: standard error says why",
    )?;
    Ok(Message::new(alloc, headline))
}

// What is said of a fault of a file.
fn said_in(
    alloc: Global,
    sheet: &Sheet<'_, '_>,
    fault: &PlacedFault,
) -> Result<Message, AllocError> {
    let page = sheet.page;
    let module = page.scope.package;
    match &sheet.messages {
        Some(messages) => messages.message(alloc, module, fault),
        None => message_below(alloc, sheet.snapshot, module, fault),
    }
}

// The message of a fault, which says what the fault follows from; as JSON a member says so.
fn message_of(alloc: Global, sheet: &Sheet<'_, '_>, told: Told) -> Result<Message, AllocError> {
    let page = sheet.page;
    let mut message = if sheet.text == STAND_IN && told.fault.rule == Rule::L1 {
        of_unread(alloc)?
    } else {
        said_in(alloc, sheet, &told.fault)?
    };
    if page.look.format != Format::Json {
        note_others(alloc, page, sheet.snapshot, sheet.again, told, &mut message)?;
    }
    Ok(message)
}

// Whether the message of the fault of a number is told, where so many faults stand before the first one of its file, which has so many bytes.
fn is_in_full(number: usize, before: usize, bytes: usize) -> bool {
    let place = number.saturating_sub(before);
    number < IN_FULL && place.saturating_mul(bytes) < MESSAGE_BYTES
}

// What is said of the fault of a number after its place and its rule: of the first ones what their messages say.
fn words_at(
    alloc: Global,
    sheet: &Sheet<'_, '_>,
    at: Position,
    told: Told,
    number: usize,
) -> Result<Words, AllocError> {
    let page = sheet.page;
    let is_read = sheet.text != STAND_IN;
    let spot = Spot {
        text: if is_read { sheet.text } else { "" },
        at,
        offset: told.fault.offset,
        rule: told.fault.rule,
    };
    let look = Look {
        source: page.look.source && is_read && number < WITH_SOURCE,
        ..page.look
    };
    let scope = &page.scope;
    let workspace = sheet.snapshot.sources();
    if is_in_full(number, sheet.before, sheet.text.len()) {
        let message = message_of(alloc, sheet, told)?;
        return words_of(alloc, look, scope, workspace, &spot, told, Some(&message));
    }
    words_of(alloc, look, scope, workspace, &spot, told, None)
}

// Adds the fault of a number, after others or as the first. The lines of its file are counted on from the last place that was asked for.
fn push_fault(
    alloc: Global,
    out: &mut String,
    sheet: &Sheet<'_, '_>,
    lines: &mut LineCounter<'_>,
    told: Told,
    number: usize,
    is_first: bool,
) -> Result<(), AllocError>
    ensures added { OnOk result (AddsFault sheet.now.page.now.look sheet.now.package.now sheet.now.file.now lines.old is_first told (string_bytes out.old) (string_bytes out.new)) }
    ensures text { lines.new ≡ lines.old }
{
    let at = lines.position_of(told.fault.offset);
    let words = words_at(alloc, sheet, at, told, number)?;
    push_form(
        alloc,
        out,
        sheet.page.look.format,
        sheet.page.look.color,
        is_first,
        follows(told),
        sheet.package,
        sheet.file,
        at,
        told.fault.offset,
        told.fault.rule,
        &words,
    )
}

// The path of the package and the file in which a fault lies, if there is such a file in a snapshot.
fn source_in(snapshot: &Snapshot, fault: PlacedFault) -> Option<(&str, &SourceFile)>
    ensures { option_map (λ s. (s.0.now, s.1.now)) result ≡ source_at snapshot.now.sources fault }
{
    source_of(snapshot.sources(), fault)
}

// Whether two faults lie in the same file.
fn is_beside(one: PlacedFault, other: PlacedFault) -> bool
    ensures { IsTrue result → (one.«package» ≡ other.«package») × (one.file ≡ other.file) }
{
    one.package == other.package && one.file == other.file
}

// The path of a file as it is written in a form: from the folder, or for other tools from where the program runs.
fn file_text(alloc: Global, format: Format, given: &str, file: &str) -> Result<String, AllocError>
    ensures { IfOk result (λ path. string_bytes path ≡ file_text format given.now file.now) }
{
    match format {
        Format::Text => String::from_str(alloc, file),
        Format::Json => String::from_str(alloc, file),
        Format::Github => below(alloc, given, file),
        Format::Sarif => below(alloc, given, file),
    }
}

// Adds the first of these faults, which lies in a file, and those that follow it in the same file, whose lines are counted once. Answers how many they are.
fn push_run(
    alloc: Global,
    out: &mut String,
    sheet: &Sheet<'_, '_>,
    faults: &[Told],
    is_first: bool,
) -> Result<usize, AllocError>
    requires some { 0 < length faults.now }
    requires lies { IsPlacedIn sheet.now.page.now.look sheet.now.page.now.scope.package.now sheet.now.page.now.given.now sheet.now.snapshot.now.sources (told_at faults.now 0) sheet.now.package.now sheet.now.file.now sheet.now.text.now }
    ensures some { IfOk result (λ count. 0 < count) }
    ensures within { IfOk result (λ count. count ≤ length faults.now) }
    ensures added { IfOk result (λ count. AddsLines sheet.now.page.now.look sheet.now.page.now.scope.package.now sheet.now.page.now.given.now sheet.now.snapshot.now.sources is_first (take count faults.now) (string_bytes out.old) (string_bytes out.new)) }
{
    let first = faults[0];
    let mut lines = LineCounter::new(sheet.text);
    push_fault(alloc, out, sheet, &mut lines, first, sheet.before, is_first)?;
    for place in 1..faults.len() {
        let told = faults[place];
        if !is_beside(told.fault, first.fault) {
            return Ok(place);
        }
        let number = sheet.before.saturating_add(place);
        push_fault(alloc, out, sheet, &mut lines, told, number, false)?;
    }
    Ok(faults.len())
}

// Whether one of these faults has a rule of types, among the first ones that lie in the same file as another and are told in full. So many faults stand before them.
fn has_types(faults: &[Told], first: PlacedFault, before: usize, bytes: usize) -> bool {
    let mut number = before;
    for told in faults {
        if !is_beside(told.fault, first) || !is_in_full(number, before, bytes) {
            return false;
        }
        if is_of_types(told.fault.rule) {
            return true;
        }
        number = number.saturating_add(1);
    }
    false
}

// The messages of the file of a fault, which is the first of these; none where it is not told in full. So many faults stand before them.
fn messages_of<'s>(
    alloc: Global,
    snapshot: &'s Snapshot,
    faults: &[Told],
    first: PlacedFault,
    before: usize,
    bytes: usize,
) -> Result<Option<FileMessages<'s>>, AllocError> {
    if !is_in_full(before, before, bytes) {
        return Ok(None);
    }
    let with_types = has_types(faults, first, before, bytes);
    FileMessages::of(alloc, snapshot, &first, with_types)
}

// Adds the first of these faults and those that follow it in the same file. Answers how many they are. So many faults stand before them.
fn push_file<'s>(
    alloc: Global,
    out: &mut String,
    page: &'s Page<'s>,
    snapshot: &'s Snapshot,
    again: &'s [Told],
    faults: &[Told],
    before: usize,
    is_first: bool,
) -> Result<usize, AllocError>
    requires some { 0 < length faults.now }
    requires inside { All (LiesTold snapshot.now.sources) faults.now }
    ensures some { IfOk result (λ count. 0 < count) }
    ensures within { IfOk result (λ count. count ≤ length faults.now) }
    ensures added { IfOk result (λ count. AddsLines page.now.look page.now.scope.package.now page.now.given.now snapshot.now.sources is_first (take count faults.now) (string_bytes out.old) (string_bytes out.new)) }
{
    let first = faults[0];
    let Some((package, source)) = source_in(snapshot, first.fault) else {
        unreachable!()
    };
    let inside = below(alloc, folder_of(page.scope.package, package), source.name())?;
    let file = file_text(alloc, page.look.format, page.given, inside.as_str())?;
    let text = source.text();
    let messages = match messages_of(alloc, snapshot, faults, first.fault, before, text.len()) {
        Ok(messages) => messages,
        Err(error) => return Err(error),
    };
    let sheet = Sheet {
        page,
        snapshot,
        again,
        package,
        file: file.as_str(),
        text,
        before,
        messages,
    };
    push_run(alloc, out, &sheet, faults, is_first)
}

// Adds faults.
fn push_all(
    alloc: Global,
    out: &mut String,
    page: &Page<'_>,
    snapshot: &Snapshot,
    again: &[Told],
    faults: &[Told],
) -> Result<(), AllocError>
    requires { All (LiesTold snapshot.now.sources) faults.now }
    ensures { OnOk result (AddsLines page.now.look page.now.scope.package.now page.now.given.now snapshot.now.sources true faults.now (string_bytes out.old) (string_bytes out.new)) }
{
    let mut told = 0;
    'turns: while told < faults.len() {
        let (_, rest) = faults.split_at(told);
        told += push_file(alloc, out, page, snapshot, again, rest, told, told == 0)?;
    }
    Ok(())
}

// Adds what stands before the faults.
fn push_head(out: &mut String, format: Format) -> Result<(), AllocError>
    ensures { OnOk result (string_bytes out.new ≡ string_bytes out.old ++ head_text format) }
{
    match format {
        Format::Sarif => push(
            out,
            "{\"$schema\":\"https://json.schemastore.org/sarif-2.1.0.json\",\"version\":\"2.1.0\",\"runs\":[{\"tool\":{\"driver\":{\"name\":\"govisd\",\"version\":\"0.1.0\"}},\"columnKind\":\"unicodeCodePoints\",\"results\":[\n",
        ),
        _ => push(out, ""),
    }
}

// Adds how many faults there are.
fn push_faults(alloc: Global, out: &mut String, faults: usize) -> Result<(), AllocError>
    ensures { OnOk result (string_bytes out.new ≡ string_bytes out.old ++ faults_text faults) }
{
    if faults == 0 {
        return push(out, "no faults");
    }
    if faults == 1 {
        return push(out, "1 fault");
    }
    push_number(alloc, out, faults)?;
    push(out, " faults")
}

// Adds how many packages there are.
fn push_packages(alloc: Global, out: &mut String, packages: usize) -> Result<(), AllocError>
    ensures { OnOk result (string_bytes out.new ≡ string_bytes out.old ++ packages_text packages) }
{
    if packages == 1 {
        return push(out, "1 package");
    }
    push_number(alloc, out, packages)?;
    push(out, " packages")
}

// Adds how many faults are not shown, where there are several.
fn push_several(alloc: Global, out: &mut String, hidden: usize) -> Result<(), AllocError>
    ensures { OnOk result (string_bytes out.new ≡ string_bytes out.old ++ several_text hidden) }
{
    push(out, "; ")?;
    push_number(alloc, out, hidden)?;
    push(out, " of them follow from these (--all shows them)")
}

// Adds how many faults are not shown, where there are any.
fn push_hidden(alloc: Global, out: &mut String, hidden: usize) -> Result<(), AllocError>
    ensures { OnOk result (string_bytes out.new ≡ string_bytes out.old ++ hidden_text hidden) }
{
    if hidden == 0 {
        return push(out, "");
    }
    if hidden == 1 {
        return push(out, "; 1 of them follows from these (--all shows it)");
    }
    push_several(alloc, out, hidden)
}

// Adds that only the first faults are told in full, where there are more.
fn push_full(out: &mut String, shown: usize) -> Result<(), AllocError>
    ensures { OnOk result (string_bytes out.new ≡ string_bytes out.old ++ full_text shown) }
{
    if shown <= IN_FULL {
        return push(out, "");
    }
    push(
        out,
        "Only the first faults are told in full, of the others what their rules mean\n",
    )
}

// How many of some faults are not shown.
fn hidden_of(faults: usize, shown: usize) -> usize
    ensures { result ≡ faults - shown }
{
    faults.saturating_sub(shown)
}

// Adds the lines after the faults: how many there are in how many packages, and how many of them are not shown.
fn push_count(
    alloc: Global,
    out: &mut String,
    faults: usize,
    shown: usize,
    packages: usize,
) -> Result<(), AllocError>
    ensures { OnOk result (string_bytes out.new ≡ string_bytes out.old ++ count_text faults shown packages) }
{
    push_full(out, shown)?;
    push_faults(alloc, out, faults)?;
    push(out, " in ")?;
    push_packages(alloc, out, packages)?;
    push_hidden(alloc, out, hidden_of(faults, shown))?;
    push(out, "\n")
}

// Adds what stands after the faults.
fn push_end(
    alloc: Global,
    out: &mut String,
    format: Format,
    faults: usize,
    shown: usize,
    packages: usize,
) -> Result<(), AllocError>
    ensures { OnOk result (string_bytes out.new ≡ string_bytes out.old ++ ending_text format faults shown packages) }
{
    match format {
        Format::Text => push_count(alloc, out, faults, shown, packages),
        Format::Json => push(out, ""),
        Format::Github => push(out, ""),
        Format::Sarif => push(out, "]}]}\n"),
    }
}

// Whether all faults are written: where that is asked for, and as JSON.
fn shows_all(look: Look) -> bool
    ensures { result ≡ shows_all look }
{
    match look.format {
        Format::Json => true,
        _ => look.all,
    }
}

/// What is written of the faults of a snapshot that are told of, and how many they are.
#[derive(Drop)]
pub struct Report {
    /// What is written.
    pub text: String,
    /// How many faults are told of, whether they are written or not.
    pub faults: usize,
}

// Adds a report on some faults, of which these are shown, and that lie in so many packages.
fn push_report(
    alloc: Global,
    out: &mut String,
    page: &Page<'_>,
    snapshot: &Snapshot,
    again: &[Told],
    faults: usize,
    shown: &[Told],
    notes: &[Beside],
    packages: usize,
) -> Result<(), AllocError>
    requires { All (LiesTold snapshot.now.sources) shown.now }
    ensures { OnOk result (AddsReport page.now.look page.now.scope.package.now page.now.given.now snapshot.now.sources faults shown.now packages (string_bytes out.old) (string_bytes out.new)) }
{
    let count = shown.len();
    push_head(out, page.look.format)?;
    push_all(alloc, out, page, snapshot, again, shown)?;
    push_beside(alloc, out, page.look.format, notes)?;
    push_end(alloc, out, page.look.format, faults, count, packages)
}

// How many packages are told of.
fn package_count(alloc: Global, page: &Page<'_>, snapshot: &Snapshot) -> Result<usize, AllocError>
    ensures { IfOk result (λ n. n ≡ length (packages_in (page.now.scope.package.now, page.now.scope.file.now) snapshot.now.sources)) }
{
    let paths = packages_in(alloc, &page.scope, snapshot.sources().packages())?;
    Ok(paths.len())
}

// What is said beside the faults, where a person reads it.
fn notes_of(
    alloc: Global,
    page: &Page<'_>,
    snapshot: &Snapshot,
) -> Result<Vec<Beside>, AllocError> {
    match page.look.format {
        Format::Text => unused_in(alloc, &page.scope, snapshot),
        _ => Ok(Vec::new(alloc)),
    }
}

// What is written of some faults.
fn report_text(
    alloc: Global,
    page: &Page<'_>,
    snapshot: &Snapshot,
    every: &[Told],
    faults: usize,
    shown: &[Told],
    packages: usize,
) -> Result<String, AllocError>
    requires { All (LiesTold snapshot.now.sources) shown.now }
    ensures { IfOk result (λ text. AddsReport page.now.look page.now.scope.package.now page.now.given.now snapshot.now.sources faults shown.now packages [] (string_bytes text)) }
{
    let notes = notes_of(alloc, page, snapshot)?;
    let again = repeated_in(alloc, every)?;
    let mut text = String::new(alloc);
    push_report(
        alloc,
        &mut text,
        page,
        snapshot,
        again.as_slice(),
        faults,
        shown,
        notes.as_slice(),
        packages,
    )?;
    Ok(text)
}

// Those of some faults that are shown.
fn shown_of(
    alloc: Global,
    page: &Page<'_>,
    snapshot: &Snapshot,
    faults: &[Told],
) -> Result<Vec<Told>, AllocError>
    ensures { IfOk result (λ shown. shown.items ≡ shown_in (shows_all page.now.look) (page.now.scope.package.now, page.now.scope.file.now) snapshot.now.sources faults.now) }
{
    let is_all = shows_all(page.look);
    shown_in(alloc, is_all, &page.scope, snapshot.sources(), faults)
}

// A report on some faults.
fn report_on(
    alloc: Global,
    page: &Page<'_>,
    snapshot: &Snapshot,
    faults: &[Told],
) -> Result<Report, AllocError>
    requires { All (LiesTold snapshot.now.sources) faults.now }
    ensures { IfOk result (IsReport page.now.look (page.now.scope.package.now, page.now.scope.file.now) page.now.given.now snapshot.now.sources faults.now) }
{
    let count = faults.len();
    let packages = package_count(alloc, page, snapshot)?;
    let shown = shown_of(alloc, page, snapshot, faults)?;
    let text = report_text(
        alloc,
        page,
        snapshot,
        faults,
        count,
        shown.as_slice(),
        packages,
    )?;
    Ok(Report {
        text,
        faults: count,
    })
}

// The faults of a snapshot that are told of, by where its faults stand among the causes.
fn faults_of(
    alloc: Global,
    page: &Page<'_>,
    snapshot: &Snapshot,
    causes: &[Cause],
) -> Result<Vec<Told>, AllocError>
    ensures { IfOk result (λ told. told.items ≡ told_in (page.now.scope.package.now, page.now.scope.file.now) snapshot.now.sources (told_by snapshot.now.faults snapshot.now.faults causes.now)) }
{
    let all = told_by(alloc, snapshot.faults(), causes)?;
    told_in(alloc, &page.scope, snapshot.sources(), all.as_slice())
}

/// The faults of a snapshot that are told of, as they are written.
///
/// # Errors
///
/// `AllocError` for want of memory.
pub fn told(alloc: Global, page: &Page<'_>, snapshot: &Snapshot) -> Result<Report, AllocError>
    requires { IsSnapshot snapshot.now.sources snapshot.now.parts snapshot.now.faults }
    ensures { IfOk result (AreTold page.now.look (page.now.scope.package.now, page.now.scope.file.now) page.now.given.now snapshot.now.sources snapshot.now.faults) }
{
    faults_lie_in_files();
    let causes = causes(alloc, snapshot)?;
    let repeated = repeated_names(alloc, snapshot)?;
    let joined = joined_by(alloc, causes.as_slice(), repeated.as_slice())?;
    let faults = faults_of(alloc, page, snapshot, joined.as_slice())?;
    report_on(alloc, page, snapshot, faults.as_slice())
}
