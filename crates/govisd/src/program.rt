//! What the program does, over a reader and two writers.
ghost use Rattle.std.specs.Prelude.{◌≡◌, ◌++◌, List, ℕ, map, option_map, string_bytes, IfOk, Ok, false};
ghost use Rattle.clap.specs.Values.{kind_of};
ghost use Rattle.std.specs.Result.{result_ok};
ghost use Rattle.govisd_folders.specs.Checks.{IsAnswerOfCheck};
ghost use Rattle.govisd_words.specs.Texts.{refused_text as text_of_refused};
ghost use Rattle.govisd_words.specs.Asking.{is_script};
ghost use Rattle.govisd.specs.Runs.{ChecksEach, ChecksEachAsJson, ChecksEachModule, ChecksFolder, ChecksHere, Does, Explains, Helps, Refuses, RefusesValue, RefusesMade, Resolves, Runs, ShowsText, ShowsMade, ExplainsEach, ExplainsEachAsJson, HelpsAlone, HelpsByFlag, HelpsEach, ListsAll, ListsAllAsJson, RefusesEditorWord, RefusesNothing, RefusesNowhere, RefusesOtherCommands, RefusesOthers, RefusesSteps, RefusesWordBehind, RefusesWorkers, ResolvesAlone, RunsAsTold, RunsEach, ScriptsAlone, ScriptsEach, ServesAsTold, ServesEach, ServesEditorAlone, ServesEditorOnStdio, TellsVersion, around};
ghost use Rattle.govisd.specs.Says.{RunsOut, SaysText, SaysUnwritten, WritesAnswer};

use crate::daemons::{Watches, script, serve};
use crate::editing::serve_editor;
use crate::launches::{Launches, launch};
use clap::Error;
use clap::error::ErrorKind;
use go_explain_core::{explained, listed, rule_named, unknown};
use govisd_editor::Disk;
use govisd_folders::{CheckAnswer, Order};
use govisd_resolve::{ResolveEnd, run_resolve, write_report};
use govisd_words::{
    Request, ValueOption, bad_value_text, command_help, end_status, end_text, program_help,
    read_words, refusal_status, refused_text, unknown_command, unwritten_text, version_text,
};
use std::alloc::{AllocError, Global};
use std::convert::AsStr;
use std::io;
use std::io::{Eprint, Read, Write};
use std::net::{Net, TcpListener, TcpStream};
use std::sync::Wait;
use std::thread::Threads;
use std::time::Clock;

/// What came of the program.
#[derive(Clone, Copy)]
pub struct Ran {
    /// The exit status.
    pub status: u8,
    /// Whether the second writer took the whole of what was to be said on it, be it nothing.
    pub is_told: bool,
}

/// What came of the program, with its reader and its first writer.
#[derive(Drop)]
pub struct Ended<R: Drop, W: Drop> {
    /// The status, and whether what was to be said was.
    pub ran: Ran,
    /// The reader, with what was not read.
    pub reader: R,
    /// The first writer.
    pub out: W,
}

/// What checks folders.
pub trait Checks {
    ghost use Rattle.std.specs.Prelude.{List, Option, ℕ};
    ghost use Rattle.go_folder_core.specs.declared.orders.Style.{Style as TheStyle};
    ghost use Rattle.govisd_folders.specs.declared.checking.CheckAnswer.{CheckAnswer as TheAnswer};

    // what it may answer: by the folder, by how the faults are to be written, and by the path of the module, if one is given; none for want of memory
    ghost Answers: { Self → List ℕ → TheStyle → Option (List ℕ) → Option TheAnswer → Type 0 };

    /// Checks the Go packages of a folder.
    ///
    /// # Errors
    ///
    /// `AllocError` for want of memory.
    fn check(&self, order: &Order<'_>) -> Result<CheckAnswer, AllocError>
        ensures answers { Answers self.now order.now.folder.now order.now.style (option_map (λ m. m.now) order.now.module_path) (result_ok result) }
        ensures is { IfOk result (IsAnswerOfCheck order.now.folder.now order.now.style (option_map (λ m. m.now) order.now.module_path)) };
}

/// Writes what is to be said, and answers whether all of it was written.
pub fn tell<E: Write>(err: &mut E, text: &str) -> bool
    ensures { SaysText result text.now (E.contents err.old) (E.contents err.new) }
{
    write_report(err, text.as_bytes()).is_ok()
}

// A run of `resolve`. Where it writes no whole report, it says why.
fn resolve<R: Read, W: Write, E: Write>(
    alloc: Global,
    reader: &mut R,
    out: &mut W,
    err: &mut E,
) -> Ran
    ensures { Resolves result (R.remaining reader.old) (R.remaining reader.new) (W.contents out.old) (W.contents out.new) (E.contents err.old) (E.contents err.new) }
{
    let end = run_resolve(alloc, reader, out);
    let is_told = tell(err, end_text(end));
    Ran {
        status: end_status(end),
        is_told,
    }
}

// Says that what was asked for cannot be written; nothing where nobody reads it any more.
fn say_unwritten<E: Write>(err: &mut E, kind: io::ErrorKind) -> Ran
    ensures { SaysUnwritten result (E.contents err.old) (E.contents err.new) }
{
    let is_told = tell(err, unwritten_text(kind));
    Ran { status: 1, is_told }
}

// Writes a text that was asked for, or says that it cannot be written.
fn show<W: Write, E: Write>(out: &mut W, err: &mut E, text: &str) -> Ran
    ensures { ShowsText result text.now (W.contents out.old) (W.contents out.new) (E.contents err.old) (E.contents err.new) }
{
    match write_report(out, text.as_bytes()) {
        Ok(()) => Ran {
            status: 0,
            is_told: true,
        },
        Err(kind) => say_unwritten(err, kind),
    }
}

/// Says that memory ran out.
pub fn run_out<E: Write>(err: &mut E) -> Ran
    ensures { RunsOut result (E.contents err.old) (E.contents err.new) }
{
    let is_told = tell(err, end_text(ResolveEnd::Memory));
    Ran { status: 1, is_told }
}

// Writes a text that was made, or says that memory ran out.
fn show_made<W: Write, E: Write>(out: &mut W, err: &mut E, made: Result<String, AllocError>) -> Ran
    ensures { ShowsMade made result (W.contents out.old) (W.contents out.new) (E.contents err.old) (E.contents err.new) }
{
    match made {
        Ok(text) => show(out, err, text.as_str()),
        Err(AllocError) => run_out(err),
    }
}

// Says that nothing has a name, by a text that was made, or that memory ran out.
fn refuse_name<E: Write>(err: &mut E, made: Result<String, AllocError>) -> Ran
    ensures { RefusesMade made result (E.contents err.old) (E.contents err.new) }
{
    match made {
        Ok(text) => {
            let is_told = tell(err, text.as_str());
            Ran { status: 2, is_told }
        }
        Err(AllocError) => run_out(err),
    }
}

// Writes what a rule means, or the list of all, maybe as JSON.
fn explain_rule<W: Write, E: Write>(
    alloc: Global,
    out: &mut W,
    err: &mut E,
    word: Option<&str>,
    is_json: bool,
) -> Ran
    ensures { Explains is_json (option_map (λ w. w.now) word.entry) result (W.contents out.old) (W.contents out.new) (E.contents err.old) (E.contents err.new) }
{
    match word {
        None => show_made(out, err, listed(alloc, is_json)),
        Some(word) => match rule_named(word) {
            Some(rule) => show_made(out, err, explained(alloc, rule, is_json)),
            None => refuse_name(err, unknown(alloc, word)),
        },
    }
}

// Writes what the program takes, or a command.
fn help<W: Write, E: Write>(alloc: Global, out: &mut W, err: &mut E, topic: Option<&str>) -> Ran
    ensures { Helps (option_map (λ w. w.now) topic.entry) result (W.contents out.old) (W.contents out.new) (E.contents err.old) (E.contents err.new) }
{
    match topic {
        None => show(out, err, program_help()),
        Some(name) => match command_help(name) {
            Some(text) => show(out, err, text),
            None => refuse_name(err, unknown_command(alloc, name)),
        },
    }
}

/// Writes an answer, and says what there is to say beside.
pub fn give<W: Write, E: Write>(out: &mut W, err: &mut E, answer: &CheckAnswer) -> Ran
    ensures { WritesAnswer answer.now result (W.contents out.old) (W.contents out.new) (E.contents err.old) (E.contents err.new) }
{
    match write_report(out, answer.text.as_bytes()) {
        Ok(()) => {
            let is_told = tell(err, answer.said.as_str());
            Ran {
                status: answer.status,
                is_told,
            }
        }
        Err(kind) => say_unwritten(err, kind),
    }
}

// Checks a folder.
fn check<C: Checks, W: Write, E: Write>(
    checks: &C,
    out: &mut W,
    err: &mut E,
    order: &Order<'_>,
) -> Ran
    ensures { ChecksFolder (C.Answers checks.now) order.now.folder.now order.now.style (option_map (λ m. m.now) order.now.module_path) result (W.contents out.old) (W.contents out.new) (E.contents err.old) (E.contents err.new) }
{
    match checks.check(order) {
        Ok(answer) => give(out, err, &answer),
        Err(AllocError) => run_out(err),
    }
}

// What is wrong with the words of a command line, and a last line that says that it is refused.
fn refusal_text(alloc: Global, error: &Error) -> Result<String, AllocError>
    ensures { IfOk result (λ text. (front : List ℕ) × (string_bytes text ≡ front ++ text_of_refused)) }
{
    let mut text = error.to_string(alloc)?;
    text.push_str(refused_text())?;
    Ok(text)
}

// Says what is wrong with the words of a command line.
fn refuse<E: Write>(alloc: Global, err: &mut E, error: &Error) -> Ran
    ensures { Refuses (kind_of error.now) result (E.contents err.old) (E.contents err.new) }
{
    let status = refusal_status(error.kind());
    if let ErrorKind::OutOfMemory = error.kind() {
        let is_told = tell(err, end_text(ResolveEnd::Memory));
        return Ran { status, is_told };
    }
    let is_told = match refusal_text(alloc, error) {
        Ok(text) => tell(err, text.as_str()),
        Err(_) => tell(err, refused_text()),
    };
    Ran { status, is_told }
}

// Says that a number is none of those that are taken.
fn refuse_value<E: Write>(err: &mut E, option: ValueOption) -> Ran
    ensures { RefusesValue option result (E.contents err.old) (E.contents err.new) }
{
    let is_told = tell(err, bad_value_text(option));
    Ran { status: 2, is_told }
}

// Does what is asked for, but for a script.
fn answer<
    C: Checks + Launches + Watches + Disk,
    T: Net<Listener = TcpListener, Stream = TcpStream> + Threads + Wait + Clock + Eprint + Sync,
    R: Read,
    W: Write,
    E: Write,
>(
    alloc: Global,
    checks: &C,
    rt: &T,
    reader: &mut R,
    out: &mut W,
    err: &mut E,
    request: Request<'_>,
) -> Ran
    requires { is_script request ≡ false }
    ensures { Does (around (C.Answers checks.now) (C.Outcomes checks.now)) (Ok request.entry) result (R.remaining reader.old) (R.remaining reader.new) (W.contents out.old) (W.contents out.new) (E.contents err.old) (E.contents err.new) }
{
    match request {
        Request::Script(_) => unreachable!(),
        Request::Resolve => resolve(alloc, reader, out, err),
        Request::Explain(word, is_json) => explain_rule(alloc, out, err, word, is_json),
        Request::Check(order) => check(checks, out, err, &order),
        Request::Run(order) => launch(checks, out, err, &order),
        Request::Editor => serve_editor(alloc, checks, reader, out, err),
        Request::Serve(daemon) => serve(rt, alloc, err, checks, &daemon),
        Request::Help(topic) => help(alloc, out, err, topic),
        Request::Version => show(out, err, version_text()),
        Request::BadValue(option) => refuse_value(err, option),
    }
}

/// What the program does for the words of its command line, of which the first is its name: a run of `resolve` or a script
/// from the reader to the first writer, an editor that is served there, the check or the run of the folder that the words name, a daemon, what a rule means,
/// its help or its version on the first writer, or a refusal. What there is to say beside goes to the second writer.
pub fn run<
    S: AsStr,
    C: Checks + Launches + Watches + Disk,
    T: Net<Listener = TcpListener, Stream = TcpStream> + Threads + Wait + Clock + Eprint + Sync,
    R: Read + Drop,
    W: Write + Drop,
    E: Write,
>(
    alloc: Global,
    words: &[S],
    checks: &C,
    rt: &T,
    mut reader: R,
    mut out: W,
    err: &mut E,
) -> Ended<R, W>
    ensures { Runs (around (C.Answers checks.now) (C.Outcomes checks.now)) (map S.text words.now) result.ran (R.remaining reader) (R.remaining result.reader) (W.contents out) (W.contents result.out) (E.contents err.old) (E.contents err.new) }
{
    match read_words(alloc, words) {
        Ok(Request::Script(workers)) => script(rt, alloc, reader, out, err, workers),
        Ok(request) => Ended {
            ran: answer(alloc, checks, rt, &mut reader, &mut out, err, request),
            reader,
            out,
        },
        Err(error) => Ended {
            ran: refuse(alloc, err, &error),
            reader,
            out,
        },
    }
}

/// A law, with nothing to run: what a run of `explain` does for each rule, for a word that names none and without a word, also as JSON,
/// one of `check` alone and for each folder, also with the path of its module and as JSON, one of `help` for each command, for a word that names none and without
/// a word, one of `resolve`, of `--help` and of `--version`, one of `script` alone and for each number of workers, one of `serve` for each address, also
/// with numbers of workers and of connections, one of `run` for each folder, also with all that it takes, one of `lsp` alone and with `--stdio`, and that a
/// line without a command is refused, as `resolve` and `lsp` with a word, `serve` without an address and `run` with a word for its number of steps are;
/// whatever checks and runs folders.
pub fn runs_answer_words<C: Checks + Launches>(_checks: &C)
    ensures each { ExplainsEach (around (C.Answers _checks.now) (C.Outcomes _checks.now)) }
    ensures each_as_json { ExplainsEachAsJson (around (C.Answers _checks.now) (C.Outcomes _checks.now)) }
    ensures other { RefusesOthers (around (C.Answers _checks.now) (C.Outcomes _checks.now)) }
    ensures all { ListsAll (around (C.Answers _checks.now) (C.Outcomes _checks.now)) }
    ensures all_as_json { ListsAllAsJson (around (C.Answers _checks.now) (C.Outcomes _checks.now)) }
    ensures here { ChecksHere (around (C.Answers _checks.now) (C.Outcomes _checks.now)) }
    ensures folder { ChecksEach (around (C.Answers _checks.now) (C.Outcomes _checks.now)) }
    ensures of_module { ChecksEachModule (around (C.Answers _checks.now) (C.Outcomes _checks.now)) }
    ensures as_json { ChecksEachAsJson (around (C.Answers _checks.now) (C.Outcomes _checks.now)) }
    ensures command { HelpsEach (around (C.Answers _checks.now) (C.Outcomes _checks.now)) }
    ensures no_command { RefusesOtherCommands (around (C.Answers _checks.now) (C.Outcomes _checks.now)) }
    ensures resolve { ResolvesAlone (around (C.Answers _checks.now) (C.Outcomes _checks.now)) }
    ensures help { HelpsAlone (around (C.Answers _checks.now) (C.Outcomes _checks.now)) }
    ensures help_flag { HelpsByFlag (around (C.Answers _checks.now) (C.Outcomes _checks.now)) }
    ensures version_flag { TellsVersion (around (C.Answers _checks.now) (C.Outcomes _checks.now)) }
    ensures nothing { RefusesNothing (around (C.Answers _checks.now) (C.Outcomes _checks.now)) }
    ensures word_behind { RefusesWordBehind (around (C.Answers _checks.now) (C.Outcomes _checks.now)) }
    ensures script { ScriptsAlone (around (C.Answers _checks.now) (C.Outcomes _checks.now)) }
    ensures workers { ScriptsEach (around (C.Answers _checks.now) (C.Outcomes _checks.now)) }
    ensures bad_workers { RefusesWorkers (around (C.Answers _checks.now) (C.Outcomes _checks.now)) }
    ensures serve { ServesEach (around (C.Answers _checks.now) (C.Outcomes _checks.now)) }
    ensures serve_told { ServesAsTold (around (C.Answers _checks.now) (C.Outcomes _checks.now)) }
    ensures nowhere { RefusesNowhere (around (C.Answers _checks.now) (C.Outcomes _checks.now)) }
    ensures runs_each { RunsEach (around (C.Answers _checks.now) (C.Outcomes _checks.now)) }
    ensures runs_told { RunsAsTold (around (C.Answers _checks.now) (C.Outcomes _checks.now)) }
    ensures bad_steps { RefusesSteps (around (C.Answers _checks.now) (C.Outcomes _checks.now)) }
    ensures editor { ServesEditorAlone (around (C.Answers _checks.now) (C.Outcomes _checks.now)) }
    ensures editor_stdio { ServesEditorOnStdio (around (C.Answers _checks.now) (C.Outcomes _checks.now)) }
    ensures editor_word { RefusesEditorWord (around (C.Answers _checks.now) (C.Outcomes _checks.now)) }
{}
