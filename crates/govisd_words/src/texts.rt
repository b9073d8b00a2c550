//! What the program writes of itself.
ghost use Rattle.std.specs.Prelude.{◌≡◌, ◌↔◌, IfOk, IsTrue, option_map, string_bytes};
ghost use Rattle.govisd_words.specs.Listening.{IsListeningText, IsLoopback};
ghost use Rattle.govisd_words.specs.Texts.{check_help_text, explain_help_text, help_of, lsp_help_text, program_help_text, run_help_text, script_help_text, serve_help_text, bad_value_text as text_of_bad_value, listening_line as line_of_listening, script_end_text as text_of_script_end, serve_end_text as text_of_serve_end, unbound_front as front_of_unbound, unbound_text as text_of_unbound, unknown_command_text, unwritten_text as text_of_unwritten, resolve_help_text, version_text as text_of_version, refused_text as text_of_refused, end_text as text_of_end};

use crate::words::ValueOption;
use go_wire_core::ServeEnd;
use govisd_resolve::ResolveEnd;
use std::alloc::{AllocError, Global};
use std::io::ErrorKind;
use std::net::SocketAddr;

/// What the program takes, and its exit statuses.
pub fn program_help() -> &'static str
    ensures { result.now ≡ program_help_text }
{
    "Checks and runs Go packages, and says what each name in them denotes\n\nUsage: govisd <COMMAND>\n\nCommands:\n  check    Checks the Go packages of a folder, and tells what is wrong and where\n  run      Compiles the Go packages of a folder, and runs one\n  explain  Says what a rule means, with an example that breaks it\n  resolve  Says what each name in a Go file on standard input denotes\n  lsp      Serves an editor by the Language Server Protocol\n  script   Serves Go sessions by lines of JSON on standard input and output\n  serve    Serves Go sessions by lines of JSON over TCP\n  help     Writes this text, or that of a command: govisd help check\n\nOptions:\n  -h, --help     Writes this text\n  -V, --version  Writes the version\n\nExamples:\n  govisd check           # the packages of this folder and of those in it\n  govisd explain N1      # what the rule N1 means, which check tells of\n  govisd run primes      # the program in the folder primes\n  govisd resolve < a.go  # each name in the file a.go\n\nExit status: 0 where the source has no fault or a service came to its end,\n1 where it has one or the run failed, 2 where the command line, the folder or a\nname is refused. Those of run: govisd help run\n"
}

fn resolve_help() -> &'static str
    ensures { result.now ≡ resolve_help_text }
{
    "Reads a Go file from standard input, and writes what each name in it denotes\n\nUsage: govisd resolve\n\nOptions:\n  -h, --help  Writes this text\n\nThe file is taken as the one file of a package that stands alone, so each import\nin it is refused. It is UTF-8, of 1,048,576 bytes at most.\nEach identifier that is used has a line, in order of place: its offset in bytes\nfrom 0, its role, the identifier, and the declaration that it denotes or the\nrule that it breaks. After these lines stand the other faults, as\nfault OFFSET RULE. govisd explain RULE says what a rule means.\n\nExample:\n  govisd resolve < a.go\n\nExit status: 0 where the source has no fault, 1 where it has one or the run\nfailed, 2 where the command line is refused\n"
}

fn check_help() -> &'static str
    ensures { result.now ≡ check_help_text }
{
    "Checks the Go packages of a folder, and tells what is wrong and where\n\nUsage: govisd check [OPTIONS] [FOLDER]\n\nArguments:\n  [FOLDER]  The folder, with all folders in it. Without it, the one that govisd\n            runs in. FOLDER/... is the same. It may be a Go file: then only the\n            faults of this file are told\n\nOptions:\n  --module <PATH>  The import path of the module. Without it, the one that the\n                   first go.mod in the folder or above it names; where there is\n                   no go.mod, the name of the folder\n  --all            Tells also the faults that follow from others\n  --format <FORM>  text, json, github or sarif. Without it, text\n  --json           The same as --format json\n  --source         Shows the lines of the source, as on a terminal\n  --color <WHEN>   auto, always or never. Without it, auto\n  --workers <N>    How many threads work at once, 1 to 64. Without it, as\n                   many as there are processors, 8 at most\n  -h, --help       Writes this text\n\nEach fault is told as FILE:LINE:COLUMN: RULE and what is wrong. Lines count from\n1, and so do columns, in bytes. govisd explain RULE says more of a rule. A fault\nthat follows from another one is counted, and told with --all. A variable that\nis declared and not used is noted, and counts as no fault.\nWith --format json each fault is an object in a line, those that follow too.\nThe .go files of a folder are a package, but for tests (_test.go) and names that\nbegin with . or _; so named folders, testdata and vendor are passed over. Where\na go.mod lies above the folder, all packages of its module are read, and those\nin the folder are told. A file that cannot be read is named on standard error,\nand its package is not checked (K4). Nothing is written into the folder.\nOnly packages of the module are known: an import of the standard library or of\nanother module is I2. Build constraints are not read.\n\nExamples:\n  govisd check\n  govisd check ./cart\n  govisd check cart/cart.go\n  govisd check shop --module example.com/shop --json\n\nExit status: 0 where there is no fault, 1 where there is one or something was\nleft out, 2 where nothing was checked\n"
}

fn explain_help() -> &'static str
    ensures { result.now ≡ explain_help_text }
{
    "Says what a rule means, with an example that breaks it and how to mend it\n\nUsage: govisd explain [OPTIONS] [RULE]\n\nArguments:\n  [RULE]  The name of a rule, as N1 or n1. Without it all rules are listed, one\n          a line\n\nOptions:\n  --json      Tells each rule as a JSON object in a line, with the members\n              example, meaning, mending and rule\n  -h, --help  Writes this text\n\nExamples:\n  govisd explain N1\n  govisd explain\n  govisd explain --json\n\nExit status: 0, or 2 where no rule has this name\n"
}

fn run_help() -> &'static str
    ensures { result.now ≡ run_help_text }
{
    "Compiles the Go packages of a folder, and runs one\n\nUsage: govisd run [OPTIONS] [FOLDER]\n\nArguments:\n  [FOLDER]  The folder, as govisd check takes it. Without it, the one that\n            govisd runs in\n\nOptions:\n  --module <PATH>  The import path of the module, as for govisd check\n  --main <PATH>    The import path of the package that is run. Without it, the\n                   one in the folder that is named main\n  --steps <N>      Stops after so many steps, one for each instruction. Without\n                   it, after 1,000,000,000\n  --workers <N>    How many threads work at once, 1 to 64. Without it, as\n                   many as there are processors, 8 at most\n  -h, --help       Writes this text\n\nWhat the program prints goes to standard output, and what it panics with to\nstandard error, as panic: 5. Where it is not run, standard error says why:\nfaults are told as govisd check tells them.\n\nExamples:\n  govisd run primes\n  govisd run shop --main example.com/shop/cmd\n\nExit status: 0 where the program ended, 1 where it was not run, 2 where it\npanicked or the command line is refused, 3 where its steps were spent\n"
}

fn lsp_help() -> &'static str
    ensures { result.now ≡ lsp_help_text }
{
    "Serves an editor by the Language Server Protocol on standard input and output\n\nUsage: govisd lsp [OPTIONS]\n\nOptions:\n  --stdio     Serves on standard input and output, as without it\n  -h, --help  Writes this text\n\nAn editor starts it and speaks with it: nobody types these messages. The editor\nnames a folder, and the Go packages of its module are read from there, or those\nof the modules that a go.work in it or above it uses. The texts that the editor\nhas open count in place of the files. Nothing is written into the folder.\nThe version of the protocol is 3.17. docs/EDITOR.md has the lines for editors.\n\nExit status: 0 where the editor said exit after shutdown, 1 where it ended in\nanother way, 2 where the command line is refused\n"
}

fn script_help() -> &'static str
    ensures { result.now ≡ script_help_text }
{
    "Serves Go sessions by lines of JSON on standard input and output\n\nUsage: govisd script [OPTIONS]\n\nOptions:\n  --workers <N>  How many packages are compiled at once, 1 to 64. Without it, 1\n  -h, --help     Writes this text\n\nEach line is one request of a session, whose number, 1 to 32, is its member \"s\".\nEach is answered by one line, in order. docs/DAEMON.md has all requests.\n\nExample:\n  printf '{\"cmd\":\"open\",\"module\":\"example.com/a\",\"s\":1}\\n' | govisd script\n\nExit status: 0 where the input ended, 1 where a line was too long, reading or\nwriting failed, or memory or threads ran out, 2 where the command line is\nrefused\n"
}

fn serve_help() -> &'static str
    ensures { result.now ≡ serve_help_text }
{
    "Serves Go sessions by lines of JSON over TCP\n\nUsage: govisd serve [OPTIONS] --listen <ADDRESS>\n\nOptions:\n  --listen <ADDRESS>  An address and a port, as 127.0.0.1:7000. With port 0 the\n                      system chooses one. A port alone, as :7000, is that of\n                      each address of the machine\n  --workers <N>       How many packages are compiled at once, 1 to 64. Without\n                      it, 1\n  --connections <K>   Takes so many connections and no more, and ends once they\n                      have ended. Without it, there is no end\n  --idle <SECONDS>    Closes a connection that sends nothing for so long while\n                      it waits for no reply. 0 is never. Without it, 3600\n  --stall <SECONDS>   Closes a connection that reads nothing of a reply for so\n                      long. 0 is never. Without it, 60\n  --until-input-ends  Ends once standard input has ended: a connection that\n                      waits for no reply is closed, another after its reply\n  -h, --help          Writes this text\n\nOnce it listens, it says so on standard error, with the address and the port:\ngovisd: listening on 127.0.0.1:7000. Each line of a connection is one request,\nanswered by one line, in order. A connection has one session at a time, which\nends with it. docs/DAEMON.md has all requests. At most 32 connections are served\nat once: another is told {\"err\":\"O4\"} and closed. Whoever reaches the address\nmay open sessions: nobody is asked for a name. Standard error also tells, once\neach, what only a new start or more memory helps against: the first O4, H1 and\nM0 of a build.\n\nExample:\n  govisd serve --listen 127.0.0.1:7000 --workers 4\n\nExit status: 0 after the last connection or the end of its input, 1 where the\naddress cannot be listened on, a connection cannot be accepted, or memory or\nthreads ran out, 2 where the command line or the address is refused\n"
}

/// What a command takes, if there is one of this name.
pub fn command_help(name: &str) -> Option<&'static str>
    ensures { option_map (λ text. text.now) result ≡ help_of name.now }
{
    if name == "resolve" {
        return Some(resolve_help());
    }
    if name == "check" {
        return Some(check_help());
    }
    if name == "explain" {
        return Some(explain_help());
    }
    if name == "script" {
        return Some(script_help());
    }
    if name == "serve" {
        return Some(serve_help());
    }
    if name == "run" {
        return Some(run_help());
    }
    if name == "lsp" {
        return Some(lsp_help());
    }
    if name == "help" {
        return Some(program_help());
    }
    None
}

/// That no command has a name, as `govisd help` refuses it.
///
/// # Errors
///
/// `AllocError` for want of memory.
pub fn unknown_command(alloc: Global, name: &str) -> Result<String, AllocError>
    ensures { IfOk result (λ text. string_bytes text ≡ unknown_command_text name.now) }
{
    let mut text = String::new(alloc);
    text.push_str("govisd: there is no command ")?;
    text.push_str(name)?;
    text.push_str("\ngovisd: govisd help lists all commands\n")?;
    Ok(text)
}

/// The program's name and version.
pub fn version_text() -> &'static str
    ensures { result.now ≡ text_of_version }
{
    "govisd 0.1.0\n"
}

/// The last line of what is said of a command line that is refused.
pub fn refused_text() -> &'static str
    ensures { result.now ≡ text_of_refused }
{
    "govisd: the command line is refused\n"
}

/// Why a run wrote no whole report, or nothing where it wrote one.
pub fn end_text(end: ResolveEnd) -> &'static str
    ensures { result.now ≡ text_of_end end }
{
    match end {
        ResolveEnd::Clean | ResolveEnd::Faults => "",
        ResolveEnd::ReadFault => "govisd: standard input cannot be read\n",
        ResolveEnd::WriteFault => "govisd: standard output cannot be written\n",
        ResolveEnd::Memory => "govisd: memory ran out\n",
    }
}

/// Why what was asked for could not be written, or nothing where nobody reads it any more.
pub fn unwritten_text(kind: ErrorKind) -> &'static str
    ensures { result.now ≡ text_of_unwritten kind }
{
    match kind {
        ErrorKind::BrokenPipe => "",
        _ => "govisd: standard output cannot be written\n",
    }
}

/// What is wrong with the word behind an option, and that the command line is refused.
pub fn bad_value_text(option: ValueOption) -> &'static str
    ensures { result.now ≡ text_of_bad_value option }
{
    match option {
        ValueOption::Workers => {
            "govisd: --workers takes a number from 1 to 64\ngovisd: the command line is refused\n"
        }
        ValueOption::Connections => {
            "govisd: --connections takes a number from 0 to 18446744073709551615\ngovisd: the command line is refused\n"
        }
        ValueOption::Idle => {
            "govisd: --idle takes a number from 0 to 18446744073709551615\ngovisd: the command line is refused\n"
        }
        ValueOption::Stall => {
            "govisd: --stall takes a number from 0 to 18446744073709551615\ngovisd: the command line is refused\n"
        }
        ValueOption::Steps => {
            "govisd: --steps takes a number from 0 to 18446744073709551615\ngovisd: the command line is refused\n"
        }
        ValueOption::Form => {
            "govisd: --format takes text, json, github or sarif\ngovisd: the command line is refused\n"
        }
        ValueOption::Colors => {
            "govisd: --color takes auto, always or never\ngovisd: the command line is refused\n"
        }
    }
}

/// Why a script ended before its input did, or nothing where it ended with it.
pub fn script_end_text(end: ServeEnd) -> &'static str
    ensures { result.now ≡ text_of_script_end end }
{
    match end {
        ServeEnd::Done => "",
        ServeEnd::TooLong => "govisd: a line has more than 2,097,152 bytes\n",
        ServeEnd::ReadFault => "govisd: standard input cannot be read\n",
        ServeEnd::WriteFault => "govisd: standard output cannot be written\n",
        ServeEnd::Turns => "govisd: standard input came in too many pieces\n",
        ServeEnd::Memory => "govisd: memory or threads ran out\n",
    }
}

/// Why a daemon ended before its last connection, or nothing where it ended behind it.
pub fn serve_end_text(end: ServeEnd) -> &'static str
    ensures { result.now ≡ text_of_serve_end end }
{
    match end {
        ServeEnd::Done => "",
        ServeEnd::ReadFault => "govisd: a connection cannot be accepted\n",
        ServeEnd::Memory => "govisd: memory or threads ran out\n",
        ServeEnd::TooLong | ServeEnd::WriteFault | ServeEnd::Turns => {
            "govisd: serving ended early\n"
        }
    }
}

// That an address and a port are listened at.
fn listening_line(alloc: Global, place: SocketAddr) -> Result<String, AllocError>
    ensures { IfOk result (λ text. string_bytes text ≡ line_of_listening place) }
{
    format!(in alloc; "govisd: listening on {place}\n")
}

// Whether only this machine reaches an address.
fn is_loopback(place: SocketAddr) -> bool
    ensures { IsTrue result ↔ IsLoopback place }
{
    place.ip().is_loopback()
}

/// That an address and a port are listened at; and, where that is no loopback address, that others may reach it.
///
/// # Errors
///
/// `AllocError` for want of memory.
pub fn listening_text(alloc: Global, place: SocketAddr) -> Result<String, AllocError>
    ensures { IfOk result (λ text. IsListeningText place (string_bytes text)) }
{
    let mut text = listening_line(alloc, place)?;
    if is_loopback(place) {
        return Ok(text);
    }
    text.push_str("govisd: this is no loopback address: whoever reaches it may open sessions\n")?;
    Ok(text)
}

// That an address cannot be listened at.
fn unbound_front(alloc: Global, address: &str) -> Result<String, AllocError>
    ensures { IfOk result (λ text. string_bytes text ≡ front_of_unbound address.now) }
{
    format!(in alloc; "govisd: {address} cannot be listened on: ")
}

/// That an address cannot be listened at, and why.
///
/// # Errors
///
/// `AllocError` for want of memory.
pub fn unbound_text(alloc: Global, address: &str, why: &str) -> Result<String, AllocError>
    ensures { IfOk result (λ text. string_bytes text ≡ text_of_unbound address.now why.now) }
{
    let mut text = unbound_front(alloc, address)?;
    text.push_str(why)?;
    text.push_str("\n")?;
    Ok(text)
}
