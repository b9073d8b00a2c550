//! What the words of a command line ask for.
ghost use Rattle.std.specs.Prelude.{◌≡◌, [], IfOk, codes, false, map, option_map, unwrap_or};
ghost use Rattle.clap.specs.Walk.{first_of};
ghost use Rattle.govisd_words.specs.Counts.{connections_in, idle_in, in_workers, number_of, number_or, stall_in, steps_in, threads_in, workers_in};
ghost use Rattle.clap.specs.Words.{app_of, found_of, rows_of};
ghost use Rattle.clap.specs.declared.builder.command.Command.TheViews.{out-Command as fields_of};
ghost use Rattle.go_folder_core.specs.declared.orders.Format.TheVariants as format;
ghost use Rattle.govisd_words.specs.Styles.{color_in, color_named, format_in, format_named, style_of};
ghost use Rattle.govisd_words.specs.Asking.{Asks, Forms, asked_in, check_app, check_by, check_in, command_behind, explain_app, explain_in, govisd_app, source_app, help_app, if_command, json_app, lsp_app, main_app, names_checker, names_command, names_server, order_in, said, said_daemon, said_order, said_run, run_app, run_in, run_of_steps, script_app, script_in, serve_app, serve_in, served_app, shown_app, style_in, waiting_app, waits_in};

use clap::error::ErrorKind;
use clap::{Arg, ArgAction, ArgMatches, Command, Error};
use go_folder_core::{Color, Format, Order, RunOrder, Style};
use std::alloc::{AllocError, Global};
use std::convert::AsStr;

/// What a daemon is asked to be.
#[derive(Clone, Copy)]
pub struct Daemon<'a> {
    /// Where it is to listen: an address and a port.
    pub address: &'a str,
    /// How many packages it compiles at once: 1 to 64.
    pub workers: usize,
    /// After how many connections it ends; if none is given, it does not.
    pub connections: Option<u64>,
    /// How long it waits for its peers.
    pub waits: Waits,
    /// Whether it ends once its standard input has ended.
    pub until_input_ends: bool,
}

/// How long a daemon waits for its peers, in seconds. 0 is without end.
#[derive(Clone, Copy, Debug, PartialEq, Eq)]
pub struct Waits {
    /// How long a peer may send nothing while it waits for no reply.
    pub idle: u64,
    /// How long a peer may leave a reply unread.
    pub stall: u64,
}

/// An option with a value behind it that not every word is.
#[derive(Clone, Copy, Debug, PartialEq, Eq)]
pub enum ValueOption {
    /// `--workers`, which takes 1 to 64.
    Workers,
    /// `--connections`, which takes any number below 2^64.
    Connections,
    /// `--idle`, which takes any number below 2^64.
    Idle,
    /// `--stall`, which takes any number below 2^64.
    Stall,
    /// `--steps`, which takes any number below 2^64.
    Steps,
    /// `--format`, which takes the name of a form.
    Form,
    /// `--color`, which takes `auto`, `always` or `never`.
    Colors,
}

/// What a command line asks for.
#[derive(Clone, Copy)]
pub enum Request<'a> {
    /// A run of `resolve`.
    Resolve,
    /// What a rule means, by its name, or all rules; and whether as JSON.
    Explain(Option<&'a str>, bool),
    /// The check of a folder.
    Check(Order<'a>),
    /// The run of a folder.
    Run(RunOrder<'a>),
    /// A server for an editor.
    Editor,
    /// A script with so many workers, 1 to 64.
    Script(usize),
    /// A daemon.
    Serve(Daemon<'a>),
    /// The help of a command, by its name, or the program's.
    Help(Option<&'a str>),
    /// The program's version.
    Version,
    /// Nothing, since the word behind an option is none that it takes.
    BadValue(ValueOption),
}

// The command `explain`, with the name of a rule, and whether it is told as JSON.
fn explain_command<'a>(alloc: Global) -> Result<Command<'a>, AllocError>
    ensures shape { IfOk result (λ c. app_of c ≡ explain_app) }
    ensures local { IfOk result (λ c. (fields_of c).has_globals ≡ false) }
{
    let rule = Arg::new(alloc, "rule");
    let json = Arg::new(alloc, "json")
        .long("json")
        .action(ArgAction::Count);
    Command::new(alloc, "explain").arg(rule)?.arg(json)
}

// The command `check`, with a folder, the path of its module, and whether the faults are written as JSON.
fn json_command<'a>(alloc: Global) -> Result<Command<'a>, AllocError>
    ensures shape { IfOk result (λ c. app_of c ≡ json_app) }
    ensures local { IfOk result (λ c. (fields_of c).has_globals ≡ false) }
{
    let folder = Arg::new(alloc, "folder");
    let path = Arg::new(alloc, "module").long("module");
    let json = Arg::new(alloc, "json")
        .long("json")
        .action(ArgAction::Count);
    Command::new(alloc, "check")
        .arg(folder)?
        .arg(path)?
        .arg(json)
}

// The same with whether all faults are written, and the lines of the source.
fn source_command<'a>(alloc: Global) -> Result<Command<'a>, AllocError>
    ensures shape { IfOk result (λ c. app_of c ≡ shown_app) }
    ensures local { IfOk result (λ c. (fields_of c).has_globals ≡ false) }
{
    let all = Arg::new(alloc, "all").long("all").action(ArgAction::Count);
    let source = Arg::new(alloc, "source")
        .long("source")
        .action(ArgAction::Count);
    json_command(alloc)?.arg(all)?.arg(source)
}

// The same with the form in which the faults are written, when that has colours, and a number of threads.
fn check_command<'a>(alloc: Global) -> Result<Command<'a>, AllocError>
    ensures shape { IfOk result (λ c. app_of c ≡ check_app) }
    ensures local { IfOk result (λ c. (fields_of c).has_globals ≡ false) }
{
    let form = Arg::new(alloc, "format").long("format");
    let color = Arg::new(alloc, "color").long("color");
    let workers = Arg::new(alloc, "workers").long("workers");
    source_command(alloc)?.arg(form)?.arg(color)?.arg(workers)
}

// The command `help`, with the name of a command.
fn help_command<'a>(alloc: Global) -> Result<Command<'a>, AllocError>
    ensures shape { IfOk result (λ c. app_of c ≡ help_app) }
    ensures local { IfOk result (λ c. (fields_of c).has_globals ≡ false) }
{
    let topic = Arg::new(alloc, "command");
    Command::new(alloc, "help").arg(topic)
}

// The command `run`, with a folder, the path of its module and that of a package.
fn main_command<'a>(alloc: Global) -> Result<Command<'a>, AllocError>
    ensures shape { IfOk result (λ c. app_of c ≡ main_app) }
    ensures local { IfOk result (λ c. (fields_of c).has_globals ≡ false) }
{
    let root = Arg::new(alloc, "folder");
    let path = Arg::new(alloc, "module").long("module");
    let main = Arg::new(alloc, "main").long("main");
    Command::new(alloc, "run").arg(root)?.arg(path)?.arg(main)
}

// The same with a number of steps and one of threads.
fn run_command<'a>(alloc: Global) -> Result<Command<'a>, AllocError>
    ensures shape { IfOk result (λ c. app_of c ≡ run_app) }
    ensures local { IfOk result (λ c. (fields_of c).has_globals ≡ false) }
{
    let steps = Arg::new(alloc, "steps").long("steps");
    let workers = Arg::new(alloc, "workers").long("workers");
    main_command(alloc)?.arg(steps)?.arg(workers)
}

// The command `script`, with a number of workers.
fn script_command<'a>(alloc: Global) -> Result<Command<'a>, AllocError>
    ensures shape { IfOk result (λ c. app_of c ≡ script_app) }
    ensures local { IfOk result (λ c. (fields_of c).has_globals ≡ false) }
{
    let workers = Arg::new(alloc, "workers").long("workers");
    Command::new(alloc, "script").arg(workers)
}

// The command `serve`, with an address, a number of workers and one of connections.
fn served_command<'a>(alloc: Global) -> Result<Command<'a>, AllocError>
    ensures shape { IfOk result (λ c. app_of c ≡ served_app) }
    ensures local { IfOk result (λ c. (fields_of c).has_globals ≡ false) }
{
    let listen = Arg::new(alloc, "listen").long("listen").required(true);
    let workers = Arg::new(alloc, "workers").long("workers");
    let connections = Arg::new(alloc, "connections").long("connections");
    Command::new(alloc, "serve")
        .arg(listen)?
        .arg(workers)?
        .arg(connections)
}

// The same with two numbers of seconds.
fn waiting_command<'a>(alloc: Global) -> Result<Command<'a>, AllocError>
    ensures shape { IfOk result (λ c. app_of c ≡ waiting_app) }
    ensures local { IfOk result (λ c. (fields_of c).has_globals ≡ false) }
{
    let idle = Arg::new(alloc, "idle").long("idle");
    let stall = Arg::new(alloc, "stall").long("stall");
    served_command(alloc)?.arg(idle)?.arg(stall)
}

// The same with whether it ends with its input.
fn serve_command<'a>(alloc: Global) -> Result<Command<'a>, AllocError>
    ensures shape { IfOk result (λ c. app_of c ≡ serve_app) }
    ensures local { IfOk result (λ c. (fields_of c).has_globals ≡ false) }
{
    let until = Arg::new(alloc, "until-input-ends")
        .long("until-input-ends")
        .action(ArgAction::Count);
    waiting_command(alloc)?.arg(until)
}

// The command `lsp`, with whether it is told that the editor is served on standard input and output, as it is without that.
fn lsp_command<'a>(alloc: Global) -> Result<Command<'a>, AllocError>
    ensures shape { IfOk result (λ c. app_of c ≡ lsp_app) }
    ensures local { IfOk result (λ c. (fields_of c).has_globals ≡ false) }
{
    let stdio = Arg::new(alloc, "stdio")
        .long("stdio")
        .action(ArgAction::Count);
    Command::new(alloc, "lsp").arg(stdio)
}

// The program with its commands on sources.
fn source_commands<'a>(alloc: Global) -> Result<Command<'a>, AllocError>
    ensures { IfOk result (λ c. app_of c ≡ source_app) }
{
    let explain = explain_command(alloc)?;
    let check = check_command(alloc)?;
    Command::new(alloc, "govisd")
        .version("0.1.0")
        .subcommand_required(true)
        .disable_help_subcommand(true)
        .subcommand(Command::new(alloc, "resolve"))?
        .subcommand(explain)?
        .subcommand(check)
}

// The words that the program takes.
fn command<'a>(alloc: Global) -> Result<Command<'a>, AllocError>
    ensures { IfOk result (λ c. app_of c ≡ govisd_app) }
{
    let help = help_command(alloc)?;
    let script = script_command(alloc)?;
    let serve = serve_command(alloc)?;
    let run = run_command(alloc)?;
    let lsp = lsp_command(alloc)?;
    source_commands(alloc)?
        .subcommand(help)?
        .subcommand(script)?
        .subcommand(serve)?
        .subcommand(run)?
        .subcommand(lsp)
}

// The number that a word writes.
pub(crate) fn number_of(word: &str) -> Option<u64>
    ensures { result ≡ number_of word.now }
{
    word.parse::<u64>().ok()
}

// So many workers, where they are 1 to 64.
fn in_workers(count: u64) -> Option<usize>
    ensures { result ≡ in_workers count }
{
    if count < 1 {
        return None;
    }
    if count > 64 {
        return None;
    }
    Some(count as usize)
}

// So many workers: 1 where none are told, and nothing where what is told is not 1 to 64.
fn workers_of(word: Option<&str>) -> Option<usize>
    ensures { result ≡ workers_in (option_map (λ w. w.now) word.entry) }
{
    match word {
        None => Some(1),
        Some(word) => match number_of(word) {
            Some(count) => in_workers(count),
            None => None,
        },
    }
}

// After so many connections: after none where none are told, and nothing where what is told is no number.
fn connections_of(word: Option<&str>) -> Option<Option<u64>>
    ensures { result ≡ connections_in (option_map (λ w. w.now) word.entry) }
{
    match word {
        None => Some(None),
        Some(word) => match number_of(word) {
            Some(count) => Some(Some(count)),
            None => None,
        },
    }
}

// The workers that are told behind a command.
fn workers_told(found: &ArgMatches<'_>) -> Option<usize>
    ensures { result ≡ workers_in (first_of (codes "workers") (rows_of (found_of found.now))) }
{
    workers_of(found.get_str("workers"))
}

// So many threads: none where none are told, and nothing where what is told is not 1 to 64.
fn threads_of(word: Option<&str>) -> Option<Option<usize>>
    ensures { result ≡ threads_in (option_map (λ w. w.now) word.entry) }
{
    match word {
        None => Some(None),
        Some(word) => match workers_of(Some(word)) {
            Some(count) => Some(Some(count)),
            None => None,
        },
    }
}

// The threads that are told behind a command on a folder.
fn threads_told(found: &ArgMatches<'_>) -> Option<Option<usize>>
    ensures { result ≡ threads_in (first_of (codes "workers") (rows_of (found_of found.now))) }
{
    threads_of(found.get_str("workers"))
}

// The connections that are told behind a command.
fn connections_told(found: &ArgMatches<'_>) -> Option<Option<u64>>
    ensures { result ≡ connections_in (first_of (codes "connections") (rows_of (found_of found.now))) }
{
    connections_of(found.get_str("connections"))
}

// A number: this one where none is told, and nothing where what is told is no number.
fn number_or(word: Option<&str>, unless: u64) -> Option<u64>
    ensures { result ≡ number_or unless (option_map (λ w. w.now) word.entry) }
{
    match word {
        None => Some(unless),
        Some(word) => number_of(word),
    }
}

// The seconds that a peer may send nothing, as they are told behind a command.
fn idle_told(found: &ArgMatches<'_>) -> Option<u64>
    ensures { result ≡ idle_in (first_of (codes "idle") (rows_of (found_of found.now))) }
{
    number_or(found.get_str("idle"), 3600)
}

// The seconds that a peer may leave a reply unread, as they are told behind a command.
fn stall_told(found: &ArgMatches<'_>) -> Option<u64>
    ensures { result ≡ stall_in (first_of (codes "stall") (rows_of (found_of found.now))) }
{
    number_or(found.get_str("stall"), 60)
}

// How long a daemon waits, as it is told behind a command.
fn waits_told(found: &ArgMatches<'_>) -> Result<Waits, ValueOption>
    ensures { result ≡ waits_in (rows_of (found_of found.now)) }
{
    match idle_told(found) {
        Some(idle) => match stall_told(found) {
            Some(stall) => Ok(Waits { idle, stall }),
            None => Err(ValueOption::Stall),
        },
        None => Err(ValueOption::Idle),
    }
}

// The steps that are told behind a command.
fn steps_told(found: &ArgMatches<'_>) -> Option<u64>
    ensures { result ≡ steps_in (first_of (codes "steps") (rows_of (found_of found.now))) }
{
    number_or(found.get_str("steps"), 1_000_000_000)
}

// The run of so many steps that is asked for, by what stands behind the command.
#[tactic(auto, using(crate::proofs::WordLemmas::value_in_rows))]
fn run_for<'a>(found: &ArgMatches<'a>, steps: u64, workers: Option<usize>) -> RunOrder<'a>
    ensures { said_run result ≡ run_of_steps steps workers (rows_of (found_of found.now)) }
{
    let folder = found.get_str("folder").unwrap_or(".");
    let module_path = found.get_str("module");
    let main_path = found.get_str("main");
    RunOrder {
        folder,
        module_path,
        main_path,
        steps,
        workers,
    }
}

// The run that is asked for, by what stands behind the command.
fn run_of<'a>(found: &ArgMatches<'a>) -> Request<'a>
    ensures { said result ≡ run_in (rows_of (found_of found.now)) }
{
    match steps_told(found) {
        Some(steps) => match threads_told(found) {
            Some(workers) => Request::Run(run_for(found, steps, workers)),
            None => Request::BadValue(ValueOption::Workers),
        },
        None => Request::BadValue(ValueOption::Steps),
    }
}

// The script that is asked for, by what stands behind the command.
fn script_of<'a>(found: &ArgMatches<'a>) -> Request<'a>
    ensures { said result ≡ script_in (rows_of (found_of found.now)) }
{
    match workers_told(found) {
        Some(workers) => Request::Script(workers),
        None => Request::BadValue(ValueOption::Workers),
    }
}

// The address that is told behind a command.
#[tactic(auto, using(crate::proofs::WordLemmas::value_in_rows))]
fn address_told<'a>(found: &ArgMatches<'a>) -> &'a str
    ensures { result.now ≡ unwrap_or (first_of (codes "listen") (rows_of (found_of found.now))) [] }
{
    found.get_str("listen").unwrap_or("")
}

// The daemon that is asked for, by what stands behind the command.
fn serve_of<'a>(found: &ArgMatches<'a>) -> Request<'a>
    ensures { said result ≡ serve_in (rows_of (found_of found.now)) }
{
    let address = address_told(found);
    let until_input_ends = found.get_count("until-input-ends") > 0;
    match workers_told(found) {
        Some(workers) => match connections_told(found) {
            Some(connections) => match waits_told(found) {
                Ok(waits) => Request::Serve(Daemon {
                    address,
                    workers,
                    connections,
                    waits,
                    until_input_ends,
                }),
                Err(option) => Request::BadValue(option),
            },
            None => Request::BadValue(ValueOption::Connections),
        },
        None => Request::BadValue(ValueOption::Workers),
    }
}

// The form that a word names.
fn format_named(word: &str) -> Option<Format>
    ensures { result ≡ format_named word.now }
{
    if word == "text" {
        return Some(Format::Text);
    }
    if word == "json" {
        return Some(Format::Json);
    }
    if word == "github" {
        return Some(Format::Github);
    }
    if word == "sarif" {
        return Some(Format::Sarif);
    }
    None
}

// The form that is told: text where none is, and nothing where what is told names none.
fn format_of(word: Option<&str>) -> Option<Format>
    ensures { result ≡ format_in (option_map (λ w. w.now) word.entry) }
{
    match word {
        None => Some(Format::Text),
        Some(word) => format_named(word),
    }
}

// The form that is told behind a command.
fn format_told(found: &ArgMatches<'_>) -> Option<Format>
    ensures { result ≡ format_in (first_of (codes "format") (rows_of (found_of found.now))) }
{
    format_of(found.get_str("format"))
}

// When there are colours, by a word.
fn color_named(word: &str) -> Option<Color>
    ensures { result ≡ color_named word.now }
{
    if word == "auto" {
        return Some(Color::Auto);
    }
    if word == "always" {
        return Some(Color::Always);
    }
    if word == "never" {
        return Some(Color::Never);
    }
    None
}

// When there are colours: where a terminal reads them, where nothing is told, and nothing where what is told is no such word.
fn color_of(word: Option<&str>) -> Option<Color>
    ensures { result ≡ color_in (option_map (λ w. w.now) word.entry) }
{
    match word {
        None => Some(Color::Auto),
        Some(word) => color_named(word),
    }
}

// When there are colours, as it is told behind a command.
fn color_told(found: &ArgMatches<'_>) -> Option<Color>
    ensures { result ≡ color_in (first_of (codes "color") (rows_of (found_of found.now))) }
{
    color_of(found.get_str("color"))
}

// How the faults are written: as JSON where that is asked for, and else in a form.
fn style_of(is_json: bool, all: bool, source: bool, format: Format, color: Color) -> Style
    ensures { result ≡ style_of is_json all source format color }
{
    Style {
        format: if is_json { Format::Json } else { format },
        all,
        color,
        source,
    }
}

// How the faults are written, by what stands behind the command.
fn style_told(found: &ArgMatches<'_>, format: Format, color: Color) -> Style
    ensures { result ≡ style_in format color (rows_of (found_of found.now)) }
{
    let is_json = found.get_count("json") > 0;
    let all = found.get_count("all") > 0;
    let source = found.get_count("source") > 0;
    style_of(is_json, all, source, format, color)
}

// The check that is asked for, by what stands behind the command.
#[tactic(auto, using(crate::proofs::WordLemmas::value_in_rows))]
fn order_of<'a>(found: &ArgMatches<'a>, style: Style, workers: Option<usize>) -> Order<'a>
    ensures { said_order result ≡ order_in style workers (rows_of (found_of found.now)) }
{
    Order {
        folder: found.get_str("folder").unwrap_or("."),
        module_path: found.get_str("module"),
        style,
        workers,
    }
}

// The check by so many threads that is asked for.
fn check_by<'a>(
    found: &ArgMatches<'a>,
    format: Format,
    color: Color,
    workers: Option<usize>,
) -> Request<'a>
    ensures { said result ≡ check_by format color workers (rows_of (found_of found.now)) }
{
    Request::Check(order_of(found, style_told(found, format, color), workers))
}

// The check that is asked for, where the words behind its options are such that they take.
fn check_of<'a>(found: &ArgMatches<'a>) -> Request<'a>
    ensures { said result ≡ check_in (rows_of (found_of found.now)) }
{
    match format_told(found) {
        Some(format) => match color_told(found) {
            Some(color) => match threads_told(found) {
                Some(workers) => check_by(found, format, color, workers),
                None => Request::BadValue(ValueOption::Workers),
            },
            None => Request::BadValue(ValueOption::Colors),
        },
        None => Request::BadValue(ValueOption::Form),
    }
}

// What is to be explained, by what stands behind the command.
#[tactic(auto, using(crate::proofs::WordLemmas::value_in_rows))]
fn explain_of<'a>(found: &ArgMatches<'a>) -> Request<'a>
    ensures { said result ≡ explain_in (rows_of (found_of found.now)) }
{
    let as_json = found.get_count("json") > 0;
    Request::Explain(found.get_str("rule"), as_json)
}

// What a command asks for, by its name and what stands behind it.
#[tactic(auto, using(crate::proofs::WordLemmas::value_in_rows))]
fn request_of<'a>(name: &str, found: &ArgMatches<'a>) -> Request<'a>
    ensures { said result ≡ asked_in (name.now, rows_of (found_of found.now)) }
{
    if name == "explain" {
        return explain_of(found);
    }
    if name == "check" {
        return check_of(found);
    }
    if name == "help" {
        return Request::Help(found.get_str("command"));
    }
    if name == "script" {
        return script_of(found);
    }
    if name == "serve" {
        return serve_of(found);
    }
    if name == "run" {
        return run_of(found);
    }
    if name == "lsp" {
        return Request::Editor;
    }
    Request::Resolve
}

// Whether a command on sources, or the help, has a name.
fn is_checker(name: &str) -> bool
    ensures { result ≡ names_checker name.now }
{
    name == "resolve" || name == "check" || name == "explain" || name == "help"
}

// Whether a command that serves or runs has a name.
fn is_server(name: &str) -> bool
    ensures { result ≡ names_server name.now }
{
    name == "script" || name == "serve" || name == "run" || name == "lsp"
}

// Whether a command has a name.
fn is_command(name: &str) -> bool
    ensures { result ≡ names_command name.now }
{
    is_checker(name) || is_server(name)
}

// A word, where it is the name of a command.
fn command_named(word: &str) -> Option<&str>
    ensures { option_map (λ name. name.now) result ≡ if_command word.now }
{
    if is_command(word) {
        return Some(word);
    }
    None
}

// The command whose name stands behind the program's.
fn second_command<'a, S: AsStr>(words: &'a [S]) -> Option<&'a str>
    ensures { option_map (λ name. name.now) result ≡ command_behind (map S.text words.now) }
{
    match words.get(1) {
        Some(word) => command_named(word.as_str()),
        None => None,
    }
}

/// What the words of a command line ask for, of which the first is the program's name.
///
/// # Errors
///
/// What is wrong with the words, or [`ErrorKind::OutOfMemory`].
pub fn read_words<'a, S: AsStr>(alloc: Global, words: &'a [S]) -> Result<Request<'a>, Error>
    ensures { Asks (map S.text words.now) result }
{
    match command(alloc)?.try_get_matches_from(words) {
        Ok(matches) => match matches.subcommand() {
            Some((name, found)) => Ok(request_of(name, found)),
            None => Ok(Request::Help(None)),
        },
        Err(error) => match error.kind() {
            ErrorKind::DisplayHelp => Ok(Request::Help(second_command(words))),
            ErrorKind::DisplayVersion => Ok(Request::Version),
            _ => Err(error),
        },
    }
}

/// A law, with nothing to run: what command lines of each form ask for.
pub fn forms()
    ensures { Forms }
{}
