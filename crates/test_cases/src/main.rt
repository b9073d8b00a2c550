//! The program `test_cases`: what the layers of govisd answer.
//!
//! `test_cases KIND WORD.. [-- KIND WORD..]..` writes in lines what is answered of each kind to the words after it.
//!
//! | Kind | Its words |
//! |---|---|
//! | `script` | files with the lines of sessions, which are served as `govisd script` does |
//! | `broken` | such files, which are served where reading or writing fails |
//! | `loopback` | files with the lines of a connection, which a daemon serves whose listener is in memory |
//! | `check` | folders, each of which is checked as the module `example.com/FOLDER` |
//! | `branches` | files with the archive of a workspace, whose functions are checked in turn and with parts of their bodies at once |
//! | `events` | files with lists of events, which the core machine replies to (`test_events`) |
//! | `measured` | eight words that say what the core machine does again and again (`test_events`) |
//! | `halls` | scenes that sessions and workers play in a hall (`test_halls`) |
//! | others | files with a text, a table of cases or the archive of a workspace |
//!
//! The other kinds are at the head of data/cases.txt, and for snapshots of workspaces in `test_snapshot`. The status is 2 where there is no kind, or where
//! the words of `measured` are others. It is 1 where a file cannot be read, where there is no such scene, and where a rule refuses what is measured.
#![tactic(auto)]

mod loopback;
mod machine;
mod script;

use govisd_folders::{Color, Format, Order, Style, check_folder};
use std::alloc::{AllocError, Global};
use std::io::Eprint;
use std::process::ExitCode;
use std::sync::Wait;
use std::thread::Threads;
use std::time::Clock;
use std::{env, fs, io};
use test_probe::show::Lines;

/// What stands between the last word of a kind and the next kind.
const BREAK: &str = "--";

/// What is answered to a file of these bytes. The last bytes are those of the file before it of the same kind, and none before the first.
fn answer(
    alloc: Global,
    kind: &str,
    file: &str,
    bytes: &[u8],
    last: &[u8],
) -> Result<String, AllocError> {
    let mut out = Lines::new(alloc);
    let is_answered = match (str::from_utf8(bytes), str::from_utf8(last)) {
        (Ok(text), Ok(last)) => {
            test_snapshot::add_of_file(&mut out, alloc, kind, file, text, last)
        }
        _ => false,
    };
    if !is_answered {
        test_probe::add_of_file(&mut out, alloc, kind, file, bytes);
    }
    out.finish()
}

/// Writes what is answered to a file, and gives its bytes.
fn show(rt: &HostRuntime, kind: &str, file: &str, last: &[u8]) -> io::Result<Vec<u8>> {
    let bytes = fs::read(rt, file)?;
    let lines = answer(rt.alloc(), kind, file, bytes.as_slice(), last)?;
    print!(rt; "{lines}")?;
    Ok(bytes)
}

/// Writes how many functions the archive in a file has, and of how many the check of parts at once says another thing than the check in turn.
fn show_branches(rt: &HostRuntime, threads: &(impl Threads + Sync), file: &str) -> io::Result<()> {
    let bytes = fs::read(rt, file)?;
    let text = str::from_utf8(bytes.as_slice()).unwrap_or("");
    let mut out = Lines::new(rt.alloc());
    test_snapshot::add_branches(&mut out, threads, rt.alloc(), file, text);
    let lines = out.finish()?;
    print!(rt; "{lines}")
}

/// The check of a folder as a module.
fn order_of<'a>(folder: &'a str, module_path: &'a str) -> Order<'a> {
    Order {
        folder,
        module_path: Some(module_path),
        style: Style {
            format: Format::Text,
            all: false,
            color: Color::Never,
            source: false,
        },
        workers: Some(2),
    }
}

/// Writes what a check of a folder answers, what it says beside, and its status.
fn show_check(rt: &HostRuntime, threads: &impl Threads, folder: &str) -> io::Result<()> {
    let module_path = format!(in rt.alloc(); "example.com/{folder}")?;
    let order = order_of(folder, module_path.as_str());
    let answer = check_folder(rt, threads, &order)?;
    print!(rt; "{}{}status {}\n", answer.text, answer.said, answer.status)
}

/// Writes what is answered of a kind to one of its words. The last bytes are those of the file before it of the same kind.
fn show_word<T: Threads + Wait + Clock + Eprint + Sync>(
    rt: &HostRuntime,
    threads: &T,
    kind: &str,
    word: &str,
    last: &mut Vec<u8>,
) -> io::Result<()> {
    match kind {
        "script" => script::show_script(rt, threads, word)?,
        "broken" => script::show_faults(rt, threads, word)?,
        "loopback" => loopback::show_loopback(rt, threads, word)?,
        "check" => show_check(rt, threads, word)?,
        "branches" => show_branches(rt, threads, word)?,
        "events" => machine::show_lists(rt, word)?,
        "halls" => machine::show_hall(rt, threads, word)?,
        _ => *last = show(rt, kind, word, last.as_slice())?,
    }
    Ok(())
}

/// Writes what is answered of the first word, which is a kind, to the words after it, and gives the status that this has.
fn show_kind<T: Threads + Wait + Clock + Eprint + Sync>(
    rt: &HostRuntime,
    threads: &T,
    words: &[String],
) -> io::Result<u8> {
    let Some((kind, words)) = words.split_first() else {
        return Ok(2);
    };
    if kind.as_str() == "measured" {
        return machine::show_measured(rt, words);
    }
    let mut last = Vec::new(rt.alloc());
    for word in words {
        show_word(rt, threads, kind.as_str(), word.as_str(), &mut last)?;
    }
    Ok(0)
}

/// The words before the next break, or all.
fn before_break(words: &[String]) -> &[String] {
    for (at, word) in words.iter().enumerate() {
        if word.as_str() == BREAK {
            return words.get(..at).unwrap_or(words);
        }
    }
    words
}

fn main(rt: HostRuntime) -> io::Result<ExitCode> {
    let words: Vec<String> = env::args(&rt)?.collect(rt.alloc())?;
    let mut status = 2u8;
    let mut is_kind = true;
    for number in 1..words.len() {
        if is_kind {
            status = show_kind(&rt, &rt, before_break(&words.as_slice()[number..]))?;
            if status != 0 {
                return Ok(ExitCode::from(status));
            }
        }
        is_kind = words[number].as_str() == BREAK;
    }
    Ok(ExitCode::from(status))
}
