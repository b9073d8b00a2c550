//! The program `govisd`: its command line, over standard input and output.
#![tactic(auto)]

mod daemons;
mod editing;
mod launches;
mod program;
mod watching;

use daemons::Watches;
use go_graph_core::Workspace;
use govisd_editor::Disk;
use govisd_editor::host::HostDisk;
use govisd_folders::runs::{RunOrder, run_folder};
use govisd_folders::{CheckAnswer, Order, check_folder};
use govisd_words::unread_status;
use launches::Launches;
use program::{Checks, run};
use std::alloc::{AllocError, Global};
use std::io;
use std::process::ExitCode;
use std::sync::Arc;
use std::sync::atomic::AtomicBool;
use std::thread::Threads;
use thiserror::Error;
use watching::watch;

/// The folders and the standard input of the system, and leave to begin threads that read them.
#[derive(Drop)]
struct Folders<'a, T: Threads> {
    rt: &'a HostRuntime,
    threads: &'a T,
}

impl<T: Threads> Checks for Folders<'_, T> {
    ghost use Rattle.std.specs.Prelude.{IfSome};
    ghost use Rattle.govisd_folders.specs.Checks.{IsAnswerOfCheck};

    ghost Answers = { λ folders folder style path answer. IfSome answer (IsAnswerOfCheck folder style path) };

    fn check(&self, order: &Order<'_>) -> Result<CheckAnswer, AllocError> {
        check_folder(self.rt, self.threads, order)
    }
}

impl<T: Threads> Launches for Folders<'_, T> {
    ghost use Rattle.std.specs.Prelude.{IfSome};
    ghost use Rattle.govisd_folders.specs.runs.Answers.{IsAnswerOfRun};

    ghost Outcomes = { λ host folder path main steps answer. IfSome answer (IsAnswerOfRun folder path main steps) };

    fn launch(&self, order: &RunOrder<'_>) -> Result<CheckAnswer, AllocError> {
        run_folder(self.rt, self.threads, order)
    }
}

impl<T: Threads> Watches for Folders<'_, T> {
    fn watch(&self) -> Result<Arc<AtomicBool, Global>, AllocError> {
        watch(self.rt.alloc(), self.threads, self.rt.stdin())
    }
}

impl<T: Threads> Disk for Folders<'_, T> {
    fn packages(&self, folder: &str, module: &str) -> Result<Option<Workspace>, AllocError> {
        HostDisk::new(self.rt).packages(folder, module)
    }

    fn text(&self, path: &str) -> Option<String> {
        HostDisk::new(self.rt).text(path)
    }
}

/// Why the program does not begin.
#[derive(Debug, Drop, Error)]
enum ProgramFault {
    #[error("the command line cannot be read: {0}")]
    Words(#[from] io::Error),
    #[error("memory ran out")]
    Memory(#[from(alloc)] AllocError),
}

// The exit status where the program does not begin.
fn fault_status(fault: &ProgramFault) -> u8 {
    match fault {
        ProgramFault::Words(error) => unread_status(error.kind()),
        ProgramFault::Memory(_) => unread_status(io::ErrorKind::OutOfMemory),
    }
}

fn words_of(rt: &HostRuntime) -> Result<Vec<String>, ProgramFault> {
    let words = std::env::args(rt)?.collect(rt.alloc())?;
    Ok(words)
}

fn main(rt: HostRuntime) -> ExitCode {
    let words = match words_of(&rt) {
        Ok(words) => words,
        Err(fault) => {
            // Where this fails, there is nobody left to tell.
            let _ = eprintln!(rt; "govisd: {fault}");
            return ExitCode::from(fault_status(&fault));
        }
    };
    let ended = run(
        rt.alloc(),
        words.as_slice(),
        &Folders {
            rt: &rt,
            threads: &rt,
        },
        &rt,
        rt.stdin(),
        rt.stdout(),
        &mut rt.stderr(),
    );
    ExitCode::from(ended.ran.status)
}
