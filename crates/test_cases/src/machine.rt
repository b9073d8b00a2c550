//! The core machine and halls by themselves.
use std::io::ErrorKind;
use std::sync::Wait;
use std::thread::Threads;
use std::time::Clock;
use std::{fs, io};
use test_events::{Order, run, show_events};
use test_halls::show_scene;
use test_probe::show::Lines;

/// What is told where the words are none of a measured call.
const USAGE: &str =
    "usage: test_cases measured batches|trees|parts near|spread body|constant first|middle|last kept|rebuilt|compiled PACKAGES IMPORTS TIMES\n";

/// Writes what is replied to the lists of a file.
///
/// # Errors
///
/// The error of the file or of standard output.
pub fn show_lists(rt: &HostRuntime, file: &str) -> io::Result<()> {
    let text = fs::read_to_string(rt, file)?;
    let mut out = Lines::new(rt.alloc());
    show_events(rt.alloc(), &mut out, text.as_str());
    let lines = out.finish()?;
    print!(rt; "{lines}")
}

/// Does what is measured, and writes what was done. The status is 1 where a rule refuses something, and 2 where the words are none of a call.
///
/// # Errors
///
/// The error of standard output, or of that for errors.
pub fn show_measured(rt: &HostRuntime, words: &[String]) -> io::Result<u8> {
    let Some(order) = Order::read(words) else {
        eprint!(rt; "{USAGE}")?;
        return Ok(2);
    };
    match run(rt.alloc(), order) {
        Ok(counts) => {
            print!(rt; "{counts}")?;
            Ok(0)
        }
        Err(rule) => {
            eprint!(rt; "refused {rule}\n")?;
            Ok(1)
        }
    }
}

/// Plays the scene of this name, and writes what it shows.
///
/// # Errors
///
/// `ErrorKind::InvalidInput` where there is no such scene, want of memory, and the error of standard output.
pub fn show_hall<T: Threads + Wait + Clock + Sync>(
    rt: &HostRuntime,
    threads: &T,
    name: &str,
) -> io::Result<()> {
    let mut out = Lines::new(rt.alloc());
    if !show_scene(threads, rt.alloc(), name, &mut out) {
        return Err(io::Error::from(ErrorKind::InvalidInput));
    }
    let lines = out.finish()?;
    print!(rt; "{lines}")
}
