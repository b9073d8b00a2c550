//! The program's exit statuses.
ghost use Rattle.std.specs.Prelude.{◌≡◌};
ghost use Rattle.govisd_words.specs.Statuses.{end_status as status_of_end, refusal_status as status_of_refusal, serve_status as status_of_serve, unread_status as status_of_unread};

use clap::error::ErrorKind;
use go_wire_core::ServeEnd;
use govisd_resolve::ResolveEnd;
use std::io;

/// The exit status of a run: 0 for a source without fault, and else 1.
pub fn end_status(end: ResolveEnd) -> u8
    ensures { result ≡ status_of_end end }
{
    match end {
        ResolveEnd::Clean => 0,
        ResolveEnd::Faults | ResolveEnd::ReadFault | ResolveEnd::WriteFault | ResolveEnd::Memory =>
            1,
    }
}

/// The exit status of a script and of a daemon: 0 where its input ended or its last connection did, and else 1.
pub fn serve_status(end: ServeEnd) -> u8
    ensures { result ≡ status_of_serve end }
{
    match end {
        ServeEnd::Done => 0,
        ServeEnd::TooLong
        | ServeEnd::ReadFault
        | ServeEnd::WriteFault
        | ServeEnd::Turns
        | ServeEnd::Memory => 1,
    }
}

/// The exit status of a command line that is refused: 1 where memory ran out, and else 2.
pub fn refusal_status(kind: ErrorKind) -> u8
    ensures { result ≡ status_of_refusal kind }
{
    match kind {
        ErrorKind::OutOfMemory => 1,
        _ => 2,
    }
}

/// The exit status where the command line cannot be read: 1 where memory ran out, and else 2.
pub fn unread_status(kind: io::ErrorKind) -> u8
    ensures { result ≡ status_of_unread kind }
{
    match kind {
        io::ErrorKind::OutOfMemory => 1,
        _ => 2,
    }
}
