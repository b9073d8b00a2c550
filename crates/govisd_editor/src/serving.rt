//! An editor that is served.

use crate::requests::handle;
use go_lsp_core::frames::{FrameEnd, Input, read_message};
use govisd_diagnostics::publish;
use govisd_documents::{Disk, Phase, Session};
use govisd_protocol::{ErrorCode, Stop, refuse_with, send_refusal};
use serde_json::Value;
use std::alloc::Global;
use std::io::{Read, Write};

/// How serving an editor ended.
#[derive(Clone, Copy, Debug, PartialEq, Eq)]
pub enum EditorEnd {
    /// The editor said `exit` after `shutdown`.
    Done,
    /// The editor said `exit` with no `shutdown` before.
    Left,
    /// The input ended, or cannot be cut into messages.
    Cut,
    /// The reader failed.
    ReadFault,
    /// The writer failed.
    WriteFault,
    /// Memory ran out.
    Memory,
}

impl EditorEnd {
    ghost use Rattle.std.specs.Prelude.{◌≡◌};
    ghost use Rattle.govisd_editor.specs.Ends.{status_of};

    /// The exit status for it: 0 where the editor said `exit` after `shutdown`, else 1.
    pub fn status(self) -> u8
        ensures { result ≡ status_of self }
    {
        match self {
            EditorEnd::Done => 0,
            EditorEnd::Left => 1,
            EditorEnd::Cut => 1,
            EditorEnd::ReadFault => 1,
            EditorEnd::WriteFault => 1,
            EditorEnd::Memory => 1,
        }
    }
}

// How serving ended that stopped.
fn end_of(session: &Session, stop: Stop) -> EditorEnd {
    match stop {
        Stop::Exit => {
            if session.phase == Phase::Shut {
                EditorEnd::Done
            } else {
                EditorEnd::Left
            }
        }
        Stop::WriteFault => EditorEnd::WriteFault,
        Stop::Memory => EditorEnd::Memory,
    }
}

/// Compiles what was changed, and tells what is wrong.
///
/// # Errors
///
/// A [`Stop`] where memory is wanting or the writer fails.
pub(crate) fn settle<W: Write>(writer: &mut W, session: &mut Session) -> Result<(), Stop> {
    if session.settle()? {
        publish(writer, session)?;
    }
    Ok(())
}

// Answers what is no message.
fn refuse_frame<W: Write>(alloc: Global, writer: &mut W, text: &str) -> Result<(), Stop> {
    let why = refuse_with(alloc, ErrorCode::Parse, text)?;
    send_refusal(alloc, writer, &Value::Null, &why)
}

// How serving ended where no message can be read.
fn cut<W: Write>(alloc: Global, writer: &mut W, end: FrameEnd) -> EditorEnd {
    match end {
        FrameEnd::Done | FrameEnd::Cut => EditorEnd::Cut,
        FrameEnd::ReadFault | FrameEnd::Turns => EditorEnd::ReadFault,
        FrameEnd::Memory => EditorEnd::Memory,
        FrameEnd::LongHead | FrameEnd::NoLength | FrameEnd::LongBody => {
            match refuse_frame(alloc, writer, "no message begins here") {
                Ok(()) => EditorEnd::Cut,
                Err(_) => EditorEnd::WriteFault,
            }
        }
    }
}

// One message: it is read and handled. What was changed is compiled before, where no message is there to be read.
fn turn<D: Disk, R: Read, W: Write>(
    disk: &D,
    reader: &mut R,
    writer: &mut W,
    input: &mut Input,
    session: &mut Session,
) -> Result<(), EditorEnd> {
    let alloc = session.alloc;
    if input.is_empty() {
        if let Err(stop) = settle(writer, session) {
            return Err(end_of(session, stop));
        }
    }
    let message = match read_message(alloc, reader, input) {
        Ok(message) => message,
        Err(end) if end.goes_on() => return refuse_long(alloc, writer, session),
        Err(end) => return Err(cut(alloc, writer, end)),
    };
    match handle(disk, writer, session, message.as_slice()) {
        Ok(()) => Ok(()),
        Err(stop) => Err(end_of(session, stop)),
    }
}

// Answers a message that cannot be taken, after which the next one can.
fn refuse_long<W: Write>(
    alloc: Global,
    writer: &mut W,
    session: &Session,
) -> Result<(), EditorEnd> {
    match refuse_frame(
        alloc,
        writer,
        "a message without its length, or longer than 67,108,864 bytes",
    ) {
        Ok(()) => Ok(()),
        Err(stop) => Err(end_of(session, stop)),
    }
}

// Serves an editor with a session that has begun.
fn serve<D: Disk, R: Read, W: Write>(
    disk: &D,
    reader: &mut R,
    writer: &mut W,
    input: &mut Input,
    session: &mut Session,
) -> EditorEnd {
    for _turn in 0..u64::MAX {
        if let Err(end) = turn(disk, reader, writer, input, session) {
            return end;
        }
    }
    EditorEnd::Cut
}

/// Serves one editor, from its first message to its `exit` or to the end of the input: messages of the Language Server Protocol, one after another. What was
/// changed is compiled as soon as no further message has come, and before a request is answered. The files of the module are read by `disk`; nothing is
/// written into its folder.
pub fn run_editor<D: Disk, R: Read, W: Write>(
    alloc: Global,
    disk: &D,
    reader: &mut R,
    writer: &mut W,
) -> EditorEnd {
    let Ok(mut session) = Session::new(alloc) else {
        return EditorEnd::Memory;
    };
    let Ok(mut input) = Input::new(alloc) else {
        return EditorEnd::Memory;
    };
    serve(disk, reader, writer, &mut input, &mut session)
}
