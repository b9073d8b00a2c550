//! Serving the lines of a connection.
ghost use Rattle.std.specs.Prelude.{◌≡◌, ◌+◌, ◌++◌, ◌∷◌, ◌<◌, ◌≤◌, [], ℕ, List, Some, IfOk, IfErr, IfSome, OnOk, IsTrue, ◌↔◌, not, length, is_some, vec_len, false, true};
ghost use Rattle.std.specs.List.{position};
ghost use Rattle.std.specs.Io.KnownBytes.{Appends, Consumes, Keeps};
ghost use Rattle.go_wire_core.specs.Lines.{is_blank, is_newline, is_space, lines};
ghost use Rattle.go_wire_core.specs.Replies.{line_of};
ghost use Rattle.go_wire_core.specs.Requests.{IsStepFor};
ghost use Rattle.go_wire_core.specs.Steps.{steps_of};
ghost use Rattle.go_wire_core.specs.Ends.{IsEnd, ReadsUpTo, Served, most_read};
ghost use Rattle.go_wire_core.specs.mirrors.Serving.{Going, IsEndOfLines, IsEndOfTurn, IsLine, IsRefusedLong, IsStop, IsUnsent, IsWithin, IsWriteFault};

use crate::counting::CountedReader;
use crate::desk::Desk;
use crate::outputs::{flush_out, is_interruption, write_out};
use crate::reading::step_of;
use crate::reply::WireReply;
use crate::step::Step;
use crate::write::line_of;
use go_text_core::Rule;
use std::alloc::{AllocError, Global};
use std::io::{Read, Write};
use std::sync::Wait;

/// The most bytes that a line may have, without its newline.
const MOST: usize = 2_097_152;

/// The most bytes of one read.
const PIECE: usize = 65_536;

/// How serving ended.
#[derive(Clone, Copy, Debug, PartialEq, Eq)]
pub enum ServeEnd {
    /// The input ended, and each of its lines was served.
    Done,
    /// A line has more than 2,097,152 bytes without its newline. It was refused by V1, and each line before it was served. Nothing behind it was.
    TooLong,
    /// The reader failed. Each whole line that came before was served, and nothing else. The rule for it is V4; no line tells it.
    ReadFault,
    /// The writer failed, at a write or at a flush. Each line before one was served; of the reply to that one not more than the first bytes
    /// may have gone out, or all that were not flushed.
    WriteFault,
    /// All turns were spent. Each whole line that came was served, and nothing else. The rule for it is V4; no line tells it.
    Turns,
    /// Memory ran out. The first lines were served; at most one request more was asked, whose reply did not go out.
    Memory,
}

// Flushes a writer.
fn flush<W: Write>(writer: &mut W) -> Result<(), ServeEnd>
    ensures kept { Keeps (W.contents writer.old) (W.contents writer.new) }
    ensures err { IfErr result IsWriteFault }
{
    match flush_out(writer) {
        Ok(()) => Ok(()),
        Err(_) => Err(ServeEnd::WriteFault),
    }
}

// Sends a reply: it is written, and the writer is flushed.
fn send<W: Write>(
    alloc: Global,
    writer: &mut W,
    session: Option<u8>,
    reply: &WireReply,
) -> Result<(), ServeEnd>
    ensures ok { OnOk result (Appends (W.contents writer.old) (W.contents writer.new) (line_of session reply.now)) }
    ensures err { IfErr result (λ end. IsUnsent end (W.contents writer.old) (W.contents writer.new) (line_of session reply.now)) }
{
    let Ok(line) = line_of(alloc, session, reply) else {
        return Err(ServeEnd::Memory);
    };
    match write_out(writer, line.as_slice()) {
        Ok(()) => flush(writer),
        Err(_) => Err(ServeEnd::WriteFault),
    }
}

// Where the first byte is that no blank line has.
fn other_in(line: &[u8]) -> Option<usize>
    ensures { result ≡ position (λ b. not (is_space b)) line.now }
{
    line.iter()
        .position(|b| !(*b == b' ' || *b == b'\t' || *b == b'\r'))
}

// Whether a line is of spaces, tabs and carriage returns alone.
fn is_blank(line: &[u8]) -> bool
    ensures { result ≡ is_blank line.now }
{
    other_in(line).is_none()
}

// Serves a line that is not blank.
fn serve_step<H: Wait, W: Write, D: Desk>(
    rt: &H,
    alloc: Global,
    writer: &mut W,
    desk: &mut D,
    step: Step,
) -> Result<(), ServeEnd>
    requires { IsStepFor (D.is_numbered desk.old) step }
    ensures same { D.is_numbered desk.new ≡ D.is_numbered desk.old }
    ensures ok { OnOk result (Served D.answers (step ∷ []) desk.old desk.new (W.contents writer.old) (W.contents writer.new)) }
    ensures err { IfErr result (λ end. IsStop end D.answers (step ∷ []) desk.old desk.new (W.contents writer.old) (W.contents writer.new)) }
{
    match step {
        Step::Ask { request } => {
            let session = request.session;
            let reply = desk.answer(rt, request);
            send(alloc, writer, session, &reply)
        }
        Step::Refuse { session, rule } => {
            send(alloc, writer, session, &WireReply::Refused { rule })
        }
    }
}

// Serves a line.
fn serve_line<H: Wait, W: Write, D: Desk>(
    rt: &H,
    alloc: Global,
    writer: &mut W,
    desk: &mut D,
    numbered: bool,
    line: &[u8],
) -> Result<(), ServeEnd>
    requires { D.is_numbered desk.old ≡ numbered }
    ensures same { D.is_numbered desk.new ≡ D.is_numbered desk.old }
    ensures ok { OnOk result (Served D.answers (steps_of numbered line.now) desk.old desk.new (W.contents writer.old) (W.contents writer.new)) }
    ensures err { IfErr result (λ end. IsStop end D.answers (steps_of numbered line.now) desk.old desk.new (W.contents writer.old) (W.contents writer.new)) }
{
    if is_blank(line) {
        return Ok(());
    }
    let Ok(step) = step_of(alloc, numbered, line) else {
        return Err(ServeEnd::Memory);
    };
    serve_step(rt, alloc, writer, desk, step)
}

// Where the first newline is.
fn newline_in(bytes: &[u8]) -> Option<usize>
    ensures { result ≡ position is_newline bytes.now }
{
    bytes.iter().position(|b| *b == b'\n')
}

// Refuses a line that is too long.
fn refuse_long<W: Write>(alloc: Global, writer: &mut W) -> ServeEnd
    ensures { IsRefusedLong result (W.contents writer.old) (W.contents writer.new) }
{
    match send(alloc, writer, None, &WireReply::Refused { rule: Rule::V1 }) {
        Ok(()) => ServeEnd::TooLong,
        Err(end) => end,
    }
}

// Ends the line that is begun by a part of a piece, and serves it.
fn end_line<H: Wait, W: Write, D: Desk>(
    rt: &H,
    alloc: Global,
    writer: &mut W,
    desk: &mut D,
    numbered: bool,
    begun: &mut Vec<u8>,
    part: &[u8],
) -> Result<(), ServeEnd>
    requires line { IsLine begun.old.items }
    requires within { IsWithin part.now }
    requires numbered { D.is_numbered desk.old ≡ numbered }
    ensures same { D.is_numbered desk.new ≡ D.is_numbered desk.old }
    ensures empty { OnOk result (begun.new.items ≡ []) }
    ensures whole { OnOk result (IsLine (begun.old.items ++ part.now)) }
    ensures ok { OnOk result (Served D.answers (steps_of numbered (begun.old.items ++ part.now)) desk.old desk.new (W.contents writer.old) (W.contents writer.new)) }
    ensures err { IfErr result (λ end. (more : List (List ℕ)) → IsEndOfLines end numbered D.answers ((begun.old.items ++ part.now) ∷ more) desk.old desk.new (W.contents writer.old) (W.contents writer.new)) }
{
    if part.len() > MOST - begun.len() {
        return Err(refuse_long(alloc, writer));
    }
    if begun.extend_from_slice(part).is_err() {
        return Err(ServeEnd::Memory);
    }
    match serve_line(rt, alloc, writer, desk, numbered, begun.as_slice()) {
        Ok(()) => {
            begun.clear();
            Ok(())
        }
        Err(end) => Err(end),
    }
}

// Serves the lines that end in a piece, and begins the one behind them.
fn serve_piece<H: Wait, W: Write, D: Desk>(
    rt: &H,
    alloc: Global,
    writer: &mut W,
    desk: &mut D,
    numbered: bool,
    begun: &mut Vec<u8>,
    piece: &[u8],
) -> Result<(), ServeEnd>
    requires line { IsLine begun.old.items }
    requires numbered { D.is_numbered desk.old ≡ numbered }
    ensures same { D.is_numbered desk.new ≡ D.is_numbered desk.old }
    ensures ok { OnOk result (Going numbered D.answers begun.old.items piece.now begun.new.items desk.old desk.new (W.contents writer.old) (W.contents writer.new)) }
    ensures err { IfErr result (λ end. (left : List ℕ) → IsEndOfLines end numbered D.answers (lines (begun.old.items ++ (piece.now ++ left))) desk.old desk.new (W.contents writer.old) (W.contents writer.new)) }
{
    let mut rest = piece;
    'pieces: while let Some(at) = newline_in(rest) {
        match end_line(rt, alloc, writer, desk, numbered, begun, &rest[..at]) {
            Ok(()) => rest = &rest[at + 1..],
            Err(end) => return Err(end),
        }
    }
    if rest.len() > MOST - begun.len() {
        return Err(refuse_long(alloc, writer));
    }
    if begun.extend_from_slice(rest).is_err() {
        return Err(ServeEnd::Memory);
    }
    Ok(())
}

// Serves the last line.
fn serve_last<H: Wait, W: Write, D: Desk>(
    rt: &H,
    alloc: Global,
    writer: &mut W,
    desk: &mut D,
    numbered: bool,
    line: &[u8],
) -> ServeEnd
    requires line { IsLine line.now }
    requires numbered { D.is_numbered desk.old ≡ numbered }
    ensures same { D.is_numbered desk.new ≡ D.is_numbered desk.old }
    ensures end { IsEndOfLines result numbered D.answers (line.now ∷ []) desk.old desk.new (W.contents writer.old) (W.contents writer.new) }
{
    match serve_line(rt, alloc, writer, desk, numbered, line) {
        Ok(()) => ServeEnd::Done,
        Err(end) => end,
    }
}

// One read, and what it gives.
fn serve_turn<H: Wait, R: Read, W: Write, D: Desk>(
    rt: &H,
    alloc: Global,
    reader: &mut CountedReader<R>,
    writer: &mut W,
    desk: &mut D,
    numbered: bool,
    begun: &mut Vec<u8>,
    buffer: &mut [u8],
) -> Result<(), ServeEnd>
    requires line { IsLine begun.old.items }
    requires some { 0 < length buffer.old }
    requires small { length buffer.old ≤ PIECE }
    requires numbered { D.is_numbered desk.old ≡ numbered }
    requires more { reader.old.reads < 18446744073709551615 }
    requires sound { reader.old.failed ≡ false }
    ensures same { D.is_numbered desk.new ≡ D.is_numbered desk.old }
    ensures ok { OnOk result ((came : List ℕ) × Consumes (R.remaining reader.old.reader) (R.remaining reader.new.reader) came × Going numbered D.answers begun.old.items came begun.new.items desk.old desk.new (W.contents writer.old) (W.contents writer.new)) }
    ensures err { IfErr result (λ end. IsEndOfTurn end numbered D.answers begun.old.items (R.remaining reader.old.reader) (R.remaining reader.new.reader) desk.old desk.new (W.contents writer.old) (W.contents writer.new)) }
    ensures counted { reader.new.reads ≡ reader.old.reads + 1 }
    ensures sound { OnOk result (reader.new.failed ≡ false) }
    ensures fault { IfErr result (λ end. (end ≡ ServeEnd.ReadFault) ↔ (reader.new.failed ≡ true)) }
    ensures few { ReadsUpTo PIECE (R.remaining reader.old.reader) (R.remaining reader.new.reader) }
{
    match reader.read(buffer) {
        Err(error) if is_interruption(error.kind()) => Ok(()),
        Err(_) => Err(ServeEnd::ReadFault),
        Ok(count) => {
            if count == 0 {
                return Err(serve_last(rt, alloc, writer, desk, numbered, begun.as_slice()));
            }
            serve_piece(rt, alloc, writer, desk, numbered, begun, &buffer[..count])
        }
    }
}

// So many zeros.
fn zeros(alloc: Global, len: usize) -> Result<Vec<u8>, AllocError>
    ensures { IfOk result (λ v. vec_len v ≡ len) }
{
    vec![in alloc; 0u8; len]
}

/// Serves the lines of a reader: asks the desk what they ask, in order, and writes the line of each reply.
///
/// A line is what stands between newlines; the last one may lack its newline. Lines of spaces, tabs and carriage returns alone are passed over.
/// A line that is no request is refused, by V2, or by V3 where it names a command that there is not, and the desk is not asked. Each reply is
/// one line, and is written and flushed before the next request is asked. How the bytes come, in which pieces and with which interruptions,
/// makes no difference, and neither do short writes.
///
/// A turn is one read of at most 65,536 bytes; one that is interrupted counts, and is made again as the next turn. So at most `turns` reads of
/// the reader, which nobody has read yet, are made; at most `turns` times 65,536 bytes are read, and what is behind them stays in the reader. A
/// read may wait, and so may the desk.
///
/// The end is [`ServeEnd::Turns`] only where `turns` reads were made, and [`ServeEnd::ReadFault`] just where a read failed.
///
/// What a reader and a writer that tell their bytes have in the end is said for each end by [`ServeEnd`]. Where memory runs out the end is
/// [`ServeEnd::Memory`]; a reply is never cut for it.
pub fn serve<H: Wait, R: Read, W: Write, D: Desk>(
    rt: &H,
    alloc: Global,
    reader: &mut CountedReader<R>,
    writer: &mut W,
    desk: &mut D,
    turns: u64,
) -> ServeEnd
    requires unread { reader.old.reads ≡ 0 }
    requires sound { reader.old.failed ≡ false }
    ensures end { IfSome (R.remaining reader.old.reader) (λ bytes. IsEnd result (D.is_numbered desk.old) D.answers bytes (R.remaining reader.new.reader) desk.old desk.new (W.contents writer.old) (W.contents writer.new)) }
    ensures few { ReadsUpTo (most_read result turns) (R.remaining reader.old.reader) (R.remaining reader.new.reader) }
    ensures reads { reader.new.reads ≤ turns }
    ensures spent { result ≡ ServeEnd.Turns → reader.new.reads ≡ turns }
    ensures fault { (result ≡ ServeEnd.ReadFault) ↔ (reader.new.failed ≡ true) }
{
    let numbered = desk.numbered();
    let mut begun = Vec::new(alloc);
    let Ok(mut buffer) = zeros(alloc, PIECE) else {
        return ServeEnd::Memory;
    };
    for _turn in 0..turns {
        match serve_turn(
            rt,
            alloc,
            reader,
            writer,
            desk,
            numbered,
            &mut begun,
            &mut buffer,
        ) {
            Ok(()) => (),
            Err(end) => return end,
        }
    }
    ServeEnd::Turns
}
