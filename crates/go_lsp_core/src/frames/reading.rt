//! Reading messages.
ghost use Rattle.std.specs.Prelude.{◌≡◌, ◌≤◌, ◌<◌, ◌+◌, IfErr, IfOk, OnOk, Some, drop, length, take};
ghost use Rattle.go_lsp_core.specs.declared.frames.reading.FrameEnd.TheVariants.{Memory};
ghost use Rattle.std.specs.Io.KnownBytes.{Keeps};
ghost use Rattle.go_lsp_core.specs.frames.Frames.{IsEnd, IsMessage, Took, content_length, goes_on, head_in, stream};
ghost use Rattle.go_lsp_core.specs.frames.mirrors.Reading.{IsPassed, IsShortOf, IsUnread};

use crate::frames::heads::{MOST_BODY, MOST_HEAD, content_length, head_in};
use crate::frames::input::Input;
use std::alloc::Global;
use std::io::Read;

// The most reads that are made for one message.
const TURNS: u64 = u64::MAX;

/// Why no message was read.
#[derive(Clone, Copy, Debug, PartialEq, Eq)]
pub enum FrameEnd {
    /// The input ended, and nothing stood before its end.
    Done,
    /// The input ended within a message.
    Cut,
    /// No head ends in the first 4,096 bytes. Where the next message begins is not known.
    LongHead,
    /// The head says no length. It is taken, and the next message is read from the bytes after it.
    NoLength,
    /// The message has more than 67,108,864 bytes. It is taken with its head, and the next message is read from the bytes after it.
    LongBody,
    /// The reader failed. What it gave before is kept, unless it belonged to a message that is too long.
    ReadFault,
    /// 2^64 - 1 reads were made for one message. What was read is kept, unless it belonged to a message that is too long.
    Turns,
    /// Memory ran out. What was read may be lost.
    Memory,
}

impl FrameEnd {
    /// Whether the next message can be read all the same: after `NoLength` and `LongBody`, which concern one message alone. After each other end there is
    /// nothing to go on with.
    pub fn goes_on(self) -> bool
        ensures { result ≡ goes_on self }
    {
        match self {
            FrameEnd::NoLength | FrameEnd::LongBody => true,
            _ => false,
        }
    }
}

// How many bytes are there.
fn count_of(input: &Input) -> usize
    ensures { result ≡ length input.now }
{
    input.rest().len()
}

// How many bytes the head has, where it is there.
fn head_of(input: &Input) -> Option<usize>
    ensures { result ≡ head_in input.now }
{
    head_in(input.rest())
}

// The first bytes that are there.
fn first(input: &Input, count: usize) -> &[u8]
    requires { count ≤ length input.now }
    ensures { result.now ≡ take count input.now }
{
    let (front, _) = input.rest().split_at(count);
    front
}

// Reads up to the end of the head.
fn fill_head<R: Read>(alloc: Global, reader: &mut R, input: &mut Input) -> Result<usize, FrameEnd>
    ensures kept { OnOk result (Keeps (stream input.old (R.remaining reader.old)) (stream input.new (R.remaining reader.new))) }
    ensures head { IfOk result (λ head. head_in input.new ≡ Some head) }
    ensures err { IfErr result (λ end. Took (stream input.old (R.remaining reader.old)) (stream input.new (R.remaining reader.new)) (IsEnd end)) }
{
    for _turn in 0..TURNS {
        if let Some(head) = head_of(input) {
            return Ok(head);
        }
        if count_of(input) >= MOST_HEAD {
            return Err(FrameEnd::LongHead);
        }
        match input.fill(alloc, reader) {
            Ok(more) => {
                if !more {
                    if count_of(input) == 0 {
                        return Err(FrameEnd::Done);
                    }
                    return Err(FrameEnd::Cut);
                }
            }
            Err(end) => return Err(end),
        }
    }
    Err(FrameEnd::Turns)
}

// Reads until so many bytes are there.
fn fill_up<R: Read>(
    alloc: Global,
    reader: &mut R,
    input: &mut Input,
    wanted: usize,
) -> Result<(), FrameEnd>
    ensures kept { OnOk result (Keeps (stream input.old (R.remaining reader.old)) (stream input.new (R.remaining reader.new))) }
    ensures enough { OnOk result (wanted ≤ length input.new) }
    ensures err { IfErr result (λ end. IsShortOf wanted end (stream input.old (R.remaining reader.old)) (stream input.new (R.remaining reader.new))) }
{
    for _turn in 0..TURNS {
        if count_of(input) >= wanted {
            return Ok(());
        }
        match input.fill(alloc, reader) {
            Ok(more) => {
                if !more {
                    return Err(FrameEnd::Cut);
                }
            }
            Err(end) => return Err(end),
        }
    }
    Err(FrameEnd::Turns)
}

// Takes of so many bytes those that are there, and answers how many are not.
fn pass_some(input: &mut Input, count: usize) -> usize
    ensures { IsPassed input.old input.new count result }
{
    let there = count_of(input).min(count);
    input.pass(there);
    count - there
}

// Passes over so many bytes, or over all that come where fewer do.
fn pass_over<R: Read>(
    alloc: Global,
    reader: &mut R,
    input: &mut Input,
    count: usize,
) -> Result<(), FrameEnd>
    ensures ok { OnOk result (Took (stream input.old (R.remaining reader.old)) (stream input.new (R.remaining reader.new)) (λ all left. left ≡ drop count all)) }
    ensures err { IfErr result (λ end. IsUnread end (stream input.old (R.remaining reader.old)) (stream input.new (R.remaining reader.new))) }
{
    let mut left = count;
    for _turn in 0..TURNS {
        left = pass_some(input, left);
        if left == 0 {
            return Ok(());
        }
        match input.fill(alloc, reader) {
            Ok(more) => {
                if !more {
                    return Ok(());
                }
            }
            Err(end) => return Err(end),
        }
    }
    Err(FrameEnd::Turns)
}

// Passes over a message that is too long, and answers how it ended.
fn pass_long<R: Read>(
    alloc: Global,
    reader: &mut R,
    input: &mut Input,
    head: usize,
    len: usize,
) -> FrameEnd
    requires long { MOST_BODY < len }
    requires head { head_in input.old ≡ Some head }
    requires length { content_length (take head input.old) ≡ Some len }
    ensures { Took (stream input.old (R.remaining reader.old)) (stream input.new (R.remaining reader.new)) (IsEnd result) }
{
    input.pass(head);
    match pass_over(alloc, reader, input, len) {
        Ok(()) => FrameEnd::LongBody,
        Err(end) => end,
    }
}

// Takes a message with its head.
fn taken(alloc: Global, input: &mut Input, head: usize, len: usize) -> Result<Vec<u8>, FrameEnd>
    requires { head + len ≤ length input.old }
    ensures ok { IfOk result (λ message. (message.items ≡ take len (drop head input.old)) × (input.new ≡ drop (head + len) input.old)) }
    ensures err { IfErr result (λ end. end ≡ Memory) }
{
    let (_, rest) = input.rest().split_at(head);
    let (body, _) = rest.split_at(len);
    let Ok(message) = Vec::from_slice(alloc, body) else {
        return Err(FrameEnd::Memory);
    };
    input.pass(head + len);
    Ok(message)
}

// Reads the bytes after a head, and takes the message.
fn read_rest<R: Read>(
    alloc: Global,
    reader: &mut R,
    input: &mut Input,
    head: usize,
    len: usize,
) -> Result<Vec<u8>, FrameEnd>
    requires small { head ≤ MOST_HEAD }
    requires short { len ≤ MOST_BODY }
    requires head { head_in input.old ≡ Some head }
    requires length { content_length (take head input.old) ≡ Some len }
    ensures ok { IfOk result (λ message. Took (stream input.old (R.remaining reader.old)) (stream input.new (R.remaining reader.new)) (IsMessage message.items)) }
    ensures err { IfErr result (λ end. Took (stream input.old (R.remaining reader.old)) (stream input.new (R.remaining reader.new)) (IsEnd end)) }
{
    match fill_up(alloc, reader, input, head + len) {
        Ok(()) => taken(alloc, input, head, len),
        Err(end) => Err(end),
    }
}

// Reads what a head tells of, and takes it.
fn read_body<R: Read>(
    alloc: Global,
    reader: &mut R,
    input: &mut Input,
    head: usize,
) -> Result<Vec<u8>, FrameEnd>
    requires { head_in input.old ≡ Some head }
    ensures ok { IfOk result (λ message. Took (stream input.old (R.remaining reader.old)) (stream input.new (R.remaining reader.new)) (IsMessage message.items)) }
    ensures err { IfErr result (λ end. Took (stream input.old (R.remaining reader.old)) (stream input.new (R.remaining reader.new)) (IsEnd end)) }
{
    let Some(len) = content_length(first(input, head)) else {
        input.pass(head);
        return Err(FrameEnd::NoLength);
    };
    if len > MOST_BODY {
        return Err(pass_long(alloc, reader, input, head, len));
    }
    read_rest(alloc, reader, input, head, len)
}

/// Reads the next message: its bytes, without its head. What was read after it is kept in `input`, which is to be passed on to the next call.
///
/// In which pieces the bytes come, and with which interruptions, makes no difference: which message is read is said of all bytes that stand before the end of
/// the input.
///
/// # Errors
///
/// A [`FrameEnd`] where there is no message to read; it says why, and [`FrameEnd::goes_on`] whether the next one can be read.
pub fn read_message<R: Read>(
    alloc: Global,
    reader: &mut R,
    input: &mut Input,
) -> Result<Vec<u8>, FrameEnd>
    ensures ok { IfOk result (λ message. Took (stream input.old (R.remaining reader.old)) (stream input.new (R.remaining reader.new)) (IsMessage message.items)) }
    ensures err { IfErr result (λ end. Took (stream input.old (R.remaining reader.old)) (stream input.new (R.remaining reader.new)) (IsEnd end)) }
{
    match fill_head(alloc, reader, input) {
        Ok(head) => read_body(alloc, reader, input, head),
        Err(end) => Err(end),
    }
}
