//! Declarations by themselves.
ghost use Rattle.std.specs.Prelude.{◌≡◌, ◌-◌, IfOk, MatchBool, OnOk, drop, take};
ghost use Rattle.go_recovery_core.specs.standin.Alone.{AreBroken, IsNoted, alone};
ghost use Rattle.go_recovery_core.specs.standin.Files.{IsFile, IsNoFile};

use crate::standin::judge::is_file;
use crate::standin::part::Interval;
use std::alloc::{AllocError, Global};

// The bytes of a part.
fn bytes_of(bytes: &[u8], part: Interval) -> &[u8]
    ensures { result.now ≡ take (part.end - part.start) (drop part.start bytes.now) }
{
    let (_, rest) = bytes.split_at(part.start.min(bytes.len()));
    let (front, _) = rest.split_at(part.end.saturating_sub(part.start).min(rest.len()));
    front
}

// A part of a text as a file of its own.
fn alone(alloc: Global, bytes: &[u8], part: Interval) -> Result<Vec<u8>, AllocError>
    ensures { IfOk result (λ v. v.items ≡ alone bytes.now part) }
{
    let mut file = Vec::from_slice(alloc, b"package p\n")?;
    file.extend_from_slice(bytes_of(bytes, part))?;
    Ok(file)
}

// Whether a part of a text parses as a file of its own.
fn parses_alone(alloc: Global, bytes: &[u8], part: Interval) -> Result<bool, AllocError>
    ensures { IfOk result (λ b. MatchBool b (IsFile (alone bytes.now part)) (IsNoFile (alone bytes.now part))) }
{
    let file = alone(alloc, bytes, part)?;
    is_file(alloc, file.as_slice())
}

// Adds a part that does not parse as a file of its own.
fn note_broken(
    alloc: Global,
    bytes: &[u8],
    part: Interval,
    broken: &mut Vec<Interval>,
) -> Result<(), AllocError>
    ensures { OnOk result (IsNoted bytes.now part broken.old.items broken.new.items) }
{
    if parses_alone(alloc, bytes, part)? {
        return Ok(());
    }
    broken.push(part)?;
    Ok(())
}

/// Those of some parts of a text that do not parse as files of their own.
pub(crate) fn broken_of(
    alloc: Global,
    bytes: &[u8],
    parts: &[Interval],
) -> Result<Vec<Interval>, AllocError>
    ensures { IfOk result (λ v. AreBroken bytes.now parts.now v.items) }
{
    let mut broken = Vec::new(alloc);
    for part in parts {
        note_broken(alloc, bytes, *part, &mut broken)?;
    }
    Ok(broken)
}
