//! Editors that are served.
ghost use Rattle.std.specs.Prelude.{◌≡◌};
ghost use Rattle.govisd.specs.Editors.{ServesEditor, editor_end_text as text_of_end};

use crate::program::{Ran, tell};
use govisd_editor::{Disk, EditorEnd, run_editor};
use std::alloc::Global;
use std::io::{Read, Write};

// Why serving an editor ended before the editor said `exit`, or nothing where it said so.
fn end_text(end: EditorEnd) -> &'static str
    ensures { result.now ≡ text_of_end end }
{
    match end {
        EditorEnd::Done => "",
        EditorEnd::Left => "",
        EditorEnd::Cut => "govisd: the editor's messages ended before it said exit\n",
        EditorEnd::ReadFault => "govisd: standard input cannot be read\n",
        EditorEnd::WriteFault => "govisd: standard output cannot be written\n",
        EditorEnd::Memory => "govisd: memory ran out\n",
    }
}

/// Serves an editor from the reader to the first writer, with the folders that the disk reads. Where that ends before the editor says `exit`, it says why.
pub fn serve_editor<D: Disk, R: Read, W: Write, E: Write>(
    alloc: Global,
    disk: &D,
    reader: &mut R,
    out: &mut W,
    err: &mut E,
) -> Ran
    ensures { ServesEditor result (E.contents err.old) (E.contents err.new) }
{
    let end = run_editor(alloc, disk, reader, out);
    let is_told = tell(err, end_text(end));
    Ran {
        status: end.status(),
        is_told,
    }
}
