//! A reader that counts its reads.
ghost use Rattle.std.specs.Prelude.{◌≡◌, ◌≢◌, ◌+◌, ◌<◌, false, true, IfErr, OnOk};
ghost use Rattle.std.specs.declared.io.ErrorKind.TheVariants.{Interrupted};
ghost use Rattle.std.specs.Io.{ReadsAtMost};
ghost use Rattle.std.specs.Io.KnownBytes.{ReadConsumes};
ghost use Rattle.std.specs.IoError.{error_kind};

use crate::outputs::is_interruption;
use std::io;
use std::io::Read;

/// A reader, how often it was read, and whether a read of it failed. An interruption is no failure.
///
/// Both are changed by [`CountedReader::read`] alone, so they tell what was read through it.
pub struct CountedReader<R: Read> {
    reader: R,
    reads: u64,
    failed: bool,
}

impl<R: Read> CountedReader<R> {
    /// A reader that was not read yet.
    pub fn new(reader: R) -> CountedReader<R>
        ensures reader { result.reader ≡ reader }
        ensures reads { result.reads ≡ 0 }
        ensures failed { result.failed ≡ false }
    {
        CountedReader {
            reader,
            reads: 0,
            failed: false,
        }
    }

    /// One read, which is counted.
    ///
    /// # Errors
    ///
    /// The error of the reader.
    pub fn read(&mut self, buf: &mut [u8]) -> io::Result<usize>
        requires { self.old.reads < 18446744073709551615 }
        ensures bound { ReadsAtMost result buf.new }
        ensures bytes { ReadConsumes (R.remaining self.old.reader) (R.remaining self.new.reader) result buf.new }
        ensures counted { self.new.reads ≡ self.old.reads + 1 }
        ensures sound { OnOk result (self.new.failed ≡ self.old.failed) }
        ensures interrupted { IfErr result (λ e. error_kind e ≡ Interrupted → self.new.failed ≡ self.old.failed) }
        ensures broken { IfErr result (λ e. error_kind e ≢ Interrupted → self.new.failed ≡ true) }
    {
        self.reads += 1;
        match self.reader.read(buf) {
            Ok(count) => Ok(count),
            Err(error) => {
                if !is_interruption(error.kind()) {
                    self.failed = true;
                }
                Err(error)
            }
        }
    }

    /// The reader, with what was not read.
    pub fn into_reader(self) -> R
        ensures { result ≡ self.reader }
    {
        let CountedReader {
            reader,
            reads: _,
            failed: _,
        } = self;
        reader
    }
}
