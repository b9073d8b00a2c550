//! How far a check is, told on a terminal.
use std::io::IsTerminal;
use std::time::Instant;

/// The milliseconds before a first line.
const FIRST_MILLIS: u128 = 1_000;

/// The milliseconds between two lines.
const NEXT_MILLIS: u128 = 100;

/// The bytes of source that are parsed and checked in a second, by estimate.
const BYTES_PER_SECOND: usize = 4_000_000;

/// A line on standard error that says how far a check is, where that is a terminal. It is told as folders are read and packages are parsed, and
/// before all packages are checked, from the moment a second has passed; and where the sources take over a second, by estimate, from when all
/// folders are read, however soon that is. Each line stands in the place of the one before it.
#[derive(Drop)]
pub struct Progress<'a> {
    rt: &'a HostRuntime,
    /// When the check began; none where nothing is told.
    began: Option<Instant>,
    /// When the next line is told, in milliseconds from there.
    next: u128,
    is_shown: bool,
}

impl<'a> Progress<'a> {
    /// The progress of a check that begins.
    pub fn begin(rt: &'a HostRuntime) -> Progress<'a> {
        let began = if rt.stderr().is_terminal() {
            Instant::now(rt).ok()
        } else {
            None
        };
        Progress {
            rt,
            began,
            next: FIRST_MILLIS,
            is_shown: false,
        }
    }

    // Whether a line is due.
    fn is_due(&mut self) -> bool {
        let Some(began) = self.began else {
            return false;
        };
        let Ok(passed) = began.elapsed(self.rt) else {
            return false;
        };
        let millis = passed.as_millis();
        if millis < self.next {
            return false;
        }
        self.next = millis.saturating_add(NEXT_MILLIS);
        true
    }

    // Tells a line. Where it cannot be written, nothing depends on it.
    fn show(&mut self, what: &str, number: usize, unit: &str) {
        self.is_shown = true;
        let _ = eprint!(self.rt; "\r\u{1b}[Kgovisd: {what} {number} {unit} ..");
    }

    /// So many folders are read.
    pub fn read(&mut self, folders: usize) {
        if self.is_due() {
            self.show("read", folders, "folders");
        }
    }

    /// All folders are read: so many, with so many bytes of source. Where these take over a second to parse and check, a line is due.
    pub fn read_all(&mut self, folders: usize, bytes: usize) {
        if bytes > BYTES_PER_SECOND {
            self.next = 0;
        }
        self.read(folders);
    }

    /// So many packages are parsed.
    pub fn parsed(&mut self, packages: usize) {
        if self.is_due() {
            self.show("parsed", packages, "packages");
        }
    }

    /// So many packages are checked next. Where a line is shown already, it says so at once.
    pub fn check(&mut self, packages: usize) {
        if self.is_due() || self.is_shown {
            self.show("checking", packages, "packages");
        }
    }

    /// Takes the line back.
    pub fn end(&mut self) {
        if self.is_shown {
            let _ = eprint!(self.rt; "\r\u{1b}[K");
        }
        self.is_shown = false;
    }
}
