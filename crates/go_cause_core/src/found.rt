//! What is found on the way through the trees.
ghost use Rattle.std.specs.Prelude.{◌<◌, IfSome, length};

use go_snap_core::PlacedFault;
use std::alloc::{AllocError, Global};
use std::cmp::Ordering;
use std::collections::HashMap;

/// A declaration outside function bodies, or a field or a method there: by the numbers of its package, of its file, and of its identifier among those
/// that the file declares.
#[derive(Clone, Copy, PartialEq, Eq)]
pub(crate) struct DeclAt {
    pub(crate) package: usize,
    pub(crate) file: usize,
    pub(crate) number: usize,
}

impl DeclAt {
    /// The order of declarations: by package, by file, by number.
    pub(crate) fn order(self, other: DeclAt) -> Ordering {
        self.package
            .cmp(&other.package)
            .then(self.file.cmp(&other.file))
            .then(self.number.cmp(&other.number))
    }
}

/// Of which type something is, or which type it is.
#[derive(Clone, Copy)]
pub(crate) enum TypeOf {
    /// The type that this declares.
    Type(DeclAt),
    /// That of what this declares.
    Value(DeclAt),
}

/// By what an expression or a type is refused or has no type.
#[derive(Clone, Copy)]
pub(crate) enum Blame {
    /// The fault of this number.
    Fault(usize),
    /// What this declaration has no type by, if it has none.
    Declared(DeclAt),
    /// What an embedded field of this type has no type by, if one has none.
    Embedded(TypeOf),
}

/// What is known of an expression, of a type or of a declaration.
#[derive(Clone, Copy)]
pub(crate) struct Said {
    /// By what it is refused or has no type, if it is or has none.
    pub(crate) blame: Option<Blame>,
    /// Of which type it is, or which type it is.
    pub(crate) of: Option<TypeOf>,
    /// By what an embedded field of a struct type has no type that is written out.
    pub(crate) embedded: Option<Blame>,
}

/// Of what nothing is known.
pub(crate) const UNSAID: Said = Said {
    blame: None,
    of: None,
    embedded: None,
};

/// What is known of a declaration.
#[derive(Clone, Copy)]
pub(crate) struct Note {
    pub(crate) at: DeclAt,
    pub(crate) said: Said,
}

/// A fault of a declaration that may contain itself, and what the declaration names.
#[derive(Clone, Copy)]
pub(crate) struct Link {
    pub(crate) fault: usize,
    pub(crate) to: DeclAt,
}

/// An import on a cycle, by the number of its fault and that of the package that it leads to.
#[derive(Clone, Copy)]
pub(crate) struct CycleImport {
    pub(crate) fault: usize,
    pub(crate) to: usize,
}

/// The number of the note of a declaration, among notes in order.
pub(crate) fn note_number(notes: &[Note], at: DeclAt) -> Option<usize>
    ensures { IfSome result (λ number. number < length notes.now) }
{
    match notes.binary_search_by(|note| note.at.order(at)) {
        Ok(number) => Some(number),
        Err(_) => None,
    }
}

/// What is found.
pub(crate) struct Found {
    /// Of each fault, what it follows from directly.
    pub(crate) direct: Vec<Option<Blame>>,
    /// Of what is declared outside function bodies, in order of package, file and number.
    pub(crate) notes: Vec<Note>,
    pub(crate) links: Vec<Link>,
    pub(crate) cycles: Vec<CycleImport>,
    /// What is known of the locals of the file, by their offsets.
    pub(crate) locals: HashMap<usize, Said>,
    /// The fault of the declaration in whose definition names are noted as links.
    pub(crate) linking: Option<usize>,
    /// Whether memory was wanting. Then something may be missing.
    pub(crate) is_short: bool,
}

impl Drop for Found {
    fn drop(self) {
        let Found {
            direct: _,
            notes: _,
            links: _,
            cycles: _,
            locals: _,
            linking: _,
            is_short: _,
        } = self;
    }
}

impl Found {
    /// Nothing yet, of these faults.
    pub(crate) fn new(alloc: Global, faults: &[PlacedFault]) -> Result<Found, AllocError> {
        Ok(Found {
            direct: vec![in alloc; None; faults.len()]?,
            notes: Vec::new(alloc),
            links: Vec::new(alloc),
            cycles: Vec::new(alloc),
            locals: HashMap::new(alloc),
            linking: None,
            is_short: false,
        })
    }

    /// Begins another file: its locals are others.
    pub(crate) fn begin_file(&mut self, alloc: Global) {
        self.locals = HashMap::new(alloc);
        self.linking = None;
    }

    /// Notes what a fault follows from. What was noted first stays.
    pub(crate) fn set(&mut self, fault: Option<usize>, blame: Option<Blame>) {
        if let Some(fault) = fault {
            if fault < self.direct.len() && self.direct[fault].is_none() {
                self.direct[fault] = blame;
            }
        }
    }

    /// Notes a declaration of which nothing is known yet.
    pub(crate) fn open_note(&mut self, at: DeclAt) {
        if self.notes.push(Note { at, said: UNSAID }).is_err() {
            self.is_short = true;
        }
    }

    /// Notes what is known of a declaration that was noted.
    pub(crate) fn set_note(&mut self, at: DeclAt, said: Said) {
        if let Some(number) = note_number(&self.notes, at) {
            self.notes[number] = Note { at, said };
        }
    }

    /// Names are no links from here on; the one whose definition is gone through.
    pub(crate) fn unlinked(&mut self) -> Option<usize> {
        let linking = self.linking;
        self.linking = None;
        linking
    }

    /// Notes what is known of a local.
    pub(crate) fn note_local(&mut self, offset: usize, said: Said) {
        if self.locals.insert(offset, said).is_err() {
            self.is_short = true;
        }
    }

    /// Notes that the declaration whose definition is gone through names another.
    pub(crate) fn link(&mut self, to: DeclAt) {
        if let Some(fault) = self.linking {
            if self.links.push(Link { fault, to }).is_err() {
                self.is_short = true;
            }
        }
    }

    /// Notes an import on a cycle.
    pub(crate) fn cycle(&mut self, fault: usize, to: usize) {
        if self.cycles.push(CycleImport { fault, to }).is_err() {
            self.is_short = true;
        }
    }
}
