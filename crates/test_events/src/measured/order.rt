//! What the words of a call ask for.
use crate::measured::workspace::{Form, Shape};

/// What is done again and again.
#[derive(Clone, Copy)]
pub(crate) enum Work {
    /// Whole batches of one edit.
    Batches,
    /// The trees that such batches submit.
    Trees,
    /// The compilation of the edited package.
    Parts,
}

/// What an edit changes of a package.
#[derive(Clone, Copy)]
pub(crate) enum Kind {
    /// A number in the body of a function.
    Body,
    /// A constant that the package shows.
    Constant,
}

/// Where the module of the edited package stands among all.
#[derive(Clone, Copy)]
pub(crate) enum Place {
    First,
    Middle,
    Last,
}

/// What finishes an action.
#[derive(Clone, Copy)]
pub(crate) enum Parts {
    /// The part that the core has, where it knows that this is of the action's input; else `rebuild`.
    Kept,
    /// `rebuild`, which compares the action's input with that of the earlier part.
    Rebuilt,
    /// A part that is compiled.
    Compiled,
}

/// What a call asks for.
#[derive(Clone, Copy)]
pub struct Order {
    pub(crate) work: Work,
    pub(crate) form: Form,
    pub(crate) kind: Kind,
    pub(crate) place: Place,
    pub(crate) parts: Parts,
    pub(crate) times: usize,
}

fn work_of(word: &str) -> Option<Work> {
    match word {
        "batches" => Some(Work::Batches),
        "trees" => Some(Work::Trees),
        "parts" => Some(Work::Parts),
        _ => None,
    }
}

fn shape_of(word: &str) -> Option<Shape> {
    match word {
        "near" => Some(Shape::Near),
        "spread" => Some(Shape::Spread),
        _ => None,
    }
}

fn kind_of(word: &str) -> Option<Kind> {
    match word {
        "body" => Some(Kind::Body),
        "constant" => Some(Kind::Constant),
        _ => None,
    }
}

fn place_of(word: &str) -> Option<Place> {
    match word {
        "first" => Some(Place::First),
        "middle" => Some(Place::Middle),
        "last" => Some(Place::Last),
        _ => None,
    }
}

fn parts_of(word: &str) -> Option<Parts> {
    match word {
        "kept" => Some(Parts::Kept),
        "rebuilt" => Some(Parts::Rebuilt),
        "compiled" => Some(Parts::Compiled),
        _ => None,
    }
}

impl Order {
    /// What the eight words of a call ask for. `None` where they are none of a call.
    pub fn read(words: &[String]) -> Option<Order> {
        let [work, shape, kind, place, parts, packages, imports, times] = words else {
            return None;
        };
        Some(Order {
            work: work_of(work.as_str())?,
            form: Form {
                shape: shape_of(shape.as_str())?,
                packages: packages.parse().ok()?,
                imports: imports.parse().ok()?,
            },
            kind: kind_of(kind.as_str())?,
            place: place_of(place.as_str())?,
            parts: parts_of(parts.as_str())?,
            times: times.parse().ok()?,
        })
    }

    /// The number of the module that is edited.
    pub(crate) fn edited_module(&self) -> usize {
        let last = self.form.modules().saturating_sub(1);
        match self.place {
            Place::First => 0,
            Place::Middle => last / 2,
            Place::Last => last,
        }
    }

    /// The number of the package that is edited: the one in the middle of its module.
    pub(crate) fn edited_package(&self) -> usize {
        let (first, end) = self.form.packages_of(self.edited_module());
        first.saturating_add(end.saturating_sub(first) / 2)
    }
}
