//! The book of a stamper: the log of the values that were stamped, which only grows. It exists in proofs alone; its word counts the values.
use logbook::{Gain, Plain, Play, Rule};
use std::marker::Brand;

/// Which book a stamper and its stamps are of. A call at `Brand` picks it.
pub trait NamesBook {
    ghost use Rattle.logbook.specs.Pages.{Book};

    ghost book: { Book };
}

impl NamesBook for Brand {
    ghost book = { record { number = 0; log_name = 0; cells_name = 0 } };
}

/// The rule of a book: its word is the number of its values.
pub struct Counts;

impl<T> Rule<T, u64> for Counts {
    ghost use Rattle.std.specs.Prelude.{[]};
    ghost use base.Fml.{ftrue};
    ghost use Rattle.go_hall_core.specs.stamping.Books.{IsCounted};

    ghost holds = { λ cells log. IsCounted cells log };

    ghost first = { [] };

    ghost hinted = { λ n log. Unit {0} };

    ghost shows = { λ log. [] };

    ghost keeps = { λ names log. ftrue };

    ghost moves = { λ ask before after answer. Unit {0} };
}

/// Callers trade nothing.
pub struct Nothing;

impl<T> Gain<T, u64> for Nothing {
    ghost use base.Fml.{ftrue};

    ghost after = { λ names about answer. ftrue };
}

/// A step that adds a value.
pub struct Adds;

impl<T> Play<T, u64> for Adds {
    ghost use Rattle.go_hall_core.specs.stamping.Books.{Adds};

    ghost then = { Adds };
}

impl<T> Plain<T, T, u64> for Adds {
    ghost use Rattle.std.specs.Prelude.{None};

    ghost ask = { λ value. value };

    ghost state = { λ value. None };
}
