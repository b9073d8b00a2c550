//! Lists by pieces.
ghost use Rattle.std.specs.Prelude.{◌≡◌, ◌*◌, ◌+◌, ◌<◌, [], ℕ, IfOk, IfSome, length, slice_get};
ghost use Rattle.std.specs.Option.{option_copied};
ghost use Rattle.go_collections_core.specs.persistent_list.Pieces.{IsInPieces, in_pieces};
ghost use Rattle.go_collections_core.specs.persistent_list.Staying.{StaysWhere};

use crate::persistent_list::marks::marks_from;
use crate::persistent_list::piece::{PIECE, Piece};
use go_text_core::add;
use std::alloc::{AllocError, Global};
use std::marker::Model;
use std::sync::Arc;

/// Items, in order, by pieces of 64 that several lists share. Contracts see the list.
#[derive(Drop)]
pub struct Pieces<T> {
    full: Arc<Vec<Piece<T>>>,
    last: Piece<T>,
    count: usize,
}

impl<T> Model for Pieces<T> {
    ghost use Rattle.std.specs.Prelude.{List};
    ghost use Rattle.std.specs.Arc.{arc_value};
    ghost use Rattle.go_collections_core.specs.persistent_list.Pieces.{IsInPieces, in_pieces};

    ghost Value = { List T };

    ghost view = { λ l. in_pieces (arc_value l.full).items l.last };

    ghost invariant = { λ l. IsInPieces (arc_value l.full).items l.last l.count };
}

// How many of so many items stand in the piece of a number, or in it and behind it.
fn room_of(count: usize, number: usize) -> usize {
    count
        .saturating_sub(number.saturating_mul(PIECE))
        .min(PIECE)
}

impl<T: Drop> Pieces<T> {
    /// No item.
    ///
    /// # Errors
    ///
    /// `AllocError` where memory is wanting.
    pub fn new(alloc: Global) -> Result<Pieces<T>, AllocError>
        ensures { IfOk result (λ l. l ≡ []) }
    {
        Ok(Pieces {
            full: Arc::new(alloc, Vec::new(alloc))?,
            last: Piece::new(alloc, Vec::new(alloc))?,
            count: 0,
        })
    }

    /// These items. It shares nothing.
    ///
    /// # Errors
    ///
    /// `AllocError` where memory is wanting.
    pub fn from_vec(alloc: Global, items: Vec<T>) -> Result<Pieces<T>, AllocError>
        ensures { IfOk result (λ l. l ≡ items.items) }
    {
        let none = Pieces::new(alloc)?;
        Pieces::over(alloc, &none, items, &[])
    }

    /// These items, where those that are marked are the earlier list's items of the same places. It shares each piece of the earlier list of which all
    /// items are marked, where the piece has as many items here.
    ///
    /// # Errors
    ///
    /// `AllocError` where memory is wanting.
    pub fn over(
        alloc: Global,
        earlier: &Pieces<T>,
        items: Vec<T>,
        same: &[bool],
    ) -> Result<Pieces<T>, AllocError>
        requires { StaysWhere earlier.now items.items same.now }
        ensures { IfOk result (λ l. l ≡ items.items) }
    {
        let count = items.len();
        let mut full = Vec::with_capacity(alloc, count / PIECE)?;
        let mut last = Vec::with_capacity(alloc, room_of(count, 0))?;
        for item in items {
            add(&mut last, item)?;
            if last.len() == PIECE {
                let number = full.len();
                let piece = Piece::over(
                    alloc,
                    earlier.piece(number),
                    last,
                    marks_from(same, number),
                )?;
                add(&mut full, piece)?;
                last = Vec::with_capacity(alloc, room_of(count, full.len()))?;
            }
        }
        let number = full.len();
        let last = Piece::over(alloc, earlier.piece(number), last, marks_from(same, number))?;
        Ok(Pieces {
            full: Arc::new(alloc, full)?,
            last,
            count,
        })
    }

    /// The same list once more. It takes no memory.
    ///
    /// # Errors
    ///
    /// `AllocError` where it has too many owners.
    pub fn share(&self) -> Result<Pieces<T>, AllocError>
        ensures { IfOk result (λ l. l ≡ self.now) }
    {
        Ok(Pieces {
            full: Arc::try_clone(&self.full)?,
            last: self.last.share()?,
            count: self.count,
        })
    }

    /// How many items there are.
    pub fn len(&self) -> usize
        ensures { result ≡ length self.now }
    {
        self.count
    }

    /// The item at a place, where there is one.
    pub fn get(&self, place: usize) -> Option<&T>
        ensures { option_copied result ≡ slice_get self.now place }
    {
        let number = place / PIECE;
        let full = self.full.as_slice();
        if place >= self.count {
            None
        } else if number < full.len() {
            full[number].get(place % PIECE)
        } else {
            self.last.get(place % PIECE)
        }
    }

    // The piece of a number, where there is one.
    fn piece(&self, number: usize) -> Option<&Piece<T>>
        ensures { IfSome result (λ p. (n : ℕ) → n < length p.now → slice_get self.now (64 * number + n) ≡ slice_get p.now n) }
    {
        let full = self.full.as_slice();
        if number < full.len() {
            Some(&full[number])
        } else if number == full.len() {
            Some(&self.last)
        } else {
            None
        }
    }
}
