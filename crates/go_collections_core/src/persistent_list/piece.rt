//! Pieces of a list.
ghost use Rattle.std.specs.Prelude.{◌≡◌, IfOk, IfSome, length, slice_get};
ghost use Rattle.std.specs.Option.{option_copied};
ghost use Rattle.go_collections_core.specs.persistent_list.Staying.{StaysWhere};

use crate::persistent_list::marks::all_stay;
use std::alloc::{AllocError, Global};
use std::marker::Model;
use std::sync::Arc;

/// How many items a full piece has.
pub(crate) const PIECE: usize = 64;

/// Items, in order. A handle over one shared pointer; contracts see the items.
#[derive(Drop)]
pub(crate) struct Piece<T> {
    items: Arc<Vec<T>>,
}

impl<T> Model for Piece<T> {
    ghost use Rattle.std.specs.Prelude.{List};
    ghost use Rattle.std.specs.Arc.{arc_value};

    ghost Value = { List T };

    ghost view = { λ p. (arc_value p.items).items };
}

impl<T: Drop> Piece<T> {
    /// A piece of these items.
    ///
    /// # Errors
    ///
    /// `AllocError` where memory is wanting.
    pub(crate) fn new(alloc: Global, items: Vec<T>) -> Result<Piece<T>, AllocError>
        ensures { IfOk result (λ p. p ≡ items.items) }
    {
        Ok(Piece {
            items: Arc::new(alloc, items)?,
        })
    }

    /// A piece of these items: the earlier one, shared, where it has as many and all of them are marked to be the same.
    ///
    /// # Errors
    ///
    /// `AllocError` where memory is wanting.
    pub(crate) fn over(
        alloc: Global,
        earlier: Option<&Piece<T>>,
        items: Vec<T>,
        same: &[bool],
    ) -> Result<Piece<T>, AllocError>
        requires { IfSome earlier (λ p. StaysWhere p.now items.items same.now) }
        ensures { IfOk result (λ p. p ≡ items.items) }
    {
        if let Some(piece) = earlier {
            if piece.len() == items.len() && all_stay(same, items.len()) {
                return piece.share();
            }
        }
        Piece::new(alloc, items)
    }

    /// The same piece once more. It takes no memory.
    ///
    /// # Errors
    ///
    /// `AllocError` where it has too many owners.
    pub(crate) fn share(&self) -> Result<Piece<T>, AllocError>
        ensures { IfOk result (λ p. p ≡ self.now) }
    {
        Ok(Piece {
            items: Arc::try_clone(&self.items)?,
        })
    }

    /// How many items there are.
    pub(crate) fn len(&self) -> usize
        ensures { result ≡ length self.now }
    {
        self.items.len()
    }

    /// The item at a place, where there is one.
    pub(crate) fn get(&self, place: usize) -> Option<&T>
        ensures { option_copied result ≡ slice_get self.now place }
    {
        self.items.get(place)
    }
}
