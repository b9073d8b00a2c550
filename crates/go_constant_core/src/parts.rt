//! Texts of several pieces.
ghost use Rattle.std.specs.Prelude.{◌≡◌, length};
ghost use Rattle.std.specs.List.{concat};

use crate::pieces::Block;
use std::marker::Model;

/// A text of blocks, and how many bytes it has. Contracts see the bytes.
pub(crate) struct Parts {
    blocks: Vec<Block>,
    count: usize,
}

impl Drop for Parts {
    fn drop(self) {
        let Parts {
            blocks: _,
            count: _,
        } = self;
    }
}

impl Model for Parts {
    ghost use Rattle.std.specs.Prelude.{◌≡◌, List, ℕ, length};
    ghost use Rattle.std.specs.List.{concat};

    ghost Value = { List ℕ };

    ghost view = { λ p. concat p.blocks.items };

    ghost invariant = { λ p. p.count ≡ length (concat p.blocks.items) };
}

impl Parts {
    /// A text of these blocks, which have so many bytes together.
    pub(crate) fn new(blocks: Vec<Block>, count: usize) -> Parts
        requires { count ≡ length (concat blocks.items) }
        ensures { result ≡ concat blocks.items }
    {
        Parts { blocks, count }
    }

    /// How many bytes there are.
    pub(crate) fn len(&self) -> usize
        ensures { result ≡ length self.now }
    {
        self.count
    }

    /// The blocks.
    pub(crate) fn blocks(&self) -> &[Block]
        ensures { concat result.now ≡ self.now }
    {
        self.blocks.as_slice()
    }
}
