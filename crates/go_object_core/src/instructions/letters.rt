//! What words hold.
ghost use Rattle.std.specs.Prelude.{◌≡◌, ◌++◌, [], ◌∷◌, OnOk};

use std::alloc::{AllocError, Global};
use std::marker::Model;

/// What a word holds: a value of a type over `int`, or of one over `bool`.
#[derive(Clone, Copy, Debug, PartialEq, Eq)]
pub enum Word {
    Int,
    Bool,
}

/// What the words hold that are printed together, the first of them first. Contracts see the list.
#[derive(Drop)]
pub struct Letters {
    words: Vec<Word>,
}

impl Model for Letters {
    ghost use Rattle.std.specs.Prelude.{List};
    ghost use Rattle.go_object_core.specs.declared.instructions.letters.Word.{Word};

    ghost Value = { List Word };

    ghost view = { λ l. l.words.items };
}

impl Letters {
    /// None.
    pub fn new(alloc: Global) -> Letters
        ensures { result ≡ [] }
    {
        Letters {
            words: Vec::new(alloc),
        }
    }

    /// One more at the end.
    ///
    /// # Errors
    ///
    /// `AllocError` where memory is wanting.
    pub fn push(&mut self, word: Word) -> Result<(), AllocError>
        ensures { OnOk result (self.new ≡ self.old ++ word ∷ []) }
    {
        self.words.push(word)?;
        Ok(())
    }

    /// In order.
    pub fn words(&self) -> &[Word]
        ensures { result.now ≡ self.now }
    {
        self.words.as_slice()
    }
}
