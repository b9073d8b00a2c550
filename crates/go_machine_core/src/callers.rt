//! The functions that wait for the running one.
ghost use Rattle.std.specs.Prelude.{◌≡◌, [], ◌∷◌, OnOk, MatchOption};

use crate::frame::Frame;
use std::alloc::{AllocError, Global};
use std::marker::Model;

/// Functions that wait. Contracts see the innermost first.
#[derive(Drop)]
pub struct Callers {
    // The innermost last.
    frames: Vec<Frame>,
}

impl Model for Callers {
    ghost use Rattle.std.specs.Prelude.{List, reverse};
    ghost use Rattle.go_machine_core.specs.declared.frame.Frame.{Frame};

    ghost Value = { List Frame };

    ghost view = { λ c. reverse c.frames.items };
}

impl Callers {
    pub fn new(alloc: Global) -> Callers
        ensures { result ≡ [] }
    {
        Callers {
            frames: Vec::new(alloc),
        }
    }

    /// One more, the innermost.
    pub fn push(&mut self, frame: Frame) -> Result<(), AllocError>
        ensures { OnOk result (self.new ≡ frame ∷ self.old) }
    {
        self.frames.push(frame)?;
        Ok(())
    }

    /// The innermost, which is taken away.
    pub fn pop(&mut self) -> Option<Frame>
        ensures { MatchOption result ((self.old ≡ []) × (self.new ≡ [])) (λ frame. self.old ≡ frame ∷ self.new) }
    {
        self.frames.pop()
    }
}
