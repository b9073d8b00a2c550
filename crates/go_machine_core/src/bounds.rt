//! The bounds of a run.
use std::alloc::AllocError;

/// The most words that are alive at once: the slots of the functions that were called and run, one for each of them, and the operands of those that wait.
const MOST_WORDS: usize = 16_777_216;

/// What a run may still use.
#[derive(Clone, Copy)]
pub struct Bounds {
    // How many words are alive.
    alive: usize,
    // How many more may be laid.
    left: usize,
    // How many bytes may be printed.
    most_printed: usize,
}

impl Bounds {
    /// The bounds of a run of at most so many steps. In all 64 words for each step may be laid, and 16,777,216 more.
    pub fn new(steps: u64, most_printed: usize) -> Bounds {
        let earned = (steps as usize).saturating_mul(64);
        Bounds {
            alive: 0,
            left: earned.saturating_add(MOST_WORDS),
            most_printed,
        }
    }

    /// A function with so many slots begins, and one waits for it with so many operands.
    ///
    /// # Errors
    ///
    /// `AllocError` where more words would be alive, or laid in all, than may be.
    pub fn begin(&mut self, slots: usize, waiting: usize) -> Result<(), AllocError> {
        let words = slots.saturating_add(1);
        let alive = self.alive.saturating_add(words).saturating_add(waiting);
        if MOST_WORDS < alive {
            return Err(AllocError);
        }
        let Some(left) = self.left.checked_sub(words) else {
            return Err(AllocError);
        };
        self.alive = alive;
        self.left = left;
        Ok(())
    }

    /// A function with so many slots is left, and the one that waited for it with so many operands goes on.
    pub fn leave(&mut self, slots: usize, waiting: usize) {
        let words = slots.saturating_add(1).saturating_add(waiting);
        self.alive = self.alive.saturating_sub(words);
    }

    /// Whether so many bytes may be printed.
    pub fn allow(&self, printed: usize) -> bool {
        printed <= self.most_printed
    }
}
