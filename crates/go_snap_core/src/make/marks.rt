//! Which packages tell what they told earlier, and which parts were there.
ghost use Rattle.std.specs.Prelude.{◌≡◌, ◌<◌, IfOk, false, length, replicate, slice_set};

use std::alloc::{AllocError, Global};

/// By the number of each package whether it tells what it told earlier, and whether its part was there.
#[derive(Drop)]
pub(crate) struct Marks {
    again: Vec<bool>,
    kept: Vec<bool>,
}

impl Marks {
    /// No marks, for so many packages.
    ///
    /// # Errors
    ///
    /// `AllocError` where memory is wanting.
    pub(crate) fn new(alloc: Global, count: usize) -> Result<Marks, AllocError>
        ensures again { IfOk result (λ m. length m.again.items ≡ count) }
        ensures kept { IfOk result (λ m. m.kept.items ≡ replicate count false) }
    {
        let again = vec![in alloc; false; count]?;
        let kept = vec![in alloc; false; count]?;
        Ok(Marks { again, kept })
    }

    /// Marks the package of a number.
    pub(crate) fn set(&mut self, number: usize, again: bool, kept: bool)
        requires again { number < length self.old.again.items }
        requires kept { number < length self.old.kept.items }
        ensures again { self.new.again.items ≡ slice_set self.old.again.items number again }
        ensures kept { self.new.kept.items ≡ slice_set self.old.kept.items number kept }
    {
        self.again[number] = again;
        self.kept[number] = kept;
    }

    /// Of each package, by its number, whether it tells what it told earlier.
    pub(crate) fn again(&self) -> &[bool]
        ensures { result.now ≡ self.now.again.items }
    {
        self.again.as_slice()
    }

    /// Of each package, by its number, whether its part was there.
    pub(crate) fn into_kept(self) -> Vec<bool>
        ensures { result ≡ self.kept }
    {
        let Marks { kept, .. } = self;
        kept
    }
}
