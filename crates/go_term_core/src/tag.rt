//! The tags of fields.
ghost use Rattle.std.specs.Prelude.{◌≡◌, ◌↔◌, [], IfOk, IsTrue};

use std::alloc::{AllocError, Global};
use std::marker::Model;

/// What the tag of a field stands for: bytes, which need not be text, and none where there is no tag. Contracts see the bytes.
pub struct Tag {
    bytes: Option<Box<Vec<u8>>>,
}

impl Drop for Tag {
    fn drop(self) {
        let Tag { bytes: _ } = self;
    }
}

impl Model for Tag {
    ghost use Rattle.std.specs.Prelude.{List, ℕ};
    ghost use Rattle.go_term_core.specs.Tags.{tag_bytes};

    ghost Value = { List ℕ };

    ghost view = { λ t. tag_bytes t.bytes };
}

impl Tag {
    /// No tag, or an empty one.
    pub fn none() -> Tag
        ensures { result ≡ [] }
    {
        Tag { bytes: None }
    }

    /// The tag that stands for these bytes.
    ///
    /// # Errors
    ///
    /// `AllocError` where memory is wanting.
    pub fn of(alloc: Global, bytes: Vec<u8>) -> Result<Tag, AllocError>
        ensures { IfOk result (λ t. t ≡ bytes.items) }
    {
        Ok(Tag {
            bytes: Some(Box::new(alloc, bytes)?),
        })
    }

    /// What it stands for.
    pub fn bytes(&self) -> &[u8]
        ensures { result.now ≡ self.now }
    {
        match &self.bytes {
            None => &[],
            Some(bytes) => bytes.as_slice(),
        }
    }

    /// A second tag that stands for the same bytes.
    ///
    /// # Errors
    ///
    /// `AllocError` where memory is wanting.
    pub fn copy(&self, alloc: Global) -> Result<Tag, AllocError>
        ensures { IfOk result (λ t. t ≡ self.now) }
    {
        match &self.bytes {
            None => Ok(Tag::none()),
            Some(bytes) => Tag::of(alloc, bytes.as_slice().to_vec(alloc)?),
        }
    }

    /// Whether two tags stand for the same bytes. It takes no memory.
    pub fn is_same(&self, other: &Tag) -> bool
        ensures { IsTrue result ↔ (self.now ≡ other.now) }
    {
        self.bytes() == other.bytes()
    }
}
