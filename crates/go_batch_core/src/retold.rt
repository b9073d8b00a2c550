//! What a part tells beside what was told before.
ghost use Rattle.std.specs.Prelude.{◌≡◌};
ghost use Rattle.go_batch_core.specs.Steadiness.{is_moved, is_retyped};

/// What a part tells beside what the last published part of its package told.
#[derive(Clone, Copy, PartialEq, Eq)]
pub enum Retold {
    /// The same.
    Same,
    /// The same types, and beside them something else: names, or what declarations are.
    SameTypes,
    /// Other types, or nothing is known of it.
    OtherTypes,
}

impl Retold {
    /// Whether it is something else.
    pub(crate) fn is_moved(self) -> bool
        ensures { result ≡ is_moved self }
    {
        match self {
            Retold::Same => false,
            Retold::SameTypes => true,
            Retold::OtherTypes => true,
        }
    }

    /// Whether its types are others.
    pub(crate) fn is_retyped(self) -> bool
        ensures { result ≡ is_retyped self }
    {
        match self {
            Retold::Same => false,
            Retold::SameTypes => false,
            Retold::OtherTypes => true,
        }
    }
}
