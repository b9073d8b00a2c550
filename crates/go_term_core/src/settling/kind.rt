//! What is known of a defined type before its terms are settled.
ghost use Rattle.std.specs.Prelude.{◌≡◌};

use go_decl_core::DeclKey;

/// What a defined type is, by its underlying type.
#[derive(Clone, Copy, Debug, PartialEq, Eq)]
pub enum Kind {
    /// It is no type.
    Nothing,
    Pointer,
    Interface,
    Other,
}

/// A look-up of the kinds of defined types.
pub trait Kinds {
    ghost use Rattle.go_decl_core.specs.declared.keys.DeclKey.{DeclKey as TheKey};
    ghost use Rattle.go_term_core.specs.declared.settling.kind.Kind.{Kind as TheKind};

    ghost kinds: { Self → TheKey → TheKind };

    /// The kind of the defined type of a declaration.
    fn kind(&self, key: &DeclKey) -> Kind
        ensures { result ≡ kinds self.now key.now };
}
