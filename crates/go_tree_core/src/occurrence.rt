//! What an occurrence is.
ghost use Rattle.std.specs.Prelude.{◌≡◌};
ghost use Rattle.go_tree_core.specs.Occurrences.{is_identifier, role_word};

use go_tree_nodes::Usage;
use go_tree_nodes::text_core::{Name, Span};

/// What an occurrence is.
#[derive(Clone, Copy, Debug, PartialEq, Eq)]
pub enum Role {
    /// The string of an import.
    Import,
    /// A name of a type.
    Type,
    /// An operand.
    Value,
    /// What is called, in parentheses too.
    Callee,
    /// A name to the left of a dot.
    Qualifier,
    /// The name to the right of a dot, with the use of the whole selector.
    Selector(Usage),
    /// The key of an element of a literal.
    Key,
    /// A call, at its opening parenthesis.
    Call,
}

impl Role {
    /// Whether an occurrence of this role is an identifier, and no import's string and no call's parenthesis.
    pub fn is_identifier(self) -> bool
        ensures { result ≡ is_identifier self }
    {
        !matches!(self, Role::Import | Role::Call)
    }

    /// The word for it, as it is printed.
    pub fn word(self) -> &'static str
        ensures { result.now ≡ role_word self }
    {
        match self {
            Role::Import => "import",
            Role::Type => "type",
            Role::Value => "value",
            Role::Callee => "callee",
            Role::Qualifier => "qualifier",
            Role::Selector(_) => "selector",
            Role::Key => "key",
            Role::Call => "call",
        }
    }
}

/// Where an expression stands, which says how it is used.
#[derive(Clone, Copy)]
pub enum Context {
    /// Below a `*` of what is called: a type.
    Type,
    /// As a value.
    Value,
    /// As what is called.
    Callee,
    /// Left of a dot.
    BeforeDot,
    /// As a target of an assignment.
    Target,
}

/// An occurrence: what it is, its spelling, and where it stands. An import is spelled as its string stands in the text, with its
/// quotes and escapes, a call as `(`.
pub struct Occ {
    pub role: Role,
    pub spelling: Name,
    pub span: Span,
}

impl Drop for Occ {
    fn drop(self) {
        let Occ {
            role: _,
            spelling: _,
            span: _,
        } = self;
    }
}

/// The number of an occurrence among those of its file, in order of their places, from 0 on.
#[derive(Clone, Copy, Debug, PartialEq, Eq)]
pub struct OccId(pub usize);
