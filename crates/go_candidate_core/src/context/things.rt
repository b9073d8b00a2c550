//! What a name in scope stands for, as far as it matters where it stands.
ghost use Rattle.std.specs.Prelude.{◌≡◌};
ghost use Rattle.go_inline_core.specs.scope_core.Scopes.{denoted_of};
ghost use Rattle.go_candidate_core.specs.context.Alone as alone;

use go_expr_core::denote_core::Stand;
use go_inline_core::block_core::{DeclKind, Target};
use go_inline_core::scope_core::InScope;
use go_universe_core::Predeclared;

/// What a name stands for, where it stands for one thing.
#[derive(Clone, Copy, Debug, PartialEq, Eq)]
pub enum Thing {
    Package,
    Type,
    /// A function, predeclared or not.
    Func,
    /// A constant, a variable or `nil`.
    Value,
}

/// What a declaration outside functions is.
pub(crate) fn thing_of_decl(kind: DeclKind) -> Option<Thing>
    ensures { result ≡ alone.thing_of_decl kind }
{
    match kind {
        DeclKind::Const | DeclKind::Var => Some(Thing::Value),
        DeclKind::Type => Some(Thing::Type),
        DeclKind::Func => Some(Thing::Func),
        DeclKind::Method | DeclKind::Field | DeclKind::Param => None,
    }
}

/// What an import binds: a refused one binds nothing that may stand anywhere.
pub(crate) fn thing_of_target(target: &Target) -> Option<Thing>
    ensures { result ≡ alone.thing_of_target target.now }
{
    match target {
        Target::Package(_) => Some(Thing::Package),
        Target::Refused(_) => None,
        Target::Exported(key) => thing_of_decl(key.decl.kind),
    }
}

/// What a predeclared name is, if it is usable.
pub(crate) fn thing_of_predeclared(name: Predeclared) -> Option<Thing>
    ensures { result ≡ alone.thing_of_predeclared name }
{
    match name {
        Predeclared::Any
        | Predeclared::Bool
        | Predeclared::Error
        | Predeclared::Int
        | Predeclared::String => Some(Thing::Type),
        Predeclared::True | Predeclared::False | Predeclared::Nil => Some(Thing::Value),
        Predeclared::Len | Predeclared::Panic | Predeclared::Print | Predeclared::Println => {
            Some(Thing::Func)
        }
        _ => None,
    }
}

/// What a name in scope is: a local is a constant or a variable.
pub(crate) fn thing_of(found: InScope<'_>) -> Option<Thing>
    ensures { result ≡ alone.thing_of (denoted_of found.entry) }
{
    match found {
        InScope::Universe(predeclared) => thing_of_predeclared(predeclared),
        InScope::Package(decl) => thing_of_decl(decl.kind),
        InScope::File(binding) => thing_of_target(&binding.target),
        InScope::Local(_) => Some(Thing::Value),
    }
}

/// Whether a thing may stand so.
pub(crate) fn fits(stand: Stand, thing: Thing) -> bool
    ensures { result ≡ alone.fits stand thing }
{
    match thing {
        Thing::Package => match stand {
            Stand::TypeDot | Stand::BeforeDot => true,
            Stand::Type | Stand::Value | Stand::Callee => false,
        },
        Thing::Type => match stand {
            Stand::Type | Stand::Callee => true,
            Stand::TypeDot | Stand::Value | Stand::BeforeDot => false,
        },
        Thing::Func => match stand {
            Stand::Callee => true,
            Stand::Type | Stand::TypeDot | Stand::Value | Stand::BeforeDot => false,
        },
        Thing::Value => match stand {
            Stand::Value | Stand::BeforeDot => true,
            Stand::Type | Stand::TypeDot | Stand::Callee => false,
        },
    }
}
