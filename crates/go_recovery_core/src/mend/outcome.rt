//! What is said of a fault of the grammar.
ghost use Rattle.std.specs.Prelude.{◌≡◌};
ghost use Rattle.go_recovery_core.specs.mend.Outcomes.{mend_of};

use crate::mend::foreign::ForeignWord;
use crate::mend::forms::FormOfGo;
use crate::mend::mending::Mending;
use go_tree_nodes::token_core::Token;

/// What is said of a fault of the grammar. Offsets are in bytes of the text, from its start.
#[derive(Clone, Copy, Debug)]
pub struct Mend {
    /// The offset of the fault.
    pub at: usize,
    /// The token met there: none at the end of the text. An empty semicolon is the end of a line.
    pub met: Option<Token>,
    /// The one change with which the text has a tree.
    pub mending: Option<Mending>,
    /// The form of Go that stands there, and that the grammar of govisd lacks.
    pub form: Option<FormOfGo>,
    /// The word of another language that stands there or before.
    pub foreign: Option<ForeignWord>,
    /// The offset of the innermost bracket that is still open there.
    pub open: Option<usize>,
    /// Whether the fault is one of height, P2.
    pub too_high: bool,
}

/// What is told of a fault: a form of Go, a word of another language, a change, or nothing.
#[derive(Clone, Copy)]
pub(crate) enum Told {
    Form(FormOfGo),
    Foreign(ForeignWord),
    Mending(Mending),
    Nothing,
}

/// What is told, with what stands at the place.
pub(crate) fn mend_of(
    at: usize,
    met: Option<Token>,
    open: Option<usize>,
    too_high: bool,
    told: Told,
) -> Mend
    ensures { result ≡ mend_of at met «open» too_high told }
{
    let (mending, form, foreign) = match told {
        Told::Form(form) => (None, Some(form), None),
        Told::Foreign(word) => (None, None, Some(word)),
        Told::Mending(mending) => (Some(mending), None, None),
        Told::Nothing => (None, None, None),
    };
    Mend {
        at,
        met,
        mending,
        form,
        foreign,
        open,
        too_high,
    }
}
