//! What the occurrences of a file have, held.
ghost use Rattle.std.specs.Prelude.{◌≡◌, ◌++◌, [], ◌∷◌, IfOk, OnOk};

use crate::answer::site::Site;
use go_expr_core::Use;
use go_expr_core::denote_core::Outcome;
use go_path_core::text_core::add;
use go_select_core::EmbedPath;
use go_summary_core::handle_core::Decl;
use std::alloc::{AllocError, Global};

/// What an occurrence has, held: an identifier at its first byte, a call at its opening parenthesis, an import at its string, each by its
/// offset in bytes from the file's start, with what it is, and with its declaration or the first rule that it breaks.
pub type Answer = Use<Site, EmbedPath>;

// What an occurrence has, held.
fn hold_outcome(
    outcome: Outcome<Decl<'_>, EmbedPath>,
) -> Result<Outcome<Site, EmbedPath>, AllocError>
    ensures { IfOk result (λ held. held ≡ outcome.entry) }
{
    match outcome {
        Outcome::Declared(decl) => Ok(Outcome::Declared(Site::of(&decl)?)),
        Outcome::Selected(decl, path) => Ok(Outcome::Selected(Site::of(&decl)?, path)),
        Outcome::Refused(rule) => Ok(Outcome::Refused(rule)),
    }
}

// Adds what an occurrence has.
fn add_answer(answers: &mut Vec<Answer>, used: Use<Decl<'_>, EmbedPath>) -> Result<(), AllocError>
    ensures { OnOk result (answers.new.items ≡ answers.old.items ++ used.entry ∷ []) }
{
    let outcome = hold_outcome(used.outcome)?;
    let (offset, role) = (used.offset, used.role);
    add(
        answers,
        Use {
            offset,
            role,
            outcome,
        },
    )
}

/// What occurrences have, held: each at its place, in the order in which they came. Paths of packages are shared.
///
/// # Errors
///
/// `AllocError` where memory is wanting.
pub fn answers_of(
    alloc: Global,
    uses: Vec<Use<Decl<'_>, EmbedPath>>,
) -> Result<Vec<Answer>, AllocError>
    ensures { IfOk result (λ answers. answers.items ≡ uses.entry.items) }
{
    let mut answers = Vec::new(alloc);
    for used in uses {
        add_answer(&mut answers, used)?;
    }
    Ok(answers)
}
