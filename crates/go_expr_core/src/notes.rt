//! What is noted on the way.
ghost use Rattle.std.specs.Prelude.{◌≡◌, ◌<◌, ◌++◌, [], ◌∷◌, length, slice_set, IfOk, OnOk};
ghost use Rattle.go_tree_core.specs.declared.occurrence.Role.TheVariants as roles;
ghost use Rattle.go_denote_core.specs.declared.things.Outcome.TheVariants as outcomes;
ghost use Rattle.go_denote_core.specs.Arguments.{single_rule};
ghost use Rattle.go_denote_core.specs.text_core.declared.rule.Rule.TheVariants as rules;
ghost use Rattle.go_expr_core.specs.Uses as all_uses;
ghost use Rattle.go_expr_core.specs.Faults as all_faults;

use crate::things::{Judged, Notes, Use};
use go_denote_core::text_core::{Rule, Span};
use go_denote_core::{Answer, Denoted, Outcome, single_rule};
use go_local_core::Fault;
use go_tree_core::Role;
use std::alloc::AllocError;

/// Notes a rule that is broken at an offset in bytes from the file's start, if one is.
///
/// # Errors
///
/// `AllocError` where memory is wanting.
pub fn note_fault(
    faults: &mut Vec<Fault>,
    offset: usize,
    rule: Option<Rule>,
) -> Result<(), AllocError>
    ensures { OnOk result (faults.new.items ≡ faults.old.items ++ all_faults.fault_at offset rule) }
{
    match rule {
        None => Ok(()),
        Some(rule) => {
            faults.push(Fault { offset, rule })?;
            Ok(())
        }
    }
}

/// Notes what an occurrence has.
pub(crate) fn note_use<D: Drop, P: Drop>(
    uses: &mut Vec<Use<D, P>>,
    offset: usize,
    role: Role,
    outcome: Outcome<D, P>,
) -> Result<(), AllocError>
    ensures { OnOk result (uses.new.items ≡ uses.old.items ++ all_uses.made_use offset role outcome ∷ []) }
{
    uses.push(Use {
        offset,
        role,
        outcome,
    })?;
    Ok(())
}

/// Notes what an identifier has, and hands on what it denotes.
pub(crate) fn note_answer<T: Drop, S: Drop, D: Drop, P: Drop>(
    uses: &mut Vec<Use<D, P>>,
    offset: usize,
    role: Role,
    answer: Answer<T, S, D, P>,
) -> Result<Denoted<T, S, D>, AllocError>
    ensures denoted { IfOk result (λ d. d ≡ answer.denoted) }
    ensures uses { OnOk result (uses.new.items ≡ uses.old.items ++ all_uses.made_use offset role answer.outcome ∷ []) }
{
    note_use(uses, offset, role, answer.outcome)?;
    Ok(answer.denoted)
}

/// Notes the rule of an operator, and hands on what it denotes.
pub(crate) fn note_judged<T: Drop, S: Drop, D: Drop>(
    faults: &mut Vec<Fault>,
    offset: usize,
    judged: Judged<T, S, D>,
) -> Result<Denoted<T, S, D>, AllocError>
    ensures denoted { IfOk result (λ d. d ≡ judged.denoted) }
    ensures faults { OnOk result (faults.new.items ≡ faults.old.items ++ all_faults.fault_at offset judged.fault) }
{
    note_fault(faults, offset, judged.fault)?;
    Ok(judged.denoted)
}

/// Notes an operand that is not one value.
pub(crate) fn note_single<T: Drop, S: Drop, D: Drop>(
    faults: &mut Vec<Fault>,
    offset: usize,
    denoted: &Denoted<T, S, D>,
) -> Result<(), AllocError>
    ensures { OnOk result (faults.new.items ≡ faults.old.items ++ all_faults.fault_at offset (single_rule denoted.now)) }
{
    note_fault(faults, offset, single_rule(denoted))
}

/// Notes Y3 at an offset in bytes from the file's start, where a member of a list of several is not one value.
///
/// # Errors
///
/// `AllocError` where memory is wanting.
pub fn note_member<T: Drop, S: Drop, D: Drop>(
    faults: &mut Vec<Fault>,
    offset: usize,
    is_several: bool,
    denoted: &Denoted<T, S, D>,
) -> Result<(), AllocError>
    ensures { OnOk result (faults.new.items ≡ faults.old.items ++ all_faults.fault_at offset (all_faults.listed_rule is_several denoted.now)) }
{
    if is_several {
        note_single(faults, offset, denoted)
    } else {
        Ok(())
    }
}

/// Keeps a place for what a call has.
pub(crate) fn open_call<D: Drop, P: Drop>(
    uses: &mut Vec<Use<D, P>>,
    span: Span,
) -> Result<(), AllocError>
    ensures { OnOk result (uses.new.items ≡ uses.old.items ++ all_uses.made_use span.start roles.Call (outcomes.Refused rules.C1) ∷ []) }
{
    note_use(
        uses,
        span.start as usize,
        Role::Call,
        Outcome::Refused(Rule::C1),
    )
}

/// Puts what a call has into the place that was kept, and hands on what it denotes.
pub(crate) fn close_call<T: Drop, S: Drop, D: Drop, P: Drop>(
    uses: &mut Vec<Use<D, P>>,
    at: usize,
    span: Span,
    answer: Answer<T, S, D, P>,
) -> Denoted<T, S, D>
    requires { at < length uses.old.items }
    ensures denoted { result ≡ answer.denoted }
    ensures uses { uses.new.items ≡ slice_set uses.old.items at (all_uses.made_use span.start roles.Call answer.outcome) }
{
    uses[at] = Use {
        offset: span.start as usize,
        role: Role::Call,
        outcome: answer.outcome,
    };
    answer.denoted
}
