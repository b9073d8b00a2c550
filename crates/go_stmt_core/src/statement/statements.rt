//! Expression statements and conditions.
ghost use Rattle.std.specs.Prelude.{◌≡◌};
ghost use Rattle.go_stmt_core.specs.statement.Statements as statements;

use go_constant_core::text_core::Rule;
use go_expr_core::denote_core::{Builtin, Denoted, is_refused};
use go_expr_core::operand_core::{Operand, TypeLooks, is_condition};

fn is_statement<T: Drop, S: Drop, D: Drop>(callee: &Denoted<T, S, D>) -> bool
    ensures { result ≡ statements.is_statement callee.now }
{
    match callee {
        Denoted::Type(_, _) | Denoted::Builtin(_, Builtin::Len) => false,
        Denoted::Builtin(_, Builtin::Panic)
        | Denoted::Builtin(_, Builtin::Print)
        | Denoted::Refused
        | Denoted::Typeless
        | Denoted::Package(_)
        | Denoted::Value(_)
        | Denoted::Several(_)
        | Denoted::Nothing
        | Denoted::Func(_, _) => true,
    }
}

fn called_rule<T: Drop, S: Drop, D: Drop>(callee: &Option<Denoted<T, S, D>>) -> Option<Rule>
    ensures { result ≡ statements.called_rule callee.now }
{
    match callee {
        None => Some(Rule::Y8),
        Some(callee) => if is_statement(callee) {
            None
        } else {
            Some(Rule::Y8)
        },
    }
}

/// The rule that an expression breaks where it stands for a statement, if it breaks one: Y8.
///
/// The callee is what is called, in parentheses or not: none where the expression is no call. An expression that is refused breaks no
/// rule; another one is a call, of no type and not of `len`. The Go specification, "Expression statements".
pub fn statement_rule<T: Drop, S: Drop, D: Drop>(
    callee: &Option<Denoted<T, S, D>>,
    denoted: &Denoted<T, S, D>,
) -> Option<Rule>
    ensures { result ≡ statements.statement_rule callee.now denoted.now }
{
    if is_refused(denoted) {
        None
    } else {
        called_rule(callee)
    }
}

fn value_condition<E: TypeLooks>(env: &E, operand: &Operand<E::Type>) -> Option<Rule>
    ensures { result ≡ statements.value_condition (E.types env.now) operand.now }
{
    if is_condition(env, operand) {
        None
    } else {
        Some(Rule::Y3)
    }
}

/// The rule that the condition of an `if` or a `for` breaks, if it breaks one: Y3, where it is no single value over `bool`. One that is
/// refused breaks no rule. The Go specification, "If statements", "For statements".
pub fn condition_rule<E: TypeLooks, S: Drop, D: Drop>(
    env: &E,
    denoted: &Denoted<E::Type, S, D>,
) -> Option<Rule>
    ensures { result ≡ statements.condition_rule (E.types env.now) denoted.now }
{
    match denoted {
        Denoted::Value(operand) => value_condition(env, operand),
        Denoted::Several(_) | Denoted::Nothing => Some(Rule::Y3),
        Denoted::Refused
        | Denoted::Typeless
        | Denoted::Package(_)
        | Denoted::Type(_, _)
        | Denoted::Func(_, _)
        | Denoted::Builtin(_, _) => None,
    }
}
