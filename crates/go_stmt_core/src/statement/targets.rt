//! What stands left of `=` and `:=`.
ghost use Rattle.std.specs.Prelude.{◌≡◌};
ghost use Rattle.go_stmt_core.specs.statement.Targets as targets;

use go_expr_core::denote_core::Denoted;
use go_expr_core::operand_core::ValueType;

/// What a value is given to.
#[derive(Drop)]
pub enum Target<T> {
    /// `_`.
    Blank,
    /// A variable that is declared without a written type.
    New,
    /// An addressable operand of this type, or a variable that is declared with it.
    Variable(T),
    /// What is refused, or has no type.
    Typeless,
    /// What is neither addressable nor `_`.
    Fixed,
}

fn target_of_value<T: Drop>(is_addressable: bool, value_type: ValueType<T>) -> Target<T>
    ensures { result ≡ targets.target_of_value is_addressable value_type }
{
    if !is_addressable {
        return Target::Fixed;
    }
    match value_type {
        ValueType::Typed(t) => Target::Variable(t),
        ValueType::UntypedInt | ValueType::UntypedText | ValueType::UntypedBool | ValueType::Nil =>
            Target::Fixed,
    }
}

/// What an expression left of `=` is as a target, by what it denotes, and by whether it stands there alone. `_` is [`Target::Blank`],
/// and no expression.
///
/// What is no single value is [`Target::Fixed`] where it stands alone; in a list of several it has a rule of its own, which
/// [`go_expr_core::denote_core::single_rule`] gives, and is [`Target::Typeless`] as all that is refused. The Go specification, "Assignment statements": each
/// left-hand side operand must be addressable, a map index expression, or the blank identifier; there are no maps here.
pub fn target_of<T: Drop, S: Drop, D: Drop>(denoted: Denoted<T, S, D>, is_alone: bool) -> Target<T>
    ensures { result ≡ targets.target_of denoted is_alone }
{
    match denoted {
        Denoted::Value(operand) => target_of_value(operand.addressable, operand.value_type),
        Denoted::Several(_) | Denoted::Nothing => {
            if is_alone {
                Target::Fixed
            } else {
                Target::Typeless
            }
        }
        Denoted::Refused
        | Denoted::Typeless
        | Denoted::Package(_)
        | Denoted::Type(_, _)
        | Denoted::Func(_, _)
        | Denoted::Builtin(_, _) => Target::Typeless,
    }
}
