//! Laws of assignments, declarations, returns and statements.
ghost use Rattle.go_stmt_core.specs.statement.Laws.{AssignmentsStand, TargetsAreAddressable, VariablesAreDeclared, ShortDeclarations, ConstantsAreDeclared};
ghost use Rattle.go_stmt_core.specs.statement.Laws.{ReturnsStand, CallsStand, ConditionsAreBoolean, UpdatesStand};
ghost use Rattle.go_stmt_core.specs.statement.Locality.{StatementsAreLocal};
ghost use Rattle.go_stmt_core.specs.statement.Worked.{WorkedStatements};

/// A law, with nothing to run: an assignment stands exactly where each left side is addressable, `_` or a new variable, and there is one
/// value for each, which it may be given; what is refused breaks no rule. It breaks no other rule than Y4. The Go specification,
/// "Assignment statements".
pub fn assignments_stand<T: Drop>()
    ensures { AssignmentsStand T }
{}

/// A law, with nothing to run: what is addressable is a target of its type, what is not addressable is none, a call of several values or
/// none is none where it stands alone, and what is refused is a target without a type. The Go specification, "Assignment statements",
/// "Address operators".
pub fn targets_are_addressable<T: Drop, S: Drop, D: Drop>()
    ensures { TargetsAreAddressable T S D }
{}

/// A law, with nothing to run: variables are initialised by the rules of assignment; they have the written type, or each the type of its
/// own value, or its default type, to which this value is assignable. The Go specification, "Variable declarations".
pub fn variables_are_declared<T: Drop>()
    ensures { VariablesAreDeclared T }
{}

/// A law, with nothing to run: a short variable declaration of new names is a declaration of variables without types, and a variable that
/// was declared before keeps its type. The Go specification, "Short variable declarations".
pub fn short_declarations<T: Drop>()
    ensures { ShortDeclarations T }
{}

/// A law, with nothing to run: what a constant is declared as, exactly: with the written type, or with the type of its expression, which
/// may be untyped, and with its value, which is a value of its type; and where Y7 and Y4 are broken. There are as many expressions as
/// constants. The Go specification, "Constant declarations".
pub fn constants_are_declared<T: Drop>()
    ensures { ConstantsAreDeclared T }
{}

/// A law, with nothing to run: a return stands exactly where it has one value for each result, which is assignable to it, or has none and
/// the results have names; what is refused breaks no rule. It breaks no other rule than Y4. The Go specification, "Return statements".
pub fn returns_stand<T: Drop>()
    ensures { ReturnsStand T }
{}

/// A law, with nothing to run: an expression that is not refused stands for a statement exactly where it is a call, of no type and not of
/// `len`. It breaks no other rule than Y8. The Go specification, "Expression statements".
pub fn calls_stand<T: Drop, S: Drop, D: Drop>()
    ensures { CallsStand T S D }
{}

/// A law, with nothing to run: a value is a condition exactly where it is over bool; a call with several results or none is no single
/// value, and no condition. The Go specification, "If statements", "For statements".
pub fn conditions_are_boolean<T: Drop, S: Drop, D: Drop>()
    ensures { ConditionsAreBoolean T S D }
{}

/// A law, with nothing to run: `x op= y`, `x++` and `x--` stand where they do of two values; bit operators and shifts are outside the
/// profile whatever stands beside them, and another operator breaks no rule beside what is refused. The Go specification, "Assignment
/// statements", "IncDec statements".
pub fn updates_stand<T: Drop>()
    ensures { UpdatesStand T }
{}

/// A law, with nothing to run: what is answered is the same under two look-ups on types that agree on what is asked of each value and
/// of the type where it is given.
pub fn statements_are_local<T: Drop, S: Drop, D: Drop>()
    ensures { StatementsAreLocal T S D }
{}

/// A law, with nothing to run: statements worked out, each a line.
pub fn worked_statements<T: Drop, S: Drop, D: Drop, P: Drop>()
    ensures { WorkedStatements T S D P }
{}
