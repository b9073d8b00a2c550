//! Laws of constants.
ghost use Rattle.go_constant_core.specs.Laws.{SumsAreExact, DifferencesAreExact, ProductsAreExact, NegationIsExact, DivisionTruncates, OrdersAreTotal, TextsByBytes, TextsAreJoined, TruthTables, UnknownStaysUnknown};

/// A law, with nothing to run: the sum of two integer constants is their sum as integers where that has 64 bits with a sign, and there
/// is none where it has not.
pub fn sums_are_exact()
    ensures { SumsAreExact }
{}

/// A law, with nothing to run: so is the difference.
pub fn differences_are_exact()
    ensures { DifferencesAreExact }
{}

/// A law, with nothing to run: so is the product.
pub fn products_are_exact()
    ensures { ProductsAreExact }
{}

/// A law, with nothing to run: so is what `-` makes of one.
pub fn negation_is_exact()
    ensures { NegationIsExact }
{}

/// A law, with nothing to run: where b is not 0, `a / b` and `a % b` are the quotient q and the remainder r with a = q b + r, in which r
/// is smaller than b and is 0 or has the sign of a: so the quotient is truncated toward zero. Each is none where it is out of range.
pub fn division_truncates()
    ensures { DivisionTruncates }
{}

/// A law, with nothing to run: comparisons of integers say how these lie. Of two integers, and of two texts, one stands before the
/// other or they are the same, and no two of these.
pub fn orders_are_total()
    ensures { OrdersAreTotal }
{}

/// A law, with nothing to run: comparisons of texts say how these lie by bytes, whatever their lengths.
pub fn texts_by_bytes()
    ensures { TextsByBytes }
{}

/// A law, with nothing to run: the sum of two texts is the bytes of the first and then those of the second.
pub fn texts_are_joined()
    ensures { TextsAreJoined }
{}

/// A law, with nothing to run: what `&& || ! == !=` make of booleans.
pub fn truth_tables()
    ensures { TruthTables }
{}

/// A law, with nothing to run: an operator on a value that is not known gives one that is not known.
pub fn unknown_stays_unknown()
    ensures { UnknownStaysUnknown }
{}
