//! Laws of names, selectors and calls.
ghost use Rattle.go_denote_core.specs.Laws.{FirstRuleOfName, FirstRuleOfSelector, FirstRuleOfCall, RefusedDenotesNothing};
ghost use Rattle.go_denote_core.specs.Laws.{OwnNameDecidesName, OwnNameDecidesSelector, NamesAreLocal, SelectorsAreLocal, CallsAreLocal};

/// A law, with nothing to run: a name at a place has the first rule that it breaks, in the order N8, N1, N9, N7, N4, N5, N6, C1, X1,
/// and where it breaks none the declaration that it stands for. Each rule has its condition in its own words, apart from the others.
pub fn first_rule_of_name<T, S, D, P>()
    ensures { FirstRuleOfName T S D P }
{}

/// A law, with nothing to run: a selector has the first rule that it breaks, after a package in the order S8, N3, N2, N5, N6, C1, X1,
/// after a value in the order S8, S4, the rule by which no member is selected, C1, X1, S5, after a name that is refused S4; and where
/// it breaks none the declaration in the package, or the member with the embedded fields that lead to it.
pub fn first_rule_of_selector<T, S, D, P>()
    ensures { FirstRuleOfSelector T S D P }
{}

/// A law, with nothing to run: a call has the first rule that it breaks, in the order C1, C2, C3, C4, X1, and where it breaks none the
/// declaration of what it calls.
pub fn first_rule_of_call<T, S, D, P>()
    ensures { FirstRuleOfCall T S D P }
{}

/// A law, with nothing to run: names, selectors and calls denote nothing exactly where they break a rule.
pub fn refused_denotes_nothing<T, S, D, P>()
    ensures { RefusedDenotesNothing T S D P }
{}

/// A law, with nothing to run: what a name has is what its context gives for it, and of the name this looks only at whether it is
/// `_`, and at what it stands for.
pub fn own_name_decides_name<T, S, D, P>()
    ensures { OwnNameDecidesName T S D P }
{}

/// A law, with nothing to run: what a selector has is what its context gives for its name, and of the name this looks only at whether
/// it is `_`, and at what it stands for behind what is left of the dot.
pub fn own_name_decides_selector<T, S, D, P>()
    ensures { OwnNameDecidesSelector T S D P }
{}

/// A law, with nothing to run: a name has the same answer under two look-ups that agree on it.
pub fn names_are_local<T, S, D, P>()
    ensures { NamesAreLocal T S D P }
{}

/// A law, with nothing to run: a selector has the same answer under two look-ups that agree on its name behind what stands left of the
/// dot.
pub fn selectors_are_local<T, S, D, P>()
    ensures { SelectorsAreLocal T S D P }
{}

/// A law, with nothing to run: a call has the same answer under two look-ups that agree on its signature, and on its arguments with
/// their parameters.
pub fn calls_are_local<T, S, D, P>()
    ensures { CallsAreLocal T S D P }
{}
