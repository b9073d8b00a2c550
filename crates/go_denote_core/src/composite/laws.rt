//! Laws of composite literals.
ghost use Rattle.go_denote_core.specs.composite.Laws.{FirstRuleOfKey, NamedFields, OwnNameDecidesKey, KeysAreLocal, MarksTellKeys, RepeatedNames};
ghost use Rattle.go_denote_core.specs.composite.Laws.{KeysOfElements, FirstRuleOfLiteral, RulesOfLiterals, TargetsOfElements, TypesOfLiterals, ElementsFit, LiteralsAreLocal};
ghost use Rattle.go_denote_core.specs.composite.Samples.{WorkedLiterals};

/// A law, with nothing to run: a key has the first rule that it breaks, in the order F8, F5, F2, F3, F1, F4, and where it breaks none
/// the declaration of the field of its name, whose type its element is to be assignable to. Each rule has its condition in its own
/// words, apart from the others.
pub fn first_rule_of_key<T, S, D, P>()
    ensures { FirstRuleOfKey T S D P }
{}

/// A law, with nothing to run: where one name stands for one field, the field that is found is the one that is spelled so, be it
/// visible or hidden, and none is found exactly where none is spelled so.
pub fn fields_by_name<T, D>()
    ensures { NamedFields T D }
{}

/// A law, with nothing to run: a key's mark tells all that its answer asks of the other keys and of the spellings of fields: by its mark
/// among them a key has what it has by its own name.
pub fn marks_tell_keys<T, S, D, P>()
    ensures { MarksTellKeys T S D P }
{}

/// A law, with nothing to run: what a key has is what its context gives for its name. The context has the spellings of the other keys
/// alone, and does not change with the key's own; and of that it looks only at whether it is `_`, whether it is among the others, and
/// what the literal's type says of it.
pub fn own_name_decides_key<T, S, D, P>()
    ensures { OwnNameDecidesKey T S D P }
{}

/// A law, with nothing to run: a key has the same answer under two look-ups that agree on its name in the literal's type.
pub fn keys_are_local<T, S, D, P>()
    ensures { KeysAreLocal T S D P }
{}

/// A law, with nothing to run: of some names those are repeated that stand at another place too, which is to say among the others.
pub fn repeated_names()
    ensures { RepeatedNames }
{}

/// A law, with nothing to run: by how many elements there are and how many of them have keys, none has, each has, or some have and
/// some not.
pub fn keys_of_elements()
    ensures { KeysOfElements }
{}

/// A law, with nothing to run: a literal breaks as a whole the first of the rules F8, F5, F6, F7 that holds, or none. Each has its
/// condition in its own words, apart from the others.
pub fn first_rule_of_literal<T, S, D, P>()
    ensures { FirstRuleOfLiteral T S D P }
{}

/// A law, with nothing to run: a literal breaks F8 exactly where its type is no struct type; else F5 exactly where some elements have
/// keys and some not; F6 exactly where there are elements, none has a key, and there are not as many as fields; F7 exactly where there
/// are as many, none has a key, and a field is not visible; and none exactly where each has a key, there is no element, or there are
/// as many as fields, which are all visible.
pub fn rules_of_literals<T, S, D, P>()
    ensures { RulesOfLiterals T S D P }
{}

/// A law, with nothing to run: an element is to be assignable to the field that its key names; where no element has a key and there
/// are as many as fields, to the field of its number; where the literal breaks F8, F5 or F6, to nothing.
pub fn targets_of_elements<T, S, D, P>()
    ensures { TargetsOfElements T S D P }
{}

/// A law, with nothing to run: a literal has the type that the name of its type denotes, and is refused where it denotes none.
pub fn types_of_literals<T, S, D>()
    ensures { TypesOfLiterals T S D }
{}

/// A law, with nothing to run: an element breaks Y4 exactly where it is a single value that is not assignable to the type that is
/// wanted.
pub fn elements_fit<T, S, D, P>()
    ensures { ElementsFit T S D P }
{}

/// A law, with nothing to run: literals have the same answers under two look-ups that agree on the form and the fields of their types,
/// and elements under two that agree on their values with what is wanted.
pub fn literals_are_local<T, S, D, P>()
    ensures { LiteralsAreLocal T S D P }
{}

/// A law, with nothing to run: literals and their keys worked out by hand have the rules that they should: of a type with an exported
/// and a non-exported field, in another package, one without elements, with one and with two, with each key, with one key twice, with
/// a key and an element without one, with `_`, and with the name of a promoted field and of none.
pub fn worked_literals<T, S, D, P>()
    ensures { WorkedLiterals T S D P }
{}
