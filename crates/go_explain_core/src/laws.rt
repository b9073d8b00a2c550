//! Laws of the names of rules and of what is written of them, with nothing to run.
ghost use Rattle.go_text_core.specs.Rules.{rule_number};
ghost use Rattle.go_explain_core.specs.Examples.{example_of};
ghost use Rattle.go_explain_core.specs.Laws.{ExamplesEndLines, IsNearItself, LinesName, MeaningsLieInLines, MeaningsNeedNoEscape, MendingsDiffer, MendingsEndLines, NamesEach, NamesNoOther, NamesNone, NumbersNeedNoEscape, StandsOnce, TellApart, TextsName};
ghost use Rattle.go_explain_core.specs.Meanings.{rule_meaning};
ghost use Rattle.go_explain_core.specs.Telling.{explained_text};

/// A rule is the one that its number names, no other text names it, and a text that names none is the number of none. Each
/// rule stands once among all, and is near its own number.
pub fn numbers_name_rules()
    ensures each { NamesEach }
    ensures other { NamesNoOther }
    ensures none { NamesNone }
    ensures once { StandsOnce }
    ensures near { IsNearItself }
{}

/// What is written of a rule begins with the number that names it: its text, and its line in the list of all.
pub fn texts_name_rules()
    ensures text { TextsName }
    ensures line { LinesName }
{}

/// Two rules differ in all that is said of them: in their numbers, what they mean, their examples and their texts.
pub fn rules_are_told_apart()
    ensures number { TellApart rule_number }
    ensures meaning { TellApart rule_meaning }
    ensures example { TellApart example_of }
    ensures text { TellApart explained_text }
{}

/// What a rule means lies in one line, and neither that nor the rule's number needs an escape in a string of JSON. An example is whole lines, and so
/// is the example mended, which is another text.
pub fn texts_are_lines()
    ensures meaning { MeaningsLieInLines }
    ensures escape { MeaningsNeedNoEscape }
    ensures number { NumbersNeedNoEscape }
    ensures example { ExamplesEndLines }
    ensures mending { MendingsEndLines }
    ensures other { MendingsDiffer }
{}
