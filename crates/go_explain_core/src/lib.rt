//! What each rule means, with an example that breaks it and the example mended: the texts of `govisd explain`, and of the
//! lines of `govisd check`.
#![tactic(auto)]

mod examples;
mod laws;
mod meanings;
mod mendings;
mod naming;
mod telling;

ghost use Rattle.std.specs.Prelude.{◌≡◌};
ghost use Rattle.go_explain_core.specs.Examples.{example_of};
ghost use Rattle.go_explain_core.specs.Meanings.{rule_meaning};
ghost use Rattle.go_explain_core.specs.Mendings.{mending_of};

use crate::examples::example;
use crate::mendings::mending;
use go_text_core::Rule;
pub use laws::{numbers_name_rules, rules_are_told_apart, texts_are_lines, texts_name_rules};
pub use meanings::meaning;
pub use naming::{is_near, rule_named, rules};
pub use telling::{explained, listed, unknown};

/// What is said of a rule.
#[derive(Clone, Copy)]
pub struct Explanation {
    /// What the rule means, in one line without its end.
    pub meaning: &'static str,
    /// A text that breaks the rule: a Go file, or an archive of several behind lines `-- ex.com/a/x.go --`, which begin the file
    /// `x.go` of the package `ex.com/a`. Of a rule that no source breaks, a sentence says what breaks it.
    pub example: &'static str,
    /// The example without the fault. Of a rule that no source breaks, what to do.
    pub mending: &'static str,
}

/// What is said of a rule.
pub fn explain(rule: Rule) -> Explanation
    ensures meaning { result.meaning.now ≡ rule_meaning rule }
    ensures example { result.example.now ≡ example_of rule }
    ensures mending { result.mending.now ≡ mending_of rule }
{
    Explanation {
        meaning: meaning(rule),
        example: example(rule),
        mending: mending(rule),
    }
}
