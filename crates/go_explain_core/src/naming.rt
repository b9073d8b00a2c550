//! The rules by their names.
ghost use Rattle.std.specs.Prelude.{◌≡◌, find};
ghost use Rattle.go_explain_core.specs.Naming.{all_rules, named, near, rule_of_number};

use go_text_core::Rule;

// In the order of the rules.
const RULES: [Rule; 84] = [
    Rule::L1,
    Rule::L2,
    Rule::L3,
    Rule::P1,
    Rule::P2,
    Rule::K2,
    Rule::K3,
    Rule::K4,
    Rule::I1,
    Rule::I2,
    Rule::I3,
    Rule::I4,
    Rule::I5,
    Rule::I6,
    Rule::I7,
    Rule::B1,
    Rule::B2,
    Rule::B3,
    Rule::B4,
    Rule::B5,
    Rule::B6,
    Rule::N1,
    Rule::N2,
    Rule::N3,
    Rule::N4,
    Rule::N5,
    Rule::N6,
    Rule::N7,
    Rule::N8,
    Rule::N9,
    Rule::S1,
    Rule::S2,
    Rule::S3,
    Rule::S4,
    Rule::S5,
    Rule::S6,
    Rule::S7,
    Rule::S8,
    Rule::F1,
    Rule::F2,
    Rule::F3,
    Rule::F4,
    Rule::F5,
    Rule::F6,
    Rule::F7,
    Rule::F8,
    Rule::C1,
    Rule::C2,
    Rule::C3,
    Rule::C4,
    Rule::Y1,
    Rule::Y2,
    Rule::Y3,
    Rule::Y4,
    Rule::Y5,
    Rule::Y6,
    Rule::Y7,
    Rule::Y8,
    Rule::X1,
    Rule::Q1,
    Rule::Q2,
    Rule::Q3,
    Rule::Q4,
    Rule::O1,
    Rule::O2,
    Rule::O3,
    Rule::O4,
    Rule::O5,
    Rule::E1,
    Rule::E2,
    Rule::E3,
    Rule::E4,
    Rule::E5,
    Rule::H1,
    Rule::H2,
    Rule::Z1,
    Rule::M0,
    Rule::J1,
    Rule::J2,
    Rule::J3,
    Rule::V1,
    Rule::V2,
    Rule::V3,
    Rule::V4,
];

/// All rules, in order.
pub fn rules() -> &'static [Rule]
    ensures { result.now ≡ all_rules }
{
    RULES.as_slice()
}

// Whether a text is the number of a rule, be its letter written large or small.
fn is_named(rule: Rule, text: &str) -> bool
    ensures { result ≡ named text.now rule }
{
    rule.number().eq_ignore_ascii_case(text)
}

// The first of some rules whose number is a text, be its letter written large or small.
fn find_named(rules: &[Rule], text: &str) -> Option<Rule>
    ensures { result ≡ find (named text.now) rules.now }
{
    rules.iter().copied().find(|rule| is_named(*rule, text))
}

/// The rule whose number is a text, as `N1` or `n1`, if there is one.
pub fn rule_named(text: &str) -> Option<Rule>
    ensures { result ≡ rule_of_number text.now }
{
    find_named(rules(), text)
}

/// Whether a rule has the letter with which a text begins, be it written large or small.
pub fn is_near(rule: Rule, text: &str) -> bool
    ensures { result ≡ near text.now rule }
{
    match (rule.number().as_bytes().first(), text.as_bytes().first()) {
        (Some(own), Some(given)) => *own == given.to_ascii_uppercase(),
        _ => false,
    }
}
