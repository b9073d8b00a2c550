//! Words of other languages.
ghost use Rattle.std.specs.Prelude.{◌≡◌, IfSome, true};
ghost use Rattle.go_recovery_core.specs.mend.Foreign.{foreign_advice, foreign_text};

/// A word of another language that begins a statement or a declaration.
#[derive(Clone, Copy, Debug, PartialEq, Eq)]
pub enum ForeignWord {
    /// `while`
    While,
    /// `elif`
    Elif,
    /// `elseif`
    Elseif,
    /// `try`
    Try,
    /// `let`
    Let,
    /// `def`
    Def,
    /// `fn`
    Fn,
    /// `function`
    Function,
    /// `class`
    Class,
}

// The words in their order.
const WORDS: [ForeignWord; 9] = [
    ForeignWord::While,
    ForeignWord::Elif,
    ForeignWord::Elseif,
    ForeignWord::Try,
    ForeignWord::Let,
    ForeignWord::Def,
    ForeignWord::Fn,
    ForeignWord::Function,
    ForeignWord::Class,
];

impl ForeignWord {
    /// The word as it is written.
    pub fn text(self) -> &'static str
        ensures { result.now ≡ foreign_text self }
    {
        match self {
            ForeignWord::While => "while",
            ForeignWord::Elif => "elif",
            ForeignWord::Elseif => "elseif",
            ForeignWord::Try => "try",
            ForeignWord::Let => "let",
            ForeignWord::Def => "def",
            ForeignWord::Fn => "fn",
            ForeignWord::Function => "function",
            ForeignWord::Class => "class",
        }
    }

    /// What stands in Go in its place: `Go's loop is for`.
    pub fn advice(self) -> &'static str
        ensures { result.now ≡ foreign_advice self }
    {
        match self {
            ForeignWord::While => "Go's loop is for",
            ForeignWord::Elif | ForeignWord::Elseif => "Go writes else if",
            ForeignWord::Try => "Go has no try: a function returns an error",
            ForeignWord::Let => "Go declares a variable with var or :=",
            ForeignWord::Def | ForeignWord::Fn | ForeignWord::Function => {
                "Go declares a function with func"
            }
            ForeignWord::Class => "Go declares a type with type, and its methods with func",
        }
    }
}

fn same_text(one: &str, other: &str) -> bool
    ensures { result ≡ true → one.now ≡ other.now }
{
    one == other
}

/// The word that is spelled so, if it is one of them.
pub(crate) fn foreign_word(spelled: &str) -> Option<ForeignWord>
    ensures { IfSome result (λ word. spelled.now ≡ foreign_text word) }
{
    for word in &WORDS {
        if same_text(spelled, word.text()) {
            return Some(*word);
        }
    }
    None
}
