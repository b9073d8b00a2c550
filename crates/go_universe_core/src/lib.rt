//! The predeclared names.
//!
//! The Go specification, "Predeclared identifiers": "The following identifiers are implicitly declared in the universe block".
#![tactic(auto)]

ghost use Rattle.std.specs.Prelude.{◌≡◌};
ghost use Rattle.go_universe_core.specs.Universe.{spelling_of, kind_of, found};

mod laws;

pub use laws::{each_is_found, names_differ};

/// What a predeclared name is.
#[derive(Clone, Copy, Debug, PartialEq, Eq)]
pub enum PredeclaredKind {
    Type,
    Constant,
    /// The zero value of pointers and interfaces.
    Nil,
    Function,
}

/// A predeclared name.
#[derive(Clone, Copy, PartialEq, Eq)]
pub enum Predeclared {
    /// `any`
    Any,
    /// `append`
    Append,
    /// `bool`
    Bool,
    /// `byte`
    Byte,
    /// `cap`
    Cap,
    /// `clear`
    Clear,
    /// `close`
    Close,
    /// `comparable`
    Comparable,
    /// `complex`
    Complex,
    /// `complex128`
    Complex128,
    /// `complex64`
    Complex64,
    /// `copy`
    Copy,
    /// `delete`
    Delete,
    /// `error`
    Error,
    /// `false`
    False,
    /// `float32`
    Float32,
    /// `float64`
    Float64,
    /// `imag`
    Imag,
    /// `int`
    Int,
    /// `int16`
    Int16,
    /// `int32`
    Int32,
    /// `int64`
    Int64,
    /// `int8`
    Int8,
    /// `iota`
    Iota,
    /// `len`
    Len,
    /// `make`
    Make,
    /// `max`
    Max,
    /// `min`
    Min,
    /// `new`
    New,
    /// `nil`
    Nil,
    /// `panic`
    Panic,
    /// `print`
    Print,
    /// `println`
    Println,
    /// `real`
    Real,
    /// `recover`
    Recover,
    /// `rune`
    Rune,
    /// `string`
    String,
    /// `true`
    True,
    /// `uint`
    Uint,
    /// `uint16`
    Uint16,
    /// `uint32`
    Uint32,
    /// `uint64`
    Uint64,
    /// `uint8`
    Uint8,
    /// `uintptr`
    Uintptr,
}

/// All predeclared names, in order of their bytes.
pub const PREDECLARED: [Predeclared; 44] = [
    Predeclared::Any,
    Predeclared::Append,
    Predeclared::Bool,
    Predeclared::Byte,
    Predeclared::Cap,
    Predeclared::Clear,
    Predeclared::Close,
    Predeclared::Comparable,
    Predeclared::Complex,
    Predeclared::Complex128,
    Predeclared::Complex64,
    Predeclared::Copy,
    Predeclared::Delete,
    Predeclared::Error,
    Predeclared::False,
    Predeclared::Float32,
    Predeclared::Float64,
    Predeclared::Imag,
    Predeclared::Int,
    Predeclared::Int16,
    Predeclared::Int32,
    Predeclared::Int64,
    Predeclared::Int8,
    Predeclared::Iota,
    Predeclared::Len,
    Predeclared::Make,
    Predeclared::Max,
    Predeclared::Min,
    Predeclared::New,
    Predeclared::Nil,
    Predeclared::Panic,
    Predeclared::Print,
    Predeclared::Println,
    Predeclared::Real,
    Predeclared::Recover,
    Predeclared::Rune,
    Predeclared::String,
    Predeclared::True,
    Predeclared::Uint,
    Predeclared::Uint16,
    Predeclared::Uint32,
    Predeclared::Uint64,
    Predeclared::Uint8,
    Predeclared::Uintptr,
];

// The spellings in the order of the names.
const SPELLINGS: [&str; 44] = [
    "any",
    "append",
    "bool",
    "byte",
    "cap",
    "clear",
    "close",
    "comparable",
    "complex",
    "complex128",
    "complex64",
    "copy",
    "delete",
    "error",
    "false",
    "float32",
    "float64",
    "imag",
    "int",
    "int16",
    "int32",
    "int64",
    "int8",
    "iota",
    "len",
    "make",
    "max",
    "min",
    "new",
    "nil",
    "panic",
    "print",
    "println",
    "real",
    "recover",
    "rune",
    "string",
    "true",
    "uint",
    "uint16",
    "uint32",
    "uint64",
    "uint8",
    "uintptr",
];

// What the names are, in their order.
const KINDS: [PredeclaredKind; 44] = [
    PredeclaredKind::Type,
    PredeclaredKind::Function,
    PredeclaredKind::Type,
    PredeclaredKind::Type,
    PredeclaredKind::Function,
    PredeclaredKind::Function,
    PredeclaredKind::Function,
    PredeclaredKind::Type,
    PredeclaredKind::Function,
    PredeclaredKind::Type,
    PredeclaredKind::Type,
    PredeclaredKind::Function,
    PredeclaredKind::Function,
    PredeclaredKind::Type,
    PredeclaredKind::Constant,
    PredeclaredKind::Type,
    PredeclaredKind::Type,
    PredeclaredKind::Function,
    PredeclaredKind::Type,
    PredeclaredKind::Type,
    PredeclaredKind::Type,
    PredeclaredKind::Type,
    PredeclaredKind::Type,
    PredeclaredKind::Constant,
    PredeclaredKind::Function,
    PredeclaredKind::Function,
    PredeclaredKind::Function,
    PredeclaredKind::Function,
    PredeclaredKind::Function,
    PredeclaredKind::Nil,
    PredeclaredKind::Function,
    PredeclaredKind::Function,
    PredeclaredKind::Function,
    PredeclaredKind::Function,
    PredeclaredKind::Function,
    PredeclaredKind::Type,
    PredeclaredKind::Type,
    PredeclaredKind::Constant,
    PredeclaredKind::Type,
    PredeclaredKind::Type,
    PredeclaredKind::Type,
    PredeclaredKind::Type,
    PredeclaredKind::Type,
    PredeclaredKind::Type,
];

impl Predeclared {
    /// How the name is spelled.
    #[tactic(auto, unfolding(crate::specs::Universe::spelling_of))]
    pub fn spelling(self) -> &'static str
        ensures { result.now ≡ spelling_of self }
    {
        SPELLINGS[self as usize]
    }

    /// What the name is.
    #[tactic(auto, unfolding(crate::specs::Universe::kind_of))]
    pub fn kind(self) -> PredeclaredKind
        ensures { result ≡ kind_of self }
    {
        KINDS[self as usize]
    }
}

/// The predeclared name that is spelled so, if one is.
#[tactic(auto, unfolding(crate::specs::Universe::found))]
pub fn find_predeclared(name: &str) -> Option<Predeclared>
    ensures { result ≡ found name.now }
{
    PREDECLARED.iter().copied().find(|p| name == p.spelling())
}
