//! Constants.
ghost use Rattle.std.specs.Prelude.{◌≡◌, IfOk, length};
ghost use Rattle.go_constant_core.specs.Values as values;

use crate::texts::ConstantText;
use std::alloc::AllocError;

/// The value of a constant.
///
/// The Go specification, "Constants": boolean, integer and string constants.
#[derive(Drop)]
pub enum Constant {
    /// That of a constant whose initialiser is refused.
    Unknown,
    /// An integer, of 64 bits with a sign.
    Int(i64),
    Bool(bool),
    Text(ConstantText),
}

impl Constant {
    /// The same value once more. It takes no memory.
    ///
    /// # Errors
    ///
    /// `AllocError` where a text has too many owners.
    pub fn share(&self) -> Result<Constant, AllocError>
        ensures { IfOk result (λ constant. constant ≡ self.now) }
    {
        match self {
            Constant::Unknown => Ok(Constant::Unknown),
            Constant::Int(z) => Ok(Constant::Int(*z)),
            Constant::Bool(b) => Ok(Constant::Bool(*b)),
            Constant::Text(text) => Ok(Constant::Text(text.share()?)),
        }
    }
}

/// The value of an integer literal, or a length: unknown from 2^63 on, which no literal and no length is.
pub fn natural(n: u64) -> Constant
    ensures { result ≡ values.natural n }
{
    match i64::try_from(n) {
        Ok(z) => Constant::Int(z),
        Err(_) => Constant::Unknown,
    }
}

/// Whether a constant is the integer 0, by which no constant is divided.
///
/// The Go specification, "Constant expressions": the divisor of a constant division must not be zero.
pub fn is_zero(constant: &Constant) -> bool
    ensures { result ≡ values.is_zero constant.now }
{
    match constant {
        Constant::Int(z) => *z == 0,
        Constant::Unknown | Constant::Bool(_) | Constant::Text(_) => false,
    }
}

/// The length of a constant text in bytes; unknown where the constant is no text.
///
/// The Go specification, "Length and capacity": `len(s)` is constant where `s` is a string constant.
pub fn text_length(constant: &Constant) -> Constant
    ensures { result ≡ values.text_length constant.now }
{
    match constant {
        Constant::Text(text) => natural(text.len() as u64),
        Constant::Unknown | Constant::Int(_) | Constant::Bool(_) => Constant::Unknown,
    }
}
