//! What declarations come to in code.
ghost use Rattle.std.specs.Prelude.{◌≡◌};
ghost use Rattle.std.specs.Option.{option_map};
ghost use Rattle.go_declared_core.specs.Faces.{operand_shown};
ghost use Rattle.go_emit_core.specs.meaning.Meanings.{constant_meaning, constant_meaning_or, face_meaning, local_meaning, some_face_meaning, type_meaning, universe_meaning, value_meaning, variable_meaning};

use crate::meaning::words::{sign_gives, some_word, value_word};
use go_code_core::fragments::{ConstantWord, Meaning};
use go_constant_core::Constant;
use go_declared_core::Face;
use go_declared_core::handle_core::{SignatureRef, TypeRef};
use go_expr_core::operand_core::Operand;
use go_object_core::instructions::Word;
use go_table_core::TypeTable;
use go_term_core::TypeTerm;
use go_universe_core::Predeclared;

fn constant_meaning(constant: &Constant) -> Meaning
    ensures { result ≡ constant_meaning constant.now }
{
    match constant {
        Constant::Int(z) => Meaning::Constant(ConstantWord::Int(*z)),
        Constant::Bool(b) => Meaning::Constant(ConstantWord::Bool(*b)),
        Constant::Text(_) => Meaning::Other,
        Constant::Unknown => Meaning::Other,
    }
}

fn type_meaning(word: Option<Word>) -> Meaning
    ensures { result ≡ type_meaning word }
{
    match word {
        Some(word) => Meaning::Type(word),
        None => Meaning::Other,
    }
}

fn variable_meaning(offset: usize, word: Option<Word>) -> Meaning
    ensures { result ≡ variable_meaning offset word }
{
    match word {
        Some(word) => Meaning::Variable(offset, word),
        None => Meaning::Other,
    }
}

fn constant_or(constant: &Option<Constant>, other: Meaning) -> Meaning
    ensures { result ≡ constant_meaning_or constant.now other }
{
    match constant {
        Some(constant) => constant_meaning(constant),
        None => other,
    }
}

fn value_meaning(operand: &Option<Operand<TypeRef<'_>>>) -> Meaning
    ensures { result ≡ value_meaning operand.now }
{
    match operand {
        Some(operand) => constant_or(&operand.constant, Meaning::Other),
        None => Meaning::Other,
    }
}

// A declaration of a package outside functions.
fn face_meaning(types: &TypeTable, face: &Face<TypeRef<'_>, SignatureRef<'_>>) -> Meaning
    ensures { result ≡ face_meaning types.now face.now }
{
    match face {
        Face::Type(t) => type_meaning(some_word(types, t)),
        Face::Func(signature) => Meaning::Function(sign_gives(types, signature)),
        Face::Value(operand) => value_meaning(operand),
    }
}

/// A declaration of a package outside functions, by what is known of it: something else where nothing is.
///
/// The Go specification, "Constants", "Type declarations", "Function declarations".
pub(crate) fn some_meaning(
    types: &TypeTable,
    face: &Option<Face<TypeRef<'_>, SignatureRef<'_>>>,
) -> Meaning
    ensures { result ≡ some_face_meaning types.now face.now }
{
    match face {
        Some(face) => face_meaning(types, face),
        None => Meaning::Other,
    }
}

/// A local of a function: of what is declared at an offset in bytes from the file's start, and stands for a value, if for any.
///
/// The Go specification, "Constants", "Variables".
pub(crate) fn local_meaning(
    types: &TypeTable,
    offset: usize,
    value: &Option<Operand<TypeTerm>>,
) -> Meaning
    ensures { result ≡ local_meaning types.now offset (option_map operand_shown value.now) }
{
    match value {
        Some(operand) => {
            let word = value_word(types, &operand.value_type);
            constant_or(&operand.constant, variable_meaning(offset, word))
        }
        None => Meaning::Other,
    }
}

/// A predeclared name.
///
/// The Go specification, "Predeclared identifiers".
pub(crate) fn universe_meaning(name: Predeclared) -> Meaning
    ensures { result ≡ universe_meaning name }
{
    match name {
        Predeclared::Println => Meaning::Println,
        Predeclared::Panic => Meaning::Panic,
        Predeclared::True => Meaning::Constant(ConstantWord::Bool(true)),
        Predeclared::False => Meaning::Constant(ConstantWord::Bool(false)),
        Predeclared::Int => Meaning::Type(Word::Int),
        Predeclared::Bool => Meaning::Type(Word::Bool),
        _ => Meaning::Other,
    }
}
