//! What types and values are over.
ghost use Rattle.std.specs.Prelude.{◌≡◌};
ghost use Rattle.go_declared_core.specs.Faces.{value_type_shown};
ghost use Rattle.go_emit_core.specs.meaning.Words.{basic_word, form_word, sign_gives, some_word, value_word, word_in};

use go_code_core::fragments::{Gives, over};
use go_declared_core::handle_core::{SignatureRef, TypeRef};
use go_expr_core::operand_core::{TypeForm, ValueType};
use go_object_core::instructions::Word;
use go_table_core::TypeTable;
use go_term_core::{Basic, TypeTerm};

fn basic_word(basic: Basic) -> Option<Word>
    ensures { result ≡ basic_word basic }
{
    match basic {
        Basic::Int => Some(Word::Int),
        Basic::Bool => Some(Word::Bool),
        Basic::Text => None,
    }
}

fn form_word(form: &TypeForm<TypeRef<'_>>) -> Option<Word>
    ensures { result ≡ form_word form.now }
{
    match form {
        TypeForm::Basic(basic) => basic_word(*basic),
        TypeForm::Nothing => None,
        TypeForm::Pointer(_) => None,
        TypeForm::Struct => None,
        TypeForm::Interface => None,
    }
}

// What a type is over.
fn word_in(types: &TypeTable, t: &TypeRef<'_>) -> Option<Word>
    ensures { result ≡ word_in types.now t.now }
{
    form_word(&t.form(types))
}

/// What a type is over: none where it is no type, or one over something else.
pub(crate) fn some_word(types: &TypeTable, t: &Option<TypeRef<'_>>) -> Option<Word>
    ensures { result ≡ some_word types.now t.now }
{
    match t {
        Some(t) => word_in(types, t),
        None => None,
    }
}

/// What a value that is held is over: an untyped one counts by its default type.
pub(crate) fn value_word(types: &TypeTable, value_type: &ValueType<TypeTerm>) -> Option<Word>
    ensures { result ≡ value_word types.now (value_type_shown value_type.now) }
{
    match value_type {
        ValueType::Typed(term) => word_in(types, &TypeRef::of(term)),
        ValueType::UntypedInt => Some(Word::Int),
        ValueType::UntypedBool => Some(Word::Bool),
        ValueType::UntypedText => None,
        ValueType::Nil => None,
    }
}

/// What a call gives of something with a signature, over the types of a table.
///
/// The Go specification, "Function types", "Underlying types".
pub(crate) fn sign_gives(types: &TypeTable, signature: &SignatureRef<'_>) -> Gives
    ensures { result ≡ sign_gives types.now signature.now }
{
    match signature.result_count(types) {
        0 => Gives::Nothing,
        1 => over(some_word(types, &signature.result_at(types, 0))),
        _ => Gives::Other,
    }
}
