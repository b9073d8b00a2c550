//! The values of string literals.
ghost use Rattle.std.specs.Prelude.{◌≡◌, ◌≤◌, ◌<◌, ◌++◌, ◌↔◌, length, encode_utf8, is_some, None, IfOk, IfSome, IsTrue, OnOk};
ghost use Rattle.std.specs.Str.{IsUtf8, chars};
ghost use Rattle.go_token_core.specs.Values.{but_last, meaning_bytes, meaning_at, quoted_value, raw_bytes, raw_value, string_value_of, IsBetween, IsPlain, IsPlainBetween};

use crate::characters::characters_of;
use crate::escapes::{Meaning, escape};
use std::alloc::{AllocError, Global};

/// Adds the bytes of what a character or an escape stands for.
fn push_meaning(value: &mut Vec<u8>, meaning: Meaning) -> Result<(), AllocError>
    ensures { OnOk result (value.new.items ≡ value.old.items ++ meaning_bytes meaning) }
{
    match meaning {
        Meaning::Byte(b) => Ok(value.push(b)?),
        Meaning::Char(c) => {
            let mut buffer = [0; 4];
            value.extend_from_slice(c.encode_utf8(&mut buffer).as_bytes())
        }
    }
}

/// What stands next in an interpreted string, and its number of characters: a backslash with no
/// escape behind it stands for itself.
#[tactic(auto, unfolding(crate::specs::Values::meaning_at))]
fn next_meaning(c: char, behind: &[char]) -> (Meaning, usize)
    ensures { result ≡ meaning_at c behind.now }
{
    if c == '\\' {
        if let Some((meaning, len)) = escape(behind) {
            return (meaning, len + 1);
        }
    }
    (Meaning::Char(c), 1)
}

/// The bytes that the inside of an interpreted string stands for.
fn unquote(alloc: Global, room: usize, text: &[char]) -> Result<Vec<u8>, AllocError>
    ensures { IfOk result (λ v. v.items ≡ quoted_value text.now 0) }
{
    let mut value = Vec::with_capacity(alloc, room)?;
    let mut rest = text;
    while !rest.is_empty() {
        let (_, behind) = rest.split_at(1);
        let (meaning, len) = next_meaning(rest[0], behind);
        push_meaning(&mut value, meaning)?;
        let (_, others) = rest.split_at(len);
        rest = others;
    }
    Ok(value)
}

/// Adds a character of a raw string, unless it is a carriage return.
fn push_unless_return(value: &mut Vec<u8>, c: char) -> Result<(), AllocError>
    ensures { OnOk result (value.new.items ≡ value.old.items ++ raw_bytes c) }
{
    if c == '\r' {
        return Ok(());
    }
    push_meaning(value, Meaning::Char(c))
}

/// The bytes that the inside of a raw string stands for.
fn without_returns(alloc: Global, room: usize, text: &[char]) -> Result<Vec<u8>, AllocError>
    ensures { IfOk result (λ v. v.items ≡ raw_value text.now) }
{
    let mut value = Vec::with_capacity(alloc, room)?;
    let mut rest = text;
    while !rest.is_empty() {
        push_unless_return(&mut value, rest[0])?;
        let (_, others) = rest.split_at(1);
        rest = others;
    }
    Ok(value)
}

/// The characters but the last.
fn without_last(text: &[char]) -> &[char]
    ensures { result.now ≡ but_last text.now }
{
    if text.is_empty() {
        return text;
    }
    let (front, _) = text.split_at(text.len() - 1);
    front
}

/// The bytes that the characters of a string literal stand for. Room is made for so many at once.
fn value_of(alloc: Global, room: usize, text: &[char]) -> Result<Vec<u8>, AllocError>
    ensures { IfOk result (λ v. v.items ≡ string_value_of text.now) }
{
    if text.is_empty() {
        return Ok(Vec::new(alloc));
    }
    let (_, behind) = text.split_at(1);
    let inside = without_last(behind);
    if text[0] == '`' {
        return without_returns(alloc, room, inside);
    }
    unquote(alloc, room, inside)
}

/// What stands between two marks, where the byte `never` is not among it.
fn plain_between(spelled: &str, mark: u8, never: u8) -> Option<&str>
    requires { mark < 128 }
    ensures found { IfSome result (λ inside. IsBetween mark never inside.now spelled.now) }
    ensures utf8 { IfSome result (λ inside. IsUtf8 inside.now) }
    ensures none { result ≡ None → ¬ IsPlainBetween mark never spelled.now }
{
    let bytes = spelled.as_bytes();
    let len = bytes.len();
    if len < 2 || bytes[0] != mark || bytes[len - 1] != mark {
        return None;
    }
    let inside = &spelled[1..len - 1];
    if inside.as_bytes().contains(&never) {
        return None;
    }
    Some(inside)
}

/// What a string literal stands for, as a piece of the literal, where it is written plainly: between
/// two `"` with no backslash, or between two `` ` `` with no carriage return. It takes no memory.
///
/// The Go specification, "String literals".
#[tactic(auto, using(crate::proofs::PlainLemmas::quoted_inside, crate::proofs::PlainLemmas::raw_inside))]
pub fn plain_value(spelled: &str) -> Option<&str>
    ensures value { IfSome result (λ text. text.now ≡ string_value_of (chars spelled.now)) }
    ensures plain { IsTrue (is_some result) ↔ IsPlain spelled.now }
{
    if let Some(text) = plain_between(spelled, b'"', b'\\') {
        return Some(text);
    }
    plain_between(spelled, b'`', b'\r')
}

/// The bytes that a string literal stands for: its escapes' bytes or characters, and each other
/// character, in UTF-8. Carriage returns of a raw string drop out.
///
/// # Errors
///
/// [`AllocError`] where memory runs out.
pub fn string_value(alloc: Global, spelled: &str) -> Result<Vec<u8>, AllocError>
    ensures { IfOk result (λ v. v.items ≡ string_value_of (chars spelled.now)) }
{
    if let Some(text) = plain_value(spelled) {
        return Vec::from_slice(alloc, text.as_bytes());
    }
    let characters = characters_of(alloc, spelled)?;
    value_of(alloc, spelled.len(), &characters)
}
