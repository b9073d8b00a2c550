//! Texts as they may stand in one line, in a string of JSON, and in a command of GitHub.
ghost use Rattle.std.specs.Prelude.{◌<◌};

use std::alloc::AllocError;

// The hexadecimal digit of a number.
fn digit(number: u8) -> char
    requires { number < 16 }
{
    if number < 10 {
        return char::from(b'0' + number);
    }
    char::from(b'a' + (number - 10))
}

// Adds two hexadecimal digits.
fn push_digits(out: &mut String, byte: u8) -> Result<(), AllocError> {
    out.push(digit(byte / 16))?;
    out.push(digit(byte % 16))
}

// Adds a control character, as `\n` or `\x1b`.
fn push_control(out: &mut String, front: &str, control: char) -> Result<(), AllocError> {
    match control {
        '\n' => out.push_str("\\n"),
        '\t' => out.push_str("\\t"),
        '\r' => out.push_str("\\r"),
        _ => {
            out.push_str(front)?;
            push_digits(out, u8::try_from(u32::from(control)).unwrap_or(0))
        }
    }
}

/// Adds a text as it may stand in a line for a person to read: each ASCII control character is written as `\n`, `\t`, `\r` or `\x1b`.
///
/// # Errors
///
/// `AllocError` for want of memory.
pub fn push_shown(out: &mut String, text: &str) -> Result<(), AllocError> {
    for letter in text.chars() {
        if letter.is_ascii_control() {
            push_control(out, "\\x", letter)?;
        } else {
            out.push(letter)?;
        }
    }
    Ok(())
}

/// Adds a text as it stands in a string of JSON.
///
/// # Errors
///
/// `AllocError` for want of memory.
pub fn push_json(out: &mut String, text: &str) -> Result<(), AllocError> {
    for letter in text.chars() {
        match letter {
            '"' => out.push_str("\\\"")?,
            '\\' => out.push_str("\\\\")?,
            _ => {
                if letter.is_ascii_control() {
                    push_control(out, "\\u00", letter)?;
                } else {
                    out.push(letter)?;
                }
            }
        }
    }
    Ok(())
}

/// Adds a text as it stands in a command of GitHub's workflows, behind its last colon.
///
/// # Errors
///
/// `AllocError` for want of memory.
pub fn push_command(out: &mut String, text: &str) -> Result<(), AllocError> {
    for letter in text.chars() {
        match letter {
            '%' => out.push_str("%25")?,
            '\n' => out.push_str("%0A")?,
            '\r' => out.push_str("%0D")?,
            _ => out.push(letter)?,
        }
    }
    Ok(())
}
