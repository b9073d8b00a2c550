//! Where a daemon may be told to listen.
ghost use Rattle.std.specs.Prelude.{◌≡◌, IfOk, option_map, string_bytes};
ghost use Rattle.govisd_words.specs.Addresses.{bad_address_text as text_of_bad_address, behind, bracketed_place, in_ports, parted, place_in, place_with, plain_place, port_of, told_behind};

use crate::words::number_of;
use std::alloc::{AllocError, Global};

/// Where an address is.
#[derive(Clone, Copy, Debug, PartialEq, Eq)]
pub enum Place {
    /// Each address of the machine, at this port.
    Everywhere(u16),
    /// A number or the name of a host, with a port, as it is told.
    Told,
}

// A port, where a number is one.
fn in_ports(number: u64) -> Option<u16>
    ensures { result ≡ in_ports number }
{
    if number > 65_535 {
        return None;
    }
    Some(number as u16)
}

// The port that a word writes.
fn port_of(word: &str) -> Option<u16>
    ensures { result ≡ port_of word.now }
{
    match number_of(word) {
        Some(number) => in_ports(number),
        None => None,
    }
}

// What stands behind a bracket.
fn behind_bracket(text: &str) -> Option<&str>
    ensures { option_map (λ rest. rest.now) result ≡ behind 91 text.now }
{
    text.strip_prefix('[')
}

// What stands behind a colon.
fn behind_colon(text: &str) -> Option<&str>
    ensures { option_map (λ rest. rest.now) result ≡ behind 58 text.now }
{
    text.strip_prefix(':')
}

// The parts of a text before and behind its first colon.
fn parted_by_colon(text: &str) -> Option<(&str, &str)>
    ensures { option_map (λ parts. (parts.0.now, parts.1.now)) result ≡ parted 58 text.now }
{
    text.split_once(':')
}

// The parts of a text before and behind its first closing bracket.
fn parted_by_bracket(text: &str) -> Option<(&str, &str)>
    ensures { option_map (λ parts. (parts.0.now, parts.1.now)) result ≡ parted 93 text.now }
{
    text.split_once(']')
}

// The place of a host, which is empty where a port stands alone.
fn place_with(host: &str, port: &str) -> Option<Place>
    ensures { result ≡ place_with (host.now, port.now) }
{
    match port_of(port) {
        Some(port) => {
            if host.is_empty() {
                Some(Place::Everywhere(port))
            } else {
                Some(Place::Told)
            }
        }
        None => None,
    }
}

// The place of a number in brackets, by what stands behind them.
fn told_behind(rest: &str) -> Option<Place>
    ensures { result ≡ told_behind rest.now }
{
    match behind_colon(rest) {
        Some(port) => match port_of(port) {
            Some(_) => Some(Place::Told),
            None => None,
        },
        None => None,
    }
}

// The place that a text without its first bracket tells.
fn bracketed_place(text: &str) -> Option<Place>
    ensures { result ≡ bracketed_place text.now }
{
    match parted_by_bracket(text) {
        Some((_, rest)) => told_behind(rest),
        None => None,
    }
}

// The place that a text without brackets tells.
fn plain_place(text: &str) -> Option<Place>
    ensures { result ≡ plain_place text.now }
{
    match parted_by_colon(text) {
        Some((host, port)) => place_with(host, port),
        None => None,
    }
}

/// The place that an address is of, or nothing where it is none: `:7000` is every address of the machine, `127.0.0.1:7000`, `[::1]:7000` and
/// `localhost:7000` are told. A port is a number below 2^16. Whether there is such a host is not asked.
pub fn place_of(address: &str) -> Option<Place>
    ensures { result ≡ place_in address.now }
{
    match behind_bracket(address) {
        Some(rest) => bracketed_place(rest),
        None => plain_place(address),
    }
}

/// That a text is no address, and that the command line is refused.
///
/// # Errors
///
/// `AllocError` for want of memory.
pub fn bad_address_text(alloc: Global, address: &str) -> Result<String, AllocError>
    ensures { IfOk result (λ text. string_bytes text ≡ text_of_bad_address address.now) }
{
    let mut text = String::new(alloc);
    text.push_str("govisd: ")?;
    text.push_str(address)?;
    text.push_str(
        " is no address with a port, as 127.0.0.1:7000 or :7000\ngovisd: the command line is refused\n",
    )?;
    Ok(text)
}
