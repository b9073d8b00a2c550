//! Strings and general comments: what stands between an opening and a closing.
ghost use Rattle.std.specs.Prelude.{◌≡◌, ◌≤◌, ◌+◌, length};
ghost use Rattle.go_scan_core.specs.Enclosed.{closing, opening};
ghost use Rattle.go_scan_core.specs.mirrors.Enclosed.{CountsWithin, body, comment_item, enclosed_at, item_at, quoted_item, raw_item};

use go_token_core::escape;
use go_token_core::text_core::Rule;

/// A kind of lexeme with an opening and a closing.
#[derive(Clone, Copy)]
pub enum Enclosure {
    /// From `/*` to `*/`.
    General,
    /// From `"` to `"`.
    Quoted,
    /// From a backquote to a backquote.
    Raw,
}

/// What is wrong with what an opening begins.
#[derive(Clone, Copy)]
pub enum Flaw {
    /// A character that may stand nowhere, behind so many others.
    Forbidden(usize),
    /// A backslash with no escape behind it.
    Bad,
    /// No closing.
    Open,
}

/// What stands next behind an opening.
#[derive(Clone, Copy)]
pub enum Item {
    /// So many characters of the inside.
    Characters(usize),
    /// The closing.
    End,
    /// A character that may stand nowhere.
    Forbidden,
    /// A backslash with no escape behind it.
    Bad,
    /// No closing any more.
    Open,
}

impl Enclosure {
    /// How many characters the opening has.
    fn opening_len(self) -> usize
        ensures { result ≡ length (opening self) }
    {
        match self {
            Enclosure::General => 2,
            Enclosure::Quoted | Enclosure::Raw => 1,
        }
    }

    /// How many characters the closing has.
    fn closing_len(self) -> usize
        ensures { result ≡ length (closing self) }
    {
        match self {
            Enclosure::General => 2,
            Enclosure::Quoted | Enclosure::Raw => 1,
        }
    }
}

/// What stands next in a general comment.
fn comment_item(text: &[char]) -> Item
    ensures { result ≡ comment_item text.now }
{
    match text {
        [] => Item::Open,
        ['\0' | '\u{feff}', ..] => Item::Forbidden,
        ['*', '/', ..] => Item::End,
        _ => Item::Characters(1),
    }
}

/// What stands next in a raw string.
fn raw_item(text: &[char]) -> Item
    ensures { result ≡ raw_item text.now }
{
    match text {
        [] => Item::Open,
        ['\0' | '\u{feff}', ..] => Item::Forbidden,
        ['`', ..] => Item::End,
        _ => Item::Characters(1),
    }
}

/// What stands next in an interpreted string.
fn quoted_item(text: &[char]) -> Item
    ensures { result ≡ quoted_item text.now }
{
    match text {
        [] => Item::Open,
        ['\0' | '\u{feff}', ..] => Item::Forbidden,
        ['"', ..] => Item::End,
        ['\n', ..] => Item::Open,
        ['\\', rest @ ..] => match escape(rest) {
            Some((_, len)) => Item::Characters(len + 1),
            None => Item::Bad,
        },
        _ => Item::Characters(1),
    }
}

/// What stands next behind the opening.
#[tactic(auto, unfolding(crate::specs::mirrors::Enclosed::item_at))]
fn next_item(enclosure: Enclosure, text: &[char]) -> Item
    ensures { result ≡ item_at enclosure text.now }
{
    match enclosure {
        Enclosure::General => comment_item(text),
        Enclosure::Quoted => quoted_item(text),
        Enclosure::Raw => raw_item(text),
    }
}

/// How many characters stand behind the opening up to the end of the closing, or the first flaw.
fn body_len(enclosure: Enclosure, text: &[char]) -> Result<usize, Flaw>
    ensures value { result ≡ body enclosure text.now 0 }
    ensures within { CountsWithin result (length text.now) }
{
    let mut rest = text;
    let mut count = 0;
    while !rest.is_empty() {
        match next_item(enclosure, rest) {
            Item::Characters(len) => {
                let (_, others) = rest.split_at(len);
                rest = others;
                count += len;
            }
            Item::End => return Ok(count + enclosure.closing_len()),
            Item::Forbidden => return Err(Flaw::Forbidden(count)),
            Item::Bad => return Err(Flaw::Bad),
            Item::Open => return Err(Flaw::Open),
        }
    }
    Err(Flaw::Open)
}

/// How many characters the lexeme at the front has, which begins with the opening, or the rule that
/// it breaks and how many characters stand before the place of the fault.
#[tactic(auto, unfolding(crate::specs::mirrors::Enclosed::enclosed_at))]
pub fn enclosed_len(enclosure: Enclosure, text: &[char]) -> Result<usize, (Rule, usize)>
    requires { length (opening enclosure) ≤ length text.now }
    ensures { result ≡ enclosed_at enclosure text.now }
{
    let front = enclosure.opening_len();
    let (_, inside) = text.split_at(front);
    match body_len(enclosure, inside) {
        Ok(len) => Ok(front + len),
        Err(Flaw::Forbidden(len)) => Err((Rule::L1, front + len)),
        Err(Flaw::Bad) => Err((Rule::L3, 0)),
        Err(Flaw::Open) => Err((Rule::L2, 0)),
    }
}
