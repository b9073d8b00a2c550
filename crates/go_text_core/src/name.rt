//! The spelling of a name.
ghost use Rattle.std.specs.Prelude.{◌≡◌, ◌≤◌, ◌<◌, length, take, IfOk, OnErr};
ghost use Rattle.std.specs.Str.{IsUtf8};
ghost use Rattle.go_text_core.specs.Names.{most_without_memory};
ghost use Rattle.go_text_core.specs.declared.name.TheConstants.{SHORT};

use std::alloc::{AllocError, Global};
use std::marker::Model;
use std::str::from_utf8_unchecked;

/// The greatest number of bytes of a name that takes no memory of its own.
const SHORT: usize = 14;

/// Where the bytes of a name are: beside their number where they are few, and otherwise in a text of their own.
#[derive(Drop)]
enum Form {
    Short(u8, [u8; SHORT]),
    Long(Box<String>),
}

/// How a name is spelled. Contracts see it as its bytes. It is 16 bytes large, since trees keep many names, and
/// takes no memory beside where it has at most 14 bytes, as most names have.
pub struct Name {
    form: Form,
}

impl Drop for Name {
    fn drop(self) {
        let Name { form: _ } = self;
    }
}

const _: () = prove!(size_of::<Name>() == 16);

impl Model for Name {
    ghost use Rattle.std.specs.Prelude.{List, ℕ};

    ghost Value = { List ℕ };

    ghost use Rattle.go_text_core.specs.Names.{bytes_of, HoldsText};

    ghost view = { λ n. bytes_of n.form };

    ghost invariant = { λ n. HoldsText n.form };
}

/// The bytes of a text of at most 14 bytes, with zeros behind them.
fn short_bytes(text: &str) -> [u8; SHORT]
    requires { length text.now ≤ SHORT }
    ensures { take (length text.now) result ≡ text.now }
{
    let mut bytes = [0; SHORT];
    bytes[..text.len()].copy_from_slice(text.as_bytes());
    bytes
}

/// The text of these bytes.
fn text_of(len: u8, bytes: &[u8; SHORT]) -> &str
    requires range { len ≤ SHORT }
    requires utf8 { IsUtf8 (take len bytes.now) }
    ensures { result.now ≡ take len bytes.now }
{
    unsafe { from_utf8_unchecked(&bytes[..len as usize]) }
}

impl Name {
    /// The name that is spelled as a piece of a text. Takes memory for a piece of more than 14 bytes alone.
    ///
    /// # Errors
    ///
    /// An `AllocError` where memory is wanting, as it never is for a piece of at most 14 bytes.
    pub fn from_text(alloc: Global, spelled: &str) -> Result<Name, AllocError>
        ensures spelled { IfOk result (λ n. n ≡ spelled.now) }
        ensures memory { OnErr result (most_without_memory < length spelled.now) }
    {
        let form = if spelled.len() <= SHORT {
            Form::Short(spelled.len() as u8, short_bytes(spelled))
        } else {
            Form::Long(Box::new(alloc, String::from_str(alloc, spelled)?)?)
        };
        Ok(Name { form })
    }

    /// The spelling.
    pub fn as_str(&self) -> &str
        ensures { result.now ≡ self.now }
    {
        match &self.form {
            Form::Short(len, bytes) => text_of(*len, bytes),
            Form::Long(text) => text.as_str(),
        }
    }

    /// A second name that is spelled alike.
    ///
    /// # Errors
    ///
    /// An `AllocError` where memory is wanting, as it never is for a name of at most 14 bytes.
    pub fn copy(&self, alloc: Global) -> Result<Name, AllocError>
        ensures same { IfOk result (λ n. n ≡ self.now) }
        ensures memory { OnErr result (most_without_memory < length self.now) }
    {
        Name::from_text(alloc, self.as_str())
    }
}
