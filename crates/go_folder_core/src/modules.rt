//! The path of a module, as the text of a `go.mod` names it.
ghost use Rattle.std.specs.Prelude.{◌≡◌, option_map};
ghost use Rattle.go_folder_core.specs.Modules.{IsModuleWord};

/// The line of a `go.mod` that names its module.
#[derive(Clone, Copy, Debug, PartialEq, Eq)]
pub struct ModuleLine<'a> {
    /// The number of the line, from 1.
    pub line: usize,
    /// What stands there as the path of the module, be it one or not.
    pub path: &'a str,
}

// The second word of a line whose first word is `module`.
fn word_behind(line: &str) -> Option<&str>
    ensures { IsModuleWord line.now (option_map (λ w. w.now) result) }
{
    let mut words = line.split_whitespace();
    match words.next() {
        Some(first) => {
            if first == "module" {
                return words.next();
            }
            None
        }
        None => None,
    }
}

// A path without the quotation marks around it.
fn unquoted(word: &str) -> &str {
    for mark in ['"', '`'] {
        if let Some(rest) = word.strip_prefix(mark) {
            return rest.strip_suffix(mark).unwrap_or(rest);
        }
    }
    word
}

/// The first line of a text of a `go.mod` whose first word is `module` and that has a word behind it; of that word the quotation marks around it are left
/// out. `None` where there is no such line.
///
/// The Go modules reference, "go.mod files".
pub fn module_line(text: &str) -> Option<ModuleLine<'_>> {
    let mut line: usize = 0;
    for words in text.lines() {
        line = line.saturating_add(1);
        if let Some(word) = word_behind(words) {
            return Some(ModuleLine {
                line,
                path: unquoted(word),
            });
        }
    }
    None
}
