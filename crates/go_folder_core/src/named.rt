//! The folder that a word names.
ghost use Rattle.go_folder_core.specs.Named.{IsNamedFolder, or_root};
ghost use Rattle.std.specs.Prelude.{◌≡◌};

// A path that stands in front of `/...`: nothing is the root.
fn or_root(rest: &str) -> &str
    ensures { result.now ≡ or_root rest.now }
{
    if rest.is_empty() {
        return "/";
    }
    rest
}

/// The folder that a word of the command line names: `/...` at its end, which names all that lies below, is left out, and `...` alone is the folder that
/// the program runs in.
pub fn named_folder(word: &str) -> &str
    ensures { IsNamedFolder word.now result.now }
{
    if word == "..." {
        return ".";
    }
    match word.strip_suffix("/...") {
        Some(rest) => or_root(rest),
        None => word,
    }
}
