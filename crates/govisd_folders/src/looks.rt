//! How faults are written, by what is asked for and by what reads them.
ghost use Rattle.std.specs.Prelude.{◌≡◌, true};
ghost use Rattle.govisd_folders.specs.Checks.{HasColor, IsLook};

use go_folder_core::{Color, Format, Style};
use std::env;
use std::io::IsTerminal;

/// How faults are written.
#[derive(Clone, Copy)]
pub struct Look {
    /// The form.
    pub format: Format,
    /// Whether faults that follow from others are written too. As JSON they always are.
    pub all: bool,
    /// Whether a text has colours.
    pub color: bool,
    /// Whether a text shows lines of the source.
    pub source: bool,
}

/// Lines alone, without colours and the source, of the faults that follow from none.
pub const PLAIN: Look = Look {
    format: Format::Text,
    all: false,
    color: false,
    source: false,
};

// Whether a variable of the environment has some text.
fn is_set(rt: &HostRuntime, name: &str) -> bool {
    match env::var(rt, name) {
        Ok(value) => !value.as_str().is_empty(),
        Err(_) => false,
    }
}

// Whether a terminal says that it can do nothing but letters.
fn is_dumb(rt: &HostRuntime) -> bool {
    match env::var(rt, "TERM") {
        Ok(value) => value.as_str() == "dumb",
        Err(_) => false,
    }
}

// Whether a terminal reads what is written.
fn is_read(rt: &HostRuntime) -> bool {
    rt.stdout().is_terminal() && !is_dumb(rt)
}

// Whether there are colours: where that is asked for, and else where a terminal reads them, unless `NO_COLOR` is set.
fn has_color(rt: &HostRuntime, color: Color) -> bool
    ensures { HasColor color result }
{
    match color {
        Color::Always => true,
        Color::Never => false,
        Color::Auto => is_read(rt) && !is_set(rt, "NO_COLOR"),
    }
}

// Whether lines of the source are shown: where that is asked for, and where a terminal reads them.
fn shows_source(rt: &HostRuntime, is_asked: bool) -> bool
    ensures { is_asked ≡ true → result ≡ true }
{
    is_asked || is_read(rt)
}

/// How faults are written on standard output, where this is asked for: with colours where a terminal reads them, unless `NO_COLOR` is set, and with lines
/// of the source where a terminal does.
pub(crate) fn look_of(rt: &HostRuntime, style: Style) -> Look
    ensures { IsLook style result }
{
    let color = has_color(rt, style.color);
    let source = shows_source(rt, style.source);
    Look {
        format: style.format,
        all: style.all,
        color,
        source,
    }
}
