//! Colours of a terminal.

use govisd_disk::push;
use std::alloc::AllocError;

/// For the place of a fault.
pub(crate) const BOLD: &str = "\u{1b}[1m";

/// For the number of a rule, and for what is marked.
pub(crate) const RED: &str = "\u{1b}[1;31m";

/// For what helps.
pub(crate) const GREEN: &str = "\u{1b}[32m";

/// For what is said beside.
pub(crate) const BLUE: &str = "\u{1b}[34m";

/// What comes next has a colour, where there are colours.
pub(crate) fn paint(out: &mut String, has_color: bool, color: &str) -> Result<(), AllocError> {
    if has_color {
        return push(out, color);
    }
    Ok(())
}

/// What comes next has no colour.
pub(crate) fn unpaint(out: &mut String, has_color: bool) -> Result<(), AllocError> {
    paint(out, has_color, "\u{1b}[0m")
}
