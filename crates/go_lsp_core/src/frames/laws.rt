//! Laws of messages.
ghost use Rattle.go_lsp_core.specs.frames.Laws.{ComesBack, ComesFirst, OneMessage};

/// Bytes begin with one message alone.
pub fn one_message()
    ensures { OneMessage }
{}

/// Whatever comes after a message makes no difference to it.
pub fn comes_first()
    ensures { ComesFirst }
{}

/// What goes out for a message comes in as the message, unless it is too long.
pub fn comes_back()
    ensures { ComesBack }
{}
