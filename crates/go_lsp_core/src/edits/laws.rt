//! Laws of edits, with nothing to run.
ghost use Rattle.go_lsp_core.specs.edits.Laws.{KeepsOrder, KeepsTheRest};

/// What no edit replaces stays, where it comes to lie.
pub fn edits_keep_the_rest()
    ensures { KeepsTheRest }
{}

/// Of two offsets that no edit replaces, the greater one comes to lie after the other.
pub fn edits_keep_order()
    ensures { KeepsOrder }
{}
