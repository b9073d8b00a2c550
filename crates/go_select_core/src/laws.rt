//! Laws of selectors.
ghost use Rattle.go_select_core.specs.Laws.{OnlyOneAnswer, SelectionIsLocal, ShortPathsSuffice, OneListing, ListingIsLocal};

/// A law, with nothing to run: a selector denotes one member by one path, or breaks one rule, and never both.
pub fn only_one_answer()
    ensures { OnlyOneAnswer }
{}

/// A law, with nothing to run: what a selector denotes is the same in two tables that have the same of all that the operand's type
/// reaches, and what is selected mentions what it reaches alone.
pub fn selection_is_local()
    ensures { SelectionIsLocal }
{}

/// A law, with nothing to run: where paths lead to a member, one does that is at most one field longer than the table has types, if each
/// embedded field is written as a type's name, as the Go specification has it. So a listing of all paths of that length finds what the
/// search by levels finds.
pub fn short_paths_suffice()
    ensures { ShortPathsSuffice }
{}

/// A law, with nothing to run: the names that selectors have behind an operand, each with what it denotes, are listed in one way alone.
pub fn one_listing()
    ensures { OneListing }
{}

/// A law, with nothing to run: these names and what they denote are the same in two tables that have the same of all that the operand's
/// type reaches.
pub fn listing_is_local()
    ensures { ListingIsLocal }
{}
