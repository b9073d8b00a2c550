//! Laws of positions.
ghost use Rattle.go_lsp_core.specs.positions.Laws.{BoundariesLeadBack, PositionsGrow, PositionsLeadToBoundaries};

/// The position of an offset leads back to it, unless the offset lies within a character or between `\r` and `\n`.
pub fn boundaries_lead_back()
    ensures { BoundariesLeadBack }
{}

/// The offset of a position, whatever position it is, lies neither within a character nor between `\r` and `\n`.
pub fn positions_lead_to_boundaries()
    ensures { PositionsLeadToBoundaries }
{}

/// Of two offsets the greater one has no earlier position.
pub fn positions_grow()
    ensures { PositionsGrow }
{}
