//! What threads may take and see: halls. The lemmas are in `proofs/Crossing`, which what gives a hall to threads cites.
ghost use Rattle.govisd_service.specs.Threads.{HallsCross};

use go_hall::hall_core::Named;

/// Halls, under any names of a ledger and of a book of stamps, may go to a thread and be seen by several.
pub fn halls_cross<L: Named>()
    ensures { HallsCross L.row (record { all = L.all }) (record { name = L.name; parts = L.parts }) (record { book = L.book }) }
{}
