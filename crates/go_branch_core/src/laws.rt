//! Laws of the check on branches, with nothing to run.
ghost use Rattle.go_branch_core.specs.Laws.{BranchesGiveOne};

/// Two checks of one function that keep the contract of [`check_body`](go_body_core::check_body), as that one and
/// [`check_body_par`](crate::check_body_par) do, answer the same uses, faults and locals, in the same order: however the body is taken apart, what comes of
/// it is what one thread gives.
pub fn branches_give_one()
    ensures { BranchesGiveOne }
{}
