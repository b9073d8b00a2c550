//! Laws of what is reported, with nothing to run.
ghost use Rattle.go_report_core.specs.Laws.{SettledFaultsAreOne};

/// A law, with nothing to run: faults settle to one list, whatever the order of outcomes and faults, and however often one stands
/// there.
pub fn settled_faults_are_one<D, P>()
    ensures { SettledFaultsAreOne D P }
{}
