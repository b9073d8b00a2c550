//! Laws of chains.
ghost use Rattle.go_digraph_core.specs.chain.Laws.{OneEnd, EndlessLeadsBack, EndsAreCounted};

/// A law, with nothing to run: a chain has one end at most.
pub fn one_end()
    ensures { OneEnd }
{}

/// A law, with nothing to run: a number whose chain has no end leads to a number that leads back to itself.
pub fn endless_leads_back()
    ensures { EndlessLeadsBack }
{}

/// A law, with nothing to run: a chain ends after as many steps at most as there are numbers, or it has no end.
pub fn ends_are_counted()
    ensures { EndsAreCounted }
{}
