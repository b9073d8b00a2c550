//! Laws of reaching and of cycles.
ghost use Rattle.go_digraph_core.specs.cycle.Laws.{ReachIsReflexive, ReachIsTransitive, EdgeReachesItsEnd, ReachStaysInRange, CycleReachesBothEnds, CycleIsAWalk, ClosedWalkIsOnCycles, MoreEdgesReachMore, FallingMeansNoCycle};

/// Each node reaches itself.
pub fn reach_is_reflexive()
    ensures { ReachIsReflexive }
{}

/// What is reached from what a node reaches, the node reaches.
pub fn reach_is_transitive()
    ensures { ReachIsTransitive }
{}

/// The start of an edge reaches its end.
pub fn edge_reaches_its_end()
    ensures { EdgeReachesItsEnd }
{}

/// The nodes that a node below the count reaches are below it.
pub fn reach_stays_in_range()
    ensures { ReachStaysInRange }
{}

/// An edge lies on a cycle exactly where its ends reach one another.
pub fn cycle_reaches_both_ends()
    ensures { CycleReachesBothEnds }
{}

/// An edge lies on a cycle exactly where a list of edges begins with it and leads back to its start.
pub fn cycle_is_a_walk()
    ensures { CycleIsAWalk }
{}

/// Each edge of a list that leads from a node back to it lies on a cycle.
pub fn closed_walk_is_on_cycles()
    ensures { ClosedWalkIsOnCycles }
{}

/// What is reached along some edges is reached along more, and what lies on a cycle of them lies on one of more.
pub fn more_edges_reach_more()
    ensures { MoreEdgesReachMore }
{}

/// Where numbers of the nodes fall along each edge, no edge lies on a cycle.
pub fn falling_means_no_cycle()
    ensures { FallingMeansNoCycle }
{}
