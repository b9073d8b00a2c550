//! What is done with a node.
ghost use Rattle.std.specs.Prelude.{◌≡◌};
ghost use Rattle.go_digraph_core.specs.ready_queue.Turns.{is_waiting};

/// What is done with a node of a graph.
#[derive(Clone, Copy)]
pub enum Mark {
    /// There is nothing to do.
    Absent,
    /// It is not taken yet.
    Waiting,
    /// It was taken, and is not finished.
    Taken,
    /// It is finished.
    Finished,
}

impl Mark {
    /// Whether it is not taken yet.
    pub fn is_waiting(self) -> bool
        ensures { result ≡ is_waiting self }
    {
        matches!(self, Mark::Waiting)
    }
}
