//! Which way a walk goes.

/// Along the edges, or against them.
#[derive(Clone, Copy, Debug)]
pub enum Way {
    /// From an edge's start to its end.
    Along,
    /// From an edge's end to its start.
    Against,
}
