//! What is to be changed of a graph.
ghost use Rattle.std.specs.Prelude.{◌<◌};
ghost use Rattle.std.specs.List.{All};

use mt_containers::List;

/// The targets of a node's edges, in their order.
pub type EdgeList = List<u32>;

/// The nodes that get other lists, ascending, and the pins that take the place of those before, ascending.
#[derive(Drop)]
pub struct Patch {
    pub set: List<(u32, EdgeList)>,
    pub pins: List<u32>,
}

/// A patch, and the nodes that are removed.
#[derive(Drop)]
pub struct Settled {
    pub set: List<(u32, EdgeList)>,
    pub pins: List<u32>,
    pub dead: List<u32>,
}

impl Settled {
    /// How many rows a graph needs for the nodes that are set.
    pub fn rows(&self) -> usize
        ensures above { All (λ s. s.0 < result) self.now.set }
    {
        let mut rows = 0;
        let set = self.set.as_slice();
        for one in set {
            rows = rows.max(one.0 as usize + 1);
        }
        rows
    }
}
