//! The edges at one role, handed out by calls that count themselves.
ghost use Rattle.std.specs.Prelude.{◌≡◌, ◌+◌, ◌++◌, ℕ, length, OnOk, OnErr};
ghost use Rattle.cry_base.specs.Store.{Store};
ghost use Rattle.folder_nodes.specs.Trees.{IsTree};
ghost use Rattle.grant_book.specs.Granted.{AreOrdered};
ghost use Rattle.role_graph.specs.Adjacent.{into, out_of};
ghost use Rattle.role_graph.specs.Edges.{unordered};
ghost use Rattle.role_graph.specs.PublicStore.{FoldersBelow};

use cry_base::{Edge, Mem, Role};
use std::alloc::Global;

/// The edges of a store, handed out by two calls, each for one role. What is generic in it has no other way to an edge, and
/// the count is its own: so no walk looks an edge up that isn't counted.
pub trait Adjacent {
    /// The store that the edges are of.
    ghost store: { Self → Store };

    /// How many steps were taken: one at each call, and one for each edge that it handed out.
    ghost steps: { Self → ℕ };

    /// Adds the edges out of the role: those of folders, grants and files first, and then those of files' clearance keys.
    /// Of each they come by kind, and then by the number of the role that they lead to.
    fn push_from(&mut self, alloc: Global, found: &mut Vec<Edge>, role: Role) -> Mem<()>
        ensures edges { OnOk result (found.new.items ≡ found.old.items ++ out_of (unordered (store self.old)) role) }
        ensures steps { OnOk result (steps self.new + length found.old.items ≡ steps self.old + length found.new.items + 1) }
        ensures fails { OnErr result (steps self.new ≡ steps self.old + 1) }
        ensures same { store self.new ≡ store self.old };

    /// Adds the edges into the role, likewise: by kind, and then by the number of the role that they lead from.
    fn push_into(&mut self, alloc: Global, found: &mut Vec<Edge>, role: Role) -> Mem<()>
        ensures edges { OnOk result (found.new.items ≡ found.old.items ++ into (unordered (store self.old)) role) }
        ensures steps { OnOk result (steps self.new + length found.old.items ≡ steps self.old + length found.new.items + 1) }
        ensures fails { OnErr result (steps self.new ≡ steps self.old + 1) }
        ensures same { store self.new ≡ store self.old };

    /// The laws of the store: its folders are a tree, none of them has a clearance number, and its grants stand in their
    /// order. So no edge stands twice.
    fn laws(&self)
        ensures tree { IsTree (store self.now) }
        ensures below { FoldersBelow (store self.now) }
        ensures ordered { AreOrdered (store self.now).grants };
}
