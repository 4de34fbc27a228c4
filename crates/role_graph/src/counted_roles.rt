//! The edges of a shape and grants, looked up by counted calls alone.
ghost use Rattle.std.specs.Prelude.{◌≡◌, ◌+◌};
ghost use Rattle.role_graph.specs.PublicStore.{FoldersBelow, public_store};

use crate::{Adjacent, StoreRoles};
use cry_base::{Edge, Mem, Role, Steps};
use folder_nodes::Shape;
use grant_book::Grants;
use std::alloc::Global;
use std::marker::Model;

/// The roles of a shape and grants, with a count of what was looked up. It takes no memory.
#[derive(Drop)]
pub struct CountedRoles<'a> {
    roles: StoreRoles<'a>,
    steps: Steps,
}

impl<'a> Model for CountedRoles<'a> {
    ghost use Rattle.role_graph.specs.LookedUp.{LookedUp};
    ghost use Rattle.role_graph.specs.PublicStore.{FoldersBelow, public_store};

    ghost Value = { LookedUp };

    ghost view = { λ r. record {
      store = public_store r.roles.shape.now.tree r.roles.grants.now.pairs;
      steps = r.steps;
    } };

    ghost invariant = { λ r. FoldersBelow r.roles.shape.now.tree };
}

impl<'a> CountedRoles<'a> {
    /// The roles of these, counted on from a count. None of the folders may have a clearance number.
    pub fn new(shape: &'a Shape, grants: &'a Grants, steps: Steps) -> Self
        requires { FoldersBelow shape.now.tree }
        ensures { result ≡ record { store = public_store shape.now.tree grants.now.pairs; steps = steps } }
    {
        CountedRoles {
            roles: StoreRoles { shape, grants },
            steps,
        }
    }

    /// The count.
    pub fn into_steps(self) -> Steps
        ensures { result ≡ self.entry.steps }
    {
        self.steps
    }
}

impl<'a> Adjacent for CountedRoles<'a> {
    ghost store = { λ r. r.store };

    ghost steps = { λ r. r.steps };

    fn push_from(&mut self, alloc: Global, found: &mut Vec<Edge>, role: Role) -> Mem<()> {
        let before = found.len();
        self.steps.tick();
        self.roles.add_from(alloc, found, role)?;
        count(found.len() - before, &mut self.steps);
        Ok(())
    }

    fn push_into(&mut self, alloc: Global, found: &mut Vec<Edge>, role: Role) -> Mem<()> {
        let before = found.len();
        self.steps.tick();
        self.roles.add_into(alloc, found, role)?;
        count(found.len() - before, &mut self.steps);
        Ok(())
    }

    fn laws(&self) {
        self.roles.shape.is_tree();
        let _grants = self.roles.grants.pairs();
    }
}

/// Counts a step for each of so many edges.
fn count(edges: usize, steps: &mut Steps)
    ensures { steps.new ≡ steps.old + edges }
{
    for _edge in 0..edges {
        steps.tick();
    }
}
