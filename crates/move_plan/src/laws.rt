//! Laws of notes and changes.
ghost use Rattle.std.specs.Prelude.{◌≡◌, Bool};
ghost use Rattle.cry_base.specs.Store.{Store};
ghost use Rattle.role_graph.specs.Edges.{edges};
ghost use Rattle.move_plan.specs.Change.{change_of};
ghost use Rattle.move_plan.specs.Fitting.{public_of};
ghost use Rattle.record_format.specs.Noted.{Note};

/// The edges, and what a note changes, follow from what everyone may see.
pub fn changes_are_public()
    ensures edges_seen { (s : Store) → edges (public_of s) ≡ edges s }
    ensures changes_seen { (strict : Bool) (s : Store) (note : Note) → change_of strict (public_of s) note ≡ change_of strict s note }
{}
