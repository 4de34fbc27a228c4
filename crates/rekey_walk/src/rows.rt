//! Worked rows of marks and plans, each computed by the checker from the definitions.
ghost use Rattle.std.specs.Prelude.{◌≡◌, [], ◌∷◌};
ghost use Rattle.cry_base.specs.WorkedRows.{granted};
ghost use Rattle.role_graph.specs.Edges.{edges, file_edge, grant_edge};
ghost use Rattle.role_graph.specs.Roles.{clear_of, sub_of, back_of, files_of, data_of, file_role};
ghost use Rattle.rekey_walk.specs.Dirty.{mark, plan};
ghost use Rattle.rekey_walk.specs.Strict.{strict_roles};

/// Taking a grant on a folder back marks all that it led to, up to the root's name and down to the file.
#[tactic(auto, unfolding(crate::specs::WorkedMarks::marks))]
pub fn marks_of_a_revocation()
    ensures { mark [] (edges granted) (clear_of 2)
        ≡ clear_of 2 ∷ sub_of 2 ∷ back_of 1 ∷ back_of 2 ∷ files_of 2 ∷ data_of 1 ∷ data_of 2 ∷ file_role 1 ∷ [] }
{}

/// A file written under those marks renews the ways from the folder down to it, and nothing beside them.
#[tactic(auto, unfolding(crate::specs::WorkedMarks::marks))]
pub fn plan_of_a_write()
    ensures { plan (sub_of 2 ∷ back_of 1 ∷ back_of 2 ∷ files_of 2 ∷ data_of 1 ∷ data_of 2 ∷ file_role 1 ∷ [])
        (edges granted) (file_role 1 ∷ []) ≡ sub_of 2 ∷ files_of 2 ∷ file_role 1 ∷ [] }
{}

/// The strict roles of a file that leaves its folder are those that led through the folder's files to it; a revocation has none, since
/// its edge begins at a holder.
#[tactic(auto, unfolding(crate::specs::WorkedMarks::marks))]
pub fn strict_roles_of_a_departure()
    ensures file { strict_roles (edges granted) (file_edge 2 1 ∷ []) (file_role 1 ∷ [])
        ≡ clear_of 1 ∷ clear_of 2 ∷ sub_of 1 ∷ sub_of 2 ∷ files_of 2 ∷ [] }
    ensures revocation { strict_roles (edges granted) (grant_edge 1 2 ∷ []) [] ≡ [] }
{}
