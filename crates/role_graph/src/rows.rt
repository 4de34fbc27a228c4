//! Worked rows of the graph of roles, each computed by the checker from the definitions.
ghost use Rattle.std.specs.Prelude.{◌≡◌, [], ◌∷◌, true, false, map};
ghost use Rattle.cry_base.specs.WorkedRows.{granted};
ghost use Rattle.cry_base.specs.Store.{file_node, folder_node};
ghost use Rattle.role_graph.specs.Edges.{edges};
ghost use Rattle.role_graph.specs.Rights.{allowed, named, shown};
ghost use Rattle.role_graph.specs.Rights.Who.{TheHolder};
ghost use Rattle.role_graph.specs.WorkedGraph.{file_granted};

/// Of a fresh store with one folder, one file and a grant, the kinds of the edges in their order.
#[tactic(auto, unfolding(crate::specs::WorkedGraph::graph))]
pub fn edges_of_a_grant()
    ensures { map (λ e. e.kind) (edges granted) ≡ 1 ∷ 1 ∷ 2 ∷ 3 ∷ 3 ∷ 4 ∷ 4 ∷ 5 ∷ 5 ∷ 6 ∷ 7 ∷ 7 ∷ 8 ∷ 9 ∷ [] }
{}

/// A grant allows the folder, names the folders above it, and shows the file in it.
#[tactic(auto, unfolding(crate::specs::WorkedGraph::graph))]
pub fn rights_of_a_grant()
    ensures allowed_folders { map (λ f. allowed granted 1 f) (1 ∷ 2 ∷ []) ≡ false ∷ true ∷ [] }
    ensures named_folders { map (λ f. named granted 1 f) (1 ∷ 2 ∷ 3 ∷ []) ≡ true ∷ true ∷ false ∷ [] }
    ensures shown_nodes { map (shown granted (TheHolder 1)) (folder_node 1 ∷ file_node 1 ∷ file_node 2 ∷ []) ≡ true ∷ true ∷ false ∷ [] }
{}

/// Of a fresh store with one folder, one file and a grant on the file, the kinds of the edges in their order.
#[tactic(auto, unfolding(crate::specs::WorkedGraph::graph))]
pub fn edges_of_a_grant_on_a_file()
    ensures { map (λ e. e.kind) (edges file_granted) ≡ 1 ∷ 1 ∷ 1 ∷ 2 ∷ 3 ∷ 3 ∷ 4 ∷ 4 ∷ 5 ∷ 5 ∷ 6 ∷ 7 ∷ 7 ∷ 8 ∷ 9 ∷ 10 ∷ 11 ∷ [] }
{}

/// A grant on a file shows the file and names the folders above, and allows none of these.
#[tactic(auto, unfolding(crate::specs::WorkedGraph::graph))]
pub fn rights_of_a_grant_on_a_file()
    ensures allowed_folders { map (λ f. allowed file_granted 1 f) (1 ∷ 2 ∷ []) ≡ false ∷ false ∷ [] }
    ensures named_folders { map (λ f. named file_granted 1 f) (1 ∷ 2 ∷ 3 ∷ []) ≡ true ∷ true ∷ false ∷ [] }
    ensures shown_nodes { map (shown file_granted (TheHolder 1)) (folder_node 2 ∷ file_node 1 ∷ file_node 2 ∷ [])
        ≡ true ∷ true ∷ false ∷ [] }
{}
