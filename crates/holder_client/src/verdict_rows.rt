//! Worked rows of the visits, each computed by the checker from the definitions.
ghost use Rattle.std.specs.Prelude.{◌≡◌, [], ◌∷◌, codes, map, replicate, true, false, Some, None};
ghost use Rattle.cry_base.specs.Requests.Request.{AddHolder, MakeFolder, WriteFile, Grant};
ghost use Rattle.cry_base.specs.Store.{root_store};
ghost use Rattle.cry_base.specs.WorkedRows.{granted, store_after};
ghost use Rattle.cry_base.specs.declared.roles.Role.TheVariants.{Owner};
ghost use Rattle.role_graph.specs.Edges.{edge};
ghost use Rattle.role_graph.specs.Rights.Who.{TheOwner, TheHolder};
ghost use Rattle.role_graph.specs.Roles.{holder_role, clear_of, sub_of, back_of, files_of, data_of, file_role};
ghost use Rattle.log_visits.specs.Asking.{folder_lines, is_beside, line_at};
ghost use Rattle.log_visits.specs.View.{FolderLine};
ghost use Rattle.log_visits.specs.Visiting.{is_folder_text, is_file_text};
ghost use Rattle.log_visits.specs.Visits.{ToKey, ToName, ToFile, ToHolder, all_visits, lower_visits, files_that, writing_visits};

/// The visits of a holder with one grant: the granted folder first, then the root from below, then names, then the file.
#[tactic(auto, unfolding(log_visits::specs::WorkedVerdicts::verdicts))]
pub fn visits_of_a_grant()
    ensures { all_visits granted (TheHolder 1) ≡ ToKey (edge 2 (holder_role 1) (clear_of 2)) ∷ ToKey (edge 3 (clear_of 2) (sub_of 2))
        ∷ ToKey (edge 4 (sub_of 2) (back_of 2)) ∷ ToKey (edge 5 (sub_of 2) (files_of 2)) ∷ ToKey (edge 8 (back_of 2) (back_of 1))
        ∷ ToKey (edge 7 (back_of 1) (data_of 1)) ∷ ToName 1 ∷ ToKey (edge 7 (back_of 2) (data_of 2)) ∷ ToName 2
        ∷ ToKey (edge 9 (files_of 2) (file_role 1)) ∷ ToFile 1 ∷ [] }
{}

/// The visits of a holder with a grant on a file alone: into its clearance, up into its folder from there, up to the root, the names, and
/// then the file from its clearance.
#[tactic(auto, unfolding(log_visits::specs::WorkedVerdicts::verdicts))]
pub fn visits_of_a_granted_file()
    ensures { all_visits (store_after granted (AddHolder ∷ Grant 2 (codes "/a/x") ∷ [])) (TheHolder 2)
        ≡ ToKey (edge 2 (holder_role 2) (clear_of 2147483649)) ∷ ToKey (edge 11 (clear_of 2147483649) (back_of 2))
        ∷ ToKey (edge 8 (back_of 2) (back_of 1)) ∷ ToKey (edge 7 (back_of 1) (data_of 1)) ∷ ToName 1
        ∷ ToKey (edge 7 (back_of 2) (data_of 2)) ∷ ToName 2
        ∷ ToKey (edge 10 (clear_of 2147483649) (file_role 1)) ∷ ToFile 1 ∷ [] }
{}

/// The owner comes into each folder by its own link, and needs none between folders; for writing the holders' keys come behind, and last
/// the clearances of files.
#[tactic(auto, unfolding(log_visits::specs::WorkedVerdicts::verdicts))]
pub fn visits_of_the_owner()
    ensures view { all_visits granted TheOwner ≡ ToKey (edge 1 Owner (clear_of 1)) ∷ ToKey (edge 3 (clear_of 1) (sub_of 1))
        ∷ ToKey (edge 1 Owner (clear_of 2)) ∷ ToKey (edge 3 (clear_of 2) (sub_of 2))
        ∷ ToKey (edge 4 (sub_of 1) (back_of 1)) ∷ ToKey (edge 5 (sub_of 1) (files_of 1)) ∷ ToKey (edge 4 (sub_of 2) (back_of 2))
        ∷ ToKey (edge 5 (sub_of 2) (files_of 2))
        ∷ ToKey (edge 7 (back_of 1) (data_of 1)) ∷ ToName 1 ∷ ToKey (edge 7 (back_of 2) (data_of 2)) ∷ ToName 2
        ∷ ToKey (edge 9 (files_of 2) (file_role 1)) ∷ ToFile 1 ∷ [] }
    ensures writing { writing_visits (store_after granted (Grant 1 (codes "/a/x") ∷ []))
        ≡ ToHolder 1 ∷ ToKey (edge 1 Owner (clear_of 2147483649)) ∷ [] }
{}

/// Folders above a grant are opened from below, deeper ones first, and nothing beside them is.
#[tactic(auto, unfolding(log_visits::specs::WorkedVerdicts::verdicts))]
pub fn visits_of_ancestors()
    ensures { all_visits (store_after root_store
        (MakeFolder (codes "/a") ∷ MakeFolder (codes "/a/b") ∷ MakeFolder (codes "/a/c") ∷ WriteFile (codes "/a/x") (1 ∷ [])
        ∷ AddHolder ∷ Grant 1 (codes "/a/b") ∷ [])) (TheHolder 1) ≡ ToKey (edge 2 (holder_role 1) (clear_of 3))
        ∷ ToKey (edge 3 (clear_of 3) (sub_of 3))
        ∷ ToKey (edge 4 (sub_of 3) (back_of 3)) ∷ ToKey (edge 5 (sub_of 3) (files_of 3))
        ∷ ToKey (edge 8 (back_of 3) (back_of 2)) ∷ ToKey (edge 8 (back_of 2) (back_of 1))
        ∷ ToKey (edge 7 (back_of 1) (data_of 1)) ∷ ToName 1 ∷ ToKey (edge 7 (back_of 2) (data_of 2)) ∷ ToName 2
        ∷ ToKey (edge 7 (back_of 3) (data_of 3)) ∷ ToName 3 ∷ [] }
{}

/// Folders below a grant are opened from above, shallower ones first, whatever their numbers.
#[tactic(auto, unfolding(log_visits::specs::WorkedVerdicts::verdicts))]
pub fn visits_below_a_grant()
    ensures { lower_visits (store_after root_store
        (MakeFolder (codes "/a") ∷ MakeFolder (codes "/a/b") ∷ MakeFolder (codes "/c") ∷ AddHolder ∷ Grant 1 (codes "/")
        ∷ [])) (TheHolder 1)
        ≡ ToKey (edge 6 (sub_of 1) (sub_of 2)) ∷ ToKey (edge 6 (sub_of 1) (sub_of 4)) ∷ ToKey (edge 6 (sub_of 2) (sub_of 3)) ∷ [] }
{}

/// To open one path, each file in its folder is visited, so that a bad one beside it is told; a word that is no path leads to
/// none.
#[tactic(auto, unfolding(log_visits::specs::WorkedVerdicts::verdicts))]
pub fn files_beside_a_path()
    ensures found { files_that (is_beside granted (TheHolder 1) (codes "/a/x")) granted ≡ 1 ∷ [] }
    ensures beside { files_that (is_beside granted (TheHolder 1) (codes "/a/none")) granted ≡ 1 ∷ [] }
    ensures elsewhere { files_that (is_beside granted (TheHolder 1) (codes "/x")) granted ≡ [] }
    ensures no_path { files_that (is_beside granted TheOwner (codes "a/x")) granted ≡ [] }
    ensures folder { line_at (codes "/a") (folder_lines granted TheOwner) ≡ Some (FolderLine (codes "/a")) }
    ensures no_folder { line_at (codes "/a/x") (folder_lines granted TheOwner) ≡ None }
{}

/// The form of texts: the root's name is empty and no other is; a file's begins with the length of its name.
#[tactic(auto, unfolding(log_visits::specs::WorkedVerdicts::verdicts))]
pub fn forms_of_texts()
    ensures root { map (is_folder_text 1) ([] ∷ codes "a" ∷ []) ≡ true ∷ false ∷ [] }
    ensures folder { map (is_folder_text 2) ([] ∷ codes "a" ∷ codes ".." ∷ codes "a/b" ∷ replicate 65 97 ∷ []) ≡ false ∷ true ∷ false
        ∷ false ∷ false ∷ [] }
    ensures file { map is_file_text ((1 ∷ 97 ∷ []) ∷ (1 ∷ 97 ∷ 0 ∷ []) ∷ (0 ∷ 97 ∷ []) ∷ (2 ∷ 97 ∷ []) ∷ (1 ∷ 47 ∷ [])
        ∷ (65 ∷ replicate 65 97) ∷ []) ≡ true ∷ true ∷ false ∷ false ∷ false ∷ false ∷ [] }
{}
