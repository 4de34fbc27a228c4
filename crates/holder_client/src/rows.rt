//! Worked rows of views, each computed by the checker from the definitions.
ghost use Rattle.std.specs.Prelude.{◌≡◌, [], ◌∷◌, codes, map, true, false};
ghost use Rattle.cry_base.specs.Requests.Request.{AddHolder, MakeFolder, WriteFile, Relocate, Remove, Rename, Grant, Revoke};
ghost use Rattle.cry_base.specs.Store.{root_store};
ghost use Rattle.cry_base.specs.Texts.{ended_lines};
ghost use Rattle.cry_base.specs.WorkedRows.{granted, store_after};
ghost use Rattle.role_graph.specs.Rights.Who.{TheOwner, TheHolder};
ghost use Rattle.log_visits.specs.WorkedViews.{moved_away};
ghost use Rattle.log_visits.specs.OwnPaths.{has_own_names};
ghost use Rattle.log_visits.specs.View.{view, spell_view};

/// A fresh store shows its root.
#[tactic(auto, unfolding(log_visits::specs::WorkedViews::views))]
pub fn fresh_store_listed()
    ensures { spell_view (view root_store TheOwner) ≡ ended_lines (codes "folder /" ∷ []) }
{}

/// A grant shows the folder, what is in it, and the names above it.
#[tactic(auto, unfolding(log_visits::specs::WorkedViews::views))]
pub fn grant()
    ensures holder { spell_view (view granted (TheHolder 1))
        ≡ ended_lines (codes "ancestor /" ∷ codes "folder /a" ∷ codes "file /a/x 00ff" ∷ []) }
    ensures owner { spell_view (view granted TheOwner)
        ≡ ended_lines (codes "folder /" ∷ codes "folder /a" ∷ codes "file /a/x 00ff" ∷ []) }
{}

/// Folders above a grant are shown by name alone, and nothing beside them is.
#[tactic(auto, unfolding(log_visits::specs::WorkedViews::views))]
pub fn ancestors_shown()
    ensures { spell_view (view (store_after root_store
        (MakeFolder (codes "/a") ∷ MakeFolder (codes "/a/b") ∷ MakeFolder (codes "/a/c") ∷ WriteFile (codes "/a/x") (1 ∷ [])
        ∷ AddHolder ∷ Grant 1 (codes "/a/b") ∷ [])) (TheHolder 1))
        ≡ ended_lines (codes "ancestor /" ∷ codes "ancestor /a" ∷ codes "folder /a/b" ∷ []) }
{}

/// Of two grants, the one that is left still allows all below it.
#[tactic(auto, unfolding(log_visits::specs::WorkedViews::views))]
pub fn two_grants_one_revoked()
    ensures { spell_view (view (store_after granted (Grant 1 (codes "/") ∷ Revoke 1 (codes "/a") ∷ [])) (TheHolder 1))
        ≡ ended_lines (codes "folder /" ∷ codes "folder /a" ∷ codes "file /a/x 00ff" ∷ []) }
{}

/// A grant on a file shows the file and the names above it, and no file beside it; so it does where the file is moved to.
#[tactic(auto, unfolding(log_visits::specs::WorkedViews::views))]
pub fn file_granted()
    ensures here { spell_view (view (store_after granted
        (WriteFile (codes "/a/y") (1 ∷ []) ∷ AddHolder ∷ Grant 2 (codes "/a/x") ∷ [])) (TheHolder 2))
        ≡ ended_lines (codes "ancestor /" ∷ codes "ancestor /a" ∷ codes "file /a/x 00ff" ∷ []) }
    ensures moved { spell_view (view (store_after granted
        (MakeFolder (codes "/p") ∷ AddHolder ∷ Grant 2 (codes "/a/x") ∷ Relocate (codes "/a/x") (codes "/p") ∷ [])) (TheHolder 2))
        ≡ ended_lines (codes "ancestor /" ∷ codes "ancestor /p" ∷ codes "file /p/x 00ff" ∷ []) }
    ensures removed { view (store_after granted (AddHolder ∷ Grant 2 (codes "/a/x") ∷ Remove (codes "/a/x") ∷ [])) (TheHolder 2) ≡ [] }
{}

/// Without a grant nothing is shown.
#[tactic(auto, unfolding(log_visits::specs::WorkedViews::views))]
pub fn revoked()
    ensures { view (store_after granted (Revoke 1 (codes "/a") ∷ [])) (TheHolder 1) ≡ [] }
{}

/// After a folder's new name the paths below it are new, for those who may see them.
#[tactic(auto, unfolding(log_visits::specs::WorkedViews::views))]
pub fn rename_after_revocation()
    ensures { spell_view (view (store_after root_store
        (MakeFolder (codes "/a") ∷ MakeFolder (codes "/a/b") ∷ AddHolder ∷ AddHolder ∷ Grant 1 (codes "/a") ∷ Grant 2 (codes "/a/b")
        ∷ Revoke 1 (codes "/a") ∷ Rename (codes "/a") (codes "z") ∷ [])) (TheHolder 2))
        ≡ ended_lines (codes "ancestor /" ∷ codes "ancestor /z" ∷ codes "folder /z/b" ∷ []) }
{}

/// What was moved out of a granted folder isn't shown any more; the owner sees it where it is, a file after its folder.
#[tactic(auto, unfolding(log_visits::specs::WorkedViews::views))]
pub fn move_away_from_a_grant()
    ensures holder { spell_view (view moved_away (TheHolder 1)) ≡ ended_lines (codes "ancestor /" ∷ codes "folder /s" ∷ []) }
    ensures owner { spell_view (view moved_away TheOwner)
        ≡ ended_lines (codes "folder /" ∷ codes "folder /p" ∷ codes "folder /p/d" ∷ codes "file /p/d/f 02" ∷ codes "folder /s" ∷ []) }
{}

/// The worked stores have names of their own, and one with two nodes of one name hasn't.
#[tactic(auto, unfolding(log_visits::specs::WorkedViews::views))]
pub fn worked_stores_have_own_names()
    ensures worked { map has_own_names (root_store ∷ granted ∷ moved_away ∷ store_after moved_away (Rename (codes "/s") (codes "t") ∷ [])
        ∷ []) ≡ true ∷ true ∷ true ∷ true ∷ [] }
    ensures twice { has_own_names (record granted { files = record { id = 1; folder = 1; name = codes "a"; bytes = [] } ∷ [] }) ≡ false }
{}
