//! Worked rows of secrets, each computed by the checker from the definitions.
ghost use Rattle.std.specs.Prelude.{◌≡◌, [], ◌∷◌, ◌++◌, codes, false, map, true};
ghost use Rattle.cry_base.specs.Requests.Request.{Grant, MakeFolder, Relocate};
ghost use Rattle.closure_laws.specs.Gains.{gains_from};
ghost use Rattle.closure_laws.specs.Secrecy.{keeps_secret};
ghost use Rattle.closure_laws.specs.WorkedHistories.{departing_lazily};
ghost use Rattle.public_fold.specs.Journal.{nothing, stand_after};
ghost use Rattle.public_fold.specs.WorkedSteps.{departing_strictly, does, granting, moving_strictly, revoking, writing_again};
ghost use Rattle.public_fold.specs.WorkedSteps.{granting_file, keeping_file, revoking_file};
ghost use Rattle.role_graph.specs.Roles.{clear_of};
ghost use Rattle.secrecy_laws.specs.Revocation.{brings_role, derived_unseen, gain_opens};
ghost use Rattle.secrecy_laws.specs.WorkedSecrets.{file_leaked, file_written, other_granted, the_contents};
ghost use Rattle.secrecy_laws.specs.WorkedSecrets.{the_grant, the_leak};

/// A grant opens what was written in its folder before: the root's name, the folder's and the file. A revocation adds nothing to it,
/// and what is written after it is opened to the next holder alone, by a grant on the root.
#[tactic(auto, unfolding(crate::specs::WorkedSecrets::secrets))]
pub fn a_grant_opens_what_was_written_before()
    ensures granted { map (λ c. c.piece.name) (derived_unseen granting 1) ≡ [] ∷ codes "a" ∷ codes "x" ∷ [] }
    ensures revoked { map (λ c. c.piece.name) (derived_unseen revoking 1) ≡ [] ∷ codes "a" ∷ codes "x" ∷ [] }
    ensures written { map (λ c. c.piece.name) (derived_unseen writing_again 1) ≡ [] ∷ codes "a" ∷ codes "x" ∷ [] }
    ensures new_holder { map (λ c. c.piece.name) (derived_unseen writing_again 2) ≡ [] ∷ codes "a" ∷ codes "x" ∷ codes "x" ∷ [] }
    ensures stranger { derived_unseen granting 2 ≡ [] }
{}

/// So does a grant on the file itself, and a revocation adds nothing to it either.
#[tactic(auto, unfolding(crate::specs::WorkedSecrets::secrets))]
pub fn a_grant_on_a_file_opens_what_was_written_before()
    ensures granted { map (λ c. c.piece.name) (derived_unseen granting_file 2) ≡ [] ∷ codes "a" ∷ codes "x" ∷ [] }
    ensures revoked { map (λ c. c.piece.name) (derived_unseen revoking_file 2) ≡ [] ∷ codes "a" ∷ codes "x" ∷ [] }
    ensures of_the_folder { map (λ c. c.piece.name) (derived_unseen keeping_file 1) ≡ [] ∷ codes "a" ∷ codes "x" ∷ [] }
    ensures kept { map (λ c. c.piece.name) (derived_unseen keeping_file 2) ≡ [] ∷ codes "a" ∷ codes "x" ∷ [] }
{}

/// So does a move into what is granted.
#[tactic(auto, unfolding(crate::specs::WorkedSecrets::secrets))]
pub fn a_move_opens_what_was_written_before()
    ensures { map (λ c. c.piece.name)
        (derived_unseen (granting ++ (does 5 (MakeFolder (codes "/b")) ∷ does 0 (Relocate (codes "/b") (codes "/a")) ∷ [])) 1)
        ≡ [] ∷ codes "a" ∷ codes "x" ∷ codes "b" ∷ [] }
{}

/// A gain of another folder explains no leak. Behind a grant on the one folder a holder is led to what was written before in the other,
/// by a link that no owner publishes. The grant is a gain for the holder, and the only one, so the first sentence says nothing. It brings
/// the granted folder's role, which leads to what was written by the whole history; but not by that up to the grant. So no gain opens it.
#[tactic(auto, unfolding(crate::specs::WorkedSecrets::secrets))]
pub fn gain_of_another_folder_explains_no_leak()
    ensures before { map (λ c. c.piece.name) (derived_unseen other_granted 1) ≡ [] ∷ codes "b" ∷ [] }
    ensures after { map (λ c. c.piece.name) (derived_unseen file_leaked 1) ≡ [] ∷ codes "a" ∷ codes "b" ∷ [] ∷ codes "x" ∷ [] }
    ensures gains { gains_from (stand_after nothing file_written) (the_grant ∷ the_leak ∷ []) 1 ≡ true ∷ false ∷ [] }
    ensures first_sentence { keeps_secret file_leaked 1 ≡ true }
    ensures by_the_whole { map (λ c. brings_role file_written file_leaked 1 c.key_serial (clear_of 3)) the_contents ≡ true ∷ [] }
    ensures by_the_grant { map (λ c. brings_role file_written other_granted 1 c.key_serial (clear_of 3)) the_contents ≡ false ∷ [] }
    ensures opened_by_none { map (gain_opens file_written (the_grant ∷ the_leak ∷ []) 1) the_contents ≡ false ∷ [] }
{}

/// A grant on the folder itself does open it, and so does one on the root.
#[tactic(auto, unfolding(crate::specs::WorkedSecrets::secrets))]
pub fn grants_open_by_what_was_published_by_then()
    ensures own { map (gain_opens file_written (does 0 (Grant 1 (codes "/a")) ∷ []) 1) the_contents ≡ true ∷ [] }
    ensures root { map (gain_opens file_written (does 0 (Grant 1 (codes "/")) ∷ []) 1) the_contents ≡ true ∷ [] }
{}

/// Whoever is granted a folder derives what left it before in a store of version 1; in one of version 2 not so: the file was never shown.
/// Nor is what a holder was shown taken away by a strict move.
#[tactic(auto, unfolding(crate::specs::WorkedSecrets::secrets))]
pub fn departures_are_closed_in_version_two()
    ensures lazy { map (λ c. c.piece.name) (derived_unseen departing_lazily 1) ≡ [] ∷ codes "a" ∷ codes "x" ∷ [] }
    ensures strict { map (λ c. c.piece.name) (derived_unseen departing_strictly 1) ≡ [] ∷ codes "a" ∷ [] }
    ensures moved { map (λ c. c.piece.name) (derived_unseen moving_strictly 1) ≡ [] ∷ codes "s" ∷ codes "d" ∷ codes "f" ∷ [] }
{}
