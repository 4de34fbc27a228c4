//! Worked rows of journals, each computed by the checker from the definitions.
ghost use Rattle.std.specs.Prelude.{◌≡◌, [], ◌∷◌, map, length, true, replicate};
ghost use Rattle.role_graph.specs.Edges.{grant_edge};
ghost use Rattle.role_graph.specs.Roles.{clear_of, sub_of, back_of, files_of, data_of, file_role};
ghost use Rattle.public_fold.specs.Journal.{nothing};
ghost use Rattle.public_fold.specs.Lengths.{end_of};
ghost use Rattle.public_fold.specs.StandFits.{all_fit};
ghost use Rattle.public_fold.specs.Valid.{IsValid};
ghost use Rattle.public_fold.specs.WorkedSteps.{edges_agree, fresh, renaming, rewriting, granting, revoking, writing_again};
ghost use Rattle.public_fold.specs.WorkedSteps.{moving_away, making_again, dropping, fresh_strict, moving_strictly, departing_strictly};
ghost use Rattle.public_fold.specs.WorkedSteps.{granting_file, revoking_file, keeping_file, moving_file};
ghost use Rattle.public_fold.specs.WorkedSteps.{renaming_again, upgrading, departing_after_it, step_at, renewals_at, links_at, contents_at};

/// A fresh store has 819 bytes. Its keys, links and content are numbered in one row.
#[tactic(auto, unfolding(crate::specs::WorkedSteps::journals))]
pub fn fresh_store()
    ensures length { end_of fresh ≡ 819 }
    ensures keys { map (λ s. map (λ key. key.1) s.given) (step_at fresh 2)
        ≡ (4294967296 ∷ 4294967297 ∷ 4294967298 ∷ 4294967299 ∷ 4294967300 ∷ []) ∷ [] }
    ensures links { map (λ s. map (λ l. l.nonce) s.links) (step_at fresh 2)
        ≡ (4294967301 ∷ 4294967302 ∷ 4294967303 ∷ 4294967304 ∷ 4294967305 ∷ []) ∷ [] }
    ensures contents { map (λ s. map (λ c. c.nonce) s.contents) (step_at fresh 2) ≡ (4294967306 ∷ []) ∷ [] }
{}

/// A folder, a file, and the file's new name: the store's length, and the serials of the name's content.
#[tactic(auto, unfolding(crate::specs::WorkedSteps::journals))]
pub fn tree_and_rename()
    ensures length { end_of renaming ≡ 2273 }
    ensures keys { map (λ s. map (λ key. key.1) s.given) (step_at renaming 5) ≡ (8589934605 ∷ []) ∷ [] }
    ensures sealed { map (λ s. map (λ c. c.key_serial) s.contents) (step_at renaming 6) ≡ (8589934605 ∷ []) ∷ [] }
    ensures nonces { map (λ s. map (λ c. c.nonce) s.contents) (step_at renaming 6) ≡ (8589934608 ∷ []) ∷ [] }
{}

/// A file written empty in a second session, which draws no key.
#[tactic(auto, unfolding(crate::specs::WorkedSteps::journals))]
pub fn empty_rewrite_in_a_second_session()
    ensures length { end_of rewriting ≡ 2566 }
    ensures renewed { renewals_at rewriting 8 ≡ [] ∷ [] }
    ensures sealed { map (λ s. map (λ c. c.key_serial) s.contents) (step_at rewriting 8) ≡ (8589934605 ∷ []) ∷ [] }
    ensures nonces { map (λ s. map (λ c. c.nonce) s.contents) (step_at rewriting 8) ≡ (12884901888 ∷ []) ∷ [] }
{}

/// A folder, a file, a holder and a grant: the store's length, and the link that the grant publishes.
#[tactic(auto, unfolding(crate::specs::WorkedSteps::journals))]
pub fn grant()
    ensures length { end_of granting ≡ 2558 }
    ensures links { map (λ s. s.links) (step_at granting 7)
        ≡ (record { edge = grant_edge 1 2; from_serial = 0x200000010; to_serial = 0x200000000; nonce = 0x200000012 } ∷ []) ∷ [] }
{}

/// Taking a grant back publishes two links.
#[tactic(auto, unfolding(crate::specs::WorkedSteps::journals))]
pub fn revoked()
    ensures length { end_of revoking ≡ 2991 }
    ensures renewed { renewals_at revoking 9 ≡ (clear_of 2 ∷ []) ∷ [] }
    ensures links { links_at revoking 9 ≡ 2 ∷ [] }
{}

/// The first write after it renews what leads to the file.
#[tactic(auto, unfolding(crate::specs::WorkedSteps::journals))]
pub fn written_after_revocation()
    ensures length { end_of writing_again ≡ 4245 }
    ensures renewed { renewals_at writing_again 11 ≡ (sub_of 2 ∷ files_of 2 ∷ file_role 1 ∷ []) ∷ [] }
    ensures links { links_at writing_again 11 ≡ 5 ∷ [] }
    ensures contents { contents_at writing_again 11 ≡ 1 ∷ [] }
{}

/// A folder's new name after a revocation is sealed under keys that only those who may read it reach.
#[tactic(auto, unfolding(crate::specs::WorkedSteps::journals))]
pub fn rename_after_revocation()
    ensures length { end_of renaming_again ≡ 5294 }
    ensures renewed { renewals_at renaming_again 11 ≡ (sub_of 2 ∷ sub_of 3 ∷ back_of 2 ∷ back_of 3 ∷ data_of 2 ∷ []) ∷ [] }
    ensures links { links_at renaming_again 11 ≡ 12 ∷ [] }
{}

/// A folder that leaves a granted one takes clean keys along, and its file gets one when it is next written.
#[tactic(auto, unfolding(crate::specs::WorkedSteps::journals))]
pub fn move_away_from_a_grant()
    ensures length { end_of moving_away ≡ 5396 }
    ensures renewed { renewals_at moving_away 10 ≡ (sub_of 4 ∷ back_of 4 ∷ []) ∷ [] }
    ensures links { links_at moving_away 10 ≡ 6 ∷ [] }
    ensures renewed_by_the_write { renewals_at moving_away 11 ≡ (files_of 4 ∷ file_role 1 ∷ []) ∷ [] }
    ensures links_of_the_write { links_at moving_away 11 ≡ 2 ∷ [] }
{}

/// The edges that each key step leaves are those of the store after it.
#[tactic(auto, unfolding(crate::specs::WorkedSteps::journals))]
pub fn steps_leave_the_edges_of_the_store()
    ensures writing_again { edges_agree nothing writing_again ≡ replicate 13 true }
    ensures renaming_again { edges_agree nothing renaming_again ≡ replicate 11 true }
    ensures moving_away { edges_agree nothing moving_away ≡ replicate 11 true }
    ensures making_again { edges_agree nothing making_again ≡ replicate 19 true }
    ensures dropping { edges_agree nothing dropping ≡ replicate 13 true }
    ensures moving_strictly { edges_agree nothing moving_strictly ≡ replicate 11 true }
    ensures departing_after_it { edges_agree nothing departing_after_it ≡ replicate 13 true }
    ensures revoking_file { edges_agree nothing revoking_file ≡ replicate 12 true }
    ensures moving_file { edges_agree nothing moving_file ≡ replicate 14 true }
{}

/// The journals of these rows are valid, and each of their notes fits where it comes.
#[tactic(auto, unfolding(crate::specs::WorkedSteps::journals))]
pub fn worked_journals_are_valid()
    ensures written { IsValid writing_again }
    ensures renamed { IsValid renaming_again }
    ensures moved { IsValid moving_away }
    ensures made_again { IsValid making_again }
    ensures dropped { IsValid dropping }
    ensures moved_strictly { IsValid moving_strictly }
    ensures departed_strictly { IsValid departing_strictly }
    ensures departed_after_it { IsValid departing_after_it }
    ensures revoked_file { IsValid revoking_file }
    ensures kept_file { IsValid keeping_file }
    ensures moved_file { IsValid moving_file }
    ensures fit { map (all_fit nothing) (rewriting ∷ writing_again ∷ renaming_again ∷ moving_away ∷ making_again ∷ dropping ∷ []) ≡ true
        ∷ true ∷ true ∷ true ∷ true ∷ true ∷ [] }
{}

/// What is put into a folder after a revocation comes under keys that are renewed for it.
#[tactic(auto, unfolding(crate::specs::WorkedSteps::journals))]
pub fn made_after_revocation()
    ensures file_moved_in { renewals_at making_again 12 ≡ (sub_of 2 ∷ files_of 2 ∷ []) ∷ [] }
    ensures folder_made { renewals_at making_again 15 ≡ (sub_of 2 ∷ []) ∷ [] }
    ensures file_made { renewals_at making_again 18 ≡ (sub_of 2 ∷ files_of 2 ∷ []) ∷ [] }
    ensures renamed { renewals_at making_again 19 ≡ (sub_of 3 ∷ back_of 2 ∷ back_of 3 ∷ data_of 2 ∷ []) ∷ [] }
{}

/// A fresh store of version 2 is as long as one of version 1.
#[tactic(auto, unfolding(crate::specs::WorkedSteps::journals))]
pub fn fresh_strict_store()
    ensures length { end_of fresh_strict ≡ 819 }
{}

/// A folder that leaves a granted one in a store of version 2 renews what led through the edges that go: above it and at it.
#[tactic(auto, unfolding(crate::specs::WorkedSteps::journals))]
pub fn strict_move()
    ensures length { end_of moving_strictly ≡ 6572 }
    ensures renewed { renewals_at moving_strictly 10
        ≡ (clear_of 1 ∷ clear_of 2 ∷ clear_of 4 ∷ sub_of 1 ∷ sub_of 2 ∷ sub_of 4 ∷ back_of 4 ∷ []) ∷ [] }
    ensures links { links_at moving_strictly 10 ≡ 18 ∷ [] }
    ensures renewed_by_the_write { renewals_at moving_strictly 11 ≡ (files_of 4 ∷ file_role 1 ∷ []) ∷ [] }
    ensures links_of_the_write { links_at moving_strictly 11 ≡ 2 ∷ [] }
{}

/// A file that leaves a folder in a store of version 2: five keys are drawn, and whoever is granted the folder later has no way to it.
#[tactic(auto, unfolding(crate::specs::WorkedSteps::journals))]
pub fn strict_departure()
    ensures length { end_of departing_strictly ≡ 4634 }
    ensures renewed { renewals_at departing_strictly 7 ≡ (clear_of 1 ∷ clear_of 2 ∷ sub_of 1 ∷ sub_of 2 ∷ files_of 2 ∷ []) ∷ [] }
    ensures links { links_at departing_strictly 7 ≡ 11 ∷ [] }
{}

/// An upgrade renews every key that may lead on, and from then on departures are strict.
#[tactic(auto, unfolding(crate::specs::WorkedSteps::journals))]
pub fn upgraded()
    ensures length { end_of upgrading ≡ 4159 }
    ensures length_after { end_of departing_after_it ≡ 6726 }
    ensures links { links_at upgrading 9 ≡ 14 ∷ [] }
{}

/// The first grant on a file publishes four links, and gives one key, the file's clearance. A later one publishes one.
#[tactic(auto, unfolding(crate::specs::WorkedSteps::journals))]
pub fn file_grant()
    ensures length { end_of granting_file ≡ 3432 }
    ensures links { links_at granting_file 10 ≡ 4 ∷ [] }
    ensures keys { map (λ s. map (λ key. key.0) s.given) (step_at granting_file 10) ≡ (clear_of 2147483649 ∷ []) ∷ [] }
    ensures later { links_at moving_file 11 ≡ 1 ∷ [] }
    ensures revoked { links_at moving_file 12 ≡ 4 ∷ [] }
{}

/// With the last grant on a file its clearance goes: nothing is published, and what it led to is renewed with the next write.
#[tactic(auto, unfolding(crate::specs::WorkedSteps::journals))]
pub fn file_revoked()
    ensures length { end_of revoking_file ≡ 3841 }
    ensures links { links_at revoking_file 11 ≡ 0 ∷ [] }
    ensures dirty { map (λ s. length s.after.dirty) (step_at revoking_file 11) ≡ 5 ∷ [] }
    ensures renewed_by_the_write { renewals_at revoking_file 12 ≡ (file_role 1 ∷ []) ∷ [] }
    ensures links_of_the_write { links_at revoking_file 12 ≡ 1 ∷ [] }
{}

/// A folder's grant is taken back, and the file keeps its own: the next write links the file's new key from its clearance too.
#[tactic(auto, unfolding(crate::specs::WorkedSteps::journals))]
pub fn folder_revoked_file_kept()
    ensures length { end_of keeping_file ≡ 4637 }
    ensures links { links_at keeping_file 12 ≡ 2 ∷ [] }
    ensures renewed_by_the_write { renewals_at keeping_file 13 ≡ (sub_of 2 ∷ files_of 2 ∷ file_role 1 ∷ []) ∷ [] }
    ensures links_of_the_write { links_at keeping_file 13 ≡ 6 ∷ [] }
{}

/// A file with a grant that leaves a folder takes its clearance along, under a new key. With the file it goes.
#[tactic(auto, unfolding(crate::specs::WorkedSteps::journals))]
pub fn file_moved_with_grant()
    ensures renewed { renewals_at moving_file 13
        ≡ (clear_of 1 ∷ clear_of 2 ∷ clear_of 2147483649 ∷ sub_of 1 ∷ sub_of 2 ∷ files_of 2 ∷ []) ∷ [] }
    ensures links { links_at moving_file 13 ≡ 15 ∷ [] }
    ensures removed { links_at moving_file 14 ≡ 5 ∷ [] }
{}
