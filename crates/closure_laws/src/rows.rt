//! Worked rows of histories, each computed by the checker from the definitions.
ghost use Rattle.std.specs.Prelude.{◌≡◌, [], ◌∷◌, ◌++◌, codes, true, false, map};
ghost use Rattle.cry_base.specs.Requests.Request.{AddHolder, Grant, MakeFolder, Relocate, WriteFile};
ghost use Rattle.cry_base.specs.Texts.{ended_lines};
ghost use Rattle.role_graph.specs.Rights.Who.{TheOwner, TheHolder};
ghost use Rattle.public_fold.specs.Journal.{nothing};
ghost use Rattle.public_fold.specs.WorkedSteps.{rewriting, granting, revoking, writing_again, renaming_again, moving_away};
ghost use Rattle.public_fold.specs.WorkedSteps.{does, dropping, granting_file, keeping_file, making_again, moving_file, revoking_file};
ghost use Rattle.public_fold.specs.WorkedSteps.{departing_after_it, departing_strictly, moving_strictly};
ghost use Rattle.closure_laws.specs.Gains.{gains_from};
ghost use Rattle.closure_laws.specs.Invariants.{invariants_hold};
ghost use Rattle.closure_laws.specs.Secrecy.{keeps_secret};
ghost use Rattle.closure_laws.specs.Seen.{seen, spell_seen};
ghost use Rattle.closure_laws.specs.WorkedHistories.{departing_lazily};

/// The owner derives each name and each file as it was ever written.
#[tactic(auto, unfolding(crate::specs::WorkedHistories::histories))]
pub fn empty_rewrite_in_a_second_session()
    ensures { spell_seen (seen rewriting TheOwner)
        ≡ ended_lines (codes "folder 2 1 " ∷ codes "folder 4 2 a" ∷ codes "file 5 1 x 00ff" ∷ codes "file 6 1 y 00ff" ∷ codes "file 8 1 y "
        ∷ []) }
{}

/// What a holder derived before a revocation stays derived; a holder who was never made derives nothing.
#[tactic(auto, unfolding(crate::specs::WorkedHistories::histories))]
pub fn revoked()
    ensures holder { spell_seen (seen revoking (TheHolder 1))
        ≡ ended_lines (codes "folder 2 1 " ∷ codes "folder 4 2 a" ∷ codes "file 5 1 x 00ff" ∷ []) }
    ensures stranger { seen revoking (TheHolder 2) ≡ [] }
{}

/// What is written after it isn't derived, save by who was granted it.
#[tactic(auto, unfolding(crate::specs::WorkedHistories::histories))]
pub fn written_after_revocation()
    ensures revoked_holder { spell_seen (seen writing_again (TheHolder 1))
        ≡ ended_lines (codes "folder 2 1 " ∷ codes "folder 4 2 a" ∷ codes "file 5 1 x 00ff" ∷ []) }
    ensures new_holder { spell_seen (seen writing_again (TheHolder 2))
        ≡ ended_lines (codes "folder 2 1 " ∷ codes "folder 4 2 a" ∷ codes "file 5 1 x 00ff" ∷ codes "file 11 1 x 01" ∷ []) }
    ensures owner { spell_seen (seen writing_again TheOwner)
        ≡ ended_lines (codes "folder 2 1 " ∷ codes "folder 4 2 a" ∷ codes "file 5 1 x 00ff" ∷ codes "file 11 1 x 01" ∷ []) }
{}

/// A folder's new name isn't derived by the holder whose grant on it was taken back.
#[tactic(auto, unfolding(crate::specs::WorkedHistories::histories))]
pub fn rename_after_revocation()
    ensures revoked_holder { spell_seen (seen renaming_again (TheHolder 1))
        ≡ ended_lines (codes "folder 2 1 " ∷ codes "folder 4 2 a" ∷ codes "folder 5 3 b" ∷ []) }
    ensures other_holder { spell_seen (seen renaming_again (TheHolder 2))
        ≡ ended_lines (codes "folder 2 1 " ∷ codes "folder 4 2 a" ∷ codes "folder 5 3 b" ∷ codes "folder 11 2 z" ∷ []) }
{}

/// A file written after its folder was moved out of a grant isn't derived by the holder.
#[tactic(auto, unfolding(crate::specs::WorkedHistories::histories))]
pub fn move_away_from_a_grant()
    ensures { spell_seen (seen moving_away (TheHolder 1))
        ≡ ended_lines (codes "folder 2 1 " ∷ codes "folder 4 2 s" ∷ codes "folder 6 4 d" ∷ codes "file 7 1 f 01" ∷ []) }
{}

/// In a store of version 1 a file that left a folder stays readable for whoever is granted the folder later.
#[tactic(auto, unfolding(crate::specs::WorkedHistories::histories))]
pub fn lazy_departure()
    ensures { spell_seen (seen departing_lazily (TheHolder 1))
        ≡ ended_lines (codes "folder 2 1 " ∷ codes "folder 4 2 a" ∷ codes "file 6 1 x 00" ∷ []) }
{}

/// In one of version 2 it is closed to them, and stays open to whoever derived it before.
#[tactic(auto, unfolding(crate::specs::WorkedHistories::histories))]
pub fn strict_departure()
    ensures later_holder { spell_seen (seen departing_strictly (TheHolder 1))
        ≡ ended_lines (codes "folder 2 1 " ∷ codes "folder 4 2 a" ∷ []) }
    ensures owner { spell_seen (seen departing_strictly TheOwner)
        ≡ ended_lines (codes "folder 2 1 " ∷ codes "folder 4 2 a" ∷ codes "folder 5 3 b" ∷ codes "file 6 1 x 00" ∷ []) }
    ensures earlier_holder { spell_seen (seen moving_strictly (TheHolder 1))
        ≡ ended_lines (codes "folder 2 1 " ∷ codes "folder 4 2 s" ∷ codes "folder 6 4 d" ∷ codes "file 7 1 f 01" ∷ []) }
{}

/// An upgrade publishes no name and no file, and what was derived before it stays so.
#[tactic(auto, unfolding(crate::specs::WorkedHistories::histories))]
pub fn departure_after_an_upgrade()
    ensures holder { spell_seen (seen departing_after_it (TheHolder 1))
        ≡ ended_lines (codes "folder 2 1 " ∷ codes "folder 4 2 a" ∷ codes "file 5 1 x 00ff" ∷ []) }
    ensures owner { spell_seen (seen departing_after_it TheOwner)
        ≡ ended_lines (codes "folder 2 1 " ∷ codes "folder 4 2 a" ∷ codes "file 5 1 x 00ff" ∷ codes "folder 11 3 b" ∷ codes "file 13 1 x 02"
        ∷ []) }
{}

/// A grant on a file opens it, and the names of the folders above it; what stands beside it stays closed.
#[tactic(auto, unfolding(crate::specs::WorkedHistories::histories))]
pub fn grant_on_a_file()
    ensures { spell_seen (seen (granting_file
        ++ (does 1 (WriteFile (codes "/a/y") (2 ∷ [])) ∷ does 5 (MakeFolder (codes "/a/b")) ∷ [])) (TheHolder 2))
        ≡ ended_lines (codes "folder 2 1 " ∷ codes "folder 4 2 a" ∷ codes "file 5 1 x 00ff" ∷ []) }
{}

/// What is written to it after a revocation is opened to those alone who may still read it, by its folder or by a grant of their own.
#[tactic(auto, unfolding(crate::specs::WorkedHistories::histories))]
pub fn file_written_after_revocation()
    ensures of_the_file { spell_seen (seen revoking_file (TheHolder 2))
        ≡ ended_lines (codes "folder 2 1 " ∷ codes "folder 4 2 a" ∷ codes "file 5 1 x 00ff" ∷ []) }
    ensures still_in_the_folder { spell_seen (seen revoking_file (TheHolder 1))
        ≡ ended_lines (codes "folder 2 1 " ∷ codes "folder 4 2 a" ∷ codes "file 5 1 x 00ff" ∷ codes "file 12 1 x 01" ∷ []) }
    ensures of_the_folder { spell_seen (seen keeping_file (TheHolder 1))
        ≡ ended_lines (codes "folder 2 1 " ∷ codes "folder 4 2 a" ∷ codes "file 5 1 x 00ff" ∷ []) }
    ensures still_on_the_file { spell_seen (seen keeping_file (TheHolder 2))
        ≡ ended_lines (codes "folder 2 1 " ∷ codes "folder 4 2 a" ∷ codes "file 5 1 x 00ff" ∷ codes "file 13 1 x 01" ∷ []) }
{}

/// A file that left its folder with a grant on it is closed to whoever is granted the folder later.
#[tactic(auto, unfolding(crate::specs::WorkedHistories::histories))]
pub fn granted_file_departs()
    ensures { spell_seen (seen (granting_file
        ++ (does 6 (Relocate (codes "/a/x") (codes "/")) ∷ does 1 AddHolder ∷ does 0 (Grant 3 (codes "/a")) ∷ [])) (TheHolder 3))
        ≡ ended_lines (codes "folder 2 1 " ∷ codes "folder 4 2 a" ∷ []) }
{}

/// A grant is a gain for its holder alone, and so is a move into what is granted; a new folder there is none.
#[tactic(auto, unfolding(crate::specs::WorkedHistories::histories))]
pub fn gains_of_a_grant()
    ensures granted { gains_from nothing granting 1 ≡ false ∷ false ∷ false ∷ false ∷ false ∷ false ∷ true ∷ [] }
    ensures others { gains_from nothing granting 2 ≡ false ∷ false ∷ false ∷ false ∷ false ∷ false ∷ false ∷ [] }
    ensures moved { gains_from nothing (granting
        ++ (does 5 (MakeFolder (codes "/a/c")) ∷ does 5 (MakeFolder (codes "/b")) ∷ does 0 (Relocate (codes "/b") (codes "/a")) ∷ [])) 1
        ≡ false ∷ false ∷ false ∷ false ∷ false ∷ false ∷ true ∷ false ∷ false ∷ true ∷ [] }
    ensures of_a_file { gains_from nothing granting_file 2
        ≡ false ∷ false ∷ false ∷ false ∷ false ∷ false ∷ false ∷ false ∷ false ∷ true ∷ [] }
{}

/// On the worked journals nothing is derived that was written while it wasn't shown, unless the holder gained something
/// later; the last one moves a folder into a grant after it was written.
#[tactic(auto, unfolding(crate::specs::WorkedHistories::histories))]
pub fn worked_journals_keep_secrets()
    ensures written { map (keeps_secret writing_again) (1 ∷ 2 ∷ 3 ∷ []) ≡ true ∷ true ∷ true ∷ [] }
    ensures renamed { map (keeps_secret renaming_again) (1 ∷ 2 ∷ []) ≡ true ∷ true ∷ [] }
    ensures moved { map (keeps_secret moving_away) (1 ∷ []) ≡ true ∷ [] }
    ensures made { map (keeps_secret making_again) (1 ∷ []) ≡ true ∷ [] }
    ensures gained { map (keeps_secret (granting
        ++ (does 5 (MakeFolder (codes "/b")) ∷ does 0 (Relocate (codes "/b") (codes "/a")) ∷ []))) (1 ∷ []) ≡ true ∷ [] }
    ensures moved_strictly { map (keeps_secret moving_strictly) (1 ∷ []) ≡ true ∷ [] }
    ensures upgraded { map (keeps_secret departing_after_it) (1 ∷ []) ≡ true ∷ [] }
    ensures file_revoked { map (keeps_secret revoking_file) (1 ∷ 2 ∷ []) ≡ true ∷ true ∷ [] }
    ensures folder_revoked { map (keeps_secret keeping_file) (1 ∷ 2 ∷ []) ≡ true ∷ true ∷ [] }
    ensures file_moved { map (keeps_secret moving_file) (1 ∷ 2 ∷ []) ≡ true ∷ true ∷ [] }
{}

/// After each entry of the worked journals what is dirty is so with all behind it, each edge has a link between present
/// keys, and no link leaves a dirty key.
#[tactic(auto, unfolding(crate::specs::WorkedHistories::histories))]
pub fn worked_journals_keep_their_keys()
    ensures lazy { map invariants_hold (rewriting ∷ writing_again ∷ renaming_again ∷ moving_away ∷ making_again ∷ dropping ∷ [])
        ≡ true ∷ true ∷ true ∷ true ∷ true ∷ true ∷ [] }
    ensures strict { map invariants_hold (moving_strictly ∷ departing_strictly ∷ departing_after_it ∷ []) ≡ true ∷ true ∷ true ∷ [] }
    ensures on_files { map invariants_hold (revoking_file ∷ keeping_file ∷ moving_file ∷ []) ≡ true ∷ true ∷ true ∷ [] }
{}
