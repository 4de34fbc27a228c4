//! Worked rows of what may happen to a store, each computed by the checker from the definitions.
ghost use Rattle.std.specs.Prelude.{◌≡◌, [], ◌∷◌, drop, length, map, take};
ghost use Rattle.key_links.specs.Fresh.{made_version};
ghost use Rattle.public_fold.specs.Journal.{keys_of};
ghost use Rattle.public_fold.specs.WorkedSteps.{some_keys};
ghost use Rattle.journal_bytes.specs.WorkedScripts.{limits_now};
ghost use Rattle.attempt_laws.specs.Happenings.{IsCourse};
ghost use Rattle.attempt_laws.specs.Spent.{number_of, spenders_in};
ghost use Rattle.attempt_laws.specs.Trials.{all_trials, attempt_of, course_after, made_course};
ghost use Rattle.attempt_laws.specs.WorkedTrials.{happened, upgraded};

/// All of it can happen. The epoch that was lost is begun again as batch 6, where the grant that was cut short was batch 6 of the
/// epoch before; the grant that enters has another nonce.
#[tactic(auto, unfolding(crate::specs::WorkedTrials::everything))]
pub fn lost_epoch_is_begun_again()
    ensures course { IsCourse limits_now (made_course made_version (some_keys 5)) happened }
    ensures epochs { map (λ t. (attempt_of t).epoch) (all_trials made_version (some_keys 5) happened)
        ≡ 1 ∷ 1 ∷ 2 ∷ 2 ∷ 2 ∷ 2 ∷ 3 ∷ 3 ∷ 4 ∷ 4 ∷ [] }
    ensures numbers { map (λ t. (attempt_of t).number) (all_trials made_version (some_keys 5) happened)
        ≡ 1 ∷ 2 ∷ 3 ∷ 4 ∷ 5 ∷ 6 ∷ 6 ∷ 6 ∷ 7 ∷ 8 ∷ [] }
    ensures spent_from_the_grant { drop 5 (map (λ t. map number_of (spenders_in (attempt_of t).holds))
        (all_trials made_version (some_keys 5) happened))
        ≡ (8589934607 ∷ []) ∷ [] ∷ [] ∷ [] ∷ (17179869184 ∷ []) ∷ [] }
{}

/// All of it can happen, and leaves a store of version 2. The upgrade that enters is a batch of another epoch than the one that was cut
/// short, and begins with another number; between them the epoch that was lost is begun again.
#[tactic(auto, unfolding(crate::specs::WorkedTrials::everything))]
pub fn abandoned_upgrade_enters_later()
    ensures course { IsCourse limits_now (made_course 1 (some_keys 5)) upgraded }
    ensures version { (keys_of (course_after (made_course 1 (some_keys 5)) upgraded).journal).version ≡ 2 }
    ensures epochs { map (λ t. (attempt_of t).epoch) (all_trials 1 (some_keys 5) upgraded) ≡ 1 ∷ 1 ∷ 2 ∷ 2 ∷ 2 ∷ 3 ∷ 3 ∷ 3 ∷ [] }
    ensures numbers { map (λ t. (attempt_of t).number) (all_trials 1 (some_keys 5) upgraded) ≡ 1 ∷ 2 ∷ 3 ∷ 4 ∷ 5 ∷ 5 ∷ 5 ∷ 6 ∷ [] }
    ensures spent_from_the_upgrade { drop 4 (map (λ t. length (spenders_in (attempt_of t).holds)) (all_trials 1 (some_keys 5) upgraded))
        ≡ 20 ∷ 0 ∷ 0 ∷ 20 ∷ [] }
    ensures first { drop 4 (map (λ t. take 1 (map number_of (spenders_in (attempt_of t).holds))) (all_trials 1 (some_keys 5) upgraded))
        ≡ (8589934605 ∷ []) ∷ [] ∷ [] ∷ (12884901888 ∷ []) ∷ [] }
{}
