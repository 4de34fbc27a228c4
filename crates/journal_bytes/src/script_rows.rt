//! Worked rows of scripts and attempts, each computed by the checker from the definitions.
ghost use Rattle.std.specs.Prelude.{◌≡◌, [], ◌∷◌, map, codes, true, false, Some, None};
ghost use Rattle.cry_base.specs.Requests.Request.{AddHolder, MakeFolder, WriteFile, Grant};
ghost use Rattle.cry_base.specs.declared.commands.Refusal.TheVariants.{Exists, Full};
ghost use Rattle.cry_base.specs.declared.commands.Reply.TheVariants.{Done, Made, Refused};
ghost use Rattle.public_fold.specs.Lengths.{end_of};
ghost use Rattle.public_fold.specs.WorkedSteps.{fresh, some_keys};
ghost use Rattle.journal_bytes.specs.Attempts.{attempts};
ghost use Rattle.journal_bytes.specs.Attempts.Event.{Enters, IsAbandoned, LosesEpoch, Reopens};
ghost use Rattle.journal_bytes.specs.Script.{script, answer};
ghost use Rattle.journal_bytes.specs.WorkedScripts.{granting_stopped, nonces_in, down_from, limited, limits_now};

/// A script's replies and the journal after it, with the keys drawn from 255 down.
#[tactic(auto, unfolding(crate::specs::WorkedScripts::scripts))]
pub fn script_of_a_grant()
    ensures replies { (script limits_now fresh (MakeFolder (codes "/a") ∷ WriteFile (codes "/a/x") (0 ∷ 255 ∷ []) ∷ MakeFolder (codes "/a")
        ∷ AddHolder ∷ Grant 1 (codes "/a") ∷ []) (down_from 255 224)).0
        ≡ Done ∷ Done ∷ Refused Exists ∷ Made (record { 0 = 1 }) (down_from 63 32) ∷ Done ∷ [] }
    ensures length { end_of (script limits_now fresh (MakeFolder (codes "/a") ∷ WriteFile (codes "/a/x") (0 ∷ 255 ∷ [])
        ∷ MakeFolder (codes "/a") ∷ AddHolder ∷ Grant 1 (codes "/a") ∷ []) (down_from 255 224)).1 ≡ 2558 }
{}

/// A command whose batch would end past the store limit is refused, and one that ends at it is not.
#[tactic(auto, unfolding(crate::specs::WorkedScripts::scripts))]
pub fn store_limit()
    ensures first_of_session { answer (limited 1800) fresh false (MakeFolder (codes "/a")) ≡ Some Full }
    ensures fits { answer (limited 1801) fresh false (MakeFolder (codes "/a")) ≡ None }
    ensures later { answer (limited 1691) fresh true (MakeFolder (codes "/a")) ≡ None }
    ensures later_full { answer (limited 1690) fresh true (MakeFolder (codes "/a")) ≡ Some Full }
{}

/// A grant whose batch a stop cut short: the next session has the next epoch, and its link another nonce.
#[tactic(auto, unfolding(crate::specs::WorkedScripts::scripts))]
pub fn stop_in_the_first_write()
    ensures epochs { map (λ a. a.epoch) (attempts (record { journal = fresh; begun = false })
        (Enters (MakeFolder (codes "/a")) (some_keys 5) ∷ Enters AddHolder (some_keys 1) ∷ IsAbandoned (Grant 1 (codes "/a")) []
        ∷ Reopens ∷ LosesEpoch ∷ Reopens ∷ Enters (Grant 1 (codes "/a")) [] ∷ [])) ≡ 2 ∷ 2 ∷ 2 ∷ 2 ∷ 3 ∷ 3 ∷ 3 ∷ [] }
    ensures numbers { map (λ a. a.number) (attempts (record { journal = fresh; begun = false })
        (Enters (MakeFolder (codes "/a")) (some_keys 5) ∷ Enters AddHolder (some_keys 1) ∷ IsAbandoned (Grant 1 (codes "/a")) []
        ∷ Reopens ∷ LosesEpoch ∷ Reopens ∷ Enters (Grant 1 (codes "/a")) [] ∷ [])) ≡ 3 ∷ 4 ∷ 5 ∷ 6 ∷ 6 ∷ 6 ∷ 7 ∷ [] }
    ensures nonces { map (λ a. nonces_in a.holds)
        (attempts (record { journal = granting_stopped; begun = false }) (Enters (Grant 1 (codes "/a")) [] ∷ []))
        ≡ [] ∷ (12884901888 ∷ []) ∷ [] }
{}
