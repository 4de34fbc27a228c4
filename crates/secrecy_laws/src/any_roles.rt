//! Laws of keys over any roles.
ghost use Rattle.std.specs.Prelude.{◌≡◌, ℕ, Bool, true, List, Some, ◌⊎◌};
ghost use Rattle.cry_base.specs.Sets.{In, Path, Tells};
ghost use Rattle.secrecy_laws.specs.States.{State, Move, IsStep, Fits};
ghost use Rattle.secrecy_laws.specs.Departures.{LeadAlongEdges, RenewsAllThatLead, RenewsWhatLed};
ghost use Rattle.secrecy_laws.specs.Holding.{Holds, Opens, Brings};
ghost use Rattle.secrecy_laws.specs.Runs.{Turn, state_after, AreSteps, BringNothing, AreOpenedByGain};

/// A step keeps what holds of the keys: what is dirty is so with all behind it, and a present key was marked after it was made
/// exactly where its role is dirty; no serial is given to two roles; a link into a key that wasn't marked since comes from another such
/// key, along an edge that stands; and each edge has its link.
pub fn steps_keep_what_holds<R>()
    ensures { (same : R → R → Bool) (root : R → Bool) (old : State R) (m : Move R) (new : State R)
        → Tells same → Holds root old → IsStep old m new → Fits root old m new → Holds root new }
{}

/// A key that was made before a step, and that a root opens after it, the root opened before, or the step brings a role into its
/// reach whose present key leads to it.
pub fn older_keys_are_opened_by_gains<R>()
    ensures { (same : R → R → Bool) (root : R → Bool) (old : State R) (m : Move R) (new : State R) (h r : R) (k : ℕ)
        → Tells same → Holds root old → IsStep old m new → Fits root old m new
        → root h ≡ true → In {X = R × ℕ} (r, k) old.made → Opens new h k
        → Opens old h k ⊎ ((q : R) × Brings old new h q × ((j : ℕ) × (new.key q ≡ Some j) × Path new.links j k)) }
{}

/// What holds of the keys holds after any steps.
pub fn any_steps_keep_what_holds<R>()
    ensures { (same : R → R → Bool) (root : R → Bool) (s : State R) (turns : List (Turn R))
        → Tells same → Holds root s → AreSteps root s turns → Holds root (state_after s turns) }
{}

/// What is sealed under the present key of a clean role out of the reach of a root, the root doesn't open after any later steps,
/// unless one of them brings a role into its reach; and where it opens it, the present key of such a role led to it once that step
/// was done, and the root didn't open it before.
pub fn any_roles_keep_secrets<R>()
    ensures secret { (same : R → R → Bool) (root : R → Bool) (s : State R) (turns : List (Turn R)) (h r : R) (k : ℕ)
        → Tells same → Holds root s → AreSteps root s turns
        → root h ≡ true → s.key r ≡ Some k → (In r s.dirty → ⊥) → (Path s.edges h r → ⊥)
        → BringNothing h s turns → Opens (state_after s turns) h k → ⊥ }
    ensures opened { (same : R → R → Bool) (root : R → Bool) (s : State R) (turns : List (Turn R))
        → Tells same → Holds root s → AreSteps root s turns → AreOpenedByGain root s turns }
{}

/// The present key of a clean role is opened only where the role is in reach.
pub fn clean_keys_are_opened_in_reach<R>()
    ensures { (root : R → Bool) (s : State R) (h r : R) (k : ℕ)
        → Holds root s → s.key r ≡ Some k → (In r s.dirty → ⊥) → Opens s h k → Path s.edges h r }
{}

/// Where a step renews all but roots that led to a removed edge, the present keys of roles that are no roots go on leading along edges
/// alone; and they begin to where it gives new keys to all of them from which links lead on.
pub fn strict_steps_lead_along_edges<R>()
    ensures strict { (same : R → R → Bool) (root : R → Bool) (old : State R) (m : Move R) (new : State R)
        → Tells same → Holds root old → IsStep old m new → Fits root old m new
        → LeadAlongEdges root old → RenewsWhatLed root old m → LeadAlongEdges root new }
    ensures whole { (same : R → R → Bool) (root : R → Bool) (old : State R) (m : Move R) (new : State R)
        → Tells same → Holds root old → IsStep old m new → Fits root old m new
        → RenewsAllThatLead root old m → LeadAlongEdges root new }
{}
