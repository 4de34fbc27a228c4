//! Laws of the rows that spell a state (docs/FORMAT.md, "The checkpoint").
ghost use Rattle.std.specs.Prelude.{◌≡◌, ◌<◌, ◌^◌, ◌∷◌, ℕ, IsTrue, List, length};
ghost use Rattle.cry_base.specs.declared.roles.Role.{Role};
ghost use Rattle.index_format.specs.Plain.{PlainState};
ghost use Rattle.public_fold.specs.Journal.{Stand, nothing};
ghost use Rattle.public_fold.specs.KeyStep.{newest};
ghost use Rattle.public_fold.specs.Records.{Link};
ghost use Rattle.public_fold.specs.Standing.{IsSeenAs, PublicView, public_store_of};
ghost use Rattle.public_fold.specs.StateLaws.{AreFew, IsFolded};
ghost use Rattle.public_fold.specs.States.{IsBare, IsReadFrom, IsSoundState, IsStateOf, Spells, stand_of_rows, state_store, with_key_order};
ghost use Rattle.public_fold.specs.Turns.{StandHolds, Turn, turns_fit, turns_stand};

/// Law: a state is spelled by one list of rows.
pub fn every_state_is_spelled_once()
    ensures { (v : PublicView) (s t : PlainState) → Spells v s → Spells v t → s ≡ t }
{}

/// Law: the rows tell the store, as everyone may see it.
pub fn rows_tell_the_store()
    ensures { (v : PublicView) (s : PlainState) → IsBare v.tree → Spells v s → state_store s ≡ public_store_of v }
{}

/// Law: sound rows tell a stand for which all holds that holds after a log. Its links are made up, one for each edge.
pub fn sound_rows_hold()
    ensures holds { (s : PlainState) → IsSoundState s → (links : List Link) × StandHolds (stand_of_rows s) links }
    ensures folded { (s : PlainState) → IsSoundState s → IsFolded (stand_of_rows s) }
{}

/// Law: a state that was read from the rows of what stands after a log is seen as that, once its keys are in the log's order, in which
/// each role has the same newest one.
pub fn read_states_are_seen()
    ensures seen { (checks : List (List ℕ)) (at : Stand) (s : PlainState) (v : PublicView) → IsStateOf checks at s → IsReadFrom v s
        → IsSeenAs (with_key_order v at.keys.keys) at }
    ensures alike { (checks : List (List ℕ)) (at : Stand) (s : PlainState) (v : PublicView) → IsStateOf checks at s → IsReadFrom v s
        → (r : Role) → newest at.keys.keys r ≡ newest v.keys.keys r }
    ensures checks { (checks : List (List ℕ)) (at : Stand) (s : PlainState) (v : PublicView) → IsStateOf checks at s → IsReadFrom v s
        → v.checks ≡ checks }
{}

/// Law: what stands before the first turn, and after turns that fit, has no names, has the owner's key of serial 0, and a version that
/// goes with its folders.
pub fn turns_leave_folded_stands()
    ensures nothing { IsFolded nothing }
    ensures turns { (at : Stand) (links : List Link) (turns : List Turn) → StandHolds at links → IsFolded at → IsTrue (turns_fit at turns)
        → IsFolded (turns_stand at turns) }
    ensures log { (first : Turn) (turns : List Turn) → IsTrue (turns_fit nothing (first ∷ turns))
        → IsFolded (turns_stand nothing (first ∷ turns)) }
{}

/// Law: few turns leave a state that is small enough for a checkpoint, where the epoch has given few serials: no turn adds more than
/// one folder, file, holder, grant or epoch.
pub fn few_turns_leave_few_rows()
    ensures { (turns : List Turn) (v : PublicView) → IsSeenAs v (turns_stand nothing turns) → length turns < 2 ^ 28 → v.keys.count < 2 ^ 30
        → AreFew v }
{}
