//! Laws of notes that fit, whatever made them: no accepted command need stand behind one.
ghost use Rattle.std.specs.Prelude.{◌<◌, ℕ, IsTrue, List, ◌∷◌};
ghost use Rattle.cry_base.specs.Sets.{In};
ghost use Rattle.cry_base.specs.declared.roles.Role.{Role};
ghost use Rattle.role_graph.specs.Edges.{edges};
ghost use Rattle.role_graph.specs.Roles.{is_root_role};
ghost use Rattle.move_plan.specs.Change.{change_of};
ghost use Rattle.move_plan.specs.Fitting.{fits};
ghost use Rattle.record_format.specs.Noted.{Note};
ghost use Rattle.public_fold.specs.Fitted.{told_stand, told_step};
ghost use Rattle.public_fold.specs.Journal.{Stand, nothing};
ghost use Rattle.public_fold.specs.Keyed.{KeysHold};
ghost use Rattle.public_fold.specs.KeyStep.{is_strict, next_serial};
ghost use Rattle.public_fold.specs.Rooted.{MayStand};
ghost use Rattle.public_fold.specs.Turns.{Turn, turns_fit, turns_stand};
ghost use Rattle.secrecy_laws.specs.Holding.{Holds};
ghost use Rattle.secrecy_laws.specs.NotedPasts.{past_note, past_turns};
ghost use Rattle.secrecy_laws.specs.Pasts.{Past, move_of, no_past, state_of};
ghost use Rattle.secrecy_laws.specs.States.{Fits, IsStep};

/// The key step of a note that fits is a step of the laws over any roles, and keeps to what a step has to.
pub fn fitting_notes_are_steps()
    ensures step { (at : Stand) (note : Note) (p : Past)
        → IsTrue (fits (is_strict at.keys) at.store note) → MayStand at.store → KeysHold at.store at.keys p.links
        → ((key : Role × ℕ) → In key p.made → key.1 < next_serial at.keys)
        → IsStep (state_of at p) (move_of (edges at.store) (change_of (is_strict at.keys) at.store note) (told_step at note))
        (state_of (told_stand at note) (past_note at p note)) }
    ensures fits { (at : Stand) (note : Note) (p : Past)
        → IsTrue (fits (is_strict at.keys) at.store note) → MayStand at.store → KeysHold at.store at.keys p.links
        → ((key : Role × ℕ) → In key p.made → key.1 < next_serial at.keys)
        → Fits is_root_role (state_of at p) (move_of (edges at.store) (change_of (is_strict at.keys) at.store note) (told_step at note))
        (state_of (told_stand at note) (past_note at p note)) }
{}

/// What holds of keys over any roles holds after any turns, each of which fits where it comes, from nothing on; and so after any log of
/// payloads that fit.
pub fn keys_are_traced_after_turns_that_fit()
    ensures { (first : Turn) (turns : List Turn) → IsTrue (turns_fit nothing (first ∷ turns))
        → Holds is_root_role (state_of (turns_stand nothing (first ∷ turns)) (past_turns nothing no_past (first ∷ turns))) }
{}
