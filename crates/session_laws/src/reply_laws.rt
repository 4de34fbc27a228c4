//! Laws of what lines are answered whatever keys the sessions have.
ghost use Rattle.std.specs.Prelude.{◌≡◌, ◌++◌, [], List, ℕ};
ghost use Rattle.cry_base.specs.declared.limits.Limits.{Limits};
ghost use Rattle.journal_bytes.specs.Keys.{AreWhole};
ghost use Rattle.journal_bytes.specs.Script.{Going};
ghost use Rattle.public_fold.specs.Valid.{IsValid};
ghost use Rattle.script_text.specs.Seats.{Turn};
ghost use Rattle.session_laws.specs.Replying.{AnswersTurns};
ghost use Rattle.session_laws.specs.Serving.{HaveHonestKeys, Serving, served_text, served_then};

/// Law: lines are answered by one text alone, whatever keys the sessions have; and what is printed to more of them comes behind what was
/// printed before.
pub fn lines_are_answered_once()
    ensures once { (owner : List ℕ) (limits : Limits) (s : Serving) (turns : List Turn) (one other : List ℕ) →
        AnswersTurns owner limits s turns one → AnswersTurns owner limits s turns other → one ≡ other }
    ensures follow { (owner : List ℕ) (limits : Limits) (s : Serving) (first more : List Turn) (text rest : List ℕ) →
        AnswersTurns owner limits s first text → AnswersTurns owner limits (served_then limits s first) more rest →
        AnswersTurns owner limits s (first ++ more) (text ++ rest) }
{}

/// Law: that text is what the definition of seats says, if each session's key that has the check of a holder's is the holder's.
pub fn honest_views_are_shown()
    ensures { (owner : List ℕ) (limits : Limits) (going : Going) (turns : List Turn) (text : List ℕ)
        → let s : Serving = record { going = going; seats = [] } in
        IsValid (served_then limits s turns).going.journal → AreWhole owner (served_then limits s turns).going.journal
        → HaveHonestKeys (served_then limits s turns).going.journal turns
        → AnswersTurns owner limits s turns text → text ≡ served_text limits s turns }
{}
