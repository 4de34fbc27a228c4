//! Laws of scripts.
ghost use Rattle.std.specs.Prelude.{◌≡◌, [], ◌∷◌, Some};
ghost use Rattle.cry_base.specs.Requests.{Request};
ghost use Rattle.cry_base.specs.declared.commands.Refusal.{Refusal};
ghost use Rattle.cry_base.specs.declared.commands.Reply.TheVariants.{Refused};
ghost use Rattle.cry_base.specs.declared.limits.Limits.{Limits};
ghost use Rattle.journal_bytes.specs.Script.{Going, answer, script_going, script_replies};

/// A refused command changes nothing, and draws nothing.
pub fn refused_changes_nothing()
    ensures stays { (limits : Limits) (g : Going) (r : Request) (why : Refusal) →
        answer limits g.journal g.begun r ≡ Some why → script_going limits g (r ∷ []) ≡ g }
    ensures reply { (limits : Limits) (g : Going) (r : Request) (why : Refusal) →
        answer limits g.journal g.begun r ≡ Some why → script_replies limits g (r ∷ []) ≡ Refused why ∷ [] }
{}
