//! Laws of what the replacement of a holder leaves.
ghost use Rattle.std.specs.Prelude.{◌≡◌, ◌⊎◌, ℕ, Bool, List, [], ◌∷◌, ◌++◌, Some, None, IsSome, codes};
ghost use Rattle.cry_base.specs.Requests.{Request};
ghost use Rattle.cry_base.specs.Requests.Request.{Revoke};
ghost use Rattle.cry_base.specs.Store.{holder_entry};
ghost use Rattle.cry_base.specs.declared.commands.Refusal.TheVariants.{Full, NoHolder};
ghost use Rattle.cry_base.specs.declared.limits.Limits.{Limits};
ghost use Rattle.closure_laws.specs.Gains.{IsWritten};
ghost use Rattle.closure_laws.specs.History.{DerivesFor};
ghost use Rattle.closure_laws.specs.Secrecy.{GainsLater};
ghost use Rattle.commit_journal.specs.Holding.{IsPrefix};
ghost use Rattle.group_book.specs.Asked.{up_to_refusal};
ghost use Rattle.group_book.specs.Replacing.{stands_for};
ghost use Rattle.group_laws.specs.Handing.{IsHandedOn, NoneIsRefused};
ghost use Rattle.journal_bytes.specs.Script.{Going, answer, script_going, script_replies};
ghost use Rattle.public_fold.specs.Journal.{Entry, Journal, nothing, stand_after, store_of};
ghost use Rattle.public_fold.specs.Records.{Content};
ghost use Rattle.public_fold.specs.Valid.{IsValid};
ghost use Rattle.role_graph.specs.Rights.{granted_to};
ghost use Rattle.role_graph.specs.Rights.Who.{TheHolder};

use clearance_laws::laws::first_version_stores_grant_no_files;

/// Where none of the commands that a holder's replacement stands for is refused, the old holder has no grant and is shown nothing, the
/// new one has and is shown what the old one had and was shown, and everybody else what they had and were.
pub fn replacements_hand_on()
    ensures { (limits : Limits) (g : Going) (n : ℕ) → IsValid g.journal → IsSome (holder_entry (store_of g.journal) n)
        → NoneIsRefused (script_replies limits g (stands_for (store_of g.journal) n))
        → IsHandedOn (store_of g.journal) (store_of (script_going limits g (stands_for (store_of g.journal) n)).journal) n }
{}

/// Commands are asked in order, each behind accepted ones alone, and all of them where none is refused.
pub fn commands_are_asked_up_to_a_refusal()
    ensures whole { (limits : Limits) (g : Going) (commands : List Request)
        → NoneIsRefused (script_replies limits g (up_to_refusal limits g commands))
        → up_to_refusal limits g commands ≡ commands }
    ensures front { (limits : Limits) (g : Going) (commands : List Request) → IsPrefix (up_to_refusal limits g commands) commands }
    ensures accepted { (limits : Limits) (g : Going) (commands front : List Request) (next : Request) (more : List Request)
        → up_to_refusal limits g commands ≡ front ++ next ∷ more → NoneIsRefused (script_replies limits g front) }
{}

/// Nothing refuses one of the commands, behind those before it that were accepted, but a full store.
pub fn replacements_are_refused_as_full_alone()
    ensures { (limits : Limits) (g : Going) (n : ℕ) → IsValid g.journal → IsSome (holder_entry (store_of g.journal) n)
        → (front : List Request) (next : Request) (rest : List Request) → stands_for (store_of g.journal) n ≡ front ++ next ∷ rest
        → NoneIsRefused (script_replies limits g front)
        → (answer limits (script_going limits g front).journal (script_going limits g front).begun next ≡ None)
        ⊎ (answer limits (script_going limits g front).journal (script_going limits g front).begun next ≡ Some Full) }
{
    first_version_stores_grant_no_files();
}

/// The replacement of a number that no holder has is refused for that, and is one command.
pub fn unknown_holders_are_refused()
    ensures { (limits : Limits) (m : Journal) (begun : Bool) (n : ℕ) → IsValid m → holder_entry (store_of m) n ≡ None
        → (stands_for (store_of m) n ≡ Revoke n (codes "/") ∷ []) × (answer limits m begun (Revoke n (codes "/")) ≡ Some NoHolder) }
{}

/// A holder without grants derives nothing that is written later, as long as no later entry is a gain for the holder.
pub fn replaced_holders_learn_nothing_new()
    ensures { (m later : Journal) (h : ℕ) → IsValid (m ++ later) → granted_to (store_of m) h ≡ []
        → (GainsLater (stand_after nothing m) later h → ⊥)
        → (front : Journal) (entry : Entry) (back : Journal) (c : Content) → later ≡ front ++ entry ∷ back → IsWritten (m ++ front) entry c
        → DerivesFor (m ++ later) (TheHolder h) c → ⊥ }
{}
