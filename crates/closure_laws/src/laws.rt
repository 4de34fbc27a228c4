//! Laws of histories.
ghost use Rattle.std.specs.Prelude.{◌≡◌, ◌↔◌, ◌++◌, ℕ, List, IsTrue};
ghost use Rattle.cry_base.specs.Sets.{In};
ghost use Rattle.public_fold.specs.Journal.{Stand, Entry, Journal};
ghost use Rattle.role_graph.specs.Rights.{Who};
ghost use Rattle.closure_laws.specs.Seen.{Sight, seen, IsSeen};
ghost use Rattle.closure_laws.specs.Gains.{IsGain, gains};
ghost use Rattle.closure_laws.specs.History.{Published, Derives, derived, history};
ghost use Rattle.closure_laws.specs.Keeping.{HaveLinksOf, Leads, kept_with, nothing_kept};
ghost use Rattle.record_format.specs.declared.link.LinkRecord.{LinkRecord};

/// The serials that are derived by computing are those that trails of links lead to.
pub fn derived_is_by_trails()
    ensures { (h : List Published) (a b : ℕ) → In b (derived h a) ↔ Derives h a b }
{}

/// What the computing test calls a gain is one.
pub fn gains_are_told()
    ensures { (at : Stand) (entry : Entry) (h : ℕ) → IsTrue (gains at entry h) ↔ IsGain at entry h }
{}

/// What was published stays published, and what follows from a key goes on following.
pub fn history_grows()
    ensures published { (m more : Journal) → (rest : List Published) × (history (m ++ more) ≡ history m ++ rest) }
    ensures derived { (m more : Journal) (a b : ℕ) → Derives (history m) a b → Derives (history (m ++ more)) a b }
{}

/// What an audit shows is what the history holds and a trail from one's own key leads to, holders' keys apart.
pub fn seen_is_derived()
    ensures { (m : Journal) (who : Who) (x : Sight) → In x (seen m who) ↔ IsSeen m who x }
{}

/// A history of a journal's payloads derives what the journal's own does.
pub fn kept_links_derive()
    ensures { (m : Journal) (payloads : List (List LinkRecord)) → HaveLinksOf m payloads → (a b : ℕ) →
        Leads (kept_with nothing_kept payloads).links a b ↔ Derives (history m) a b }
{}
