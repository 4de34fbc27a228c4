//! Laws of opening for writing.
ghost use Rattle.std.specs.Prelude.{◌≡◌, ◌++◌, ◌∷◌, [], IsSome, IsTrue, List, ℕ, Ok, Err, true, false, map};
ghost use Rattle.commit_journal.specs.Answering.{Damaged, Fault};
ghost use Rattle.commit_journal.specs.Logs.{writer_log};
ghost use Rattle.commit_journal.specs.Placed.{PlainPlaced};
ghost use Rattle.cry_base.specs.Layout.{header_len};
ghost use Rattle.cry_base.specs.declared.roles.Role.{Role};
ghost use Rattle.cry_base.specs.declared.roles.Role.TheVariants.{Owner};
ghost use Rattle.log_visits.specs.Asking.{opened_store};
ghost use Rattle.log_visits.specs.Folding.{folded};
ghost use Rattle.log_visits.specs.Judging.{OfBytes};
ghost use Rattle.log_visits.specs.Opening.{is_no_holders, opened_by};
ghost use Rattle.log_visits.specs.Visiting.{Opened, Reading, key_of, visit_all};
ghost use Rattle.log_visits.specs.Visits.{all_visits, writing_visits};
ghost use Rattle.move_plan.specs.Fitting.{folder_stands};
ghost use Rattle.public_fold.specs.Journal.{Stand, nothing};
ghost use Rattle.public_fold.specs.Keyed.{HasRole};
ghost use Rattle.role_graph.specs.Rights.Who.{TheOwner};

/// Law: a store's bytes are opened for writing step by step, and the first step that fails tells why: the log under the
/// owner's key, what its payloads make, the root, and then the visits of the owner with the holders' keys and the
/// clearances of files behind them.
pub fn opening_goes_by_steps()
    ensures log { (owner bytes : List ℕ) (fault : Fault) → writer_log owner bytes ≡ Err fault
        → opened_store owner bytes ≡ Err (OfBytes fault) }
    ensures fold { (owner bytes : List ℕ) (log : List PlainPlaced) (fault : Fault) → writer_log owner bytes ≡ Ok log
        → folded nothing log ≡ Err fault →
        opened_store owner bytes ≡ Err (OfBytes fault) }
    ensures root { (owner bytes : List ℕ) (log : List PlainPlaced) (stand : Stand) → writer_log owner bytes ≡ Ok log
        → folded nothing log ≡ Ok stand → folder_stands stand.store 1 ≡ false →
        opened_store owner bytes ≡ Err (OfBytes (Damaged header_len)) }
    ensures visits { (owner bytes : List ℕ) (log : List PlainPlaced) (stand : Stand) → writer_log owner bytes ≡ Ok log
        → folded nothing log ≡ Ok stand → folder_stands stand.store 1 ≡ true →
        opened_store owner bytes ≡ opened_by (record { log = log; stand = stand })
        (visit_all (record { log = log; stand = stand }) (all_visits stand.store TheOwner
        ++ writing_visits stand.store) (record { keys = (Owner, owner) ∷ []; store = stand.store })) }
{}

/// Law: where all visits of the owner pass, a key of each role that stands is open, and the holders are those that stand; a
/// holder's own key is then in the holder's entry.
pub fn owners_visits_open_each_role()
    ensures keys { (r : Reading) (key : List ℕ) (o : Opened) →
        visit_all r (all_visits r.stand.store TheOwner
        ++ writing_visits r.stand.store) (record { keys = (Owner, key) ∷ []; store = r.stand.store }) ≡ Ok o →
        (role : Role) → HasRole r.stand.store role → IsTrue (is_no_holders role) → IsSome (key_of o.keys role) }
    ensures holders { (r : Reading) (key : List ℕ) (o : Opened) →
        visit_all r (all_visits r.stand.store TheOwner
        ++ writing_visits r.stand.store) (record { keys = (Owner, key) ∷ []; store = r.stand.store }) ≡ Ok o →
        map (λ e. e.number) o.store.holders ≡ map (λ e. e.number) r.stand.store.holders }
{}
