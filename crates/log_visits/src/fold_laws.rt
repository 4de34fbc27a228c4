//! Laws of what a log folds to.
ghost use Rattle.std.specs.Prelude.{◌≡◌, ◌∷◌, IsTrue, List, Ok, is_some};
ghost use Rattle.cry_base.specs.Sets.{In};
ghost use Rattle.cry_base.specs.declared.roles.Edge.{Edge};
ghost use Rattle.cry_base.specs.declared.roles.Role.TheVariants.{Owner};
ghost use Rattle.commit_journal.specs.Placed.{PlainPlaced};
ghost use Rattle.role_graph.specs.Edges.{edges};
ghost use Rattle.public_fold.specs.Fitted.{has_link_head};
ghost use Rattle.public_fold.specs.Journal.{Stand, nothing};
ghost use Rattle.public_fold.specs.KeyStep.{present};
ghost use Rattle.public_fold.specs.Records.{Link};
ghost use Rattle.public_fold.specs.Turns.{StandHolds};
ghost use Rattle.log_visits.specs.Folding.{folded};
ghost use Rattle.log_visits.specs.Placing.{PlacedLink, link_for, log_links};

/// Law: what a log folds to holds, whoever wrote its payloads: the store is rooted, and its keys and their serials are as they
/// should be, with links of which each has its record in the log.
pub fn folded_logs_hold()
    ensures { (first : PlainPlaced) (log : List PlainPlaced) (stand : Stand) → folded nothing (first ∷ log) ≡ Ok stand →
        (links : List Link) × StandHolds stand links
        × ((l : Link) → In l links → (p : PlacedLink) × In p (log_links (first ∷ log)) × IsTrue (has_link_head l p.link)) }
{}

/// Law: a log that folds has a record for each edge that stands then, from the present key of its source to the present key
/// of its target, so no visit to a key lacks its record.
pub fn each_edge_has_its_record()
    ensures { (log : List PlainPlaced) (stand : Stand) → folded nothing log ≡ Ok stand → (e : Edge) → In e (edges stand.store)
        → IsTrue (is_some (link_for stand.keys log e)) }
{}

/// Law: whatever a log folds to, the owner's key has the serial 0: no payload renews it.
pub fn owners_key_is_the_first()
    ensures { (log : List PlainPlaced) (stand : Stand) → folded nothing log ≡ Ok stand → present stand.keys.keys Owner ≡ 0 }
{}
