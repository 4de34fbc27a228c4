//! Laws of what visits of a log may fail at, whoever wrote it.
ghost use Rattle.std.specs.Prelude.{◌≡◌, Err, List, Ok, ℕ};
ghost use Rattle.commit_journal.specs.Answering.{Damaged, Fault};
ghost use Rattle.commit_journal.specs.Logs.{writer_log};
ghost use Rattle.commit_journal.specs.Placed.{PlainPlaced};
ghost use Rattle.cry_base.specs.Layout.{header_len};
ghost use Rattle.cry_base.specs.declared.client.Bundle.{Bundle};
ghost use Rattle.log_visits.specs.Folding.{folded};
ghost use Rattle.log_visits.specs.Judging.{bundle_log, who_of};
ghost use Rattle.log_visits.specs.Visiting.{Opened, Reading};
ghost use Rattle.public_fold.specs.Journal.{Stand, nothing};
ghost use Rattle.reader_laws.specs.Failing.{IsOfRecord};
ghost use Rattle.reader_laws.specs.Readers.{all_visited, files_visited, names_visited, visited_to_write};
ghost use Rattle.reader_laws.specs.Reading.{AreAllowed};

/// Law: where the payloads of a log can be followed, whoever wrote them, no visit of a reader's lacks its key or its record,
/// whatever key the bundle has: if one fails, then at a record that the log holds. So neither do those of the owner who opens the
/// store for writing.
pub fn visits_fail_at_records_alone()
    ensures names { (bundle : Bundle) (log : List PlainPlaced) (stand : Stand) (fault : Fault) → folded nothing log ≡ Ok stand
        → names_visited bundle (record { log = log; stand = stand }) ≡ Err fault → IsOfRecord log fault }
    ensures files { (bundle : Bundle) (log : List PlainPlaced) (stand : Stand) (xs : List ℕ) (named : Opened) (fault : Fault)
        → folded nothing log ≡ Ok stand → AreAllowed stand.store (who_of bundle) xs
        → let r : Reading = record { log = log; stand = stand } in
        names_visited bundle r ≡ Ok named → files_visited bundle r xs named ≡ Err fault → IsOfRecord log fault }
    ensures all { (bundle : Bundle) (log : List PlainPlaced) (stand : Stand) (fault : Fault) → folded nothing log ≡ Ok stand
        → all_visited bundle (record { log = log; stand = stand }) ≡ Err fault → IsOfRecord log fault }
    ensures writing { (key : List ℕ) (log : List PlainPlaced) (stand : Stand) (fault : Fault) → folded nothing log ≡ Ok stand
        → visited_to_write key (record { log = log; stand = stand }) ≡ Err fault → IsOfRecord log fault }
{}

/// Law: of a store's bytes whose log was read and folds, no visit answers that they are damaged at the header's end, at 42, as
/// one without its key or its record would: each record stands behind the header.
pub fn nothing_wants_at_visits()
    ensures names { (bundle : Bundle) (bytes : List ℕ) (log : List PlainPlaced) (stand : Stand)
        → bundle_log bundle bytes ≡ Ok log → folded nothing log ≡ Ok stand
        → names_visited bundle (record { log = log; stand = stand }) ≡ Err (Damaged header_len) → ⊥ }
    ensures files { (bundle : Bundle) (bytes : List ℕ) (log : List PlainPlaced) (stand : Stand) (xs : List ℕ) (named : Opened)
        → bundle_log bundle bytes ≡ Ok log → folded nothing log ≡ Ok stand → AreAllowed stand.store (who_of bundle) xs
        → let r : Reading = record { log = log; stand = stand } in
        names_visited bundle r ≡ Ok named → files_visited bundle r xs named ≡ Err (Damaged header_len) → ⊥ }
    ensures all { (bundle : Bundle) (bytes : List ℕ) (log : List PlainPlaced) (stand : Stand)
        → bundle_log bundle bytes ≡ Ok log → folded nothing log ≡ Ok stand
        → all_visited bundle (record { log = log; stand = stand }) ≡ Err (Damaged header_len) → ⊥ }
    ensures writing { (key bytes : List ℕ) (log : List PlainPlaced) (stand : Stand)
        → writer_log key bytes ≡ Ok log → folded nothing log ≡ Ok stand
        → visited_to_write key (record { log = log; stand = stand }) ≡ Err (Damaged header_len) → ⊥ }
{}
