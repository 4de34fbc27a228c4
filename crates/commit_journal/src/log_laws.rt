//! Laws of the logs, as whoever reads them reads them.
ghost use Rattle.std.specs.List.{sum_by};
ghost use Rattle.std.specs.Prelude.{◌≡◌, ◌++◌, ◌+◌, ◌≤◌, List, ℕ, drop, length, Ok};
ghost use Rattle.cry_base.specs.Layout.{batch_len, header_len};
ghost use Rattle.cry_base.specs.Limits.{most_store_bytes};
ghost use Rattle.commit_journal.specs.Answering.{and_then};
ghost use Rattle.commit_journal.specs.Image.{Batch};
ghost use Rattle.commit_journal.specs.Laws.{AreBodies, batches_from, placed_from};
ghost use Rattle.commit_journal.specs.Log.{turn_at, start_at, log_verdict};
ghost use Rattle.commit_journal.specs.Logs.{walk_at, holder_log, writer_log, AreInEpochs};
ghost use Rattle.commit_journal.specs.Placed.{PlainBody, PlainPlaced};
ghost use Rattle.commit_journal.specs.Standing.{StandsFor};

/// Law: the walk from gate to gate, by the turns of a reader who has the owner's key, gives that reader's log.
pub fn owner_walks_the_log()
    ensures { (owner bytes : List ℕ) → and_then (start_at owner bytes) (λ past. walk_at (turn_at owner) past 0 (drop header_len bytes))
        ≡ log_verdict owner bytes }
{}

/// Law: what a holder, or the owner who opens for writing, reads as a log is read as the same log with more bytes behind it.
pub fn nobody_looks_behind()
    ensures holder { (front behind : List ℕ) (placed : List PlainPlaced) → holder_log front ≡ Ok placed
        → holder_log (front ++ behind) ≡ Ok placed }
    ensures writer { (owner front behind : List ℕ) (placed : List PlainPlaced) → writer_log owner front ≡ Ok placed
        → writer_log owner (front ++ behind) ≡ Ok placed }
{}

/// Law: where the owner reads a log, a holder reads the same.
pub fn holder_reads_the_owners_log()
    ensures { (owner bytes : List ℕ) (log : List PlainPlaced) → log_verdict owner bytes ≡ Ok log → holder_log bytes ≡ Ok log }
{}

/// Law: in a log that the owner reads, an epoch batch begins the next epoch, and a command stands in the last one begun.
pub fn epochs_count_up()
    ensures { (owner bytes : List ℕ) (log : List PlainPlaced) → log_verdict owner bytes ≡ Ok log → AreInEpochs 0 log }
{}

/// Law: in the log that the owner reads who opens for writing, too, an epoch batch begins the next epoch, and a command
/// stands in the last one begun.
pub fn writers_epochs_count_up()
    ensures { (owner bytes : List ℕ) (log : List PlainPlaced) → writer_log owner bytes ≡ Ok log → AreInEpochs 0 log }
{}

/// Law: bytes that stand for batches are opened for writing as these very batches, whatever the last slot holds.
pub fn standing_bytes_are_opened_whole()
    ensures { (owner : List ℕ) (bodies : List PlainBody) (bytes : List ℕ) → StandsFor owner (batches_from 0 0 bodies) bytes
        → AreBodies 0 bodies →
        header_len + sum_by (λ (b : Batch). batch_len + length b.payload) (batches_from 0 0 bodies) ≤ most_store_bytes
        → writer_log owner bytes ≡ Ok (placed_from header_len 0 0 bodies) }
{}
