//! Laws of what a log answers, without a walk.
ghost use Rattle.std.specs.Prelude.{◌≡◌, ◌↔◌, List, Ok, Result, ℕ};
ghost use Rattle.cry_base.specs.Limits.{most_store_bytes};
ghost use Rattle.commit_journal.specs.Answering.{Fault, and_then};
ghost use Rattle.commit_journal.specs.Log.{log_verdict};
ghost use Rattle.commit_journal.specs.Logs.{holder_log, writer_log};
ghost use Rattle.commit_journal.specs.Opening.{OwnedLog, opening_verdict};
ghost use Rattle.commit_journal.specs.Placed.{PlainPlaced};
ghost use Rattle.reader_laws.specs.Spans.{AreRead, EndsBehind, HolderReads, IsAnswer, LogReader, OwnerReads, OwnerWrites, Span};

/// Law: the walk from gate to gate of who reads a log answers exactly what its bytes answer by where the batches stand and which
/// test fails first: for the owner, for a holder, for the owner who opens a store for writing, and within any limit of that store.
pub fn walks_answer_by_spans()
    ensures owner { (owner bytes : List ℕ) (answer : Result (List PlainPlaced) Fault)
        → (log_verdict owner bytes ≡ answer) ↔ IsAnswer (OwnerReads owner) bytes answer }
    ensures holder { (bytes : List ℕ) (answer : Result (List PlainPlaced) Fault)
        → (holder_log bytes ≡ answer) ↔ IsAnswer HolderReads bytes answer }
    ensures writer { (owner bytes : List ℕ) (answer : Result (List PlainPlaced) Fault)
        → (writer_log owner bytes ≡ answer) ↔ IsAnswer (OwnerWrites owner most_store_bytes) bytes answer }
    ensures opened { (limit : ℕ) (owner bytes : List ℕ) (answer : Result (List PlainPlaced) Fault)
        → (and_then (opening_verdict limit owner bytes) (λ (log : OwnedLog). Ok log.placed) ≡ answer)
        ↔ IsAnswer (OwnerWrites owner limit) bytes answer }
{}

/// Law: so bytes answer one thing to each reader, and no other.
pub fn bytes_answer_once()
    ensures { (who : LogReader) (bytes : List ℕ) → (answer : Result (List PlainPlaced) Fault) × IsAnswer who bytes answer
        × ((other : Result (List PlainPlaced) Fault) → IsAnswer who bytes other → other ≡ answer) }
{}

/// Law: a log is opened for writing exactly where its batches are so read and the gate behind them is closed, and then what the next
/// batch follows, the number, the epoch, the place and the tag, is what is known there.
pub fn opened_logs_end_behind_their_spans()
    ensures { (limit : ℕ) (owner bytes : List ℕ) (log : OwnedLog) → (opening_verdict limit owner bytes ≡ Ok log)
        ↔ ((spans : List Span) × AreRead (OwnerWrites owner limit) bytes spans log.placed × EndsBehind bytes spans log) }
{}
