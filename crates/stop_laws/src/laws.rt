//! Laws of calls of the program over one store, with stops in and between them.
ghost use Rattle.std.specs.Prelude.{ℕ, List, ◌++◌, Option, Some};
ghost use Rattle.batch_log.specs.Moments.{FromThenOn};
ghost use Rattle.commit_journal.specs.Holding.{IsPrefix};
ghost use Rattle.cry_base.specs.Requests.{Request};
ghost use Rattle.cry_base.specs.declared.limits.Limits.{Limits};
ghost use Rattle.cry_io.specs.Stops.{IsDurable};
ghost use Rattle.cli_upgrading.specs.Upgrading.{IsAccepted};
ghost use Rattle.public_fold.specs.Journal.{Journal};
ghost use Rattle.journal_bytes.specs.Journals.{HoldsBetween, ShowsJournal};
ghost use Rattle.journal_bytes.specs.Script.{Going, script_going};
ghost use Rattle.script_text.specs.Printing.{spell_reply};
ghost use Rattle.stop_laws.specs.Coming.{IsOfRuns};
ghost use Rattle.store_owner.specs.Published.{HasPublished, StaysPublished};
ghost use Rattle.stop_laws.specs.Runs.{CallOver, HoldsAll, HoldsUpgrade, IsLeft, Runs, WasShown};

use cry_base::Reply;
use cry_io::Disk;

/// Law: the journal of a session over some commands begins with that over the first ones: so a journal that has all that were answered has
/// each that was acknowledged.
pub fn sessions_take_nothing_back()
    ensures { (limits : Limits) (g : Going) (first more : List Request) →
        IsPrefix (script_going limits g first).journal (script_going limits g (first ++ more)).journal }
{}

/// Law: a journal of which it is said that it has an upgrade, where that was acknowledged, begins with what this made, where the whole line
/// `ok` was printed.
pub fn told_upgrades_are_held()
    ensures { (key : List ℕ) (was : Option (List ℕ)) (written : List ℕ) (j : Journal) →
        HoldsUpgrade key was (Some written) (Some (written ++ spell_reply Reply.Done)) j →
        (m now : Journal) × (drawn : List (List ℕ)) × ShowsJournal key m was × IsAccepted m drawn Reply.Done now × IsPrefix now j }
{}

/// Law: over every list of calls and stops, whatever is left stands for a journal that begins with the first one, and with each
/// command that any of the calls acknowledged, and each upgrade that was.
pub fn stops_leave_what_was_acknowledged<D: Disk>(start: &D, now: &D)
    ensures { (key : List ℕ) (m1 m2 : Journal) → HoldsBetween key m1 m2 (D.shown start.now) (D.may_leave start.now) →
        (runs : Runs D.Disk key start.now now.now) →
        (low high : Journal) × IsPrefix m1 low × HoldsBetween key low high (D.shown now.now) (D.may_leave now.now) ×
        HoldsAll D.Disk key start.now now.now runs low }
{}

/// Law: over every list of calls and stops, whatever a stop leaves behind them stands for a journal of theirs: it begins with the first one
/// and has each command that any of the calls acknowledged, and each upgrade that was; and it has nothing but commands and upgrades that
/// were accepted, in their order.
pub fn stops_leave_nothing_but_accepted_commands<D: Disk>(start: &D, now: &D)
    ensures { (key : List ℕ) (m1 m2 : Journal) → HoldsBetween key m1 m2 (D.shown start.now) (D.may_leave start.now) →
        (runs : Runs D.Disk key start.now now.now) (bytes : List ℕ) → D.may_leave now.now bytes →
        IsOfRuns D.Disk key m1 m2 start.now now.now runs bytes }
{}

/// Law: over every list of calls and stops, a stop at any moment of a call, whatever that ended with, leaves all batches that were
/// published then or at an earlier moment of that call, where so it was at the start; and so does a stop behind the call. Whatever
/// further calls and stops leave behind a stop in it has them too.
pub fn nothing_published_is_taken_back<D: Disk>(
    start: &D,
    before: &D,
    after: &D,
    next: &D,
    last: &D,
)
    ensures now { (key : List ℕ) (m1 m2 : Journal) → HoldsBetween key m1 m2 (D.shown start.now) (D.may_leave start.now) →
        StaysPublished key (D.shown start.now) (D.may_leave start.now) →
        Runs D.Disk key start.now before.now → CallOver D.Disk key before.now after.now →
        FromThenOn D.moment D.since before.now after.now (HasPublished key) }
    ensures ends { (key : List ℕ) (m1 m2 : Journal) → HoldsBetween key m1 m2 (D.shown start.now) (D.may_leave start.now) →
        StaysPublished key (D.shown start.now) (D.may_leave start.now) →
        Runs D.Disk key start.now before.now → CallOver D.Disk key before.now after.now →
        (shown left bytes : List ℕ) → D.since after.now (D.moment before.now) shown left → D.may_leave after.now bytes →
        HasPublished key shown bytes }
    ensures later { (key : List ℕ) (m1 m2 : Journal) → HoldsBetween key m1 m2 (D.shown start.now) (D.may_leave start.now) →
        StaysPublished key (D.shown start.now) (D.may_leave start.now) →
        Runs D.Disk key start.now before.now → CallOver D.Disk key before.now after.now →
        FromThenOn D.moment D.since before.now after.now (λ shown left. (bytes : List ℕ) → IsLeft D.Disk left next.now →
        Runs D.Disk key next.now last.now → D.may_leave last.now bytes →
        HasPublished key shown bytes) }
{}

/// Law: over every list of calls and stops, whatever a stop leaves behind them has all batches that were published at any moment of the
/// calls that came to their end, or behind them or a stop, where so it was at the start.
pub fn what_was_published_is_never_lost<D: Disk>(start: &D, now: &D)
    ensures { (key : List ℕ) (m1 m2 : Journal) → HoldsBetween key m1 m2 (D.shown start.now) (D.may_leave start.now) →
        StaysPublished key (D.shown start.now) (D.may_leave start.now) →
        (runs : Runs D.Disk key start.now now.now) (shown bytes : List ℕ) →
        WasShown D.Disk key start.now now.now runs shown → D.may_leave now.now bytes →
        HasPublished key shown bytes }
{}

/// Law: so it is with a disk on which nothing is pending; and over every list of calls and stops, behind them no stop takes back what is
/// published then.
pub fn what_is_published_stays<D: Disk>(start: &D, now: &D)
    ensures calm { (key : List ℕ) → IsDurable (D.may_leave start.now) (D.shown start.now)
        → StaysPublished key (D.shown start.now) (D.may_leave start.now) }
    ensures stays { (key : List ℕ) (m1 m2 : Journal) → HoldsBetween key m1 m2 (D.shown start.now) (D.may_leave start.now) →
        StaysPublished key (D.shown start.now) (D.may_leave start.now) →
        Runs D.Disk key start.now now.now →
        StaysPublished key (D.shown now.now) (D.may_leave now.now) }
{}
