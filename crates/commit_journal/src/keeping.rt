//! Laws of what a disk holds while calls write it.
ghost use Rattle.std.specs.Prelude.{◌≤◌, ℕ, List};
ghost use Rattle.cry_io.specs.Stops.{Elapses};
ghost use Rattle.commit_journal.specs.Holding.{GoesOn, HoldsBetween, IsPrefix, IsSettled, Kept};
ghost use Rattle.commit_journal.specs.Image.{Batch};
ghost use Rattle.commit_journal.specs.Standing.{StandsFor, StandsWhole};

use cry_io::Disk;

/// Law: a disk that is settled holds its batches and no others.
pub fn settled_disk_holds<D: Disk>(disk: &D)
    ensures { (owner : List ℕ) (bs : List Batch) →
        IsSettled (StandsWhole owner) bs (D.shown disk.now) (D.may_leave disk.now) →
        HoldsBetween (StandsFor owner) bs bs (D.shown disk.now) (D.may_leave disk.now) }
{}

/// Law: a disk that holds between two lists holds between any that lie further apart.
pub fn holding_is_widened<D: Disk>(disk: &D)
    ensures { (owner : List ℕ) (low high lower higher : List Batch) → IsPrefix lower low → IsPrefix high higher →
        HoldsBetween (StandsFor owner) low high (D.shown disk.now) (D.may_leave disk.now) →
        HoldsBetween (StandsFor owner) lower higher (D.shown disk.now) (D.may_leave disk.now) }
{}

/// Law: a call that has done nothing kept what its disk holds.
pub fn kept_at_the_start<D: Disk>(disk: &D)
    ensures { (owner : List ℕ) (low high reached : List Batch) →
        HoldsBetween (StandsFor owner) low high (D.shown disk.now) (D.may_leave disk.now) →
        Kept (StandsFor owner) low high reached (D.since disk.now (D.moment disk.now)) }
{}

/// Law: of two calls one after the other, the first kept two lists up to what it reached. Together they kept the same two up
/// to what the second reached, if the second one's lists lie between.
pub fn kept_by_two_calls<D: Disk>(between: &D, after: &D)
    ensures { (owner : List ℕ) (low high reached a b further : List Batch) (first start : ℕ) →
        first ≤ start → GoesOn start (D.since between.now) (D.since after.now) →
        IsPrefix low a → IsPrefix b further → IsPrefix reached further →
        Kept (StandsFor owner) low high reached (D.since between.now first) →
        Kept (StandsFor owner) a b further (D.since after.now start) →
        Kept (StandsFor owner) low high further (D.since after.now first) }
{}

/// Law: time goes on in one call of a disk, and in two calls one after the other.
pub fn time_goes_on<D: Disk>(before: &D, between: &D, after: &D)
    ensures one { Elapses (D.moment before.now) (D.moment between.now) (D.since before.now) (D.since between.now) (D.shown between.now)
        (D.may_leave between.now) →
        GoesOn (D.moment before.now) (D.since before.now) (D.since between.now) }
    ensures two { D.moment before.now ≤ D.moment between.now →
        GoesOn (D.moment before.now) (D.since before.now) (D.since between.now) →
        GoesOn (D.moment between.now) (D.since between.now) (D.since after.now) →
        GoesOn (D.moment before.now) (D.since before.now) (D.since after.now) }
{}
