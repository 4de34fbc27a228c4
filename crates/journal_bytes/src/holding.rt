//! Laws of what a disk holds of journals while calls write it.
ghost use Rattle.std.specs.Prelude.{◌≤◌, ℕ, List};
ghost use Rattle.commit_journal.specs.Holding.{GoesOn, IsPrefix};
ghost use Rattle.public_fold.specs.Journal.{Journal};
ghost use Rattle.journal_bytes.specs.Journals.{HoldsBetween, IsSettled, Kept};

use cry_io::Disk;

/// Law: a disk that is settled at a journal holds it and no other.
pub fn settled_disk_holds_its_journal<D: Disk>(disk: &D)
    ensures { (owner : List ℕ) (m : Journal) → IsSettled owner m (D.shown disk.now) (D.may_leave disk.now) →
        HoldsBetween owner m m (D.shown disk.now) (D.may_leave disk.now) }
{}

/// Law: a disk that holds between two journals holds between any that lie further apart.
pub fn journals_are_widened<D: Disk>(disk: &D)
    ensures { (owner : List ℕ) (low high lower higher : Journal) → IsPrefix lower low → IsPrefix high higher →
        HoldsBetween owner low high (D.shown disk.now) (D.may_leave disk.now) →
        HoldsBetween owner lower higher (D.shown disk.now) (D.may_leave disk.now) }
{}

/// Law: a call that has done nothing kept the journals that its disk holds.
pub fn journals_kept_at_the_start<D: Disk>(disk: &D)
    ensures { (owner : List ℕ) (low high reached : Journal) → HoldsBetween owner low high (D.shown disk.now) (D.may_leave disk.now) →
        Kept owner low high reached (D.since disk.now (D.moment disk.now)) }
{}

/// Law: of two calls one after the other, the first kept two journals up to what it reached. Together they kept the same two
/// up to what the second reached, if the second one's journals lie between.
pub fn journals_kept_by_two_calls<D: Disk>(between: &D, after: &D)
    ensures { (owner : List ℕ) (low high reached a b further : Journal) (first start : ℕ) →
        first ≤ start → GoesOn start (D.since between.now) (D.since after.now) →
        IsPrefix low a → IsPrefix b further → IsPrefix reached further →
        Kept owner low high reached (D.since between.now first) → Kept owner a b further (D.since after.now start) →
        Kept owner low high further (D.since after.now first) }
{}
