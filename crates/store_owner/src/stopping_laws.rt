//! Laws of what a stop leaves of an owner's calls: what a disk at rest holds, and how calls one after another add up.
ghost use Rattle.std.specs.Prelude.{◌≡◌, ◌≤◌, ℕ, List};
ghost use Rattle.cry_io.specs.Stops.{IsDurable};
ghost use Rattle.batch_log.specs.Moments.{FromThenOn};
ghost use Rattle.commit_journal.specs.Handing.{all_written, opening_writes};
ghost use Rattle.commit_journal.specs.Holding.{GoesOn, IsPrefix};
ghost use Rattle.cry_base.specs.Limits.{most_store_bytes};
ghost use Rattle.public_fold.specs.Journal.{Journal};
ghost use Rattle.public_fold.specs.Lengths.{end_of};
ghost use Rattle.journal_bytes.specs.Journals.{HoldsBetween, IsSettled, StandsForJournal};
ghost use Rattle.store_owner.specs.Opened.{IsFilled};
ghost use Rattle.store_owner.specs.Published.{HasPublished, StaysPublished};
ghost use Rattle.store_owner.specs.Stopping.{ComesToRest, RestsAt, StopsBetween};

use cry_io::Disk;

/// Law: a disk that rests at a journal is settled at it, and holds it and no other; it rests where it is settled and nothing is
/// pending; and a stop then takes nothing back.
pub fn resting_disk_is_settled<D: Disk>(disk: &D)
    ensures settled { (key : List ℕ) (m : Journal) → RestsAt key m (D.shown disk.now) (D.may_leave disk.now)
        → IsSettled key m (D.shown disk.now) (D.may_leave disk.now) }
    ensures holds { (key : List ℕ) (m : Journal) → RestsAt key m (D.shown disk.now) (D.may_leave disk.now)
        → HoldsBetween key m m (D.shown disk.now) (D.may_leave disk.now) }
    ensures rests { (key : List ℕ) (m : Journal) → IsSettled key m (D.shown disk.now) (D.may_leave disk.now)
        → IsDurable (D.may_leave disk.now) (D.shown disk.now)
        → RestsAt key m (D.shown disk.now) (D.may_leave disk.now) }
    ensures published { (key : List ℕ) (m : Journal) → RestsAt key m (D.shown disk.now) (D.may_leave disk.now)
        → StaysPublished key (D.shown disk.now) (D.may_leave disk.now) }
{}

/// Law: a call that does nothing lets no time pass, a disk that rests still rests, and no stop takes anything back.
pub fn disk_stands_still<D: Disk>(disk: &D)
    ensures time { GoesOn (D.moment disk.now) (D.since disk.now) (D.since disk.now) }
    ensures rests { (key : List ℕ) (m : Journal) → ComesToRest key m m (D.shown disk.now) (D.shown disk.now)
        (D.may_leave disk.now) (D.may_leave disk.now) (D.since disk.now (D.moment disk.now)) }
    ensures published { (key : List ℕ) (m : Journal) → RestsAt key m (D.shown disk.now) (D.may_leave disk.now)
        → FromThenOn D.moment D.since disk.now disk.now (HasPublished key) }
{}

/// Law: of two calls one after the other, the first came to rest at a journal, from which the second went on. Together a stop leaves what
/// lies between the first one's journal and the second one's; and the disk comes to rest where the second one does.
pub fn stops_of_two_calls<D: Disk>(before: &D, between: &D, after: &D)
    ensures stops { (key : List ℕ) (low middle high : Journal) → D.moment before.now ≤ D.moment between.now
        → GoesOn (D.moment between.now) (D.since between.now) (D.since after.now) → IsPrefix low middle → IsPrefix middle high
        → ComesToRest key low middle (D.shown before.now) (D.shown between.now) (D.may_leave before.now) (D.may_leave between.now)
        (D.since between.now (D.moment before.now))
        → StopsBetween key middle high (D.shown between.now) (D.shown after.now) (D.may_leave between.now) (D.may_leave after.now)
        (D.since after.now (D.moment between.now))
        → StopsBetween key low high (D.shown before.now) (D.shown after.now) (D.may_leave before.now) (D.may_leave after.now)
        (D.since after.now (D.moment before.now)) }
    ensures rests { (key : List ℕ) (low middle high : Journal) → D.moment before.now ≤ D.moment between.now
        → GoesOn (D.moment between.now) (D.since between.now) (D.since after.now) → IsPrefix low middle → IsPrefix middle high
        → ComesToRest key low middle (D.shown before.now) (D.shown between.now) (D.may_leave before.now) (D.may_leave between.now)
        (D.since between.now (D.moment before.now))
        → ComesToRest key middle high (D.shown between.now) (D.shown after.now) (D.may_leave between.now) (D.may_leave after.now)
        (D.since after.now (D.moment between.now))
        → ComesToRest key low high (D.shown before.now) (D.shown after.now) (D.may_leave before.now) (D.may_leave after.now)
        (D.since after.now (D.moment before.now)) }
{}

/// Law: where the bytes of a store stood for a journal, the store that was opened shows each write of its opening done.
pub fn opened_stores_show_their_writes()
    ensures { (key : List ℕ) (m : Journal) (x y : List ℕ) → StandsForJournal key m x → end_of m ≤ most_store_bytes
        → IsFilled most_store_bytes key x y → y ≡ all_written (opening_writes most_store_bytes key x) x }
{}
