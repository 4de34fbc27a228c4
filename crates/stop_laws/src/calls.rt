//! Laws: what each call of the program is in a list of calls: a run, a call of `serve` or an upgrade by the store's owner, or one that
//! leaves the store as it is.
ghost use Rattle.std.specs.Prelude.{◌≡◌, ℕ, List, Option, Some};
ghost use Rattle.cli_base.specs.Promises.Any.{AnyEnds};
ghost use Rattle.cli_reading.specs.Promises.Audit.{AuditEnds};
ghost use Rattle.cli_making.specs.Promises.Gen.{GenEnds};
ghost use Rattle.cli_reading.specs.Promises.List.{ListEnds};
ghost use Rattle.cli_making.specs.Promises.Make.{MakeEnds};
ghost use Rattle.cli_reading.specs.Promises.Open.{OpenEnds};
ghost use Rattle.cli_running.specs.Promises.HeldRun.{HeldRunEnds};
ghost use Rattle.cli_running.specs.Promises.Run.{RunEnds};
ghost use Rattle.cli_running.specs.Running.{key_in_lines, lines_in};
ghost use Rattle.cli_serving.specs.Promises.Serve.{ServeEnds};
ghost use Rattle.cli_upgrading.specs.Promises.HeldUpgrade.{HeldUpgradeEnds};
ghost use Rattle.cli_upgrading.specs.Promises.Upgrade.{UpgradeEnds};
ghost use Rattle.cli_upgrading.specs.Upgrading.{HandsInAlone};
ghost use Rattle.cli_base.specs.World.{World, senses_of};
ghost use Rattle.cli_base.specs.declared.status.Status.{Status};
ghost use Rattle.head_tree.specs.declared.head.Head.{Head};
ghost use Rattle.journal_bytes.specs.Journals.{ShowsJournal};
ghost use Rattle.public_fold.specs.Journal.{Journal};
ghost use Rattle.stop_laws.specs.Held.{HeldCallOver, HeldUpgradeCallOver};
ghost use Rattle.stop_laws.specs.Others.{IsByOther, IsUpgradeByOther};
ghost use Rattle.stop_laws.specs.Runs.{IsLeft, LeavesStore, RunOver, Runs, ServeOver, UpgradeOver};

use cry_io::{Disk, Sink, Source};

/// Law: a run whose first line hands in the owner's key.
pub fn runs_of_the_owner_are_told<S: Source, R: Source, D: Disk, W: Sink>()
    ensures { (owner typed : List ℕ) (status : Status) (before after : World S R D W) →
        S.left before.input ≡ Some typed → key_in_lines (lines_in typed) ≡ Some owner →
        RunEnds (senses_of S.Source R.Source D.Disk W.Sink) status before after → RunOver D.Disk owner before.disk after.disk }
{}

/// Law: a run whose first line hands in no key, or one with another check than the owner's, over a disk that shows the owner's journal.
pub fn runs_of_others_leave_the_store<S: Source, R: Source, D: Disk, W: Sink>()
    ensures { (owner : List ℕ) (m : Journal) (typed : List ℕ) (status : Status) (before after : World S R D W) →
        S.left before.input ≡ Some typed → ShowsJournal owner m (D.shown before.disk) → IsByOther owner typed →
        RunEnds (senses_of S.Source R.Source D.Disk W.Sink) status before after →
        AnyEnds (senses_of S.Source R.Source D.Disk W.Sink) status before after → LeavesStore D.Disk before.disk after.disk }
{}

/// Law: a call of `serve` whose first line hands in the owner's key.
pub fn serves_of_the_owner_are_told<S: Source, R: Source, D: Disk, W: Sink>()
    ensures { (owner typed : List ℕ) (status : Status) (before after : World S R D W) →
        S.left before.input ≡ Some typed → key_in_lines (lines_in typed) ≡ Some owner →
        ServeEnds (senses_of S.Source R.Source D.Disk W.Sink) status before after → ServeOver D.Disk owner before.disk after.disk }
{}

/// Law: a call of `serve` whose first line hands in no key, or one with another check than the owner's, over a disk that shows the owner's
/// journal.
pub fn serves_of_others_leave_the_store<S: Source, R: Source, D: Disk, W: Sink>()
    ensures { (owner : List ℕ) (m : Journal) (typed : List ℕ) (status : Status) (before after : World S R D W) →
        S.left before.input ≡ Some typed → ShowsJournal owner m (D.shown before.disk) → IsByOther owner typed →
        ServeEnds (senses_of S.Source R.Source D.Disk W.Sink) status before after →
        AnyEnds (senses_of S.Source R.Source D.Disk W.Sink) status before after → LeavesStore D.Disk before.disk after.disk }
{}

/// Law: an upgrade whose whole input is the line of the owner's key.
pub fn upgrades_by_the_owner_are_told<S: Source, R: Source, D: Disk, W: Sink>()
    ensures { (owner typed : List ℕ) (status : Status) (before after : World S R D W) →
        S.left before.input ≡ Some typed → HandsInAlone typed owner →
        UpgradeEnds (senses_of S.Source R.Source D.Disk W.Sink) status before after → UpgradeOver D.Disk owner before.disk after.disk }
{}

/// Law: an upgrade whose input isn't one line that hands in a key, or hands in one with another check than the owner's, over a disk that
/// shows the owner's journal.
pub fn upgrades_by_others_leave_the_store<S: Source, R: Source, D: Disk, W: Sink>()
    ensures { (owner : List ℕ) (m : Journal) (typed : List ℕ) (status : Status) (before after : World S R D W) →
        S.left before.input ≡ Some typed → ShowsJournal owner m (D.shown before.disk) → IsUpgradeByOther owner typed →
        UpgradeEnds (senses_of S.Source R.Source D.Disk W.Sink) status before after →
        AnyEnds (senses_of S.Source R.Source D.Disk W.Sink) status before after → LeavesStore D.Disk before.disk after.disk }
{}

/// Law: a run with a head whose first line hands in the owner's key.
pub fn held_runs_of_the_owner_are_told<S: Source, R: Source, D: Disk, W: Sink>()
    ensures { (head : Head) (owner typed : List ℕ) (status : Status) (before after : World S R D W) →
        S.left before.input ≡ Some typed → key_in_lines (lines_in typed) ≡ Some owner →
        HeldRunEnds head (senses_of S.Source R.Source D.Disk W.Sink) status before after
        → HeldCallOver D.Disk owner before.disk after.disk }
{}

/// Law: a run with a head whose first line hands in no key, or one with another check than the owner's, over a disk that shows the owner's
/// journal.
pub fn held_runs_of_others_leave_the_store<S: Source, R: Source, D: Disk, W: Sink>()
    ensures { (head : Head) (owner : List ℕ) (m : Journal) (typed : List ℕ) (status : Status) (before after : World S R D W) →
        S.left before.input ≡ Some typed → ShowsJournal owner m (D.shown before.disk) → IsByOther owner typed →
        HeldRunEnds head (senses_of S.Source R.Source D.Disk W.Sink) status before after →
        AnyEnds (senses_of S.Source R.Source D.Disk W.Sink) status before after → LeavesStore D.Disk before.disk after.disk }
{}

/// Law: a list of calls goes on with a run with a head, as with three calls of which only the second writes; and with a stop at any moment
/// of it.
pub fn held_runs_are_runs<D: Disk>(start: &D, before: &D, after: &D, next: &D)
    ensures ends { (key : List ℕ) → Runs D.Disk key start.now before.now → HeldCallOver D.Disk key before.now after.now →
        Runs D.Disk key start.now after.now }
    ensures stops { (key : List ℕ) → Runs D.Disk key start.now before.now → HeldCallOver D.Disk key before.now after.now →
        (shown left : List ℕ) → D.since after.now (D.moment before.now) shown left → IsLeft D.Disk left next.now →
        Runs D.Disk key start.now next.now }
{}

/// Law: an upgrade with a head whose whole input is the line of the owner's key.
pub fn held_upgrades_by_the_owner_are_told<S: Source, R: Source, D: Disk, W: Sink>()
    ensures { (head : Head) (owner typed : List ℕ) (status : Status) (before after : World S R D W) →
        S.left before.input ≡ Some typed → HandsInAlone typed owner →
        HeldUpgradeEnds head (senses_of S.Source R.Source D.Disk W.Sink) status before after
        → HeldUpgradeCallOver D.Disk owner before.disk after.disk }
{}

/// Law: an upgrade with a head whose input isn't one line that hands in a key, or hands in one with another check than the owner's, over a
/// disk that shows the owner's journal.
pub fn held_upgrades_by_others_leave_the_store<S: Source, R: Source, D: Disk, W: Sink>()
    ensures { (head : Head) (owner : List ℕ) (m : Journal) (typed : List ℕ) (status : Status) (before after : World S R D W) →
        S.left before.input ≡ Some typed → ShowsJournal owner m (D.shown before.disk) → IsUpgradeByOther owner typed →
        HeldUpgradeEnds head (senses_of S.Source R.Source D.Disk W.Sink) status before after →
        AnyEnds (senses_of S.Source R.Source D.Disk W.Sink) status before after → LeavesStore D.Disk before.disk after.disk }
{}

/// Law: a list of calls goes on with an upgrade with a head too, as with three calls of which only the second writes; and with a stop at
/// any moment of it.
pub fn held_upgrades_are_upgrades<D: Disk>(start: &D, before: &D, after: &D, next: &D)
    ensures ends { (key : List ℕ) → Runs D.Disk key start.now before.now → HeldUpgradeCallOver D.Disk key before.now after.now →
        Runs D.Disk key start.now after.now }
    ensures stops { (key : List ℕ) → Runs D.Disk key start.now before.now → HeldUpgradeCallOver D.Disk key before.now after.now →
        (shown left : List ℕ) → D.since after.now (D.moment before.now) shown left → IsLeft D.Disk left next.now →
        Runs D.Disk key start.now next.now }
{}

/// Law: `make` over a disk that shows a journal.
pub fn making_leaves_a_store<S: Source, R: Source, D: Disk, W: Sink>()
    ensures { (owner : List ℕ) (m : Journal) (status : Status) (before after : World S R D W) →
        ShowsJournal owner m (D.shown before.disk) →
        MakeEnds (senses_of S.Source R.Source D.Disk W.Sink) status before after → LeavesStore D.Disk before.disk after.disk }
{}

/// Law: `gen`, for any number and count, over a disk that shows a journal.
pub fn generating_leaves_a_store<S: Source, R: Source, D: Disk, W: Sink>()
    ensures { (owner : List ℕ) (m : Journal) (status : Status) (seed count : ℕ) (before after : World S R D W) →
        ShowsJournal owner m (D.shown before.disk) →
        GenEnds (senses_of S.Source R.Source D.Disk W.Sink) status before after seed count → LeavesStore D.Disk before.disk after.disk }
{}

/// Law: `list`, `open`, for any path, and `audit`, with a head or without, over any disk.
pub fn reading_leaves_the_store<S: Source, R: Source, D: Disk, W: Sink>()
    ensures list { (head : Option Head) (status : Status) (before after : World S R D W) →
        ListEnds head (senses_of S.Source R.Source D.Disk W.Sink) status before after → LeavesStore D.Disk before.disk after.disk }
    ensures open { (head : Option Head) (status : Status) (path : List ℕ) (before after : World S R D W) →
        OpenEnds head (senses_of S.Source R.Source D.Disk W.Sink) status before after path → LeavesStore D.Disk before.disk after.disk }
    ensures audit { (head : Option Head) (status : Status) (before after : World S R D W) →
        AuditEnds head (senses_of S.Source R.Source D.Disk W.Sink) status before after → LeavesStore D.Disk before.disk after.disk }
{}

/// Law: a call that touches nothing of the disk, as one whose words have no form, or ask for a text.
pub fn untouched_disks_leave_the_store<D: Disk>()
    ensures { (before after : D) → after ≡ before → LeavesStore D.Disk before after }
{}
