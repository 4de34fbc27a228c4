//! Laws of the program's call: what a run or an upgrade with a head is in a list of runs under heads.
ghost use Rattle.std.specs.Prelude.{◌≡◌, ◌⊎◌, ℕ, List, Some};
ghost use Rattle.cry_io.specs.Stops.{IsDurable};
ghost use Rattle.cli_base.specs.World.{World, senses_of};
ghost use Rattle.cli_base.specs.declared.status.Status.{Status};
ghost use Rattle.cli_running.specs.Promises.HeldRun.{HeldRunEnds};
ghost use Rattle.cli_running.specs.Running.{key_in_lines, lines_in};
ghost use Rattle.cli_upgrading.specs.Promises.HeldUpgrade.{HeldUpgradeEnds};
ghost use Rattle.cli_upgrading.specs.Upgrading.{HandsInAlone};
ghost use Rattle.head_tree.specs.Heads.{IsHeadOf};
ghost use Rattle.head_tree.specs.declared.head.Head.{Head};
ghost use Rattle.journal_bytes.specs.Journals.{StandsForJournal};
ghost use Rattle.public_fold.specs.Journal.{Journal};
ghost use Rattle.stop_laws.specs.Runs.{LeavesStore};
ghost use Rattle.held_laws.specs.Held.{IsRunUnder};

use cry_io::{Disk, Sink, Source};

/// Law: a call of `run` with a head, whose first line hands in the owner's key, over a disk that shows a journal of that key and has
/// nothing pending, leaves the store as it is; or it is a run under this head over what the disk showed, whatever log the head names and
/// whatever may be left behind the call.
pub fn runs_with_heads_are_held<S: Source, R: Source, D: Disk, W: Sink>()
    ensures { (head : Head) (owner typed : List ℕ) (status : Status) (before after : World S R D W) →
        S.left before.input ≡ Some typed → key_in_lines (lines_in typed) ≡ Some owner →
        HeldRunEnds head (senses_of S.Source R.Source D.Disk W.Sink) status before after →
        (image left : List ℕ) (found : Journal) (named : List (List ℕ)) → D.shown before.disk ≡ Some image →
        IsDurable (D.may_leave before.disk) (D.shown before.disk) → StandsForJournal owner found image → IsHeadOf head named →
        D.may_leave after.disk left →
        LeavesStore D.Disk before.disk after.disk ⊎ IsRunUnder D.Disk owner head named image left }
{}

/// Law: so does a call of `upgrade` with a head, whose whole input is the line of the owner's key.
pub fn upgrades_with_heads_are_held<S: Source, R: Source, D: Disk, W: Sink>()
    ensures { (head : Head) (owner typed : List ℕ) (status : Status) (before after : World S R D W) →
        S.left before.input ≡ Some typed → HandsInAlone typed owner →
        HeldUpgradeEnds head (senses_of S.Source R.Source D.Disk W.Sink) status before after →
        (image left : List ℕ) (found : Journal) (named : List (List ℕ)) → D.shown before.disk ≡ Some image →
        IsDurable (D.may_leave before.disk) (D.shown before.disk) → StandsForJournal owner found image → IsHeadOf head named →
        D.may_leave after.disk left →
        LeavesStore D.Disk before.disk after.disk ⊎ IsRunUnder D.Disk owner head named image left }
{}
