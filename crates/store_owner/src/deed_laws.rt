//! A law of the names that a command or an upgrade leaves.
ghost use Rattle.std.specs.Prelude.{◌≤◌};
ghost use Rattle.cry_base.specs.Store.{Store};
ghost use Rattle.command_plan.specs.NameChanges.{AreNamesChanged, CanChangeNames};
ghost use Rattle.command_plan.specs.declared.name_change.NameChange.{NameChange};
ghost use Rattle.folder_nodes.specs.Titles.{Titles};
ghost use Rattle.journal_bytes.specs.Owning.{IsTreeOf};
ghost use Rattle.store_owner.specs.Deeds.{AreDeedTitles, Deed, IsDeedChange, IsWellNamed};

use command_plan::name_laws::name_changes_leave_the_titles;

/// Law: the change of names of what is asked can be made where there is room for it, and leaves the names after it, in each store
/// that the tree and its names are of.
pub fn deeds_leave_the_titles()
    ensures can { (t : Store) (d : Deed) (old : Titles) (change : NameChange) → IsWellNamed d → IsDeedChange t d old change
        → 1 ≤ old.spare → CanChangeNames change old }
    ensures titles { (t s : Store) (d : Deed) (old new : Titles) (change : NameChange) → IsTreeOf t s → IsDeedChange t d old change
        → AreNamesChanged change old new → AreDeedTitles s d old new }
{
    name_changes_leave_the_titles();
}
