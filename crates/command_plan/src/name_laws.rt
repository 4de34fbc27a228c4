//! A law of the names that a command leaves.
ghost use Rattle.std.specs.Prelude.{◌≡◌, ◌≤◌, false};
ghost use Rattle.cry_base.specs.Refusing.{has_bad_name};
ghost use Rattle.cry_base.specs.Requests.{Request};
ghost use Rattle.cry_base.specs.Store.{Store};
ghost use Rattle.folder_nodes.specs.Titles.{Titles};
ghost use Rattle.journal_bytes.specs.Owning.{IsTreeOf};
ghost use Rattle.journal_bytes.specs.Texting.{AreTitlesAfter};
ghost use Rattle.command_plan.specs.NameChanges.{AreNamesChanged, CanChangeNames, IsNameChangeOf};
ghost use Rattle.command_plan.specs.declared.name_change.NameChange.{NameChange as AnyNameChange};

/// Law: a command's change of names can be made where there is room for it, and leaves the names after the command, in each
/// store that the tree and its names are of.
pub fn name_changes_leave_the_titles()
    ensures can { (t : Store) (r : Request) (old : Titles) (change : AnyNameChange) → has_bad_name r ≡ false → IsNameChangeOf t r old change
        → 1 ≤ old.spare → CanChangeNames change old }
    ensures titles { (t s : Store) (r : Request) (old new : Titles) (change : AnyNameChange) → IsTreeOf t s → IsNameChangeOf t r old change
        → AreNamesChanged change old new → AreTitlesAfter s r old new }
{}
