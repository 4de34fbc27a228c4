//! What a command finds, or why it is refused, but for a full store.
ghost use Rattle.std.specs.Prelude.{◌≡◌, ◌<◌, false, IfOk};
ghost use Rattle.cry_base.specs.Clearances.{clear_base};
ghost use Rattle.cry_base.specs.Refusing.{has_bad_name, refusal_in};
ghost use Rattle.cry_base.specs.Requests.{request_of};
ghost use Rattle.cry_base.specs.Store.{Store};
ghost use Rattle.folder_nodes.specs.Targets.{IsTargetOf, why_of};
ghost use Rattle.folder_nodes.specs.Titles.{tree_store};
ghost use Rattle.grant_book.specs.Refused.{refusal_of_grant};
ghost use Rattle.journal_bytes.specs.Owning.{IsStoreOf};
ghost use Rattle.command_plan.specs.Targeted.{HasNumber, HasShortName, refusal_to};

use crate::command_notes::number_of;
use cry_base::{Command, FolderId, HolderId, Limits, Refusal};
use folder_nodes::{Names, Shape, Target, find_target};
use grant_book::laws::refusals_are_the_stores;
use grant_book::{Grants, check_grant};

/// What a command finds, or the first cause to refuse it, but for a full store, in any store whose tree, names and grants these
/// are, and of version 2 where `strict` is true, else of version 1. It takes no memory.
pub fn resolve<'a>(
    shape: &Shape,
    names: &Names,
    grants: &Grants,
    limits: Limits,
    strict: bool,
    command: &'a Command,
) -> Result<Target<'a>, Refusal>
    requires files { shape.now.tree.files_made < clear_base }
    ensures cause { (s : Store) → IsStoreOf shape.now.tree names.now grants.now s
        → why_of result ≡ refusal_in strict s (request_of command.now) limits.file_bytes }
    ensures form { IfOk result (λ target. has_bad_name (request_of command.now) ≡ false) }
    ensures found { IfOk result (IsTargetOf (tree_store shape.now.tree names.now) (request_of command.now)) }
    ensures short { IfOk result HasShortName }
{
    refusals_are_the_stores();
    shape.is_tree();
    let target = match find_target(shape, names, limits, strict, command) {
        Ok(target) => target,
        Err(why) => return Err(why),
    };
    match refusal_by(grants, &target) {
        None => Ok(target),
        Some(why) => Err(why),
    }
}

/// Why the grants refuse a command with this target.
fn refusal_by(grants: &Grants, target: &Target<'_>) -> Option<Refusal>
    requires { HasNumber target.now }
    ensures { result ≡ refusal_to grants.now target.now }
{
    match *target {
        Target::Grant { holder, node } => refused_grant(grants, true, holder, number_of(node)),
        Target::Revoke { holder, node } => refused_grant(grants, false, holder, number_of(node)),
        Target::AddHolder
        | Target::MakeFolder { .. }
        | Target::WriteFile { .. }
        | Target::Remove { .. }
        | Target::Rename { .. }
        | Target::Relocate { .. } => None,
    }
}

/// Why a grant, where `give` is true, or the taking back of one is refused.
fn refused_grant(grants: &Grants, give: bool, holder: HolderId, number: FolderId) -> Option<Refusal>
    ensures { result ≡ refusal_of_grant grants.now.checks grants.now.pairs give holder.0 number.0 }
{
    match check_grant(grants, give, holder, number) {
        Ok(()) => None,
        Err(why) => Some(why),
    }
}
