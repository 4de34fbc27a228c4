//! The commands that the replacement of a holder stands for.
ghost use Rattle.std.specs.Prelude.{◌≡◌, ◌+◌, ◌<◌, ◌^◌, ◌++◌, ◌↔◌, ◌∷◌, [], IfOk, OnOk, codes, Err, length, map};
ghost use Rattle.cry_base.specs.Requests.{request_of};
ghost use Rattle.cry_base.specs.Requests.Request.{Grant, Revoke};
ghost use Rattle.cry_base.specs.Store.{Store, path_of};
ghost use Rattle.cry_base.specs.declared.ids.FolderId.{FolderId as TheFolder};
ghost use Rattle.folder_nodes.specs.Titles.{tree_store};
ghost use Rattle.grant_book.specs.Granted.{IsHolder};
ghost use Rattle.journal_bytes.specs.Owning.{IsStoreOf};
ghost use Rattle.group_book.specs.Replacing.{granted_node, stands_for};

use crate::paths::granted_path;
use cry_base::{Command, FolderId, HolderId, List, Mem, OutOfMemory, Text};
use folder_nodes::{Names, Shape};
use grant_book::Grants;
use std::alloc::Global;
use thiserror::Error;

/// Why there are no commands for a holder's replacement.
#[derive(Clone, Copy, Debug, PartialEq, Eq, Error)]
pub enum ExpandFault {
    /// No holder has the number.
    #[error("no such holder")]
    NoHolder,
    /// There was no memory.
    #[error("out of memory")]
    OutOfMemory,
}

impl From<OutOfMemory> for ExpandFault {
    ghost use Rattle.std.specs.Prelude.{◌≡◌};
    ghost use Rattle.group_book.specs.declared.expanding.ExpandFault.TheVariants as faults;

    ghost from_gives = { λ _ fault. fault ≡ faults.OutOfMemory };

    fn from(_error: OutOfMemory) -> Self {
        ExpandFault::OutOfMemory
    }
}

/// The commands that the replacement of this holder stands for, in order, in any store whose tree, names and grants these are.
pub fn expand(
    alloc: Global,
    shape: &Shape,
    names: &Names,
    grants: &Grants,
    holder: HolderId,
) -> Result<List<Command>, ExpandFault>
    requires counted { length grants.now.checks + 1 < 2 ^ 32 }
    ensures commands { IfOk result (λ l. (s : Store) → IsStoreOf shape.now.tree names.now grants.now s
        → map request_of l.items ≡ stands_for s holder.0) }
    ensures no_holder { (result ≡ Err ExpandFault.NoHolder) ↔ ¬ IsHolder grants.now.checks holder.0 }
{
    if holder.0 < 1 || grants.holders() < holder.0 {
        return Err(ExpandFault::NoHolder);
    }
    let Ok(commands) = replace(alloc, shape, names, grants, holder) else {
        return Err(ExpandFault::OutOfMemory);
    };
    Ok(commands)
}

/// The same, and where no holder has the number the one command that is refused for that.
pub fn commands_for(
    alloc: Global,
    shape: &Shape,
    names: &Names,
    grants: &Grants,
    holder: HolderId,
) -> Mem<List<Command>>
    requires counted { length grants.now.checks + 1 < 2 ^ 32 }
    ensures { IfOk result (λ l. (s : Store) → IsStoreOf shape.now.tree names.now grants.now s
        → map request_of l.items ≡ stands_for s holder.0) }
{
    match expand(alloc, shape, names, grants, holder) {
        Ok(commands) => Ok(commands),
        Err(ExpandFault::NoHolder) => refused_one(alloc, holder),
        Err(ExpandFault::OutOfMemory) => Err(OutOfMemory),
    }
}

/// A revocation that is refused, since no holder has the number.
fn refused_one(alloc: Global, holder: HolderId) -> Mem<List<Command>>
    ensures { IfOk result (λ l. map request_of l.items ≡ Revoke holder.0 (codes "/") ∷ []) }
{
    let mut path = Text::new(alloc);
    path.append(b"/")?;
    let mut commands = List::new(alloc);
    commands.push(Command::Revoke { holder, path })?;
    Ok(commands)
}

/// A new holder, the holder's grants for it, and the same taken back.
fn replace(
    alloc: Global,
    shape: &Shape,
    names: &Names,
    grants: &Grants,
    old: HolderId,
) -> Mem<List<Command>>
    requires counted { length grants.now.checks + 1 < 2 ^ 32 }
    requires made { IsHolder grants.now.checks old.0 }
    ensures { IfOk result (λ l. (s : Store) → IsStoreOf shape.now.tree names.now grants.now s
        → map request_of l.items ≡ stands_for s old.0) }
{
    let numbers = grants.of_holder(old)?;
    let new = HolderId(grants.holders() + 1);
    let mut commands = List::new(alloc);
    commands.push(Command::AddHolder)?;
    grant_each(alloc, &mut commands, shape, names, numbers.as_slice(), new)?;
    revoke_each(alloc, &mut commands, shape, names, numbers.as_slice(), old)?;
    Ok(commands)
}

/// Adds a grant of each to the holder.
fn grant_each(
    alloc: Global,
    commands: &mut List<Command>,
    shape: &Shape,
    names: &Names,
    numbers: &[FolderId],
    holder: HolderId,
) -> Mem<()>
    ensures { OnOk result (map request_of commands.new.items ≡ map request_of commands.old.items
        ++ map (λ (x : TheFolder). Grant holder.0 (path_of (tree_store shape.now.tree names.now) (granted_node x.0))) numbers.now) }
{
    for number in numbers {
        let path = granted_path(alloc, shape, names, *number)?;
        commands.push(Command::Grant { holder, path })?;
    }
    Ok(())
}

/// Adds, for each, that the holder's grant on it is taken back.
fn revoke_each(
    alloc: Global,
    commands: &mut List<Command>,
    shape: &Shape,
    names: &Names,
    numbers: &[FolderId],
    holder: HolderId,
) -> Mem<()>
    ensures { OnOk result (map request_of commands.new.items ≡ map request_of commands.old.items
        ++ map (λ (x : TheFolder). Revoke holder.0 (path_of (tree_store shape.now.tree names.now) (granted_node x.0))) numbers.now) }
{
    for number in numbers {
        let path = granted_path(alloc, shape, names, *number)?;
        commands.push(Command::Revoke { holder, path })?;
    }
    Ok(())
}
