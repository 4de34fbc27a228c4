//! The change of a note that fits (docs/FORMAT.md, "The key step").
ghost use Rattle.std.specs.Prelude.{◌≡◌, ◌≤◌, ◌+◌, ◌↔◌, false, IfOk};
ghost use Rattle.move_plan.specs.Change.{change_of as change_of_note};
ghost use Rattle.move_plan.specs.Fitting.{fits as fits_store};
ghost use Rattle.move_plan.specs.LookUps.{change_look_ups};
ghost use Rattle.move_plan.specs.Seen.{plain_change, seen_store};
ghost use Rattle.record_format.specs.Told.{told_note};
ghost use Rattle.role_graph.specs.PublicStore.{public_store};

use crate::row::{Row, row_of};
use crate::strict::strict_of;
use crate::{ChangeFault, FewRoles, fits};
use cry_base::{Edge, List, Mem, Role};
use folder_nodes::Shape;
use grant_book::Grants;
use record_format::Note;
use role_graph::Adjacent;
use std::alloc::Global;

/// What a note changes among the keys.
#[derive(Debug, Drop)]
pub struct Change {
    /// The edges that go.
    pub removed: List<Edge>,
    /// The roles that go, with their marks.
    pub gone: List<Role>,
    /// The roles that must be clean for what is added or written.
    pub wanted: FewRoles,
    /// The roles that are renewed whether or not they are dirty, in their order.
    pub strict: List<Role>,
    /// The roles that come, each with a new key.
    pub fresh: FewRoles,
    /// The edges that come.
    pub added: Vec<Edge>,
    /// The version that the store comes to have, where the note says one.
    pub version: Option<u8>,
}

/// The change of the note. `strict` says that the store has version 2. `Unfit` comes exactly where the note doesn't fit, and is
/// tested before any memory is taken.
pub fn change_of<R: Adjacent>(
    alloc: Global,
    strict: bool,
    shape: &Shape,
    grants: &Grants,
    roles: &mut R,
    note: &Note,
) -> Result<Change, ChangeFault>
    requires { R.store roles.old ≡ public_store shape.now.tree grants.now.pairs }
    ensures change { IfOk result (λ c. plain_change c ≡ change_of_note strict (seen_store shape.now.tree grants.now) (told_note note.now)) }
    ensures unfit { (result ≡ Err ChangeFault.Unfit)
        ↔ (fits_store strict (seen_store shape.now.tree grants.now) (told_note note.now) ≡ false) }
    ensures steps { R.steps roles.new ≤ R.steps roles.old
        + change_look_ups strict (seen_store shape.now.tree grants.now) (told_note note.now) }
    ensures same { R.store roles.new ≡ R.store roles.old }
{
    if !fits(strict, shape, grants, note) {
        return Err(ChangeFault::Unfit);
    }
    Ok(change_by(alloc, strict, shape, grants, roles, note)?)
}

/// What the note changes, whether or not it fits.
fn change_by<R: Adjacent>(
    alloc: Global,
    strict: bool,
    shape: &Shape,
    grants: &Grants,
    roles: &mut R,
    note: &Note,
) -> Mem<Change>
    requires { R.store roles.old ≡ public_store shape.now.tree grants.now.pairs }
    ensures change { IfOk result (λ c. plain_change c ≡ change_of_note strict (seen_store shape.now.tree grants.now) (told_note note.now)) }
    ensures steps { R.steps roles.new ≤ R.steps roles.old
        + change_look_ups strict (seen_store shape.now.tree grants.now) (told_note note.now) }
    ensures same { R.store roles.new ≡ R.store roles.old }
{
    let row = row_of(alloc, shape, grants, roles, note)?;
    let renewed = strict_of(alloc, strict, shape, grants, roles, note, &row)?;
    let Row {
        removed,
        gone,
        wanted,
        fresh,
        added,
        version,
    } = row;
    Ok(Change {
        removed,
        gone,
        wanted,
        strict: renewed,
        fresh,
        added,
        version,
    })
}
