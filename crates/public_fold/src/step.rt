//! The key step of a note on a public state (docs/FORMAT.md, "The key step").
ghost use Rattle.std.specs.Prelude.{◌≡◌, ◌<◌, ◌≤◌, ◌+◌, true, false, Err, IfOk};
ghost use Rattle.move_plan.specs.Change.{change_of as change_of_note};
ghost use Rattle.move_plan.specs.Fitting.{fits as fits_store};
ghost use Rattle.move_plan.specs.Seen.{plain_change};
ghost use Rattle.record_format.specs.Told.{told_note};
ghost use Rattle.role_graph.specs.Edges.{edges as edges_of};
ghost use Rattle.role_graph.specs.PublicStore.{public_store};
ghost use Rattle.public_fold.specs.Fitted.{told_step};
ghost use Rattle.public_fold.specs.KeyStep.{is_strict};
ghost use Rattle.public_fold.specs.LookUps.{note_look_ups, step_look_ups};
ghost use Rattle.public_fold.specs.StandFits.{note_fits};
ghost use Rattle.public_fold.specs.Preparing.{begun_view};
ghost use Rattle.public_fold.specs.Standing.{public_store_of, stand_of};
ghost use Rattle.public_fold.specs.Stepping.{IsDue, IsDueAt, IsNumbered, IsStep, counted, keys_at, marks_alone};

use crate::counter::{SerialCount, count_after, next_serial};
use crate::keys::{KeyTable, KeysThen};
use crate::lists::{joined, with_strict};
use crate::marks::{clean, dirty_left};
use crate::numbering::{given_keys, link_heads};
use crate::publishing::published;
use crate::sealing::{content_count, content_heads};
use crate::{FoldFault, PublicState, Skeleton};
use cry_base::{Edge, List, Mem, Role, Steps};
use move_plan::{Change, FewRoles, change_of};
use record_format::Note;
use rekey_walk::{Dirty, plan_closed};
use role_graph::{Adjacent, CountedRoles};
use std::alloc::Global;
use std::mem;

/// A step before its serials are counted.
#[derive(Debug, Drop)]
pub(crate) struct Due {
    /// The roles whose keys are renewed. They get keys first.
    pub(crate) renewed: List<Role>,
    /// The roles that come. They get keys behind those.
    pub(crate) fresh: FewRoles,
    /// The roles whose old keys go.
    pub(crate) gone: List<Role>,
    /// The dirty roles that are left.
    pub(crate) dirty: Dirty,
    /// The edges that are published.
    pub(crate) edges: Vec<Edge>,
    /// The version that the store comes to have, where the note says one.
    pub(crate) version: Option<u8>,
}

/// What a note's step gives and publishes, and what it leaves.
#[derive(Debug, Drop)]
pub(crate) struct Step {
    pub(crate) skeleton: Skeleton,
    pub(crate) left: Left,
}

/// What a step leaves beside the keys that it gives.
#[derive(Debug, Drop)]
pub(crate) struct Left {
    /// The roles whose old keys go.
    pub(crate) gone: List<Role>,
    pub(crate) dirty: Dirty,
    pub(crate) epoch: u32,
    pub(crate) count: u32,
    /// The version that the store comes to have, where the note says one.
    pub(crate) version: Option<u8>,
}

/// The step of a note that fits the state, once the next epoch is begun where one is wanted. Its look-ups of edges are counted.
pub(crate) fn step_of(
    alloc: Global,
    state: &PublicState,
    new_epoch: bool,
    note: &Note,
    steps: &mut Steps,
) -> Result<Step, FoldFault>
    requires { new_epoch ≡ true → state.now.keys.epoch < 4294967295 }
    ensures fits { IfOk result (λ s. note_fits (stand_of (begun_view new_epoch state.now)) (told_note note.now)
        (told_step (stand_of (begun_view new_epoch state.now)) (told_note note.now)) ≡ true) }
    ensures step { IfOk result (IsStep state.now.keys (told_step (stand_of (begun_view new_epoch state.now)) (told_note note.now))) }
    ensures unfit { result ≡ Err FoldFault.Unfit
        → note_fits (stand_of (begun_view new_epoch state.now)) (told_note note.now)
        (told_step (stand_of (begun_view new_epoch state.now)) (told_note note.now)) ≡ false }
    ensures look_ups { steps.new ≤ steps.old + note_look_ups state.now (told_note note.now) }
{
    let from = state.counts_from(new_epoch);
    if from.epoch == 0 {
        return Err(FoldFault::Unfit);
    }
    let due = due_counted(alloc, state, note, steps)?;
    numbered_step(alloc, &state.keys, from, note, due)
}

/// What is due of a note that fits the state, before its serials are counted. The look-ups are counted on.
fn due_counted(
    alloc: Global,
    state: &PublicState,
    note: &Note,
    steps: &mut Steps,
) -> Result<Due, FoldFault>
    ensures fits { IfOk result (λ _. fits_store (is_strict state.now.keys) (public_store_of state.now) (told_note note.now) ≡ true) }
    ensures due { IfOk result (λ d. IsDue state.now.keys (edges_of (public_store state.now.tree state.now.pairs))
        (change_of_note (is_strict state.now.keys) (public_store_of state.now) (told_note note.now)) d) }
    ensures unfit { result ≡ Err FoldFault.Unfit
        → fits_store (is_strict state.now.keys) (public_store_of state.now) (told_note note.now) ≡ false }
    ensures look_ups { steps.new ≤ steps.old + note_look_ups state.now (told_note note.now) }
{
    let taken = mem::replace(steps, Steps::new());
    let mut roles = CountedRoles::new(&state.shape, &state.grants, taken);
    let due = due_of(alloc, state, &mut roles, note);
    *steps = roles.into_steps();
    due
}

/// The same, by look-ups that these roles count.
fn due_of<R: Adjacent>(
    alloc: Global,
    state: &PublicState,
    roles: &mut R,
    note: &Note,
) -> Result<Due, FoldFault>
    requires { R.store roles.old ≡ public_store state.now.tree state.now.pairs }
    ensures fits { IfOk result (λ _. fits_store (is_strict state.now.keys) (public_store_of state.now) (told_note note.now) ≡ true) }
    ensures due { IfOk result (λ d. IsDue state.now.keys (edges_of (public_store state.now.tree state.now.pairs))
        (change_of_note (is_strict state.now.keys) (public_store_of state.now) (told_note note.now)) d) }
    ensures unfit { result ≡ Err FoldFault.Unfit
        → fits_store (is_strict state.now.keys) (public_store_of state.now) (told_note note.now) ≡ false }
    ensures look_ups { R.steps roles.new ≤ R.steps roles.old + note_look_ups state.now (told_note note.now) }
{
    let strict = state.is_strict();
    let change = change_of(alloc, strict, &state.shape, &state.grants, roles, note)?;
    Ok(due_step(alloc, &state.dirty, roles, change)?)
}

/// The step of a change, before its serials are counted. Marks, plan and what is published are looked up at the roles
/// that they come to: it has no other way to an edge, and makes no list of all.
fn due_step<R: Adjacent>(alloc: Global, dirty: &Dirty, roles: &mut R, change: Change) -> Mem<Due>
    requires { IsDueAt (R.store roles.old) dirty.now (plain_change change) }
    ensures due { IfOk result (λ d. IsDue (marks_alone dirty.now) (edges_of (R.store roles.old)) (plain_change change) d) }
    ensures look_ups { R.steps roles.new ≤ R.steps roles.old
        + step_look_ups (marks_alone dirty.now) (edges_of (R.store roles.old)) (plain_change change) }
{
    let mut left = dirty_left(alloc, dirty, roles, &change)?;
    let Change {
        removed,
        gone,
        wanted,
        strict,
        fresh,
        added,
        version,
    } = change;
    let removed = removed.as_slice();
    let wanted = wanted.as_slice();
    let planned = plan_closed(alloc, &left, roles, removed, wanted)?;
    let renewed = with_strict(alloc, strict.as_slice(), planned)?;
    let again = renewed.as_slice();
    let edges = published(alloc, roles, removed, added, again)?;
    let gone = joined(alloc, again, gone)?;
    clean(&mut left, again);
    Ok(Due {
        renewed,
        fresh,
        gone,
        dirty: left,
        edges,
        version,
    })
}

/// The step with its serials, where the epoch's count has room for them.
#[tactic(auto, unfolding(crate::specs::KeyStep::next_serial))]
fn numbered_step(
    alloc: Global,
    old: &KeyTable,
    from: SerialCount,
    note: &Note,
    due: Due,
) -> Result<Step, FoldFault>
    ensures step { IfOk result (IsNumbered (keys_at old.now.keys from) (told_note note.now) due) }
    ensures unfit { result ≡ Err FoldFault.Unfit → 4294967295 ≤ counted (keys_at old.now.keys from) (told_note note.now) due }
{
    let (renewed, fresh) = (due.renewed.as_slice(), due.fresh.as_slice());
    let published = due.edges.as_slice();
    let key_count = renewed.len() + fresh.len();
    let counted = count_after(from.count, key_count, published.len(), content_count(note));
    let Some(count) = counted else {
        return Err(FoldFault::Unfit);
    };
    let first = next_serial(from.epoch, from.count);
    let given = given_keys(alloc, renewed, fresh, first)?;
    let keys = KeysThen {
        given: given.as_slice(),
        gone: due.gone.as_slice(),
        old,
    };
    let first_link = first + key_count as u64;
    let links = link_heads(alloc, &keys, published, first_link)?;
    let first_content = first_link + published.len() as u64;
    let contents = content_heads(alloc, &keys, note, first_content)?;
    Ok(Step {
        skeleton: Skeleton {
            keys: given,
            links,
            contents,
        },
        left: Left {
            gone: due.gone,
            dirty: due.dirty,
            epoch: from.epoch,
            count,
            version: due.version,
        },
    })
}
