//! States of checkpoints, read from rows and from bytes (docs/FORMAT.md, "The checkpoint").
ghost use Rattle.std.specs.Prelude.{◌≡◌, ◌≤◌, ◌++◌, ℕ, List, length, take, Err, IfOk, MatchOption};
ghost use Rattle.index_format.specs.Plain.{PlainState, plain_state};
ghost use Rattle.index_format.specs.Spelling.{spell_state};
ghost use Rattle.index_format.specs.Writable.{IsWritable};
ghost use Rattle.public_fold.specs.KeyStep.{newest};
ghost use Rattle.public_fold.specs.States.{IsReadFrom, IsSoundState, checks_of, keys_of_rows, marked_of, pairs_of_rows, tree_of};
ghost use Rattle.public_fold.specs.States.{with_key_order};
ghost use Rattle.public_fold.specs.declared.states.StateFault.TheVariants as faults;
ghost use Rattle.cry_base.specs.declared.roles.Role.{Role as AnyRole};

use crate::keys::KeyTable;
use crate::sound_keys::sound_keys;
use crate::sound_marks::sound_marks;
use crate::sound_rows::{are_granted, are_sound_numbers, sound_grants, sound_shape};
use crate::{KeyOrder, PublicState};
use cry_base::{Mem, OutOfMemory};
use folder_nodes::Shape;
use grant_book::Grants;
use index_format::{StateRows, read_plain_state};
use record_format::Stop;
use rekey_walk::Dirty;
use std::alloc::Global;
use thiserror::Error;

/// A state that bytes begin with.
#[derive(Drop)]
pub struct StateRead {
    /// The state.
    pub state: PublicState,
    /// How many bytes spell it.
    pub used: usize,
}

/// Why no state was read.
#[derive(Clone, Copy, Debug, PartialEq, Eq, Error)]
pub enum StateFault {
    /// The bytes begin with the spelling of no sound state.
    #[error("the bytes spell no sound state")]
    Unsound,
    /// There was no memory for the state.
    #[error("out of memory")]
    OutOfMemory,
}

impl From<OutOfMemory> for StateFault {
    ghost use Rattle.std.specs.Prelude.{◌≡◌};
    ghost use Rattle.public_fold.specs.declared.states.StateFault.TheVariants as faults;

    ghost from_gives = { λ _ fault. fault ≡ faults.OutOfMemory };

    fn from(_error: OutOfMemory) -> Self {
        StateFault::OutOfMemory
    }
}

impl PublicState {
    /// The state with these rows. It is `None` exactly where they are no sound state's: folders and files are no tree, a grant is no
    /// made holder's or on nothing that stands, the keys are not those of exactly the roles that stand, their serials are not given or
    /// not different, marks are on what doesn't stand or leave out what edges lead to, a list isn't in its order, or a number is 2^30
    /// or more. It takes memory for what is in the rows, whatever numbers they claim.
    pub fn of_rows(alloc: Global, rows: &StateRows) -> Mem<Option<PublicState>>
        requires { IsWritable (plain_state rows.now) }
        ensures { IfOk result (λ made. MatchOption made (IsSoundState (plain_state rows.now) → ⊥)
            (λ v. IsReadFrom v (plain_state rows.now))) }
    {
        if !are_sound_numbers(&rows.numbers) {
            return Ok(None);
        }
        let Some(shape) = sound_shape(alloc, rows)? else {
            return Ok(None);
        };
        let Some(grants) = sound_grants(alloc, rows)? else {
            return Ok(None);
        };
        if !are_granted(&shape, &grants) {
            return Ok(None);
        }
        let Some(keys) = sound_keys(alloc, rows, &shape, &grants)? else {
            return Ok(None);
        };
        let Some(dirty) = sound_marks(alloc, rows, &shape, &grants)? else {
            return Ok(None);
        };
        Ok(Some(put_together(rows, shape, grants, keys, dirty)))
    }

    /// The state whose spelling the bytes begin with, and how many bytes that is.
    ///
    /// `Unsound` comes exactly where they begin with the spelling of no sound state, whatever stands behind it. It takes no more memory
    /// than the bytes may hold rows, whatever numbers they claim.
    pub fn read_state(alloc: Global, bytes: &[u8]) -> Result<StateRead, StateFault>
        // What is read is sound, and spelled so.
        ensures read { IfOk result (λ r. (s : PlainState) × IsReadFrom r.state s × (take r.used bytes.now ≡ spell_state s)
            × (r.used ≤ length bytes.now)) }
        // No sound state is spelled there.
        ensures unsound { result ≡ Err faults.Unsound → (s : PlainState) (rest : List ℕ) → IsSoundState s
            → bytes.now ≡ spell_state s ++ rest → ⊥ }
    {
        let (rows, rest) = match read_plain_state(alloc, bytes) {
            Ok(read) => read,
            Err(Stop::Bad { .. }) => return Err(StateFault::Unsound),
            Err(Stop::OutOfMemory) => return Err(StateFault::OutOfMemory),
        };
        let Some(state) = PublicState::of_rows(alloc, &rows)? else {
            return Err(StateFault::Unsound);
        };
        Ok(StateRead {
            state,
            used: bytes.len() - rest.len(),
        })
    }
}

impl PublicState {
    /// The same state, whose keys clauses see in the other order, where each role has the same newest key there. It does nothing when
    /// it runs.
    pub fn ordered_by(self, order: KeyOrder) -> PublicState
        ensures same { result ≡ with_key_order self result.keys.keys }
        ensures alike { (r : AnyRole) → newest result.keys.keys r ≡ newest self.keys.keys r }
        ensures taken { ((r : AnyRole) → newest order.keys r ≡ newest self.keys.keys r) → result.keys.keys ≡ order.keys }
    {
        PublicState {
            keys: self.keys.ordered_by(order),
            shape: self.shape,
            grants: self.grants,
            dirty: self.dirty,
            epoch: self.epoch,
            count: self.count,
            version: self.version,
        }
    }
}

/// The state of rows that are sound.
fn put_together(
    rows: &StateRows,
    shape: Shape,
    grants: Grants,
    keys: KeyTable,
    dirty: Dirty,
) -> PublicState
    requires sound { IsSoundState (plain_state rows.now) }
    requires tree { shape.tree ≡ tree_of (plain_state rows.now) }
    requires checks { grants.checks ≡ checks_of (plain_state rows.now) }
    requires pairs { grants.pairs ≡ pairs_of_rows (plain_state rows.now) }
    requires keys { keys.keys ≡ keys_of_rows (plain_state rows.now) }
    requires marks { dirty ≡ marked_of (plain_state rows.now) }
    ensures { IsReadFrom result (plain_state rows.now) }
{
    PublicState {
        shape,
        grants,
        keys,
        dirty,
        epoch: rows.numbers.epoch,
        count: rows.numbers.count,
        version: rows.numbers.version,
    }
}
