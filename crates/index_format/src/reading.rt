//! Bytes to rows, from left to right.
ghost use Rattle.std.specs.Prelude.{◌≡◌, ◌++◌, IfOk};
ghost use Rattle.index_format.specs.Plain.{plain_body, plain_state};
ghost use Rattle.index_format.specs.Reading.{Finds, body_at, counted_at, state_at};
ghost use Rattle.index_format.specs.Spelling.{spell_body, spell_state};
ghost use Rattle.index_format.specs.Writable.{IsWritable, IsWritableBody};
ghost use Rattle.record_format.specs.Fields.{repeat_at};
ghost use Rattle.record_format.specs.Reading.{Gives};

use crate::{BodyRows, Fixed, StateNumbers, StateRows};
use cry_base::List;
use record_format::fields::u32_of;
use record_format::{Stop, list_with_room};
use std::alloc::Global;

fn values_of<T: Fixed>(alloc: Global, count: u32, bytes: &[u8]) -> Result<(List<T>, &[u8]), Stop>
    ensures { Gives (λ x. (x.0.items, x.1.now)) result (repeat_at T.value_at count bytes.now) }
{
    let mut values = list_with_room(alloc, count, T::len(), bytes)?;
    let mut rest = bytes;
    for _ in 0..count {
        let (value, after) = T::read(rest)?;
        values.push(value)?;
        rest = after;
    }
    Ok((values, rest))
}

/// The rows that the bytes begin with, behind the number of them, and the bytes after them.
///
/// It takes no more memory than the bytes may hold rows, whatever number they claim.
#[tactic(auto, unfolding(record_format::specs::Fields::and_then, crate::specs::Reading::counted_at))]
pub fn read_rows<T: Fixed>(alloc: Global, bytes: &[u8]) -> Result<(List<T>, &[u8]), Stop>
    ensures { Gives (λ x. (x.0.items, x.1.now)) result (counted_at T.value_at bytes.now) }
{
    let (count, rest) = u32_of(bytes)?;
    values_of(alloc, count, rest)
}

#[tactic(auto, unfolding(record_format::specs::Fields::and_then, crate::specs::Reading::state_at))]
fn state_of(alloc: Global, bytes: &[u8]) -> Result<(StateRows, &[u8]), Stop>
    ensures { Gives (λ x. (plain_state x.0, x.1.now)) result (state_at bytes.now) }
{
    let (numbers, rest) = StateNumbers::read(bytes)?;
    let (folders, rest) = read_rows(alloc, rest)?;
    let (files, rest) = read_rows(alloc, rest)?;
    let (checks, rest) = values_of(alloc, numbers.holders_made, rest)?;
    let (grants, rest) = read_rows(alloc, rest)?;
    let (keys, rest) = read_rows(alloc, rest)?;
    let (marks, rest) = read_rows(alloc, rest)?;
    let state = StateRows {
        numbers,
        folders,
        files,
        checks,
        grants,
        keys,
        marks,
    };
    Ok((state, rest))
}

#[tactic(auto, unfolding(record_format::specs::Fields::and_then, crate::specs::Reading::body_at))]
fn body_of(alloc: Global, bytes: &[u8]) -> Result<(BodyRows, &[u8]), Stop>
    ensures { Gives (λ x. (plain_body x.0, x.1.now)) result (body_at bytes.now) }
{
    let (state, rest) = state_of(alloc, bytes)?;
    let (links, rest) = read_rows(alloc, rest)?;
    let (contents, rest) = read_rows(alloc, rest)?;
    let body = BodyRows {
        state,
        links,
        contents,
    };
    Ok((body, rest))
}

/// The state that the bytes begin with, and the bytes after it.
///
/// `Bad` comes exactly where they begin with none. The answer comes in the time of the bytes, whatever numbers they claim.
pub fn read_plain_state(alloc: Global, bytes: &[u8]) -> Result<(StateRows, &[u8]), Stop>
    // What is read is spelled so.
    ensures found { IfOk result (λ x. IsWritable (plain_state x.0) × (bytes.now ≡ spell_state (plain_state x.0) ++ x.1.now)) }
    // What is spelled so is read, unless memory ran out.
    ensures only { Finds (λ x. (plain_state x.0, x.1.now)) spell_state IsWritable result bytes.now }
    ensures exact { Gives (λ x. (plain_state x.0, x.1.now)) result (state_at bytes.now) }
{
    state_of(alloc, bytes)
}

/// The body that the bytes begin with, and the bytes after it.
///
/// `Bad` comes exactly where they begin with none. The answer comes in the time of the bytes, whatever numbers they claim.
pub fn read_plain_body(alloc: Global, bytes: &[u8]) -> Result<(BodyRows, &[u8]), Stop>
    // What is read is spelled so.
    ensures found { IfOk result (λ x. IsWritableBody (plain_body x.0) × (bytes.now ≡ spell_body (plain_body x.0) ++ x.1.now)) }
    // What is spelled so is read, unless memory ran out.
    ensures only { Finds (λ x. (plain_body x.0, x.1.now)) spell_body IsWritableBody result bytes.now }
    ensures exact { Gives (λ x. (plain_body x.0, x.1.now)) result (body_at bytes.now) }
{
    body_of(alloc, bytes)
}
