//! Rows to bytes.
ghost use Rattle.std.specs.Prelude.{◌≡◌, ◌+◌, ◌*◌, ◌<◌, ◌≤◌, ◌^◌, ◌++◌, length, IsOk, OnErr, OnOk};
ghost use Rattle.std.specs.List.{flat_map};
ghost use Rattle.index_format.specs.Plain.{plain_body, plain_state};
ghost use Rattle.index_format.specs.Sizes.{body_size, state_size};
ghost use Rattle.index_format.specs.Spelling.{counted, spell_body, spell_state};
ghost use Rattle.index_format.specs.Writable.{HasFewRows, HasFewSpots};

use crate::{BodyRows, CheckRow, Fixed, StateNumbers, StateRows};
use cry_base::{Mem, Text};
use record_format::put_number;

/// Adds the rows' spelling at the end of a text that has room for it, without their number. It takes no memory.
pub fn put_rows<T: Fixed>(rows: &[T], out: &mut Text)
    requires { T.size * length rows.now ≤ out.old.spare }
    ensures items { out.new.items ≡ out.old.items ++ flat_map T.spell rows.now }
    ensures spare { out.old.spare ≤ out.new.spare + T.size * length rows.now }
{
    for row in rows {
        row.put(out);
    }
}

/// Adds the number of the rows and then their spelling, at the end of a text that has room for it. It takes no memory.
#[tactic(auto, unfolding(crate::specs::Spelling::counted))]
pub fn put_counted<T: Fixed>(rows: &[T], out: &mut Text)
    requires few { length rows.now < 2 ^ 32 }
    requires room { 4 + T.size * length rows.now ≤ out.old.spare }
    ensures items { out.new.items ≡ out.old.items ++ counted T.spell rows.now }
    ensures spare { out.old.spare ≤ out.new.spare + (4 + T.size * length rows.now) }
{
    put_number(rows.len() as u32, out);
    put_rows(rows, out);
}

/// Adds the state's spelling at the end of a text that has room for it. It takes no memory.
#[tactic(auto, unfolding(crate::specs::Spelling::spell_state))]
pub fn put_plain_state(state: &StateRows, out: &mut Text)
    requires few { HasFewRows (plain_state state.now) }
    requires room { state_size (plain_state state.now) ≤ out.old.spare }
    ensures items { out.new.items ≡ out.old.items ++ spell_state (plain_state state.now) }
    ensures spare { out.old.spare ≤ out.new.spare + state_size (plain_state state.now) }
{
    state.numbers.put(out);
    put_counted(state.folders.as_slice(), out);
    put_counted(state.files.as_slice(), out);
    put_rows(state.checks.as_slice(), out);
    put_counted(state.grants.as_slice(), out);
    put_counted(state.keys.as_slice(), out);
    put_counted(state.marks.as_slice(), out);
}

/// Adds the body's spelling at the end of a text that has room for it. It takes no memory.
#[tactic(auto, unfolding(crate::specs::Spelling::spell_body))]
pub fn put_plain_body(body: &BodyRows, out: &mut Text)
    requires few { HasFewSpots (plain_body body.now) }
    requires room { body_size (plain_body body.now) ≤ out.old.spare }
    ensures items { out.new.items ≡ out.old.items ++ spell_body (plain_body body.now) }
    ensures spare { out.old.spare ≤ out.new.spare + body_size (plain_body body.now) }
{
    put_plain_state(&body.state, out);
    put_counted(body.links.as_slice(), out);
    put_counted(body.contents.as_slice(), out);
}

/// The number of bytes of these rows' spelling, with that of their number.
fn counted_len<T: Fixed>(rows: &[T]) -> u64
    requires { 4 + T.size * length rows.now < 2 ^ 64 }
    ensures { result ≡ 4 + T.size * length rows.now }
{
    4 + T::len() * rows.len() as u64
}

/// The number of bytes of the spelling of so many checks.
fn checks_len(count: u32) -> u64
    ensures size { result ≡ 32 * count }
    ensures small { result < 2 ^ 37 }
{
    CheckRow::len() * count as u64
}

/// The number of bytes of the state's spelling.
pub fn plain_state_len(state: &StateRows) -> u64
    requires { HasFewRows (plain_state state.now) }
    ensures size { result ≡ state_size (plain_state state.now) }
    ensures small { result < 2 ^ 40 }
{
    let lists = counted_len(state.folders.as_slice())
        + counted_len(state.files.as_slice())
        + counted_len(state.grants.as_slice())
        + counted_len(state.keys.as_slice())
        + counted_len(state.marks.as_slice());
    StateNumbers::len() + checks_len(state.numbers.holders_made) + lists
}

/// The number of bytes of the body's spelling.
pub fn plain_body_len(body: &BodyRows) -> u64
    requires { HasFewSpots (plain_body body.now) }
    ensures { result ≡ body_size (plain_body body.now) }
{
    plain_state_len(&body.state)
        + counted_len(body.links.as_slice())
        + counted_len(body.contents.as_slice())
}

/// Adds the state's spelling at the end of a text. At `Err` the text is as it was.
pub fn write_plain_state(state: &StateRows, out: &mut Text) -> Mem<()>
    requires { HasFewRows (plain_state state.now) }
    ensures ok { OnOk result (out.new.items ≡ out.old.items ++ spell_state (plain_state state.now)) }
    ensures err { OnErr result (out.new.items ≡ out.old.items) }
    ensures has_room { state_size (plain_state state.now) ≤ out.old.spare → IsOk result }
{
    out.reserve(plain_state_len(state) as usize)?;
    put_plain_state(state, out);
    Ok(())
}

/// Adds the body's spelling at the end of a text. At `Err` the text is as it was.
pub fn write_plain_body(body: &BodyRows, out: &mut Text) -> Mem<()>
    requires { HasFewSpots (plain_body body.now) }
    ensures ok { OnOk result (out.new.items ≡ out.old.items ++ spell_body (plain_body body.now)) }
    ensures err { OnErr result (out.new.items ≡ out.old.items) }
    ensures has_room { body_size (plain_body body.now) ≤ out.old.spare → IsOk result }
{
    out.reserve(plain_body_len(body) as usize)?;
    put_plain_body(body, out);
    Ok(())
}
