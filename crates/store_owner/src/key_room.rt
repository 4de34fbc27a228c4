//! The memory of the keys that a command draws, and the drawing of them.
ghost use Rattle.std.specs.Prelude.{◌≡◌, ◌+◌, ◌*◌, ◌≤◌, [], IfOk, is_some, length, min};
ghost use Rattle.cry_io.specs.Told.{WhereBothTold};
ghost use Rattle.key_links.specs.Fresh.{piece};
ghost use Rattle.store_owner.specs.Drawing.{AreKeys, DrawsKeys, FillsByCount, IsFaultFor, IsFillFault, joined};

use crate::ApplyFault;
use crate::drawing::{DrawFault, draw};
use command_plan::KEY_LEN;
use cry_base::{List, Mem, Text};
use cry_io::Source;
use std::alloc::Global;
use std::marker::Model;

/// Room for keys that are to be drawn. Contracts see how many.
#[derive(Drop)]
pub(crate) struct KeyRoom {
    keys: usize,
    bytes: Text,
    drawn: List<[u8; KEY_LEN]>,
}

impl Model for KeyRoom {
    ghost use Rattle.std.specs.Prelude.{◌≡◌, ◌*◌, ◌≤◌, ℕ, [], length};

    ghost Value = { ℕ };

    ghost view = { λ r. r.keys };

    ghost invariant = { λ r. (length r.bytes.items ≡ 32 * r.keys) × (r.drawn.items ≡ []) × (r.keys ≤ r.drawn.spare) };
}

impl KeyRoom {
    /// Room for so many keys.
    pub(crate) fn reserve(alloc: Global, keys: usize) -> Mem<KeyRoom>
        ensures { IfOk result (λ room. room ≡ keys) }
    {
        let mut drawn = List::new(alloc);
        drawn.reserve(keys)?;
        let bytes = zeros(alloc, keys)?;
        Ok(KeyRoom { keys, bytes, drawn })
    }

    /// Draws the keys, 32 bytes each, as one piece.
    ///
    /// `RandomFault` comes only where the source's faults rose in this call; `RandomShort` where the source ended before the last
    /// byte, and its numbers are exact where all the keys together have less than 2^32 bytes. No other fault comes.
    pub(crate) fn fill<R: Source>(self, random: &mut R) -> Result<List<[u8; KEY_LEN]>, ApplyFault>
        ensures count { IfOk result (λ drawn. length drawn.items ≡ self) }
        ensures sizes { IfOk result (λ drawn. AreKeys drawn.items) }
        ensures bytes { WhereBothTold (R.left random.old) (R.left random.new) (DrawsKeys self result) }
        ensures faults { IsFillFault self result }
        ensures told { is_some (R.left random.new) ≡ is_some (R.left random.old) }
        ensures counts { FillsByCount result (R.faults random.old) (R.faults random.new) }
    {
        let KeyRoom {
            keys,
            mut bytes,
            mut drawn,
        } = self;
        let need = bytes.as_slice().len();
        match draw(random, bytes.as_mut_slice()) {
            Ok(()) => {
                cut_keys(bytes.as_slice(), keys, &mut drawn);
                Ok(drawn)
            }
            Err(fault) => Err(fault_for(fault, need)),
        }
    }
}

/// What a source that failed, or ended before the last of so many bytes, is answered as. Numbers from 2^32 on are told as the
/// last one below.
fn fault_for(fault: DrawFault, need: usize) -> ApplyFault
    ensures { IsFaultFor fault need result }
{
    match fault {
        DrawFault::Failed => ApplyFault::RandomFault,
        DrawFault::Short { left } => ApplyFault::RandomShort {
            left: counted(left),
            need: counted(need),
        },
    }
}

/// The number, or the last one of 32 bits.
fn counted(number: usize) -> u32
    ensures { result ≡ min number 4294967295 }
{
    if number < 4_294_967_295 {
        number as u32
    } else {
        u32::MAX
    }
}

/// As many bytes as so many keys have.
fn zeros(alloc: Global, keys: usize) -> Mem<Text>
    ensures { IfOk result (λ bytes. length bytes.items ≡ 32 * keys) }
{
    let mut bytes = List::new(alloc);
    for _ in 0..keys {
        bytes.append(&[0; KEY_LEN])?;
    }
    Ok(bytes)
}

/// Cuts the bytes of so many keys into them.
fn cut_keys(bytes: &[u8], keys: usize, drawn: &mut List<[u8; KEY_LEN]>)
    requires bytes { length bytes.now ≡ 32 * keys }
    requires empty { drawn.old.items ≡ [] }
    requires room { keys ≤ drawn.old.spare }
    ensures count { length drawn.new.items ≡ keys }
    ensures sizes { AreKeys drawn.new.items }
    ensures bytes { joined drawn.new.items ≡ bytes.now }
{
    for i in 0..keys {
        drawn.put(key_at(bytes, i));
    }
}

/// The key with this number among the bytes, from 0.
fn key_at(bytes: &[u8], i: usize) -> [u8; KEY_LEN]
    requires { 32 * i + 32 ≤ length bytes.now }
    ensures bytes { result ≡ piece bytes.now i }
    ensures long { length result ≡ 32 }
{
    let mut key = [0; KEY_LEN];
    key.copy_from_slice(&bytes[KEY_LEN * i..KEY_LEN * i + KEY_LEN]);
    key
}
