//! The bytes of a disk in memory: those that reads give, those that stay, and which of them are pending.
ghost use Rattle.std.specs.Prelude.{◌≡◌, ◌+◌, ◌-◌, ◌≤◌, [], ◌∷◌, ◌++◌, length, take, drop, replicate, IfOk};
ghost use Rattle.cry_io.specs.Events.{Stays, Wrote};
ghost use Rattle.cry_io.specs.Leaving.{shown_of, Leaves};

use crate::history::History;
use crate::mixer::{between, byte_left};
use cry_base::{List, Mem};
use std::alloc::Global;
use std::marker::Model;

/// Room for bytes. Between two syncs a byte that was written may hold anything after a stop, and the size may
/// be any between the stable one and the shown one.
#[derive(Drop)]
pub struct Platter {
    /// As long as there is room. Reads give the first `size` bytes.
    shown: Vec<u8>,
    size: usize,
    /// As long as there is room. The first `stable_size` bytes stay where none is pending.
    stable: Vec<u8>,
    stable_size: usize,
    /// For each byte, whether it was written since the last sync.
    pending: Vec<bool>,
    history: History,
}

impl Model for Platter {
    ghost use Rattle.std.specs.Prelude.{length};
    ghost use Rattle.cry_io.specs.Platters.{Kept, IsTied};

    ghost Value = { Kept };

    ghost view = { λ p. record { events = p.history.events; room = length p.shown.items } };

    ghost invariant = { λ p. IsTied p.history.events p.shown.items p.size p.stable.items p.stable_size p.pending.items };
}

impl Platter {
    /// The image, with nothing pending. It takes its memory here, and none later.
    pub(crate) fn new(alloc: Global, image: &[u8], room: usize) -> Mem<Platter>
        requires { length image.now ≤ room }
        ensures { IfOk result (λ p. p ≡ record { events = Stays image.now ∷ []; room = room }) }
    {
        let size = image.len();
        let mut shown = Vec::from_elem(alloc, 0, room)?;
        put_at(&mut shown, 0, image);
        let stable = Vec::from_slice(alloc, shown.as_slice())?;
        let pending = Vec::from_elem(alloc, false, room)?;
        let history = History::new().staying(image);
        Ok(Platter {
            shown,
            size,
            stable,
            stable_size: size,
            pending,
            history,
        })
    }

    /// The most bytes that there may be.
    pub(crate) fn room(&self) -> usize
        ensures { result ≡ self.now.room }
    {
        self.shown.len()
    }

    /// What reads give.
    pub(crate) fn shown(&self) -> &[u8]
        ensures shown { result.now ≡ shown_of self.now.events }
        ensures fits { length result.now ≤ self.now.room }
    {
        &self.shown[..self.size]
    }

    /// Writes bytes at a place, which are pending from then on.
    pub(crate) fn write(&mut self, place: usize, bytes: &[u8])
        requires inside { place ≤ length (shown_of self.old.events) }
        requires fits { place + length bytes.now ≤ self.old.room }
        ensures { self.new ≡ record self.old { events = Wrote place bytes.now ∷ self.old.events } }
    {
        put_at(&mut self.shown, place, bytes);
        let end = place + bytes.len();
        mark(&mut self.pending, place, end, true);
        self.size = self.size.max(end);
        self.history = self.history.writing(&(place as u64), bytes);
    }

    /// Makes what is shown stay, so that nothing is pending.
    pub(crate) fn sync(&mut self)
        ensures { self.new ≡ record self.old { events = Stays (shown_of self.old.events) ∷ self.old.events } }
    {
        let size = self.size;
        put_at(&mut self.stable, 0, &self.shown[..size]);
        mark(&mut self.pending, 0, size, false);
        self.stable_size = size;
        self.history = self.history.staying(&self.shown[..size]);
    }

    /// Bytes that a stop now may leave, chosen by `pick`.
    pub(crate) fn outcome(&self, alloc: Global, pick: u64) -> Mem<List<u8>>
        ensures left { IfOk result (λ l. Leaves self.now.events l.items) }
        ensures fits { IfOk result (λ l. length l.items ≤ self.now.room) }
    {
        let size = between(pick, self.stable_size, self.size);
        let mut left = List::new(alloc);
        left.reserve(size)?;
        for place in 0..size {
            let is_settled = place < self.stable_size && !self.pending[place];
            let byte = if is_settled {
                self.stable[place]
            } else {
                byte_left(pick, place, self.stable[place], self.shown[place])
            };
            left.put(byte);
        }
        Ok(left)
    }
}

/// Writes a piece over the bytes from a place on.
fn put_at(bytes: &mut [u8], place: usize, piece: &[u8])
    requires { place + length piece.now ≤ length bytes.old }
    ensures { bytes.new ≡ take place bytes.old ++ piece.now ++ drop (place + length piece.now) bytes.old }
{
    bytes[place..place + piece.len()].copy_from_slice(piece);
}

/// Sets the flags from one place up to another.
fn mark(flags: &mut [bool], from: usize, to: usize, flag: bool)
    requires ordered { from ≤ to }
    requires inside { to ≤ length flags.old }
    ensures { flags.new ≡ take from flags.old ++ replicate (to - from) flag ++ drop to flags.old }
{
    flags[from..to].fill(flag);
}
