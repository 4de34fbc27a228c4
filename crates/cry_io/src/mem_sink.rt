//! A sink in memory.
ghost use Rattle.std.specs.Prelude.{◌≡◌, ◌<◌, ◌≤◌, ◌↔◌, ◌⊎◌, ◌+◌, ◌-◌, [], None, Some, length, min, IfOk, IsErr, MatchResult};
ghost use Rattle.cry_io.specs.Schedules.{IsToFail};
ghost use Rattle.cry_io.specs.Fakes.{filled, unfilled};

use crate::schedule::Schedule;
use crate::tally::Tally;
use crate::{Failed, Sink};
use cry_base::{List, Mem};
use std::alloc::Global;
use std::marker::Model;

/// Bytes that are kept up to a given number, with calls that fail where it was told to.
#[derive(Drop)]
pub struct MemSink {
    bytes: List<u8>,
    room: usize,
    schedule: Schedule,
    faults: Tally,
}

impl Model for MemSink {
    ghost use Rattle.std.specs.Prelude.{◌≤◌, ◌+◌, length};
    ghost use Rattle.cry_io.specs.Fakes.{Filled};

    ghost Value = { Filled };

    ghost view = { λ s. record {
      written = s.bytes.items;
      room = s.room;
      schedule = s.schedule;
      faults = s.faults.count;
    } };

    ghost invariant = { λ s. (length s.bytes.items ≤ s.room) × (s.room ≤ length s.bytes.items + s.bytes.spare) };
}

impl MemSink {
    /// A sink that takes at most `room` bytes in all. The calls with these numbers, counted from 0, fail. It
    /// takes its memory here, and none later.
    pub fn make(alloc: Global, room: usize, fails: List<u64>) -> Mem<MemSink>
        ensures written { IfOk result (λ s. s.written ≡ []) }
        ensures room { IfOk result (λ s. s.room ≡ room) }
        ensures schedule { IfOk result (λ s. s.schedule ≡ record { calls = 0; fails = fails.items; dead_from = None }) }
        ensures faults { IfOk result (λ s. s.faults ≡ 0) }
    {
        let mut bytes = List::new(alloc);
        bytes.reserve(room)?;
        Ok(MemSink {
            bytes,
            room,
            schedule: Schedule::new(fails, None),
            faults: Tally::new(),
        })
    }

    /// All bytes taken so far.
    pub fn written(&self) -> &[u8]
        ensures { result.now ≡ self.now.written }
    {
        self.bytes.as_slice()
    }

    fn fail(&mut self) -> Failed
        ensures { self.new ≡ record self.old { faults = self.old.faults + 1 } }
    {
        self.faults = self.faults.raised();
        Failed
    }
}

impl Sink for MemSink {
    ghost written = { λ s. Some s.written };

    ghost faults = { λ s. s.faults };

    /// It fails exactly where it was told to, and where there is a piece and no room for any of it. Else it takes
    /// the piece, or as many of its first bytes as fit.
    fn write(&mut self, piece: &[u8]) -> Result<usize, Failed>
        ensures fails { IsErr result ↔ IsToFail self.old.schedule
            ⊎ ((0 < length piece.now) × (self.old.room ≤ length self.old.written)) }
        ensures as_many { IfOk result (λ n. n ≡ min (length piece.now) (self.old.room - length self.old.written)) }
        ensures after { MatchResult result (λ n. self.new ≡ filled n piece.now self.old) (λ _. self.new ≡ unfilled self.old) }
    {
        let is_to_fail = self.schedule.fails_next();
        let left = self.room - self.bytes.as_slice().len();
        let count = piece.len().min(left);
        if is_to_fail || (count == 0 && !piece.is_empty()) {
            return Err(self.fail());
        }
        self.bytes.put_all(&piece[..count]);
        Ok(count)
    }
}
