//! A source in memory.
ghost use Rattle.std.specs.Prelude.{◌≡◌, ◌<◌, ◌≤◌, ◌↔◌, ◌++◌, None, Some, length, take, drop, min, IfOk, IsErr, MatchResult};
ghost use Rattle.cry_io.specs.Told.{WhereBothTold};
ghost use Rattle.cry_io.specs.Streams.{Reads, IsAtEnd};
ghost use Rattle.cry_io.specs.Schedules.{IsToFail};
ghost use Rattle.cry_io.specs.Fakes.{fed, unfed};

use crate::schedule::Schedule;
use crate::tally::Tally;
use crate::{Failed, Source};
use cry_base::List;
use std::marker::Model;

/// Bytes that come in pieces of a given size, with calls that fail where it was told to.
#[derive(Drop)]
pub struct MemSource {
    bytes: List<u8>,
    at: usize,
    step: usize,
    schedule: Schedule,
    faults: Tally,
}

impl Model for MemSource {
    ghost use Rattle.std.specs.Prelude.{◌≤◌, length, drop};
    ghost use Rattle.cry_io.specs.Fakes.{Fed};

    ghost Value = { Fed };

    ghost view = { λ s. record {
      left = drop s.at s.bytes.items;
      step = s.step;
      schedule = s.schedule;
      faults = s.faults.count;
    } };

    ghost invariant = { λ s. (s.at ≤ length s.bytes.items) × (1 ≤ s.step) };
}

impl MemSource {
    /// A source of these bytes, which gives at most `step` of them in one read. The calls with these numbers,
    /// counted from 0, fail and give nothing.
    pub fn make(bytes: List<u8>, step: usize, fails: List<u64>) -> MemSource
        requires { 1 ≤ step }
        ensures left { result.left ≡ bytes.items }
        ensures step { result.step ≡ step }
        ensures schedule { result.schedule ≡ record { calls = 0; fails = fails.items; dead_from = None } }
        ensures faults { result.faults ≡ 0 }
    {
        MemSource {
            bytes,
            at: 0,
            step,
            schedule: Schedule::new(fails, None),
            faults: Tally::new(),
        }
    }

    /// The bytes still to come.
    pub fn left(&self) -> &[u8]
        ensures { result.now ≡ self.now.left }
    {
        &self.bytes.as_slice()[self.at..]
    }
}

impl Source for MemSource {
    ghost left = { λ s. Some s.left };

    ghost faults = { λ s. s.faults };

    /// It fails exactly where it was told to, and else gives as many bytes as the step, the buffer and what is
    /// left allow.
    fn read(&mut self, buf: &mut [u8]) -> Result<usize, Failed>
        ensures bytes { WhereBothTold (Some self.old.left) (Some self.new.left) (Reads result buf.new) }
        ensures at_end { WhereBothTold (Some self.old.left) (Some self.new.left) (IsAtEnd result buf.old) }

        ensures fails { IsErr result ↔ IsToFail self.old.schedule }
        ensures as_many { IfOk result (λ n. n ≡ min (min self.old.step (length buf.old)) (length self.old.left)) }
        ensures buffer { IfOk result (λ n. buf.new ≡ take n self.old.left ++ drop n buf.old) }
        ensures after { MatchResult result (λ n. self.new ≡ fed n self.old) (λ _. self.new ≡ unfed self.old) }
    {
        if self.schedule.fails_next() {
            self.faults = self.faults.raised();
            return Err(Failed);
        }
        let left = self.bytes.as_slice().len() - self.at;
        let count = self.step.min(buf.len()).min(left);
        buf[..count].copy_from_slice(&self.bytes.as_slice()[self.at..self.at + count]);
        self.at += count;
        Ok(count)
    }
}
