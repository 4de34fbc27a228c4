//! Which calls of a fake are to fail. Calls are numbered from 0, and their count has no end.
ghost use Rattle.std.specs.Prelude.{◌≡◌, ◌+◌, ◌-◌, ◌^◌, ◌≤◌, ◌↔◌, ℕ, min, IsTrue, IsSomeAnd, Contains};
ghost use Rattle.cry_io.specs.Schedules.{IsToFail, IsNumber, counted};

use crate::tally::Tally;
use cry_base::List;
use std::marker::Model;

/// The calls so far, and those that are to fail.
#[derive(Drop)]
pub struct Schedule {
    /// The number of the next call, while it is one that a `u64` holds.
    number: Option<u64>,
    fails: List<u64>,
    dead_from: Option<u64>,
    calls: Tally,
}

impl Model for Schedule {
    ghost use Rattle.cry_io.specs.Schedules.{Scheduled, IsNumber};

    ghost Value = { Scheduled };

    ghost view = { λ s. record { calls = s.calls.count; fails = s.fails.items; dead_from = s.dead_from } };

    ghost invariant = { λ s. IsNumber s.number s.calls.count };
}

impl Schedule {
    /// No call was made. Those with these numbers are to fail, and all from a number on.
    pub(crate) fn new(fails: List<u64>, dead_from: Option<u64>) -> Schedule
        ensures { result ≡ record { calls = 0; fails = fails.items; dead_from = dead_from } }
    {
        Schedule {
            number: Some(0),
            fails,
            dead_from,
            calls: Tally::new(),
        }
    }

    /// Counts a call, and says whether it is to fail.
    pub(crate) fn fails_next(&mut self) -> bool
        ensures fails { IsTrue result ↔ IsToFail self.old }
        ensures counted { self.new ≡ counted self.old }
    {
        let fails = self.is_to_fail();
        self.number = next_of(self.number);
        self.calls = self.calls.raised();
        fails
    }

    /// How many calls were counted; the greatest number of 64 bits where there were more.
    pub(crate) fn calls(&self) -> u64
        ensures { result ≡ min self.now.calls (2 ^ 64 - 1) }
    {
        match self.number {
            Some(number) => number,
            None => u64::MAX,
        }
    }

    fn is_to_fail(&self) -> bool
        ensures { IsTrue result ↔ IsToFail self.now }
    {
        is_among(self.number, self.fails.as_slice()) || is_from(self.number, self.dead_from)
    }
}

fn is_among(number: Option<u64>, fails: &[u64]) -> bool
    ensures { (calls : ℕ) → IsNumber number calls → (IsTrue result ↔ Contains fails.now calls) }
{
    match number {
        Some(number) => fails.contains(&number),
        None => false,
    }
}

fn is_from(number: Option<u64>, dead_from: Option<u64>) -> bool
    ensures { (calls : ℕ) → IsNumber number calls → (IsTrue result ↔ IsSomeAnd dead_from (λ from. from ≤ calls)) }
{
    match (number, dead_from) {
        (Some(number), Some(from)) => from <= number,
        (None, Some(_)) => true,
        (_, None) => false,
    }
}

/// The number after one, where a `u64` holds it.
fn next_of(number: Option<u64>) -> Option<u64>
    ensures { (calls : ℕ) → IsNumber number calls → IsNumber result (calls + 1) }
{
    number?.checked_add(1)
}
