//! The serials of one epoch, in turn.
ghost use Rattle.std.specs.Prelude.{◌≡◌, ◌≢◌, ℕ, ◌+◌, ◌-◌, ◌^◌, ◌<◌};
ghost use Rattle.chacha_seal.specs.Serials.{serial_of};

use crate::Nonce;
use cry_base::Epoch;
use std::marker::Model;

/// Gives the serials `epoch * 2^32 + count`, with counts from 0. Contracts see the epoch and how
/// many serials were given.
#[derive(Debug, Drop)]
pub struct Counter {
    epoch: Epoch,
    count: u32,
}

impl Model for Counter {
    ghost use Rattle.chacha_seal.specs.Serials.{Counting};

    ghost Value = { Counting };

    ghost view = { λ counter. record { epoch = counter.epoch.0; count = counter.count } };
}

impl Counter {
    /// A counter that has given nothing yet.
    pub fn new(epoch: Epoch) -> Counter
        ensures { result ≡ record { epoch = epoch.0; count = 0 } }
    {
        Counter { epoch, count: 0 }
    }

    /// How many serials were given.
    pub fn count(&self) -> u32
        ensures { result ≡ self.now.count }
    {
        self.count
    }

    /// The next serial. None is given twice.
    pub fn next(&mut self) -> Nonce
        requires { self.old.count < 2 ^ 32 - 1 }
        ensures serial { result ≡ serial_of self.old.epoch self.old.count }
        ensures rises { self.new ≡ record self.old { count = self.old.count + 1 } }
        ensures not_given_before { (count : ℕ) → count < self.old.count
            → result ≢ serial_of self.old.epoch count }
        ensures fits { result < 2 ^ 64 }
    {
        let serial = u64::from(self.epoch.0) * (1 << 32) + u64::from(self.count);
        self.count += 1;
        Nonce::new(serial)
    }
}
