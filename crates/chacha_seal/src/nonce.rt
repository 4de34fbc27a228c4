//! A serial on its way to the one key or the one sealed record that takes it.
ghost use Rattle.std.specs.Prelude.{◌≡◌};

use cry_base::Serial;
use std::marker::Model;

/// A serial that must be spent once. It is not `Drop`, so that it can't be lost unnoticed, and not
/// `Clone`, so that it can't be spent twice. Contracts see it as the number.
pub struct Nonce {
    serial: u64,
}

impl Model for Nonce {
    ghost use Rattle.std.specs.Prelude.{ℕ};

    ghost Value = { ℕ };

    ghost view = { λ nonce. nonce.serial };
}

impl Nonce {
    pub(crate) fn new(serial: u64) -> Nonce
        ensures { result ≡ serial }
    {
        Nonce { serial }
    }

    pub(crate) fn spend(self) -> u64
        ensures { result ≡ self }
    {
        let Nonce { serial } = self;
        serial
    }

    /// The serial.
    pub fn serial(&self) -> Serial
        ensures { result.0 ≡ self.now }
    {
        Serial(self.serial)
    }

    /// Gives the serial up. Its counter never gives it again.
    pub fn discard(self) {
        let Nonce { serial: _ } = self;
    }
}
