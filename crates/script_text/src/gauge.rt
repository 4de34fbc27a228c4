//! How much was fed, against a limit.
ghost use Rattle.std.specs.Prelude.{◌≡◌, ◌<◌, ◌++◌, []};
ghost use Rattle.std.specs.List.{count_by};
ghost use Rattle.script_text.specs.Cutting.{is_newline, line_over};

use crate::fed::Fed;
use std::marker::Model;

/// Counts the bytes and the newlines up to the limit.
#[derive(Drop)]
pub(crate) struct Gauge {
    limit: u64,
    room: u64,
    newlines: u64,
    is_over: bool,
    fed: Fed,
}

impl Model for Gauge {
    ghost use Rattle.std.specs.Prelude.{◌≡◌, ◌<◌, ◌-◌, nat_lt, length, take};
    ghost use Rattle.std.specs.List.{count_by};
    ghost use Rattle.script_text.specs.Cutting.{is_newline};
    ghost use Rattle.script_text.specs.Gauging.{Gauged};

    ghost Value = { Gauged };

    ghost view = { λ g. record { limit = g.limit; fed = g.fed.bytes } };

    ghost invariant = { λ g. (g.limit < 18446744073709551615) × (g.room ≡ g.limit - length g.fed.bytes)
        × (g.newlines ≡ count_by is_newline (take g.limit g.fed.bytes)) × (g.is_over ≡ nat_lt g.limit (length g.fed.bytes)) };
}

impl Gauge {
    /// Of no bytes.
    pub(crate) fn new(limit: u64) -> Gauge
        requires { limit < 18446744073709551615 }
        ensures { result ≡ record { limit = limit; fed = [] } }
    {
        Gauge {
            limit,
            room: limit,
            newlines: 0,
            is_over: false,
            fed: Fed::new(),
        }
    }

    /// With a piece more.
    pub(crate) fn add(&mut self, piece: &[u8])
        ensures { self.new ≡ record { limit = self.old.limit; fed = self.old.fed ++ piece.now } }
    {
        let len = piece.len() as u64;
        self.fed = self.fed.with(piece);
        if len <= self.room {
            self.newlines += count_newlines(piece);
            self.room -= len;
        } else {
            self.newlines += count_newlines(&piece[..self.room as usize]);
            self.room = 0;
            self.is_over = true;
        }
    }

    /// The number of the line that holds the first byte past the limit.
    pub(crate) fn line_over(&self) -> Option<u64>
        ensures { result ≡ line_over self.now.limit self.now.fed }
    {
        if self.is_over {
            Some(self.newlines + 1)
        } else {
            None
        }
    }
}

fn count_newlines(bytes: &[u8]) -> u64
    ensures { result ≡ count_by is_newline bytes.now }
{
    bytes.iter().filter(|byte| **byte == b'\n').count() as u64
}
