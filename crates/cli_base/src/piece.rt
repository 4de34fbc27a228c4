//! The bytes of one read.
ghost use Rattle.std.specs.Prelude.{◌≡◌, ◌≤◌, [], ◌++◌, length, drop, is_some, IfOk, OnErr, Ok};
ghost use Rattle.cry_io.specs.Counts.{CountsFault};
ghost use Rattle.cry_io.specs.Told.{WhereTold, WhereBothTold};

use cry_io::{Failed, Source};
use std::marker::Model;

/// How many bytes are asked for at once.
const PIECE_LEN: usize = 4096;

/// What one read gave, without its first bytes that were taken.
#[derive(Drop)]
pub(crate) struct Piece {
    bytes: [u8; PIECE_LEN],
    at: usize,
    end: usize,
}

impl Model for Piece {
    ghost use Rattle.std.specs.Prelude.{◌≤◌, ℕ, List, take, drop};

    ghost Value = { List ℕ };

    ghost view = { λ p. drop p.at (take p.end p.bytes) };

    ghost invariant = { λ p. (p.at ≤ p.end) × (p.end ≤ 4096) };
}

impl Piece {
    /// Before the first read.
    pub(crate) fn empty() -> Piece
        ensures { result ≡ [] }
    {
        Piece {
            bytes: [0; PIECE_LEN],
            at: 0,
            end: 0,
        }
    }

    /// The bytes that weren't taken.
    pub(crate) fn as_slice(&self) -> &[u8]
        ensures { result.now ≡ self.now }
    {
        &self.bytes[..self.end][self.at..]
    }

    /// Takes the first bytes.
    pub(crate) fn skip(&mut self, count: usize)
        requires { count ≤ length self.old }
        ensures { self.new ≡ drop count self.old }
    {
        self.at += count;
    }

    /// Reads the next bytes of a source, where all were taken, and says how many came: 0 is its end.
    pub(crate) fn fill<S: Source>(&mut self, input: &mut S) -> Result<usize, Failed>
        requires { self.old ≡ [] }
        ensures told { is_some (S.left input.new) ≡ is_some (S.left input.old) }
        ensures bytes { WhereBothTold (S.left input.old) (S.left input.new) (λ before after. before ≡ self.new ++ after) }
        ensures at_end { result ≡ Ok 0 → WhereTold (S.left input.old) (λ before. before ≡ []) }
        ensures count { IfOk result (λ count. count ≡ length self.new) }
        ensures few { length self.new ≤ 4096 }
        ensures err { OnErr result (self.new ≡ []) }
        ensures counts { CountsFault result (S.faults input.old) (S.faults input.new) }
    {
        self.at = 0;
        self.end = 0;
        let Ok(count) = input.read(&mut self.bytes) else {
            return Err(Failed);
        };
        self.end = count;
        Ok(count)
    }
}
