//! Bytes that come in and bytes that go out. Contents are told only by what can know them: a fake tells
//! them, an adapter over a real stream doesn't, and both are proved against the same clauses.
ghost use Rattle.std.specs.Prelude.{◌≡◌, ◌<◌, ◌≤◌, ℕ, List, length, Option, is_some, IfOk};
ghost use Rattle.cry_io.specs.Counts.{CountsFault};
ghost use Rattle.cry_io.specs.Told.{WhereBothTold};
ghost use Rattle.cry_io.specs.Streams.{Reads, IsAtEnd, Takes};

use crate::Failed;

/// Where bytes come from.
pub trait Source {
    /// The bytes still to come, where told.
    ghost left: { Self → Option (List ℕ) };

    /// How often a call failed. It never falls.
    ghost faults: { Self → ℕ };

    /// Reads the next bytes into the front of the buffer, and says how many. 0 into a buffer that isn't
    /// empty is the end. `Failed` comes only where `faults` rose in this call; nothing is lost by it.
    fn read(&mut self, buf: &mut [u8]) -> Result<usize, Failed>
        ensures within { IfOk result (λ n. n ≤ length buf.old) }
        ensures told { is_some (left self.new) ≡ is_some (left self.old) }
        ensures bytes { WhereBothTold (left self.old) (left self.new) (Reads result buf.new) }
        ensures at_end { WhereBothTold (left self.old) (left self.new) (IsAtEnd result buf.old) }
        ensures counts { CountsFault result (faults self.old) (faults self.new) };
}

/// Where bytes go.
pub trait Sink {
    /// All bytes taken so far, where told.
    ghost written: { Self → Option (List ℕ) };

    /// How often a call failed. It never falls.
    ghost faults: { Self → ℕ };

    /// Takes some of the first bytes of a piece, at least one where there is one, and says how many.
    /// `Failed` comes only where `faults` rose in this call, and then nothing was taken.
    fn write(&mut self, piece: &[u8]) -> Result<usize, Failed>
        ensures within { IfOk result (λ n. n ≤ length piece.now) }
        ensures goes_on { IfOk result (λ n. 0 < length piece.now → 0 < n) }
        ensures told { is_some (written self.new) ≡ is_some (written self.old) }
        ensures bytes { WhereBothTold (written self.old) (written self.new) (Takes result piece.now) }
        ensures counts { CountsFault result (faults self.old) (faults self.new) };
}
