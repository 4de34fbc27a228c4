//! A hash that keeps numbers which come in order beside each other.

use std::hash::{BuildHasherDefault, Hasher};

/// What a map of heads is made with.
pub(crate) type ByNumber = BuildHasherDefault<NumberHasher>;

/// The last eight bytes that were written, the last one highest. A head writes its kind and then the id by which it is looked
/// for. Ids come in order, and records are noted and looked up nearly so: under a hash that scatters them each look-up in a large
/// map waits for memory.
#[derive(Clone, Copy, Default)]
pub(crate) struct NumberHasher {
    last: u64,
}

impl Hasher for NumberHasher {
    ghost use Rattle.std.specs.List.{fold};
    ghost use Rattle.log_visits.specs.Hashing.{marked_place, with_byte};

    ghost write = { λ h bytes. record { last = fold with_byte h.last bytes } };

    ghost finish = { λ h. marked_place h.last };

    /// The low three bytes say where a map looks first: heads of one kind stand in a row, and each kind's row begins elsewhere. The
    /// fourth tells apart most of what is found in one place.
    fn finish(&self) -> u64 {
        let id = self.last >> 32;
        let kind = (self.last >> 24) % 256;
        let mark = self.last.wrapping_mul(0x9e37_79b9_7f4a_7c15) >> 56;
        (mark << 24) + (id + 0x9e_3779 * kind) % (1 << 24)
    }

    fn write(&mut self, bytes: &[u8]) {
        for byte in bytes {
            self.last = (self.last >> 8) + (u64::from(*byte) << 56);
        }
    }
}
