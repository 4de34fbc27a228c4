//! A disk: what reads give, what a stop may leave, and a clock of moments, so that a clause can speak of
//! every moment inside a call.
ghost use Rattle.std.specs.Prelude.{◌≡◌, ◌<◌, ◌≤◌, ◌+◌, ◌^◌, ◌↔◌, ℕ, List, length, max, Option, Some, is_some, OnOk, OnErr, slice_range};
ghost use Rattle.cry_io.specs.Counts.{CountsFault};
ghost use Rattle.cry_io.specs.Told.{WhereTold, WhereBothTold};
ghost use Rattle.cry_io.specs.Stops.{Written, Torn, Follows, Elapses};

use crate::Failed;

/// Bytes that stay. A place is a number of bytes from the start.
///
/// What is shown, what a stop may leave, and the moments are told only by a disk that can know them. Such a
/// disk shows something; one that tells nothing shows `None`, and no stop leaves anything there.
pub trait Disk {
    /// The number of bytes. It is always told.
    ghost size_of: { Self → ℕ };

    /// What reads give, where told.
    ghost shown: { Self → Option (List ℕ) };

    /// Whether a stop now may leave these bytes.
    ghost may_leave: { Self → List ℕ → Type 0 };

    /// The present moment. It never falls.
    ghost moment: { Self → ℕ };

    /// Whether, at some moment since this one, the first bytes were shown and a stop might have left the second.
    ghost since: { Self → ℕ → List ℕ → List ℕ → Type 0 };

    /// How often a call failed. It never falls.
    ghost faults: { Self → ℕ };

    /// The number of bytes.
    fn size(&self) -> u64
        ensures { result ≡ size_of self.now };

    /// Fills the buffer with the bytes at a place. It changes nothing that is shown or that a stop may leave.
    /// `Failed` comes only where `faults` rose in this call.
    fn read_at(&mut self, place: u64, buf: &mut [u8]) -> Result<(), Failed>
        requires { place + length buf.old ≤ size_of self.old }
        ensures bytes { OnOk result (WhereTold (shown self.old) (λ s. buf.new ≡ slice_range s place (place + length buf.old))) }
        ensures shown { shown self.new ≡ shown self.old }
        ensures size { size_of self.new ≡ size_of self.old }
        ensures stops { (c : List ℕ) → may_leave self.new c ↔ may_leave self.old c }
        ensures time { Elapses (moment self.old) (moment self.new) (since self.old) (since self.new) (shown self.new) (may_leave self.new) }
        ensures counts { CountsFault result (faults self.old) (faults self.new) };

    /// Writes bytes at a place, over what is there and past the end. Until the next sync a stop may leave any
    /// bytes in their range, and any size in between. `Failed` comes only where `faults` rose in this call, and
    /// then any bytes may be shown in that range.
    fn write_at(&mut self, place: u64, bytes: &[u8]) -> Result<(), Failed>
        requires inside { place ≤ size_of self.old }
        requires fits { place + length bytes.now < 2 ^ 64 }
        ensures told { is_some (shown self.new) ≡ is_some (shown self.old) }
        ensures written { OnOk result (WhereBothTold (shown self.old) (shown self.new) (Written place bytes.now)) }
        ensures torn { OnErr result (WhereBothTold (shown self.old) (shown self.new) (Torn place (length bytes.now))) }
        ensures size { OnOk result (size_of self.new ≡ max (size_of self.old) (place + length bytes.now)) }
        ensures no_shorter { size_of self.old ≤ size_of self.new }
        ensures no_longer { size_of self.new ≤ max (size_of self.old) (place + length bytes.now) }
        ensures stops { (c : List ℕ) → may_leave self.new c → Follows (Torn place (length bytes.now)) (may_leave self.old) c }
        ensures all_stops { OnOk result ((c : List ℕ) → Follows (Torn place (length bytes.now)) (may_leave self.old) c
            → may_leave self.new c) }
        ensures time { Elapses (moment self.old) (moment self.new) (since self.old) (since self.new) (shown self.new) (may_leave self.new) }
        ensures counts { CountsFault result (faults self.old) (faults self.new) };

    /// Makes what is shown stay: after it a stop leaves exactly that. `Failed` comes only where `faults` rose
    /// in this call, and then a stop leaves nothing that it couldn't leave before.
    fn sync(&mut self) -> Result<(), Failed>
        ensures durable { OnOk result ((c : List ℕ) → may_leave self.new c → shown self.new ≡ Some c) }
        ensures shown { shown self.new ≡ shown self.old }
        ensures size { size_of self.new ≡ size_of self.old }
        ensures stops { (c : List ℕ) → may_leave self.new c → may_leave self.old c }
        ensures time { Elapses (moment self.old) (moment self.new) (since self.old) (since self.new) (shown self.new) (may_leave self.new) }
        ensures counts { CountsFault result (faults self.old) (faults self.new) };

    /// The size is that of what is shown.
    ghost size_is_shown: { (disk : Self) (s : List ℕ) → shown disk ≡ Some s → length s ≡ size_of disk };

    /// What is shown is one of the lists that a stop may leave.
    ghost shown_may_be_left: { (disk : Self) (s : List ℕ) → shown disk ≡ Some s → may_leave disk s };

    /// This moment is one of those since an earlier one.
    ghost counts_now: { (disk : Self) (t : ℕ) (s c : List ℕ) →
        t ≤ moment disk → shown disk ≡ Some s → may_leave disk c → since disk t s c };

    /// Since this moment there is no other.
    ghost only_now: { (disk : Self) (s c : List ℕ) →
        since disk (moment disk) s c → (shown disk ≡ Some s) × may_leave disk c };
}
