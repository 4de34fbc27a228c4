//! Numbers that look random, for what a stop leaves of a disk in memory.
ghost use Rattle.std.specs.Prelude.{◌≤◌};

/// A number that looks random, always the same for the same number: the step of SplitMix64.
pub(crate) fn mixed(number: u64) -> u64 {
    let a = number.wrapping_add(0x9e37_79b9_7f4a_7c15);
    let b = (a ^ (a >> 30)).wrapping_mul(0xbf58_476d_1ce4_e5b9);
    let c = (b ^ (b >> 27)).wrapping_mul(0x94d0_49bb_1331_11eb);
    c ^ (c >> 31)
}

/// A number from one to another, both included, chosen by `pick`. Each of the two is as likely as all between.
pub(crate) fn between(pick: u64, low: usize, high: usize) -> usize
    requires { low ≤ high }
    ensures from { low ≤ result }
    ensures to { result ≤ high }
{
    if low == high {
        return low;
    }
    let number = mixed(pick);
    match number % 3 {
        0 => low,
        1 => high,
        _ => low + (mixed(number) % (high - low) as u64) as usize,
    }
}

/// What a stop makes of a byte that was written since the last sync: the old byte, the new one, or one that
/// nobody wrote. A pick tells it for so many bytes in a row at once, from 1 to all, so that over the picks a
/// write is torn, undone and done.
pub(crate) fn byte_left(pick: u64, place: usize, old: u8, new: u8) -> u8 {
    let in_a_row = match pick % 4 {
        0 => 1,
        1 => 8,
        2 => 512,
        _ => u64::MAX,
    };
    let number = mixed(pick ^ mixed(place as u64 / in_a_row));
    match number % 3 {
        0 => old,
        1 => new,
        _ => (mixed(number ^ place as u64) & 0xff) as u8,
    }
}
