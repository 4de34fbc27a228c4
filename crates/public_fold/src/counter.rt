//! The count of serials that an epoch gave out.
ghost use Rattle.std.specs.Prelude.{◌≡◌, ◌+◌, ◌*◌, ◌<◌, ◌≤◌, ◌^◌, MatchOption};

/// Where the counter of serials stands.
#[derive(Clone, Copy, Debug, PartialEq, Eq)]
pub(crate) struct SerialCount {
    /// The epoch, and 0 before the first.
    pub(crate) epoch: u32,
    /// How many serials were given in it.
    pub(crate) count: u32,
}

/// The count once a step took its serials, where it stays below 2^32 - 1.
pub(crate) fn count_after(count: u32, keys: usize, links: usize, contents: usize) -> Option<u32>
    ensures { MatchOption result (4294967295 ≤ count + keys + links + contents) (λ n. (n ≡ count + keys + links + contents)
        × (n < 4294967295)) }
{
    let with_keys = count_more(count, keys)?;
    let with_links = count_more(with_keys, links)?;
    count_more(with_links, contents)
}

/// The sum, where it stays below 2^32 - 1.
fn count_more(count: u32, more: usize) -> Option<u32>
    ensures { MatchOption result (4294967295 ≤ count + more) (λ n. (n ≡ count + more) × (n < 4294967295)) }
{
    if more < (u32::MAX - count) as usize {
        Some(count + more as u32)
    } else {
        None
    }
}

/// The serial that an epoch's counter gives next.
pub(crate) fn next_serial(epoch: u32, count: u32) -> u64
    ensures serial { result ≡ epoch * 2 ^ 32 + count }
    ensures below { result < epoch * 2 ^ 32 + 2 ^ 32 }
{
    u64::from(epoch) * 0x1_0000_0000 + u64::from(count)
}
