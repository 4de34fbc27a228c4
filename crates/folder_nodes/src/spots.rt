//! Where a row stands in an index: under the number of its group, beside the rows of that group.
ghost use Rattle.std.specs.Prelude.{◌≡◌, ◌==◌, length, nat_le, nat_lt};
ghost use Rattle.folder_nodes.specs.Ranking.{spot_rank};

use sorted_table::{Key, Ranked, Span};
use std::cmp::Ordering;

/// The number of a folder or file, under that of its group.
#[derive(Clone, Copy, Debug)]
pub(crate) struct Spot {
    pub(crate) group: u32,
    pub(crate) id: u32,
}

impl Spot {
    /// Its place among all spots: by group, and in one group by number.
    fn place(&self) -> u64
        ensures { result ≡ spot_rank self.now.group self.now.id }
    {
        u64::from(self.group) * (1 << 32) + u64::from(self.id)
    }
}

impl Ranked for Spot {
    ghost use Rattle.folder_nodes.specs.Ranking.{spot_rank};

    ghost rank = { λ spot. spot_rank spot.group spot.id };

    fn compare(&self, other: &Self) -> Ordering {
        self.place().cmp(&other.place())
    }
}

impl Key<Spot> for Spot {
    ghost use Rattle.folder_nodes.specs.Ranking.{spot_rank};

    ghost sought = { λ spot. spot_rank spot.group spot.id };

    fn compare_row(&self, row: &Spot) -> Ordering {
        row.compare(self)
    }
}

/// The spots of one group that are still to come, in ascending order.
pub(crate) type Spots<'a> = Span<'a, Spot, Spot>;

/// The same spots once more.
pub(crate) fn again<'a>(spots: &Spots<'a>) -> Spots<'a>
    ensures { result ≡ spots.now }
{
    let Ok(copy) = spots.clone() else {
        unreachable!();
    };
    copy
}

/// Whether no spots are left.
pub(crate) fn are_none(spots: &Spots<'_>) -> bool
    ensures { result ≡ (length spots.now == 0) }
{
    again(spots).next().is_none()
}

/// Whether there are at most so many spots. It looks at one more than that at the most.
pub(crate) fn are_at_most(spots: &Spots<'_>, most: usize) -> bool
    ensures { result ≡ nat_le (length spots.now) most }
{
    again(spots).nth(most).is_none()
}

/// Whether there are fewer spots than others. It looks at both until one ends, so it costs no more than the shorter.
pub(crate) fn are_fewer(spots: &Spots<'_>, others: &Spots<'_>) -> bool
    ensures { result ≡ nat_lt (length spots.now) (length others.now) }
{
    let mut left = again(spots);
    let mut others_left = again(others);
    while others_left.next().is_some() {
        if left.next().is_none() {
            return true;
        }
    }
    false
}
