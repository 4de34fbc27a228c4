//! What puts rows in order, and what a row is looked up by.
ghost use Rattle.std.specs.Prelude.{◌≡◌, ℕ};
ghost use Rattle.std.specs.Ordering.{nat_cmp};

use std::cmp::Ordering;

/// A row's rank decides its place in a table. Two rows of one rank never stand in one table.
pub trait Ranked {
    ghost rank: { Self → ℕ };

    /// How this row's rank compares with the other's.
    fn compare(&self, other: &Self) -> Ordering
        ensures { result ≡ nat_cmp (rank self.now) (rank other.now) };
}

/// What a row is looked up by: the rank that is sought, without a row that has it.
pub trait Key<T: Ranked> {
    ghost sought: { Self → ℕ };

    /// How the row's rank compares with the one that is sought.
    fn compare_row(&self, row: &T) -> Ordering
        ensures { result ≡ nat_cmp (T.rank row.now) (sought self.now) };

    /// The place where a look-up looks first: that of the row, if no row before it ever went. A wrong guess costs one
    /// comparison, or three at the most where rows stand in blocks, and one past the end stands for the last row.
    fn guess(&self) -> usize {
        usize::MAX
    }
}

/// The rank of a row at hand.
#[derive(Drop)]
pub(crate) struct SameRank<'a, T>(pub(crate) &'a T);

impl<'a, T: Ranked> Key<T> for SameRank<'a, T> {
    ghost sought = { λ key. T.rank key.0.now };

    fn compare_row(&self, row: &T) -> Ordering {
        row.compare(self.0)
    }
}

/// A key to the rows from a place on, which guesses the place among them.
#[derive(Drop)]
pub(crate) struct Within<'a, K> {
    pub(crate) key: &'a K,
    pub(crate) before: usize,
}

impl<'a, T: Ranked, K: Key<T>> Key<T> for Within<'a, K> {
    ghost sought = { λ within. K.sought within.key.now };

    fn compare_row(&self, row: &T) -> Ordering {
        self.key.compare_row(row)
    }

    fn guess(&self) -> usize {
        self.key.guess().saturating_sub(self.before)
    }
}
