//! The rows of a table in blocks up to a rank.
ghost use Rattle.std.specs.Prelude.{◌≡◌, ⊤, nat_le, filter};
ghost use Rattle.std.specs.Iterator.{YieldsFirstRef, item_count};
ghost use Rattle.sorted_table.specs.Rows.{IsRising};

use crate::{Key, Ranked, Walk};
use std::alloc::AllocError;
use std::cmp::Ordering;
use std::marker::Model;

/// Those rows of a walk whose ranks are at most the key's, in ascending order.
#[derive(Drop)]
pub struct Span<'a, T: Ranked, K: Key<T>> {
    walk: Walk<'a, T>,
    last: K,
}

impl<'a, T: Ranked, K: Key<T>> Model for Span<'a, T, K> {
    ghost use Rattle.std.specs.Prelude.{List, nat_le, filter};
    ghost use Rattle.sorted_table.specs.Rows.{IsRising};

    ghost Value = { List T };

    ghost view = { λ s. filter (λ r. nat_le (T.rank r) (K.sought s.last)) s.walk };

    ghost invariant = { λ s. IsRising T.rank s.walk };
}

impl<'a, T: Ranked, K: Key<T>> Span<'a, T, K> {
    /// The rows of a walk up to the key's rank.
    pub(crate) fn new(walk: Walk<'a, T>, last: K) -> Self
        requires { IsRising T.rank walk }
        ensures { result ≡ filter (λ r. nat_le (T.rank r) (K.sought last)) walk.entry }
    {
        Span { walk, last }
    }
}

impl<'a, T: Ranked, K: Key<T> + Copy> Clone for Span<'a, T, K> {
    ghost is_clone = { λ span copy. copy ≡ span };

    ghost is_infallible = { λ _. ⊤ };

    fn clone(&self) -> Result<Self, AllocError> {
        Ok(Span {
            walk: self.walk.clone()?,
            last: self.last,
        })
    }
}

impl<'a, T: Ranked, K: Key<T> + Drop> Iterator for Span<'a, T, K> {
    type Item = &'a T;

    ghost next_gives = { YieldsFirstRef (λ rest. rest) };

    ghost remaining = { item_count (λ rest. rest) };

    fn next(&mut self) -> Option<&'a T> {
        let row = self.walk.next()?;
        if is_within(row, &self.last) {
            return Some(row);
        }
        None
    }
}

// Whether the row's rank is at most the key's.
fn is_within<T: Ranked, K: Key<T>>(row: &T, last: &K) -> bool
    ensures { result ≡ nat_le (T.rank row.now) (K.sought last.now) }
{
    last.compare_row(row) != Ordering::Greater
}
