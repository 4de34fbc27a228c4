//! Rows in ascending order of their ranks.
ghost use Rattle.std.specs.Prelude.{◌≡◌, ◌+◌, ◌-◌, ◌<◌, ◌≤◌, ◌&&◌, ◌++◌, ◌∷◌, [], List, length, nat_le, filter, IsOk, IsSome};
ghost use Rattle.std.specs.Prelude.{OnOk, IfOk, IfErr, IsTrue, MatchOption};
ghost use Rattle.std.specs.Prelude.{◌↔◌, ◌≢◌, None, All, AllPairs};
ghost use Rattle.std.specs.Fn.{CalledAt};
ghost use Rattle.std.specs.List.{remove};
ghost use Rattle.std.specs.List.Retain.{IsFiltered};
ghost use Rattle.std.specs.List.Sorted.{IsPermutation};
ghost use Rattle.std.specs.Option.{option_copied};
ghost use Rattle.sorted_table.specs.Parts.{first_rank};
ghost use Rattle.sorted_table.specs.Places.{IsAt, IsGapFor};
ghost use Rattle.sorted_table.specs.Rows.{IsRising, row_at, with_row, without, replaced};

use crate::ranked::SameRank;
use crate::{Key, Ranked};
use cry_base::Mem;
use std::alloc::Global;
use std::cmp::Ordering;
use std::marker::Model;

/// Rows in ascending order of their ranks, which all differ. `spare` is how many more fit without memory; it may be
/// more than was asked for. A look-up compares once where the key guesses its row's place or where the row goes behind all,
/// and among n rows about log2(n) times elsewhere; a row that comes or goes moves those behind it.
#[derive(Drop)]
pub struct Table<T: Ranked> {
    rows: Vec<T>,
}

impl<T: Ranked> Model for Table<T> {
    ghost use Rattle.std.specs.Prelude.{◌-◌, vec_len, vec_capacity};
    ghost use Rattle.sorted_table.specs.Rows.{IsRising};
    ghost use Rattle.sorted_table.specs.Tabled.{Tabled};

    ghost Value = { Tabled T };

    ghost view = { λ t. record { rows = t.rows.items; spare = vec_capacity t.rows - vec_len t.rows } };

    ghost invariant = { λ t. IsRising T.rank t.rows.items };
}

impl<T: Ranked> Table<T> {
    /// A table without rows. It takes no memory.
    pub fn new(alloc: Global) -> Self
        ensures { result.rows ≡ [] }
    {
        Table {
            rows: Vec::new(alloc),
        }
    }

    /// A table of rows in any order, whose ranks all differ. It puts them in order where they are, and takes no memory.
    pub fn of_unordered(mut rows: Vec<T>) -> Self
        requires { AllPairs (λ x y. T.rank x ≢ T.rank y) rows.items }
        ensures { IsPermutation rows.items result.rows }
    {
        rows.sort_unstable_by(|row, other| row.compare(other));
        Table { rows }
    }

    /// The rows in ascending order.
    pub fn as_slice(&self) -> &[T]
        ensures rows { result.now ≡ self.now.rows }
        ensures rising { IsRising T.rank self.now.rows }
    {
        &self.rows
    }

    /// The row with the key's rank.
    pub fn find<K: Key<T>>(&self, key: &K) -> Option<&T>
        ensures row { option_copied result ≡ row_at T.rank self.now.rows (K.sought key.now) }
        ensures rising { IsRising T.rank self.now.rows }
    {
        match place_of(&self.rows, key) {
            Ok(at) => Some(&self.rows[at]),
            Err(_) => None,
        }
    }

    /// The rows with ranks from that of the first key up to that of the last one, in ascending order.
    pub fn rows_between<K: Key<T>>(&self, first: &K, last: &K) -> &[T]
        ensures rows { result.now ≡ filter (λ r. nat_le (K.sought first.now) (T.rank r)
            && nat_le (T.rank r) (K.sought last.now)) self.now.rows }
        ensures rising { IsRising T.rank result.now }
    {
        rows_to(rows_from(&self.rows, first), last)
    }

    /// How many rows there are.
    pub(crate) fn len(&self) -> usize
        ensures { result ≡ length self.now.rows }
    {
        self.rows.len()
    }

    /// Whether the first row's rank is at most the key's, or there are none.
    pub(crate) fn starts_by<K: Key<T>>(&self, key: &K) -> bool
        ensures { result ≡ nat_le (first_rank T.rank self.now.rows) (K.sought key.now) }
    {
        match self.rows.first() {
            Some(row) => key.compare_row(row) != Ordering::Greater,
            None => true,
        }
    }

    /// The rows from the key's rank on, in ascending order.
    pub(crate) fn rows_from<K: Key<T>>(&self, key: &K) -> &[T]
        ensures { result.now ≡ filter (λ r. nat_le (K.sought key.now) (T.rank r)) self.now.rows }
    {
        rows_from(&self.rows, key)
    }

    /// Whether all rows have ranks below the key's.
    pub(crate) fn ends_below<K: Key<T>>(&self, key: &K) -> bool
        ensures { IsTrue result → All (λ r. T.rank r < K.sought key.now) self.now.rows }
    {
        match self.rows.last() {
            Some(row) => matches!(key.compare_row(row), Ordering::Less),
            None => true,
        }
    }

    /// A table without rows, with room for so many.
    pub(crate) fn with_room(alloc: Global, room: usize) -> Mem<Self>
        ensures { IfOk result (λ made. (made.rows ≡ []) × (room ≤ made.spare)) }
    {
        Ok(Table {
            rows: Vec::with_capacity(alloc, room)?,
        })
    }

    /// Makes room for at least `more` rows beside those that are there.
    pub fn reserve(&mut self, more: usize) -> Mem<()>
        ensures rows { self.new.rows ≡ self.old.rows }
        ensures room { OnOk result (more ≤ self.new.spare) }
        ensures kept { self.old.spare ≤ self.new.spare }
        ensures has_room { more ≤ self.old.spare → IsOk result }
    {
        self.rows.reserve(more)?;
        Ok(())
    }
}

impl<T: Ranked + Drop> Table<T> {
    /// Adds a row whose rank no row has, where there is room. It takes no memory.
    pub fn insert(&mut self, row: T)
        requires room { 1 ≤ self.old.spare }
        requires absent { row_at T.rank self.old.rows (T.rank row) ≡ None }
        ensures rows { self.new.rows ≡ with_row T.rank self.old.rows row }
        ensures spare { self.old.spare ≤ self.new.spare + 1 }
        ensures count { length self.new.rows ≡ length self.old.rows + 1 }
    {
        let Err(at) = place_of(&self.rows, &SameRank(&row)) else {
            unreachable!();
        };
        let _ = self.rows.insert(at, row);
    }

    /// Puts a row into the place of the one that has its rank.
    pub fn replace(&mut self, row: T)
        requires { IsSome (row_at T.rank self.old.rows (T.rank row)) }
        ensures rows { self.new.rows ≡ replaced T.rank self.old.rows row }
        ensures spare { self.new.spare ≡ self.old.spare }
    {
        let Ok(at) = place_of(&self.rows, &SameRank(&row)) else {
            unreachable!();
        };
        self.rows[at] = row;
    }

    /// Takes the row with the key's rank out, where there is one.
    pub fn remove<K: Key<T>>(&mut self, key: &K) -> Option<T>
        ensures row { result ≡ row_at T.rank self.old.rows (K.sought key.now) }
        ensures rows { self.new.rows ≡ without T.rank self.old.rows (K.sought key.now) }
        ensures spare { self.old.spare ≤ self.new.spare }
        ensures room { length self.old.rows + self.old.spare ≤ length self.new.rows + self.new.spare }
        ensures fewer { length self.new.rows ≤ length self.old.rows }
    {
        match place_of(&self.rows, key) {
            Ok(at) => Some(self.rows.remove(at)),
            Err(_) => None,
        }
    }

    /// Moves the rows from the place on into a table without rows, where there is room.
    pub(crate) fn move_tail(&mut self, at: usize, tail: &mut Table<T>)
        requires empty { tail.old.rows ≡ [] }
        requires room { length self.old.rows ≤ at + tail.old.spare }
        requires within { at ≤ length self.old.rows }
        ensures rows { self.old.rows ≡ self.new.rows ++ tail.new.rows }
        ensures count { length self.new.rows ≡ at }
        ensures spare { length self.old.rows + self.old.spare ≤ length self.new.rows + self.new.spare }
        ensures tail_spare { tail.old.spare ≤ length tail.new.rows + tail.new.spare }
    {
        while self.rows.len() > at {
            let Some(row) = self.rows.pop() else {
                unreachable!();
            };
            let _ = tail.rows.push(row);
        }
        tail.rows.reverse();
    }

    /// Adds a row whose rank no row has to a table without room: the upper half of the rows moves into a table without rows,
    /// or the upper quarter where the row goes behind all, so that rows which come in order fill three quarters of their tables.
    pub(crate) fn split(&mut self, row: T, upper: &mut Table<T>)
        requires absent { row_at T.rank self.old.rows (T.rank row) ≡ None }
        requires full { length self.old.rows ≡ 128 }
        requires empty { upper.old.rows ≡ [] }
        requires room { 128 ≤ upper.old.spare }
        ensures rows { self.new.rows ++ upper.new.rows ≡ with_row T.rank self.old.rows row }
        ensures count { length self.new.rows + length upper.new.rows ≡ 129 }
        ensures left { (1 ≤ length self.new.rows) × (length self.new.rows ≤ 97) }
        ensures moved { (1 ≤ length upper.new.rows) × (length upper.new.rows ≤ 97) }
        ensures spare { length self.old.rows + self.old.spare ≤ length self.new.rows + self.new.spare }
        ensures upper_spare { upper.old.spare ≤ length upper.new.rows + upper.new.spare }
    {
        let rows = self.as_slice().len();
        let moved = if self.ends_below(&SameRank(&row)) {
            32
        } else {
            64
        };
        self.move_tail(rows - moved, upper);
        if upper.starts_by(&SameRank(&row)) {
            upper.insert(row);
        } else {
            self.insert(row);
        }
    }

    /// Takes out all rows that the test doesn't keep. It looks at each row once.
    pub fn retain<F: FnMut(&T) -> bool>(&mut self, keep: F)
        requires { F.IsAlwaysCallable keep }
        ensures rows { IsFiltered (CalledAt F.FnMut) keep self.old.rows self.new.rows }
        ensures spare { self.old.spare ≤ self.new.spare }
    {
        self.rows.retain(keep);
    }
}

impl<T: Ranked + Copy> Table<T> {
    /// A table of these rows, where each one's rank is above that of the one before, with a buffer of its own.
    pub fn of_rows(alloc: Global, rows: &[T]) -> Mem<Option<Self>>
        ensures { IfOk result (λ made. MatchOption made (IsRising T.rank rows.now → ⊥) (λ table. table.rows ≡ rows.now)) }
    {
        if !is_rising(rows) {
            return Ok(None);
        }
        Ok(Some(Table {
            rows: Vec::from_slice(alloc, rows)?,
        }))
    }

    /// An equal table with a buffer of its own, which has room for so many rows in all.
    pub(crate) fn copy_with_room(&self, room: usize) -> Mem<Self>
        ensures { IfOk result (λ copy. (copy.rows ≡ self.now.rows) × (room ≤ length copy.rows + copy.spare)) }
    {
        let mut rows = Vec::with_capacity(*self.rows.allocator(), room)?;
        rows.extend_from_slice(&self.rows)?;
        Ok(Table { rows })
    }

    /// An equal table, with a buffer of its own.
    pub fn copy(&self) -> Mem<Self>
        ensures { IfOk result (λ copy. copy.rows ≡ self.now.rows) }
    {
        Ok(Table {
            rows: Vec::from_slice(*self.rows.allocator(), &self.rows)?,
        })
    }
}

// Whether each row's rank is above that of the row before.
fn is_rising<T: Ranked>(rows: &[T]) -> bool
    ensures { IsTrue result ↔ IsRising T.rank rows.now }
{
    for at in 1..rows.len() {
        if rows[at - 1].compare(&rows[at]) != Ordering::Less {
            return false;
        }
    }
    true
}

// The rows from the key's rank on.
fn rows_from<'a, T: Ranked, K: Key<T>>(rows: &'a [T], key: &K) -> &'a [T]
    requires { IsRising T.rank rows.now }
    ensures { result.now ≡ filter (λ r. nat_le (K.sought key.now) (T.rank r)) rows.now }
{
    match place_of(rows, key) {
        Ok(at) => &rows[at..],
        Err(at) => &rows[at..],
    }
}

// The rows up to the key's rank.
fn rows_to<'a, T: Ranked, K: Key<T>>(rows: &'a [T], key: &K) -> &'a [T]
    requires { IsRising T.rank rows.now }
    ensures { result.now ≡ filter (λ r. nat_le (T.rank r) (K.sought key.now)) rows.now }
{
    match place_of(rows, key) {
        Ok(at) => &rows[..at + 1],
        Err(at) => &rows[..at],
    }
}

// Where the key's row is, or where it would go. One comparison finds a row that is where the key guesses, or that goes behind all.
fn place_of<T: Ranked, K: Key<T>>(rows: &[T], key: &K) -> Result<usize, usize>
    requires { IsRising T.rank rows.now }
    ensures found { IfOk result (IsAt T.rank rows.now (K.sought key.now)) }
    ensures absent { IfErr result (IsGapFor T.rank rows.now (K.sought key.now)) }
{
    let Some(last) = rows.len().checked_sub(1) else {
        return Err(0);
    };
    let at = key.guess().min(last);
    match key.compare_row(&rows[at]) {
        Ordering::Equal => Ok(at),
        Ordering::Less if at == last => Err(rows.len()),
        _ => rows.binary_search_by(|row| key.compare_row(row)),
    }
}
