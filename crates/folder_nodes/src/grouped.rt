//! Rows that are found by their numbers, and all those of a group together.
ghost use Rattle.std.specs.Prelude.{◌≡◌, ℕ, ◌+◌, ◌≤◌, ◌<◌, ◌==◌, ◌&&◌, [], All, filter, length, map, nat_le, None};
ghost use Rattle.std.specs.Prelude.{IsOk, IsSome, OnOk, IfOk};
ghost use Rattle.std.specs.List.{list_any};
ghost use Rattle.std.specs.Option.{option_copied};
ghost use Rattle.cry_base.specs.Sets.{In};
ghost use Rattle.folder_nodes.specs.Indexing as index;
ghost use Rattle.folder_nodes.specs.Ranking.{spot_rank};
ghost use Rattle.folder_nodes.specs.declared.spots.Spot.{Spot as TheSpot};
ghost use Rattle.sorted_table.specs.Rows.{IsRising, row_at, with_row, without, replaced};

use crate::spots::{Spot, Spots, are_none};
use cry_base::Mem;
use sorted_table::{Blocks, Key, Ranked, Table, Walk};
use std::alloc::Global;
use std::cmp::Ordering;
use std::marker::Model;

/// A row with a number, in one group of rows.
pub(crate) trait Member: Ranked {
    ghost group: { Self → ℕ };

    /// The row's number, by which it is ranked.
    fn number(&self) -> u32
        ensures { result ≡ Self.rank self.now };

    /// The number of its group.
    fn group_number(&self) -> u32
        ensures { result ≡ group self.now };
}

/// A number that a row is looked up by, whatever the rows are.
#[derive(Drop)]
struct Number(u32);

impl<T: Member> Key<T> for Number {
    ghost sought = { λ key. key.0 };

    fn compare_row(&self, row: &T) -> Ordering {
        row.number().cmp(&self.0)
    }

    fn guess(&self) -> usize {
        (self.0 as usize).saturating_sub(1)
    }
}

/// Rows by number. Each stands in an index too, under its group, so that a look-up of a group looks at no other rows.
/// `spare` is how many changes have their memory.
#[derive(Drop)]
pub(crate) struct Grouped<T: Member> {
    rows: Blocks<T>,
    spots: Blocks<Spot>,
}

impl<T: Member> Model for Grouped<T> {
    ghost use Rattle.std.specs.Prelude.{min};
    ghost use Rattle.folder_nodes.specs.Indexing.{IsIndexed};
    ghost use Rattle.sorted_table.specs.Tabled.{Tabled};

    ghost Value = { Tabled T };

    ghost view = { λ g. record { rows = g.rows.rows; spare = min g.rows.spare g.spots.spare } };

    ghost invariant = { λ g. IsIndexed T.rank T.group g.rows.rows g.spots.rows };
}

impl<T: Member> Grouped<T> {
    /// No rows. It takes no memory.
    pub(crate) fn new(alloc: Global) -> Self
        ensures { result.rows ≡ [] }
    {
        Grouped {
            rows: Blocks::new(alloc),
            spots: Blocks::new(alloc),
        }
    }

    /// The rows in ascending order.
    pub(crate) fn rows(&self) -> Walk<'_, T>
        ensures rows { result ≡ self.now.rows }
        ensures rising { IsRising T.rank self.now.rows }
    {
        self.rows.rows()
    }

    /// How many rows there are. It looks at none of them.
    pub(crate) fn len(&self) -> usize
        ensures { result ≡ length self.now.rows }
    {
        self.rows.len()
    }

    /// The row with the key's rank.
    pub(crate) fn find<K: Key<T>>(&self, key: &K) -> Option<&T>
        ensures row { option_copied result ≡ row_at T.rank self.now.rows (K.sought key.now) }
        ensures rising { IsRising T.rank self.now.rows }
    {
        self.rows.find(key)
    }

    /// The numbers of all rows of the group, in ascending order.
    pub(crate) fn in_group(&self, group: u32) -> Spots<'_>
        ensures rising { IsRising (λ (q : TheSpot). q.id) result }
        ensures all { (r : T) → In r self.now.rows → T.group r ≡ group → In (T.rank r) (map (λ (q : TheSpot). q.id) result) }
    {
        spots_under(&self.spots, group)
    }

    /// Whether a row is of the group.
    pub(crate) fn has_group(&self, group: u32) -> bool
        ensures { result ≡ list_any (λ r. T.group r == group) self.now.rows }
    {
        !are_none(&spots_under(&self.spots, group))
    }
}

impl<T: Member + Drop> Grouped<T> {
    /// The rows of a table, with their index.
    pub(crate) fn of_table(alloc: Global, rows: Table<T>) -> Mem<Self>
        ensures { IfOk result (λ made. made.rows ≡ rows.rows) }
    {
        let rows = Blocks::of_table(alloc, rows)?;
        Self::of_blocks(alloc, rows)
    }

    /// The rows with their index, which is put in order once.
    pub(crate) fn of_blocks(alloc: Global, rows: Blocks<T>) -> Mem<Self>
        ensures { IfOk result (λ made. made.rows ≡ rows.rows) }
    {
        let spots = spots_of(alloc, &rows)?;
        Ok(Grouped { rows, spots })
    }

    /// Takes the memory of one change.
    pub(crate) fn reserve(&mut self) -> Mem<()>
        ensures rows { self.new.rows ≡ self.old.rows }
        ensures room { OnOk result (1 ≤ self.new.spare) }
        ensures kept { self.old.spare ≤ self.new.spare }
        ensures has_room { 1 ≤ self.old.spare → IsOk result }
    {
        self.rows.reserve(1)?;
        self.spots.reserve(1)
    }

    /// Adds a row whose number no row has, where there is room. It takes no memory.
    pub(crate) fn insert(&mut self, row: T)
        requires room { 1 ≤ self.old.spare }
        requires absent { row_at T.rank self.old.rows (T.rank row) ≡ None }
        ensures rows { self.new.rows ≡ with_row T.rank self.old.rows row }
        ensures spare { self.old.spare ≤ self.new.spare + 1 }
    {
        self.spots.insert(spot_in(&row));
        self.rows.insert(row);
    }

    /// Puts a row into the place of the one that has its number, where there is room. The index changes only where the
    /// group does.
    pub(crate) fn replace(&mut self, row: T)
        requires room { 1 ≤ self.old.spare }
        requires there { IsSome (row_at T.rank self.old.rows (T.rank row)) }
        ensures rows { self.new.rows ≡ replaced T.rank self.old.rows row }
        ensures spare { self.old.spare ≤ self.new.spare + 1 }
    {
        let to = spot_in(&row);
        let Some(was) = self.rows.find(&Number(to.id)) else {
            unreachable!();
        };
        let from = spot_in(was);
        if from.group == to.group {
            self.rows.replace(row);
            return;
        }
        self.spots.exchange(&from, to);
        self.rows.replace(row);
    }

    /// Takes the row with the key's rank out, where there is one.
    pub(crate) fn remove<K: Key<T>>(&mut self, key: &K)
        ensures rows { self.new.rows ≡ without T.rank self.old.rows (K.sought key.now) }
        ensures spare { self.old.spare ≤ self.new.spare }
    {
        let Some(row) = self.rows.find(key) else {
            return;
        };
        let spot = spot_in(row);
        let _ = self.spots.remove(&spot);
        let _ = self.rows.remove(key);
    }
}

impl<T: Member + Copy> Grouped<T> {
    /// Equal rows, with memory of their own.
    pub(crate) fn copy(&self) -> Mem<Self>
        ensures { IfOk result (λ copy. copy.rows ≡ self.now.rows) }
    {
        let rows = self.rows.copy()?;
        let spots = self.spots.copy()?;
        Ok(Grouped { rows, spots })
    }
}

/// The places in the group, in ascending order.
fn spots_under(spots: &Blocks<Spot>, group: u32) -> Spots<'_>
    ensures places { result ≡ filter (λ q. nat_le (spot_rank group 0) (spot_rank q.group q.id)
        && nat_le (spot_rank q.group q.id) (spot_rank group 4294967295)) spots.now.rows }
    ensures rising { IsRising (λ (q : TheSpot). spot_rank q.group q.id) result }
{
    let first = Spot { group, id: 0 };
    let last = Spot {
        group,
        id: u32::MAX,
    };
    spots.rows_between(&first, last)
}

/// Where the row stands in the index.
fn spot_in<T: Member>(row: &T) -> Spot
    ensures place { result ≡ index.place_of T.rank T.group row.now }
    ensures small { T.rank row.now < 4294967296 }
{
    Spot {
        group: row.group_number(),
        id: row.number(),
    }
}

/// The index of the rows by their groups.
fn spots_of<T: Member>(alloc: Global, rows: &Blocks<T>) -> Mem<Blocks<Spot>>
    ensures { IfOk result (λ spots. index.IsIndexed T.rank T.group rows.now.rows spots.rows) }
{
    let spots = spots_by_number(alloc, rows.len(), rows.rows())?;
    Blocks::of_unordered(alloc, spots)
}

/// Where the rows, so many, stand in their groups, in the order of the rows.
fn spots_by_number<T: Member>(alloc: Global, count: usize, rows: Walk<'_, T>) -> Mem<Vec<Spot>>
    ensures spots { IfOk result (λ spots. spots.items ≡ map (index.place_of T.rank T.group) rows.entry) }
    ensures small { OnOk result (All (λ r. T.rank r < 4294967296) rows.entry) }
{
    let mut spots = Vec::with_capacity(alloc, count)?;
    for row in rows {
        spots.push(spot_in(row))?;
    }
    Ok(spots)
}
