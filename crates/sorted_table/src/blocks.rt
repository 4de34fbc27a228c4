//! Rows in ascending order of their ranks, in blocks: one that comes or goes moves no rows but those of its block.
ghost use Rattle.std.specs.Prelude.{◌≡◌, ◌+◌, ◌-◌, ◌*◌, ◌/◌, ◌^◌, min, ◌<◌, ◌≤◌, ◌&&◌, [], length, vec_len, vec_capacity, All};
ghost use Rattle.std.specs.Prelude.{nat_le, filter, IsOk, IsSome, OnOk, IfOk, MatchOption};
ghost use Rattle.std.specs.Prelude.{◌≢◌, None, AllPairs, IsTrue};
ghost use Rattle.std.specs.List.Sorted.{IsPermutation};
ghost use Rattle.std.specs.Option.{option_copied};
ghost use Rattle.sorted_table.specs.Parts.{rows_of, all_over, held, IsBlock, IsBlockFor, IsFresh};
ghost use Rattle.sorted_table.specs.Tabled.{Tabled};
ghost use Rattle.sorted_table.specs.Rows.{IsRising, row_at, with_row, without, replaced};

use crate::ranked::{SameRank, Within};
use crate::{Key, Ranked, Span, Table, Walk};
use cry_base::{Mem, OutOfMemory};
use std::alloc::Global;
use std::marker::Model;

/// How many rows a block has at the most.
const MOST: usize = 128;

/// How many rows a block keeps that has filled from its end. So rows that came in order, of which none went, stand so many to a block.
const FILLED: usize = 96;

/// How many rows a block that splits has then at the most.
const LEFT: usize = 97;

/// Rows in ascending order of their ranks, which all differ. `spare` is how many more fit without memory; it may be more than was
/// asked for. A look-up compares three times at the most where the key guesses its row's place, twice where the row goes behind all,
/// and among n rows about log2(n) times elsewhere. A row that comes or goes moves no rows but those of its block, of which there are
/// 128 at the most; where a block splits or goes, the list of blocks moves too. From a table without rows on, that is one row in 32
/// that come. A block goes when its last row does, and waits for the next split: the table gives no memory back.
#[derive(Drop)]
pub struct Blocks<T: Ranked> {
    blocks: Vec<Table<T>>,
    // Blocks without rows, for those that split.
    fresh: Vec<Table<T>>,
    // How many rows there are.
    count: usize,
    // How many of them stand in a block beyond those that a split leaves it.
    beyond: usize,
}

impl<T: Ranked> Model for Blocks<T> {
    ghost use Rattle.std.specs.Prelude.{◌≡◌, ◌≤◌, ◌+◌, length, All, vec_len, vec_capacity};
    ghost use Rattle.sorted_table.specs.Parts.{rows_of, all_rows, all_over, held, room_for, IsBlock, IsFresh};
    ghost use Rattle.sorted_table.specs.Rows.{IsRising};
    ghost use Rattle.sorted_table.specs.Tabled.{Tabled};

    ghost Value = { Tabled T };

    ghost view = { λ t. record { rows = rows_of t.blocks.items; spare = room_for (vec_len t.fresh) (held t.blocks.items) t.count } };

    ghost invariant = { λ t. IsRising T.rank (rows_of t.blocks.items) × All (λ (b : Tabled T). IsBlock 128 b) t.blocks.items
        × All (λ (b : Tabled T). IsFresh 128 b) t.fresh.items × (vec_len t.blocks + vec_len t.fresh ≤ vec_capacity t.blocks)
        × (vec_len t.blocks + vec_len t.fresh ≤ vec_capacity t.fresh)
        × (t.count ≡ all_rows t.blocks.items) × (t.beyond ≡ all_over t.blocks.items) };
}

impl<T: Ranked> Blocks<T> {
    /// A table without rows. It takes no memory.
    pub fn new(alloc: Global) -> Self
        ensures { result.rows ≡ [] }
    {
        Blocks {
            blocks: Vec::new(alloc),
            fresh: Vec::new(alloc),
            count: 0,
            beyond: 0,
        }
    }

    /// How many rows there are, from a count that is kept.
    pub fn len(&self) -> usize
        ensures { result ≡ length self.now.rows }
    {
        self.count
    }

    /// The row with the key's rank.
    pub fn find<K: Key<T>>(&self, key: &K) -> Option<&T>
        ensures row { option_copied result ≡ row_at T.rank self.now.rows (K.sought key.now) }
        ensures rising { IsRising T.rank self.now.rows }
    {
        match block_for(&self.blocks, key) {
            Some(at) => self.blocks[at].find(&Within {
                key,
                before: start_of(at),
            }),
            None => None,
        }
    }

    /// All rows in ascending order.
    pub fn rows(&self) -> Walk<'_, T>
        ensures rows { result ≡ self.now.rows }
        ensures rising { IsRising T.rank self.now.rows }
        ensures counted { length result < 2 ^ 64 }
    {
        // Read for its bound.
        let _count = self.count;
        Walk::new(&[], &self.blocks)
    }

    /// The rows from the key's rank on, in ascending order.
    pub fn rows_from<K: Key<T>>(&self, key: &K) -> Walk<'_, T>
        ensures rows { result ≡ filter (λ r. nat_le (K.sought key.now) (T.rank r)) self.now.rows }
        ensures rising { IsRising T.rank self.now.rows }
        ensures counted { length result < 2 ^ 64 }
    {
        // Read for its bound.
        let _count = self.count;
        let Some(at) = block_for(&self.blocks, key) else {
            return Walk::new(&[], &[]);
        };
        let within = Within {
            key,
            before: start_of(at),
        };
        Walk::new(self.blocks[at].rows_from(&within), &self.blocks[at + 1..])
    }

    /// The rows with ranks from that of the first key up to that of the last one, in ascending order.
    pub fn rows_between<K: Key<T>>(&self, first: &K, last: K) -> Span<'_, T, K>
        ensures rows { result ≡ filter (λ r. nat_le (K.sought first.now) (T.rank r)
            && nat_le (T.rank r) (K.sought last)) self.now.rows }
        ensures rising { IsRising T.rank result }
        ensures counted { length result < 2 ^ 64 }
    {
        Span::new(self.rows_from(first), last)
    }
}

impl<T: Ranked + Drop> Blocks<T> {
    /// A table of rows in any order, whose ranks all differ.
    pub fn of_unordered(alloc: Global, rows: Vec<T>) -> Mem<Self>
        requires { AllPairs (λ x y. T.rank x ≢ T.rank y) rows.items }
        ensures { IfOk result (λ made. IsPermutation rows.items made.rows) }
    {
        Self::of_table(alloc, Table::of_unordered(rows))
    }

    /// The rows of a table.
    pub fn of_table(alloc: Global, mut rows: Table<T>) -> Mem<Self>
        ensures { IfOk result (λ made. made.rows ≡ rows.rows) }
    {
        let count = rows.len();
        let mut blocks = Vec::with_capacity(alloc, count.div_ceil(FILLED))?;
        while rows.len() > 0 {
            let mut block = Table::with_room(alloc, MOST)?;
            rows.move_tail((rows.len() - 1) / FILLED * FILLED, &mut block);
            blocks.push(block)?;
        }
        blocks.reverse();
        let fresh = Vec::with_capacity(alloc, blocks.len())?;
        Ok(Blocks {
            blocks,
            fresh,
            count,
            beyond: 0,
        })
    }

    /// Makes room for at least `more` rows beside those that are there. Where there is room it only compares counts.
    pub fn reserve(&mut self, more: usize) -> Mem<()>
        ensures rows { self.new.rows ≡ self.old.rows }
        ensures room { OnOk result (more ≤ self.new.spare) }
        ensures kept { self.old.spare ≤ self.new.spare }
        ensures has_room { more ≤ self.old.spare → IsOk result }
    {
        if more > usize::MAX - self.count {
            return Err(OutOfMemory);
        }
        let wanted = blocks_for(more, rows_held(&self.blocks, self.beyond));
        if wanted <= self.fresh.len() {
            return Ok(());
        }
        self.blocks.reserve(wanted)?;
        self.fresh.reserve(self.blocks.capacity())?;
        while self.fresh.len() < wanted {
            let block = Table::with_room(*self.fresh.allocator(), MOST)?;
            self.fresh.push(block)?;
        }
        Ok(())
    }

    /// Adds a row whose rank no row has, where there is room. It takes no memory.
    pub fn insert(&mut self, row: T)
        requires room { 1 ≤ self.old.spare }
        requires absent { row_at T.rank self.old.rows (T.rank row) ≡ None }
        ensures rows { self.new.rows ≡ with_row T.rank self.old.rows row }
        ensures spare { self.old.spare ≤ self.new.spare + 1 }
    {
        self.count += 1;
        let Some(at) = block_for(&self.blocks, &SameRank(&row)) else {
            let mut block = take_fresh(&mut self.fresh);
            block.insert(row);
            let _ = self.blocks.push(block);
            return;
        };
        let block = &mut self.blocks[at];
        let rows = block.len();
        if rows < MOST {
            self.beyond += over(rows + 1) - over(rows);
            block.insert(row);
            return;
        }
        self.beyond -= over(rows);
        let mut upper = take_fresh(&mut self.fresh);
        block.split(row, &mut upper);
        let _ = self.blocks.insert(at + 1, upper);
    }

    /// Puts a row into the place of the one that has its rank.
    pub fn replace(&mut self, row: T)
        requires { IsSome (row_at T.rank self.old.rows (T.rank row)) }
        ensures rows { self.new.rows ≡ replaced T.rank self.old.rows row }
        ensures spare { self.new.spare ≡ self.old.spare }
    {
        let Some(at) = block_for(&self.blocks, &SameRank(&row)) else {
            unreachable!();
        };
        self.blocks[at].replace(row);
    }

    /// Takes the row with the key's rank out, and adds one whose rank no other row has, where there is room. It takes no memory.
    pub fn exchange<K: Key<T>>(&mut self, key: &K, row: T)
        requires room { 1 ≤ self.old.spare }
        requires there { IsSome (row_at T.rank self.old.rows (K.sought key.now)) }
        requires absent { row_at T.rank (without T.rank self.old.rows (K.sought key.now)) (T.rank row) ≡ None }
        ensures rows { self.new.rows ≡ with_row T.rank (without T.rank self.old.rows (K.sought key.now)) row }
        ensures spare { self.old.spare ≤ self.new.spare + 1 }
    {
        let _ = self.remove(key);
        self.insert(row);
    }

    /// Takes the row with the key's rank out, where there is one.
    pub fn remove<K: Key<T>>(&mut self, key: &K) -> Option<T>
        ensures row { result ≡ row_at T.rank self.old.rows (K.sought key.now) }
        ensures rows { self.new.rows ≡ without T.rank self.old.rows (K.sought key.now) }
        ensures spare { self.old.spare ≤ self.new.spare }
    {
        let at = block_for(&self.blocks, key)?;
        let block = &mut self.blocks[at];
        let before = block.len();
        let row = block.remove(&Within {
            key,
            before: start_of(at),
        });
        let after = block.len();
        self.count -= before - after;
        self.beyond -= over(before) - over(after);
        if after != 0 {
            return row;
        }
        let block = self.blocks.remove(at);
        let _ = self.fresh.push(block);
        row
    }
}

impl<T: Ranked + Copy> Blocks<T> {
    /// An equal table, with memory of its own.
    pub fn copy(&self) -> Mem<Self>
        ensures { IfOk result (λ copy. copy.rows ≡ self.now.rows) }
    {
        let alloc = *self.blocks.allocator();
        let mut blocks = Vec::with_capacity(alloc, self.blocks.len())?;
        for at in 0..self.blocks.len() {
            blocks.push(self.blocks[at].copy_with_room(MOST)?)?;
        }
        let fresh = Vec::with_capacity(alloc, blocks.len())?;
        Ok(Blocks {
            blocks,
            fresh,
            count: self.count,
            beyond: self.beyond,
        })
    }
}

// The block in which the key's row is, or would go. Two comparisons find the one that the key guesses.
fn block_for<T: Ranked, K: Key<T>>(blocks: &[Table<T>], key: &K) -> Option<usize>
    requires rising { IsRising T.rank (rows_of blocks.now) }
    requires filled { All (IsBlock 128) blocks.now }
    ensures { MatchOption result (length blocks.now ≤ 0) (IsBlockFor T.rank blocks.now (K.sought key.now)) }
{
    let last = blocks.len().checked_sub(1)?;
    let guessed = (key.guess() / FILLED).min(last);
    if is_block_for(blocks, guessed, key) {
        return Some(guessed);
    }
    let behind = blocks.partition_point(|block| block.starts_by(key));
    Some(behind.saturating_sub(1))
}

// Whether the key's row stands in this block if anywhere: whether the block starts by the key and the next one doesn't.
fn is_block_for<T: Ranked, K: Key<T>>(blocks: &[Table<T>], at: usize, key: &K) -> bool
    requires within { at < length blocks.now }
    requires rising { IsRising T.rank (rows_of blocks.now) }
    requires filled { All (IsBlock 128) blocks.now }
    ensures { IsTrue result → IsBlockFor T.rank blocks.now (K.sought key.now) at }
{
    if !blocks[at].starts_by(key) {
        return false;
    }
    if at + 1 == blocks.len() {
        return true;
    }
    !blocks[at + 1].starts_by(key)
}

// The place that a block's first row has among all rows, where rows came in order and none went.
fn start_of(block: usize) -> usize {
    block.saturating_mul(FILLED)
}

// Takes an empty block from those that wait.
fn take_fresh<T: Ranked>(fresh: &mut Vec<Table<T>>) -> Table<T>
    requires some { 1 ≤ vec_len fresh.old }
    requires empty { All (λ (b : Tabled T). IsFresh 128 b) fresh.old.items }
    ensures taken { IsFresh 128 result }
    ensures left { All (λ (b : Tabled T). IsFresh 128 b) fresh.new.items }
    ensures count { vec_len fresh.new + 1 ≡ vec_len fresh.old }
    ensures capacity { vec_capacity fresh.new ≡ vec_capacity fresh.old }
{
    let Some(block) = fresh.pop() else {
        unreachable!();
    };
    block
}

// How many blocks have to wait so that so many rows fit.
fn blocks_for(more: usize, held: u128) -> usize
    requires { held < 2 ^ 72 }
    ensures { result ≡ min more ((more + held) / 32) }
{
    let rows = more as u128;
    rows.min((rows + held) / 32) as usize
}

// The rows that stand in the way of room, as `spare` counts it.
fn rows_held<T: Ranked>(blocks: &[Table<T>], beyond: usize) -> u128
    requires { beyond ≡ all_over blocks.now }
    ensures rows { result ≡ held blocks.now }
    ensures small { result < 2 ^ 72 }
{
    if blocks.is_empty() {
        return 31;
    }
    beyond as u128
}

// Of so many rows of a block, those beyond the ones that a split leaves it.
fn over(rows: usize) -> usize
    ensures { result ≡ rows - 97 }
{
    rows.saturating_sub(LEFT)
}
