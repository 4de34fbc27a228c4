//! The rows of a table in blocks, one after another.
ghost use Rattle.std.specs.Prelude.{◌≡◌, ◌≤◌, ◌++◌, ⊤, length, All};
ghost use Rattle.std.specs.Iterator.{YieldsFirstRef, item_count};
ghost use Rattle.sorted_table.specs.Parts.{rows_of};
ghost use Rattle.sorted_table.specs.Tabled.{Tabled};

use crate::{Ranked, Table};
use std::alloc::AllocError;
use std::marker::Model;

/// The rows that are still to come, in ascending order.
#[derive(Drop)]
pub struct Walk<'a, T: Ranked> {
    rows: &'a [T],
    tables: &'a [Table<T>],
}

impl<'a, T: Ranked> Model for Walk<'a, T> {
    ghost use Rattle.std.specs.Prelude.{◌≤◌, ◌++◌, List, length, All};
    ghost use Rattle.sorted_table.specs.Parts.{rows_of};
    ghost use Rattle.sorted_table.specs.Tabled.{Tabled};

    ghost Value = { List T };

    ghost view = { λ w. w.rows.now ++ rows_of w.tables.now };

    ghost invariant = { λ w. All (λ (b : Tabled T). 1 ≤ length b.rows) w.tables.now };
}

impl<'a, T: Ranked> Walk<'a, T> {
    /// A walk over these rows, and then over those of the tables, of which none is empty.
    pub(crate) fn new(rows: &'a [T], tables: &'a [Table<T>]) -> Self
        requires { All (λ (b : Tabled T). 1 ≤ length b.rows) tables.now }
        ensures { result ≡ rows.now ++ rows_of tables.now }
    {
        Walk { rows, tables }
    }
}

impl<'a, T: Ranked> Clone for Walk<'a, T> {
    ghost is_clone = { λ walk copy. copy ≡ walk };

    ghost is_infallible = { λ _. ⊤ };

    fn clone(&self) -> Result<Self, AllocError> {
        Ok(Walk {
            rows: self.rows,
            tables: self.tables,
        })
    }
}

impl<'a, T: Ranked> Iterator for Walk<'a, T> {
    type Item = &'a T;

    ghost next_gives = { YieldsFirstRef (λ rest. rest) };

    ghost remaining = { item_count (λ rest. rest) };

    fn next(&mut self) -> Option<&'a T> {
        if let Some((row, rest)) = self.rows.split_first() {
            self.rows = rest;
            return Some(row);
        }
        let (table, tables) = self.tables.split_first()?;
        let (row, rest) = table.as_slice().split_first()?;
        self.rows = rest;
        self.tables = tables;
        Some(row)
    }
}
