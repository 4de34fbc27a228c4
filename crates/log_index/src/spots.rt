//! Where records stand: in which batch, and at which place among the links or the contents of its payload.
ghost use Rattle.std.specs.Prelude.{◌≡◌, ◌↔◌, ◌≤◌, ℕ, map, IfOk, IsTrue, MatchOption};
ghost use Rattle.std.specs.List.{AllZip};
ghost use Rattle.log_index.specs.Spots as spec;

use crate::Object;
use cry_base::{Edge, List, Mem};
use index_format::{ContentRow, LinkRow};
use role_graph::number_of;
use std::alloc::Global;

/// Where the last link of an edge stands.
#[derive(Clone, Copy, Debug, PartialEq, Eq)]
pub struct LinkSpot {
    /// The edge.
    pub edge: Edge,
    /// The number of the batch.
    pub batch: u32,
    /// The place among the batch's links, from 0.
    pub index: u32,
}

/// Where the last content of a folder, a file or a holder stands.
#[derive(Clone, Copy, Debug, PartialEq, Eq)]
pub struct ContentSpot {
    /// 1 a folder's name, 2 a file's name and bytes, 3 a holder's key.
    pub kind: u8,
    /// The number of the folder, file or holder.
    pub object: u32,
    /// The number of the batch.
    pub batch: u32,
    /// The place among the batch's contents, from 0.
    pub index: u32,
}

/// A spot of an edge or an object, which a row of the file spells.
pub(crate) trait Spot<Of, Row>: Copy + Drop {
    /// The row spells a spot of that, in a batch up to the last one.
    ghost is_row_of: { ℕ → Of → Row → Type 0 };

    /// It is a spot of that, in a batch up to the last one.
    ghost is_of: { ℕ → Of → Self → Type 0 };

    ghost row_of: { Self → Row };

    /// The spot that the row spells, where it is one of that, in a batch up to the last one.
    fn of_row(last: u32, of: &Of, row: &Row) -> Option<Self>
        ensures { MatchOption result (is_row_of last of.now row.now → ⊥)
            (λ spot. is_row_of last of.now row.now × is_of last of.now spot × (row.now ≡ row_of spot)) };

    /// The row that spells it.
    fn to_row(&self) -> Row
        ensures { result ≡ row_of self.now };
}

impl Spot<Edge, LinkRow> for LinkSpot {
    ghost is_row_of = { spec.IsRowOfEdge };

    ghost is_of = { spec.IsSpotOfEdge };

    ghost row_of = { spec.link_row_of };

    fn of_row(last: u32, edge: &Edge, row: &LinkRow) -> Option<Self> {
        let spot = LinkSpot {
            edge: *edge,
            batch: row.batch,
            index: row.index,
        };
        if spot.to_row() == *row && is_within(row.batch, last) {
            Some(spot)
        } else {
            None
        }
    }

    fn to_row(&self) -> LinkRow {
        LinkRow {
            kind: self.edge.kind,
            from_id: number_of(self.edge.from),
            to_id: number_of(self.edge.to),
            batch: self.batch,
            index: self.index,
        }
    }
}

impl Spot<Object, ContentRow> for ContentSpot {
    ghost is_row_of = { spec.IsRowOfObject };

    ghost is_of = { spec.IsSpotOfObject };

    ghost row_of = { spec.content_row_of };

    fn of_row(last: u32, object: &Object, row: &ContentRow) -> Option<Self> {
        let spot = ContentSpot {
            kind: row.kind,
            object: row.object,
            batch: row.batch,
            index: row.index,
        };
        let is_its = row.kind == object.kind && row.object == object.number;
        if is_its && is_within(row.batch, last) {
            Some(spot)
        } else {
            None
        }
    }

    fn to_row(&self) -> ContentRow {
        ContentRow {
            kind: self.kind,
            object: self.object,
            batch: self.batch,
            index: self.index,
        }
    }
}

/// Whether a batch of this number comes before the next one.
fn is_within(batch: u32, last: u32) -> bool
    ensures { IsTrue result ↔ ((1 ≤ batch) × (batch ≤ last)) }
{
    1 <= batch && batch <= last
}

/// The spots that the rows spell, where these are rows of just these edges or objects in their order, in batches up to the last one.
pub(crate) fn spots_of<Of: Drop, Row: Drop, S: Spot<Of, Row>>(
    alloc: Global,
    last: u32,
    all: &[Of],
    rows: &[Row],
) -> Mem<Option<List<S>>>
    ensures { IfOk result (λ o. MatchOption o (AllZip (S.is_row_of last) all.now rows.now → ⊥)
        (λ l. AllZip (S.is_row_of last) all.now rows.now × AllZip (S.is_of last) all.now l.items
        × (rows.now ≡ map S.row_of l.items))) }
{
    if all.len() != rows.len() {
        return Ok(None);
    }
    let mut spots = List::new(alloc);
    spots.reserve(rows.len())?;
    for (of, row) in all.iter().zip(rows) {
        let Some(spot) = S::of_row(last, of, row) else {
            return Ok(None);
        };
        spots.push(spot)?;
    }
    Ok(Some(spots))
}

/// The rows that spell the spots.
pub(crate) fn rows_of<Of: Drop, Row: Drop, S: Spot<Of, Row>>(
    alloc: Global,
    spots: &[S],
) -> Mem<List<Row>>
    ensures { IfOk result (λ l. l.items ≡ map S.row_of spots.now) }
{
    let mut rows = List::new(alloc);
    rows.reserve(spots.len())?;
    for spot in spots {
        rows.push(spot.to_row())?;
    }
    Ok(rows)
}
