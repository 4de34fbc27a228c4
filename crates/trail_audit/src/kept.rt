//! What an audit keeps of a log that it reads batch by batch (docs/FORMAT.md, "Reading").
ghost use Rattle.std.specs.Prelude.{◌≡◌};
ghost use Rattle.trail_audit.specs.Kept.{HasKept};

use crate::placed_records::{Links, add_links_of, contents_of};
use crate::seals::{Seals, seals_of};
use commit_journal::{Past, Placed};
use cry_base::{List, Mem};
use holder_client::{Keeps, Reader};
use std::alloc::Global;
use std::collections::HashMap;

/// What an audit keeps of batches that are added one after another: what says whether a key may read them, all their links, what
/// their contents are sealed under, how they are read once more, and how many there are. It holds no payload.
#[derive(Drop)]
pub(crate) struct Kept {
    pub(crate) reader: Reader,
    /// The links by where they begin.
    pub(crate) links: Links,
    /// For each batch what its contents are sealed under, or its one content where that is short.
    pub(crate) seals: List<Seals>,
    /// What was known before each batch.
    pub(crate) starts: List<Past>,
    /// The number of the last batch, 0 where there is none.
    pub(crate) last: u32,
}

impl Keeps for Kept {
    ghost has_read = { HasKept };

    ghost has_starts = { λ kept starts. kept.starts.items ≡ starts };

    fn new(alloc: Global) -> Mem<Kept> {
        let reader = Reader::new(alloc)?;
        Ok(Kept {
            reader,
            links: HashMap::new(alloc),
            seals: List::new(alloc),
            starts: List::new(alloc),
            last: 0,
        })
    }

    fn add(self, alloc: Global, placed: &Placed, start: &Past) -> Mem<Kept> {
        let Kept {
            reader,
            mut links,
            mut seals,
            mut starts,
            last: _,
        } = self;
        let reader = reader.add(alloc, placed, start)?;
        add_links_of(&mut links, alloc, placed)?;
        let contents = contents_of(alloc, placed)?;
        seals.push(seals_of(alloc, contents.as_slice())?)?;
        starts.push(*start)?;
        Ok(Kept {
            reader,
            links,
            seals,
            starts,
            last: placed.batch,
        })
    }
}
