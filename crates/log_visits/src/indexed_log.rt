//! A log in memory, and the index of it.
ghost use Rattle.std.specs.Prelude.{◌≡◌, All, IfOk};
ghost use Rattle.commit_journal.specs.Places.{IsStanding};

use crate::ClientFault;
use crate::last_contents::ContentHead;
use crate::last_links::{FoundLink, LINKS_OF_FOLDER, head_sought, is_present};
use crate::record_spots::{
    ContentSpots, LinkSpots, content_at, link_at, note_contents_at, note_links_at,
};
use crate::records::{FoundContent, Records};
use crate::spot_table::Rows;
use commit_journal::Placed;
use cry_base::{Edge, Mem};
use public_fold::PublicState;
use std::alloc::Global;
use std::marker::Model;

/// A log whose last link and last content of each head are found without a walk over it. It names their spots, since the log holds
/// them. Contracts see its batches.
#[derive(Drop)]
pub(crate) struct IndexedLog<'a> {
    log: &'a [Placed],
    links: LinkSpots,
    contents: ContentSpots,
}

impl<'a> Model for IndexedLog<'a> {
    ghost use Rattle.std.specs.Prelude.{All, List, map};
    ghost use Rattle.commit_journal.specs.Placed.{plain_placed};
    ghost use Rattle.commit_journal.specs.Places.{IsStanding};
    ghost use Rattle.commit_journal.specs.declared.placed.Placed.{Placed as ThePlaced};
    ghost use Rattle.log_visits.specs.Spotted.{AreSpotsOf};

    ghost Value = { List ThePlaced };

    ghost view = { λ i. i.log.now };

    ghost invariant = { λ i. AreSpotsOf i.links i.contents (map plain_placed i.log.now) × All IsStanding i.log.now };
}

impl<'a> IndexedLog<'a> {
    /// Walks over the log once, with room for the records of what stands behind it.
    pub(crate) fn of(alloc: Global, state: &PublicState, log: &'a [Placed]) -> Mem<Self>
        requires { All IsStanding log.now }
        ensures { IfOk result (λ indexed. indexed ≡ log.now) }
    {
        let mut links = LinkSpots::new(alloc, Rows::of(state, LINKS_OF_FOLDER))?;
        let mut contents = ContentSpots::new(alloc, Rows::of(state, 1))?;
        for (position, placed) in log.iter().enumerate() {
            note_links_at(&mut links, position, placed)?;
            note_contents_at(&mut contents, position, placed)?;
        }
        Ok(IndexedLog {
            log,
            links,
            contents,
        })
    }
}

impl<'a> Records<()> for IndexedLog<'a> {
    ghost use Rattle.std.specs.Prelude.{map};
    ghost use Rattle.std.proofs.Math.Nat.{le_refl};
    ghost use Rattle.commit_journal.specs.Placed.{plain_placed};

    ghost log = { map plain_placed };

    ghost shows = { λ _ _. Unit {0} };

    ghost stays = { λ _ _. Unit {0} };

    ghost faults = { λ _. 0 };

    fn link_for(&self, state: &PublicState, edge: &Edge) -> Option<FoundLink> {
        let found = link_at(self.log, &self.links.get(&head_sought(edge))?);
        if !is_present(state, edge, &found.link) {
            return None;
        }
        Some(found)
    }

    fn content_for(
        &self,
        alloc: Global,
        _source: &mut (),
        kind: u8,
        object: u32,
    ) -> Result<Option<FoundContent>, ClientFault> {
        let Some(spot) = self.contents.get(&ContentHead { kind, object }) else {
            return Ok(None);
        };
        Ok(Some(content_at(alloc, self.log, &spot)?))
    }

    ghost same = { λ _. tt };

    ghost twice = { λ _ _ _ _ _. tt };

    ghost still_shows = { λ _ _ _ _ shown. shown };

    ghost counts = { λ _ _ _. le_refl 0 };
}
