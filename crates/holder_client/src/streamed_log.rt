//! A log that was read batch by batch, and its index: contents are read from the disk once more.
use commit_journal::PublicLog;
use cry_base::Edge;
use cry_io::Disk;
use log_visits::{ClientFault, FoundContent, FoundLink, Index, Records, take_content};
use public_fold::PublicState;
use std::alloc::Global;
use std::marker::Model;

/// A log on a disk, whose last link and last content of each head are found without a walk over it. Contracts see the log as far
/// as it was read.
#[derive(Drop)]
pub(crate) struct StreamedLog<'a> {
    pub(crate) log: &'a PublicLog,
    pub(crate) index: &'a Index,
}

impl<'a> Model for StreamedLog<'a> {
    ghost use Rattle.commit_journal.specs.Streaming.{LogState};
    ghost use Rattle.log_visits.specs.Indexed.{HaveStarts, IsIndexOf};

    ghost Value = { LogState };

    ghost view = { λ l. l.log.now };

    ghost invariant = { λ l. IsIndexOf l.index.now l.log.now.given × HaveStarts l.index.now.contents l.log.now.starts };
}

impl<'a, D: Disk> Records<D> for StreamedLog<'a> {
    ghost use Rattle.std.specs.Prelude.{◌≡◌, ◌≤◌, ℕ, List, Some};
    ghost use Rattle.cry_io.specs.Reading.{IsOnlyRead};
    ghost use Rattle.commit_journal.specs.Streaming.{ShowsGiven};
    ghost use Rattle.holder_client.specs.Rereading.{reread_on, reread_still, still_shown};

    ghost log = { λ l. l.given };

    ghost shows = { λ l disk. (s : List ℕ) × (D.shown disk ≡ Some s) × ShowsGiven l s };

    ghost stays = { λ a b. IsOnlyRead D.Disk a b × (D.faults a ≤ D.faults b) };

    ghost faults = { D.faults };

    fn link_for(&self, state: &PublicState, edge: &Edge) -> Option<FoundLink> {
        self.index.link_for(state, edge)
    }

    fn content_for(
        &self,
        alloc: Global,
        source: &mut D,
        kind: u8,
        object: u32,
    ) -> Result<Option<FoundContent>, ClientFault> {
        let Some(spot) = self.index.spot_for(kind, object) else {
            return Ok(None);
        };
        let placed = self.log.again(alloc, source, &spot.start)?;
        Ok(Some(take_content(placed, &spot, kind, object)?))
    }

    ghost same = { λ a. reread_still a };

    ghost twice = { λ a b c. reread_on a b c };

    ghost still_shows = { λ l a b. still_shown l a b };

    ghost counts = { λ _ _ kept. kept.1 };
}
