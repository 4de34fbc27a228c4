//! Where the last record of each head stands in a log that is in memory.
ghost use Rattle.std.specs.Prelude.{◌≡◌, All, IfOk, List, OnOk, map};
ghost use Rattle.commit_journal.specs.Placed.{PlainPlaced, plain_body, plain_placed};
ghost use Rattle.commit_journal.specs.Places.{IsStanding};
ghost use Rattle.log_visits.specs.Found.{link_here, plain_content_found};
ghost use Rattle.log_visits.specs.Placing.{PlacedContent, PlacedLink};
ghost use Rattle.log_visits.specs.Spots.{IsAt};
ghost use Rattle.log_visits.specs.Spots as spec;
ghost use Rattle.record_format.specs.Plain.{plain_content};
ghost use Rattle.record_format.specs.Spellable.{IsContent};
ghost use Rattle.log_visits.specs.Spotted.{ContentsAreSpotted, HasRecordAt, LinksAreSpotted, placed_contents, placed_links};

use crate::last_contents::{self, ContentHead};
use crate::last_links::{self, FoundLink, LinkHead};
use crate::records::FoundContent;
use crate::spot_table::{RecordSpot, SpotTable};
use commit_journal::{Body, Placed, content_place, link_place};
use cry_base::{Mem, Text};
use record_format::{ContentRecord, LinkRecord};
use std::alloc::Global;

/// The spot of the last link of each edge.
pub(crate) type LinkSpots = SpotTable<LinkHead>;

/// The spot of the last content of each head.
pub(crate) type ContentSpots = SpotTable<ContentHead>;

fn links_of(placed: &Placed) -> &[LinkRecord]
    ensures { result.now ≡ spec.links_in (plain_body placed.now.body) }
{
    match &placed.body {
        Body::Commands(payload) => payload.links.as_slice(),
        Body::NewEpoch => &[],
    }
}

fn contents_of(placed: &Placed) -> &[ContentRecord]
    ensures { map plain_content result.now ≡ spec.contents_in (plain_body placed.now.body) }
{
    match &placed.body {
        Body::Commands(payload) => payload.contents.as_slice(),
        Body::NewEpoch => &[],
    }
}

/// Notes the links of the batch at a position of a log.
pub(crate) fn note_links_at(spots: &mut LinkSpots, position: usize, placed: &Placed) -> Mem<()>
    ensures { OnOk result ((log : List PlainPlaced) → IsAt log position (plain_placed placed.now)
        → LinksAreSpotted log spots.old spots.new (placed_links (plain_placed placed.now))) }
{
    let mut index = 0;
    for link in links_of(placed) {
        spots.insert(last_links::head_of(link), RecordSpot::of(position, index)?)?;
        index += 1;
    }
    Ok(())
}

/// Notes the contents of the batch at a position of a log.
pub(crate) fn note_contents_at(
    spots: &mut ContentSpots,
    position: usize,
    placed: &Placed,
) -> Mem<()>
    ensures { OnOk result ((log : List PlainPlaced) → IsAt log position (plain_placed placed.now)
        → ContentsAreSpotted log spots.old spots.new (placed_contents (plain_placed placed.now))) }
{
    let mut index = 0;
    for content in contents_of(placed) {
        spots.insert(
            last_contents::head_of(content),
            RecordSpot::of(position, index)?,
        )?;
        index += 1;
    }
    Ok(())
}

/// The link at a spot of a log.
pub(crate) fn link_at(log: &[Placed], spot: &RecordSpot) -> FoundLink
    requires stands { All IsStanding log.now }
    requires there { (l : PlacedLink) × HasRecordAt placed_links (map plain_placed log.now) spot.now l }
    ensures { (l : PlacedLink) → HasRecordAt placed_links (map plain_placed log.now) spot.now l
        → link_here result.batch result.at result.link ≡ l }
{
    let placed = &log[spot.position as usize];
    let Some(link) = links_of(placed).get(spot.index as usize) else {
        unreachable!();
    };
    FoundLink {
        batch: placed.batch,
        at: link_place(placed, spot.index as usize),
        link: *link,
    }
}

fn copied(alloc: Global, content: &ContentRecord) -> Mem<ContentRecord>
    ensures { IfOk result (λ c. plain_content c ≡ plain_content content.now) }
{
    let mut cipher = Text::new(alloc);
    cipher.append(content.cipher.as_slice())?;
    Ok(ContentRecord {
        kind: content.kind,
        object: content.object,
        key_serial: content.key_serial,
        nonce: content.nonce,
        cipher,
        tag: content.tag,
    })
}

/// Takes a copy of the content at a spot of a log.
pub(crate) fn content_at(alloc: Global, log: &[Placed], spot: &RecordSpot) -> Mem<FoundContent>
    requires stands { All IsStanding log.now }
    requires there { (c : PlacedContent) × HasRecordAt placed_contents (map plain_placed log.now) spot.now c }
    ensures content { (c : PlacedContent) → HasRecordAt placed_contents (map plain_placed log.now) spot.now c
        → IfOk result (λ found. plain_content_found found ≡ c) }
    ensures form { IfOk result (λ found. IsContent (plain_content found.content)) }
{
    let placed = &log[spot.position as usize];
    let Some(content) = contents_of(placed).get(spot.index as usize) else {
        unreachable!();
    };
    Ok(FoundContent {
        batch: placed.batch,
        at: content_place(placed, spot.index as usize),
        content: copied(alloc, content)?,
    })
}
