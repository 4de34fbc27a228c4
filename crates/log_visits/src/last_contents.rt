//! Where the last content of each head stands in a log (docs/FORMAT.md, "Reading").
ghost use Rattle.std.specs.Prelude.{◌≡◌, ◌+◌, ◌<◌, ◌^◌, [], ◌∷◌, List, OnOk, is_some, map};
ghost use Rattle.std.specs.List.{sum_by};
ghost use Rattle.commit_journal.specs.Placed.{PlainPlaced, plain_body, plain_placed};
ghost use Rattle.commit_journal.specs.Places.{IsStanding};
ghost use Rattle.commit_journal.specs.declared.past.Past.{Past as ThePast};
ghost use Rattle.key_links.specs.Ended.{sealing_role};
ghost use Rattle.log_visits.specs.Found.{content_here};
ghost use Rattle.log_visits.specs.Indexed.{ContentsAreKept, ContentsAreNoted, HaveStarts, IsContentAt, StartsAt, head_of_content};
ghost use Rattle.log_visits.specs.Placing as spec;
ghost use Rattle.log_visits.specs.Spots.{IsAt, contents_in};
ghost use Rattle.public_fold.specs.KeyStep.{newest};
ghost use Rattle.record_format.specs.Plain.{plain_content};
ghost use Rattle.record_format.specs.Sizes.{content_size};

use crate::number_hasher::ByNumber;
use crate::spot_table::Numbered;
use crate::visiting::sealing_role;
use commit_journal::{Body, Past, Placed, content_place};
use cry_base::Mem;
use public_fold::PublicState;
use record_format::{CONTENT_FRAME_LEN, ContentRecord, FILE_TEXT, FOLDER_NAME};
use std::collections::HashMap;

/// What a content is looked for by.
#[derive(Clone, Copy, PartialEq, Eq, Hash)]
pub(crate) struct ContentHead {
    pub(crate) kind: u8,
    pub(crate) object: u32,
}

impl Numbered for ContentHead {
    ghost use Rattle.log_visits.specs.Hashing.{content_row};
    ghost use Rattle.std.proofs.Common.{rules};

    ghost row_of = { content_row };

    fn row(&self, files_from: usize) -> usize {
        match self.kind {
            FOLDER_NAME => self.object as usize,
            FILE_TEXT => files_from.saturating_add(self.object as usize),
            // A holder's key has no row.
            _ => usize::MAX,
        }
    }

    ghost is_same = { Prim.search rules };
}

/// Where a content stands, without its bytes.
#[derive(Clone, Copy)]
pub struct ContentSpot {
    /// The number of its batch.
    pub batch: u32,
    /// The place of its first byte in the file.
    pub at: u64,
    /// How many batches of the log stand before its own.
    pub position: usize,
    /// How many contents of its batch stand before it.
    pub index: usize,
    /// What was known before its batch, by which that is read once more.
    pub start: Past,
}

/// The spot of the last content of each head.
pub(crate) type LastContents = HashMap<ContentHead, ContentSpot, ByNumber>;

pub(crate) fn head_of(content: &ContentRecord) -> ContentHead
    ensures { result ≡ head_of_content content.now }
{
    ContentHead {
        kind: content.kind,
        object: content.object,
    }
}

/// Notes the spot of a content under its head, in the place of an earlier one.
#[tactic(auto, using(crate::proofs::Lasts::content_noted, crate::proofs::Starts::start_noted))]
fn note_content(last: &mut LastContents, spot: ContentSpot, content: &ContentRecord) -> Mem<()>
    ensures noted { OnOk result ((log : List PlainPlaced) → IsContentAt log spot (plain_content content.now)
        → ContentsAreNoted log last.old last.new (content_here spot.batch spot.at (plain_content content.now) ∷ [])) }
    ensures starts { OnOk result ((starts : List ThePast) → HaveStarts last.old starts → StartsAt starts spot.position spot.start
        → HaveStarts last.new starts) }
{
    last.insert(head_of(content), spot)?;
    Ok(())
}

/// Notes the contents of the batch at a position of a log, of which the first stands at the place.
fn note_contents(
    last: &mut LastContents,
    batch: u32,
    position: usize,
    start: Past,
    first: u64,
    contents: &[ContentRecord],
) -> Mem<()>
    requires end { first + sum_by content_size (map plain_content contents.now) < 2 ^ 64 }
    ensures noted { OnOk result ((log : List PlainPlaced) (p : PlainPlaced) → IsAt log position p
        → contents_in p.body ≡ map plain_content contents.now
        → ContentsAreNoted log last.old last.new (spec.contents_at batch first (map plain_content contents.now))) }
    ensures starts { OnOk result ((starts : List ThePast) → HaveStarts last.old starts → StartsAt starts position start
        → HaveStarts last.new starts) }
{
    let mut at = first;
    let mut index = 0;
    for content in contents {
        let spot = ContentSpot {
            batch,
            at,
            position,
            index,
            start,
        };
        note_content(last, spot, content)?;
        at += CONTENT_FRAME_LEN + content.cipher.as_slice().len() as u64;
        index += 1;
    }
    Ok(())
}

/// Notes the contents that the batch at a position of a log carries, behind those of the batches before it.
pub(crate) fn note_contents_of(
    last: &mut LastContents,
    position: usize,
    start: Past,
    placed: &Placed,
) -> Mem<()>
    requires { IsStanding placed.now }
    ensures noted { OnOk result ((log : List PlainPlaced) → IsAt log position (plain_placed placed.now)
        → ContentsAreNoted log last.old last.new
        (spec.body_contents placed.now.batch placed.now.place (plain_body placed.now.body))) }
    ensures starts { OnOk result ((starts : List ThePast) → HaveStarts last.old starts → StartsAt starts position start
        → HaveStarts last.new starts) }
{
    let Body::Commands(payload) = &placed.body else {
        return Ok(());
    };
    let contents = payload.contents.as_slice();
    if contents.is_empty() {
        return Ok(());
    }
    note_contents(
        last,
        placed.batch,
        position,
        start,
        content_place(placed, 0),
        contents,
    )
}

/// Whether the role that seals contents of this head has a key.
fn is_keyed(state: &PublicState, head: &ContentHead) -> bool
    ensures { result ≡ is_some (newest state.now.keys.keys (sealing_role head.now.kind head.now.object)) }
{
    state
        .present(sealing_role(head.kind, head.object))
        .is_some()
}

/// Keeps the contents of those heads alone whose sealing role has a key.
pub(crate) fn keep_contents(last: &mut LastContents, state: &PublicState)
    ensures kept { ContentsAreKept state.now.keys last.old last.new }
    ensures starts { (starts : List ThePast) → HaveStarts last.old starts → HaveStarts last.new starts }
{
    last.retain(|head, _| is_keyed(state, head));
}
