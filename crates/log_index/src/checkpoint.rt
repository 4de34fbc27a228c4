//! What a log's first batches come to.
use crate::{ContentSpot, LinkSpot};
use cry_base::List;
use public_fold::PublicState;

/// What stands in public behind a batch of a log, and where the records stand that are still the last ones of their edges and objects.
#[derive(Drop)]
pub struct Checkpoint {
    /// The number of the batch, from 1.
    pub batch: u32,
    /// The batch's owner tag.
    pub tag: [u8; 32],
    /// What stands in public behind it.
    pub state: PublicState,
    /// Where the last link of each edge stands, in the order of the edges.
    pub links: List<LinkSpot>,
    /// Where the last content of each folder, then of each file, then of each holder stands, each of these by number.
    pub contents: List<ContentSpot>,
}
