//! Where the records of a batch stand in the file.
ghost use Rattle.commit_journal.specs.Places.{HasLink, HasContent, IsLinkPlace, IsContentPlace};

use crate::{Body, Placed};
use record_format::{LINK_LEN, contents_len, links_offset};

/// The place in the file of the first byte of a command's link of this index.
pub fn link_place(p: &Placed, index: usize) -> u64
    requires { HasLink p.now.place index p.now.body }
    ensures { IsLinkPlace p.now.place index result p.now.body }
{
    match &p.body {
        Body::Commands(payload) => {
            p.place + links_offset(&payload.note) + LINK_LEN * index as u64
        }
        Body::NewEpoch => unreachable!(),
    }
}

/// The place in the file of the first byte of a command's content of this index.
pub fn content_place(p: &Placed, index: usize) -> u64
    requires { HasContent p.now.place index p.now.body }
    ensures { IsContentPlace p.now.place index result p.now.body }
{
    match &p.body {
        Body::Commands(payload) => {
            let links = LINK_LEN * payload.links.as_slice().len() as u64;
            let before = contents_len(&payload.contents.as_slice()[..index]);
            p.place + links_offset(&payload.note) + links + before
        }
        Body::NewEpoch => unreachable!(),
    }
}
