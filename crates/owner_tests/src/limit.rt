//! The worked grant, whose last batch ends at 2,558 bytes, and behind it one on the file alone, which ends at 3,077, each under store
//! limits of one byte less and of as many.
use crate::script::{LINES, MADE, outcome};
use cry_base::{Refusal, Reply};
use std::test::Fail;

const FULL: Reply = Reply::Refused { why: Refusal::Full };

const REFUSED: [Reply; 4] = [Reply::Done, Reply::Done, MADE, FULL];

const DONE: [Reply; 4] = [Reply::Done, Reply::Done, MADE, Reply::Done];

const FILE_REFUSED: [Reply; 5] = [Reply::Done, Reply::Done, MADE, Reply::Done, FULL];

const FILE_DONE: [Reply; 5] = [Reply::Done, Reply::Done, MADE, Reply::Done, Reply::Done];

#[test]
fn a_grant_is_refused_where_it_would_end_past_the_store_limit(rt: HostRuntime) -> Result<(), Fail> {
    let lines = &LINES[..4];
    let (replies, image) = outcome(rt.alloc(), 2557, lines)?;
    assert!(rt; replies.as_slice() == REFUSED.as_slice());
    assert!(rt; image.as_slice().len() == 2333);
    let (replies, image) = outcome(rt.alloc(), 2558, lines)?;
    assert!(rt; replies.as_slice() == DONE.as_slice());
    assert!(rt; image.as_slice().len() == 2558);
    Ok(())
}

#[test]
fn a_grant_on_a_file_is_refused_in_the_same_way(rt: HostRuntime) -> Result<(), Fail> {
    let lines = &LINES[..5];
    let (replies, image) = outcome(rt.alloc(), 3076, lines)?;
    assert!(rt; replies.as_slice() == FILE_REFUSED.as_slice());
    assert!(rt; image.as_slice().len() == 2558);
    let (replies, image) = outcome(rt.alloc(), 3077, lines)?;
    assert!(rt; replies.as_slice() == FILE_DONE.as_slice());
    assert!(rt; image.as_slice().len() == 3077);
    Ok(())
}
