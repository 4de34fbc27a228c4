//! A script of every kind of command, with grants on a folder and on a file, twice, where a command that there was no memory for is applied
//! once more. With memory for all, the test says little: `rt try --test --fail-alloc N` runs it with one allocation failing, which falls
//! into one of the two.
use crate::script::{LINES, MADE, outcome};
use cry_base::Reply;
use std::test::Fail;

const REPLIES: [Reply; 11] = [
    Reply::Done,
    Reply::Done,
    MADE,
    Reply::Done,
    Reply::Done,
    Reply::Done,
    Reply::Done,
    Reply::Done,
    Reply::Done,
    Reply::Done,
    Reply::Done,
];

const STORE_BYTES: u64 = 1_073_741_824;

#[test]
fn a_command_without_memory_is_applied_once_more(rt: HostRuntime) -> Result<(), Fail> {
    let (replies, image) = outcome(rt.alloc(), STORE_BYTES, &LINES)?;
    assert!(rt; replies.as_slice() == REPLIES.as_slice());
    assert!(rt; image.as_slice().len() == 7967);
    let (again, same) = outcome(rt.alloc(), STORE_BYTES, &LINES)?;
    assert!(rt; again.as_slice() == REPLIES.as_slice());
    assert!(rt; image.as_slice() == same.as_slice());
    Ok(())
}
