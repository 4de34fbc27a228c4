//! What stands in a store that a stop left.
use crate::script::{HOLDERS_LIST, OPENING, OWNERS_LIST, SHOWN, Shown};
use cry_base::Mem;
use cryptree_cli::status::Status;
use fake_calls::call::{Came, Fault, called};
use std::alloc::Global;

/// Whether the store opens for writing, and both keys list what so many of the script's commands made, or one more.
pub(crate) fn stands(alloc: Global, image: &[u8], answered: usize) -> Mem<bool> {
    let opened = called(alloc, OPENING, Fault::Nothing, image)?;
    if opened.status != Status::Done {
        return Ok(false);
    }
    let owners = called(alloc, OWNERS_LIST, Fault::Nothing, opened.disk.bytes())?;
    let holders = called(alloc, HOLDERS_LIST, Fault::Nothing, opened.disk.bytes())?;
    Ok(
        is_shown(answered, &owners, &holders)
            || is_shown(answered.saturating_add(1), &owners, &holders),
    )
}

/// Whether these are the lists of so many commands.
fn is_shown(count: usize, owners: &Came, holders: &Came) -> bool {
    match SHOWN.get(count) {
        Some(shown) => are_lists(shown, owners, holders),
        None => false,
    }
}

fn are_lists(shown: &Shown, owners: &Came, holders: &Came) -> bool {
    let (owners_list, holders_status, holders_list) = shown;
    lists(owners, Status::Done, owners_list) && lists(holders, *holders_status, holders_list)
}

fn lists(came: &Came, status: Status, printed: &[u8]) -> bool {
    came.status == status && came.printed.as_slice() == printed
}
