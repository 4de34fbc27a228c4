//! The command `list`: what a key shows of the store.
use crate::reading::ReadingCommand;
use crate::texts::text_of;
use cry_base::{Bundle, Text};
use cry_io::Disk;
use holder_client::view;
use log_visits::ClientFault;
use std::alloc::Global;

/// All that the key shows.
#[derive(Clone, Copy)]
pub struct Listing;

impl ReadingCommand for Listing {
    ghost use Rattle.std.specs.Prelude.{false};
    ghost use Rattle.cli_reading.specs.Promises.List.{ListGives};

    ghost gives = { λ _. ListGives };

    ghost tells_unseen = { false };

    fn text<D: Disk>(
        &self,
        alloc: Global,
        disk: &mut D,
        bundle: &Bundle,
    ) -> Result<Text, ClientFault> {
        let lines = view(alloc, disk, bundle)?;
        Ok(text_of(alloc, lines.as_slice())?)
    }
}
