//! The command `open`: the one line with a path of what a key shows of the store.
use crate::reading::ReadingCommand;
use crate::texts::text_of;
use cry_base::{Bundle, Text};
use cry_io::Disk;
use holder_client::open_path;
use log_visits::ClientFault;
use std::alloc::Global;

/// The line that has this path.
#[derive(Clone, Copy)]
pub struct Opening<'a> {
    pub path: &'a [u8],
}

impl<'a> ReadingCommand for Opening<'a> {
    ghost use Rattle.std.specs.Prelude.{true};
    ghost use Rattle.cli_reading.specs.Promises.Open.{OpenGives};

    ghost gives = { λ command. OpenGives command.path.now };

    ghost tells_unseen = { true };

    fn text<D: Disk>(
        &self,
        alloc: Global,
        disk: &mut D,
        bundle: &Bundle,
    ) -> Result<Text, ClientFault> {
        let line = open_path(alloc, disk, bundle, self.path)?;
        Ok(text_of(alloc, &[line])?)
    }
}
