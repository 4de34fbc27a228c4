//! The command `audit`: all that a key leads to in the store's history, by the batches that wrote it.
use crate::reading::ReadingCommand;
use crate::texts::text_of;
use cry_base::{Bundle, Text};
use cry_io::Disk;
use log_visits::ClientFault;
use std::alloc::Global;

/// All names and files that the key leads to.
#[derive(Clone, Copy)]
pub struct Auditing;

impl ReadingCommand for Auditing {
    ghost use Rattle.std.specs.Prelude.{false};
    ghost use Rattle.cli_reading.specs.Promises.Audit.{AuditGives};

    ghost gives = { λ _. AuditGives };

    ghost tells_unseen = { false };

    fn text<D: Disk>(
        &self,
        alloc: Global,
        disk: &mut D,
        bundle: &Bundle,
    ) -> Result<Text, ClientFault> {
        let seen = trail_audit::audit(alloc, disk, bundle)?;
        Ok(text_of(alloc, seen.as_slice())?)
    }
}
