//! A batch that was read.
use cry_base::Epoch;
use record_format::Payload;

/// What a batch carries.
#[derive(Debug, Drop, PartialEq, Eq)]
pub enum Body {
    /// The payload of one command.
    Commands(Payload),
    /// Nothing: the batch begins an epoch.
    NewEpoch,
}

/// A batch of the log.
#[derive(Debug, Drop, PartialEq, Eq)]
pub struct Placed {
    /// The batch's number, from 1.
    pub batch: u32,
    /// The epoch that it begins or stands in.
    pub epoch: Epoch,
    /// The place of its payload's first byte in the file.
    pub place: u64,
    /// What it carries.
    pub body: Body,
}
