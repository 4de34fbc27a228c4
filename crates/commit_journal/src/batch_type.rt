//! What a batch is.

/// What a batch is.
#[derive(Clone, Copy, Debug, PartialEq, Eq)]
pub enum BatchType {
    /// It carries the payload of one command.
    Command,
    /// It begins an epoch, and its payload is empty.
    NewEpoch,
}
