//! The layout of a store file, numbers big-endian (docs/FORMAT.md, "The file"). The header, behind which the batches stand:
//!
//! ```text
//! 0   9  CRYPTREE, version 1     9  32  check of the owner's key     41  1  first gate
//! ```
//!
//! A batch whose payload has L bytes, from its head to the gate behind it:
//!
//! ```text
//!  0   1  type            45      L  masked payload
//!  1   4  number          45+L   32  check
//!  5   4  epoch           77+L   32  owner tag
//!  9   4  L              109+L    1  next gate
//! 13  32  slot
//! ```
//!
//! 1. A batch belongs to the log exactly where all gates before it are open.
//! 2. Numbers of batches count up from 1, and epochs by one at a batch that begins one.
//! 3. A slot is zero or the batch's veil key: a batch whose slot is zero is not published.
//! 4. Each owner tag covers the one before it, so batches keep their order.
pub(crate) use batch_log::OPEN;

/// The first bytes of a store file: its name, and its version.
pub(crate) const MAGIC: [u8; 9] = *b"CRYPTREE\x01";

/// The bytes of a header before its gate.
pub const FRONT_LEN: usize = 41;

/// The bytes of a header.
pub const HEADER_LEN: usize = 42;

/// The type of a batch that carries a command.
pub(crate) const COMMAND: u8 = 1;

/// The type of a batch that begins an epoch.
pub(crate) const EPOCH: u8 = 2;

/// The bytes of a batch's head: type, number, epoch, length of the payload.
pub(crate) const HEAD_LEN: usize = 13;

/// Where the slot stands in a batch, behind the head.
pub(crate) const SLOT: usize = 13;

/// A slot in which no veil key stands yet.
pub(crate) const EMPTY_SLOT: [u8; 32] = [0; 32];

/// Where the payload stands in a batch, behind the slot.
pub(crate) const PAYLOAD: usize = 45;

/// The bytes behind the payload: check, owner tag, next gate.
pub(crate) const BACK_LEN: usize = 65;

/// The bytes that a batch has beside its payload.
pub(crate) const BATCH_LEN: u64 = 110;

/// The bytes of an epoch's batch, which has no payload.
pub(crate) const EPOCH_BATCH_LEN: usize = 110;

/// A gate with this byte, or any but `OPEN`, is closed.
pub(crate) const CLOSED: u8 = 0;
