//! Why a view was not given.
use commit_journal::{HEADER_LEN, OpenFault};
use cry_base::OutOfMemory;
use thiserror::Error;

/// The place behind the header, at which a log is damaged that lacks a record, or makes no root.
pub const BEHIND_HEADER: u64 = HEADER_LEN as u64;

/// Why a view was not given. Places are counted in bytes from the start of the file.
#[derive(Clone, Copy, Debug, PartialEq, Eq, Error)]
pub enum ClientFault {
    /// There are fewer than 42 bytes, or the first 9 are not those of a store of version 1.
    #[error("not a store")]
    NotAStore,
    /// The check of the key is not the one that the store has, for the owner or for the holder.
    #[error("wrong key")]
    WrongKey,
    /// What stands at this place has no form that it may have there, or does not fit what stands before it.
    #[error("damaged at byte {at}")]
    Damaged { at: u64 },
    /// What stands at this place in the batch of this number has a wrong tag.
    #[error("batch {batch} tampered with at byte {at}")]
    Tampered { batch: u32, at: u64 },
    /// No batch of the store made this holder. So many holders were made.
    #[error("no such holder, {known} known")]
    NoHolder { known: u32 },
    /// Nothing that is shown has this path.
    #[error("nothing shown has this path")]
    Unseen,
    /// The disk failed.
    #[error("disk fault")]
    DiskFault,
    /// There was no memory.
    #[error("out of memory")]
    OutOfMemory,
}

impl From<OpenFault> for ClientFault {
    ghost use Rattle.std.specs.Prelude.{◌≡◌};
    ghost use Rattle.log_visits.specs.Answering.{client_fault};

    ghost from_gives = { λ opening fault. fault ≡ client_fault opening };

    fn from(fault: OpenFault) -> Self {
        match fault {
            OpenFault::NotAStore => ClientFault::NotAStore,
            OpenFault::WrongKey => ClientFault::WrongKey,
            OpenFault::Damaged { at } => ClientFault::Damaged { at },
            OpenFault::Tampered { batch, at } => ClientFault::Tampered { batch, at },
            OpenFault::DiskFault => ClientFault::DiskFault,
            OpenFault::OutOfMemory => ClientFault::OutOfMemory,
        }
    }
}

impl From<OutOfMemory> for ClientFault {
    ghost use Rattle.std.specs.Prelude.{◌≡◌};
    ghost use Rattle.log_visits.specs.declared.fault.ClientFault.TheVariants as faults;

    ghost from_gives = { λ _ fault. fault ≡ faults.OutOfMemory };

    fn from(_error: OutOfMemory) -> Self {
        ClientFault::OutOfMemory
    }
}
