//! How the program ends where its reading of a store fails.
ghost use Rattle.std.specs.Prelude.{◌≡◌};
ghost use Rattle.cli_base.specs.Reading as reading;

use crate::status::Status;
use log_visits::ClientFault;

/// How it ends where reading met this fault: one answer for each, whose numbers are the fault's own.
pub fn reading_status(fault: ClientFault) -> Status
    ensures { result ≡ reading.reading_status fault }
{
    match fault {
        ClientFault::NotAStore => Status::NotAStore,
        ClientFault::WrongKey => Status::WrongKey,
        ClientFault::Damaged { at } => Status::Damaged { at },
        ClientFault::Tampered { batch, at } => Status::Tampered { batch, at },
        ClientFault::NoHolder { known } => Status::NoHolder { known },
        ClientFault::Unseen => Status::Unseen,
        ClientFault::DiskFault => Status::DiskFault,
        ClientFault::OutOfMemory => Status::OutOfMemory,
    }
}
