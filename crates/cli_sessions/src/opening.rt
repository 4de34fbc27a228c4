//! How the program ends where a store isn't opened for writing.
ghost use Rattle.std.specs.Prelude.{◌≡◌};
ghost use Rattle.cli_sessions.specs.Opening as opening;

use cli_base::status::Status;
use commit_journal::OpenFault;

/// One answer for each fault, whose numbers are the fault's own.
pub fn open_status(fault: OpenFault) -> Status
    ensures { result ≡ opening.open_status fault }
{
    match fault {
        OpenFault::NotAStore => Status::NotAStore,
        OpenFault::WrongKey => Status::WrongKey,
        OpenFault::Damaged { at } => Status::Damaged { at },
        OpenFault::Tampered { batch, at } => Status::Tampered { batch, at },
        OpenFault::DiskFault => Status::DiskFault,
        OpenFault::OutOfMemory => Status::OutOfMemory,
    }
}
