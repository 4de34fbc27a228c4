//! How the program ends where a log's reading fails.
ghost use Rattle.std.specs.Prelude.{◌≡◌};
ghost use Rattle.cli_heads.specs.Statuses as statuses;

use cli_base::status::Status;
use commit_journal::OpenFault;

/// The status of a fault that reading a log met.
pub fn log_status(fault: OpenFault) -> Status
    ensures { result ≡ statuses.log_status fault }
{
    match fault {
        OpenFault::NotAStore => Status::NotAStore,
        OpenFault::WrongKey => Status::WrongKey,
        OpenFault::Damaged { at } => Status::Damaged { at },
        OpenFault::Tampered { batch, at } => Status::Tampered { batch, at },
        OpenFault::DiskFault => Status::DiskFault,
        OpenFault::OutOfMemory => Status::OutOfMemory,
    }
}
