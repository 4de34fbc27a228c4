//! How the program ends where its lines do.
ghost use Rattle.std.specs.Prelude.{◌≡◌};
ghost use Rattle.cli_sessions.specs.Sessions as sessions;

use crate::script::ScriptFault;
use cli_base::status::Status;
use store_owner::ApplyFault;

/// How the program ends where the lines met this fault: one answer for each, whose numbers are the fault's own.
pub fn script_status(fault: ScriptFault) -> Status
    ensures { result ≡ sessions.script_status fault }
{
    match fault {
        ScriptFault::BadLine { line } => Status::BadScript { line },
        ScriptFault::ReadFault => Status::ReadFault,
        ScriptFault::WriteFault => Status::WriteFault,
        ScriptFault::OutOfMemory => Status::OutOfMemory,
        ScriptFault::Applying { fault } => apply_status(fault),
    }
}

/// How the program ends where making a store, or a command, met this fault: one answer for each. An owner that is closed is told as the
/// fault of the disk that closed it.
pub fn apply_status(fault: ApplyFault) -> Status
    ensures { result ≡ sessions.apply_status fault }
{
    match fault {
        ApplyFault::RandomFault => Status::RandomFault,
        ApplyFault::RandomShort { left, need } => Status::RandomShort { left, need },
        // `Closed` comes only behind a fault of the disk, at which the lines end.
        ApplyFault::DiskFault | ApplyFault::Closed => Status::DiskFault,
        ApplyFault::OutOfMemory => Status::OutOfMemory,
    }
}
