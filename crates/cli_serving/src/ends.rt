//! How the program ends where the lines of `serve` do.
ghost use Rattle.std.specs.Prelude.{◌≡◌, Err};
ghost use Rattle.cli_serving.specs.Lines as lines;

use crate::serve_fault::ServeFault;
use cli_base::reading::reading_status;
use cli_base::status::Status;
use cli_sessions::ends::script_status;

/// How the program ends where the lines met this fault: one answer for each, whose numbers are the fault's own.
pub(crate) fn serve_status(fault: ServeFault) -> Status
    ensures { result ≡ lines.serve_status (Err fault) }
{
    match fault {
        ServeFault::Script { fault } => script_status(fault),
        ServeFault::Reading { fault } => reading_status(fault),
    }
}
