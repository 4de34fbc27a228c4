//! Why the lines of `serve` weren't done to their end.
use cli_sessions::script::ScriptFault;
use log_visits::ClientFault;

/// Why the lines of `serve` weren't done to their end.
#[derive(Clone, Copy, Debug, PartialEq, Eq)]
pub enum ServeFault {
    /// They ended as those of `run` do.
    Script { fault: ScriptFault },
    /// A session's reading met this fault.
    Reading { fault: ClientFault },
}
