//! Lines of `run` that are read.
ghost use Rattle.std.specs.Prelude.{◌≡◌, ◌↔◌, Err, IfOk};
ghost use Rattle.script_text.specs.Tasks.{IsTaskLine, ReadsTask, Task, task_in, task_of};

use crate::LineFault;
use crate::commands::read_line;
use crate::reading::number_in;
use cry_base::{Command, HolderId};
use std::alloc::Global;

/// What a line of `run` asks for.
#[derive(Debug, Drop)]
pub enum LineTask {
    /// A command.
    Does { command: Command },
    /// A new holder in this one's place, with the same grants.
    Replaces { holder: HolderId },
}

/// Reads one line, given without its newline, as what it asks for: `replace N`, or a command, as `read_line` reads it. N is a decimal
/// number from 1 to 4,294,967,295 without leading zeros. Any other line is `BadLine`, and asks for no memory.
pub fn read_task(alloc: Global, bytes: &[u8]) -> Result<LineTask, LineFault>
    ensures reads { ReadsTask result (task_in bytes.now) }
    ensures found { IfOk result (λ task. IsTaskLine bytes.now (task_of task)) }
    ensures bad_line { (result ≡ Err LineFault.BadLine) ↔ ((task : Task) → ¬ IsTaskLine bytes.now task) }
{
    task_in(alloc, bytes)
}

#[tactic(auto, unfolding(crate::specs::Tasks::task_in, crate::specs::Reading::behind))]
fn task_in(alloc: Global, bytes: &[u8]) -> Result<LineTask, LineFault>
    ensures { ReadsTask result (task_in bytes.now) }
{
    if let Some(number) = bytes.strip_prefix(b"replace ") {
        let Some(holder) = number_in(number) else {
            return Err(LineFault::BadLine);
        };
        return Ok(LineTask::Replaces {
            holder: HolderId(holder),
        });
    }
    match read_line(alloc, bytes) {
        Ok(command) => Ok(LineTask::Does { command }),
        Err(fault) => Err(fault),
    }
}
