//! The answer to a session's line.
ghost use Rattle.std.specs.Prelude.{◌≡◌, ◌<◌, ◌≤◌, Err, OnOk, is_some};
ghost use Rattle.std.specs.List.{All};
ghost use Rattle.cry_io.specs.Reading.{IsOnlyRead};
ghost use Rattle.script_text.specs.Seats.{ask_of};
ghost use Rattle.cli_serving.specs.Seating.{IsReady};
ghost use Rattle.cli_serving.specs.SeatAnswers.{SeatAnswered};

use crate::seating::ask_seat;
use crate::serve_fault::ServeFault;
use cli_base::outside::print;
use cli_sessions::script::ScriptFault;
use cry_base::List;
use cry_io::{Disk, Sink};
use log_visits::ClientFault;
use read_steps::Session;
use script_text::{SeatLine, print_seat_reply};
use std::alloc::Global;

/// Does what a session's line asks for, and prints the reply as one piece. It only reads the disk, and after a fault no other line may
/// come. `Reading` tells a fault of the session's reading: nothing was printed. `Script` is `OutOfMemory` where there was no memory for
/// the reply, of which nothing was printed, and `WriteFault` where the output failed: a front of the reply was printed.
pub(crate) fn answer_seat<D: Disk, W: Sink>(
    alloc: Global,
    sessions: &mut Vec<Session>,
    disk: &mut D,
    ask: SeatLine,
    out: &mut W,
) -> Result<(), ServeFault>
    requires ready { All IsReady sessions.old.items }
    ensures answers { SeatAnswered result (D.shown disk.old) (ask_of ask) sessions.old.items sessions.new.items
        (W.written out.old) (W.written out.new) }
    ensures ready { OnOk result (All IsReady sessions.new.items) }
    ensures told { is_some (W.written out.new) ≡ is_some (W.written out.old) }
    ensures read_only { IsOnlyRead D.Disk disk.old disk.new }
    ensures out_counts { W.faults out.old ≤ W.faults out.new }
    ensures write_fault { result ≡ Err (ServeFault.Script ScriptFault.WriteFault) → W.faults out.old < W.faults out.new }
    ensures disk_counts { D.faults disk.old ≤ D.faults disk.new }
    ensures disk_fault { result ≡ Err (ServeFault.Reading ClientFault.DiskFault) → D.faults disk.old < D.faults disk.new }
{
    let reply = match ask_seat(alloc, sessions, disk, ask) {
        Ok(reply) => reply,
        Err(fault) => return Err(ServeFault::Reading { fault }),
    };
    let mut text = List::new(alloc);
    let Ok(()) = print_seat_reply(&reply, &mut text) else {
        return Err(ServeFault::Script {
            fault: ScriptFault::OutOfMemory,
        });
    };
    let Ok(()) = print(out, text.as_slice()) else {
        return Err(ServeFault::Script {
            fault: ScriptFault::WriteFault,
        });
    };
    Ok(())
}
