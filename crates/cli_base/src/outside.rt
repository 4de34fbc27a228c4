//! A whole piece written to a sink.
ghost use Rattle.std.specs.Prelude.{◌≡◌, ◌<◌, ◌≤◌, ◌⊎◌, is_some};
ghost use Rattle.cry_io.specs.Counts.{CountsFault};
ghost use Rattle.cry_io.specs.Told.{WhereBothTold};
ghost use Rattle.cli_base.specs.Outside.{Prints, PrintsAll, PrintsFront};

use crate::status::Status;
use cry_io::{Failed, Sink};

/// Writes a whole piece to a sink. At `Failed` a call of the sink failed, and a front of the piece was written.
pub fn print<W: Sink>(out: &mut W, piece: &[u8]) -> Result<(), Failed>
    ensures told { is_some (W.written out.new) ≡ is_some (W.written out.old) }
    ensures bytes { WhereBothTold (W.written out.old) (W.written out.new) (Prints result piece.now) }
    ensures counts { CountsFault result (W.faults out.old) (W.faults out.new) }
{
    let mut done = 0;
    while done < piece.len() {
        let Ok(n) = out.write(&piece[done..]) else {
            return Err(Failed);
        };
        done += n;
    }
    Ok(())
}

/// Prints a whole text as the last thing that the program does: `Done`, or `WriteFault` where the sink failed, behind a front of it.
pub fn tell<W: Sink>(text: &[u8], out: &mut W) -> Status
    ensures done { (result ≡ Status.Done) × WhereBothTold (W.written out.old) (W.written out.new) (PrintsAll text.now)
        ⊎ (result ≡ Status.WriteFault) × WhereBothTold (W.written out.old) (W.written out.new) (PrintsFront text.now) }
    ensures write_fault { result ≡ Status.WriteFault → W.faults out.old < W.faults out.new }
    ensures out_told { is_some (W.written out.new) ≡ is_some (W.written out.old) }
    ensures out_counts { W.faults out.old ≤ W.faults out.new }
{
    let Ok(()) = print(out, text) else {
        return Status::WriteFault;
    };
    Status::Done
}
