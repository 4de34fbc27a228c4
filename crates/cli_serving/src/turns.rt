//! The lines of `serve` behind the first: each is read and answered, by the owner or by a session, before the next is read.
ghost use Rattle.std.specs.Prelude.{◌≡◌, [], Err, IfErr, Ok, None, OnOk, is_some};
ghost use Rattle.std.specs.List.{All};
ghost use Rattle.cry_io.specs.Reading.{IsOnlyRead};
ghost use Rattle.cry_io.specs.Told.{WhereTold, WhereBothTold};
ghost use Rattle.cli_base.specs.Lines.{IsUnended, lines_ahead};
ghost use Rattle.cli_sessions.specs.Script.{IsReading, ReadsByCount};
ghost use Rattle.script_text.specs.Seats.{turn_of};
ghost use Rattle.cli_serving.specs.TurnAnswers.{OnlyReads, ServeReadsByCount, ServeWritesByCount, StaysServing, TurnAnswered};
ghost use Rattle.cli_serving.specs.Seating.{IsReady};
ghost use Rattle.cli_serving.specs.Taking.{CountsTurn, GivesTurn, ServesRan, TakesTurn};

use crate::answering::answer_seat;
use crate::serve_fault::ServeFault;
use cli_base::lines::{LineReader, Next, NextFault};
use cli_sessions::script::{Applies, ScriptFault, answer_line};
use cry_io::{Disk, Sink, Source};
use read_steps::Session;
use script_text::{LineFault, TurnLine, read_turn};
use std::alloc::Global;
use std::mem;
use store_owner::Owner;

/// What applies commands between which the disk is read.
pub trait Serves<R, D: Disk>: Applies<R, D> {
    ghost use Rattle.cry_io.specs.Reading.{IsOnlyRead};

    /// A command may still come where the disk was only read.
    ghost ready_still: { (o : Self) (r : R) (d e : D) → IsOnlyRead D.Disk d e → Self.ready (o, r, d) → Self.ready (o, r, e) };
}

impl<R: Source, D: Disk> Serves<R, D> for Owner {
    ghost use Rattle.std.proofs.Common.{◌≤◌, ◌∙◌, subst, sym};

    ghost ready_still = { λ o r d e read is. (
      is.0,
      subst (λ size. o.journal.end ≤ size) (sym read.same_size) is.1,
      λ bytes may. read.same_bytes ∙ is.2 bytes ((read.same_stops bytes).0 may),
    ) };
}

/// Answers the lines that are still to come, one after another, up to the end, or to what `ServeFault` tells: what was answered before it
/// stands. A line of `run` asks the owner; a session's line only reads the disk. No session stands before the first line.
pub(crate) fn serve_lines<S: Source, O: Serves<R, D>, R, D: Disk, W: Sink>(
    alloc: Global,
    reader: &mut LineReader,
    input: &mut S,
    owner: &mut O,
    random: &mut R,
    disk: &mut D,
    out: &mut W,
) -> Result<(), ServeFault>
    requires { O.ready (owner.old, random.old, disk.old) }
    ensures ready { StaysServing (O.ready (owner.new, random.new, disk.new)) result }
    ensures ran { ServesRan O.answers O.fails (λ (at : O × R × D). O.replaces at.0) (OnlyReads D.Disk)
        (λ (at : O × R × D). D.shown at.2) (λ (at : O × R × D). D.faults at.2) result (owner.old, random.old, disk.old)
        (owner.new, random.new, disk.new) reader.old reader.new (S.left input.old) (S.left input.new) (W.written out.old)
        (W.written out.new) }
    ensures to_end { OnOk result (WhereTold (S.left input.new) (λ after. after ≡ [])) }
    ensures unended { result ≡ Err (ServeFault.Script ScriptFault.ReadFault) → IsUnended reader.new }
    ensures input_told { is_some (S.left input.new) ≡ is_some (S.left input.old) }
    ensures out_told { is_some (W.written out.new) ≡ is_some (W.written out.old) }
    ensures input_counts { ServeReadsByCount result (S.faults input.old) (S.faults input.new) }
    ensures out_counts { ServeWritesByCount result (W.faults out.old) (W.faults out.new) }
{
    let mut sessions = Vec::new(alloc);
    let served = answer_turns(
        alloc,
        reader,
        input,
        owner,
        random,
        disk,
        &mut sessions,
        out,
    );
    // The program ends behind this: the system takes all memory back at once.
    mem::forget(sessions);
    served
}

/// Answers the lines, with sessions of which none stands yet.
fn answer_turns<S: Source, O: Serves<R, D>, R, D: Disk, W: Sink>(
    alloc: Global,
    reader: &mut LineReader,
    input: &mut S,
    owner: &mut O,
    random: &mut R,
    disk: &mut D,
    sessions: &mut Vec<Session>,
    out: &mut W,
) -> Result<(), ServeFault>
    requires ready { O.ready (owner.old, random.old, disk.old) }
    requires none { sessions.old.items ≡ [] }
    ensures ready { StaysServing (O.ready (owner.new, random.new, disk.new)) result }
    ensures ran { ServesRan O.answers O.fails (λ (at : O × R × D). O.replaces at.0) (OnlyReads D.Disk)
        (λ (at : O × R × D). D.shown at.2) (λ (at : O × R × D). D.faults at.2) result (owner.old, random.old, disk.old)
        (owner.new, random.new, disk.new) reader.old reader.new (S.left input.old) (S.left input.new) (W.written out.old)
        (W.written out.new) }
    ensures to_end { OnOk result (WhereTold (S.left input.new) (λ after. after ≡ [])) }
    ensures unended { result ≡ Err (ServeFault.Script ScriptFault.ReadFault) → IsUnended reader.new }
    ensures input_told { is_some (S.left input.new) ≡ is_some (S.left input.old) }
    ensures out_told { is_some (W.written out.new) ≡ is_some (W.written out.old) }
    ensures input_counts { ServeReadsByCount result (S.faults input.old) (S.faults input.new) }
    ensures out_counts { ServeWritesByCount result (W.faults out.old) (W.faults out.new) }
{
    loop {
        let turn = match next_turn(alloc, reader, input) {
            Ok(Some(turn)) => turn,
            Ok(None) => return Ok(()),
            Err(fault) => return Err(ServeFault::Script { fault }),
        };
        if let Err(fault) = answer_turn(alloc, owner, random, disk, sessions, turn, out) {
            return Err(fault);
        }
    }
}

/// Answers a line, by the owner or by a session.
fn answer_turn<O: Serves<R, D>, R, D: Disk, W: Sink>(
    alloc: Global,
    owner: &mut O,
    random: &mut R,
    disk: &mut D,
    sessions: &mut Vec<Session>,
    turn: TurnLine,
    out: &mut W,
) -> Result<(), ServeFault>
    requires ready { O.ready (owner.old, random.old, disk.old) }
    requires sessions { All IsReady sessions.old.items }
    ensures ready { StaysServing (O.ready (owner.new, random.new, disk.new)) result }
    ensures sessions { OnOk result (All IsReady sessions.new.items) }
    ensures answers { TurnAnswered O.answers O.fails (λ (at : O × R × D). O.replaces at.0) (OnlyReads D.Disk)
        (λ (at : O × R × D). D.shown at.2) (λ (at : O × R × D). D.faults at.2) result (owner.old, random.old, disk.old) (turn_of turn)
        sessions.old.items sessions.new.items (owner.new, random.new, disk.new) (W.written out.old) (W.written out.new) }
    ensures told { is_some (W.written out.new) ≡ is_some (W.written out.old) }
    ensures counts { ServeWritesByCount result (W.faults out.old) (W.faults out.new) }
{
    match turn {
        TurnLine::ToOwner { task } => match answer_line(alloc, owner, random, disk, task, out) {
            Ok(()) => Ok(()),
            Err(fault) => Err(ServeFault::Script { fault }),
        },
        TurnLine::ToSeat { ask } => answer_seat(alloc, sessions, disk, ask, out),
    }
}

/// What the next line asks for. Where there is no line more the input was read to its end.
fn next_turn<S: Source>(
    alloc: Global,
    reader: &mut LineReader,
    input: &mut S,
) -> Result<Option<TurnLine>, ScriptFault>
    ensures told { is_some (S.left input.new) ≡ is_some (S.left input.old) }
    ensures gives { WhereBothTold (S.left input.old) (S.left input.new)
        (λ before after. GivesTurn result (lines_ahead reader.old before) (lines_ahead reader.new after)) }
    ensures takes { WhereBothTold (S.left input.old) (S.left input.new) (TakesTurn result reader.old reader.new) }
    ensures to_end { result ≡ Ok None → WhereTold (S.left input.new) (λ after. after ≡ []) }
    ensures unended { result ≡ Err ScriptFault.ReadFault → IsUnended reader.new }
    ensures count { CountsTurn result reader.old reader.new }
    ensures faults { IfErr result IsReading }
    ensures counts { ReadsByCount result (S.faults input.old) (S.faults input.new) }
{
    let (line, bytes) = match reader.next_line(alloc, input) {
        Ok(Next::Line { number, bytes }) => (number, bytes),
        Ok(Next::End) => return Ok(None),
        Ok(Next::PastLimit { number }) => return Err(ScriptFault::BadLine { line: number }),
        Err(NextFault::Failed) => return Err(ScriptFault::ReadFault),
        Err(NextFault::OutOfMemory) => return Err(ScriptFault::OutOfMemory),
    };
    match read_turn(alloc, bytes.as_slice()) {
        Ok(turn) => Ok(Some(turn)),
        Err(LineFault::BadLine) => Err(ScriptFault::BadLine { line }),
        Err(LineFault::OutOfMemory) => Err(ScriptFault::OutOfMemory),
    }
}
