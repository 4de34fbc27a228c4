//! The lines of `run` behind the first: each is read, applied and answered before the next is read.
ghost use Rattle.std.specs.Prelude.{◌≡◌, ℕ, [], Err, List, Ok, None, IfErr, IfOk, MatchResult, OnOk, is_some, map};
ghost use Rattle.cry_base.specs.Requests.{Request, request_of};
ghost use Rattle.cry_base.specs.declared.commands.Reply.{Reply};
ghost use Rattle.cry_io.specs.Told.{WhereTold, WhereBothTold};
ghost use Rattle.cli_base.specs.Lines.{IsUnended, lines_ahead};
ghost use Rattle.cli_sessions.specs.Script.{AnswersEach, AnswersLine, AnswersOne, CountsTask, GivesTask, IsReading, IsReplacement, Ran};
ghost use Rattle.cli_sessions.specs.Script.{ReadsByCount, StaysReady, WritesByCount, is_refusal};
ghost use Rattle.cli_sessions.specs.Taking.{TakesTask};
ghost use Rattle.script_text.specs.Tasks.{task_of};
ghost use Rattle.script_text.specs.Tasks.Task.{Replaces};

use cli_base::lines::{LineReader, Next, NextFault};
use cli_base::outside::print;
use cry_base::{Command, HolderId, List, Mem, Reply};
use cry_io::{Sink, Source};
use script_text::{LineFault, LineTask, print_reply, read_task};
use std::alloc::Global;
use store_owner::ApplyFault;

/// Why the lines weren't done to their end.
#[derive(Clone, Copy, Debug, PartialEq, Eq)]
pub enum ScriptFault {
    /// The line with this number is bad.
    BadLine { line: u64 },
    /// The input failed.
    ReadFault,
    /// The output failed.
    WriteFault,
    /// There was no memory for a line or for a reply.
    OutOfMemory,
    /// A command met this fault.
    Applying { fault: ApplyFault },
}

/// What applies commands: the owner of a store, with the random bytes `R` and the disk `D` that commands use.
pub trait Applies<R, D> {
    ghost use Rattle.store_owner.specs.declared.apply_fault.ApplyFault.{ApplyFault};

    /// Whether a command may come: it may behind each that was answered.
    ghost ready: { Self × R × D → Type 0 };

    /// What a command does: the state before it, what is asked, the reply, and the state after it.
    ghost answers: { Self × R × D → Request → Reply → Self × R × D → Type 0 };

    /// What a fault leaves.
    ghost fails: { Self × R × D → Request → ApplyFault → Self × R × D → Type 0 };

    /// Which commands the replacement of a holder stands for.
    ghost replaces: { Self → ℕ → List Request → Type 0 };

    /// Whether that can be told: it can where a command may come.
    ghost can_replace: { Self → Type 0 };

    ghost ready_can: { (o : Self) (r : R) (d : D) → ready (o, r, d) → can_replace o };

    /// Does the command, or refuses it.
    fn apply(
        &mut self,
        alloc: Global,
        random: &mut R,
        disk: &mut D,
        command: &Command,
    ) -> Result<Reply, ApplyFault>
        requires { ready (self.old, random.old, disk.old) }
        ensures answers { MatchResult result
            (λ reply. answers (self.old, random.old, disk.old) (request_of command.now) reply (self.new, random.new, disk.new))
            (λ fault. fails (self.old, random.old, disk.old) (request_of command.now) fault (self.new, random.new, disk.new)) }
        ensures ready { OnOk result (ready (self.new, random.new, disk.new)) };

    /// The commands that the replacement of this holder stands for.
    fn replacing(&self, alloc: Global, holder: HolderId) -> Mem<List<Command>>
        requires { can_replace self.now }
        ensures commands { IfOk result (λ l. replaces self.now holder.0 (map request_of l.items)) }
        ensures form { IfOk result (λ l. IsReplacement holder.0 (map request_of l.items)) };
}

/// Answers the lines that are still to come, one after another, up to the end, or to what `ScriptFault` tells: what was answered before
/// it stands.
pub fn run_lines<S: Source, O: Applies<R, D>, R, D, W: Sink>(
    alloc: Global,
    reader: &mut LineReader,
    input: &mut S,
    owner: &mut O,
    random: &mut R,
    disk: &mut D,
    out: &mut W,
) -> Result<(), ScriptFault>
    requires { O.ready (owner.old, random.old, disk.old) }
    ensures ready { StaysReady (O.ready (owner.new, random.new, disk.new)) result }
    ensures ran { Ran O.answers O.fails (λ (at : O × R × D). O.replaces at.0) result (owner.old, random.old, disk.old)
        (owner.new, random.new, disk.new) reader.old reader.new (S.left input.old) (S.left input.new) (W.written out.old)
        (W.written out.new) }
    ensures to_end { OnOk result (WhereTold (S.left input.new) (λ after. after ≡ [])) }
    ensures unended { result ≡ Err ScriptFault.ReadFault → IsUnended reader.new }
    ensures input_told { is_some (S.left input.new) ≡ is_some (S.left input.old) }
    ensures out_told { is_some (W.written out.new) ≡ is_some (W.written out.old) }
    ensures input_counts { ReadsByCount result (S.faults input.old) (S.faults input.new) }
    ensures out_counts { WritesByCount result (W.faults out.old) (W.faults out.new) }
{
    loop {
        let task = match next_task(alloc, reader, input) {
            Ok(Some(task)) => task,
            Ok(None) => return Ok(()),
            Err(fault) => return Err(fault),
        };
        if let Err(fault) = answer_line(alloc, owner, random, disk, task, out) {
            return Err(fault);
        }
    }
}

/// What the next line asks for. Where there is no line more the input was read to its end.
fn next_task<S: Source>(
    alloc: Global,
    reader: &mut LineReader,
    input: &mut S,
) -> Result<Option<LineTask>, ScriptFault>
    ensures told { is_some (S.left input.new) ≡ is_some (S.left input.old) }
    ensures gives { WhereBothTold (S.left input.old) (S.left input.new)
        (λ before after. GivesTask result (lines_ahead reader.old before) (lines_ahead reader.new after)) }
    ensures takes { WhereBothTold (S.left input.old) (S.left input.new) (TakesTask result reader.old reader.new) }
    ensures to_end { result ≡ Ok None → WhereTold (S.left input.new) (λ after. after ≡ []) }
    ensures unended { result ≡ Err ScriptFault.ReadFault → IsUnended reader.new }
    ensures count { CountsTask result reader.old reader.new }
    ensures faults { IfErr result IsReading }
    ensures counts { ReadsByCount result (S.faults input.old) (S.faults input.new) }
{
    let (line, bytes) = match reader.next_line(alloc, input) {
        Ok(Next::Line { number, bytes }) => (number, bytes),
        Ok(Next::End) => return Ok(None),
        Ok(Next::PastLimit { number }) => return Err(ScriptFault::BadLine { line: number }),
        Err(NextFault::Failed) => return Err(ScriptFault::ReadFault),
        Err(NextFault::OutOfMemory) => return Err(ScriptFault::OutOfMemory),
    };
    match read_task(alloc, bytes.as_slice()) {
        Ok(task) => Ok(Some(task)),
        Err(LineFault::BadLine) => Err(ScriptFault::BadLine { line }),
        Err(LineFault::OutOfMemory) => Err(ScriptFault::OutOfMemory),
    }
}

/// Answers a line: by its command, or by those that the holder's replacement stands for, one after another, up to the first that is
/// refused. Each reply is printed before the next command is applied.
pub fn answer_line<O: Applies<R, D>, R, D, W: Sink>(
    alloc: Global,
    owner: &mut O,
    random: &mut R,
    disk: &mut D,
    task: LineTask,
    out: &mut W,
) -> Result<(), ScriptFault>
    requires { O.ready (owner.old, random.old, disk.old) }
    ensures ready { StaysReady (O.ready (owner.new, random.new, disk.new)) result }
    ensures answers { AnswersLine O.answers O.fails (λ (at : O × R × D). O.replaces at.0) result (owner.old, random.old, disk.old)
        (task_of task) (owner.new, random.new, disk.new) (W.written out.old) (W.written out.new) }
    ensures told { is_some (W.written out.new) ≡ is_some (W.written out.old) }
    ensures counts { WritesByCount result (W.faults out.old) (W.faults out.new) }
{
    match task {
        LineTask::Does { command } => match answer(alloc, owner, random, disk, &command, out) {
            Ok(_) => Ok(()),
            Err(fault) => Err(fault),
        },
        LineTask::Replaces { holder } => replace(alloc, owner, random, disk, holder, out),
    }
}

/// Answers `replace N`.
fn replace<O: Applies<R, D>, R, D, W: Sink>(
    alloc: Global,
    owner: &mut O,
    random: &mut R,
    disk: &mut D,
    holder: HolderId,
    out: &mut W,
) -> Result<(), ScriptFault>
    requires { O.ready (owner.old, random.old, disk.old) }
    ensures ready { StaysReady (O.ready (owner.new, random.new, disk.new)) result }
    ensures answers { AnswersLine O.answers O.fails (λ (at : O × R × D). O.replaces at.0) result (owner.old, random.old, disk.old)
        (Replaces holder.0) (owner.new, random.new, disk.new) (W.written out.old) (W.written out.new) }
    ensures told { is_some (W.written out.new) ≡ is_some (W.written out.old) }
    ensures counts { WritesByCount result (W.faults out.old) (W.faults out.new) }
{
    let Ok(commands) = owner.replacing(alloc, holder) else {
        return Err(ScriptFault::OutOfMemory);
    };
    answer_each(alloc, owner, random, disk, commands.as_slice(), out)
}

/// Answers these commands, one after another, up to the first that is refused.
fn answer_each<O: Applies<R, D>, R, D, W: Sink>(
    alloc: Global,
    owner: &mut O,
    random: &mut R,
    disk: &mut D,
    commands: &[Command],
    out: &mut W,
) -> Result<(), ScriptFault>
    requires { O.ready (owner.old, random.old, disk.old) }
    ensures ready { StaysReady (O.ready (owner.new, random.new, disk.new)) result }
    ensures answers { AnswersEach O.answers O.fails result (owner.old, random.old, disk.old) (map request_of commands.now)
        (owner.new, random.new, disk.new) (W.written out.old) (W.written out.new) }
    ensures told { is_some (W.written out.new) ≡ is_some (W.written out.old) }
    ensures counts { WritesByCount result (W.faults out.old) (W.faults out.new) }
{
    for command in commands {
        let reply = match answer(alloc, owner, random, disk, command, out) {
            Ok(reply) => reply,
            Err(fault) => return Err(fault),
        };
        if is_refusal(&reply) {
            return Ok(());
        }
    }
    Ok(())
}

fn is_refusal(reply: &Reply) -> bool
    ensures { result ≡ is_refusal reply.now }
{
    matches!(reply, Reply::Refused { .. })
}

/// Applies a command and prints the reply as one piece.
fn answer<O: Applies<R, D>, R, D, W: Sink>(
    alloc: Global,
    owner: &mut O,
    random: &mut R,
    disk: &mut D,
    command: &Command,
    out: &mut W,
) -> Result<Reply, ScriptFault>
    requires { O.ready (owner.old, random.old, disk.old) }
    ensures ready { StaysReady (O.ready (owner.new, random.new, disk.new)) result }
    ensures answers { AnswersOne O.answers O.fails result (owner.old, random.old, disk.old) (request_of command.now)
        (owner.new, random.new, disk.new) (W.written out.old) (W.written out.new) }
    ensures told { is_some (W.written out.new) ≡ is_some (W.written out.old) }
    ensures counts { WritesByCount result (W.faults out.old) (W.faults out.new) }
{
    let reply = match owner.apply(alloc, random, disk, command) {
        Ok(reply) => reply,
        Err(fault) => return Err(ScriptFault::Applying { fault }),
    };
    let mut text = List::new(alloc);
    let Ok(()) = print_reply(&reply, &mut text) else {
        return Err(ScriptFault::OutOfMemory);
    };
    let Ok(()) = print(out, text.as_slice()) else {
        return Err(ScriptFault::WriteFault);
    };
    Ok(reply)
}
