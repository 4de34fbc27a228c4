//! Lines of `serve`: those of `run`, and those of sessions, which readers begin who stay.
ghost use Rattle.std.specs.Prelude.{◌≡◌, ◌↔◌, ◌++◌, ◌≤◌, Err, IfOk, IsOk, OnErr, OnOk, length, option_map};
ghost use Rattle.std.specs.List.{flat_map};
ghost use Rattle.script_text.specs.Printing.{spell_line};
ghost use Rattle.script_text.specs.Seats.{IsOneLine, IsTurnLine, ReadsTurn, Turn, ask_of, end_line, of_line, pinned_line, seat_word};
ghost use Rattle.script_text.specs.Seats.{session_of, spell_seat_reply, turn_in, turn_of, unserved_line};

use crate::LineFault;
use crate::printing::print_line;
use crate::reading::{first_space, key_in, number_in};
use crate::tasks::{LineTask, read_task};
use cry_base::{HolderId, Line, List, Mem, Text};
use itoa::Buffer;
use std::alloc::Global;

/// What a session's line asks for. Sessions are numbered from 1.
#[derive(Clone, Copy, Debug, PartialEq, Eq)]
pub enum SeatLine {
    /// A new session with this holder's key.
    Begins { holder: HolderId, key: [u8; 32] },
    /// One batch more.
    Steps { seat: u32 },
    /// The batches that are published now, to be read.
    Pins { seat: u32 },
    /// What the key shows.
    Shows { seat: u32 },
}

/// What a line of `serve` asks for.
#[derive(Debug, Drop)]
pub enum TurnLine {
    /// What a line of `run` asks for.
    ToOwner { task: LineTask },
    /// What a session's line asks for.
    ToSeat { ask: SeatLine },
}

/// Why a session's line is refused.
#[derive(Clone, Copy, Debug, PartialEq, Eq)]
pub enum SeatRefusal {
    /// No batch that is pinned made the holder.
    NoHolder,
    /// No session has that number.
    NoSession,
    /// Not all batches that are pinned were read.
    NotRead,
    /// The key isn't the holder's.
    WrongKey,
    /// As many sessions stand as may.
    TooMany,
}

/// What a session's line is answered.
#[derive(Debug, Drop)]
pub enum SeatReply {
    /// A session was begun: its number, and how many batches are pinned for it.
    Begun { seat: u32, pinned: u32 },
    /// How many batches were read, of how many that are pinned.
    HasRead { read: u32, pinned: u32 },
    /// How many batches are pinned now.
    HasPinned { pinned: u32 },
    /// The lines of the view.
    Shown { lines: List<Line> },
    /// The line had no effect.
    Refused { why: SeatRefusal },
}

impl SeatRefusal {
    /// The word that a reply gives for it.
    pub fn word(self) -> &'static str
        ensures { result.now ≡ seat_word self }
    {
        match self {
            SeatRefusal::NoHolder => "no-holder",
            SeatRefusal::NoSession => "no-session",
            SeatRefusal::NotRead => "not-read",
            SeatRefusal::WrongKey => "wrong-key",
            SeatRefusal::TooMany => "too-many",
        }
    }
}

/// Reads one line, given without its newline, as what it asks for: `session N HEX64`, `step S`, `pin S`, `show S`, or a line of `run`, as
/// `read_task` reads it, with one space between fields. HEX64 is 64 hexadecimal digits in either case, for 32 key bytes. N and S are
/// decimal numbers from 1 to 4,294,967,295 without leading zeros. Any other line is `BadLine`, and asks for no memory: `OutOfMemory` is
/// answered to a command's line alone.
pub fn read_turn(alloc: Global, bytes: &[u8]) -> Result<TurnLine, LineFault>
    ensures reads { ReadsTurn result (turn_in bytes.now) }
    ensures found { IfOk result (λ turn. IsTurnLine bytes.now (turn_of turn)) }
    ensures bad_line { (result ≡ Err LineFault.BadLine) ↔ ((turn : Turn) → ¬ IsTurnLine bytes.now turn) }
{
    turn_in(alloc, bytes)
}

#[tactic(auto, unfolding(crate::specs::Seats::turn_in, crate::specs::Seats::seat_of, crate::specs::Reading::behind))]
fn turn_in(alloc: Global, bytes: &[u8]) -> Result<TurnLine, LineFault>
    ensures { ReadsTurn result (turn_in bytes.now) }
{
    if let Some(fields) = bytes.strip_prefix(b"session ") {
        return to_seat(session_in(fields));
    }
    if let Some(number) = bytes.strip_prefix(b"step ") {
        return to_seat(number_in(number).map(|seat| SeatLine::Steps { seat }));
    }
    if let Some(number) = bytes.strip_prefix(b"pin ") {
        return to_seat(number_in(number).map(|seat| SeatLine::Pins { seat }));
    }
    if let Some(number) = bytes.strip_prefix(b"show ") {
        return to_seat(number_in(number).map(|seat| SeatLine::Shows { seat }));
    }
    match read_task(alloc, bytes) {
        Ok(task) => Ok(TurnLine::ToOwner { task }),
        Err(fault) => Err(fault),
    }
}

fn to_seat(ask: Option<SeatLine>) -> Result<TurnLine, LineFault>
    ensures { ReadsTurn result (option_map (λ a. Turn.ToSeat (ask_of a)) ask) }
{
    let Some(ask) = ask else {
        return Err(LineFault::BadLine);
    };
    Ok(TurnLine::ToSeat { ask })
}

#[tactic(auto, unfolding(crate::specs::Seats::session_of))]
fn session_in(fields: &[u8]) -> Option<SeatLine>
    ensures { option_map ask_of result ≡ session_of fields.now }
{
    let space = first_space(fields)?;
    let holder = HolderId(number_in(&fields[..space])?);
    let key = key_in(&fields[space + 1..])?;
    Some(SeatLine::Begins { holder, key })
}

/// Appends what a session's line is answered, with its newlines: `session S of P`, `read K of P`, `pinned P`, the lines of a view as
/// `print_line` prints them and `end` behind them, or `refused WORD`. At `Err` some lines of a view may be there, and of another reply
/// nothing.
pub fn print_seat_reply(reply: &SeatReply, out: &mut Text) -> Mem<()>
    ensures line { OnOk result (out.new.items ≡ out.old.items ++ spell_seat_reply reply.now) }
    ensures err { IsOneLine reply.now → OnErr result (out.new.items ≡ out.old.items) }
    ensures has_room { IsOneLine reply.now → length (spell_seat_reply reply.now) ≤ out.old.spare → IsOk result }
{
    match reply {
        SeatReply::Begun { seat, pinned } => print_of(b"session ", *seat, *pinned, out),
        SeatReply::HasRead { read, pinned } => print_of(b"read ", *read, *pinned, out),
        SeatReply::HasPinned { pinned } => print_pinned(*pinned, out),
        SeatReply::Shown { lines } => print_view(lines.as_slice(), out),
        SeatReply::Refused { why } => print_unserved(*why, out),
    }
}

/// The bytes of such a line beside its word and its numbers.
const OF_LINE_LEN: usize = 5;

/// A word, and two numbers: one of so many.
#[tactic(auto, using(crate::proofs::PrintedLengths::seat_lengths), unfolding(crate::specs::Seats::of_line))]
fn print_of(word: &[u8], one: u32, all: u32, out: &mut Text) -> Mem<()>
    requires short { length word.now ≤ 8 }
    ensures line { OnOk result (out.new.items ≡ out.old.items ++ of_line word.now one all) }
    ensures err { OnErr result (out.new.items ≡ out.old.items) }
    ensures has_room { length (of_line word.now one all) ≤ out.old.spare → IsOk result }
{
    let mut one_digits = Buffer::new();
    let one = one_digits.format(one).as_bytes();
    let mut all_digits = Buffer::new();
    let all = all_digits.format(all).as_bytes();
    out.reserve(word.len() + one.len() + all.len() + OF_LINE_LEN)?;
    out.put_all(word);
    out.put_all(one);
    out.put_all(b" of ");
    out.put_all(all);
    out.put(b'\n');
    Ok(())
}

#[tactic(auto, using(crate::proofs::PrintedLengths::seat_lengths), unfolding(crate::specs::Seats::pinned_line))]
fn print_pinned(pinned: u32, out: &mut Text) -> Mem<()>
    ensures line { OnOk result (out.new.items ≡ out.old.items ++ pinned_line pinned) }
    ensures err { OnErr result (out.new.items ≡ out.old.items) }
    ensures has_room { length (pinned_line pinned) ≤ out.old.spare → IsOk result }
{
    let mut digits = Buffer::new();
    let number = digits.format(pinned).as_bytes();
    out.reserve(number.len() + 8)?;
    out.put_all(b"pinned ");
    out.put_all(number);
    out.put(b'\n');
    Ok(())
}

#[tactic(auto, using(crate::proofs::PrintedLengths::seat_lengths), unfolding(crate::specs::Seats::unserved_line))]
fn print_unserved(why: SeatRefusal, out: &mut Text) -> Mem<()>
    ensures line { OnOk result (out.new.items ≡ out.old.items ++ unserved_line why) }
    ensures err { OnErr result (out.new.items ≡ out.old.items) }
    ensures has_room { length (unserved_line why) ≤ out.old.spare → IsOk result }
{
    let word = why.word().as_bytes();
    out.reserve(word.len() + 9)?;
    out.put_all(b"refused ");
    out.put_all(word);
    out.put(b'\n');
    Ok(())
}

/// The lines of a view, and the line that ends them.
fn print_view(lines: &[Line], out: &mut Text) -> Mem<()>
    ensures line { OnOk result (out.new.items ≡ out.old.items ++ (flat_map spell_line lines.now ++ end_line)) }
{
    for line in lines {
        print_line(line, out)?;
    }
    out.reserve(4)?;
    out.put_all(b"end\n");
    Ok(())
}
