//! The sessions of `serve`, and what their lines do.
ghost use Rattle.std.specs.Prelude.{◌≡◌, ◌⊎◌, ◌<◌, ◌≤◌, ◌+◌, Err, IfErr, IfOk, IfSome, None, OnOk};
ghost use Rattle.std.specs.List.{All};
ghost use Rattle.cry_io.specs.Reading.{IsOnlyRead};
ghost use Rattle.script_text.specs.Seats.{ask_of};
ghost use Rattle.script_text.specs.Seats.SeatAsk.{Begins, Pins, Shows, Steps};
ghost use Rattle.session_laws.specs.Answers.{plain_reply};
ghost use Rattle.cli_serving.specs.Seating.{FailsSeat, IsReady, SeatWent, refusal_in};

use cry_base::{Bundle, HolderId};
use cry_io::Disk;
use log_visits::ClientFault;
use read_steps::Session;
use script_text::{SeatLine, SeatRefusal, SeatReply};
use std::alloc::Global;

/// So many sessions may stand.
const MOST_SESSIONS: usize = 256;

/// Where the session with this number stands, if so many were begun. They are numbered from 1.
fn place_of(count: usize, seat: u32) -> Option<usize>
    ensures found { IfSome result (λ place. (place + 1 ≡ seat) × (place < count)) }
    ensures none { result ≡ None → (seat ≡ 0) ⊎ (count < seat) }
{
    let number = seat as usize;
    if number == 0 || count < number {
        return None;
    }
    Some(number - 1)
}

/// Does what a session's line asks for, or refuses it. After a fault no other line may come.
pub(crate) fn ask_seat<D: Disk>(
    alloc: Global,
    sessions: &mut Vec<Session>,
    disk: &mut D,
    ask: SeatLine,
) -> Result<SeatReply, ClientFault>
    requires ready { All IsReady sessions.old.items }
    ensures went { IfOk result
        (λ reply. SeatWent (D.shown disk.old) (ask_of ask) sessions.old.items (plain_reply reply) sessions.new.items) }
    ensures fails { IfErr result (FailsSeat (D.shown disk.old) (ask_of ask) sessions.old.items) }
    ensures ready { OnOk result (All IsReady sessions.new.items) }
    ensures read_only { IsOnlyRead D.Disk disk.old disk.new }
    ensures counts { D.faults disk.old ≤ D.faults disk.new }
    ensures disk_fault { result ≡ Err ClientFault.DiskFault → D.faults disk.old < D.faults disk.new }
{
    match ask {
        SeatLine::Begins { holder, key } => begin_session(alloc, sessions, disk, holder, key),
        SeatLine::Steps { seat } => step_session(alloc, sessions, disk, seat),
        SeatLine::Pins { seat } => pin_session(alloc, sessions, disk, seat),
        SeatLine::Shows { seat } => show_session(alloc, sessions, disk, seat),
    }
}

fn begin_session<D: Disk>(
    alloc: Global,
    sessions: &mut Vec<Session>,
    disk: &mut D,
    holder: HolderId,
    key: [u8; 32],
) -> Result<SeatReply, ClientFault>
    requires ready { All IsReady sessions.old.items }
    ensures went { IfOk result
        (λ reply. SeatWent (D.shown disk.old) (Begins holder.0 key) sessions.old.items (plain_reply reply) sessions.new.items) }
    ensures fails { IfErr result (FailsSeat (D.shown disk.old) (Begins holder.0 key) sessions.old.items) }
    ensures ready { OnOk result (All IsReady sessions.new.items) }
    ensures read_only { IsOnlyRead D.Disk disk.old disk.new }
    ensures counts { D.faults disk.old ≤ D.faults disk.new }
    ensures disk_fault { result ≡ Err ClientFault.DiskFault → D.faults disk.old < D.faults disk.new }
{
    let count = sessions.len();
    if MOST_SESSIONS <= count {
        return Ok(SeatReply::Refused {
            why: SeatRefusal::TooMany,
        });
    }
    let session = Session::begin(alloc, disk, Bundle::Holder { holder, key })?;
    let pinned = session.pinned();
    let Ok(()) = sessions.push(session) else {
        return Err(ClientFault::OutOfMemory);
    };
    Ok(SeatReply::Begun {
        seat: count as u32 + 1,
        pinned,
    })
}

fn step_session<D: Disk>(
    alloc: Global,
    sessions: &mut Vec<Session>,
    disk: &mut D,
    seat: u32,
) -> Result<SeatReply, ClientFault>
    requires ready { All IsReady sessions.old.items }
    ensures went { IfOk result
        (λ reply. SeatWent (D.shown disk.old) (Steps seat) sessions.old.items (plain_reply reply) sessions.new.items) }
    ensures fails { IfErr result (FailsSeat (D.shown disk.old) (Steps seat) sessions.old.items) }
    ensures ready { OnOk result (All IsReady sessions.new.items) }
    ensures read_only { IsOnlyRead D.Disk disk.old disk.new }
    ensures counts { D.faults disk.old ≤ D.faults disk.new }
    ensures disk_fault { result ≡ Err ClientFault.DiskFault → D.faults disk.old < D.faults disk.new }
{
    let Some(place) = place_of(sessions.len(), seat) else {
        return Ok(SeatReply::Refused {
            why: SeatRefusal::NoSession,
        });
    };
    let session = &mut sessions[place];
    let pinned = session.pinned();
    let read = session.read();
    if pinned <= read {
        return Ok(SeatReply::HasRead { read, pinned });
    }
    session.step(alloc, disk)?;
    Ok(SeatReply::HasRead {
        read: session.read(),
        pinned,
    })
}

fn pin_session<D: Disk>(
    alloc: Global,
    sessions: &mut Vec<Session>,
    disk: &mut D,
    seat: u32,
) -> Result<SeatReply, ClientFault>
    requires ready { All IsReady sessions.old.items }
    ensures went { IfOk result
        (λ reply. SeatWent (D.shown disk.old) (Pins seat) sessions.old.items (plain_reply reply) sessions.new.items) }
    ensures fails { IfErr result (FailsSeat (D.shown disk.old) (Pins seat) sessions.old.items) }
    ensures ready { OnOk result (All IsReady sessions.new.items) }
    ensures read_only { IsOnlyRead D.Disk disk.old disk.new }
    ensures counts { D.faults disk.old ≤ D.faults disk.new }
    ensures disk_fault { result ≡ Err ClientFault.DiskFault → D.faults disk.old < D.faults disk.new }
{
    let Some(place) = place_of(sessions.len(), seat) else {
        return Ok(SeatReply::Refused {
            why: SeatRefusal::NoSession,
        });
    };
    let session = &mut sessions[place];
    session.pin(alloc, disk)?;
    Ok(SeatReply::HasPinned {
        pinned: session.pinned(),
    })
}

fn show_session<D: Disk>(
    alloc: Global,
    sessions: &mut Vec<Session>,
    disk: &mut D,
    seat: u32,
) -> Result<SeatReply, ClientFault>
    requires ready { All IsReady sessions.old.items }
    ensures went { IfOk result
        (λ reply. SeatWent (D.shown disk.old) (Shows seat) sessions.old.items (plain_reply reply) sessions.new.items) }
    ensures fails { IfErr result (FailsSeat (D.shown disk.old) (Shows seat) sessions.old.items) }
    ensures ready { OnOk result (All IsReady sessions.new.items) }
    ensures read_only { IsOnlyRead D.Disk disk.old disk.new }
    ensures counts { D.faults disk.old ≤ D.faults disk.new }
    ensures disk_fault { result ≡ Err ClientFault.DiskFault → D.faults disk.old < D.faults disk.new }
{
    let Some(place) = place_of(sessions.len(), seat) else {
        return Ok(SeatReply::Refused {
            why: SeatRefusal::NoSession,
        });
    };
    let session = &sessions[place];
    if session.read() < session.pinned() {
        return Ok(SeatReply::Refused {
            why: SeatRefusal::NotRead,
        });
    }
    let fault = match session.show(alloc, disk) {
        Ok(lines) => return Ok(SeatReply::Shown { lines }),
        Err(fault) => fault,
    };
    match refusal_in(fault) {
        Some(why) => Ok(SeatReply::Refused { why }),
        None => Err(fault),
    }
}

/// The refusal that tells a fault of showing, where one does.
fn refusal_in(fault: ClientFault) -> Option<SeatRefusal>
    ensures { result ≡ refusal_in fault }
{
    match fault {
        ClientFault::NoHolder { .. } => Some(SeatRefusal::NoHolder),
        ClientFault::WrongKey => Some(SeatRefusal::WrongKey),
        _ => None,
    }
}
