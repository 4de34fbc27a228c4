//! Lines of sessions, and replies to them, by the text of docs/PROGRAM.md, "Lines".
ghost use Rattle.std.specs.Prelude;

use cry_base::{HolderId, Line, List, Text};
use script_text::{
    LineFault, SeatLine, SeatRefusal, SeatReply, TurnLine, print_seat_reply, read_turn,
};
use std::alloc::Global;
use std::test::Fail;

const KEY: [u8; 32] = [
    0x3f, 0x3e, 0x3d, 0x3c, 0x3b, 0x3a, 0x39, 0x38, 0x37, 0x36, 0x35, 0x34, 0x33, 0x32, 0x31, 0x30,
    0x2f, 0x2e, 0x2d, 0x2c, 0x2b, 0x2a, 0x29, 0x28, 0x27, 0x26, 0x25, 0x24, 0x23, 0x22, 0x21, 0x20,
];

const READ: [(&[u8], SeatLine); 4] = [
    (
        b"session 7 3f3e3d3c3b3a393837363534333231302f2e2d2c2b2a29282726252423222120",
        SeatLine::Begins {
            holder: HolderId(7),
            key: KEY,
        },
    ),
    (b"step 1", SeatLine::Steps { seat: 1 }),
    (b"pin 256", SeatLine::Pins { seat: 256 }),
    (
        b"show 4294967295",
        SeatLine::Shows {
            seat: 4_294_967_295,
        },
    ),
];

/// Lines of sessions, each with one thing wrong.
const BAD: [&[u8]; 12] = [
    b"session 1",
    b"session 0 3f3e3d3c3b3a393837363534333231302f2e2d2c2b2a29282726252423222120",
    b"session 1  3f3e3d3c3b3a393837363534333231302f2e2d2c2b2a29282726252423222120",
    b"session 1 3f3e3d3c3b3a393837363534333231302f2e2d2c2b2a292827262524232221",
    b"step",
    b"step ",
    b"step 0",
    b"step 01",
    b"step 4294967296",
    b"pin x",
    b"show 1 ",
    b"Show 1",
];

/// What a session's line asks for.
fn asked_of_seat(alloc: Global, line: &[u8]) -> Option<SeatLine> {
    match read_turn(alloc, line) {
        Ok(TurnLine::ToSeat { ask }) => Some(ask),
        Ok(TurnLine::ToOwner { .. }) | Err(_) => None,
    }
}

fn is_bad(alloc: Global, line: &[u8]) -> bool {
    match read_turn(alloc, line) {
        Err(LineFault::BadLine) => true,
        Ok(_) | Err(LineFault::OutOfMemory) => false,
    }
}

#[test]
fn a_sessions_line_is_read_where_it_has_its_form(rt: HostRuntime) {
    for (line, ask) in READ {
        assert!(rt; asked_of_seat(rt.alloc(), line) == Some(ask));
    }
    for line in BAD {
        assert!(rt; is_bad(rt.alloc(), line));
    }
}

/// Prints the replies of one line each.
fn print_short(out: &mut Text) -> Result<(), Fail> {
    print_seat_reply(&SeatReply::Begun { seat: 1, pinned: 7 }, out)?;
    print_seat_reply(&SeatReply::HasRead { read: 0, pinned: 7 }, out)?;
    print_seat_reply(&SeatReply::HasPinned { pinned: 10 }, out)?;
    for why in [
        SeatRefusal::NoHolder,
        SeatRefusal::NoSession,
        SeatRefusal::NotRead,
        SeatRefusal::WrongKey,
        SeatRefusal::TooMany,
    ] {
        print_seat_reply(&SeatReply::Refused { why }, out)?;
    }
    Ok(())
}

/// Prints a view of one line.
fn print_view(alloc: Global, out: &mut Text) -> Result<(), Fail> {
    let mut path = Text::new(alloc);
    path.append(b"/a")?;
    let mut lines = List::new(alloc);
    lines.push(Line::Folder { path })?;
    print_seat_reply(&SeatReply::Shown { lines }, out)?;
    Ok(())
}

#[test]
fn replies_to_sessions_are_printed(rt: HostRuntime) -> Result<(), Fail> {
    let mut out = Text::new(rt.alloc());
    print_short(&mut out)?;
    print_view(rt.alloc(), &mut out)?;
    assert_eq!(rt;
        out.as_slice(),
        b"session 1 of 7\nread 0 of 7\npinned 10\nrefused no-holder\nrefused no-session\nrefused not-read\n\
            refused wrong-key\nrefused too-many\nfolder /a\nend\n"
            .as_slice(),
    );
    Ok(())
}
