//! What no real file or stream can show: a fault in the middle of things, and lines in pieces of any size.
use cry_base::Mem;
use cryptree_cli::status::Status;
use fake_calls::call::{Call, Fault, called};
use std::alloc::Global;
use std::test::Fail;

/// A call, what fails in it, and what is due: the status, what is printed, and how many bytes the store has then.
type Row = (Call, Fault, Status, &'static [u8], usize);

const OWNER_LINE: &[u8] =
    b"owner 000102030405060708090a0b0c0d0e0f101112131415161718191a1b1c1d1e1f\n";

const MAKE: Call = Call {
    command: &[b"make"],
    input: b"",
    step: 1,
};

/// The owner's line, in two reads.
const LIST: Call = Call {
    command: &[b"list"],
    input: OWNER_LINE,
    step: 45,
};

/// With the head of a fresh store, which RFC 6962 gives.
const LIST_HEAD: Call = Call {
    command: &[
        b"list",
        b"2:254ae311731a9b759cf8f47d61d1edf276632fa4d1673a13c6c51b2872a8533c",
    ],
    input: OWNER_LINE,
    step: 45,
};

/// With another of as many batches.
const LIST_OTHER_HEAD: Call = Call {
    command: &[
        b"list",
        b"2:ad571791f5ba419ef6d1e270fff40e33dc85f5bfd427cc30533c30a98a0b555a",
    ],
    input: OWNER_LINE,
    step: 45,
};

/// With that of a store that went on from it.
const LIST_LATER_HEAD: Call = Call {
    command: &[
        b"list",
        b"7:ad571791f5ba419ef6d1e270fff40e33dc85f5bfd427cc30533c30a98a0b555a",
    ],
    input: OWNER_LINE,
    step: 45,
};

/// The owner's line and two commands, of which the second read ends in the last.
const RUN: Call = Call {
    command: &[b"run"],
    input: b"owner 000102030405060708090a0b0c0d0e0f101112131415161718191a1b1c1d1e1f
mkdir /a
write /a/x 00ff
",
    step: 45,
};

/// One command alone.
const FOLDER: Call = Call {
    command: &[b"run"],
    input: b"owner 000102030405060708090a0b0c0d0e0f101112131415161718191a1b1c1d1e1f
mkdir /a",
    step: 100,
};

/// Lines with a carriage return, with a NUL, and without a newline at the end.
const LINES: Call = Call {
    command: &[b"run"],
    input: b"owner 000102030405060708090a0b0c0d0e0f101112131415161718191a1b1c1d1e1f
mkdir /a\r
mkdir /a\0
mkdir /a
mkdir /a",
    step: 1,
};

/// The path of a file that `RUN` makes.
const OPEN: Call = Call {
    command: &[b"open", b"/a/x"],
    input: OWNER_LINE,
    step: 45,
};

/// A word that isn't of path form.
const OPEN_NO_PATH: Call = Call {
    command: &[b"open", b"a/x"],
    input: OWNER_LINE,
    step: 45,
};

const AUDIT: Call = Call {
    command: &[b"audit"],
    input: OWNER_LINE,
    step: 45,
};

/// A holder that no command made.
const LIST_HOLDER: Call = Call {
    command: &[b"list"],
    input: b"holder 1 000102030405060708090a0b0c0d0e0f101112131415161718191a1b1c1d1e1f",
    step: 100,
};

/// A second line, behind which the input fails.
const TWO_LINES: Call = Call {
    command: &[b"open", b"/"],
    input: b"owner 000102030405060708090a0b0c0d0e0f101112131415161718191a1b1c1d1e1f\n\n",
    step: 72,
};

const LISTED: &[u8] = b"folder /\nfolder /a\nfile /a/x 00ff\n";

const SEEN: &[u8] = b"folder 2 1 \nfolder 4 2 a\nfile 5 1 x 00ff\n";

const REPLIES: &[u8] = b"refused bad-name\nrefused bad-name\nok\nrefused exists\n";

/// Calls over a blank disk. The keys are drawn by 64 bytes.
const MADE: [Row; 5] = [
    (MAKE, Fault::Nothing, Status::Done, OWNER_LINE, 819),
    (MAKE, Fault::Random(0), Status::RandomFault, b"", 0),
    (MAKE, Fault::Random(2), Status::RandomFault, b"", 0),
    (MAKE, Fault::Room(0), Status::WriteFault, b"", 819),
    (MAKE, Fault::Room(9), Status::WriteFault, b"owner 000", 819),
];

/// Calls over a fresh store, which has 1,801 bytes with the folder and 2,088 with the file in it.
const OVER_FRESH: [Row; 22] = [
    (LIST, Fault::Nothing, Status::Done, b"folder /\n", 819),
    (LIST, Fault::Input(1), Status::ReadFault, b"", 819),
    (LIST, Fault::Room(4), Status::WriteFault, b"fold", 819),
    (LIST_HEAD, Fault::Nothing, Status::Done, b"folder /\n", 819),
    (LIST_HEAD, Fault::Input(1), Status::ReadFault, b"", 819),
    (
        LIST_OTHER_HEAD,
        Fault::Nothing,
        Status::Forked { batches: 2 },
        b"",
        819,
    ),
    (
        LIST_LATER_HEAD,
        Fault::Nothing,
        Status::Behind { have: 2, want: 7 },
        b"",
        819,
    ),
    (AUDIT, Fault::Nothing, Status::Done, b"folder 2 1 \n", 819),
    (AUDIT, Fault::Input(1), Status::ReadFault, b"", 819),
    (AUDIT, Fault::Room(4), Status::WriteFault, b"fold", 819),
    (
        LIST_HOLDER,
        Fault::Nothing,
        Status::NoHolder { known: 0 },
        b"",
        819,
    ),
    (OPEN, Fault::Nothing, Status::Unseen, b"", 819),
    (OPEN_NO_PATH, Fault::Nothing, Status::Unseen, b"", 819),
    (
        TWO_LINES,
        Fault::Input(1),
        Status::BadScript { line: 2 },
        b"",
        819,
    ),
    (RUN, Fault::Nothing, Status::Done, b"ok\nok\n", 2088),
    (RUN, Fault::Input(1), Status::ReadFault, b"", 819),
    (RUN, Fault::Input(2), Status::ReadFault, b"ok\n", 1801),
    (RUN, Fault::Random(2), Status::RandomFault, b"", 819),
    (RUN, Fault::Random(3), Status::RandomFault, b"ok\n", 1801),
    (RUN, Fault::Disk(18), Status::DiskFault, b"ok\n", 1801),
    (RUN, Fault::Disk(23), Status::DiskFault, b"ok\n", 2088),
    (RUN, Fault::Room(4), Status::WriteFault, b"ok\no", 2088),
];

/// The first row, by its number from 0, whose call doesn't end as is due.
fn first_wrong(alloc: Global, rows: &[Row], image: &[u8]) -> Mem<Option<usize>> {
    for (number, (call, fault, status, printed, size)) in rows.iter().enumerate() {
        let came = called(alloc, *call, *fault, image)?;
        let is_due = came.status == *status
            && came.printed.as_slice() == *printed
            && came.disk.bytes().len() == *size;
        if !is_due {
            return Ok(Some(number));
        }
    }
    Ok(None)
}

/// How many calls of the disk end the program, failing in turn, before it prints; and its status where a later one fails.
fn disk_calls(alloc: Global, call: Call, image: &[u8]) -> Mem<(u64, Status)> {
    for number in 0..100 {
        let came = called(alloc, call, Fault::Disk(number), image)?;
        if came.status != Status::DiskFault || !came.printed.as_slice().is_empty() {
            return Ok((number, came.status));
        }
    }
    Ok((100, Status::DiskFault))
}

#[test]
fn faults_end_a_call_and_leave_what_was_done(rt: HostRuntime) -> Result<(), Fail> {
    let alloc = rt.alloc();
    let fresh = called(alloc, MAKE, Fault::Nothing, &[])?;
    assert_eq!(rt; first_wrong(alloc, &MADE, &[])?, None);
    assert_eq!(rt; first_wrong(alloc, &OVER_FRESH, fresh.disk.bytes())?, None);
    Ok(())
}

#[test]
fn what_a_run_made_is_listed_opened_and_audited(rt: HostRuntime) -> Result<(), Fail> {
    let alloc = rt.alloc();
    let fresh = called(alloc, MAKE, Fault::Nothing, &[])?;
    let made = called(alloc, RUN, Fault::Nothing, fresh.disk.bytes())?;
    let image = made.disk.bytes();
    let listed = called(alloc, LIST, Fault::Nothing, image)?;
    assert_eq!(rt; listed.status, Status::Done);
    assert_eq!(rt; listed.printed.as_slice(), LISTED);
    let opened = called(alloc, OPEN, Fault::Nothing, image)?;
    assert_eq!(rt; opened.status, Status::Done);
    assert_eq!(rt; opened.printed.as_slice(), b"file /a/x 00ff\n".as_slice());
    assert_eq!(rt; opened.disk.bytes() == image, true);
    let audited = called(alloc, AUDIT, Fault::Nothing, image)?;
    assert_eq!(rt; audited.status, Status::Done);
    assert_eq!(rt; audited.printed.as_slice(), SEEN);
    Ok(())
}

#[test]
fn each_call_of_the_disk_may_fail(rt: HostRuntime) -> Result<(), Fail> {
    let alloc = rt.alloc();
    let fresh = called(alloc, MAKE, Fault::Nothing, &[])?;
    let image = fresh.disk.bytes();
    assert_eq!(rt; disk_calls(alloc, MAKE, &[])?, (14, Status::Done));
    // The header, and two reads for each of two batches; `list` reads the batch of the root's name once more.
    assert_eq!(rt; disk_calls(alloc, LIST, image)?, (7, Status::Done));
    // The test of a head reads what an audit reads.
    assert_eq!(rt; disk_calls(alloc, LIST_HEAD, image)?, (12, Status::Done));
    assert_eq!(rt; disk_calls(alloc, AUDIT, image)?, (5, Status::Done));
    assert_eq!(rt; disk_calls(alloc, FOLDER, image)?, (18, Status::Done));
    Ok(())
}

#[test]
fn lines_are_the_same_in_pieces_of_any_size(rt: HostRuntime) -> Result<(), Fail> {
    let alloc = rt.alloc();
    let fresh = called(alloc, MAKE, Fault::Nothing, &[])?;
    for step in [1, 2, 7, 100] {
        let came = called(
            alloc,
            Call { step, ..LINES },
            Fault::Nothing,
            fresh.disk.bytes(),
        )?;
        assert_eq!(rt; came.printed.as_slice(), REPLIES, "by {step}");
    }
    Ok(())
}
