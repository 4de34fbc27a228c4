//! Each call of each object fails in turn, the disk dies at each of its calls, and then comes a stop.
use crate::script::{MAKE, REPLIES, SCRIPT};
use crate::standing::stands;
use cry_base::Mem;
use cryptree_cli::status::Status;
use fake_calls::call::{Call, Fault, called};
use std::alloc::Global;
use std::test::Fail;

/// Whose call fails.
#[derive(Clone, Copy)]
enum Failing {
    Input,
    Random,
    Disk,
    /// The disk, at each later call too.
    DeadDisk,
    Output,
}

/// Whose call fails, how the program ends then, how many calls the script has of it and how many `make`, and with how many picks the
/// disk is stopped behind each.
#[derive(Clone, Copy)]
struct Row {
    failing: Failing,
    status: Status,
    script_calls: u64,
    make_calls: u64,
    picks: u64,
}

const INPUT: Row = Row {
    failing: Failing::Input,
    status: Status::ReadFault,
    script_calls: 5,
    make_calls: 0,
    picks: 8,
};

const RANDOM: Row = Row {
    failing: Failing::Random,
    status: Status::RandomFault,
    script_calls: 17,
    make_calls: 3,
    picks: 8,
};

const DISK: Row = Row {
    failing: Failing::Disk,
    status: Status::DiskFault,
    script_calls: 66,
    make_calls: 14,
    picks: 8,
};

/// Each command has six calls and more, so each kind of command is stopped in 240 ways and more.
const DEAD_DISK: Row = Row {
    failing: Failing::DeadDisk,
    picks: 40,
    ..DISK
};

const OUTPUT: Row = Row {
    failing: Failing::Output,
    status: Status::WriteFault,
    script_calls: 9,
    make_calls: 1,
    picks: 8,
};

const ROWS: [Row; 5] = [INPUT, RANDOM, DISK, DEAD_DISK, OUTPUT];

fn fault_at(failing: Failing, number: u64) -> Fault {
    match failing {
        Failing::Input => Fault::Input(number),
        Failing::Random => Fault::Random(number),
        Failing::Disk => Fault::Disk(number),
        Failing::DeadDisk => Fault::DeadDisk(number),
        Failing::Output => Fault::Output(number),
    }
}

/// How many calls end the program as is due, failing in turn, before one is met that it doesn't make.
fn calls_met(alloc: Global, call: Call, row: Row, image: &[u8]) -> Mem<u64> {
    for number in 0..100 {
        let came = called(alloc, call, fault_at(row.failing, number), image)?;
        if came.status != row.status {
            return Ok(number);
        }
    }
    Ok(100)
}

/// How many lines end in these bytes.
fn count_lines(bytes: &[u8]) -> usize {
    let mut count = 0usize;
    for byte in bytes {
        if *byte == b'\n' {
            count = count.saturating_add(1);
        }
    }
    count
}

/// Whether the script ends as is due where this call fails, having printed a prefix of its replies, and whether, once the disk is
/// stopped, the store holds the commands that were answered.
fn leaves_what_was_answered(
    alloc: Global,
    fresh: &[u8],
    row: Row,
    number: u64,
    pick: u64,
) -> Mem<bool> {
    let came = called(alloc, SCRIPT, fault_at(row.failing, number), fresh)?;
    let printed = came.printed.as_slice();
    if came.status != row.status || !REPLIES.starts_with(printed) {
        return Ok(false);
    }
    let answered = count_lines(printed);
    let left = came.disk.stop(alloc, pick)?;
    stands(alloc, left.bytes(), answered)
}

/// Whether it does with each pick.
fn leaves_it_at_each_pick(alloc: Global, fresh: &[u8], row: Row, number: u64) -> Mem<bool> {
    for pick in 0..row.picks {
        if !leaves_what_was_answered(alloc, fresh, row, number, pick)? {
            return Ok(false);
        }
    }
    Ok(true)
}

/// The first of the script's calls that leaves something else where it fails.
fn first_wrong(alloc: Global, row: Row) -> Mem<Option<u64>> {
    let fresh = called(alloc, MAKE, Fault::Nothing, &[])?;
    for number in 0..row.script_calls {
        if !leaves_it_at_each_pick(alloc, fresh.disk.bytes(), row, number)? {
            return Ok(Some(number));
        }
    }
    Ok(None)
}

#[test]
fn each_call_of_each_object_may_fail(rt: HostRuntime) -> Result<(), Fail> {
    let alloc = rt.alloc();
    let fresh = called(alloc, MAKE, Fault::Nothing, &[])?;
    for row in ROWS.iter() {
        let met = calls_met(alloc, SCRIPT, *row, fresh.disk.bytes())?;
        assert_eq!(rt; met, row.script_calls);
        assert_eq!(rt; calls_met(alloc, MAKE, *row, &[])?, row.make_calls);
    }
    Ok(())
}

#[test]
fn a_failing_input_leaves_what_was_answered(rt: HostRuntime) -> Result<(), Fail> {
    assert_eq!(rt; first_wrong(rt.alloc(), INPUT)?, None);
    Ok(())
}

#[test]
fn a_failing_random_source_leaves_what_was_answered(rt: HostRuntime) -> Result<(), Fail> {
    assert_eq!(rt; first_wrong(rt.alloc(), RANDOM)?, None);
    Ok(())
}

#[test]
fn a_failing_disk_leaves_what_was_answered(rt: HostRuntime) -> Result<(), Fail> {
    assert_eq!(rt; first_wrong(rt.alloc(), DISK)?, None);
    Ok(())
}

#[test]
fn a_dead_disk_leaves_what_was_answered(rt: HostRuntime) -> Result<(), Fail> {
    assert_eq!(rt; first_wrong(rt.alloc(), DEAD_DISK)?, None);
    Ok(())
}

#[test]
fn a_failing_output_leaves_what_was_answered(rt: HostRuntime) -> Result<(), Fail> {
    assert_eq!(rt; first_wrong(rt.alloc(), OUTPUT)?, None);
    Ok(())
}
