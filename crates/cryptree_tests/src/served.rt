//! A served script: an owner and readers who take turns on one store, with ample memory, and with a fault in mid-stream.
use cry_base::Mem;
use cryptree_cli::status::Status;
use fake_calls::call::{Call, Fault, called};
use std::alloc::Global;
use std::test::Fail;

const MAKE: Call = Call {
    command: &[b"make"],
    input: b"",
    step: 1,
};

/// A store of 2,558 bytes, of which holder 1 reads a folder and a file in it.
const GRANT: Call = Call {
    command: &[b"run"],
    input: b"owner 000102030405060708090a0b0c0d0e0f101112131415161718191a1b1c1d1e1f
mkdir /a
write /a/x 00ff
holder
grant 1 /a
",
    step: 100,
};

/// The worked row of served turns (docs/TESTED.md).
const SERVE: Call = Call {
    command: &[b"serve"],
    input: b"owner 000102030405060708090a0b0c0d0e0f101112131415161718191a1b1c1d1e1f
session 1 c0c1c2c3c4c5c6c7c8c9cacbcccdcecfd0d1d2d3d4d5d6d7d8d9dadbdcdddedf
step 1
revoke 1 /a
step 1
step 1
step 1
step 1
step 1
step 1
show 1
pin 1
show 1
step 1
step 1
show 1
show 2
session 7 c0c1c2c3c4c5c6c7c8c9cacbcccdcecfd0d1d2d3d4d5d6d7d8d9dadbdcdddedf
session 1 0000000000000000000000000000000000000000000000000000000000000000
step 2
",
    step: 45,
};

const REPLIES: &[u8] = b"session 1 of 7
read 1 of 7
ok
read 2 of 7
read 3 of 7
read 4 of 7
read 5 of 7
read 6 of 7
read 7 of 7
ancestor /
folder /a
file /a/x 00ff
end
pinned 9
refused not-read
read 8 of 9
read 9 of 9
end
refused no-session
session 2 of 9
session 3 of 9
read 1 of 9
";

/// The first 40 bytes of these, which end behind the revocation.
const CUT: &[u8] = b"session 1 of 7\nread 1 of 7\nok\nread 2 of ";

/// How `serve` ends where a call of the disk fails that it doesn't make, or one of its own otherwise than with a front of its replies.
fn behind_disk_faults(alloc: Global, image: &[u8]) -> Mem<Status> {
    for number in 0..1000 {
        let came = called(alloc, SERVE, Fault::Disk(number), image)?;
        if came.status != Status::DiskFault || !REPLIES.starts_with(came.printed.as_slice()) {
            return Ok(came.status);
        }
    }
    Ok(Status::DiskFault)
}

#[test]
fn an_owner_and_readers_take_turns(rt: HostRuntime) -> Result<(), Fail> {
    let alloc = rt.alloc();
    let fresh = called(alloc, MAKE, Fault::Nothing, &[])?;
    let granted = called(alloc, GRANT, Fault::Nothing, fresh.disk.bytes())?;
    assert_eq!(rt; granted.status, Status::Done);
    assert_eq!(rt; granted.disk.bytes().len(), 2558);
    let served = called(alloc, SERVE, Fault::Nothing, granted.disk.bytes())?;
    assert_eq!(rt; served.status, Status::Done);
    assert_eq!(rt; served.printed.as_slice(), REPLIES);
    assert_eq!(rt; served.disk.bytes().len(), 2991);
    Ok(())
}

#[test]
fn faults_end_serve_and_leave_what_was_answered(rt: HostRuntime) -> Result<(), Fail> {
    let alloc = rt.alloc();
    let fresh = called(alloc, MAKE, Fault::Nothing, &[])?;
    let granted = called(alloc, GRANT, Fault::Nothing, fresh.disk.bytes())?;
    let image = granted.disk.bytes();
    let cut = called(alloc, SERVE, Fault::Room(40), image)?;
    assert_eq!(rt; cut.status, Status::WriteFault);
    assert_eq!(rt; cut.printed.as_slice(), CUT);
    assert_eq!(rt; cut.disk.bytes().len(), 2991);
    assert_eq!(rt; behind_disk_faults(alloc, image)?, Status::Done);
    Ok(())
}
