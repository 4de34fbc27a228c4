//! A script of every kind of command over a fresh store, and what each key lists once so many of its commands stand.
use cryptree_cli::status::Status;
use fake_calls::call::Call;

pub(crate) const MAKE: Call = Call {
    command: &[b"make"],
    input: b"",
    step: 1,
};

/// Every kind of command. It comes in four pieces.
pub(crate) const SCRIPT: Call = Call {
    command: &[b"run"],
    input: b"owner 000102030405060708090a0b0c0d0e0f101112131415161718191a1b1c1d1e1f
mkdir /a
write /a/x 00ff
holder
grant 1 /a
mkdir /b
move /a/x /b
rm /b/x
revoke 1 /a
rename /a z
",
    step: 45,
};

/// What the script prints. The holder's key is what the random source gives behind a folder's five keys and a file's.
pub(crate) const REPLIES: &[u8] = b"ok
ok
holder 1 c0c1c2c3c4c5c6c7c8c9cacbcccdcecfd0d1d2d3d4d5d6d7d8d9dadbdcdddedf
ok
ok
ok
ok
ok
ok
";

/// The store is opened for writing, and nothing is asked.
pub(crate) const OPENING: Call = Call {
    command: &[b"run"],
    input: OWNER_LINE,
    step: 100,
};

pub(crate) const OWNERS_LIST: Call = Call {
    command: &[b"list"],
    input: OWNER_LINE,
    step: 100,
};

pub(crate) const HOLDERS_LIST: Call = Call {
    command: &[b"list"],
    input: HOLDER_LINE,
    step: 100,
};

const OWNER_LINE: &[u8] =
    b"owner 000102030405060708090a0b0c0d0e0f101112131415161718191a1b1c1d1e1f\n";

const HOLDER_LINE: &[u8] =
    b"holder 1 c0c1c2c3c4c5c6c7c8c9cacbcccdcecfd0d1d2d3d4d5d6d7d8d9dadbdcdddedf\n";

/// What the owner's list shows; how holder 1's ends, and what it shows.
pub(crate) type Shown = (&'static [u8], Status, &'static [u8]);

const NO_HOLDER: Status = Status::NoHolder { known: 0 };

const NOTHING: &[u8] = b"";

const ROOT: &[u8] = b"folder /\n";

const FOLDER: &[u8] = b"folder /\nfolder /a\n";

const FILE: &[u8] = b"folder /\nfolder /a\nfile /a/x 00ff\n";

const TWO_FOLDERS: &[u8] = b"folder /\nfolder /a\nfile /a/x 00ff\nfolder /b\n";

const MOVED: &[u8] = b"folder /\nfolder /a\nfolder /b\nfile /b/x 00ff\n";

const REMOVED: &[u8] = b"folder /\nfolder /a\nfolder /b\n";

const RENAMED: &[u8] = b"folder /\nfolder /b\nfolder /z\n";

const GRANTED: &[u8] = b"ancestor /\nfolder /a\nfile /a/x 00ff\n";

const GRANTED_EMPTY: &[u8] = b"ancestor /\nfolder /a\n";

/// What is shown once so many of the script's commands stand.
pub(crate) const SHOWN: [Shown; 10] = [
    (ROOT, NO_HOLDER, NOTHING),
    (FOLDER, NO_HOLDER, NOTHING),
    (FILE, NO_HOLDER, NOTHING),
    (FILE, Status::Done, NOTHING),
    (FILE, Status::Done, GRANTED),
    (TWO_FOLDERS, Status::Done, GRANTED),
    (MOVED, Status::Done, GRANTED_EMPTY),
    (REMOVED, Status::Done, GRANTED_EMPTY),
    (REMOVED, Status::Done, NOTHING),
    (RENAMED, Status::Done, NOTHING),
];
