//! Payloads without records: each note by the bytes that docs/FORMAT.md, "Notes and payloads", gives it.
ghost use Rattle.std.specs.Prelude;

use cry_base::{FileId, FolderId, HolderId, Text};
use record_format::{Note, read_payload};
use std::alloc::Global;
use std::test::Fail;

const FILE: FileId = FileId(0x0102_0304);

const FOLDER: FolderId = FolderId(5);

// The file's number in grants.
const CLEARANCE: FolderId = FolderId(0x8102_0304);

const HOLDER: HolderId = HolderId(6);

const PLACE: FolderId = FolderId(7);

const NEW_HOLDER: [u8; 37] = [
    2, 0, 0, 0, 6, 0xab, 0xab, 0xab, 0xab, 0xab, 0xab, 0xab, 0xab, 0xab, 0xab, 0xab, 0xab, 0xab,
    0xab, 0xab, 0xab, 0xab, 0xab, 0xab, 0xab, 0xab, 0xab, 0xab, 0xab, 0xab, 0xab, 0xab, 0xab, 0xab,
    0xab, 0xab, 0xab,
];

const NOTES: [(Note, &[u8]); 17] = [
    (Note::Root, &[1]),
    (
        Note::NewHolder {
            holder: HOLDER,
            check: [0xab; 32],
        },
        &NEW_HOLDER,
    ),
    (
        Note::NewFolder {
            folder: FOLDER,
            parent: PLACE,
        },
        &[3, 0, 0, 0, 5, 0, 0, 0, 7],
    ),
    (
        Note::NewFile {
            file: FILE,
            folder: FOLDER,
        },
        &[4, 1, 2, 3, 4, 0, 0, 0, 5],
    ),
    (Note::Rewrite { file: FILE }, &[5, 1, 2, 3, 4]),
    (Note::NameFile { file: FILE }, &[6, 1, 2, 3, 4]),
    (Note::NameFolder { folder: FOLDER }, &[7, 0, 0, 0, 5]),
    (Note::DropFile { file: FILE }, &[8, 1, 2, 3, 4]),
    (Note::DropFolder { folder: FOLDER }, &[9, 0, 0, 0, 5]),
    (
        Note::ShiftFile {
            file: FILE,
            into: PLACE,
        },
        &[10, 1, 2, 3, 4, 0, 0, 0, 7],
    ),
    (
        Note::ShiftFolder {
            folder: FOLDER,
            into: PLACE,
        },
        &[11, 0, 0, 0, 5, 0, 0, 0, 7],
    ),
    (
        Note::Give {
            holder: HOLDER,
            folder: FOLDER,
        },
        &[12, 0, 0, 0, 6, 0, 0, 0, 5],
    ),
    (
        Note::Take {
            holder: HOLDER,
            folder: FOLDER,
        },
        &[13, 0, 0, 0, 6, 0, 0, 0, 5],
    ),
    (
        Note::Give {
            holder: HOLDER,
            folder: CLEARANCE,
        },
        &[12, 0, 0, 0, 6, 0x81, 2, 3, 4],
    ),
    (
        Note::Take {
            holder: HOLDER,
            folder: CLEARANCE,
        },
        &[13, 0, 0, 0, 6, 0x81, 2, 3, 4],
    ),
    (Note::StrictRoot, &[14]),
    (Note::Upgrade, &[15]),
];

/// The note that is read from these bytes and two counts of no records.
fn read(alloc: Global, note: &[u8]) -> Result<Note, Fail> {
    let mut bytes = Text::new(alloc);
    bytes.append(note)?;
    bytes.append(&[0; 8])?;
    Ok(read_payload(alloc, bytes.as_slice())?.note)
}

#[test]
fn each_note_is_spelled_as_in_the_table(rt: HostRuntime) -> Result<(), Fail> {
    for (note, bytes) in NOTES {
        assert_eq!(rt; read(rt.alloc(), bytes)?, note);
    }
    Ok(())
}
