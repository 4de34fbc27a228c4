//! Bundle lines, and printed lines, by the text of docs/PROGRAM.md, "Lines".
ghost use Rattle.std.specs.Prelude;

use cry_base::{Bundle, HolderId, Line, Mem, Text};
use script_text::{LineFault, print_line, read_bundle};
use std::alloc::Global;
use std::test::Fail;

const KEY: [u8; 32] = [
    0x00, 0x01, 0x02, 0x03, 0x04, 0x05, 0x06, 0x07, 0x08, 0x09, 0x0a, 0x0b, 0x0c, 0x0d, 0x0e, 0x0f,
    0x10, 0x21, 0x32, 0x43, 0x54, 0x65, 0x76, 0x87, 0x98, 0xa9, 0xba, 0xcb, 0xdc, 0xed, 0xfe, 0xff,
];

const FIRST: Bundle = Bundle::Holder {
    holder: HolderId(1),
    key: KEY,
};

const LAST: Bundle = Bundle::Holder {
    holder: HolderId(4_294_967_295),
    key: KEY,
};

const READ: [(&[u8], Bundle); 3] = [
    (
        b"owner 000102030405060708090A0B0C0D0E0F102132435465768798A9BACBDCEDFEFF",
        Bundle::Owner { key: KEY },
    ),
    (
        b"holder 1 000102030405060708090a0b0c0d0E0F102132435465768798a9bacbdcedfeff",
        FIRST,
    ),
    (
        b"holder 4294967295 000102030405060708090a0b0c0d0e0f102132435465768798a9bacbdcedfeff",
        LAST,
    ),
];

/// Lines of holders, each with one thing wrong. Those of owners are tried with the program.
const BAD: [&[u8]; 11] = [
    b"holder",
    b"holder 1",
    b"holder 000102030405060708090a0b0c0d0e0f102132435465768798a9bacbdcedfeff",
    b"holder  000102030405060708090a0b0c0d0e0f102132435465768798a9bacbdcedfeff",
    b"holder 0 000102030405060708090a0b0c0d0e0f102132435465768798a9bacbdcedfeff",
    b"holder 01 000102030405060708090a0b0c0d0e0f102132435465768798a9bacbdcedfeff",
    b"holder +1 000102030405060708090a0b0c0d0e0f102132435465768798a9bacbdcedfeff",
    b"holder 1a 000102030405060708090a0b0c0d0e0f102132435465768798a9bacbdcedfeff",
    b"holder 4294967296 000102030405060708090a0b0c0d0e0f102132435465768798a9bacbdcedfeff",
    b"holder 1  000102030405060708090a0b0c0d0e0f102132435465768798a9bacbdcedfeff",
    b"holder 1 000102030405060708090a0b0c0d0e0f102132435465768798a9bacbdcedfeff ",
];

#[test]
fn a_bundle_is_read_where_the_line_has_its_form(rt: HostRuntime) {
    for (line, bundle) in READ {
        assert!(rt; read_bundle(line) == Ok(bundle));
    }
    for line in BAD {
        assert!(rt; read_bundle(line) == Err(LineFault::BadLine));
    }
}

fn text(alloc: Global, bytes: &[u8]) -> Mem<Text> {
    let mut text = Text::new(alloc);
    text.append(bytes)?;
    Ok(text)
}

/// Prints a line of each kind at this path.
fn print_all(alloc: Global, path: &[u8], bytes: &[u8], out: &mut Text) -> Result<(), Fail> {
    let ancestor = Line::Ancestor {
        path: text(alloc, path)?,
    };
    let folder = Line::Folder {
        path: text(alloc, path)?,
    };
    let file = Line::File {
        path: text(alloc, path)?,
        bytes: text(alloc, bytes)?,
    };
    for line in [ancestor, folder, file] {
        print_line(&line, out)?;
    }
    Ok(())
}

#[test]
fn lines_are_printed_with_their_newline(rt: HostRuntime) -> Result<(), Fail> {
    let mut out = Text::new(rt.alloc());
    print_all(rt.alloc(), b"/a", &[0x00, 0xaf], &mut out)?;
    print_all(rt.alloc(), b"/a/b", b"", &mut out)?;
    assert_eq!(rt;
        out.as_slice(),
        b"ancestor /a\nfolder /a\nfile /a 00af\nancestor /a/b\nfolder /a/b\nfile /a/b \n".as_slice(),
    );
    Ok(())
}
