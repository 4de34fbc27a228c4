//! What a drawn line asks for, and how it is spelled.
ghost use Rattle.std.specs.Prelude.{◌≡◌, ◌<◌, ◌≤◌, ◌+◌, ◌++◌, ◌∷◌, [], length, decimal, OnOk};
ghost use Rattle.store_gen.specs.Rule.{IsSmall, asks, folder_path};
ghost use Rattle.store_gen.specs.Spelling.{spelled};

use cry_base::{Mem, Text};
use hex::encode_to_slice;

/// A drawn line, by its numbers. Folders and files are numbered from 0 to 7. Holders are counted from 0 to 3 here, and
/// from 1 in the line.
#[derive(Clone, Copy)]
pub(crate) enum Change {
    /// Writes the file `f` of a folder.
    Write { folder: u8, file: u8, byte: u8 },
    /// Gives a grant that doesn't stand.
    Grant { who: u8, folder: u8 },
    /// Takes back a grant that stands.
    Revoke { who: u8, folder: u8 },
    /// Moves the file `t` to another folder.
    Move { file: u8, from: u8, into: u8 },
}

/// No line of a change has more bytes, its newline among them.
const LINE_LEN: usize = 16;

/// Appends the line with its newline.
pub(crate) fn put_line(change: Change, out: &mut Text) -> Mem<()>
    requires { IsSmall change }
    ensures { OnOk result (out.new.items ≡ out.old.items ++ (spelled (asks change) ++ 10 ∷ [])) }
{
    out.reserve(LINE_LEN)?;
    match change {
        Change::Write { folder, file, byte } => put_write(folder, file, byte, out),
        Change::Grant { who, folder } => put_grant(b"grant ", who, folder, out),
        Change::Revoke { who, folder } => put_grant(b"revoke ", who, folder, out),
        Change::Move { file, from, into } => put_move(file, from, into, out),
    }
    out.put(b'\n');
    Ok(())
}

fn put_write(folder: u8, file: u8, byte: u8, out: &mut Text)
    requires small { IsSmall (Change.Write folder file byte) }
    requires room { 15 ≤ out.old.spare }
    ensures items { out.new.items ≡ out.old.items ++ spelled (asks (Change.Write folder file byte)) }
    ensures spare { out.old.spare ≤ out.new.spare + 15 }
{
    let mut digits = [0; 2];
    let _ = encode_to_slice([byte].as_slice(), &mut digits);
    out.put_all(b"write /d");
    out.put(b'0' + folder);
    out.put_all(b"/f");
    out.put(b'0' + file);
    out.put(b' ');
    out.put_all(&digits);
}

fn put_grant(word: &[u8], who: u8, folder: u8, out: &mut Text)
    requires small { IsSmall (Change.Grant who folder) }
    requires room { length word.now + 5 ≤ out.old.spare }
    ensures items { out.new.items ≡ out.old.items ++ (word.now ++ (decimal (who + 1) ++ 32 ∷ folder_path folder)) }
    ensures spare { out.old.spare ≤ out.new.spare + (length word.now + 5) }
{
    out.put_all(word);
    out.put(b'1' + who);
    out.put_all(b" /d");
    out.put(b'0' + folder);
}

fn put_move(file: u8, from: u8, into: u8, out: &mut Text)
    requires small { IsSmall (Change.Move file from into) }
    requires room { 15 ≤ out.old.spare }
    ensures items { out.new.items ≡ out.old.items ++ spelled (asks (Change.Move file from into)) }
    ensures spare { out.old.spare ≤ out.new.spare + 15 }
{
    out.put_all(b"move /d");
    out.put(b'0' + from);
    out.put_all(b"/t");
    out.put(b'0' + file);
    out.put_all(b" /d");
    out.put(b'0' + into);
}
