//! Lines of an audit, as they are printed.
ghost use Rattle.std.specs.Prelude.{◌≡◌, ◌+◌, ◌*◌, ◌^◌, ◌<◌, ◌≤◌, ◌++◌, length, IsOk, IsNone, IfSome, OnOk, OnErr};
ghost use Rattle.script_text.specs.SeenLines.{seen_file_line, seen_folder_line, seen_front, spell_seen};

use crate::hex_text::put_hex;
use cry_base::{Mem, Node, OutOfMemory, Seen, Text};
use itoa::Buffer;

/// Appends one line of an audit with its newline: `folder BATCH ID NAME` or `file BATCH ID NAME HEX`, numbers in decimal, the
/// file's bytes in lower case. Where the name is empty, or the file, the space before it stays. At `Err` the text is as it was.
pub fn print_seen(seen: &Seen, out: &mut Text) -> Mem<()>
    ensures line { OnOk result (out.new.items ≡ out.old.items ++ spell_seen seen.now) }
    ensures err { OnErr result (out.new.items ≡ out.old.items) }
    ensures has_room { length (spell_seen seen.now) < 2 ^ 64 → length (spell_seen seen.now) ≤ out.old.spare → IsOk result }
{
    let mut batch_digits = Buffer::new();
    let batch = batch_digits.format(seen.batch).as_bytes();
    let mut id_digits = Buffer::new();
    let name = seen.name.as_slice();
    match seen.node {
        Node::Folder(folder) => {
            print_folder(batch, id_digits.format(folder.0).as_bytes(), name, out)
        }
        Node::File(file) => print_file(
            batch,
            id_digits.format(file.0).as_bytes(),
            name,
            seen.bytes.as_slice(),
            out,
        ),
    }
}

#[tactic(auto, using(crate::proofs::PrintedLengths::seen_lengths), unfolding(crate::specs::SeenLines::seen_folder_line))]
fn print_folder(batch: &[u8], id: &[u8], name: &[u8], out: &mut Text) -> Mem<()>
    ensures line { OnOk result (out.new.items ≡ out.old.items ++ seen_folder_line batch.now id.now name.now) }
    ensures err { OnErr result (out.new.items ≡ out.old.items) }
    ensures has_room { length (seen_folder_line batch.now id.now name.now) < 2 ^ 64 →
        length (seen_folder_line batch.now id.now name.now) ≤ out.old.spare → IsOk result }
{
    let front = front_len(b"folder ", batch, id, name).ok_or(OutOfMemory)?;
    let len = front.checked_add(1).ok_or(OutOfMemory)?;
    out.reserve(len)?;
    put_front(b"folder ", batch, id, name, out);
    out.put(b'\n');
    Ok(())
}

#[tactic(auto, using(crate::proofs::PrintedLengths::seen_lengths), unfolding(crate::specs::SeenLines::seen_file_line))]
fn print_file(batch: &[u8], id: &[u8], name: &[u8], bytes: &[u8], out: &mut Text) -> Mem<()>
    ensures line { OnOk result (out.new.items ≡ out.old.items ++ seen_file_line batch.now id.now name.now bytes.now) }
    ensures err { OnErr result (out.new.items ≡ out.old.items) }
    ensures has_room { length (seen_file_line batch.now id.now name.now bytes.now) < 2 ^ 64 →
        length (seen_file_line batch.now id.now name.now bytes.now) ≤ out.old.spare → IsOk result }
{
    let front = front_len(b"file ", batch, id, name).ok_or(OutOfMemory)?;
    let len = file_line_len(front, bytes).ok_or(OutOfMemory)?;
    out.reserve(len)?;
    put_front(b"file ", batch, id, name, out);
    out.put(b' ');
    put_hex(bytes, out);
    out.put(b'\n');
    Ok(())
}

/// Adds what the lines of folders and of files begin with, where there is room for it.
#[tactic(auto, using(crate::proofs::PrintedLengths::seen_lengths), unfolding(crate::specs::SeenLines::seen_front))]
fn put_front(word: &[u8], batch: &[u8], id: &[u8], name: &[u8], out: &mut Text)
    requires room { length (seen_front word.now batch.now id.now name.now) ≤ out.old.spare }
    ensures items { out.new.items ≡ out.old.items ++ seen_front word.now batch.now id.now name.now }
    ensures spare { out.old.spare ≤ out.new.spare + length (seen_front word.now batch.now id.now name.now) }
{
    out.put_all(word);
    out.put_all(batch);
    out.put(b' ');
    out.put_all(id);
    out.put(b' ');
    out.put_all(name);
}

/// The bytes that a line begins with, and `None` where they are more than can be counted.
fn front_len(word: &[u8], batch: &[u8], id: &[u8], name: &[u8]) -> Option<usize>
    ensures found { IfSome result (λ len. len ≡ length word.now + length batch.now + length id.now + length name.now + 2) }
    ensures too_long { IsNone result → 2 ^ 64 ≤ length word.now + length batch.now + length id.now + length name.now + 2 }
{
    let numbers = batch.len().checked_add(id.len())?;
    let words = word.len().checked_add(name.len())?;
    numbers.checked_add(words)?.checked_add(2)
}

/// The bytes of a file's line, and `None` where they are more than can be counted.
fn file_line_len(front: usize, bytes: &[u8]) -> Option<usize>
    ensures found { IfSome result (λ len. len ≡ front + 2 * length bytes.now + 2) }
    ensures too_long { IsNone result → 2 ^ 64 ≤ front + 2 * length bytes.now + 2 }
{
    let digits = bytes.len().checked_mul(2)?;
    front.checked_add(digits)?.checked_add(2)
}
