//! Lines as they are printed.
ghost use Rattle.std.specs.Prelude.{◌≡◌, ◌+◌, ◌*◌, ◌^◌, ◌<◌, ◌≤◌, ◌++◌, ◌∷◌, [], codes, length, IsOk, IsNone, IfSome, OnOk, OnErr};
ghost use Rattle.script_text.specs.Printing.{owner_line, path_line, file_line, spell_line, holder_line, refused_line, spell_reply};

use crate::hex_text::put_hex;
use cry_base::{HolderId, Line, Mem, OutOfMemory, Refusal, Reply, Text};
use itoa::Buffer;

/// The bytes of an owner's line.
pub const OWNER_LINE_LEN: usize = 71;

/// The bytes of a new holder's line beside its number.
const HOLDER_LINE_LEN: usize = 73;

/// The bytes of a refusal's line beside its word.
const REFUSED_LINE_LEN: usize = 9;

/// Appends the line `owner HEX` with its newline, the 32 bytes of the key in lower case. At `Err` the text is as it was.
#[tactic(auto, using(crate::proofs::PrintedLengths::lengths), unfolding(crate::specs::Printing::owner_line))]
pub fn print_owner(key: &[u8; 32], out: &mut Text) -> Mem<()>
    ensures line { OnOk result (out.new.items ≡ out.old.items ++ owner_line key.now) }
    ensures err { OnErr result (out.new.items ≡ out.old.items) }
    ensures has_room { length (owner_line key.now) ≤ out.old.spare → IsOk result }
{
    out.reserve(OWNER_LINE_LEN)?;
    out.put_all(b"owner ");
    put_hex(key.as_slice(), out);
    out.put(b'\n');
    Ok(())
}

/// Appends one line of a view with its newline: `ancestor PATH`, `folder PATH` or `file PATH HEX`, the file's bytes in
/// lower case. Where a file is empty the space before its bytes stays. At `Err` the text is as it was.
pub fn print_line(line: &Line, out: &mut Text) -> Mem<()>
    ensures line { OnOk result (out.new.items ≡ out.old.items ++ spell_line line.now) }
    ensures err { OnErr result (out.new.items ≡ out.old.items) }
    ensures has_room { length (spell_line line.now) < 2 ^ 64 → length (spell_line line.now) ≤ out.old.spare → IsOk result }
{
    match line {
        Line::Ancestor { path } => print_path(b"ancestor ", path.as_slice(), out),
        Line::Folder { path } => print_path(b"folder ", path.as_slice(), out),
        Line::File { path, bytes } => print_file(path.as_slice(), bytes.as_slice(), out),
    }
}

#[tactic(auto, using(crate::proofs::PrintedLengths::lengths), unfolding(crate::specs::Printing::path_line))]
fn print_path(word: &[u8], path: &[u8], out: &mut Text) -> Mem<()>
    ensures line { OnOk result (out.new.items ≡ out.old.items ++ path_line word.now path.now) }
    ensures err { OnErr result (out.new.items ≡ out.old.items) }
    ensures has_room { length (path_line word.now path.now) < 2 ^ 64 → length (path_line word.now path.now) ≤ out.old.spare → IsOk result }
{
    let len = path_line_len(word, path).ok_or(OutOfMemory)?;
    out.reserve(len)?;
    out.put_all(word);
    out.put_all(path);
    out.put(b'\n');
    Ok(())
}

#[tactic(auto, using(crate::proofs::PrintedLengths::lengths), unfolding(crate::specs::Printing::file_line))]
fn print_file(path: &[u8], bytes: &[u8], out: &mut Text) -> Mem<()>
    ensures line { OnOk result (out.new.items ≡ out.old.items ++ file_line path.now bytes.now) }
    ensures err { OnErr result (out.new.items ≡ out.old.items) }
    ensures has_room { length (file_line path.now bytes.now) < 2 ^ 64 → length (file_line path.now bytes.now) ≤ out.old.spare
        → IsOk result }
{
    let len = file_line_len(path, bytes).ok_or(OutOfMemory)?;
    out.reserve(len)?;
    out.put_all(b"file ");
    out.put_all(path);
    out.put(b' ');
    put_hex(bytes, out);
    out.put(b'\n');
    Ok(())
}

/// Appends what a command is answered, with its newline: `ok`, `holder N HEX` with the new holder's number and key, the
/// key's 32 bytes in lower case, or `refused WORD`. At `Err` the text is as it was.
pub fn print_reply(reply: &Reply, out: &mut Text) -> Mem<()>
    ensures line { OnOk result (out.new.items ≡ out.old.items ++ spell_reply reply.now) }
    ensures err { OnErr result (out.new.items ≡ out.old.items) }
    ensures has_room { length (spell_reply reply.now) ≤ out.old.spare → IsOk result }
{
    match reply {
        Reply::Done => print_done(out),
        Reply::Made { holder, key } => print_holder(*holder, key, out),
        Reply::Refused { why } => print_refusal(*why, out),
    }
}

fn print_done(out: &mut Text) -> Mem<()>
    ensures line { OnOk result (out.new.items ≡ out.old.items ++ (codes "ok" ++ 10 ∷ [])) }
    ensures err { OnErr result (out.new.items ≡ out.old.items) }
    ensures has_room { 3 ≤ out.old.spare → IsOk result }
{
    out.reserve(3)?;
    out.put_all(b"ok\n");
    Ok(())
}

#[tactic(auto, using(crate::proofs::PrintedLengths::lengths), unfolding(crate::specs::Printing::holder_line))]
fn print_holder(holder: HolderId, key: &[u8; 32], out: &mut Text) -> Mem<()>
    ensures line { OnOk result (out.new.items ≡ out.old.items ++ holder_line holder.0 key.now) }
    ensures err { OnErr result (out.new.items ≡ out.old.items) }
    ensures has_room { length (holder_line holder.0 key.now) ≤ out.old.spare → IsOk result }
{
    let mut digits = Buffer::new();
    let number = digits.format(holder.0).as_bytes();
    out.reserve(number.len() + HOLDER_LINE_LEN)?;
    out.put_all(b"holder ");
    out.put_all(number);
    out.put(b' ');
    put_hex(key.as_slice(), out);
    out.put(b'\n');
    Ok(())
}

#[tactic(auto, using(crate::proofs::PrintedLengths::lengths), unfolding(crate::specs::Printing::refused_line))]
fn print_refusal(why: Refusal, out: &mut Text) -> Mem<()>
    ensures line { OnOk result (out.new.items ≡ out.old.items ++ refused_line why) }
    ensures err { OnErr result (out.new.items ≡ out.old.items) }
    ensures has_room { length (refused_line why) ≤ out.old.spare → IsOk result }
{
    let word = why.word().as_bytes();
    out.reserve(word.len() + REFUSED_LINE_LEN)?;
    out.put_all(b"refused ");
    out.put_all(word);
    out.put(b'\n');
    Ok(())
}

/// The bytes of a line, and `None` where they are more than can be counted.
fn path_line_len(word: &[u8], path: &[u8]) -> Option<usize>
    ensures found { IfSome result (λ len. len ≡ length word.now + length path.now + 1) }
    ensures too_long { IsNone result → 2 ^ 64 ≤ length word.now + length path.now + 1 }
{
    word.len().checked_add(path.len())?.checked_add(1)
}

/// The bytes of a file's line, and `None` where they are more than can be counted.
fn file_line_len(path: &[u8], bytes: &[u8]) -> Option<usize>
    ensures found { IfSome result (λ len. len ≡ length path.now + 2 * length bytes.now + 7) }
    ensures too_long { IsNone result → 2 ^ 64 ≤ length path.now + 2 * length bytes.now + 7 }
{
    let digits = bytes.len().checked_mul(2)?;
    path.len().checked_add(digits)?.checked_add(7)
}
