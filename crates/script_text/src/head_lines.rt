//! Lines of heads and of proofs between them (docs/PROGRAM.md, "Heads").
ghost use Rattle.std.specs.Prelude.{◌≡◌, ◌≢◌, ◌++◌, OnOk, OnErr, Err, ok_or};
ghost use Rattle.script_text.specs.Printing.{head_line, node_line};
ghost use Rattle.script_text.specs.Reading.{node_of};

use crate::LineFault;
use crate::hex_text::put_hex;
use crate::reading::key_in;
use cry_base::{Mem, Text};
use itoa::Buffer;

/// The bytes of a head's line beside its number.
const HEAD_LINE_LEN: usize = 71;

/// The bytes of a hash's line.
const NODE_LINE_LEN: usize = 70;

/// Appends the line `head N:HEX` with its newline: how many batches a log has, and the 32 bytes of the root over its leaves in
/// lower case. At `Err` the text is as it was.
#[tactic(auto, using(crate::proofs::PrintedLengths::lengths), unfolding(crate::specs::Printing::head_line))]
pub fn print_head(batches: u32, root: &[u8; 32], out: &mut Text) -> Mem<()>
    ensures line { OnOk result (out.new.items ≡ out.old.items ++ head_line batches root.now) }
    ensures err { OnErr result (out.new.items ≡ out.old.items) }
{
    let mut digits = Buffer::new();
    let number = digits.format(batches).as_bytes();
    out.reserve(number.len() + HEAD_LINE_LEN)?;
    out.put_all(b"head ");
    out.put_all(number);
    out.put(b':');
    put_hex(root.as_slice(), out);
    out.put(b'\n');
    Ok(())
}

/// Appends the line `node HEX` with its newline, the 32 bytes of a proof's hash in lower case. At `Err` the text is as it was.
#[tactic(auto, using(crate::proofs::PrintedLengths::lengths), unfolding(crate::specs::Printing::node_line))]
pub fn print_node(hash: &[u8; 32], out: &mut Text) -> Mem<()>
    ensures line { OnOk result (out.new.items ≡ out.old.items ++ node_line hash.now) }
    ensures err { OnErr result (out.new.items ≡ out.old.items) }
{
    out.reserve(NODE_LINE_LEN)?;
    out.put_all(b"node ");
    put_hex(hash.as_slice(), out);
    out.put(b'\n');
    Ok(())
}

/// Reads one line, given without its newline, as a hash of a proof: `node HEX64`, 64 hexadecimal digits in either case. Any
/// other line is `BadLine`. It takes no memory, so it never answers `OutOfMemory`.
pub fn read_node(line: &[u8]) -> Result<[u8; 32], LineFault>
    ensures exactly { result ≡ ok_or (node_of line.now) LineFault.BadLine }
    ensures takes_no_memory { result ≢ Err LineFault.OutOfMemory }
{
    node_in(line).ok_or(LineFault::BadLine)
}

#[tactic(auto, unfolding(crate::specs::Reading::node_of, crate::specs::Reading::behind))]
fn node_in(line: &[u8]) -> Option<[u8; 32]>
    ensures { result ≡ node_of line.now }
{
    key_in(line.strip_prefix(b"node ")?)
}
