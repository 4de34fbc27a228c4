//! The lines of an input that hand in a proof, one hash each.
ghost use Rattle.std.specs.Prelude.{◌≡◌, is_some};
ghost use Rattle.cry_io.specs.Told.{WhereBothTold};
ghost use Rattle.cli_base.specs.Input.{InputFailsByCount};
ghost use Rattle.cli_heads.specs.ProofLines.{NextNode, ReadsProof, TakesRoom};

use cli_base::input::InputFault;
use cli_base::lines::{LineReader, Next, NextFault};
use cry_base::List;
use cry_io::Source;
use script_text::read_node;
use std::alloc::Global;

/// Reads a whole input, a line `node HEX64` for each hash of a proof; an input without a line is the empty proof. Lines are judged as
/// they end: at their newline, at the end of the input, or at input byte 67,108,865. The first that is bad is the answer, also before
/// a later fault of the source.
pub(crate) fn read_proof<S: Source>(
    alloc: Global,
    input: &mut S,
) -> Result<List<[u8; 32]>, InputFault>
    ensures told { is_some (S.left input.new) ≡ is_some (S.left input.old) }
    ensures bytes { WhereBothTold (S.left input.old) (S.left input.new) (ReadsProof result) }
    ensures counts { InputFailsByCount result (S.faults input.old) (S.faults input.new) }
{
    let mut reader = LineReader::new(alloc);
    let mut proof = List::new(alloc);
    loop {
        let node = match next_node(alloc, &mut reader, input) {
            Ok(Some(node)) => node,
            Ok(None) => return Ok(proof),
            Err(fault) => return Err(fault),
        };
        let Ok(()) = proof.push(node) else {
            return Err(InputFault::OutOfMemory);
        };
    }
}

/// The next line's hash. Where there is no line more the input was read to its end.
fn next_node<S: Source>(
    alloc: Global,
    reader: &mut LineReader,
    input: &mut S,
) -> Result<Option<[u8; 32]>, InputFault>
    ensures told { is_some (S.left input.new) ≡ is_some (S.left input.old) }
    ensures next { WhereBothTold (S.left input.old) (S.left input.new) (NextNode result reader.old reader.new) }
    ensures room { TakesRoom result reader.old.room reader.new.room }
    ensures counts { InputFailsByCount result (S.faults input.old) (S.faults input.new) }
{
    let (line, bytes) = match reader.next_line(alloc, input) {
        Ok(Next::Line { number, bytes }) => (number, bytes),
        Ok(Next::End) => return Ok(None),
        Ok(Next::PastLimit { number }) => return Err(InputFault::BadLine { line: number }),
        Err(NextFault::Failed) => return Err(InputFault::Failed),
        Err(NextFault::OutOfMemory) => return Err(InputFault::OutOfMemory),
    };
    match read_node(bytes.as_slice()) {
        Ok(node) => Ok(Some(node)),
        Err(_) => Err(InputFault::BadLine { line }),
    }
}
