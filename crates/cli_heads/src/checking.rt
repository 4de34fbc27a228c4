//! The command that tests a proof between two heads: the input is read to its end, and then one word is printed.
ghost use Rattle.std.specs.Prelude.{◌≡◌, ◌<◌, ◌≤◌, IsTrue, is_some};
ghost use Rattle.cry_io.specs.Told.{WhereTold, WhereBothTold};
ghost use Rattle.cli_base.specs.Answering.{AnswersAs};
ghost use Rattle.cli_base.specs.Status.{is_before_print};
ghost use Rattle.cli_heads.specs.Checking.{CheckGives, TakesProof};
ghost use Rattle.cli_heads.specs.Statuses.{is_check_answer};

use crate::proof_lines::read_proof;
use cli_base::input::input_status;
use cli_base::outside::tell;
use cli_base::status::Status;
use cry_io::{Sink, Source};
use head_tree::{BadProof, Head, check_proof};
use std::alloc::Global;

/// Prints `prefix` where the input's lines are a proof that the log of `old` begins the log of `new` (docs/FORMAT.md, "Heads"), and
/// answers `BadProof` where they are none.
pub fn check<S: Source, W: Sink>(
    alloc: Global,
    old: &Head,
    new: &Head,
    input: &mut S,
    out: &mut W,
) -> Status
    ensures answers { IsTrue (is_check_answer result) }
    ensures answered { WhereTold (S.left input.old) (λ typed. AnswersAs result (CheckGives old.now new.now typed)
        (W.written out.old) (W.written out.new)) }
    ensures takes { WhereBothTold (S.left input.old) (S.left input.new) (TakesProof result) }
    ensures read_fault { result ≡ Status.ReadFault → S.faults input.old < S.faults input.new }
    ensures write_fault { result ≡ Status.WriteFault → W.faults out.old < W.faults out.new }
    ensures out_kept { IsTrue (is_before_print result) → out.new ≡ out.old }
    ensures input_told { is_some (S.left input.new) ≡ is_some (S.left input.old) }
    ensures out_told { is_some (W.written out.new) ≡ is_some (W.written out.old) }
    ensures input_counts { S.faults input.old ≤ S.faults input.new }
    ensures out_counts { W.faults out.old ≤ W.faults out.new }
{
    let proof = match read_proof(alloc, input) {
        Ok(proof) => proof,
        Err(fault) => return input_status(fault),
    };
    match check_proof(old, new, proof.as_slice()) {
        Ok(()) => tell(b"prefix\n", out),
        Err(BadProof) => Status::BadProof,
    }
}
