//! The reply of an upgrade, as it is printed.
ghost use Rattle.std.specs.Prelude.{◌≡◌, ◌<◌, ◌≤◌, IsTrue, is_some};
ghost use Rattle.cry_io.specs.Told.{WhereBothTold};
ghost use Rattle.cli_upgrading.specs.Upgrading.{PrintsReply, is_told};

use cli_base::outside::tell;
use cli_base::status::Status;
use cry_base::{List, Reply};
use cry_io::Sink;
use script_text::print_reply;
use std::alloc::Global;

/// Prints the reply in one piece.
pub(crate) fn tell_reply<W: Sink>(alloc: Global, reply: &Reply, out: &mut W) -> Status
    ensures answers { IsTrue (is_told result) }
    ensures printed { WhereBothTold (W.written out.old) (W.written out.new) (PrintsReply result reply.now) }
    ensures unprinted { result ≡ Status.OutOfMemory → out.new ≡ out.old }
    ensures write_fault { result ≡ Status.WriteFault → W.faults out.old < W.faults out.new }
    ensures out_told { is_some (W.written out.new) ≡ is_some (W.written out.old) }
    ensures out_counts { W.faults out.old ≤ W.faults out.new }
{
    let mut text = List::new(alloc);
    let Ok(()) = print_reply(reply, &mut text) else {
        return Status::OutOfMemory;
    };
    tell(text.as_slice(), out)
}
