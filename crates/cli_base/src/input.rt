//! A reader's input: one line, its bundle's; and how the program ends where an input fails.
ghost use Rattle.std.specs.Prelude.{◌≡◌, [], List, ℕ, is_some};
ghost use Rattle.cry_base.specs.declared.client.Bundle.{Bundle};
ghost use Rattle.cry_io.specs.Told.{WhereBothTold};
ghost use Rattle.cli_base.specs.Input as spec;
ghost use Rattle.cli_base.specs.Input.{BeginsInput, EndsInput, InputFailsByCount, IsBehindBundle, ReadsInput, ReadsOwner};
ghost use Rattle.cli_base.specs.Lines.{input_limit};

use crate::lines::{LineReader, Next, NextFault};
use crate::status::Status;
use cry_base::Bundle;
use cry_io::Source;
use script_text::read_bundle;
use std::alloc::Global;

/// Why an input didn't give what it is read for.
#[derive(Clone, Copy, Debug, PartialEq, Eq)]
pub enum InputFault {
    /// The line with this number, counted from 1, is bad.
    BadLine { line: u64 },
    /// The source failed.
    Failed,
    /// There was no memory for a line.
    OutOfMemory,
}

/// How the program ends where an input fails.
pub fn input_status(fault: InputFault) -> Status
    ensures { result ≡ spec.input_status fault }
{
    match fault {
        InputFault::BadLine { line } => Status::BadScript { line },
        InputFault::Failed => Status::ReadFault,
        InputFault::OutOfMemory => Status::OutOfMemory,
    }
}

/// Reads a whole input, which is one line of a bundle, ended by a newline or by the end. Lines are judged as they end: at
/// their newline, at the end of the input, or at input byte 67,108,865. The first that is bad is the answer, also before
/// a later fault of the source; a second line is bad whatever it holds, and so is an empty input's first.
pub fn read_bundle_line<S: Source>(alloc: Global, input: &mut S) -> Result<Bundle, InputFault>
    ensures told { is_some (S.left input.new) ≡ is_some (S.left input.old) }
    ensures bytes { WhereBothTold (S.left input.old) (S.left input.new) (ReadsInput result) }
    ensures counts { InputFailsByCount result (S.faults input.old) (S.faults input.new) }
{
    let mut reader = LineReader::new(alloc);
    let bundle = match first_bundle(alloc, &mut reader, input) {
        Ok(bundle) => bundle,
        Err(fault) => return Err(fault),
    };
    match end_of_input(alloc, &mut reader, input) {
        Ok(()) => Ok(bundle),
        Err(fault) => Err(fault),
    }
}

/// Reads a whole input, which is the one line of an owner: so it is read as that of any bundle, and a holder's line is bad too.
pub fn read_owner_line<S: Source>(alloc: Global, input: &mut S) -> Result<[u8; 32], InputFault>
    ensures told { is_some (S.left input.new) ≡ is_some (S.left input.old) }
    ensures bytes { WhereBothTold (S.left input.old) (S.left input.new) (ReadsOwner result) }
    ensures counts { InputFailsByCount result (S.faults input.old) (S.faults input.new) }
{
    let mut reader = LineReader::new(alloc);
    let key = match first_bundle(alloc, &mut reader, input) {
        Ok(Bundle::Owner { key }) => key,
        Ok(Bundle::Holder { .. }) => return Err(InputFault::BadLine { line: 1 }),
        Err(fault) => return Err(fault),
    };
    match end_of_input(alloc, &mut reader, input) {
        Ok(()) => Ok(key),
        Err(fault) => Err(fault),
    }
}

/// The bundle of the first line.
fn first_bundle<S: Source>(
    alloc: Global,
    reader: &mut LineReader,
    input: &mut S,
) -> Result<Bundle, InputFault>
    requires first { reader.old ≡ record { line = []; piece = []; room = input_limit; given = 0 } }
    ensures told { is_some (S.left input.new) ≡ is_some (S.left input.old) }
    ensures begins { WhereBothTold (S.left input.old) (S.left input.new) (λ typed left. BeginsInput result typed reader.new left) }
    ensures counts { InputFailsByCount result (S.faults input.old) (S.faults input.new) }
{
    match reader.next_line(alloc, input) {
        Ok(Next::Line { bytes, .. }) => match read_bundle(bytes.as_slice()) {
            Ok(bundle) => Ok(bundle),
            Err(_) => Err(InputFault::BadLine { line: 1 }),
        },
        Ok(Next::End) => Err(InputFault::BadLine { line: 1 }),
        Ok(Next::PastLimit { .. }) => Err(InputFault::BadLine { line: 1 }),
        Err(NextFault::Failed) => Err(InputFault::Failed),
        Err(NextFault::OutOfMemory) => Err(InputFault::OutOfMemory),
    }
}

/// Reads on to the end, where no line comes.
fn end_of_input<S: Source>(
    alloc: Global,
    reader: &mut LineReader,
    input: &mut S,
) -> Result<(), InputFault>
    ensures told { is_some (S.left input.new) ≡ is_some (S.left input.old) }
    ensures ends { WhereBothTold (S.left input.old) (S.left input.new) (λ before left. (bundle : Bundle) (typed : List ℕ) →
        IsBehindBundle bundle typed reader.old before → EndsInput result bundle typed left) }
    ensures counts { InputFailsByCount result (S.faults input.old) (S.faults input.new) }
{
    match reader.next_line(alloc, input) {
        Ok(Next::End) => Ok(()),
        Ok(Next::Line { .. }) => Err(InputFault::BadLine { line: 2 }),
        Ok(Next::PastLimit { .. }) => Err(InputFault::BadLine { line: 2 }),
        Err(NextFault::Failed) => Err(InputFault::Failed),
        Err(NextFault::OutOfMemory) => Err(InputFault::OutOfMemory),
    }
}
