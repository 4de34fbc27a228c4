//! Command lines that are read.
ghost use Rattle.std.specs.Prelude.{◌≡◌, ◌%◌, ◌↔◌, ℕ, List, None, Some, length, IfOk, IfErr, IsSome, IsTrue};
ghost use Rattle.std.specs.List.{AllPass, list_all};
ghost use Rattle.hex.specs.Hex.{is_hex_digit};
ghost use Rattle.cry_base.specs.Requests.{Request, request_of};
ghost use Rattle.cry_base.specs.Requests.Request.{AddHolder, MakeFolder, Remove, Rename, Relocate, Grant, Revoke};
ghost use Rattle.script_text.specs.Commands.{IsCommandLine, Reads, bytes_of, field_of, field_request, file_request, grant_request};
ghost use Rattle.script_text.specs.Commands.{is_field, is_field_byte, request_in, two_field_request, write_request};

use crate::LineFault;
use crate::reading::{first_space, number_in};
use cry_base::{Command, HolderId, Text};
use hex::decode;
use std::alloc::Global;

/// Reads one line, given without its newline, as a command: `holder`, `mkdir FIELD`, `write FIELD HEX`, `rm FIELD`,
/// `rename FIELD FIELD`, `move FIELD FIELD`, `grant N FIELD` or `revoke N FIELD`, with one space between fields. A field
/// is one or more bytes other than space and newline. HEX is two hexadecimal digits for each byte, in either case; it may
/// be empty, and then the space before it may be missing. N is a decimal number from 1 to 4,294,967,295 without leading
/// zeros. Any other line is `BadLine`, and asks for no memory: `OutOfMemory` is answered to a command's line alone.
pub fn read_line(alloc: Global, bytes: &[u8]) -> Result<Command, LineFault>
    ensures reads { Reads result (request_in bytes.now) }
    ensures found { IfOk result (λ command. IsCommandLine bytes.now (request_of command)) }
    ensures bad_line { (result ≡ Err LineFault.BadLine) ↔ ((request : Request) → ¬ IsCommandLine bytes.now request) }
    ensures no_memory { result ≡ Err LineFault.OutOfMemory → (request : Request) × IsCommandLine bytes.now request }
    ensures holder { IsCommandLine bytes.now AddHolder → result ≡ Ok Command.AddHolder }
{
    command_in(alloc, bytes)
}

#[tactic(auto, unfolding(crate::specs::Commands::request_in, crate::specs::Reading::behind))]
fn command_in(alloc: Global, bytes: &[u8]) -> Result<Command, LineFault>
    ensures reads { Reads result (request_in bytes.now) }
    ensures holder { IsCommandLine bytes.now AddHolder → result ≡ Ok Command.AddHolder }
{
    if bytes == b"holder".as_slice() {
        Ok(Command::AddHolder)
    } else if let Some(fields) = bytes.strip_prefix(b"mkdir ") {
        make_folder_in(alloc, fields)
    } else if let Some(fields) = bytes.strip_prefix(b"write ") {
        write_file_in(alloc, fields)
    } else if let Some(fields) = bytes.strip_prefix(b"rm ") {
        remove_in(alloc, fields)
    } else if let Some(fields) = bytes.strip_prefix(b"rename ") {
        rename_in(alloc, fields)
    } else if let Some(fields) = bytes.strip_prefix(b"move ") {
        relocate_in(alloc, fields)
    } else if let Some(fields) = bytes.strip_prefix(b"grant ") {
        grant_in(alloc, fields)
    } else if let Some(fields) = bytes.strip_prefix(b"revoke ") {
        revoke_in(alloc, fields)
    } else {
        Err(LineFault::BadLine)
    }
}

/// Whether it is one or more bytes other than space and newline.
#[tactic(auto, unfolding(crate::specs::Commands::is_field))]
fn is_field(field: &[u8]) -> bool
    ensures { result ≡ is_field field.now }
{
    !field.is_empty() && are_field_bytes(field)
}

fn are_field_bytes(bytes: &[u8]) -> bool
    ensures { result ≡ list_all is_field_byte bytes.now }
{
    bytes.iter().all(|byte| is_field_byte(*byte))
}

fn is_field_byte(byte: u8) -> bool
    ensures { result ≡ is_field_byte byte }
{
    byte != b' ' && byte != b'\n'
}

/// Whether these are an even number of hexadecimal digits.
fn is_hex(digits: &[u8]) -> bool
    ensures { IsTrue result ↔ ((length digits.now % 2 ≡ 0) × AllPass is_hex_digit digits.now) }
{
    digits.len() % 2 == 0 && digits.iter().all(|digit| digit.is_ascii_hexdigit())
}

/// The field, where it is one.
#[tactic(auto, unfolding(crate::specs::Commands::field_of))]
fn field_in(field: &[u8]) -> Result<&[u8], LineFault>
    ensures found { IfOk result (λ path. field_of field.now ≡ Some path.now) }
    ensures bad_line { IfErr result (λ fault. (fault ≡ LineFault.BadLine) × (field_of field.now ≡ None)) }
{
    if is_field(field) {
        Ok(field)
    } else {
        Err(LineFault::BadLine)
    }
}

/// The fields before and behind the first space.
#[tactic(auto, unfolding(crate::specs::Commands::two_field_request))]
fn two_fields_in(fields: &[u8]) -> Result<(&[u8], &[u8]), LineFault>
    ensures found { IfOk result (λ two. (ask : List ℕ → List ℕ → Request)
        → two_field_request ask fields.now ≡ Some (ask two.0.now two.1.now)) }
    ensures bad_line { IfErr result (λ fault. (fault ≡ LineFault.BadLine)
        × ((ask : List ℕ → List ℕ → Request) → two_field_request ask fields.now ≡ None)) }
{
    let Some(space) = first_space(fields) else {
        return Err(LineFault::BadLine);
    };
    let first = field_in(&fields[..space])?;
    let second = field_in(&fields[space + 1..])?;
    Ok((first, second))
}

/// A holder's number, and the field behind it.
#[tactic(auto, unfolding(crate::specs::Commands::grant_request))]
fn holder_and_field_in(fields: &[u8]) -> Result<(HolderId, &[u8]), LineFault>
    ensures found { IfOk result (λ two. (ask : ℕ → List ℕ → Request) → grant_request ask fields.now ≡ Some (ask two.0.0 two.1.now)) }
    ensures bad_line { IfErr result (λ fault. (fault ≡ LineFault.BadLine)
        × ((ask : ℕ → List ℕ → Request) → grant_request ask fields.now ≡ None)) }
{
    let Some(space) = first_space(fields) else {
        return Err(LineFault::BadLine);
    };
    let Some(number) = number_in(&fields[..space]) else {
        return Err(LineFault::BadLine);
    };
    let path = field_in(&fields[space + 1..])?;
    Ok((HolderId(number), path))
}

/// A text of these bytes.
fn text_of(alloc: Global, bytes: &[u8]) -> Result<Text, LineFault>
    ensures text { IfOk result (λ text. text.items ≡ bytes.now) }
    ensures err { IfErr result (λ fault. fault ≡ LineFault.OutOfMemory) }
{
    let mut text = Text::new(alloc);
    text.append(bytes)?;
    Ok(text)
}

/// The bytes that the digits spell. No memory is asked for before they are known to be digits.
#[tactic(auto, unfolding(crate::specs::Commands::bytes_of))]
fn bytes_in(alloc: Global, digits: &[u8]) -> Result<Text, LineFault>
    ensures text { IfOk result (λ text. bytes_of digits.now ≡ Some text.items) }
    ensures bad_line { result ≡ Err LineFault.BadLine → bytes_of digits.now ≡ None }
    ensures no_memory { result ≡ Err LineFault.OutOfMemory → IsSome (bytes_of digits.now) }
{
    if !is_hex(digits) {
        return Err(LineFault::BadLine);
    }
    let Ok(bytes) = decode(alloc, digits) else {
        return Err(LineFault::OutOfMemory);
    };
    text_of(alloc, bytes.as_slice())
}

/// `mkdir FIELD`, without its word.
#[tactic(auto, unfolding(crate::specs::Commands::field_request))]
fn make_folder_in(alloc: Global, fields: &[u8]) -> Result<Command, LineFault>
    ensures { Reads result (field_request MakeFolder fields.now) }
{
    let path = field_in(fields)?;
    let path = text_of(alloc, path)?;
    Ok(Command::MakeFolder { path })
}

/// `rm FIELD`, without its word.
#[tactic(auto, unfolding(crate::specs::Commands::field_request))]
fn remove_in(alloc: Global, fields: &[u8]) -> Result<Command, LineFault>
    ensures { Reads result (field_request Remove fields.now) }
{
    let path = field_in(fields)?;
    let path = text_of(alloc, path)?;
    Ok(Command::Remove { path })
}

/// `write FIELD HEX`, without its word.
#[tactic(auto, unfolding(crate::specs::Commands::write_request))]
fn write_file_in(alloc: Global, fields: &[u8]) -> Result<Command, LineFault>
    ensures { Reads result (write_request fields.now) }
{
    match first_space(fields) {
        Some(space) => file_in(alloc, &fields[..space], &fields[space + 1..]),
        None => file_in(alloc, fields, &[]),
    }
}

#[tactic(auto, unfolding(crate::specs::Commands::file_request))]
fn file_in(alloc: Global, path: &[u8], digits: &[u8]) -> Result<Command, LineFault>
    ensures { Reads result (file_request path.now digits.now) }
{
    let path = field_in(path)?;
    let bytes = bytes_in(alloc, digits)?;
    let path = text_of(alloc, path)?;
    Ok(Command::WriteFile { path, bytes })
}

/// `rename FIELD FIELD`, without its word.
fn rename_in(alloc: Global, fields: &[u8]) -> Result<Command, LineFault>
    ensures { Reads result (two_field_request Rename fields.now) }
{
    let (path, name) = two_fields_in(fields)?;
    let path = text_of(alloc, path)?;
    let name = text_of(alloc, name)?;
    Ok(Command::Rename { path, name })
}

/// `move FIELD FIELD`, without its word.
fn relocate_in(alloc: Global, fields: &[u8]) -> Result<Command, LineFault>
    ensures { Reads result (two_field_request Relocate fields.now) }
{
    let (path, into) = two_fields_in(fields)?;
    let path = text_of(alloc, path)?;
    let into = text_of(alloc, into)?;
    Ok(Command::Relocate { path, into })
}

/// `grant N FIELD`, without its word.
fn grant_in(alloc: Global, fields: &[u8]) -> Result<Command, LineFault>
    ensures { Reads result (grant_request Grant fields.now) }
{
    let (holder, path) = holder_and_field_in(fields)?;
    let path = text_of(alloc, path)?;
    Ok(Command::Grant { holder, path })
}

/// `revoke N FIELD`, without its word.
fn revoke_in(alloc: Global, fields: &[u8]) -> Result<Command, LineFault>
    ensures { Reads result (grant_request Revoke fields.now) }
{
    let (holder, path) = holder_and_field_in(fields)?;
    let path = text_of(alloc, path)?;
    Ok(Command::Revoke { holder, path })
}
