//! Lines that are read.
ghost use Rattle.std.specs.Prelude.{◌≡◌, ◌≢◌, ◌==◌, ◌<◌, length, IfOk, IfSome, ok_or, position};
ghost use Rattle.script_text.specs.Reading.{IsBundleLine, bundle_of, holder_of, key_of, number_of};

use crate::LineFault;
use cry_base::{Bundle, HolderId};
use hex::FromHex;
use std::str;

/// Reads one line, given without its newline, as a bundle: `owner HEX64` or `holder N HEX64`, with one space between
/// fields. HEX64 is 64 hexadecimal digits in either case, for 32 key bytes. N is a decimal number from 1 to
/// 4,294,967,295 without leading zeros. Any other line is `BadLine`. It takes no memory, so it never answers
/// `OutOfMemory`.
pub fn read_bundle(bytes: &[u8]) -> Result<Bundle, LineFault>
    ensures exactly { result ≡ ok_or (bundle_of bytes.now) LineFault.BadLine }
    ensures found { IfOk result (IsBundleLine bytes.now) }
    ensures only { (bundle : Bundle) → IsBundleLine bytes.now bundle → result ≡ Ok bundle }
    ensures takes_no_memory { result ≢ Err LineFault.OutOfMemory }
{
    bundle_in(bytes).ok_or(LineFault::BadLine)
}

#[tactic(auto, unfolding(crate::specs::Reading::bundle_of, crate::specs::Reading::behind))]
fn bundle_in(line: &[u8]) -> Option<Bundle>
    ensures { result ≡ bundle_of line.now }
{
    if let Some(digits) = line.strip_prefix(b"owner ") {
        let key = key_in(digits)?;
        Some(Bundle::Owner { key })
    } else {
        holder_in(line.strip_prefix(b"holder ")?)
    }
}

#[tactic(auto, unfolding(crate::specs::Reading::holder_of))]
fn holder_in(fields: &[u8]) -> Option<Bundle>
    ensures { result ≡ holder_of fields.now }
{
    let space = first_space(fields)?;
    let holder = HolderId(number_in(&fields[..space])?);
    let key = key_in(&fields[space + 1..])?;
    Some(Bundle::Holder { holder, key })
}

pub(crate) fn first_space(fields: &[u8]) -> Option<usize>
    ensures place { result ≡ position (λ byte. byte == 32) fields.now }
    ensures within { IfSome result (λ place. place < length fields.now) }
{
    fields.iter().position(|byte| *byte == b' ')
}

/// The 32 bytes that 64 hexadecimal digits in either case spell, and `None` where the field is anything else.
#[tactic(auto, unfolding(crate::specs::Reading::key_of))]
pub fn key_in(field: &[u8]) -> Option<[u8; 32]>
    ensures { result ≡ key_of field.now }
{
    <[u8; 32] as FromHex>::from_hex(field).ok()
}

pub(crate) fn number_in(field: &[u8]) -> Option<u32>
    ensures { result ≡ number_of field.now }
{
    // `parse` would take a sign and leading zeros too.
    let first = *field.first()?;
    if !first.is_ascii_digit() || first == b'0' {
        return None;
    }
    str::from_utf8(field).ok()?.parse().ok()
}
