//! Readers of single fields. Each gives the value and the bytes after it.
ghost use Rattle.std.specs.Prelude.{◌≡◌, length, IfOk};
ghost use Rattle.std.specs.Int.{w32, w64};
ghost use Rattle.record_format.specs.Fields.{byte_between, bytes_at, number_at, number_between};
ghost use Rattle.record_format.specs.Reading.{Gives};

use crate::fault::Stop;

/// A byte from low to high.
#[tactic(auto, unfolding(crate::specs::Fields::byte_between))]
pub fn byte_of(low: u8, high: u8, bytes: &[u8]) -> Result<(u8, &[u8]), Stop>
    ensures { Gives (λ x. (x.0, x.1.now)) result (byte_between low high bytes.now) }
{
    match bytes {
        [byte, rest @ ..] if low <= *byte && *byte <= high => Ok((*byte, rest)),
        _ => Err(Stop::Bad { left: bytes.len() }),
    }
}

/// So many bytes.
#[tactic(auto, unfolding(crate::specs::Fields::bytes_at))]
pub fn bytes_of(len: usize, bytes: &[u8]) -> Result<(&[u8], &[u8]), Stop>
    ensures value { Gives (λ x. (x.0.now, x.1.now)) result (bytes_at len bytes.now) }
    ensures len { IfOk result (λ x. length x.0.now ≡ len) }
{
    if bytes.len() < len {
        return Err(Stop::Bad { left: bytes.len() });
    }
    Ok(bytes.split_at(len))
}

/// A field of 32 bytes: a check, a sealed key or a tag.
pub fn array_of(bytes: &[u8]) -> Result<([u8; 32], &[u8]), Stop>
    ensures { Gives (λ x. (x.0, x.1.now)) result (bytes_at 32 bytes.now) }
{
    let (field, rest) = bytes_of(32, bytes)?;
    let mut array = [0; 32];
    array.copy_from_slice(field);
    Ok((array, rest))
}

/// A number of four bytes, the highest first.
#[tactic(auto, unfolding(crate::specs::Fields::and_then, crate::specs::Fields::number_at))]
pub fn u32_of(bytes: &[u8]) -> Result<(u32, &[u8]), Stop>
    ensures { Gives (λ x. (x.0, x.1.now)) result (number_at w32 bytes.now) }
{
    let (field, rest) = bytes_of(4, bytes)?;
    let number = u32::from_be_bytes([field[0], field[1], field[2], field[3]]);
    Ok((number, rest))
}

/// A number of eight bytes, the highest first.
#[tactic(auto, unfolding(crate::specs::Fields::and_then, crate::specs::Fields::number_at))]
pub fn u64_of(bytes: &[u8]) -> Result<(u64, &[u8]), Stop>
    ensures { Gives (λ x. (x.0, x.1.now)) result (number_at w64 bytes.now) }
{
    let (field, rest) = bytes_of(8, bytes)?;
    let number = u64::from_be_bytes([
        field[0], field[1], field[2], field[3], field[4], field[5], field[6], field[7],
    ]);
    Ok((number, rest))
}

/// A number of four bytes from low to high.
#[tactic(auto, unfolding(crate::specs::Fields::and_then, crate::specs::Fields::number_between))]
pub fn u32_between(low: u32, high: u32, bytes: &[u8]) -> Result<(u32, &[u8]), Stop>
    ensures { Gives (λ x. (x.0, x.1.now)) result (number_between w32 low high bytes.now) }
{
    let (number, rest) = u32_of(bytes)?;
    if number < low || high < number {
        return Err(Stop::Bad { left: bytes.len() });
    }
    Ok((number, rest))
}
