//! Numbers among the words.
ghost use Rattle.std.specs.Prelude.{◌≡◌};
ghost use Rattle.cli_words.specs.Words.{batches_of, number_of};

use std::str;

/// The number that a word spells in decimal digits, without a sign or leading zeros, below 2^64.
pub(crate) fn number_in(word: &[u8]) -> Option<u64>
    ensures { result ≡ number_of word.now }
{
    // `parse` would take a sign, and leading zeros.
    let first = *word.first()?;
    if !first.is_ascii_digit() {
        return None;
    }
    if first == b'0' && word.len() > 1 {
        return None;
    }
    str::from_utf8(word).ok()?.parse().ok()
}

/// A number of batches, which is less than the most that 32 bits hold, since a head's leaves are one more.
#[tactic(auto, unfolding(crate::specs::Words::batches_of))]
pub(crate) fn batches_in(word: &[u8]) -> Option<u32>
    ensures { result ≡ batches_of word.now }
{
    let number = number_in(word)?;
    if number < u64::from(u32::MAX) {
        Some(number as u32)
    } else {
        None
    }
}
