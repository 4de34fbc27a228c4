//! The stream of ChaCha20, laid over a text.
ghost use Rattle.std.specs.Prelude.{◌≡◌, ℕ, ◌+◌, ◌%◌, ◌<◌, ◌≤◌, List, length};
ghost use Rattle.chacha_seal.specs.Stream as spec;

use rand_chacha::ChaCha20Rng;
use rand_core::SeedableRng;
use rand_core::utils::NextWord;

/// Xors each byte of the text with the byte of the stream of `key` and `number` at its place.
pub(crate) fn xor_stream(key: [u8; 32], number: u64, text: &mut [u8])
    ensures { text.new ≡ spec.xor_stream key number text.old }
{
    let mut words = ChaCha20Rng::from_seed(key);
    choose(&mut words, number);
    let whole = text.len() / 4;
    for i in 0..whole {
        xor_word(words.next_word().to_le_bytes(), text, 4 * i);
    }
    if 4 * whole < text.len() {
        xor_rest(words.next_word().to_le_bytes(), text, 4 * whole);
    }
}

/// Turns a new generator to the stream of this number. It begins with that of number 0, and another one costs a generator more.
fn choose(words: &mut ChaCha20Rng, number: u64)
    requires new { words.old.stream ≡ 0 }
    ensures { words.new ≡ record words.old { stream = number } }
{
    if number != 0 {
        words.set_stream(number);
    }
}

/// Lays a word of the stream over the four bytes of the text from `at` on.
fn xor_word(word: [u8; 4], text: &mut [u8], at: usize)
    requires within { at + 4 ≤ length text.old }
    ensures { (key before : List ℕ) (number : ℕ) → at % 4 ≡ 0 → word ≡ spec.word_for key number at
        → text.old ≡ spec.laid key number at before → text.new ≡ spec.laid key number (at + 4) before }
{
    text[at] ^= word[0];
    text[at + 1] ^= word[1];
    text[at + 2] ^= word[2];
    text[at + 3] ^= word[3];
}

/// Lays the first bytes of a word over the last of the text, of which there are fewer than four.
fn xor_rest(word: [u8; 4], text: &mut [u8], at: usize)
    requires within { at ≤ length text.old }
    requires less_than_a_word { length text.old < at + 4 }
    ensures { (key before : List ℕ) (number : ℕ) → at % 4 ≡ 0 → word ≡ spec.word_for key number at
        → text.old ≡ spec.laid key number at before → text.new ≡ spec.laid key number (at + 4) before }
{
    for i in at..text.len() {
        text[i] ^= word[i - at];
    }
}
