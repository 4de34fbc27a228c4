//! A head among the words.
ghost use Rattle.std.specs.Prelude.{◌≡◌, ◌==◌, ◌<◌, length, position, IfSome};
ghost use Rattle.cli_words.specs.Words.{head_of};

use crate::numbers::batches_in;
use head_tree::Head;
use script_text::key_in;

/// The head that a word spells: `N:HEX64`, how many batches a log has, and the root over its leaves.
#[tactic(auto, unfolding(crate::specs::Words::head_of))]
pub(crate) fn head_in(word: &[u8]) -> Option<Head>
    ensures { result ≡ head_of word.now }
{
    let colon = first_colon(word)?;
    let batches = batches_in(&word[..colon])?;
    let root = key_in(&word[colon + 1..])?;
    Some(Head { batches, root })
}

fn first_colon(word: &[u8]) -> Option<usize>
    ensures place { result ≡ position (λ byte. byte == 58) word.now }
    ensures within { IfSome result (λ place. place < length word.now) }
{
    word.iter().position(|byte| *byte == b':')
}
