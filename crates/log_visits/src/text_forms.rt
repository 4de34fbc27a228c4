//! The forms of opened texts: a folder's name, and a file's name with its bytes (docs/FORMAT.md, "Records").
ghost use Rattle.std.specs.Prelude.{◌≡◌, IfOk, MatchOption, false};
ghost use Rattle.log_visits.specs.Holding.{HasParts};
ghost use Rattle.log_visits.specs.Visiting as spec;

use cry_base::{FILE_BYTES, FolderId, Mem, ROOT, Text};
use folder_nodes::name_ok;
use std::alloc::Global;

/// Whether a folder may have the text for its name: the root the empty one alone, and another a name.
#[tactic(auto, unfolding(crate::specs::Visiting::is_folder_text))]
pub fn is_folder_text(folder: FolderId, text: &[u8]) -> bool
    ensures { result ≡ spec.is_folder_text folder.0 text.now }
{
    if folder.0 == ROOT.0 {
        text.is_empty()
    } else {
        name_ok(text)
    }
}

/// The name and the bytes of a file, where the text has that form: a byte with the name's length, the name, the bytes.
#[tactic(auto, unfolding(crate::specs::Visiting::is_file_text))]
pub fn file_parts(text: &[u8]) -> Option<(&[u8], &[u8])>
    ensures { MatchOption result (spec.is_file_text text.now ≡ false) (λ parts. HasParts text.now parts.0.now parts.1.now) }
{
    let (size, rest) = text.split_first()?;
    let size = *size as usize;
    if size > rest.len() || rest.len() - size > FILE_BYTES as usize || !name_ok(&rest[..size]) {
        return None;
    }
    Some((&rest[..size], &rest[size..]))
}

/// A copy of the bytes, as a text of its own.
pub fn text_of(alloc: Global, bytes: &[u8]) -> Mem<Text>
    ensures { IfOk result (λ text. text.items ≡ bytes.now) }
{
    let mut text = Text::new(alloc);
    text.append(bytes)?;
    Ok(text)
}
