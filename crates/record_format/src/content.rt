//! A sealed name, file or holder's key, 58 bytes and its text, numbers big-endian (docs/FORMAT.md, "Records"):
//!
//! ```text
//!  0   1  0x02                    14     8  nonce
//!  1   1  kind, 1 to 3            22     4  length n of the text
//!  2   4  object id               26     n  cipher bytes
//!  6   8  serial of the key       26+n  32  tag
//! ```
ghost use Rattle.std.specs.Prelude.{◌≡◌, ◌<◌, ◌^◌, length};
ghost use Rattle.record_format.specs.Plain.{plain_content};
ghost use Rattle.record_format.specs.Spellable.{shortest_text, longest_text};
ghost use Rattle.record_format.specs.Spelling.{content_head};

use cry_base::{FILE_BYTES, NAME_BYTES, Serial, Text};

/// The kind of a content that is a folder's name.
pub const FOLDER_NAME: u8 = 1;

/// The kind of a content that is a file's name and bytes.
pub const FILE_TEXT: u8 = 2;

/// The kind of a content that is a holder's key.
pub const HOLDER_KEY: u8 = 3;

/// The bytes that a content has beside its text.
pub const CONTENT_FRAME_LEN: u64 = 58;

/// A text, sealed under the key of a role.
#[derive(Debug, Drop, PartialEq, Eq)]
pub struct ContentRecord {
    /// 1 a folder's name, 2 a file's name and bytes, 3 a holder's key.
    pub kind: u8,
    /// The id of the folder, file or holder.
    pub object: u32,
    /// The serial of the sealing key.
    pub key_serial: Serial,
    /// The number of the stream that the text is sealed with.
    pub nonce: u64,
    /// The sealed text: of kind 1 at most 64 bytes, of kind 2 from 2 to 1,048,641, of kind 3 just 32.
    pub cipher: Text,
    /// The tag over header and cipher bytes.
    pub tag: [u8; 32],
}

/// The record's bytes before its cipher bytes, which the tag covers too.
#[tactic(auto, unfolding(crate::specs::Spelling::be32, crate::specs::Spelling::be64, crate::specs::Spelling::content_head))]
pub fn content_header(content: &ContentRecord) -> [u8; 26]
    requires { length content.now.cipher.items < 2 ^ 32 }
    ensures { result ≡ content_head (plain_content content.now) }
{
    let mut header = [0; 26];
    header[0] = 2;
    header[1] = content.kind;
    header[2..6].copy_from_slice(&content.object.to_be_bytes());
    header[6..14].copy_from_slice(&content.key_serial.0.to_be_bytes());
    header[14..22].copy_from_slice(&content.nonce.to_be_bytes());
    header[22..].copy_from_slice(&(content.cipher.as_slice().len() as u32).to_be_bytes());
    header
}

/// The fewest and the most bytes that the text of a content of this kind has.
pub fn text_range(kind: u8) -> (u32, u32)
    ensures shortest { result.0 ≡ shortest_text kind }
    ensures longest { result.1 ≡ longest_text kind }
{
    match kind {
        FILE_TEXT => (2, 1 + NAME_BYTES as u32 + FILE_BYTES),
        HOLDER_KEY => (32, 32),
        _ => (0, NAME_BYTES as u32),
    }
}
