//! A key sealed under another, 98 bytes, numbers big-endian (docs/FORMAT.md, "Records"):
//!
//! ```text
//!  0   1  0x01                18   8  to serial
//!  1   1  kind, 1 to 11       26   8  nonce
//!  2   4  from id             34  32  cipher bytes
//!  6   4  to id               66  32  tag
//! 10   8  from serial
//! ```
ghost use Rattle.std.specs.Prelude.{◌≡◌};
ghost use Rattle.record_format.specs.Spelling.{link_head};

use cry_base::Serial;

/// The bytes of a link.
pub const LINK_LEN: u64 = 98;

/// The key of one role, sealed under the key of another.
#[derive(Clone, Copy, Debug, PartialEq, Eq)]
pub struct LinkRecord {
    /// The kind of edge, 1 to 11.
    pub kind: u8,
    /// The id of the source's folder or holder, or the clearance number of its file; 0 for the owner.
    pub from_id: u32,
    /// The id of the target's folder or file, or the clearance number of its file.
    pub to_id: u32,
    /// The serial of the sealing key.
    pub from_serial: Serial,
    /// The serial of the sealed key.
    pub to_serial: Serial,
    /// The number of the stream that the key is sealed with.
    pub nonce: u64,
    /// The sealed key.
    pub cipher: [u8; 32],
    /// The tag over header and cipher bytes.
    pub tag: [u8; 32],
}

/// The record's bytes before its cipher bytes, which the tag covers too.
#[tactic(auto, unfolding(crate::specs::Spelling::be32, crate::specs::Spelling::be64, crate::specs::Spelling::link_head))]
pub fn link_header(link: &LinkRecord) -> [u8; 34]
    ensures { result ≡ link_head link.now }
{
    let mut header = [0; 34];
    header[0] = 1;
    header[1] = link.kind;
    header[2..6].copy_from_slice(&link.from_id.to_be_bytes());
    header[6..10].copy_from_slice(&link.to_id.to_be_bytes());
    header[10..18].copy_from_slice(&link.from_serial.0.to_be_bytes());
    header[18..26].copy_from_slice(&link.to_serial.0.to_be_bytes());
    header[26..].copy_from_slice(&link.nonce.to_be_bytes());
    header
}
