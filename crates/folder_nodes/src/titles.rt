//! A name with the number that it belongs to.
ghost use Rattle.std.specs.Prelude.{◌≡◌};
ghost use Rattle.folder_nodes.specs.Digests.{name_digest};

use crate::grouped::Member;
use cry_base::Text;
use sorted_table::{Key, Ranked};
use std::cmp::Ordering;
use std::hash::{DefaultHasher, Hasher};

/// The name of a folder or file with its digest, and a file's bytes.
#[derive(Drop)]
pub(crate) struct NameRow {
    pub(crate) id: u32,
    pub(crate) digest: u32,
    pub(crate) name: Text,
    pub(crate) bytes: Text,
}

impl Ranked for NameRow {
    ghost rank = { λ row. row.id };

    fn compare(&self, other: &Self) -> Ordering {
        self.id.cmp(&other.id)
    }
}

impl Member for NameRow {
    ghost group = { λ row. row.digest };

    fn number(&self) -> u32 {
        self.id
    }

    fn group_number(&self) -> u32 {
        self.digest
    }
}

/// The number of the folder or file whose name is looked up.
#[derive(Drop)]
pub(crate) struct NameKey(pub(crate) u32);

impl Key<NameRow> for NameKey {
    ghost sought = { λ key. key.0 };

    fn compare_row(&self, row: &NameRow) -> Ordering {
        row.id.cmp(&self.0)
    }

    fn guess(&self) -> usize {
        (self.0 as usize).saturating_sub(1)
    }
}

/// The lower half of the name's SipHash-1-3, which spreads names over all numbers unless they are sought out to meet.
#[tactic(auto, unfolding(crate::specs::Digests::name_digest))]
pub(crate) fn digest_of(name: &[u8]) -> u32
    ensures { result ≡ name_digest name.now }
{
    let mut hasher = DefaultHasher::new();
    hasher.write(name);
    (hasher.finish() % (1 << 32)) as u32
}
