//! How many bytes the payload of a command has, told before its key is drawn.
ghost use Rattle.std.specs.Prelude.{◌≡◌, ◌+◌, ◌<◌, ◌≤◌, ◌^◌, ◌++◌, length, replicate, SomeIff};
ghost use Rattle.cry_base.specs.Requests.{Request};
ghost use Rattle.cry_base.specs.Store.{Store};
ghost use Rattle.folder_nodes.specs.Targets.{IsTargetOf};
ghost use Rattle.record_format.specs.Told.{told_note};
ghost use Rattle.public_fold.specs.Lengths.{note_len as the_note_len};
ghost use Rattle.journal_bytes.specs.Sealing.{skeleton_size};
ghost use Rattle.journal_bytes.specs.Texting.{due_key};
ghost use Rattle.command_plan.specs.Targeted.{key_to};

use crate::texts::KEY_LEN;
use cry_base::Text;
use folder_nodes::Target;
use public_fold::Skeleton;
use record_format::Note;

/// How many bytes the text of a command with this target will have once a new holder's key stands in it.
pub fn sealed_len(target: &Target<'_>, text: &Text) -> u64
    ensures length { (s : Store) (r : Request) → IsTargetOf s r target.now
        → result ≡ length (text.now.items ++ due_key r (replicate 32 0)) }
    ensures short { result < 2 ^ 63 + 32 }
{
    text.as_slice().len() as u64 + key_len(target)
}

fn key_len(target: &Target<'_>) -> u64
    ensures length { result ≡ length (key_to target.now (replicate 32 0)) }
    ensures short { result ≤ 32 }
{
    match target {
        Target::AddHolder => KEY_LEN as u64,
        Target::MakeFolder { .. }
        | Target::WriteFile { .. }
        | Target::Remove { .. }
        | Target::Rename { .. }
        | Target::Relocate { .. }
        | Target::Grant { .. }
        | Target::Revoke { .. } => 0,
    }
}

/// How many bytes a payload with this note and skeleton has, whose one content has a text of so many; `None` where that is no
/// number of 64 bits.
pub fn size_of(note: &Note, skeleton: &Skeleton, text: u64) -> Option<u64>
    requires { text < 2 ^ 63 + 32 }
    ensures { SomeIff result (skeleton_size (told_note note.now) skeleton.now text < 2 ^ 64)
        (skeleton_size (told_note note.now) skeleton.now text) }
{
    let links = skeleton.links.as_slice().len() as u64;
    let contents = skeleton.contents.as_slice().len() as u64;
    let links = links.checked_mul(98)?;
    let contents = contents.checked_mul(58 + text)?;
    links.checked_add(contents)?.checked_add(note_len(note) + 8)
}

/// How many bytes a note has.
#[tactic(auto, unfolding(record_format::specs::Told::told_note, public_fold::specs::Lengths::note_len))]
fn note_len(note: &Note) -> u64
    ensures length { result ≡ the_note_len (told_note note.now) }
    ensures short { result < 38 }
{
    match note {
        Note::Root | Note::StrictRoot | Note::Upgrade => 1,
        Note::NewHolder { .. } => 37,
        Note::Rewrite { .. }
        | Note::NameFile { .. }
        | Note::NameFolder { .. }
        | Note::DropFile { .. }
        | Note::DropFolder { .. } => 5,
        Note::NewFolder { .. }
        | Note::NewFile { .. }
        | Note::ShiftFile { .. }
        | Note::ShiftFolder { .. }
        | Note::Give { .. }
        | Note::Take { .. } => 9,
    }
}
