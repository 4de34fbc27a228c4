//! The payload of a step: its keys given, and its records sealed under the present keys.
ghost use Rattle.std.specs.Prelude.{◌≡◌, ◌+◌, IsSome, List, length};
ghost use Rattle.chacha_seal.specs.Keys.{KeyParts};
ghost use Rattle.cry_base.specs.Store.{Store};
ghost use Rattle.cry_base.specs.declared.roles.Role.{Role as AnyRole};
ghost use Rattle.key_links.specs.Ringed.{key_of};
ghost use Rattle.record_format.specs.Noted.{Note as AnyNote};
ghost use Rattle.record_format.specs.Plain.{plain_payload};
ghost use Rattle.record_format.specs.Sizes.{payload_size};
ghost use Rattle.record_format.specs.Spellable.{IsNote, IsSpellable};
ghost use Rattle.record_format.specs.Told.{told_note};
ghost use Rattle.public_fold.specs.Heads.{IsSkeleton};
ghost use Rattle.public_fold.specs.Journal.{Stand, note_step};
ghost use Rattle.public_fold.specs.Lengths.{payload_len};
ghost use Rattle.journal_bytes.specs.Bytes.{step_payload};
ghost use Rattle.journal_bytes.specs.Sealing.{CanSeal, HoldsKeys, IsSealable, IsSpaceFor, IsTold, WillHave, keys_with, skeleton_size};

use crate::records::{give_keys, put_contents, put_links};
use crate::step_room::StepRoom;
use chacha_seal::Counter;
use cry_base::Text;
use key_links::KeyRing;
use public_fold::Skeleton;
use record_format::{Note, Payload};

/// The payload of a note with this skeleton. It gives each role of the skeleton a key of the bytes that were drawn for it, in
/// order, and then seals each link, and the text where there is a content: the one text of a step, a folder's name, a
/// file with its name, or a holder's key. Each key and each record takes the counter's next serial. Want of memory doesn't end it.
pub(crate) fn seal_step(
    ring: &mut KeyRing,
    counter: &mut Counter,
    note: Note,
    skeleton: &Skeleton,
    drawn: &[[u8; 32]],
    text: Text,
    room: StepRoom,
) -> Payload
    requires can_seal { CanSeal ring.old counter.old skeleton.now drawn.now text.items }
    requires room { IsSpaceFor room skeleton.now }
    ensures payload { (keys : List KeyParts) (at : Stand) (told : AnyNote) (after : Store) → HoldsKeys keys at.keys ring.old counter.old
        → IsTold (note_step at told after) skeleton.now text.items
        → plain_payload result ≡ step_payload (keys_with keys (note_step at told after) drawn.now) note (note_step at told after) }
    ensures keys { (keys : List KeyParts) (at : Stand) (told : AnyNote) (after : Store) → HoldsKeys keys at.keys ring.old counter.old
        → IsSealable (note_step at told after) → IsSkeleton (note_step at told after) skeleton.now
        → HoldsKeys (keys_with keys (note_step at told after) drawn.now) (note_step at told after).after ring.new counter.new }
    ensures has { (role : AnyRole) → WillHave ring.old skeleton.now.keys.items role → IsSome (key_of ring.new role) }
    ensures spellable { IsSpellable (plain_payload result) }
    ensures size { (at : Stand) (told : AnyNote) (after : Store) → IsTold (note_step at told after) skeleton.now text.items
        → payload_size (plain_payload result) ≡ payload_len (told_note note) (note_step at told after) }
    ensures skeleton_size { payload_size (plain_payload result) ≡ skeleton_size (told_note note) skeleton.now (length text.items) }
    ensures counter { counter.new ≡ record {
      epoch = counter.old.epoch;
      count = counter.old.count + length skeleton.now.keys.items + length skeleton.now.links.items + length skeleton.now.contents.items;
    } }
{
    let StepRoom {
        mut links,
        mut contents,
    } = room;
    note_is_spelled(note);
    let keys = skeleton.keys.as_slice();
    let edges = skeleton.links.as_slice();
    let heads = skeleton.contents.as_slice();
    give_keys(ring, counter, keys, drawn);
    put_links(ring, counter, edges, &mut links);
    put_contents(ring, counter, heads, text, &mut contents);
    Payload {
        note,
        links,
        contents,
    }
}

/// A law: each note has a spelling.
fn note_is_spelled(note: Note)
    ensures { IsNote note }
{}
