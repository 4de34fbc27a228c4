//! What a command seals and changes, with its memory.
ghost use Rattle.std.specs.Prelude.{◌≡◌, ◌≤◌, true, length};
ghost use Rattle.public_fold.specs.Preparing.{is_new_holder};
ghost use Rattle.store_owner.specs.Planning.{IsKeyed, reply_for};

use chacha_seal::check_of;
use command_plan::NameChange;
use cry_base::{Reply, Text};
use public_fold::Prepared;
use record_format::Note;

/// A command that isn't refused, as what it seals and changes, with all the memory for it. A new holder's key isn't in it until it
/// is drawn: the check is all zeros.
#[derive(Drop)]
pub(crate) struct Change {
    pub(crate) note: Note,
    pub(crate) ready: Prepared,
    pub(crate) text: Text,
    pub(crate) titles: NameChange,
}

impl Change {
    /// Puts the key of a new holder into note and text, and answers what the command is to be answered.
    pub(crate) fn take_key(&mut self, drawn: &[[u8; 32]]) -> Reply
        requires same { self.old.ready.note ≡ self.old.note }
        requires holder { is_new_holder self.old.note ≡ true → (1 ≤ length drawn.now) × (32 ≤ self.old.text.spare) }
        ensures keyed { IsKeyed drawn.now self.old self.new }
        ensures reply { result ≡ reply_for self.old.note drawn.now }
    {
        let Note::NewHolder { holder, .. } = self.note else {
            return Reply::Done;
        };
        let key = drawn[0];
        let check = check_of(&key);
        self.ready.set_check(check);
        self.note = Note::NewHolder { holder, check };
        self.text.put_all(&key);
        Reply::Made { holder, key }
    }
}
