//! What an owner is asked to do, and what of a change hangs on which it is.
ghost use Rattle.std.specs.Prelude.{◌≡◌, ◌+◌, ◌≤◌, ◌<◌, ◌^◌, ◌++◌, IfOk, length, replicate};
ghost use Rattle.cry_base.specs.Clearances.{clear_base};
ghost use Rattle.cry_base.specs.Requests.Request.{AddHolder};
ghost use Rattle.cry_base.specs.Store.{Store};
ghost use Rattle.folder_nodes.specs.Titles.{Titles, tree_store};
ghost use Rattle.record_format.specs.Told.{told_note};
ghost use Rattle.journal_bytes.specs.Owning.{IsStoreOf};
ghost use Rattle.store_owner.specs.Deeds.{IsDeedChange, IsFound, deed_count, deed_key, deed_note, deed_of, deed_text};
ghost use Rattle.store_owner.specs.Deeds.Deed.{Commanded};

use command_plan::{NameChange, name_change_for, note_for, sealed_len, text_for};
use cry_base::{Command, List, Mem, Text};
use folder_nodes::{Names, Shape, Target};
use grant_book::Grants;
use record_format::Note;
use std::alloc::Global;

/// What an owner is asked to do.
#[derive(Drop)]
pub(crate) enum Asked<'a> {
    /// A command, with what it finds.
    Command {
        command: &'a Command,
        target: Target<'a>,
    },
    /// To make a store of version 1 one of version 2.
    Upgrade,
}

impl Asked<'_> {
    /// The note, in any store whose tree and grants these are. A new holder's check is all zeros in it.
    #[tactic(auto, unfolding(record_format::specs::Told::told_note))]
    pub(crate) fn note(&self, shape: &Shape, grants: &Grants) -> Note
        requires found { (names : Titles) × IsFound (tree_store shape.now.tree names) self.now }
        requires folders { shape.now.tree.folders_made < 4294967295 }
        requires files { shape.now.tree.files_made < clear_base }
        requires holders { length grants.now.checks < 4294967295 }
        ensures { (names : Titles) → IsFound (tree_store shape.now.tree names) self.now
            → (s : Store) → IsStoreOf shape.now.tree names grants.now s
            → told_note result ≡ deed_note s (deed_of self.now) (replicate 32 0) }
    {
        match self {
            Asked::Command { target, .. } => note_for(shape, grants, target),
            Asked::Upgrade => Note::Upgrade,
        }
    }

    /// The text that is sealed, in a store of these names: empty, with room for a key, where that is a new holder's.
    pub(crate) fn text(&self, alloc: Global, names: &Names) -> Mem<Text>
        requires found { (s : Store) × IsFound s self.now }
        ensures text { IfOk result (λ text. (tree : Store) → IsFound (tree_store tree names.now) self.now
            → text.items ≡ deed_text (tree_store tree names.now) (deed_of self.now)) }
        ensures room { IfOk result (λ text. (s : Store) → IsFound s self.now → deed_of self.now ≡ Commanded AddHolder → 32 ≤ text.spare) }
    {
        match self {
            Asked::Command { target, .. } => text_for(alloc, names, target),
            Asked::Upgrade => Ok(List::new(alloc)),
        }
    }

    /// The change of names and bytes, in a store of this tree and these names.
    pub(crate) fn titles(&self, alloc: Global, shape: &Shape, names: &Names) -> Mem<NameChange>
        requires folders { shape.now.tree.folders_made < 4294967295 }
        requires files { shape.now.tree.files_made < 4294967295 }
        ensures { IfOk result (λ change. IsFound (tree_store shape.now.tree names.now) self.now
            → IsDeedChange (tree_store shape.now.tree names.now) (deed_of self.now) names.now change) }
    {
        match self {
            Asked::Command { target, .. } => name_change_for(alloc, shape, names, target),
            Asked::Upgrade => Ok(NameChange::Keep),
        }
    }

    /// How many bytes the text has once a new holder's key stands in it.
    pub(crate) fn sealed_len(&self, text: &Text) -> u64
        ensures length { (s : Store) → IsFound s self.now
            → result ≡ length (text.now.items ++ deed_key (deed_of self.now) (replicate 32 0)) }
        ensures short { result < 2 ^ 63 + 32 }
    {
        match self {
            Asked::Command { target, .. } => sealed_len(target, text),
            Asked::Upgrade => text.as_slice().len() as u64,
        }
    }

    /// How many commands it counts for.
    pub(crate) fn commands(&self) -> u64
        ensures { result ≡ deed_count (deed_of self.now) }
    {
        match self {
            Asked::Command { .. } => 1,
            Asked::Upgrade => 0,
        }
    }
}
