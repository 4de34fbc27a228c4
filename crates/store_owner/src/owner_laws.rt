//! A law of what an owner keeps of a store.
ghost use Rattle.public_fold.specs.Journal.{Journal, store_of};
ghost use Rattle.journal_bytes.specs.Owning.{IsStoreOf};
ghost use Rattle.store_owner.specs.Owned.{IsOwnerOf, OwnerView};

/// Law: an owner who stands for a journal has the tree, the names and the grants of its store.
pub fn owners_keep_the_store()
    ensures { (m : Journal) (o : OwnerView) → IsOwnerOf m o
        → IsStoreOf o.state.tree o.names (record { checks = o.state.checks; pairs = o.state.pairs; spare = 0 }) (store_of m) }
{}
