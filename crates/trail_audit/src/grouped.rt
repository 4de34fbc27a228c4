//! Links and keys in groups, each found without a walk.
ghost use Rattle.std.specs.Prelude.{◌≡◌, ◌++◌, [], ◌∷◌, OnOk, cond};
ghost use Rattle.std.specs.HashMap.{get};
ghost use Rattle.trail_audit.specs.Grouped.{items_of, same_sources};
ghost use Rattle.trail_audit.specs.declared.grouped.Source.{Source as TheSource};

use cry_base::Mem;
use std::alloc::Global;
use std::collections::HashMap;

/// The number and the serial of a key: what a link that begins there and a content that is sealed under it name.
#[derive(Clone, Copy, PartialEq, Eq, Hash)]
pub(crate) struct Source {
    pub(crate) id: u32,
    pub(crate) serial: u64,
}

/// Items in groups by their sources.
pub(crate) type Groups<T> = HashMap<Source, Vec<T>>;

/// Adds an item at the end of the group of its source.
pub(crate) fn add_under<T: Drop>(
    groups: &mut Groups<T>,
    alloc: Global,
    source: Source,
    item: T,
) -> Mem<()>
    ensures { OnOk result ((s : TheSource) → items_of (get same_sources groups.new s)
        ≡ cond (same_sources source s) (items_of (get same_sources groups.old source) ++ item
        ∷ []) (items_of (get same_sources groups.old s))) }
{
    let mut group = match groups.remove(&source) {
        Some(group) => group,
        // Most groups have one item, and a vector that grows by itself begins with room for four.
        None => Vec::with_capacity(alloc, 1)?,
    };
    group.push(item)?;
    groups.insert(source, group)?;
    Ok(())
}

/// The group of a source, in the order in which its items were added.
pub(crate) fn group_of<T>(groups: &Groups<T>, source: Source) -> &[T]
    ensures { result.now ≡ items_of (get same_sources groups.now source) }
{
    match groups.get(&source) {
        Some(group) => group.as_slice(),
        None => &[],
    }
}
