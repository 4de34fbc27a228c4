//! A list that contracts see as its items, and as the number of items that it still has room for.
ghost use Rattle.std.specs.Prelude.{◌≡◌, ◌+◌, ◌<◌, ◌≤◌, [], ◌∷◌, ◌++◌, length, IsOk, OnOk, OnErr, slice_index_or, swap_remove};
ghost use Rattle.std.specs.Borrow.{sem};
ghost use Rattle.cry_base.specs.Lending.{LendsItems};

use crate::Mem;
use std::alloc::Global;
use std::marker::Model;

/// Items in order. `spare` is how many more fit without memory; it may be more than was asked for.
#[derive(Debug, Drop)]
pub struct List<T> {
    vec: Vec<T>,
}

/// Bytes.
pub type Text = List<u8>;

impl<T> Model for List<T> {
    ghost use Rattle.std.specs.Prelude.{◌-◌, vec_len, vec_capacity};
    ghost use Rattle.cry_base.specs.Listed.{Listed};

    ghost Value = { Listed T };

    ghost view = { λ l. record { items = l.vec.items; spare = vec_capacity l.vec - vec_len l.vec } };
}

impl<T> List<T> {
    /// An empty list. It takes no memory.
    pub fn new(alloc: Global) -> Self
        ensures { result.items ≡ [] }
    {
        List {
            vec: Vec::new(alloc),
        }
    }

    /// Makes room for at least `more` items beside those that are there. An empty list takes no more than that, since most lists
    /// are made for what they hold; one that has items takes more, so that it doesn't move at each item that comes.
    pub fn reserve(&mut self, more: usize) -> Mem<()>
        ensures items { self.new.items ≡ self.old.items }
        ensures room { OnOk result (more ≤ self.new.spare) }
        ensures kept { self.old.spare ≤ self.new.spare }
        ensures has_room { more ≤ self.old.spare → IsOk result }
    {
        if self.vec.is_empty() {
            self.vec.reserve_exact(more)?;
        } else {
            self.vec.reserve(more)?;
        }
        Ok(())
    }

    /// Adds an item at the end, where there is room. It takes no memory.
    pub fn put(&mut self, item: T)
        requires { 1 ≤ self.old.spare }
        ensures items { self.new.items ≡ self.old.items ++ item ∷ [] }
        ensures spare { self.old.spare ≤ self.new.spare + 1 }
    {
        self.vec.push_reserved(item);
    }

    /// Takes an item out, and puts the last one in its place.
    pub fn swap_remove(&mut self, index: usize) -> T
        requires { index < length self.old.items }
        ensures value { result ≡ slice_index_or self.old.items index result }
        ensures items { self.new.items ≡ swap_remove self.old.items index result }
    {
        self.vec.swap_remove(index)
    }

    /// The items in order.
    pub fn as_slice(&self) -> &[T]
        ensures { result.now ≡ self.now.items }
    {
        self.vec.as_slice()
    }
}

impl<T: Drop> List<T> {
    /// Adds an item at the end. At `Err` the list is as it was, and the item is gone.
    pub fn push(&mut self, item: T) -> Mem<()>
        ensures items { OnOk result (self.new.items ≡ self.old.items ++ item ∷ []) }
        ensures err { OnErr result (self.new.items ≡ self.old.items) }
        ensures has_room { 1 ≤ self.old.spare → IsOk result }
    {
        self.vec.push(item)?;
        Ok(())
    }
}

impl List<u8> {
    /// Adds bytes at the end, where there is room for all of them. It takes no memory.
    pub fn put_all(&mut self, bytes: &[u8])
        requires { length bytes.now ≤ self.old.spare }
        ensures items { self.new.items ≡ self.old.items ++ bytes.now }
        ensures spare { self.old.spare ≤ self.new.spare + length bytes.now }
    {
        let _ = self.vec.extend_from_slice(bytes);
    }

    /// Adds bytes at the end. At `Err` the text is as it was.
    pub fn append(&mut self, bytes: &[u8]) -> Mem<()>
        ensures items { OnOk result (self.new.items ≡ self.old.items ++ bytes.now) }
        ensures err { OnErr result (self.new.items ≡ self.old.items) }
        ensures has_room { length bytes.now ≤ self.old.spare → IsOk result }
    {
        self.vec.extend_from_slice(bytes)?;
        Ok(())
    }

    /// The bytes, to be written over in their places.
    pub fn as_mut_slice(&mut self) -> &mut [u8]
        ensures* writes_back { sem 𝓛 (LendsItems self.entry result) }
        ensures value { result.now ≡ self.old.items }
    {
        self.vec.as_mut_slice()
    }
}

impl<T: PartialEq> PartialEq for List<T> {
    ghost use Rattle.std.specs.Cmp.Lexicographic.{pointwise, lists_per};
    ghost use Rattle.std.specs.Cmp.{on_per};

    ghost eq = { λ a b. pointwise T.eq a.items b.items };

    ghost laws = { on_per (λ l. l.items) (lists_per T.laws) };

    fn eq(&self, other: &Self) -> bool {
        self.as_slice() == other.as_slice()
    }
}

impl<T: Eq> Eq for List<T> {
    ghost use Rattle.std.specs.Cmp.Lexicographic.{lists_equiv};
    ghost use Rattle.std.specs.Cmp.{on_equiv};

    ghost laws = { on_equiv (λ l. l.items) (lists_equiv T.Eq.laws) };
}
