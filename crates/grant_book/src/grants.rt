//! The list of holders and the list of grants.
ghost use Rattle.std.specs.Prelude.{◌≡◌, [], ◌∷◌, ◌++◌, ◌+◌, ◌^◌, ◌<◌, ◌≤◌, ◌↔◌, length, IsOk, OnOk, IfOk, IsTrue, AllPairs};
ghost use Rattle.std.specs.Prelude.{◌==◌, filter, not, MatchOption};
ghost use Rattle.std.specs.List.{list_any};
ghost use Rattle.cry_base.specs.Clearances.{is_clear_number};
ghost use Rattle.cry_base.specs.Sets.{In};
ghost use Rattle.cry_base.specs.Store.{GrantEntry};
ghost use Rattle.cry_base.specs.declared.ids.FolderId.{FolderId as FolderNumber};
ghost use Rattle.cry_base.specs.declared.ids.HolderId.{HolderId as HolderNumber};
ghost use Rattle.grant_book.specs.Fitting.{CanStand};
ghost use Rattle.grant_book.specs.Granted.{AreOrdered, IsHolder, check_at, is_grant, grant_of, holders_on, folders_of, with_pair};
ghost use Rattle.grant_book.specs.Granted.{without_pair, without_pairs_on};

use crate::Grant;
use crate::grant::GrantOn;
use crate::restoring::{are_holders, on_folders};
use cry_base::{CLEAR_BASE, FolderId, HolderId, List, Mem};
use sorted_table::Table;
use std::alloc::Global;
use std::marker::Model;

// So many grants on a folder go one by one. Each moves the rows behind it, and beyond this a pass over all is cheaper.
const FEW: usize = 12;

/// The holders in the order of their numbers, each with the check by which a key is tested, and all grants. A grant is on a
/// folder, or on a file by its clearance number. `spare` is how many changes fit without memory; it may be more than was
/// asked for.
#[derive(Drop)]
pub struct Grants {
    checks: Vec<[u8; 32]>,
    pairs: Table<Grant>,
    // The same grants by folder, so that those on one folder or file are found without a look at others.
    on_folders: Table<GrantOn>,
}

impl Model for Grants {
    ghost use Rattle.std.specs.Prelude.{◌-◌, vec_len, vec_capacity, min};
    ghost use Rattle.grant_book.specs.Granted.{Granted};
    ghost use Rattle.grant_book.specs.Fitting.{Fits};

    ghost Value = { Granted };

    ghost view = { λ g. record {
      checks = g.checks.items;
      pairs = g.pairs.rows;
      spare = min (vec_capacity g.checks - vec_len g.checks) (min g.pairs.spare g.on_folders.spare);
    } };

    ghost invariant = { λ g. Fits g.checks.items g.pairs.rows g.on_folders.rows };
}

impl Grants {
    /// Nobody is a holder, and nothing is granted. It takes no memory.
    pub fn new(alloc: Global) -> Self
        ensures checks { result.checks ≡ [] }
        ensures pairs { result.pairs ≡ [] }
    {
        Grants {
            checks: Vec::new(alloc),
            pairs: Table::new(alloc),
            on_folders: Table::new(alloc),
        }
    }

    /// The holders with these checks, and these grants. It is `None` exactly where the grants can't stand: one doesn't come behind the one
    /// before, by holder and then by folder, or its holder has no check.
    pub fn restore(alloc: Global, checks: &[[u8; 32]], pairs: &[Grant]) -> Mem<Option<Self>>
        requires { length checks.now < 2 ^ 32 }
        ensures { IfOk result (λ made. MatchOption made (CanStand checks.now pairs.now → ⊥)
            (λ g. CanStand checks.now pairs.now × (g.checks ≡ checks.now) × (g.pairs ≡ pairs.now))) }
    {
        let on_folders = on_folders(alloc, pairs)?;
        if !are_holders(checks.len(), pairs) {
            return Ok(None);
        }
        let Some(table) = Table::of_rows(alloc, pairs)? else {
            return Ok(None);
        };
        let _pairs = table.as_slice();
        Ok(Some(Grants {
            checks: Vec::from_slice(alloc, checks)?,
            pairs: table,
            on_folders: Table::of_unordered(on_folders),
        }))
    }

    /// Makes room for one change.
    pub fn reserve(&mut self) -> Mem<()>
        ensures checks { self.new.checks ≡ self.old.checks }
        ensures pairs { self.new.pairs ≡ self.old.pairs }
        ensures room { OnOk result (1 ≤ self.new.spare) }
        ensures kept { self.old.spare ≤ self.new.spare }
        ensures has_room { 1 ≤ self.old.spare → IsOk result }
    {
        self.checks.reserve(1)?;
        self.pairs.reserve(1)?;
        self.on_folders.reserve(1)
    }

    /// Makes the next holder, where there is room. It takes no memory.
    pub fn add_holder(&mut self, check: [u8; 32]) -> HolderId
        requires room { 1 ≤ self.old.spare }
        requires counted { length self.old.checks + 1 < 2 ^ 32 }
        ensures number { result.0 ≡ length self.old.checks + 1 }
        ensures checks { self.new.checks ≡ self.old.checks ++ check ∷ [] }
        ensures pairs { self.new.pairs ≡ self.old.pairs }
        ensures spare { self.old.spare ≤ self.new.spare + 1 }
    {
        self.checks.push_reserved(check);
        HolderId(self.checks.len() as u32)
    }

    /// Grants the folder, or the file with the clearance number, to the holder, where there is room. It takes no memory.
    pub fn grant(&mut self, h: HolderId, f: FolderId)
        requires room { 1 ≤ self.old.spare }
        requires known { IsHolder self.old.checks h.0 }
        requires absent { ¬ In (grant_of h.0 f.0) self.old.pairs }
        ensures checks { self.new.checks ≡ self.old.checks }
        ensures pairs { self.new.pairs ≡ with_pair self.old.pairs (grant_of h.0 f.0) }
        ensures spare { self.old.spare ≤ self.new.spare + 1 }
    {
        let grant = Grant::new(h, f);
        self.pairs.insert(grant);
        self.on_folders.insert(GrantOn(grant));
    }

    /// Takes the holder's grant on the folder or file back. It takes no memory.
    pub fn revoke(&mut self, h: HolderId, f: FolderId)
        requires { In (grant_of h.0 f.0) self.old.pairs }
        ensures checks { self.new.checks ≡ self.old.checks }
        ensures pairs { self.new.pairs ≡ without_pair self.old.pairs h.0 f.0 }
        ensures spare { self.old.spare ≤ self.new.spare }
    {
        let grant = Grant::new(h, f);
        self.pairs.remove(&grant);
        self.on_folders.remove(&GrantOn(grant));
    }

    /// Takes all grants on the folder or file back. It takes no memory. Where they are few it looks at no others, and else
    /// at each grant once.
    pub fn drop_on(&mut self, f: FolderId)
        ensures checks { self.new.checks ≡ self.old.checks }
        ensures pairs { self.new.pairs ≡ without_pairs_on self.old.pairs f.0 }
        ensures spare { self.old.spare ≤ self.new.spare }
    {
        if self.grants_on(f).len() > FEW {
            self.keep_others(f);
            return;
        }
        while let Some(grant) = self.first_on(f) {
            self.revoke(grant.holder, f);
        }
    }

    /// Takes all grants on the folder or file back, in one pass over all.
    fn keep_others(&mut self, f: FolderId)
        ensures checks { self.new.checks ≡ self.old.checks }
        ensures pairs { self.new.pairs ≡ without_pairs_on self.old.pairs f.0 }
        ensures spare { self.old.spare ≤ self.new.spare }
    {
        self.pairs.retain(|pair| !pair.is_on(f));
        self.on_folders.retain(|on| !on.0.is_on(f));
    }

    /// An equal list of holders and of grants.
    pub fn copy(&self) -> Mem<Grants>
        ensures checks { IfOk result (λ copy. copy.checks ≡ self.now.checks) }
        ensures pairs { IfOk result (λ copy. copy.pairs ≡ self.now.pairs) }
    {
        Ok(Grants {
            checks: Vec::from_slice(*self.checks.allocator(), &self.checks)?,
            pairs: self.pairs.copy()?,
            on_folders: self.on_folders.copy()?,
        })
    }

    /// How many holders were made.
    pub fn holders(&self) -> u32
        ensures { result ≡ length self.now.checks }
    {
        self.checks.len() as u32
    }

    /// The check of the holder's key.
    pub fn check_of(&self, h: HolderId) -> Option<[u8; 32]>
        ensures { result ≡ check_at self.now.checks h.0 }
    {
        if h.0 == 0 {
            return None;
        }
        self.checks.get(h.0 as usize - 1).copied()
    }

    /// All grants, by holder and then by folder. A file stands among folders by its clearance number.
    pub fn pairs(&self) -> &[Grant]
        ensures pairs { result.now ≡ self.now.pairs }
        ensures ordered { AreOrdered self.now.pairs }
        ensures made { (e : GrantEntry) → In e self.now.pairs → IsHolder self.now.checks e.holder }
        ensures numbered { (e : GrantEntry) → In e self.now.pairs → e.folder < 2 ^ 32 }
    {
        let _ = &self.checks;
        self.pairs.as_slice()
    }

    /// Whether the holder has a grant on that very folder or file. Takes about log2 of all grants steps.
    pub fn has(&self, h: HolderId, f: FolderId) -> bool
        ensures value { result ≡ list_any (is_grant h.0 f.0) self.now.pairs }
        ensures told { IsTrue result ↔ In (grant_of h.0 f.0) self.now.pairs }
    {
        self.pairs.find(&Grant::new(h, f)).is_some()
    }

    /// Whether somebody has a grant on that very folder or file. It looks at no other grant.
    pub fn has_on(&self, f: FolderId) -> bool
        ensures { result ≡ list_any (λ e. e.folder == f.0) self.now.pairs }
    {
        !self.grants_on(f).is_empty()
    }

    /// Whether somebody else than the holder has a grant on that very folder or file. It looks at no other grant.
    pub fn has_others_on(&self, h: HolderId, f: FolderId) -> bool
        ensures { result ≡ list_any (λ e. e.folder == f.0) (without_pair self.now.pairs h.0 f.0) }
    {
        has_others(self.grants_on(f), h)
    }

    /// The holders that have a grant on that very folder or file, ascending. It looks at no other grant.
    pub fn of_folder(&self, f: FolderId) -> Mem<List<HolderId>>
        ensures holders { IfOk result (λ l. l.items ≡ holders_on self.now.pairs f.0) }
        ensures ascending { IfOk result (λ l. AllPairs (λ a b. a.0 < b.0) l.items) }
    {
        let mut found = List::new(*self.checks.allocator());
        for pair in self.grants_on(f) {
            found.push(pair.0.holder)?;
        }
        Ok(found)
    }

    /// The folders on which the holder has a grant, ascending, and then the files by their clearance numbers. It looks at no
    /// other grant.
    pub fn of_holder(&self, h: HolderId) -> Mem<List<FolderId>>
        ensures folders { IfOk result (λ l. l.items ≡ folders_of self.now.pairs h.0) }
        ensures ascending { IfOk result (λ l. AllPairs (λ a b. a.0 < b.0) l.items) }
    {
        let mut found = List::new(*self.checks.allocator());
        for pair in self.grants_of(h) {
            found.push(pair.folder)?;
        }
        Ok(found)
    }

    /// How many grants are on files. Takes about log2 of all grants steps.
    pub fn on_files(&self) -> usize
        ensures { result ≡ length (filter (λ e. is_clear_number e.folder) self.now.pairs) }
    {
        let _pairs = self.pairs.as_slice();
        let first = GrantOn(Grant::new(HolderId(0), FolderId(CLEAR_BASE)));
        let last = GrantOn(Grant::new(HolderId(u32::MAX), FolderId(u32::MAX)));
        self.on_folders.rows_between(&first, &last).len()
    }

    /// The holder's grants, by folder.
    fn grants_of(&self, h: HolderId) -> &[Grant]
        ensures grants { result.now ≡ filter (λ e. e.holder == h.0) self.now.pairs }
        ensures ascending { AllPairs (λ (a b : FolderNumber). a.0 < b.0) (folders_of self.now.pairs h.0) }
    {
        let _pairs = self.pairs();
        let first = Grant::new(h, FolderId(0));
        let last = Grant::new(h, FolderId(u32::MAX));
        self.pairs.rows_between(&first, &last)
    }

    /// The grants on that very folder or file, by holder.
    fn grants_on(&self, f: FolderId) -> &[GrantOn]
        ensures grants { result.now ≡ filter (λ e. e.folder == f.0) self.now.pairs }
        ensures ascending { AllPairs (λ (a b : HolderNumber). a.0 < b.0) (holders_on self.now.pairs f.0) }
    {
        let _pairs = self.pairs();
        let first = GrantOn(Grant::new(HolderId(0), f));
        let last = GrantOn(Grant::new(HolderId(u32::MAX), f));
        self.on_folders.rows_between(&first, &last)
    }

    /// The first of the grants on that very folder or file.
    fn first_on(&self, f: FolderId) -> Option<Grant>
        ensures { MatchOption result (without_pairs_on self.now.pairs f.0 ≡ self.now.pairs) (λ e. In e self.now.pairs × (e.folder ≡ f.0)) }
    {
        match self.grants_on(f).first() {
            Some(on) => Some(on.0),
            None => None,
        }
    }
}

/// Whether one of the grants isn't the holder's.
fn has_others(grants: &[GrantOn], h: HolderId) -> bool
    ensures { result ≡ list_any (λ e. not (e.holder == h.0)) grants.now }
{
    grants.iter().any(|on| on.is_others(h))
}
