//! Grants that come as a list, from outside.
ghost use Rattle.std.specs.Prelude.{◌≡◌, ◌<◌, ◌^◌, ◌&&◌, All, IfOk, OnOk, nat_le};
ghost use Rattle.std.specs.List.{list_all};

use crate::Grant;
use crate::grant::GrantOn;
use cry_base::Mem;
use std::alloc::Global;

/// Whether each of the grants has one of so many holders.
pub(crate) fn are_holders(count: usize, pairs: &[Grant]) -> bool
    ensures { result ≡ list_all (λ e. nat_le 1 e.holder && nat_le e.holder count) pairs.now }
{
    pairs.iter().all(|pair| 1 <= pair.holder.0 && pair.holder.0 as usize <= count)
}

fn on_folder(pair: Grant) -> GrantOn
    ensures pair { result ≡ pair }
    ensures numbered { pair.folder < 2 ^ 32 }
{
    let _number = pair.folder.0;
    GrantOn(pair)
}

/// The same grants, to be put in order by folder.
pub(crate) fn on_folders(alloc: Global, pairs: &[Grant]) -> Mem<Vec<GrantOn>>
    ensures pairs { IfOk result (λ rows. rows.items ≡ pairs.now) }
    ensures numbered { OnOk result (All (λ e. e.folder < 2 ^ 32) pairs.now) }
{
    let mut rows = Vec::with_capacity(alloc, pairs.len())?;
    for pair in pairs {
        rows.push(on_folder(*pair))?;
    }
    Ok(rows)
}
