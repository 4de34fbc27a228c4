//! How many links and contents an index may keep.
ghost use Rattle.std.specs.Prelude.{◌≡◌, ◌-◌, ◌^◌, min};
ghost use Rattle.log_visits.specs.Indexed as spec;

use public_fold::PublicState;

/// So many are kept of any store, that of a small one nothing is forgotten at each batch.
const FEW: usize = 64;

/// At least as many links as the edges that stand have: of a folder five within it and two with its parent, of a file one, of a grant
/// one, and three where it is on a file.
fn most_links(state: &PublicState) -> usize
    ensures { result ≡ min (spec.most_links state.now) (2 ^ 64 - 1) }
{
    let folders = state.shape().folder_count();
    let files = state.shape().file_count();
    let grants = state.grants().pairs().len();
    let on_files = state.grants().on_files();
    folders
        .saturating_mul(7)
        .saturating_add(files)
        .saturating_add(grants)
        .saturating_add(on_files.saturating_mul(3))
}

/// As many contents as what stands has: the name of each folder, the text of each file, the key of each holder.
fn most_contents(state: &PublicState) -> usize
    ensures { result ≡ min (spec.most_contents state.now) (2 ^ 64 - 1) }
{
    let folders = state.shape().folder_count();
    let files = state.shape().file_count();
    let holders = state.grants().holders() as usize;
    folders.saturating_add(files).saturating_add(holders)
}

/// Twice as many links and contents as those that stand have, and a few more.
pub(crate) fn most_rows(state: &PublicState) -> usize
    ensures { result ≡ min (spec.most_rows state.now) (2 ^ 64 - 1) }
{
    most_links(state)
        .saturating_add(most_contents(state))
        .saturating_mul(2)
        .saturating_add(FEW)
}
