//! Stores that follow from a seed.
ghost use Rattle.std.specs.Prelude;

use crate::stores::Store;
use std::alloc::Global;
use std::test::Fail;

/// For each folder from 2 to 12 the most that its parent's number may be.
const PARENTS: [u32; 11] = [1, 2, 3, 4, 5, 6, 7, 8, 9, 10, 11];

/// For each of some numbers one from 1 to it.
pub(crate) fn drawn(alloc: Global, seed: u32, most: &[u32]) -> Result<Vec<u32>, Fail> {
    let mut state = seed;
    let mut numbers = Vec::new(alloc);
    for most in most {
        state = state.wrapping_mul(1_664_525).wrapping_add(1_013_904_223);
        numbers.push((state >> 16).checked_rem(*most).unwrap_or(0) + 1)?;
    }
    Ok(numbers)
}

/// A store of twelve folders, ten files and at most six grants to two holders.
pub(crate) fn drawn_store(alloc: Global, seed: u32) -> Result<Store, Fail> {
    let parents = drawn(alloc, seed, &PARENTS)?;
    let files = drawn(alloc, seed, &[12; 10])?;
    let given = drawn_grants(alloc, seed)?;
    Store::new(alloc, &parents, &files, &given)
}

fn drawn_grants(alloc: Global, seed: u32) -> Result<Vec<(u32, u32)>, Fail> {
    let holders = drawn(alloc, seed, &[2; 6])?;
    let folders = drawn(alloc, seed, &[12; 6])?;
    let mut given = Vec::new(alloc);
    for (holder, folder) in holders.iter().zip(folders.iter()) {
        given.push((*holder, *folder))?;
    }
    Ok(given)
}
