//! How large a store, its files, its names and its tree may grow.
ghost use Rattle.std.specs.Prelude.{◌≡◌};
ghost use Rattle.cry_base.specs.Limits.{limits_of_version};

/// Numbers from this one on are files' clearance numbers. Folders' and files' own numbers stay below it, since no store has room for so
/// many.
pub const CLEAR_BASE: u32 = 2_147_483_648;

/// The most bytes that a store file may have.
pub const STORE_BYTES: u64 = 1_073_741_824;

/// The most bytes that a store file of version 1 may have.
pub const FIRST_STORE_BYTES: u64 = 268_435_456;

/// The most bytes that one file in a store may have.
pub const FILE_BYTES: u32 = 1_048_576;

/// The most bytes that a name may have.
pub const NAME_BYTES: usize = 64;

/// The most folders that stand one in another below the root.
pub const DEPTH: u32 = 64;

/// The sizes that a writer keeps to.
#[derive(Clone, Copy, Debug, PartialEq, Eq)]
pub struct Limits {
    /// The most bytes that a store file may have.
    pub store_bytes: u64,
    /// The most bytes that one file in a store may have.
    pub file_bytes: u32,
}

/// The limits of a version of the store file, and `None` where the version is not known.
pub fn limits_of(version: u8) -> Option<Limits>
    ensures { result ≡ limits_of_version version }
{
    match version {
        1 => Some(Limits {
            store_bytes: FIRST_STORE_BYTES,
            file_bytes: FILE_BYTES,
        }),
        2 => Some(Limits {
            store_bytes: STORE_BYTES,
            file_bytes: FILE_BYTES,
        }),
        _ => None,
    }
}
