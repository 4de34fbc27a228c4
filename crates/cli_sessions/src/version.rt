//! The version of stores that is written.
use cry_base::{FILE_BYTES, Limits, STORE_BYTES};

/// The sizes of its stores and files, in bytes.
pub const LIMITS: Limits = Limits {
    store_bytes: STORE_BYTES,
    file_bytes: FILE_BYTES,
};

/// The version of stores that were made before, which is read and no longer written.
pub const OLD_VERSION: u8 = 1;
