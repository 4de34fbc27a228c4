//! What names a log.

/// A log by the number of its batches and the root over its leaves (RFC 6962, section 2.1). Leaf 0 is what stands before the first
/// batch, so that the log has a leaf more than it has batches.
#[derive(Clone, Copy, Debug, PartialEq, Eq)]
pub struct Head {
    /// How many batches the log has.
    pub batches: u32,
    /// The root of the tree over its leaves.
    pub root: [u8; 32],
}
