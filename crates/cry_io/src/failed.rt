use thiserror::Error;

/// The outside didn't do what was asked of it.
#[derive(Clone, Copy, Debug, PartialEq, Eq, Error)]
#[error("the outside failed")]
pub struct Failed;
