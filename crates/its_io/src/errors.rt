//! Why nothing was read or written.
use thiserror::Error;

/// A read or a write that moved nothing, though there was something to move.
#[derive(Clone, Copy, Debug, PartialEq, Eq, Error)]
#[error("a read or a write failed")]
pub struct Failed;
