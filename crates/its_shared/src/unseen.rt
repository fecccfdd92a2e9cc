//! Why nothing is told of the machine's state.
use thiserror::Error;

/// Why a pass that looked at the state saw nothing of it. The pass holds nothing, as before.
#[derive(Clone, Copy, Debug, PartialEq, Eq, Error)]
pub enum Unseen {
    /// Another pass has a part that is needed.
    #[error("another pass has a part that is needed")]
    Busy,
    /// The host's memory ran out.
    #[error("out of memory")]
    NoMemory,
}
