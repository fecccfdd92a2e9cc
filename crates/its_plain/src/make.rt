//! Why a machine wasn't made.
ghost use Rattle.std.specs.Prelude.{◌≡◌};
ghost use Rattle.its_plain.specs.declared.make.MakeError.TheVariants as errors;

use crate::desc::DescFault;
use std::alloc::{AllocError, AllocFailed};
use thiserror::Error;

/// Why a machine wasn't made.
#[derive(Clone, Copy, Debug, PartialEq, Eq, Error)]
pub enum MakeError {
    /// The description makes none: the first fault.
    #[error("{0}")]
    Fault(DescFault),
    /// The host ran out of memory.
    #[error("out of memory")]
    NoMemory,
}

impl From<AllocError> for MakeError {
    ghost from_gives = { λ _ e. e ≡ errors.NoMemory };

    fn from(_: AllocError) -> Self {
        MakeError::NoMemory
    }
}

impl<T: Drop> From<AllocFailed<T>> for MakeError {
    ghost from_gives = { λ _ e. e ≡ errors.NoMemory };

    fn from(_: AllocFailed<T>) -> Self {
        MakeError::NoMemory
    }
}

impl From<DescFault> for MakeError {
    ghost from_gives = { λ f e. e ≡ errors.Fault f };

    fn from(fault: DescFault) -> Self {
        MakeError::Fault(fault)
    }
}
