//! What a restore is refused for.
ghost use Rattle.std.specs.Prelude.{◌≡◌};
ghost use Rattle.table_restore.specs.declared.error.RestoreError.TheVariants as errors;
ghost use Rattle.table_restore.specs.declared.error.TableError.TheVariants as tables;
ghost use Rattle.table_restore.specs.Outcome.{with_number};

use its_plain::RestoreFault;
use std::alloc::{AllocError, AllocFailed};
use thiserror::Error;

/// Why no state was restored.
#[derive(Clone, Copy, Debug, PartialEq, Eq, Error)]
pub enum RestoreError {
    /// Memory and registers stand for no state: their first fault, with the number of its
    /// translator; 0 beside a fault of a redistributor.
    #[error("translator {0} is not restored: {1}")]
    Fault(u8, RestoreFault),
    /// The host ran out of memory.
    #[error("out of memory")]
    NoMemory,
}

impl From<AllocError> for RestoreError {
    ghost from_gives = { λ _ e. e ≡ errors.NoMemory };

    fn from(_: AllocError) -> Self {
        RestoreError::NoMemory
    }
}

impl<T: Drop> From<AllocFailed<T>> for RestoreError {
    ghost from_gives = { λ _ e. e ≡ errors.NoMemory };

    fn from(_: AllocFailed<T>) -> Self {
        RestoreError::NoMemory
    }
}

/// Why what one translator has, or the redistributors, wasn't read from memory.
#[derive(Clone, Copy, Debug, PartialEq, Eq)]
pub enum TableError {
    /// The first fault.
    Fault(RestoreFault),
    /// The host ran out of memory.
    NoMemory,
}

impl TableError {
    /// The same, of a translator by its number.
    pub fn of(self, its: u8) -> RestoreError
        ensures { result ≡ with_number its self }
    {
        match self {
            TableError::Fault(fault) => RestoreError::Fault(its, fault),
            TableError::NoMemory => RestoreError::NoMemory,
        }
    }
}

impl From<AllocError> for TableError {
    ghost from_gives = { λ _ e. e ≡ tables.NoMemory };

    fn from(_: AllocError) -> Self {
        TableError::NoMemory
    }
}

impl<T: Drop> From<AllocFailed<T>> for TableError {
    ghost from_gives = { λ _ e. e ≡ tables.NoMemory };

    fn from(_: AllocFailed<T>) -> Self {
        TableError::NoMemory
    }
}

impl From<RestoreFault> for TableError {
    ghost from_gives = { λ f e. e ≡ tables.Fault f };

    fn from(fault: RestoreFault) -> Self {
        TableError::Fault(fault)
    }
}
