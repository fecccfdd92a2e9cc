//! Why a script isn't read.
ghost use Rattle.std.specs.Prelude.{◌≡◌, OnOk, IsTrue};
ghost use Rattle.event_script.specs.Outcome as outcome;
ghost use Rattle.event_script.specs.declared.fault.LineError.TheVariants.{Memory, Fault};
ghost use Rattle.event_script.specs.declared.fault.ParseError.TheVariants as parse_error;

use std::alloc::{AllocError, AllocFailed};
use thiserror::Error;

/// What is wrong with a line: the first that applies.
#[derive(Clone, Copy, Debug, PartialEq, Eq, Error)]
pub enum Kind {
    /// The input ends in it.
    #[error("the input ends in it")]
    Cut,
    /// A byte that doesn't print.
    #[error("it has a byte that does not print")]
    Text,
    /// An unknown first word.
    #[error("its first word is unknown")]
    Word,
    /// It may not stand here, or not a second time.
    #[error("it may not stand here, or not a second time")]
    Order,
    /// A line that must stand before it is missing.
    #[error("a line is missing that must stand before it")]
    Missing,
    /// The wrong number of fields, or an unknown command.
    #[error("it has the wrong number of fields, or names no command")]
    Fields,
    /// A field that isn't a number in its range.
    #[error("a field is no number in its range")]
    Number,
    /// A field that isn't bytes of a length in its range.
    #[error("a field is no bytes of a length in its range")]
    Hex,
    /// One more than there may be.
    #[error("it is one more than there may be")]
    Many,
}

/// The first faulty line, counted from 1, and what is wrong with it.
#[derive(Clone, Copy, Debug, PartialEq, Eq, Error)]
#[error("line {line} is not one of a script: {kind}")]
pub struct ScriptFault {
    /// Counted from 1.
    pub line: u64,
    /// What is wrong with the line.
    pub kind: Kind,
}

/// Why bytes were not read as a script.
#[derive(Clone, Copy, Debug, PartialEq, Eq, Error)]
pub enum ParseError {
    /// The bytes are no script.
    #[error("{0}")]
    Fault(ScriptFault),
    /// The host ran out of memory. Nothing is said of the bytes.
    #[error("out of memory")]
    NoMemory,
}

impl From<AllocError> for ParseError {
    ghost from_gives = { λ _ e. e ≡ parse_error.NoMemory };

    fn from(_: AllocError) -> Self {
        ParseError::NoMemory
    }
}

/// Why a line isn't read.
#[derive(Debug, Drop)]
pub enum LineError {
    /// The host ran out of memory.
    Memory,
    /// The line can't stand in a script.
    Fault(Kind),
}

impl LineError {
    /// The same of the line with a number.
    pub fn at(self, line: u64) -> ParseError
        ensures { result ≡ outcome.error_at line self }
    {
        match self {
            LineError::Memory => ParseError::NoMemory,
            LineError::Fault(kind) => ParseError::Fault(ScriptFault { line, kind }),
        }
    }
}

impl From<AllocError> for LineError {
    ghost from_gives = { λ _ e. e ≡ Memory };

    fn from(_: AllocError) -> Self {
        LineError::Memory
    }
}

impl From<Kind> for LineError {
    ghost from_gives = { λ k e. e ≡ Fault k };

    fn from(kind: Kind) -> Self {
        LineError::Fault(kind)
    }
}

/// The fault, unless the test holds.
pub fn ensure(test: bool, kind: Kind) -> Result<(), Kind>
    ensures value { result ≡ outcome.ensure test kind }
    ensures holds { OnOk result (IsTrue test) }
{
    if test { Ok(()) } else { Err(kind) }
}
