//! How long calls took.
use std::io;
use std::time::{Clock, Duration, Instant};

/// So many calls, and how long they took.
#[derive(Clone, Copy)]
pub struct Lap {
    pub calls: u64,
    pub spent: Duration,
}

impl Lap {
    /// No calls.
    pub fn new() -> Lap {
        Lap {
            calls: 0,
            spent: Duration::ZERO,
        }
    }

    /// Calls that were made since an instant.
    pub fn since<R: Clock>(rt: &R, since: &Instant, calls: u64) -> io::Result<Lap> {
        let spent = since.elapsed(rt)?;
        Ok(Lap { calls, spent })
    }

    /// With calls that were made since an instant.
    pub fn add<R: Clock>(&mut self, rt: &R, since: &Instant, calls: u64) -> io::Result<()> {
        self.spent = self.spent.saturating_add(since.elapsed(rt)?);
        self.calls = self.calls.wrapping_add(calls);
        Ok(())
    }

    /// This one, or another of as many calls that took less time. No calls are no lap.
    pub fn or_quicker(self, other: Lap) -> Lap {
        if other.calls > 0 && other.spent < self.spent {
            other
        } else {
            self
        }
    }

    /// How many calls were made a second.
    pub fn rate(&self) -> u128 {
        u128::from(self.calls).saturating_mul(1_000_000_000) / self.spent.as_nanos().max(1)
    }

    /// How many tenths of a nanosecond a call took.
    pub fn tenths(&self) -> u128 {
        self.spent.as_nanos().saturating_mul(10) / u128::from(self.calls.max(1))
    }
}
