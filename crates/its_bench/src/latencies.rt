//! How long each of some calls took.
use std::alloc::{AllocError, Global};
use std::time::Duration;

/// Nanoseconds of each call.
#[derive(Drop)]
pub struct Latencies {
    nanoseconds: Vec<u64>,
}

impl Latencies {
    /// Of no call, with room for so many.
    pub fn new(alloc: Global, count: u32) -> Result<Latencies, AllocError> {
        Ok(Latencies {
            nanoseconds: Vec::with_capacity(alloc, count as usize)?,
        })
    }

    /// And of one call more.
    pub fn push(&mut self, spent: Duration) -> Result<(), AllocError> {
        let nanoseconds = u64::try_from(spent.as_nanos()).unwrap_or(u64::MAX);
        self.nanoseconds.push(nanoseconds)?;
        Ok(())
    }

    /// And of those of others.
    pub fn add(&mut self, others: &Latencies) -> Result<(), AllocError> {
        for spent in others.nanoseconds.as_slice() {
            self.nanoseconds.push(*spent)?;
        }
        Ok(())
    }

    /// How many calls there are.
    pub fn count(&self) -> usize {
        self.nanoseconds.len()
    }

    /// In rising order.
    pub fn sort(&mut self) {
        self.nanoseconds.sort_unstable();
    }

    /// What so many of a thousand calls took at most, of those in rising order; 0 of no call.
    pub fn at(&self, of_thousand: usize) -> u64 {
        let place = self.nanoseconds.len().saturating_mul(of_thousand) / 1000;
        match self.nanoseconds.get(place) {
            Some(spent) => *spent,
            None => self.most(),
        }
    }

    /// What the last took, of those in rising order.
    pub fn most(&self) -> u64 {
        self.nanoseconds.last().copied().unwrap_or(0)
    }
}
