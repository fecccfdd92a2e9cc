//! Which calls of a source or a sink fail.
ghost use Rattle.std.specs.Prelude.{◌≡◌, IfOk};
ghost use Rattle.its_io.specs.Script.{refuses, with_call, with_fault};

use crate::errors::Failed;
use std::alloc::{AllocError, Global};
use std::marker::Model;

/// Which calls are to fail, and how often one did.
#[derive(Drop)]
pub struct Script {
    most: usize,
    fail: Vec<u64>,
    calls: u64,
    faults: u64,
}

impl Model for Script {
    ghost use Rattle.its_io.specs.Script as spec;

    ghost Value = { spec.Script };

    ghost view = { λ s. record {
      most = s.most;
      fail = s.fail.items;
      calls = s.calls;
      faults = s.faults;
    } };
}

impl Script {
    /// Each call moves at most `most` bytes. Those with a number in `fail`, counted from 1, fail.
    pub fn new(alloc: Global, most: usize, fail: &[u64]) -> Result<Script, AllocError>
        ensures { IfOk result
            (λ s. s ≡ record { most = most; fail = fail.now; calls = 0; faults = 0 }) }
    {
        Ok(Script {
            most,
            fail: Vec::from_slice(alloc, fail)?,
            calls: 0,
            faults: 0,
        })
    }

    /// How many bytes a call moves at most.
    pub fn most(&self) -> usize
        ensures { result ≡ self.now.most }
    {
        self.most
    }

    /// Counts a call, and tells whether it is to fail.
    pub fn refuses_call(&mut self) -> bool
        ensures refuses { result ≡ refuses self.old }
        ensures counted { self.new ≡ with_call self.old }
    {
        self.calls = self.calls.saturating_add(1);
        self.fail.iter().any(|number| *number == self.calls)
    }

    /// Counts a fault.
    pub fn fault(&mut self) -> Failed
        ensures { self.new ≡ with_fault self.old }
    {
        self.faults = self.faults.saturating_add(1);
        Failed
    }
}
