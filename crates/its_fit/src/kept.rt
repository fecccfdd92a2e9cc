//! A machine that is kept from call to call.
ghost use Rattle.std.specs.Prelude.{◌≡◌, IfOk, OnOk, true};
ghost use Rattle.std.specs.Bool.{Decides};
ghost use Rattle.its_fit.specs.Replays as spec;
ghost use Rattle.its_fit.specs.Replays.{IsAfter, IsKept};

use crate::recording::Recording;
use crate::replay::Made;
use owned_machine::Machine;
use std::alloc::{AllocError, Global};
use std::mem::replace;

/// A machine, and the calls that it has answered.
#[derive(Drop)]
pub struct Kept {
    machine: Machine,
    /// From its first state on.
    log: Vec<Made>,
    /// It may have answered another call after them.
    is_spoiled: bool,
}

impl Kept {
    /// The machine of a recording, before any call.
    pub fn new(alloc: Global, recording: &Recording<'_>) -> Result<Kept, AllocError>
        ensures { IfOk result (λ k. IsKept recording.now.desc.now recording.now.calls.now k) }
    {
        let machine = recording.machine_after(alloc, &[])?;
        Ok(Kept {
            machine,
            log: Vec::new(alloc),
            is_spoiled: false,
        })
    }

    /// Its machine.
    pub fn machine(&self) -> &Machine
        ensures { result.now ≡ self.now.machine }
    {
        &self.machine
    }

    /// Brings the machine to after these calls. It is made anew only if it isn't there.
    pub fn bring(
        &mut self,
        alloc: Global,
        recording: &Recording<'_>,
        log: &[Made],
    ) -> Result<(), AllocError>
        requires { IsKept recording.now.desc.now recording.now.calls.now self.old }
        ensures after { OnOk result (IsAfter recording.now.desc.now recording.now.calls.now
            log.now self.new.machine) }
        ensures log { OnOk result (self.new.log.items ≡ log.now) }
    {
        if !self.is_spoiled && are_same(&self.log, log) {
            return Ok(());
        }
        let machine = recording.machine_after(alloc, log)?;
        drop(replace(&mut self.machine, machine));
        self.log = copied(alloc, log)?;
        self.is_spoiled = false;
        Ok(())
    }

    /// Makes a call after those that it has answered, and tells whether it is answered as it was.
    /// Where that can be asked without a change, it is asked so first.
    pub fn goes(
        &mut self,
        alloc: Global,
        recording: &Recording<'_>,
        made: Made,
    ) -> Result<bool, AllocError>
        requires { IsAfter recording.now.desc.now recording.now.calls.now
            self.old.log.items self.old.machine }
        ensures goes { IfOk result (λ b. Decides b (spec.IsAnsweredSo recording.now.calls.now
            recording.now.told.now.threads self.old.machine made.thread made.call)) }
        ensures kept { OnOk result (IsKept recording.now.desc.now recording.now.calls.now
            self.new) }
    {
        if recording.shows_other(alloc, &mut self.machine, made)? {
            return Ok(false);
        }
        self.is_spoiled = true;
        let goes = recording.goes(alloc, &mut self.machine, made)?;
        if goes {
            self.log.push(made)?;
            self.is_spoiled = false;
        }
        Ok(goes)
    }
}

/// Whether two lists are of the same calls.
fn are_same(one: &[Made], other: &[Made]) -> bool
    ensures { result ≡ true → one.now ≡ other.now }
{
    if one.len() != other.len() {
        return false;
    }
    for index in 0..one.len() {
        if one[index].thread != other[index].thread || one[index].call != other[index].call {
            return false;
        }
    }
    true
}

/// The same calls.
fn copied(alloc: Global, log: &[Made]) -> Result<Vec<Made>, AllocError>
    ensures { IfOk result (λ v. v.items ≡ log.now) }
{
    let mut all = Vec::with_capacity(alloc, log.len())?;
    for made in log {
        all.push(*made)?;
    }
    Ok(all)
}
