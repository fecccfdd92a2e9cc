//! The trials, by name.
use crate::copying::stress_copying;
use crate::saving::stress_saving;
use crate::stress::{stress, stress_two};
use crate::trial::Checked;
use crate::turning::stress_turning;
use std::alloc::{AllocError, Global};
use std::sync::Wait;
use std::thread::Threads;

/// What threads do beside each other.
#[derive(Clone, Copy, PartialEq, Eq)]
pub enum Trial {
    /// Two signal, and one rewrites the maps.
    Maps,
    /// Two signal to each translator, and one rewrites the maps of both.
    Translators,
    /// Two signal a virtual processor, which turns its LPIs off and on.
    Turning,
    /// Two write guest memory, and one copies it.
    Copying,
    /// Two signal, and one saves.
    Saving,
}

impl Trial {
    /// Whether its threads signal.
    pub fn signals(self) -> bool {
        self != Trial::Copying
    }
}

/// All of them, with their names.
pub const TRIALS: [(&str, Trial); 5] = [
    ("stress", Trial::Maps),
    ("stress-2-translators", Trial::Translators),
    ("stress-turning", Trial::Turning),
    ("stress-copying", Trial::Copying),
    ("stress-saving", Trial::Saving),
];

/// Runs one, with so many signals or writes.
pub fn run_trial<R: Threads + Wait + Sync>(
    rt: &R,
    alloc: Global,
    trial: Trial,
    count: u32,
) -> Result<Checked, AllocError> {
    match trial {
        Trial::Maps => stress(rt, alloc, count),
        Trial::Translators => stress_two(rt, alloc, count),
        Trial::Turning => stress_turning(rt, alloc, count),
        Trial::Copying => stress_copying(rt, alloc, count),
        Trial::Saving => stress_saving(rt, alloc, count),
    }
}
