//! A state taken apart and put together again.
use crate::redist::RedistLists;
use crate::redist_parts::{ConfLists, PendLists};
use crate::state::State;
use crate::tracked_memory::TrackedMemory;
use crate::translator::TranslatorLists;
use its_plain::Signal;
use its_types::Shape;
use std::alloc::AllocError;

impl State {
    ghost use Rattle.std.specs.Prelude.{◌≡◌, OnOk};
    ghost use Rattle.its_plain.specs.Plain as plain;
    ghost use Rattle.its_plain.specs.Answer as answers;

    /// How large the machine is.
    pub fn shape(&self) -> Shape
        ensures { result ≡ self.now.layout.shape }
    {
        self.layout.shape
    }

    /// The registers and maps of each translator.
    pub fn translators(&self) -> &[TranslatorLists]
        ensures { result.now ≡ self.now.translators }
    {
        &self.translators
    }

    /// The redistributor of each virtual processor.
    pub fn redistributors(&self) -> &[RedistLists]
        ensures { result.now ≡ self.now.redistributors }
    {
        &self.redistributors
    }

    /// Guest memory, with the second one where the machine has it.
    pub fn memory(&self) -> &TrackedMemory
        ensures { result.now ≡ record { memory = self.now.memory; track = self.now.track } }
    {
        &self.memory
    }

    /// Puts another translator in a place. Where there is no such place nothing changes.
    pub fn set_translator(&mut self, its: usize, translator: TranslatorLists)
        ensures { self.new ≡ plain.with_translator self.old its translator }
    {
        if its < self.translators.len() {
            self.translators[its] = translator;
        }
    }

    /// Puts other LPI registers in at a virtual processor, with the configuration. Where there is
    /// no such processor nothing changes.
    pub fn set_conf(&mut self, vcpu: usize, conf: ConfLists)
        ensures { self.new ≡ plain.with_redistributor self.old vcpu
            (plain.with_conf conf (plain.redistributor self.old vcpu)) }
    {
        if vcpu < self.redistributors.len() {
            self.redistributors[vcpu].set_conf(conf);
        }
    }

    /// Puts another pending set in at a virtual processor. Where there is no such processor nothing
    /// changes.
    pub fn set_pend(&mut self, vcpu: usize, pend: PendLists)
        ensures { self.new ≡ plain.with_redistributor self.old vcpu
            (plain.with_pend pend (plain.redistributor self.old vcpu)) }
    {
        if vcpu < self.redistributors.len() {
            self.redistributors[vcpu].set_pend(pend);
        }
    }

    /// Puts other guest memory in, with what stands beside it.
    pub fn set_memory(&mut self, memory: TrackedMemory)
        ensures { self.new ≡ record self.old { memory = memory.memory; track = memory.track } }
    {
        self.memory = memory;
    }

    /// Does what a message does that is told this: its interrupt is pending at its target, where it
    /// was delivered. Out of memory, nothing is said of the state.
    pub fn meet(&mut self, signal: Signal) -> Result<(), AllocError>
        ensures { OnOk result (self.new ≡ answers.signal_left self.old signal) }
    {
        match signal {
            Signal::Delivered { vcpu, intid } => self.set_lpi(u64::from(vcpu.0), intid),
            Signal::Dropped(_) => Ok(()),
        }
    }
}
