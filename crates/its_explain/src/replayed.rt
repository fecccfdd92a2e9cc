//! The machine on which the calls of a report are made again, and what is looked up in it.
ghost use Rattle.std.specs.Prelude.{◌≡◌};
ghost use Rattle.its_explain.specs.Looks.{value_in as read_value, whole_register};
ghost use Rattle.its_plain.specs.Machine.{IsDescription};

use crate::views::{bases_seen, idle_seen, lpi_seen, pair_seen, rule_seen, waiting_seen};
use call_facts::{IdleCause, LpiState, PairState, Waiting, WriteRule};
use gits_regs::Regs;
use guest_windows::Memory;
use its_plain::{Call, Desc, MakeError, Reply, SaveError};
use its_types::{Bases, DeviceId, EventId, Intid, Shape, Target, Vcpu};
use owned_machine::Machine;
use owned_parts::TranslatorRef;
use std::alloc::{AllocError, Global};
use std::marker::Model;

/// A machine, with the memory that its calls take. It is seen as the state that it stands for.
#[derive(Drop)]
pub struct Replayed {
    alloc: Global,
    machine: Machine,
}

impl Model for Replayed {
    ghost use Rattle.its_plain.specs.Plain.{Plain, plain_code};

    ghost Value = { Plain };

    ghost coded = { plain_code };

    ghost view = { λ r. r.machine };
}

impl Replayed {
    ghost use Rattle.std.specs.Prelude.{◌≡◌, IfOk, OnOk, OnErr, slice_get};
    ghost use Rattle.std.specs.Option.{option_map};
    ghost use Rattle.call_facts.specs.Idle.{idle_cause};
    ghost use Rattle.call_facts.specs.Pairs.{pair_state};
    ghost use Rattle.its_explain.specs.Looks as looks;
    ghost use Rattle.its_explain.specs.Views as spec;
    ghost use Rattle.its_plain.specs.Answer as plain;
    ghost use Rattle.its_plain.specs.Plain.{maps_of, regs_of};
    ghost use Rattle.its_plain.specs.Saved.{moved};
    ghost use Rattle.owned_parts.specs.Owned.{translator_at};

    /// A machine in its first state.
    pub fn new(alloc: Global, desc: &Desc) -> Result<Replayed, MakeError>
        requires { IsDescription desc.now }
    {
        let machine = Machine::new(alloc, desc)?;
        Ok(Replayed { alloc, machine })
    }

    /// Answers a call.
    pub fn answer(&mut self, call: &Call) -> Result<Reply, AllocError>
        ensures reply { IfOk result (λ r. r ≡ plain.reply_of self.old call.now) }
        ensures left { IfOk result (λ r. self.new ≡ plain.left self.old call.now r) }
        ensures err { OnErr result (self.new ≡ self.old) }
    {
        self.machine.answer(self.alloc, call)
    }

    /// The LPIs that are pending at a virtual processor, if there is one of this number.
    pub fn pending(&self, vcpu: usize) -> Result<Option<Vec<Intid>>, AllocError> {
        if vcpu < self.machine.vcpus() {
            Ok(Some(self.machine.pending(self.alloc, vcpu)?))
        } else {
            Ok(None)
        }
    }

    /// How many LPIs are pending at a virtual processor; none where there isn't one of this number.
    pub fn count_pending(&self, vcpu: usize) -> Result<usize, AllocError>
        ensures { IfOk result (λ n. n ≡ looks.pending_count self.now vcpu) }
    {
        if vcpu < self.machine.vcpus() {
            let lpis = self.machine.pending(self.alloc, vcpu)?;
            Ok(lpis.len())
        } else {
            Ok(0)
        }
    }

    /// Goes on from what was saved.
    pub fn migrate(&mut self) -> Result<(), SaveError>
        ensures ok { OnOk result (self.new ≡ moved self.old) }
        ensures err { OnErr result (self.new ≡ self.old) }
    {
        self.machine.migrate(self.alloc)
    }

    /// The same in the second memory; how many pages were copied at last.
    pub fn precopy(&mut self) -> Result<u64, SaveError>
        ensures ok { OnOk result (self.new ≡ moved self.old) }
        ensures err { OnErr result (self.new ≡ self.old) }
    {
        self.machine.precopy(self.alloc)
    }

    /// How large the machine is.
    pub fn shape(&self) -> Shape
        ensures { result ≡ self.now.layout.shape }
    {
        self.machine.parts().layout.shape
    }

    /// A translator, if there is one of this number.
    pub fn translator(&self, its: u8) -> Option<TranslatorRef<'_>>
        ensures { option_map translator_at result ≡ slice_get self.now.translators its }
    {
        self.machine.parts().in_place().translator(its)
    }

    /// Guest memory.
    pub fn memory(&self) -> &Memory
        ensures { result.now ≡ self.now.memory }
    {
        &self.machine.parts().memory
    }

    /// What the maps say of a device and one of its events.
    pub fn pair(&self, its: u8, dev: DeviceId, ev: EventId) -> PairState
        ensures { result ≡ pair_state (maps_of self.now its) dev.0 ev.0 }
    {
        pair_seen(self.machine.parts(), its, dev, ev)
    }

    /// How an LPI stands where it goes, if it goes anywhere.
    pub fn lpi(&self, spot: Option<Target>) -> Option<LpiState>
        ensures { result ≡ looks.lpi_of self.now spot }
    {
        let Target { vcpu, intid } = spot?;
        lpi_seen(self.machine.parts(), vcpu, intid)
    }

    /// What waits at a virtual processor.
    pub fn waiting(&self, vcpu: Vcpu) -> Result<Waiting, AllocError>
        ensures { IfOk result (λ w. w ≡ spec.waiting_for self.now vcpu.0) }
    {
        waiting_seen(self.alloc, self.machine.parts(), vcpu)
    }

    /// The LPI registers of a virtual processor, if there is one.
    pub fn bases(&self, vcpu: Vcpu) -> Option<Bases>
        ensures { result ≡ spec.bases_at self.now vcpu.0 }
    {
        bases_seen(self.machine.parts(), vcpu)
    }

    /// Why a translator takes no command, if it takes none.
    pub fn idle(&self, its: u8) -> Option<IdleCause>
        ensures { result ≡ idle_cause (regs_of self.now its) }
    {
        idle_seen(self.machine.parts(), its)
    }

    /// What becomes of a write of a translator's registers.
    pub fn rule(&self, its: u8, off: u32, size: u8, value: u64) -> Option<WriteRule>
        ensures { result ≡ spec.rule_at self.now its off size value }
    {
        rule_seen(self.machine.parts(), its, off, size, value)
    }

    /// What the 64-bit register of a translator reads that has an offset, or the 32-bit one.
    pub fn register(&self, its: u8, off: u32) -> u64
        ensures { result ≡ looks.register_at self.now its off }
    {
        match self.translator(its) {
            Some(translator) => read_whole(translator.regs, off),
            None => 0,
        }
    }

    /// The same of the LPI registers of a virtual processor.
    #[tactic(auto, unfolding(crate::specs::Looks::lpi_register_at))]
    pub fn lpi_register(&mut self, vcpu: Vcpu, off: u32) -> Result<u64, AllocError>
        ensures kept { self.new ≡ self.old }
        ensures value { IfOk result (λ v. v ≡ looks.lpi_register_at self.old vcpu.0 off) }
    {
        if off < 4 {
            self.lpi_value(vcpu, 0, 4)
        } else {
            self.lpi_value(vcpu, off - off % 8, 8)
        }
    }

    fn lpi_value(&mut self, vcpu: Vcpu, off: u32, size: u8) -> Result<u64, AllocError>
        ensures kept { self.new ≡ self.old }
        ensures value { IfOk result (λ v. v ≡ plain.gicr_read self.old vcpu.0 off size) }
    {
        let read = Call::ReadGicr { vcpu, off, size };
        let reply = self.machine.answer(self.alloc, &read)?;
        Ok(value_in(&reply))
    }
}

/// What a register read.
fn value_in(reply: &Reply) -> u64
    ensures { result ≡ read_value reply.now }
{
    match *reply {
        Reply::Value(value) => value,
        _ => 0,
    }
}

#[tactic(auto, unfolding(crate::specs::Looks::whole_register))]
fn read_whole(regs: &Regs, off: u32) -> u64
    ensures { result ≡ whole_register regs.now off }
{
    match off {
        0x0 | 0x4 | 0xffe8 => regs.read(off, 4),
        _ => regs.read(off - off % 8, 8),
    }
}
