//! The plain machine as a program.
use crate::redist::RedistLists;
use crate::redists;
use crate::tracked_memory::TrackedMemory;
use crate::translator::TranslatorLists;
use gits_regs::Regs;
use its_plain::{Cause, Layout, Reply, Signal};
use its_types::{DeviceId, EventId, Intid, Target};
use std::alloc::{AllocError, Global};
use std::marker::Model;

/// A state of the plain machine, as a value: translators and redistributors in plain lists, and
/// guest memory, with a second one where the machine has it.
#[derive(Drop)]
pub struct State {
    pub(crate) layout: Layout,
    pub(crate) translators: Vec<TranslatorLists>,
    pub(crate) redistributors: Vec<RedistLists>,
    pub(crate) memory: TrackedMemory,
}

impl Model for State {
    ghost use Rattle.std.specs.Prelude.{◌≤◌, length};
    ghost use Rattle.its_plain.specs.Plain.{Plain, plain_code};

    ghost Value = { Plain };

    ghost coded = { plain_code };

    ghost view = { λ s. record {
      layout = s.layout;
      translators = s.translators.items;
      redistributors = s.redistributors.items;
      memory = s.memory.memory;
      track = s.memory.track;
    } };

    ghost use Rattle.its_plain.specs.Sound.{IsShape};
    ghost use Rattle.its_types.specs.Ranges.{most_vcpus};

    ghost invariant = { λ s. IsShape s.layout.shape
        × (length s.redistributors.items ≤ most_vcpus) × (length s.translators.items ≤ 256) };
}

impl State {
    ghost use Rattle.std.specs.Prelude.{◌≡◌, ◌<◌, IfOk, OnOk, length};
    ghost use Rattle.its_plain.specs.Plain as plain;
    ghost use Rattle.its_plain.specs.Translation as translation;
    ghost use Rattle.its_plain.specs.Answer as answers;
    ghost use Rattle.its_plain.specs.Commands as commands;
    ghost use Rattle.its_plain.specs.declared.call.Reply.TheVariants as reply;

    /// Where a device's message goes.
    #[tactic(auto, unfolding(its_plain::specs::Translation::translated, its_plain::specs::Translation::located))]
    fn translate(&self, its: u8, dev: DeviceId, ev: EventId) -> Result<Target, Cause>
        ensures { result ≡ translation.translated self.now its dev.0 ev.0 }
    {
        let Some(translator) = self.translators.get(usize::from(its)) else {
            return Err(Cause::Disabled);
        };
        let target = translator.locate(dev, ev)?;
        if !redists::is_on_at(&self.redistributors, u64::from(target.vcpu.0)) {
            return Err(Cause::LpisOff);
        }
        Ok(target)
    }

    pub(crate) fn signal(
        &mut self,
        its: u8,
        dev: DeviceId,
        ev: EventId,
    ) -> Result<Reply, AllocError>
        ensures reply { IfOk result (λ r. r ≡ reply.Signal
            (answers.signal_reply (translation.translated self.old its dev.0 ev.0))) }
        ensures left { IfOk result (λ r. self.new ≡ answers.replied self.old r) }
    {
        match self.translate(its, dev, ev) {
            Ok(Target { vcpu, intid }) => {
                self.set_lpi(u64::from(vcpu.0), intid)?;
                Ok(Reply::Signal(Signal::Delivered { vcpu, intid }))
            }
            Err(cause) => Ok(Reply::Signal(Signal::Dropped(cause))),
        }
    }

    pub(crate) fn regs(&self, its: u8) -> Regs
        ensures { result ≡ plain.regs_of self.now its }
    {
        match self.translators.get(usize::from(its)) {
            Some(translator) => *translator.regs(),
            None => Regs::reset(16),
        }
    }

    // ---- pending LPIs

    pub(crate) fn set_lpi(&mut self, vcpu: u64, intid: Intid) -> Result<(), AllocError>
        ensures { OnOk result (self.new ≡ commands.lpi_set intid.0 vcpu self.old) }
    {
        redists::set_at(&mut self.redistributors, vcpu, intid.0)
    }

    pub(crate) fn clear_lpi(&mut self, vcpu: u64, intid: Intid)
        ensures { self.new ≡ commands.lpi_cleared intid.0 vcpu self.old }
    {
        redists::clear_at(&mut self.redistributors, vcpu, intid.0);
    }

    pub(crate) fn move_lpi(&mut self, from: u64, to: u64, intid: Intid) -> Result<(), AllocError>
        ensures { OnOk result (self.new ≡ commands.lpi_moved intid.0 from to self.old) }
    {
        if redists::is_pending_at(&self.redistributors, from, intid.0) {
            self.clear_lpi(from, intid);
            self.set_lpi(to, intid)?;
        }
        Ok(())
    }

    pub(crate) fn move_lpis(&mut self, from: u64, to: u64, intids: &[u32]) -> Result<(), AllocError>
        ensures { OnOk result (self.new ≡ commands.lpis_moved intids.now from to self.old) }
    {
        for intid in intids {
            self.move_lpi(from, to, Intid(*intid))?;
        }
        Ok(())
    }

    #[tactic(auto, unfolding(its_plain::specs::Commands::all_moved))]
    pub(crate) fn move_all(&mut self, alloc: Global, from: u64, to: u64) -> Result<(), AllocError>
        ensures { OnOk result (self.new ≡ commands.all_moved from to self.old) }
    {
        if from == to {
            return Ok(());
        }
        let pending = redists::take_all_at(alloc, &mut self.redistributors, from);
        redists::set_all_at(&mut self.redistributors, to, pending)
    }

    pub(crate) fn reread(&mut self, intids: &[u32])
        ensures { self.new ≡ commands.reread intids.now self.old }
    {
        redists::reread_each(&mut self.redistributors, self.memory.guest(), intids);
    }
}
