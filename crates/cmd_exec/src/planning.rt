//! The outcome of a command: its first refusal, or its effect. Nothing is changed.
ghost use Rattle.std.specs.Prelude.{◌≡◌, ◌<◌, true, is_some, IfOk};
ghost use Rattle.its_types.specs.Maps as maps;
ghost use Rattle.its_plain.specs.Commands as commands;
ghost use Rattle.lpi_pending.specs.InHand.{pend_in};
ghost use Rattle.cmd_exec.specs.InHand.{is_on_in};
ghost use Rattle.cmd_exec.specs.Effects as effects;
ghost use Rattle.cmd_exec.specs.Needs.{AreNeededInHand};
ghost use Rattle.cmd_exec.specs.Ready.{IsTargetInHand, AreBothInHand, AreTargetsInHand};
ghost use Rattle.its_plain.specs.Parts.{target_of_event};

use crate::effect::Effect;
use baser_place::device_place;
use gits_regs::Regs;
use guest_windows::Memory;
use its_command::{Command, EventIdBits, IttAddr, RdBase};
use its_maps::{LookUp, Maps};
use its_plain::Reason;
use its_types::{
    Addr, Device, DeviceId, Event, EventId, Icid, Intid, Profile, Shape, Vcpu, fits_bits,
};
use lpi_pending::Redists;

/// The parts that a command reads.
#[derive(Clone, Copy)]
pub struct InHand<'a> {
    /// The registers of the translator.
    pub regs: &'a Regs,
    /// What is mapped.
    pub maps: &'a Maps,
    /// Guest memory, for the first level of the device table.
    pub memory: &'a Memory,
    /// Those that the command needs are in hand.
    pub redists: &'a Redists,
    /// How large the machine is.
    pub shape: &'a Shape,
}

// The refusal, unless the test holds.
fn ensure(test: bool, reason: Reason) -> Result<(), Reason>
    ensures { result ≡ commands.ensure test reason }
{
    if test { Ok(()) } else { Err(reason) }
}

impl<'a> InHand<'a> {
    fn is_on(&self, vcpu: Vcpu) -> bool
        requires { is_some (pend_in self.now.redists.now vcpu.0) ≡ true }
        ensures { result ≡ is_on_in self.now.redists.now vcpu.0 }
    {
        self.redists.pend(vcpu).accepts()
    }

    // A device and an event of it, where they are mapped.
    fn find(&self, dev: DeviceId, ev: EventId) -> (Option<Device>, Option<Event>)
        ensures device { result.0 ≡ maps.device_of self.now.maps.now.maps dev.0 }
        ensures event { result.1 ≡ maps.event_of self.now.maps.now.maps dev.0 ev.0 }
    {
        match self.maps.look_up(dev, ev) {
            LookUp::NoDevice => (None, None),
            LookUp::NoEvent(device) => (Some(device), None),
            LookUp::Mapped(device, event) => (Some(device), Some(event)),
        }
    }

    // An event of a mapped device.
    #[tactic(auto, using(crate::proofs::Opened::event_at_is))]
    fn event_at(&self, dev: DeviceId, ev: EventId) -> Result<Event, Reason>
        ensures value { result ≡ commands.event_at self.now.maps.now.maps dev.0 ev.0 }
        ensures target { IfOk result (λ e.
            target_of_event self.now.maps.now.maps dev.0 ev.0
            ≡ maps.collection_of self.now.maps.now.maps e.icid.0) }
    {
        let (device, event) = self.find(dev, ev);
        let device = device.ok_or(Reason::NoDevice)?;
        ensure(fits_bits(ev.0, device.bits), Reason::EventRange)?;
        event.ok_or(Reason::NoEvent)
    }

    // The target of a collection.
    fn target_at(&self, icid: Icid) -> Result<Vcpu, Reason>
        ensures { result ≡ commands.target_at self.now.maps.now.maps icid.0 }
    {
        self.maps.collection(icid).ok_or(Reason::NoCollection)
    }

    // ---- devices and collections

    #[tactic(auto, unfolding(crate::specs::Effects::mapd))]
    fn mapd(&self, dev: DeviceId, bits: EventIdBits, itt: IttAddr) -> Result<Effect, Reason>
        ensures { result ≡ effects.mapd self.now.regs.now self.now.memory.now dev bits itt }
    {
        let place = device_place(self.regs, self.memory, dev);
        ensure(place.is_some(), Reason::DeviceRange)?;
        ensure(bits.get() <= 16, Reason::SizeRange)?;
        let device = Device {
            itt: Addr(itt.get()),
            bits: bits.get(),
        };
        Ok(Effect::MapDevice { dev, device })
    }

    #[tactic(auto, unfolding(crate::specs::Effects::unmapd))]
    fn unmapd(&self, dev: DeviceId) -> Result<Effect, Reason>
        ensures { result ≡ effects.unmapd self.now.shape.now dev }
    {
        ensure(dev.in_range(self.shape.dev_bits), Reason::DeviceRange)?;
        Ok(Effect::UnmapDevice { dev })
    }

    #[tactic(auto, unfolding(crate::specs::Effects::mapc))]
    fn mapc(&self, icid: Icid, target: RdBase) -> Result<Effect, Reason>
        requires { target < self.now.shape.now.vcpus →
            AreTargetsInHand self.now.redists.now self.now.shape.now.profile
            (maps.collection_of self.now.maps.now.maps icid.0) target }
        ensures { result
            ≡ effects.mapc self.now.shape.now self.now.regs.now self.now.maps.now.maps
            self.now.redists.now icid target }
    {
        ensure(
            target.get() < u64::from(self.shape.vcpus),
            Reason::TargetRange,
        )?;
        let placed = u32::from(icid.0) < self.regs.collection_places();
        ensure(placed, Reason::CollectionRange)?;
        Ok(self.targeted(icid, Vcpu(target.get() as u16)))
    }

    // In profile 2 pending LPIs go with a mapped collection to its new target.
    fn targeted(&self, icid: Icid, to: Vcpu) -> Effect
        requires { AreTargetsInHand self.now.redists.now self.now.shape.now.profile
            (maps.collection_of self.now.maps.now.maps icid.0) to.0 }
        ensures { result
            ≡ effects.targeted self.now.shape.now.profile self.now.redists.now icid
            (maps.collection_of self.now.maps.now.maps icid.0) to }
    {
        let mapped = Effect::MapCollection { icid, vcpu: to };
        if self.shape.profile == Profile::One {
            return mapped;
        }
        match self.maps.collection(icid) {
            Some(from) if from != to && self.is_on(from) && self.is_on(to) => {
                Effect::MoveCollection { icid, from, to }
            }
            _ => mapped,
        }
    }

    // ---- events

    #[tactic(auto, unfolding(crate::specs::Effects::mapti))]
    fn mapti(&self, dev: DeviceId, ev: EventId, event: Event) -> Result<Effect, Reason>
        ensures { result
            ≡ effects.mapti self.now.shape.now self.now.regs.now self.now.maps.now.maps dev ev
            event.intid event.icid }
    {
        let (device, mapped) = self.find(dev, ev);
        let device = device.ok_or(Reason::NoDevice)?;
        ensure(fits_bits(ev.0, device.bits), Reason::EventRange)?;
        ensure(
            event.intid.in_range(self.shape.lpi_bits),
            Reason::IntidRange,
        )?;
        let placed = u32::from(event.icid.0) < self.regs.collection_places();
        ensure(placed, Reason::CollectionRange)?;
        Ok(match mapped {
            Some(_) => Effect::Nothing,
            None => Effect::MapEvent { dev, ev, event },
        })
    }

    #[tactic(auto, unfolding(crate::specs::Effects::movi))]
    fn movi(&self, dev: DeviceId, ev: EventId, icid: Icid) -> Result<Effect, Reason>
        requires from { IsTargetInHand self.now.redists.now
            (target_of_event self.now.maps.now.maps dev.0 ev.0) }
        requires to { IsTargetInHand self.now.redists.now
            (maps.collection_of self.now.maps.now.maps icid.0) }
        ensures { result ≡ effects.movi self.now.maps.now.maps self.now.redists.now dev ev icid }
    {
        let event = self.event_at(dev, ev)?;
        let from = self.target_at(event.icid)?;
        let to = self.target_at(icid)?;
        ensure(self.is_on(from) && self.is_on(to), Reason::LpisOff)?;
        Ok(Effect::MoveEvent {
            dev,
            ev,
            intid: event.intid,
            icid,
            from,
            to,
        })
    }

    // The LPI of an event, and its target, whose LPIs are on.
    #[tactic(auto, unfolding(crate::specs::Effects::lpi_at))]
    fn lpi_at(&self, dev: DeviceId, ev: EventId) -> Result<(Intid, Vcpu), Reason>
        requires { IsTargetInHand self.now.redists.now
            (target_of_event self.now.maps.now.maps dev.0 ev.0) }
        ensures { result ≡ effects.lpi_at self.now.maps.now.maps self.now.redists.now dev ev }
    {
        let event = self.event_at(dev, ev)?;
        let vcpu = self.target_at(event.icid)?;
        ensure(self.is_on(vcpu), Reason::LpisOff)?;
        Ok((event.intid, vcpu))
    }

    #[tactic(auto, unfolding(crate::specs::Effects::int))]
    fn int(&self, dev: DeviceId, ev: EventId) -> Result<Effect, Reason>
        requires { IsTargetInHand self.now.redists.now
            (target_of_event self.now.maps.now.maps dev.0 ev.0) }
        ensures { result ≡ effects.int self.now.maps.now.maps self.now.redists.now dev ev }
    {
        let (intid, vcpu) = self.lpi_at(dev, ev)?;
        Ok(Effect::SetLpi { intid, vcpu })
    }

    #[tactic(auto, unfolding(crate::specs::Effects::clear))]
    fn clear(&self, dev: DeviceId, ev: EventId) -> Result<Effect, Reason>
        requires { IsTargetInHand self.now.redists.now
            (target_of_event self.now.maps.now.maps dev.0 ev.0) }
        ensures { result ≡ effects.clear self.now.maps.now.maps self.now.redists.now dev ev }
    {
        let (intid, vcpu) = self.lpi_at(dev, ev)?;
        Ok(Effect::ClearLpi { intid, vcpu })
    }

    #[tactic(auto, unfolding(crate::specs::Effects::discard))]
    fn discard(&self, dev: DeviceId, ev: EventId) -> Result<Effect, Reason>
        ensures { result ≡ effects.discard self.now.maps.now.maps dev ev }
    {
        let event = self.event_at(dev, ev)?;
        Ok(Effect::UnmapEvent {
            dev,
            ev,
            intid: event.intid,
            target: self.maps.collection(event.icid),
        })
    }

    // ---- configurations and redistributors

    #[tactic(auto, unfolding(crate::specs::Effects::inv))]
    fn inv(&self, dev: DeviceId, ev: EventId) -> Result<Effect, Reason>
        ensures { result ≡ effects.inv self.now.maps.now.maps dev ev }
    {
        let event = self.event_at(dev, ev)?;
        Ok(Effect::Reread { intid: event.intid })
    }

    #[tactic(auto, unfolding(crate::specs::Effects::invall))]
    fn invall(&self, icid: Icid) -> Result<Effect, Reason>
        ensures { result ≡ effects.invall self.now.maps.now.maps icid }
    {
        self.target_at(icid)?;
        Ok(Effect::RereadCollection { icid })
    }

    #[tactic(auto, unfolding(crate::specs::Effects::movall))]
    fn movall(&self, from: RdBase, to: RdBase) -> Result<Effect, Reason>
        requires { from < self.now.shape.now.vcpus → to < self.now.shape.now.vcpus →
            AreBothInHand self.now.redists.now from to }
        ensures { result ≡ effects.movall self.now.shape.now self.now.redists.now from to }
    {
        let (from, to) = (from.get(), to.get());
        let vcpus = u64::from(self.shape.vcpus);
        ensure(from < vcpus && to < vcpus, Reason::TargetRange)?;
        let (from, to) = (Vcpu(from as u16), Vcpu(to as u16));
        ensure(self.is_on(from) && self.is_on(to), Reason::LpisOff)?;
        Ok(Effect::MoveAll { from, to })
    }

    // ---- all commands

    /// The command's effect on these parts, or the first reason to refuse it (IHI 0069, section
    /// 5.3).
    #[tactic(auto, unfolding(crate::specs::Effects::planned))]
    pub fn plan(&self, command: &Command) -> Result<Effect, Reason>
        requires { AreNeededInHand self.now.shape.now self.now.maps.now.maps command.now
            self.now.redists.now }
        ensures { result
            ≡ effects.planned self.now.shape.now self.now.regs.now self.now.maps.now.maps
            self.now.memory.now self.now.redists.now command.now }
    {
        match *command {
            Command::Movi { dev, ev, icid } => self.movi(dev, ev, icid),
            Command::Int { dev, ev } => self.int(dev, ev),
            Command::Clear { dev, ev } => self.clear(dev, ev),
            Command::Sync { .. } => Ok(Effect::Nothing),
            Command::Mapd {
                dev,
                bits,
                itt,
                valid,
            } => {
                if valid {
                    self.mapd(dev, bits, itt)
                } else {
                    self.unmapd(dev)
                }
            }
            Command::Mapc {
                icid,
                target,
                valid,
            } => {
                if valid {
                    self.mapc(icid, target)
                } else {
                    Ok(Effect::UnmapCollection { icid })
                }
            }
            Command::Mapti {
                dev,
                ev,
                intid,
                icid,
            } => self.mapti(dev, ev, Event { intid, icid }),
            Command::Mapi { dev, ev, icid } => {
                let intid = Intid(ev.0);
                self.mapti(dev, ev, Event { intid, icid })
            }
            Command::Inv { dev, ev } => self.inv(dev, ev),
            Command::Invall { icid } => self.invall(icid),
            Command::Movall { from, to } => self.movall(from, to),
            Command::Discard { dev, ev } => self.discard(dev, ev),
            Command::Unknown(_) => Err(Reason::UnknownCommand),
        }
    }
}
