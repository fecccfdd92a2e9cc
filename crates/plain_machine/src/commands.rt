//! What each command does.
ghost use Rattle.std.specs.Prelude.{◌≡◌, ◌^◌, nat_lt};
ghost use Rattle.its_plain.specs.Commands as commands;
ghost use Rattle.its_plain.specs.declared.call.Reason.TheVariants as reasons;

use crate::mapped_entries::{MappedDevice, MappedEvent};
use crate::refusal::{CommandError, ensure};
use crate::state::State;
use crate::{redists, translator};
use baser_place::device_place;
use its_command::{Command, EventIdBits, IttAddr, RdBase};
use its_plain::Reason;
use its_types::{Addr, Device, DeviceId, Event, EventId, Icid, Intid, Profile, Vcpu, fits_bits};
use std::alloc::{AllocError, Global};

// An EventID of as many bits as the device's have.
fn ensure_has_event(device: MappedDevice, ev: EventId) -> Result<(), Reason>
    ensures { result ≡ commands.ensure (nat_lt ev.0 (2 ^ device.bits)) reasons.EventRange }
{
    ensure(fits_bits(ev.0, device.get().bits), Reason::EventRange)
}

impl State {
    ghost use Rattle.std.specs.Prelude.{◌≡◌, ◌≤◌, IfOk, OnOk};
    ghost use Rattle.its_types.specs.Maps as maps;
    ghost use Rattle.its_plain.specs.Plain as plain;
    ghost use Rattle.its_plain.specs.Commands as commands;
    ghost use Rattle.plain_machine.specs.Outcome.{Runs};

    // ---- look-ups

    #[tactic(auto, using(crate::proofs::Entries::no_device))]
    fn device(&self, its: u8, dev: DeviceId) -> Option<MappedDevice>
        ensures { result ≡ maps.device_of (plain.maps_of self.now its) dev.0 }
    {
        match self.translators.get(usize::from(its)) {
            Some(translator) => translator.maps().device(dev),
            None => None,
        }
    }

    #[tactic(auto, using(crate::proofs::Entries::no_event))]
    pub(crate) fn event(&self, its: u8, dev: DeviceId, ev: EventId) -> Option<MappedEvent>
        ensures { result ≡ maps.event_of (plain.maps_of self.now its) dev.0 ev.0 }
    {
        match self.translators.get(usize::from(its)) {
            Some(translator) => translator.maps().event(dev, ev),
            None => None,
        }
    }

    #[tactic(auto, using(crate::proofs::Entries::no_collection))]
    pub(crate) fn collection(&self, its: u8, icid: Icid) -> Option<Vcpu>
        ensures { result ≡ maps.collection_of (plain.maps_of self.now its) icid.0 }
    {
        match self.translators.get(usize::from(its)) {
            Some(translator) => translator.maps().collection(icid),
            None => None,
        }
    }

    pub(crate) fn is_on(&self, vcpu: u64) -> bool
        ensures { result ≡ plain.is_on self.now vcpu }
    {
        redists::is_on_at(&self.redistributors, vcpu)
    }

    // An event of a mapped device.
    #[tactic(auto, unfolding(its_plain::specs::Commands::event_at))]
    pub(crate) fn mapped_event_at(
        &self,
        its: u8,
        dev: DeviceId,
        ev: EventId,
    ) -> Result<MappedEvent, Reason>
        ensures { result ≡ commands.event_at (plain.maps_of self.now its) dev.0 ev.0 }
    {
        let device = self.device(its, dev).ok_or(Reason::NoDevice)?;
        ensure_has_event(device, ev)?;
        self.event(its, dev, ev).ok_or(Reason::NoEvent)
    }

    fn event_at(&self, its: u8, dev: DeviceId, ev: EventId) -> Result<Event, Reason>
        ensures { result ≡ commands.event_at (plain.maps_of self.now its) dev.0 ev.0 }
    {
        match self.mapped_event_at(its, dev, ev) {
            Ok(event) => Ok(event.get()),
            Err(reason) => Err(reason),
        }
    }

    // The target of a collection.
    pub(crate) fn target_at(&self, its: u8, icid: Icid) -> Result<Vcpu, Reason>
        ensures { result ≡ commands.target_at (plain.maps_of self.now its) icid.0 }
    {
        self.collection(its, icid).ok_or(Reason::NoCollection)
    }

    // ---- devices and collections

    #[tactic(auto, unfolding(its_plain::specs::Commands::mapd))]
    fn mapd(
        &mut self,
        its: u8,
        dev: DeviceId,
        bits: EventIdBits,
        itt: IttAddr,
    ) -> Result<(), CommandError>
        ensures { Runs self.old self.new result (commands.mapd self.old its dev.0 bits itt) }
    {
        let place = device_place(&self.regs(its), self.memory.guest(), dev);
        ensure(place.is_some(), Reason::DeviceRange)?;
        ensure(bits.get() <= 16, Reason::SizeRange)?;
        let device = Device {
            itt: Addr(itt.get()),
            bits: bits.get(),
        };
        translator::map_device(&mut self.translators, its, dev, device)?;
        Ok(())
    }

    #[tactic(auto, unfolding(its_plain::specs::Commands::unmapd))]
    fn unmapd(&mut self, its: u8, dev: DeviceId) -> Result<(), CommandError>
        ensures { Runs self.old self.new result (commands.unmapd self.old its dev.0) }
    {
        ensure(
            dev.in_range(self.layout.shape.dev_bits),
            Reason::DeviceRange,
        )?;
        translator::unmap_device(&mut self.translators, its, dev);
        Ok(())
    }

    #[tactic(auto, unfolding(its_plain::specs::Commands::mapc))]
    fn mapc(
        &mut self,
        alloc: Global,
        its: u8,
        icid: Icid,
        target: RdBase,
    ) -> Result<(), CommandError>
        ensures { Runs self.old self.new result (commands.mapc self.old its icid.0 target) }
    {
        let target = target.get();
        ensure(
            target < u64::from(self.layout.shape.vcpus),
            Reason::TargetRange,
        )?;
        ensure(
            u32::from(icid.0) < self.regs(its).collection_places(),
            Reason::CollectionRange,
        )?;
        self.follow(alloc, its, icid, target)?;
        translator::map_collection(&mut self.translators, its, icid, Vcpu(target as u16))?;
        Ok(())
    }

    // In profile 2 pending LPIs go with a mapped collection to its new target.
    fn follow(&mut self, alloc: Global, its: u8, icid: Icid, to: u64) -> Result<(), AllocError>
        ensures { OnOk result (self.new
            ≡ commands.followed_in self.old.layout.shape.profile self.old its icid.0
            (maps.collection_of (plain.maps_of self.old its) icid.0) to) }
    {
        if self.layout.shape.profile == Profile::One {
            return Ok(());
        }
        let Some(vcpu) = self.collection(its, icid) else {
            return Ok(());
        };
        let from = u64::from(vcpu.0);
        if from == to || !self.is_on(from) || !self.is_on(to) {
            return Ok(());
        }
        let intids = self.intids(alloc, its, icid)?;
        self.move_lpis(from, to, &intids)
    }

    #[tactic(auto, using(crate::proofs::Entries::no_intids))]
    fn intids(&self, alloc: Global, its: u8, icid: Icid) -> Result<Vec<u32>, AllocError>
        ensures { IfOk result
            (λ v. v.items ≡ commands.intids_of (plain.maps_of self.now its) icid.0) }
    {
        match self.translators.get(usize::from(its)) {
            Some(translator) => translator.maps().intids(alloc, icid),
            None => Ok(Vec::new(alloc)),
        }
    }

    fn unmapc(&mut self, its: u8, icid: Icid)
        ensures { self.new ≡ commands.unmapc self.old its icid.0 }
    {
        translator::unmap_collection(&mut self.translators, its, icid);
    }

    // ---- events

    #[tactic(auto, unfolding(its_plain::specs::Commands::mapti))]
    fn mapti(
        &mut self,
        its: u8,
        dev: DeviceId,
        ev: EventId,
        intid: Intid,
        icid: Icid,
    ) -> Result<(), CommandError>
        ensures { Runs self.old self.new result
            (commands.mapti self.old its dev.0 ev.0 intid.0 icid.0) }
    {
        let device = self.device(its, dev).ok_or(Reason::NoDevice)?;
        ensure_has_event(device, ev)?;
        ensure(
            intid.in_range(self.layout.shape.lpi_bits),
            Reason::IntidRange,
        )?;
        ensure(
            u32::from(icid.0) < self.regs(its).collection_places(),
            Reason::CollectionRange,
        )?;
        self.add_event(its, dev, ev, Event { intid, icid })?;
        Ok(())
    }

    // A mapped event stays as it is. A new one is mapped, and its LPI's configuration is read
    // again.
    fn add_event(
        &mut self,
        its: u8,
        dev: DeviceId,
        ev: EventId,
        event: Event,
    ) -> Result<(), AllocError>
        requires { 1 ≤ event.intid.0 }
        ensures { OnOk result (self.new ≡ commands.with_event self.old its dev.0 ev.0 event) }
    {
        if self.event(its, dev, ev).is_some() {
            return Ok(());
        }
        translator::map_event(&mut self.translators, its, dev, ev, event)?;
        self.reread(&[event.intid.0]);
        Ok(())
    }

    // The LPI of an event, and its target, whose LPIs are on.
    #[tactic(auto, unfolding(its_plain::specs::Commands::lpi_at))]
    fn lpi_at(&self, its: u8, dev: DeviceId, ev: EventId) -> Result<(Intid, Vcpu), Reason>
        ensures { result ≡ commands.lpi_at self.now its dev.0 ev.0 }
    {
        let event = self.event_at(its, dev, ev)?;
        let vcpu = self.target_at(its, event.icid)?;
        ensure(self.is_on(u64::from(vcpu.0)), Reason::LpisOff)?;
        Ok((event.intid, vcpu))
    }

    #[tactic(auto, unfolding(its_plain::specs::Commands::int))]
    fn int(&mut self, its: u8, dev: DeviceId, ev: EventId) -> Result<(), CommandError>
        ensures { Runs self.old self.new result (commands.int self.old its dev.0 ev.0) }
    {
        let (intid, vcpu) = self.lpi_at(its, dev, ev)?;
        self.set_lpi(u64::from(vcpu.0), intid)?;
        Ok(())
    }

    #[tactic(auto, unfolding(its_plain::specs::Commands::clear))]
    fn clear(&mut self, its: u8, dev: DeviceId, ev: EventId) -> Result<(), CommandError>
        ensures { Runs self.old self.new result (commands.clear self.old its dev.0 ev.0) }
    {
        let (intid, vcpu) = self.lpi_at(its, dev, ev)?;
        self.clear_lpi(u64::from(vcpu.0), intid);
        Ok(())
    }

    #[tactic(auto, unfolding(its_plain::specs::Commands::discard))]
    fn discard(&mut self, its: u8, dev: DeviceId, ev: EventId) -> Result<(), CommandError>
        ensures { Runs self.old self.new result (commands.discard self.old its dev.0 ev.0) }
    {
        let event = self.event_at(its, dev, ev)?;
        let target = self.collection(its, event.icid);
        translator::unmap_event(&mut self.translators, its, dev, ev);
        if let Some(vcpu) = target {
            self.clear_lpi(u64::from(vcpu.0), event.intid);
        }
        Ok(())
    }

    #[tactic(auto, unfolding(its_plain::specs::Commands::inv))]
    fn inv(&mut self, its: u8, dev: DeviceId, ev: EventId) -> Result<(), CommandError>
        ensures { Runs self.old self.new result (commands.inv self.old its dev.0 ev.0) }
    {
        let event = self.event_at(its, dev, ev)?;
        self.reread(&[event.intid.0]);
        Ok(())
    }

    #[tactic(auto, unfolding(its_plain::specs::Commands::invall))]
    fn invall(&mut self, alloc: Global, its: u8, icid: Icid) -> Result<(), CommandError>
        ensures { Runs self.old self.new result (commands.invall self.old its icid.0) }
    {
        self.target_at(its, icid)?;
        let intids = self.intids(alloc, its, icid)?;
        self.reread(&intids);
        Ok(())
    }

    // ---- all commands

    #[tactic(auto, unfolding(its_plain::specs::Commands::ran))]
    pub(crate) fn run(
        &mut self,
        alloc: Global,
        its: u8,
        command: &Command,
    ) -> Result<(), CommandError>
        ensures { Runs self.old self.new result (commands.ran self.old its command.now) }
    {
        match *command {
            Command::Movi { dev, ev, icid } => self.movi(its, dev, ev, icid),
            Command::Int { dev, ev } => self.int(its, dev, ev),
            Command::Clear { dev, ev } => self.clear(its, dev, ev),
            Command::Sync { .. } => Ok(()),
            Command::Mapd {
                dev,
                bits,
                itt,
                valid: true,
            } => self.mapd(its, dev, bits, itt),
            Command::Mapd { dev, .. } => self.unmapd(its, dev),
            Command::Mapc {
                icid,
                target,
                valid: true,
            } => self.mapc(alloc, its, icid, target),
            Command::Mapc { icid, .. } => {
                self.unmapc(its, icid);
                Ok(())
            }
            Command::Mapti {
                dev,
                ev,
                intid,
                icid,
            } => self.mapti(its, dev, ev, intid, icid),
            Command::Mapi { dev, ev, icid } => self.mapti(its, dev, ev, Intid(ev.0), icid),
            Command::Inv { dev, ev } => self.inv(its, dev, ev),
            Command::Invall { icid } => self.invall(alloc, its, icid),
            Command::Movall { from, to } => self.movall(alloc, from, to),
            Command::Discard { dev, ev } => self.discard(its, dev, ev),
            Command::Unknown(_) => Err(CommandError::Refused(Reason::UnknownCommand)),
        }
    }
}
