//! The commands that move LPIs from one virtual processor to another.
use crate::mapped_entries::MappedEvent;
use crate::refusal::{CommandError, ensure};
use crate::state::State;
use crate::translator;
use its_command::RdBase;
use its_plain::Reason;
use its_types::{DeviceId, Event, EventId, Icid, Vcpu};
use std::alloc::{AllocError, Global};

impl State {
    ghost use Rattle.std.specs.Prelude.{◌≡◌, IfOk, IfErr, OnOk, Ok, Err};
    ghost use Rattle.its_types.specs.Maps as maps;
    ghost use Rattle.its_plain.specs.Plain as plain;
    ghost use Rattle.its_plain.specs.Commands as commands;
    ghost use Rattle.plain_machine.specs.Outcome.{Runs};

    pub(crate) fn movi(
        &mut self,
        its: u8,
        dev: DeviceId,
        ev: EventId,
        icid: Icid,
    ) -> Result<(), CommandError>
        ensures { Runs self.old self.new result (commands.movi self.old its dev.0 ev.0 icid.0) }
    {
        let (moved, from, to) = self.move_of(its, dev, ev, icid)?;
        self.put_moved(its, dev, ev, moved, from, to)?;
        Ok(())
    }

    // The event as it is after the move, its target and the new one.
    #[tactic(auto, unfolding(its_plain::specs::Commands::movi))]
    fn move_of(
        &self,
        its: u8,
        dev: DeviceId,
        ev: EventId,
        icid: Icid,
    ) -> Result<(MappedEvent, Vcpu, Vcpu), Reason>
        ensures moved { IfOk result (λ r. commands.movi self.now its dev.0 ev.0 icid.0
            ≡ Ok (commands.lpi_moved r.0.intid.0 r.1.0 r.2.0 (plain.with_maps self.now its
            (maps.event_mapped (plain.maps_of self.now its) dev.0 ev.0 r.0)))) }
        ensures refused { IfErr result
            (λ e. commands.movi self.now its dev.0 ev.0 icid.0 ≡ Err e) }
    {
        let event = self.mapped_event_at(its, dev, ev)?.get();
        let from = self.target_at(its, event.icid)?;
        let to = self.target_at(its, icid)?;
        let are_on = self.is_on(u64::from(from.0)) && self.is_on(u64::from(to.0));
        ensure(are_on, Reason::LpisOff)?;
        let moved = Event {
            intid: event.intid,
            icid,
        };
        Ok((MappedEvent::new(moved), from, to))
    }

    // Its LPI goes along, if it is pending.
    fn put_moved(
        &mut self,
        its: u8,
        dev: DeviceId,
        ev: EventId,
        moved: MappedEvent,
        from: Vcpu,
        to: Vcpu,
    ) -> Result<(), AllocError>
        ensures { OnOk result (self.new
            ≡ commands.lpi_moved moved.intid.0 from.0 to.0 (plain.with_maps self.old its
            (maps.event_mapped (plain.maps_of self.old its) dev.0 ev.0 moved))) }
    {
        let event = moved.get();
        translator::map_event(&mut self.translators, its, dev, ev, event)?;
        self.move_lpi(u64::from(from.0), u64::from(to.0), event.intid)
    }

    #[tactic(auto, unfolding(its_plain::specs::Commands::movall))]
    pub(crate) fn movall(
        &mut self,
        alloc: Global,
        from: RdBase,
        to: RdBase,
    ) -> Result<(), CommandError>
        ensures { Runs self.old self.new result (commands.movall self.old from to) }
    {
        let (from, to) = (from.get(), to.get());
        let vcpus = u64::from(self.layout.shape.vcpus);
        ensure(from < vcpus && to < vcpus, Reason::TargetRange)?;
        ensure(self.is_on(from) && self.is_on(to), Reason::LpisOff)?;
        self.move_all(alloc, from, to)?;
        Ok(())
    }
}
