//! What a pass sees of the machine's state, each turn that it needs tried once. None is a call of
//! the history.
ghost use Rattle.std.specs.Prelude.{◌≡◌};

use crate::event_look::try_event;
use crate::mapped_looks::{try_collections, try_devices, try_mappings};
use crate::needs_look::try_needs;
use crate::pending_look::try_pending;
use crate::port::Port;
use crate::stored_look::try_stored;
use crate::unseen::Unseen;
use crate::written_look::try_written;
use its_numbers::{
    CollectionOut, DeviceOut, EventOut, MappingOut, RedistributorIn, StretchOut, event_out,
};
use its_types::{DeviceId, EventId, Placed, Vcpu};
use std::alloc::Global;

impl Port {
    ghost use Rattle.std.specs.Prelude.{◌≡◌, true, OnErr};
    ghost use Rattle.its_numbers.specs.Events.{event_out};
    ghost use Rattle.its_numbers.specs.Mapped.{collections_from, devices_from, mappings_from};
    ghost use Rattle.its_numbers.specs.Stored.{stored};
    ghost use Rattle.its_plain.specs.Plain.{maps_of, pending_of};
    ghost use Rattle.its_shared.specs.Besides.{needed};
    ghost use Rattle.its_shared.specs.Knowing as spec;
    ghost use Rattle.its_shared.specs.Seeing.{ListsAll, ListsFirst, ListsNumbers, Sees, written};
    ghost use Rattle.step_views.specs.Destinations.{destination};

    /// Where an event leads by a translator.
    pub fn event(&mut self, its: u8, device: u32, event: u32) -> Result<Placed<EventOut>, Unseen>
        requires { spec.has_translator self.old its ≡ true }
        ensures beside { spec.beside self.new ≡ spec.beside self.old }
        ensures seen { Sees ⊥ (λ u x. x ≡ event_out (destination u its device event))
            self.old.view self.new.view result }
    {
        let seen = match try_event(
            &self.machine,
            &mut self.pass,
            its,
            DeviceId(device),
            EventId(event),
        ) {
            Ok(seen) => seen,
            Err(unseen) => return Err(unseen),
        };
        Ok(Placed {
            place: seen.place,
            reply: event_out(seen.reply),
        })
    }

    /// The LPIs that are pending at a virtual processor.
    pub fn pending(
        &mut self,
        alloc: Global,
        vcpu: u16,
        list: &mut [u32],
    ) -> Result<Placed<u64>, Unseen>
        requires { spec.has_vcpu self.old vcpu ≡ true }
        ensures beside { spec.beside self.new ≡ spec.beside self.old }
        ensures seen { Sees (Unit {0}) (λ u n. ListsNumbers (pending_of u vcpu) list.old list.new n)
            self.old.view self.new.view result }
        ensures only { OnErr result (list.new ≡ list.old) }
    {
        try_pending(alloc, &self.machine, &mut self.pass, Vcpu(vcpu), list)
    }

    /// What the LPI registers of a virtual processor are restored from.
    pub fn stored_lpi_registers(&mut self, vcpu: u16) -> Result<Placed<RedistributorIn>, Unseen>
        requires { spec.has_vcpu self.old vcpu ≡ true }
        ensures beside { spec.beside self.new ≡ spec.beside self.old }
        ensures seen { Sees ⊥ (λ u r. r ≡ stored u vcpu) self.old.view self.new.view result }
    {
        try_stored(&self.machine, &mut self.pass, Vcpu(vcpu))
    }

    /// The tables that a save writes.
    pub fn written(&mut self, alloc: Global, list: &mut [StretchOut]) -> Result<Placed<u64>, Unseen>
        ensures beside { spec.beside self.new ≡ spec.beside self.old }
        ensures seen { Sees (Unit {0}) (λ u n. ListsAll (written u) list.old list.new n)
            self.old.view self.new.view result }
        ensures only { OnErr result (list.new ≡ list.old) }
    {
        try_written(alloc, &self.machine, &mut self.pass, list)
    }

    /// The stretches of guest memory that the next step of a translator reads.
    pub fn needs(
        &mut self,
        alloc: Global,
        its: u8,
        list: &mut [StretchOut],
    ) -> Result<Placed<u64>, Unseen>
        requires { spec.has_translator self.old its ≡ true }
        ensures beside { spec.beside self.new ≡ spec.beside self.old }
        ensures seen { Sees (Unit {0}) (λ u n. ListsAll (needed its u) list.old list.new n)
            self.old.view self.new.view result }
        ensures only { OnErr result (list.new ≡ list.old) }
    {
        try_needs(alloc, &self.machine, &mut self.pass, its, list)
    }

    /// The mapped devices of a translator from a DeviceID on.
    pub fn devices(
        &mut self,
        its: u8,
        from: u32,
        list: &mut [DeviceOut],
    ) -> Result<Placed<u64>, Unseen>
        requires { spec.has_translator self.old its ≡ true }
        ensures beside { spec.beside self.new ≡ spec.beside self.old }
        ensures seen { Sees ⊥
            (λ u n. ListsFirst (devices_from (maps_of u its) from) list.old list.new n)
            self.old.view self.new.view result }
        ensures only { OnErr result (list.new ≡ list.old) }
    {
        try_devices(&self.machine, &mut self.pass, its, from, list)
    }

    /// The mapped events of a device from an EventID on.
    pub fn mappings(
        &mut self,
        its: u8,
        device: u32,
        from: u32,
        list: &mut [MappingOut],
    ) -> Result<Placed<u64>, Unseen>
        requires { spec.has_translator self.old its ≡ true }
        ensures beside { spec.beside self.new ≡ spec.beside self.old }
        ensures seen { Sees ⊥
            (λ u n. ListsFirst (mappings_from (maps_of u its) device from) list.old list.new n)
            self.old.view self.new.view result }
        ensures only { OnErr result (list.new ≡ list.old) }
    {
        try_mappings(&self.machine, &mut self.pass, its, device, from, list)
    }

    /// The mapped collections of a translator from a number on.
    pub fn collections(
        &mut self,
        its: u8,
        from: u32,
        list: &mut [CollectionOut],
    ) -> Result<Placed<u64>, Unseen>
        requires { spec.has_translator self.old its ≡ true }
        ensures beside { spec.beside self.new ≡ spec.beside self.old }
        ensures seen { Sees ⊥
            (λ u n. ListsFirst (collections_from (maps_of u its) from) list.old list.new n)
            self.old.view self.new.view result }
        ensures only { OnErr result (list.new ≡ list.old) }
    {
        try_collections(&self.machine, &mut self.pass, its, from, list)
    }
}
