//! Devices and events as they can be mapped: each has an entry that a saved table can hold.
ghost use Rattle.std.specs.Prelude.{◌≡◌, ◌≤◌};
ghost use Rattle.plain_machine.specs.Mapped.{HasTable};

use its_types::{Device, Event};
use std::marker::Model;

/// A device with 1 to 16 EventID bits, whose interrupt translation table stands at a multiple of
/// 256 below 2^52.
#[derive(Clone, Copy, Debug, PartialEq, Eq)]
pub struct MappedDevice {
    device: Device,
}

impl Model for MappedDevice {
    ghost use Rattle.its_types.specs.declared.translation.Device.{Device};
    ghost use Rattle.its_types.specs.Maps.{device_code};
    ghost use Rattle.plain_machine.specs.Mapped.{HasTable};

    ghost Value = { Device };

    ghost coded = { device_code };

    ghost view = { λ m. m.device };

    ghost invariant = { λ m. HasTable m.device };

    ghost inverse = { λ d. record { device = d } };
}

impl MappedDevice {
    /// A device that has a table.
    pub fn new(device: Device) -> MappedDevice
        requires { HasTable device }
        ensures { result ≡ device }
    {
        MappedDevice { device }
    }

    /// The device.
    pub fn get(&self) -> Device
        ensures same { result ≡ self.now }
        ensures table { HasTable result }
    {
        self.device
    }
}

/// An event whose interrupt isn't zero.
#[derive(Clone, Copy, Debug, PartialEq, Eq)]
pub struct MappedEvent {
    event: Event,
}

impl Model for MappedEvent {
    ghost use Rattle.std.specs.Prelude.{◌≤◌};
    ghost use Rattle.its_types.specs.declared.translation.Event.{Event};
    ghost use Rattle.its_types.specs.Maps.{event_code};

    ghost Value = { Event };

    ghost coded = { event_code };

    ghost view = { λ m. m.event };

    ghost invariant = { λ m. 1 ≤ m.event.intid.0 };

    ghost inverse = { λ e. record { event = e } };
}

impl MappedEvent {
    /// An event whose INTID isn't 0.
    pub fn new(event: Event) -> MappedEvent
        requires { 1 ≤ event.intid.0 }
        ensures { result ≡ event }
    {
        MappedEvent { event }
    }

    /// The event.
    pub fn get(&self) -> Event
        ensures same { result ≡ self.now }
        ensures some_intid { 1 ≤ result.intid.0 }
    {
        self.event
    }
}
