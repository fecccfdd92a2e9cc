//! How much a guest may take.
ghost use Rattle.std.specs.Prelude.{◌≡◌};
ghost use Rattle.cmd_exec.specs.Room as room;
ghost use Rattle.its_numbers.specs.Descriptions as spec;
ghost use Rattle.its_numbers.specs.Limits as limits;
ghost use Rattle.step_views.specs.Counts as counts;

use crate::numbers::DescriptionIn;
use its_command::Command;
use its_maps::{LookUp, Maps};
use its_types::{DeviceId, EventId};

/// How much a guest may take. At 2^64 - 1 there is no limit. Events and devices are counted for
/// each translator by itself.
#[derive(Clone, Copy)]
pub struct GuestLimits {
    /// How many events a translator may map.
    pub events: u64,
    /// How many devices a translator may map.
    pub devices: u64,
    /// How many bytes of guest memory may be held, in pages of 64 KiB.
    pub memory: u64,
}

/// The limits that a description gives.
pub fn guest_limits(numbers: &DescriptionIn) -> GuestLimits
    ensures { result ≡ spec.guest_limits_of numbers.now }
{
    GuestLimits {
        events: numbers.event_limit,
        devices: numbers.device_limit,
        memory: numbers.memory_limit,
    }
}

impl GuestLimits {
    ghost use Rattle.std.specs.Prelude.{◌≡◌};
    ghost use Rattle.its_numbers.specs.Limits as limits;

    /// Whether a command that isn't refused would map an event or a device that isn't mapped, where
    /// as many are mapped as may be, or more. Only at a limit is the command looked at.
    #[tactic(auto, unfolding(crate::specs::Limits::forbids))]
    pub fn forbids(&self, maps: &Maps, command: &Command) -> bool
        ensures { result ≡ limits.forbids self.now maps.now.maps command.now }
    {
        is_at(self.events, maps.event_count()) && maps_event(maps, command)
            || is_at(self.devices, u64::from(maps.device_count())) && maps_device(maps, command)
    }
}

/// Whether there are as many as may be, or more.
pub fn is_at(limit: u64, count: u64) -> bool
    ensures { result ≡ limits.is_at limit count }
{
    limit != u64::MAX && count >= limit
}

/// Whether there are more than may be.
pub fn is_past(limit: u64, count: u64) -> bool
    ensures { result ≡ limits.is_past limit count }
{
    limit != u64::MAX && count > limit
}

// It maps a device that isn't mapped, if it isn't refused.
#[tactic(auto, unfolding(step_views::specs::Counts::maps_device))]
fn maps_device(maps: &Maps, command: &Command) -> bool
    ensures { result ≡ counts.maps_device maps.now.maps command.now }
{
    match *command {
        Command::Mapd { dev, valid, .. } => valid && maps.device(dev).is_none(),
        _ => false,
    }
}

// It maps an event of a mapped device that isn't mapped, if it isn't refused.
#[tactic(auto, unfolding(step_views::specs::Counts::maps_event))]
fn maps_event(maps: &Maps, command: &Command) -> bool
    ensures { result ≡ counts.maps_event maps.now.maps command.now }
{
    match *command {
        Command::Mapti { dev, ev, .. } => is_unmapped(maps, dev, ev),
        Command::Mapi { dev, ev, .. } => is_unmapped(maps, dev, ev),
        _ => false,
    }
}

// The device is mapped, and the event isn't.
fn is_unmapped(maps: &Maps, dev: DeviceId, ev: EventId) -> bool
    ensures { result ≡ room.adds_event maps.now.maps dev.0 ev.0 }
{
    match maps.look_up(dev, ev) {
        LookUp::NoEvent(_) => true,
        LookUp::NoDevice | LookUp::Mapped(..) => false,
    }
}
