//! How often signals went where, and commands were refused for which reason.
ghost use Rattle.std.specs.Prelude.{◌≡◌};
ghost use Rattle.its_numbers.specs.Counters as spec;

use its_plain::{Cause, Reason, Reply, Signal, StepReply};

/// How many signals went where, by `cause` of `SignalOut`. A count stays at 2^64 - 1.
#[repr(C)]
#[derive(Clone, Copy)]
pub struct SignalCounts {
    /// The LPI is pending: cause 0.
    pub delivered: u64,
    /// The translator was not enabled: cause 1.
    pub disabled: u64,
    /// The device was not mapped: cause 2.
    pub no_device: u64,
    /// The event was not mapped: cause 3.
    pub no_event: u64,
    /// The event's collection was not mapped: cause 4.
    pub no_collection: u64,
    /// The target's LPIs were off: cause 5.
    pub lpis_off: u64,
}

/// How many commands were refused, by `reason` of `StepOut`. A count stays at 2^64 - 1.
#[repr(C)]
#[derive(Clone, Copy)]
pub struct RefusedCounts {
    /// Unknown commands: reason 1.
    pub unknown_command: u64,
    /// A DeviceID was out of range: reason 2.
    pub device_range: u64,
    /// A size was: reason 3.
    pub size_range: u64,
    /// A target was: reason 4.
    pub target_range: u64,
    /// A collection was: reason 5.
    pub collection_range: u64,
    /// The device was not mapped: reason 6.
    pub no_device: u64,
    /// An EventID was out of range: reason 7.
    pub event_range: u64,
    /// An INTID was: reason 8.
    pub intid_range: u64,
    /// The event was not mapped: reason 9.
    pub no_event: u64,
    /// The collection was not mapped: reason 10.
    pub no_collection: u64,
    /// The target's LPIs were off: reason 11.
    pub lpis_off: u64,
}

/// What is counted of the calls of a machine, or of a pass.
#[repr(C)]
#[derive(Clone, Copy)]
pub struct Counters {
    /// Signals, and writes by address that are messages.
    pub signals: SignalCounts,
    /// Commands that were refused.
    pub refused: RefusedCounts,
}

impl Counters {
    ghost use Rattle.std.specs.Prelude.{◌≡◌};
    ghost use Rattle.its_numbers.specs.Counters as spec;

    /// Before the first call.
    pub fn new() -> Counters
        ensures { result ≡ spec.none_counted }
    {
        Counters {
            signals: SignalCounts {
                delivered: 0,
                disabled: 0,
                no_device: 0,
                no_event: 0,
                no_collection: 0,
                lpis_off: 0,
            },
            refused: RefusedCounts {
                unknown_command: 0,
                device_range: 0,
                size_range: 0,
                target_range: 0,
                collection_range: 0,
                no_device: 0,
                event_range: 0,
                intid_range: 0,
                no_event: 0,
                no_collection: 0,
                lpis_off: 0,
            },
        }
    }

    /// A signal was answered so.
    pub fn count_signal(&mut self, signal: Signal)
        ensures { self.new ≡ spec.count_signal signal self.old }
    {
        self.signals.count(signal);
    }

    /// A step was answered so: a command that was refused counts.
    pub fn count_step(&mut self, reply: StepReply)
        ensures { self.new ≡ spec.count_step reply self.old }
    {
        match reply {
            StepReply::Refused(_, reason) => self.refused.count(reason),
            StepReply::Idle | StepReply::Ran(_) | StepReply::QueueFault(_) => {}
        }
    }

    /// A call was answered so: a signal counts, and a command that was refused.
    pub fn count_reply(&mut self, reply: &Reply)
        ensures { self.new ≡ spec.count_reply reply.now self.old }
    {
        match *reply {
            Reply::Signal(signal) => self.count_signal(signal),
            Reply::Step(step) => self.count_step(step),
            _ => {}
        }
    }
}

impl SignalCounts {
    ghost use Rattle.std.specs.Prelude.{◌≡◌};
    ghost use Rattle.its_numbers.specs.Counters as spec;

    fn count(&mut self, signal: Signal)
        ensures { self.new ≡ spec.counted_signal signal self.old }
    {
        match signal {
            Signal::Delivered { .. } => add_one(&mut self.delivered),
            Signal::Dropped(Cause::Disabled) => add_one(&mut self.disabled),
            Signal::Dropped(Cause::NoDevice) => add_one(&mut self.no_device),
            Signal::Dropped(Cause::NoEvent) => add_one(&mut self.no_event),
            Signal::Dropped(Cause::NoCollection) => add_one(&mut self.no_collection),
            Signal::Dropped(Cause::LpisOff) => add_one(&mut self.lpis_off),
        }
    }
}

impl RefusedCounts {
    ghost use Rattle.std.specs.Prelude.{◌≡◌};
    ghost use Rattle.its_numbers.specs.Counters as spec;

    fn count(&mut self, reason: Reason)
        ensures { self.new ≡ spec.counted_reason reason self.old }
    {
        match reason {
            Reason::UnknownCommand => add_one(&mut self.unknown_command),
            Reason::DeviceRange => add_one(&mut self.device_range),
            Reason::SizeRange => add_one(&mut self.size_range),
            Reason::TargetRange => add_one(&mut self.target_range),
            Reason::CollectionRange => add_one(&mut self.collection_range),
            Reason::NoDevice => add_one(&mut self.no_device),
            Reason::EventRange => add_one(&mut self.event_range),
            Reason::IntidRange => add_one(&mut self.intid_range),
            Reason::NoEvent => add_one(&mut self.no_event),
            Reason::NoCollection => add_one(&mut self.no_collection),
            Reason::LpisOff => add_one(&mut self.lpis_off),
        }
    }
}

fn add_one(count: &mut u64)
    ensures { count.new ≡ spec.one_more count.old }
{
    if *count != u64::MAX {
        *count += 1;
    }
}
