//! The outcome of a look-up of a device and an event.
use its_types::{Device, Event};

/// What is mapped of a device and one of its events.
#[derive(Clone, Copy, Debug, PartialEq, Eq)]
pub enum LookUp {
    /// The device isn't mapped.
    NoDevice,
    /// The device is mapped, and the event isn't.
    NoEvent(Device),
    /// Both are.
    Mapped(Device, Event),
}
