//! Messages to a translator.
use its_types::{DeviceId, EventId};

/// What a device tells a translator, whether by a signal or by a write by address.
#[derive(Clone, Copy, Debug, PartialEq, Eq)]
pub struct Message {
    /// The number of the translator.
    pub its: u8,
    /// The device.
    pub dev: DeviceId,
    /// Its event.
    pub ev: EventId,
}
