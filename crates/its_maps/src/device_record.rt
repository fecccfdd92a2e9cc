//! A mapped device with its events.
use crate::event_table::EventTable;
use its_types::Device;

/// A mapped device, with its events by EventID.
#[derive(Drop)]
pub struct DeviceRecord {
    /// Its interrupt translation table, and how many bits its EventIDs have.
    pub device: Device,
    /// Each EventID is below 2 to that number of bits.
    pub events: EventTable,
}
