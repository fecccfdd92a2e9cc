//! Places of the walk over a device table.
use its_types::Addr;

/// A place of the walk over a device table.
#[derive(Clone, Copy, Debug, PartialEq, Eq)]
pub enum DevicePlace {
    /// An entry of the first level, by its number.
    Level1(u32),
    /// An entry of a page: the number of the page's level-1 entry, where the page stands, and the
    /// entry's number in it. A flat table is as the page of entry 0.
    Entry(u32, Addr, u32),
}
