//! The small types that every part of the translator speaks of, and the bits, halves and bytes of
//! numbers.
#![tactic(auto)]

mod bitmap;
mod bits;
mod fields;
mod gate;
mod halves;
mod ids;
mod listed;
mod machine;
mod shown;
mod translation;

pub use bitmap::{has_bit, put_bit, with_bit};
pub use bits::{bit_of, field, fits_bits};
pub use fields::{le_u32, le_u64, put_le_u64};
pub use gate::{Gate, Open, Point};
pub use halves::{high_half, join_halves, low_half};
pub use ids::{Addr, DeviceId, EventId, FIRST_LPI, Icid, Intid, MOST_VCPUS, Target, Vcpu};
pub use listed::Listed;
pub use machine::{Limits, Part, Placed, Profile, Shape, Word};
pub use translation::{Bases, Device, Event, Pendbaser, Propbaser};
