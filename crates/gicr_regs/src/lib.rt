//! The LPI registers of a redistributor (IHI 0069, section 12.11).
#![tactic(auto)]

mod laws;
pub mod offsets;
mod read;
mod values;
mod write;

pub use laws::{
    restores_keep_bits, values_come_back, writes_keep_bits, writes_look_away, writes_split,
};
pub use read::read_gicr;
pub use values::{GicrRegisters, GicrValues, restored_bases, values_of};
pub use write::{GicrWrite, asked_by};
