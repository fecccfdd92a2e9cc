//! The pending LPIs of a redistributor, and the redistributors of a machine.
#![tactic(auto)]

mod best;
mod bitmap;
mod first;
mod first_bit;
mod gicr;
mod lanes;
mod looks;
mod pend;
mod pending;
mod places;
mod steps;

pub use gicr::{
    LpiRoom, changes_pending, conf_set, conf_write, gicr_read, gicr_write, reads_tables, room_for,
    turn_off_write,
};
pub use lanes::first_nonzero;
pub use pend::Pend;
pub use pending::Pending;
pub use places::Redists;
pub use steps::Steps;
