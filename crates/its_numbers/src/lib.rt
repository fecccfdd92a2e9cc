//! What the static libraries have in common: descriptions, faults, replies, lists and answers as
//! the numbers that they are for callers in other languages, what they count, and a box by its
//! pointer.
#![tactic(auto)]

mod codes;
mod concerned;
mod counters;
mod describing;
mod events;
mod faults;
mod limits;
mod lists;
mod loose;
mod mapped;
mod numbers;
mod replies;
mod room;
mod routes;

pub use codes::{BUSY, DONE, FAULT, FULL, HANDLE, NO_MEMORY, OUTSIDE, RANGE, SPENT};
pub use concerned::concerned_words;
pub use counters::{Counters, RefusedCounts, SignalCounts};
pub use describing::{description, is_in_range};
pub use events::{EventOut, event_out};
pub use faults::{MakeFaultOut, NO_FAULT, SaveFaultOut, make_fault_out, save_fault_out};
pub use limits::{GuestLimits, guest_limits, is_at, is_past};
pub use lists::{StretchOut, put_lpis, put_tables};
pub use loose::Loose;
pub use mapped::{
    CollectionOut, DeviceOut, MappingOut, put_collections, put_devices, put_mappings,
};
pub use numbers::{DescriptionIn, FillIn, RedistributorIn, RequestersIn, TranslatorIn, WindowIn};
pub use replies::{AckOut, DmaOut, SignalOut, StepOut, ack_out, dma_out, signal_out, step_out};
pub use room::{has_room, is_within, missing, missing_in};
pub use routes::{is_no_table, next_count, step_leaves_maps};
