//! The model: what a machine is made from, its calls and replies, and (in specs/) what each call is
//! answered and leaves.
#![tactic(auto)]

mod area;
mod bytes64;
mod call;
mod desc;
mod equal;
mod fault;
mod layout;
mod make;
mod requester_ranges;
mod shown;

pub use area::Area;
pub use bytes64::Bytes64;
pub use call::{Ack, Call, Cause, CmdReply, Entry, Reason, Reply, Route, Signal, StepReply};
pub use desc::{Desc, DescFault, Fill, Its, LpiTables, Requesters};
pub use fault::{Region, RestoreFault, SaveError, SaveFault, Table};
pub use layout::Layout;
pub use make::MakeError;
pub use requester_ranges::RequesterRanges;
