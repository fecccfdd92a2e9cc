//! Several parts that a pass holds at once: shards, parts of redistributors, or all parts but
//! shards, taken in the order of their numbers, and put back in the opposite order.
//!
//! Contracts have up to twelve clauses here: what a pass must not hold and what is allowed before,
//! and the same of what it holds and may do afterwards, and how many places there are.
#![tactic(auto)]

mod confs;
mod getting;
mod pends;
mod redists;
mod shards;
mod turns;
mod wanted;
mod whole;
mod whole_once;

pub use confs::{put_confs, take_confs};
pub use getting::{take_conf, take_maps, take_memory, take_pend, take_shard};
pub use pends::{put_pends, take_pends};
pub use redists::{once_confs, once_pends, once_redists};
pub use shards::{Shards, once_shards, put_shards, take_shards};
pub use turns::{AtRest, Turns, Waiting};
pub use wanted::all_of;
pub use whole::{Whole, put_whole, take_whole};
pub use whole_once::once_whole;
