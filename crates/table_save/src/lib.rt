//! Saving translators and the pending LPIs to guest memory, and the pages that a save writes (KVM
//! document arm-vgic-its, ITS table ABI revision 0).
//!
//! `save` and `save_two` have a translator's registers and maps, memory, redistributors and shape
//! as arguments of their own, as who has them in parts does.
#![tactic(auto)]

mod area;
mod area_list;
mod areas;
mod checks;
mod collections;
mod devices;
mod edges;
mod entry_front;
mod entry_steps;
mod events;
mod marks;
mod overlap;
mod pages;
mod pending;
mod room;
mod saving;
mod slots;
mod stretches;
mod thin;
mod words;

pub use marks::mark_tables;
pub use saving::{savable, save_in, saved_pages};
pub use stretches::written_tables;
pub use thin::{save, save_two};
