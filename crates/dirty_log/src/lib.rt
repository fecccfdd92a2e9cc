//! Which pages of guest memory were written since they were last copied, and the copy.
#![tactic(auto)]

mod bits;
mod laws;
mod log;
mod page;
mod places;
mod stretch;
mod tracked;

pub use laws::copies_agree;
pub use log::DirtyLog;
pub use page::Page;
pub use tracked::Tracked;
