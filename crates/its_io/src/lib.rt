//! Where bytes come from and where they go, each with a count of its faults.
#![tactic(auto)]

mod errors;
mod memory;
mod script;
mod standard;
mod sure;
mod traits;

pub use errors::Failed;
pub use memory::{MemSink, MemSource};
pub use standard::{StdSink, StdSource};
pub use sure::{SureSink, SureSource};
pub use traits::{Sink, Source};
