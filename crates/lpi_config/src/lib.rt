//! The LPI configuration of a redistributor: a byte for each LPI, a bitmap of those that are
//! enabled, and least priorities of these. With it stand the registers that say where its tables
//! are.
#![tactic(auto)]

mod bounds;
mod conf;
mod config;
mod enabled;
mod least;

pub use conf::Conf;
pub use config::Config;
