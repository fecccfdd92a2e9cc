//! A program of the core: a world goes from event to event, and each does just what its definition
//! says.
#![tactic(auto)]

mod answers;
mod cache;
mod commits;
mod content;
mod held;
mod holding;
mod homes;
mod joins;
mod loads;
mod renewals;
mod shared;
mod splits;
mod stamps;
mod steady;
mod step;
mod tries;
mod view;
mod world;

pub use world::World;
