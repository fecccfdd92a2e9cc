//! What a run or a check of an input came to, explained for people: what is wrong with a line and
//! what may stand there, or each call with a sentence.
#![tactic(auto)]

mod access;
mod acks;
mod authors;
mod book;
mod call_lines;
mod came;
mod commands;
mod context;
mod difference;
mod entries;
mod event_commands;
mod explain;
mod facts;
mod faults;
mod fields_fault;
mod grammar;
mod left;
mod lines;
mod looks;
mod lpi_writes;
mod machine_fault;
mod many;
mod mapped;
mod mappings;
mod missing;
mod named;
mod near;
mod numbers;
mod off;
mod order;
mod ranges;
mod refused;
mod register_values;
mod register_writes;
mod replayed;
mod replies;
mod rereads;
mod restore_fault;
mod said;
mod script_fault;
mod show;
mod signals;
mod slot_fault;
mod sources;
mod story;
mod trace_fault;
mod unmapped;
mod views;
mod watch;
mod windows;

pub use explain::{explain_check, explain_run};
