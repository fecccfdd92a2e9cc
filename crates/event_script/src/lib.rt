//! Scripts: a description of a machine, and the calls that threads make on it.
#![tactic(auto)]

mod body;
mod call_list;
mod calls;
mod commands;
mod described;
mod description;
mod doorbells;
mod draft;
mod fault;
mod fields;
mod fills;
mod laws;
mod places;
mod reading;
mod restores;
mod routes;
mod script;
mod text;
mod words;

pub use call_list::{CallIter, Calls};
pub use draft::FEW_VCPUS;
pub use fault::{Kind, ParseError, ScriptFault};
pub use laws::{
    checked_scripts_are_within_limits, messages_have_a_translator, scripts_are_within_limits,
    writes_are_routed_by_the_description,
};
pub use reading::{parse, parse_check};
pub use script::{CheckInput, Leg, Move, Phase, Script, Thread};
