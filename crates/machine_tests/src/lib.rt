//! Tests of a machine: parts in hand, tables that are restored and saved, the machine whole beside
//! the slow one of the model, what a step reads and concerns, and passes that race on the word.
#![tactic(auto)]

#[cfg(test)]
mod alike;
#[cfg(test)]
mod collections;
#[cfg(test)]
mod commands;
#[cfg(test)]
mod descriptions;
#[cfg(test)]
mod machines;
#[cfg(test)]
mod passes;
#[cfg(test)]
mod tables;
#[cfg(test)]
mod views;
