//! Tests of machines that threads share, from a description to the parts that are left, with all
//! ports.
#![tactic(auto)]

#[cfg(test)]
mod asks;
#[cfg(test)]
mod commands;
#[cfg(test)]
mod given;
#[cfg(test)]
mod legs;
#[cfg(test)]
mod made;
#[cfg(test)]
mod migrations;
#[cfg(test)]
mod overtaking;
#[cfg(test)]
mod pairs;
#[cfg(test)]
mod passes;
#[cfg(test)]
mod tries;
