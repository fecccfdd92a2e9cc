//! Tests of what `its explain` says of scripts, machines and reports.
#![tactic(auto)]

#[cfg(test)]
mod command_rows;
#[cfg(test)]
mod explained;
#[cfg(test)]
mod limit_rows;
#[cfg(test)]
mod machine_rows;
#[cfg(test)]
mod place_rows;
#[cfg(test)]
mod register_rows;
#[cfg(test)]
mod report_rows;
#[cfg(test)]
mod script_rows;
