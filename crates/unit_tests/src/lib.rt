//! Tests of single crates on which machines stand: streams, guest memory, registers, commands,
//! table entries, maps, the cache, LPIs, scripts and reports. Each file is of one crate.
#![tactic(auto)]

#[cfg(test)]
mod event_script_pair_tests;
#[cfg(test)]
mod event_script_tests;
#[cfg(test)]
mod gicr_regs_tests;
#[cfg(test)]
mod gits_regs_tests;
#[cfg(test)]
mod guest_windows_tests;
#[cfg(test)]
mod its_command_tests;
#[cfg(test)]
mod its_history_report_tests;
#[cfg(test)]
mod its_history_tests;
#[cfg(test)]
mod its_io_tests;
#[cfg(test)]
mod its_maps_tests;
#[cfg(test)]
mod lpi_config_tests;
#[cfg(test)]
mod lpi_pending_acts;
#[cfg(test)]
mod lpi_pending_set_tests;
#[cfg(test)]
mod lpi_pending_tests;
#[cfg(test)]
mod table_entries_tests;
#[cfg(test)]
mod xlate_cache_tests;
