//! What the machine has at a place of a report.
use crate::explained::{REPORT, SCRIPT};
use report_places::say_place;
use std::alloc::Global;

/// Whether this is said of the report of the script at a place of its leg.
fn is_listed_so(alloc: Global, leg: usize, place: usize, list: &str) -> Option<bool> {
    let mut input = String::from_str(alloc, SCRIPT).ok()?;
    input.push_str("trace\n").ok()?;
    input.push_str(REPORT).ok()?;
    let said = say_place(alloc, input.as_bytes(), leg, place).ok()?;
    Some(said.line.as_str() == list)
}

/// Whether this is said at the second leg's start of a report of two legs: of the script whose
/// acknowledgement comes after a migration.
fn is_moved_so(alloc: Global, list: &str) -> Option<bool> {
    let (before, _) = SCRIPT.split_once("take 1\n")?;
    let (told, _) = REPORT.split_once("12 2.1 ")?;
    let mut input = String::from_str(alloc, before).ok()?;
    input
        .push_str("migrate\nphase\nthread\ntake 1\nend\ntrace\n")
        .ok()?;
    input.push_str(told).ok()?;
    input
        .push_str("vcpu 0 pending none\nvcpu 1 pending 8192\nmigrated\n")
        .ok()?;
    input
        .push_str("leg 2\n0 1.1 take 1 -> lpi 8192 0xa0\n")
        .ok()?;
    input
        .push_str("vcpu 0 pending none\nvcpu 1 pending none\ndone\n")
        .ok()?;
    let said = say_place(alloc, input.as_bytes(), 1, 0).ok()?;
    Some(said.line.as_str() == list)
}

/// What the machine has with an LPI that is pending.
const PENDING: &str = "its 0 GITS_CTLR 0x1
its 0 GITS_CBASER 0x8000000080020000
its 0 GITS_CWRITER 0x60
its 0 GITS_CREADR 0x60
its 0 GITS_BASER0 0x8107000080000200
its 0 GITS_BASER1 0x8407000080010200
its 0 device 7 table 0x800c0000 bits 4
its 0 device 7 event 2 LPI 8192 collection 0
its 0 collection 0 processor 1
vcpu 0 LPIs on configuration table 0x80030000 IDbits 0 pending table 0x80040000
vcpu 1 LPIs on configuration table 0x80030000 IDbits 0 pending table 0x80050000
vcpu 1 LPI 8192 pending, enabled, priority 0xa0
";

#[test]
fn the_first_state_is_listed(rt: HostRuntime) {
    let right = is_listed_so(
        rt.alloc(),
        0,
        0,
        "its 0 GITS_CTLR 0x80000000
its 0 GITS_CBASER 0x0
its 0 GITS_CWRITER 0x0
its 0 GITS_CREADR 0x0
its 0 GITS_BASER0 0x107000000000200
its 0 GITS_BASER1 0x407000000000200
vcpu 0 LPIs on configuration table 0x80030000 IDbits 0 pending table 0x80040000
vcpu 1 LPIs on configuration table 0x80030000 IDbits 0 pending table 0x80050000
",
    );
    assert_eq!(rt; right, Some(true));
}

#[test]
fn a_pending_lpi_is_listed(rt: HostRuntime) {
    assert_eq!(rt; is_listed_so(rt.alloc(), 0, 12, PENDING), Some(true));
}

#[test]
fn a_migration_keeps_what_is_listed(rt: HostRuntime) {
    assert_eq!(rt; is_moved_so(rt.alloc(), PENDING), Some(true));
}

#[test]
fn an_lpi_that_was_taken_is_not_listed(rt: HostRuntime) {
    let right = is_listed_so(
        rt.alloc(),
        0,
        13,
        "its 0 GITS_CTLR 0x1
its 0 GITS_CBASER 0x8000000080020000
its 0 GITS_CWRITER 0x60
its 0 GITS_CREADR 0x60
its 0 GITS_BASER0 0x8107000080000200
its 0 GITS_BASER1 0x8407000080010200
its 0 device 7 table 0x800c0000 bits 4
its 0 device 7 event 2 LPI 8192 collection 0
its 0 collection 0 processor 1
vcpu 0 LPIs on configuration table 0x80030000 IDbits 0 pending table 0x80040000
vcpu 1 LPIs on configuration table 0x80030000 IDbits 0 pending table 0x80050000
",
    );
    assert_eq!(rt; right, Some(true));
}

#[test]
fn a_place_that_there_is_not_is_said_so(rt: HostRuntime) {
    for (leg, place) in [(0, 14), (1, 0)] {
        let right = is_listed_so(rt.alloc(), leg, place, "The report has no such place.\n");
        assert_eq!(rt; right, Some(true), "{leg} {place}");
    }
}
