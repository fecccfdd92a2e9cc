//! What the machine has after a call of a report.
use crate::runs::{MACHINE, MAPPED, answer, script};
use its_top::Status;
use std::alloc::{AllocError, Global};
use std::str;
use std::sync::Wait;
use std::test::Fail;
use std::thread::Threads;

/// After 13 calls the mapped event comes, and its LPI is taken.
const CALLS: &str = "phase
thread
signal 0x10 3
take 2
end
";

/// After the first call, a write of GITS_BASER0.
const FIRST: &str = "its 0 GITS_CTLR 0x80000000
its 0 GITS_CBASER 0x0
its 0 GITS_CWRITER 0x0
its 0 GITS_CREADR 0x0
its 0 GITS_BASER0 0x8107000080000200
its 0 GITS_BASER1 0x407000000000200
vcpu 0 LPIs on configuration table 0x80030000 IDbits 0 pending table 0x80040000
vcpu 1 LPIs on configuration table 0x80030000 IDbits 0 pending table 0x80050000
vcpu 2 LPIs on configuration table 0x80030000 IDbits 0 pending table 0x80060000
vcpu 3 LPIs on configuration table 0x80030000 IDbits 0 pending table 0x80070000
";

/// After the message.
const SENT: &str = "its 0 GITS_CTLR 0x1
its 0 GITS_CBASER 0x8000000080020000
its 0 GITS_CWRITER 0x60
its 0 GITS_CREADR 0x60
its 0 GITS_BASER0 0x8107000080000200
its 0 GITS_BASER1 0x8407000080010200
its 0 device 16 table 0x800c0000 bits 5
its 0 device 16 event 3 LPI 8200 collection 1
its 0 collection 1 processor 2
vcpu 0 LPIs on configuration table 0x80030000 IDbits 0 pending table 0x80040000
vcpu 1 LPIs on configuration table 0x80030000 IDbits 0 pending table 0x80050000
vcpu 2 LPIs on configuration table 0x80030000 IDbits 0 pending table 0x80060000
vcpu 2 LPI 8200 pending, enabled, priority 0xa0
vcpu 3 LPIs on configuration table 0x80030000 IDbits 0 pending table 0x80070000
";

/// After the last call.
const TAKEN: &str = "its 0 GITS_CTLR 0x1
its 0 GITS_CBASER 0x8000000080020000
its 0 GITS_CWRITER 0x60
its 0 GITS_CREADR 0x60
its 0 GITS_BASER0 0x8107000080000200
its 0 GITS_BASER1 0x8407000080010200
its 0 device 16 table 0x800c0000 bits 5
its 0 device 16 event 3 LPI 8200 collection 1
its 0 collection 1 processor 2
vcpu 0 LPIs on configuration table 0x80030000 IDbits 0 pending table 0x80040000
vcpu 1 LPIs on configuration table 0x80030000 IDbits 0 pending table 0x80050000
vcpu 2 LPIs on configuration table 0x80030000 IDbits 0 pending table 0x80060000
vcpu 3 LPIs on configuration table 0x80030000 IDbits 0 pending table 0x80070000
";

const NO_PLACE: &str = "The report has no such place.\n";

/// Whether the command of a line is answered so of a run's report, in which `old` is replaced.
fn is_listed<R: Threads + Wait + Sync>(
    rt: &R,
    alloc: Global,
    line: &str,
    old: &str,
    new: &str,
    expected: (Status, &str),
) -> Option<bool> {
    let mut input = script(alloc, &[MACHINE, MAPPED, CALLS]).ok()?;
    let (_, printed) = answer(rt, alloc, "its run", input.as_bytes())?;
    let report = str::from_utf8(printed.bytes()?).ok()?;
    let (before, after) = report.split_once(old)?;
    for part in ["trace\n", before, new, after] {
        input.push_str(part).ok()?;
    }
    let (status, said) = answer(rt, alloc, line, input.as_bytes())?;
    Some(status == expected.0 && said.bytes()? == expected.1.as_bytes())
}

#[test]
fn a_place_is_listed(rt: HostRuntime) -> Result<(), Fail> {
    for (line, status, text) in [
        ("its at 0", Status::Ok, FIRST),
        ("its at 13", Status::Ok, SENT),
        ("its at 14 1", Status::Ok, TAKEN),
        ("its at 15", Status::Ok, NO_PLACE),
        ("its at 0 2", Status::Ok, NO_PLACE),
        ("its at 13 0", Status::WordsRefused, "refused words\n"),
        ("its at last", Status::WordsRefused, "refused words\n"),
    ] {
        let right = is_listed(&rt, rt.alloc(), line, "", "", (status, text));
        assert_eq!(rt; right, Some(true), "{line}");
    }
    Ok(())
}

#[test]
fn a_place_of_no_run_is_not_listed(rt: HostRuntime) -> Result<(), Fail> {
    for (old, new, status, text) in [
        (
            "delivered 2 8200",
            "delivered 1 8200",
            Status::TraceDiffers,
            "differs 1 13 said 2.1 signal 16 3 -> delivered 1 8200 is 2.1 signal 16 3 -> delivered 2 8200\n",
        ),
        ("leg 1", "leg 2", Status::BadTrace, "refused trace 1\n"),
    ] {
        let right = is_listed(&rt, rt.alloc(), "its at 13", old, new, (status, text));
        assert_eq!(rt; right, Some(true), "{old}");
    }
    Ok(())
}
