//! Reports that are checked, as they were printed and spoiled, and summaries.
use crate::runs::{MACHINE, MAPPED, answer, script};
use its_top::Status;
use std::alloc::{AllocError, Global};
use std::str;
use std::sync::Wait;
use std::test::Fail;
use std::thread::Threads;

/// A leg with places 0 to 15 and a pending LPI, and one that takes it.
const CALLS: &str = "phase
thread
step
signal 0x10 3
show 2
migrate
phase
thread
take 2
end
";

/// A script, and the report of its run after a line `trace`, in which `old` is replaced.
fn spoiled(
    alloc: Global,
    script: &str,
    report: &str,
    old: &str,
    new: &str,
) -> Result<String, AllocError> {
    let mut input = String::from_str(alloc, script)?;
    input.push_str("trace\n")?;
    match report.split_once(old) {
        Some((before, after)) => {
            input.push_str(before)?;
            input.push_str(new)?;
            input.push_str(after)?;
        }
        None => input.push_str("no such text")?,
    }
    Ok(input)
}

/// Whether the check of a run's report, in which `old` is replaced, is answered so.
fn is_answered<R: Threads + Wait + Sync>(
    rt: &R,
    alloc: Global,
    script: &str,
    old: &str,
    new: &str,
    expected: (Status, &str),
) -> Option<bool> {
    let (_, printed) = answer(rt, alloc, "its run", script.as_bytes())?;
    let report = str::from_utf8(printed.bytes()?).ok()?;
    let input = spoiled(alloc, script, report, old, new).ok()?;
    let (status, said) = answer(rt, alloc, "its check", input.as_bytes())?;
    Some(status == expected.0 && said.bytes()? == expected.1.as_bytes())
}

#[test]
fn a_report_is_checked_line_by_line(rt: HostRuntime) -> Result<(), Fail> {
    let alloc = rt.alloc();
    let script = script(alloc, &[MACHINE, MAPPED, CALLS])?;
    for (old, new, status, text) in [
        ("", "", Status::Ok, "agrees\n"),
        // A reply is changed.
        (
            "delivered 2 8200",
            "delivered 1 8200",
            Status::TraceDiffers,
            "differs 1 14 said 2.1 signal 16 3 -> delivered 1 8200 is 2.1 signal 16 3 -> delivered 2 8200\n",
        ),
        // A thread's calls stand in another order.
        (
            "signal 16 3 -> delivered 2 8200\n15 2.1 show 2 -> lpi 8200 0xa0",
            "show 2 -> lpi 8200 0xa0\n15 2.1 signal 16 3 -> delivered 2 8200",
            Status::TraceDiffers,
            "differs 1 14 said 2.1 show 2 -> lpi 8200 0xa0 is 2.1 signal 16 3 -> delivered 2 8200\n",
        ),
        // The last entry is left out.
        (
            "15 2.1 show 2 -> lpi 8200 0xa0\n",
            "",
            Status::TraceDiffers,
            "differs 1 15 said nothing is 2.1 show 2 -> lpi 8200 0xa0\n",
        ),
        // A pending LPI is left out.
        (
            "vcpu 2 pending 8200",
            "vcpu 2 pending none",
            Status::TraceDiffers,
            "differs 1 16 said vcpu 2 pending none is vcpu 2 pending 8200\n",
        ),
        // A line of the first leg stands in the second.
        (
            "0 1.1 take 2 -> lpi 8200 0xa0",
            "0 2.1 show 2 -> lpi 8200 0xa0",
            Status::TraceDiffers,
            "differs 2 0 said 2.1 show 2 -> lpi 8200 0xa0 is nothing\n",
        ),
        // A place is skipped, two lines are exchanged, a line is cut, and the last one is left out.
        ("14 2.1", "15 2.1", Status::BadTrace, "refused trace 16\n"),
        (
            "vcpu 0 pending none\nvcpu 1 pending none",
            "vcpu 1 pending none\nvcpu 0 pending none",
            Status::BadTrace,
            "refused trace 18\n",
        ),
        ("done\n", "done", Status::BadTrace, "refused trace 29\n"),
        ("done\n", "", Status::BadTrace, "refused trace 29\n"),
    ] {
        let answered = is_answered(&rt, alloc, &script, old, new, (status, text));
        assert_eq!(rt; answered, Some(true), "{new}");
    }
    Ok(())
}

#[test]
fn a_report_of_many_threads_agrees(rt: HostRuntime) -> Result<(), Fail> {
    let alloc = rt.alloc();
    let mut calls = String::from_str(alloc, "phase\n")?;
    for _ in 0..4 {
        calls.push_str("thread\n")?;
        for _ in 0..50 {
            calls.push_str("signal 0x10 3\n")?;
        }
    }
    let parts = [
        MACHINE,
        MAPPED,
        calls.as_str(),
        "phase\nthread\ntake 2\nend",
    ];
    let script = script(alloc, &parts)?;
    let answered = is_answered(&rt, alloc, &script, "", "", (Status::Ok, "agrees\n"));
    assert_eq!(rt; answered, Some(true));
    Ok(())
}

#[test]
fn runs_are_summarized(rt: HostRuntime) -> Result<(), Fail> {
    for (line, text) in [
        (
            "its gen 20 1",
            "signals 20 delivered 20
commands 71 ran 71
migrated 1
vcpu 0 pending 6
vcpu 1 pending 4
vcpu 2 pending 5
vcpu 3 pending 5
",
        ),
        (
            "its gen 1000 4",
            "signals 4000 delivered 4000
commands 364 ran 364
migrated 1
vcpu 0 pending 112
vcpu 1 pending 48
vcpu 2 pending 48
vcpu 3 pending 48
",
        ),
    ] {
        let (status, printed) = answer(&rt, rt.alloc(), line, b"").ok_or("no answer")?;
        assert_eq!(rt; status, Status::Ok, "{line}");
        let printed = str::from_utf8(printed.bytes().ok_or("no bytes")?)?;
        assert_eq!(rt; printed, text, "{line}");
    }
    Ok(())
}
