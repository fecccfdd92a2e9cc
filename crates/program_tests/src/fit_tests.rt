//! Replies with times, of which a history is looked for.
use crate::runs::{MACHINE, MAPPED, answer, script};
use its_top::Status;
use std::alloc::{AllocError, Global};
use std::fmt::Write;
use std::str;
use std::sync::Wait;
use std::test::Fail;
use std::thread::Threads;

/// A thread that reads the queue's register while another writes it.
const QUEUED: &str = "phase
thread
read 0x80 8
thread
write 0x80 8 0x8000000080020000
end
";

/// Four threads, each of which acknowledges at a processor of its own.
const TAKES: &str = "phase
thread
take 0
thread
take 1
thread
take 2
thread
take 3
end
";

/// Two phases, each of one thread.
const PHASES: &str = "phase
thread
read 0x80 8
phase
thread
write 0x80 8 0x8000000080020000
end
";

/// What is pending at the end.
const NONE: &str = "vcpu 0 pending none
vcpu 1 pending none
vcpu 2 pending none
vcpu 3 pending none
";

/// The same, with an LPI at the first processor.
const SOME: &str = "vcpu 0 pending 8200
vcpu 1 pending none
vcpu 2 pending none
vcpu 3 pending none
";

/// What is asked, the script's phases, what its threads were told, and what is pending.
type Row = (&'static str, &'static str, &'static str, &'static str);

/// Whether a row is answered so.
fn is_answered<R: Threads + Wait + Sync>(
    rt: &R,
    alloc: Global,
    row: Row,
    expected: (Status, &str),
) -> Option<bool> {
    let (line, phases, told, pending) = row;
    let mut input = script(alloc, &[MACHINE, phases, "trace", told]).ok()?;
    input.push_str(pending).ok()?;
    let (status, said) = answer(rt, alloc, line, input.as_bytes())?;
    let said = str::from_utf8(said.bytes()?).ok()?;
    Some(status == expected.0 && said == expected.1)
}

#[test]
fn replies_fit_or_fit_nowhere(rt: HostRuntime) -> Result<(), Fail> {
    let alloc = rt.alloc();
    for (row, status, text) in [
        // The replies need the other order than that of the lines.
        (
            (
                "its fit",
                QUEUED,
                "1.1 5 9 read 0x80 8 -> value 0x8000000080020000\n1.2 5 9 write 0x80 8 0x8000000080020000 -> ok\n",
                NONE,
            ),
            Status::Ok,
            "fits\nleg 1\n0 1.2 write 0x80 8 0x8000000080020000 -> ok\n1 1.1 read 0x80 8 -> value 0x8000000080020000\nvcpu 0 pending none\nvcpu 1 pending none\nvcpu 2 pending none\nvcpu 3 pending none\ndone\n",
        ),
        // Time forbids that order.
        (
            (
                "its fit",
                QUEUED,
                "1.1 1 2 read 0x80 8 -> value 0x8000000080020000\n1.2 5 9 write 0x80 8 0x8000000080020000 -> ok\n",
                NONE,
            ),
            Status::TraceDiffers,
            "fits nowhere\n1.1 said read 0x80 8 -> value 0x8000000080020000 is read 0x80 8 -> value 0x0\n1.2 said write 0x80 8 0x8000000080020000 -> ok waits 1.1\n",
        ),
        // No call is answered with such a text.
        (
            (
                "its fit",
                QUEUED,
                "1.1 5 9 read 0x80 8 -> ok\n1.2 5 9 write 0x80 8 0x8000000080020000 -> ok\n",
                NONE,
            ),
            Status::TraceDiffers,
            "fits nowhere\n0 1.2 write 0x80 8 0x8000000080020000 -> ok\n1.1 said read 0x80 8 -> ok is read 0x80 8 -> value 0x8000000080020000\n",
        ),
        // All calls go, and something else is pending.
        (
            (
                "its fit",
                QUEUED,
                "1.1 5 9 read 0x80 8 -> value 0x0\n1.2 5 9 write 0x80 8 0x8000000080020000 -> ok\n",
                SOME,
            ),
            Status::TraceDiffers,
            "fits nowhere\n0 1.1 read 0x80 8 -> value 0x0\n1 1.2 write 0x80 8 0x8000000080020000 -> ok\nvcpu 0 said 8200 is none\n",
        ),
        // One call may be tried.
        (
            (
                "its fit 1",
                QUEUED,
                "1.1 5 9 read 0x80 8 -> value 0x0\n1.2 5 9 write 0x80 8 0x8000000080020000 -> ok\n",
                SOME,
            ),
            Status::Undecided,
            "undecided 1\n",
        ),
        // Calls that commute are tried in one order.
        (
            (
                "its fit 4",
                TAKES,
                "1.1 5 9 take 0 -> none\n1.2 5 9 take 1 -> none\n1.3 5 9 take 2 -> none\n1.4 5 9 take 3 -> none\n",
                SOME,
            ),
            Status::TraceDiffers,
            "fits nowhere\n0 1.1 take 0 -> none\n1 1.2 take 1 -> none\n2 1.3 take 2 -> none\n3 1.4 take 3 -> none\nvcpu 0 said 8200 is none\n",
        ),
        // The first call doesn't go, and the others are told all the same.
        (
            (
                "its fit",
                TAKES,
                "1.1 5 9 take 0 -> ok\n1.2 5 9 take 1 -> none\n1.3 5 9 take 2 -> none\n1.4 5 9 take 3 -> none\n",
                NONE,
            ),
            Status::TraceDiffers,
            "fits nowhere\n0 1.2 take 1 -> none\n1 1.3 take 2 -> none\n2 1.4 take 3 -> none\n1.1 said take 0 -> ok is take 0 -> none\n",
        ),
    ] {
        let answered = is_answered(&rt, alloc, row, (status, text));
        assert_eq!(rt; answered, Some(true), "{text}");
    }
    Ok(())
}

#[test]
fn what_is_not_told_so_is_refused(rt: HostRuntime) -> Result<(), Fail> {
    let alloc = rt.alloc();
    for (phases, told, text) in [
        // It returned before it began.
        (
            QUEUED,
            "1.1 5 4 read 0x80 8 -> value 0x0\n1.2 5 9 write 0x80 8 0x8000000080020000 -> ok\n",
            "refused trace 1\n",
        ),
        // There is no such thread.
        (
            QUEUED,
            "1.1 5 9 read 0x80 8 -> value 0x0\n1.3 5 9 write 0x80 8 0x8000000080020000 -> ok\n",
            "refused trace 2\n",
        ),
        // A number begins with a zero.
        (
            QUEUED,
            "1.1 05 9 read 0x80 8 -> value 0x0\n1.2 5 9 write 0x80 8 0x8000000080020000 -> ok\n",
            "refused trace 1\n",
        ),
        // A line follows the last.
        (
            QUEUED,
            "1.1 5 9 read 0x80 8 -> value 0x0\n1.2 5 9 write 0x80 8 0x8000000080020000 -> ok\nvcpu 0 pending none\nvcpu 1 pending none\nvcpu 2 pending none\nvcpu 3 pending none\n",
            "refused trace 7\n",
        ),
        // A thread's reply isn't there.
        (
            QUEUED,
            "1.1 5 9 read 0x80 8 -> value 0x0\n",
            "refused replies 2\n",
        ),
        (
            PHASES,
            "1.1 5 9 read 0x80 8 -> value 0x0\n",
            "refused phases\n",
        ),
    ] {
        let row = ("its fit", phases, told, NONE);
        let answered = is_answered(&rt, alloc, row, (Status::BadTrace, text));
        assert_eq!(rt; answered, Some(true), "{told}");
    }
    Ok(())
}

/// What two threads were told, of which one sends the message of a run's report and the other makes
/// its other calls. That at place P is made from 10 P + 10 to 10 P + 15, but the message as is said.
fn parted(alloc: Global, report: &str, span: (u64, u64)) -> Result<String, AllocError> {
    let mut told = String::new(alloc);
    let mut sent = String::new(alloc);
    let mut pending = String::new(alloc);
    let mut begin = 0u64;
    for line in report.lines() {
        match line.split_once(" 1.1 ") {
            Some((_, call)) if call.starts_with("signal ") => {
                writeln!(sent, "1.2 {} {} {call}", span.0, span.1)?;
            }
            Some((_, call)) => {
                let end = begin.wrapping_add(5);
                writeln!(told, "1.1 {begin} {end} {call}")?;
            }
            None => {
                if line.starts_with("vcpu ") {
                    writeln!(pending, "{line}")?;
                }
            }
        }
        begin = begin.wrapping_add(10);
    }
    told.push_str(sent.as_str())?;
    told.push_str(pending.as_str())?;
    Ok(told)
}

/// How `its fit` ends where a message is answered by a map that a DISCARD then ends, and it was sent
/// at such times.
fn ends<R: Threads + Wait + Sync>(rt: &R, alloc: Global, span: (u64, u64)) -> Option<Status> {
    let after = "run discard 0x10 3\n";
    let one = script(alloc, &[MACHINE, MAPPED, "signal 0x10 3\n", after, "end\n"]).ok()?;
    let (_, printed) = answer(rt, alloc, "its run", one.as_bytes())?;
    let told = parted(alloc, str::from_utf8(printed.bytes()?).ok()?, span).ok()?;
    let sent = "thread\nsignal 0x10 3\n";
    let mut two = script(alloc, &[MACHINE, MAPPED, after, sent, "end\ntrace\n"]).ok()?;
    two.push_str(told.as_str()).ok()?;
    let (status, _) = answer(rt, alloc, "its fit", two.as_bytes())?;
    Some(status)
}

#[test]
fn a_stale_translation_fits_where_it_overlaps(rt: HostRuntime) -> Result<(), Fail> {
    let alloc = rt.alloc();
    for (span, status) in [
        ((150, 155), Status::Ok),
        ((150, 1_000), Status::Ok),
        ((0, 5), Status::TraceDiffers),
        ((900, 1_000), Status::TraceDiffers),
    ] {
        assert_eq!(rt;
            ends(&rt, alloc, span),
            Some(status),
            "{} {}",
            span.0,
            span.1
        );
    }
    Ok(())
}
