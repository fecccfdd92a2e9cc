//! Reports of runs: merged from the lists of threads, printed, and read back.
use crate::its_history_tests::{DELIVERED, LPI, SIGNAL, TAKE, push_line};
use event_script::Calls;
use its_history::{
    End, Leg, Text, ThreadList, Trace, TraceError, end_text, merge, parse_trace, pending_text,
    report_text,
};
use its_plain::{Ack, Call, Reply};
use its_types::{Intid, Listed, Placed};
use std::alloc::{AllocError, Global};
use std::fmt::Write;
use std::test::Fail;

fn push_calls(calls: &mut Calls, of: &[Call]) -> Result<(), AllocError> {
    for call in of {
        calls.push(*call)?;
    }
    Ok(())
}

fn push_replies(
    replies: &mut Listed<Placed<Reply>>,
    of: [(u64, Reply); 2],
) -> Result<(), AllocError> {
    for (place, reply) in of {
        replies.push(Placed { place, reply })?;
    }
    Ok(())
}

// The list of a thread of the first phase.
fn list<'a>(
    alloc: Global,
    thread: u32,
    calls: &'a Calls,
    of: [(u64, Reply); 2],
) -> Result<ThreadList<'a>, AllocError> {
    let mut replies = Listed::new(alloc);
    push_replies(&mut replies, of)?;
    Ok(ThreadList {
        phase: 1,
        thread,
        calls,
        replies,
    })
}

fn merged(alloc: Global, signals: &Calls, takes: &Calls) -> Result<Trace, AllocError> {
    let first = list(alloc, 1, signals, [(1, DELIVERED), (2, DELIVERED)])?;
    let second = list(alloc, 2, takes, [(0, Reply::Ack(Ack::None)), (3, LPI)])?;
    merge(alloc, &[first, second])
}

fn first_leg(alloc: Global) -> Result<Trace, AllocError> {
    let mut signals = Calls::new(alloc);
    push_calls(&mut signals, &[SIGNAL, SIGNAL])?;
    let mut takes = Calls::new(alloc);
    push_calls(&mut takes, &[TAKE, TAKE, TAKE])?;
    merged(alloc, &signals, &takes)
}

fn push_pending(pending: &mut Listed<Text>, alloc: Global) -> Result<(), AllocError> {
    pending.push(pending_text(alloc, &[])?)?;
    pending.push(pending_text(alloc, &[Intid(8200), Intid(8201)])?)
}

fn last_leg(alloc: Global) -> Result<Leg, AllocError> {
    let mut pending = Listed::new(alloc);
    push_pending(&mut pending, alloc)?;
    Ok(Leg {
        entries: Listed::new(alloc),
        pending,
        end: Some(End::Done),
    })
}

fn report_of_two_legs(alloc: Global) -> Result<String, AllocError> {
    let mut trace = first_leg(alloc)?;
    trace.legs.push(last_leg(alloc)?)?;
    report_text(alloc, &trace)
}

const TWO_LEGS: &str = "leg 1
0 1.2 take 2 -> none
1 1.1 signal 16 3 -> delivered 2 8200
2 1.1 signal 16 3 -> delivered 2 8200
3 1.2 take 2 -> lpi 8200 0xa0
leg 2
vcpu 0 pending none
vcpu 1 pending 8200 8201
done
";

// How legs end: migrated, with pages that were copied before, and at last.
fn push_ends(lines: &mut String, alloc: Global) -> Result<(), AllocError> {
    push_line(lines, end_text(alloc, &End::Migrated)?.as_str())?;
    for pages in [0, 41] {
        let end = End::copied(alloc, pages)?;
        push_line(lines, end_text(alloc, &end)?.as_str())?;
    }
    push_line(lines, end_text(alloc, &End::Done)?.as_str())
}

const ENDS: &str = "migrated
migrated copied 0
migrated copied 41
done
";

#[test]
fn reports_are_printed(rt: HostRuntime) -> Result<(), Fail> {
    assert_eq!(rt; report_of_two_legs(rt.alloc())?.as_str(), TWO_LEGS);
    let mut ends = String::new(rt.alloc());
    push_ends(&mut ends, rt.alloc())?;
    assert_eq!(rt; ends.as_str(), ENDS);
    Ok(())
}

// 0 where the trace prints as the text, and the number of no line otherwise.
fn other_line(alloc: Global, trace: &Trace, text: &str) -> Option<u64> {
    let printed = report_text(alloc, trace).ok()?;
    if printed.as_str() == text {
        Some(0)
    } else {
        Some(u64::MAX)
    }
}

// The first line that isn't as it must be, or 0.
fn first_bad_line(alloc: Global, text: &str, copies: &[bool]) -> Option<u64> {
    match parse_trace(alloc, text.as_bytes(), 2, copies, 1) {
        Ok(trace) => other_line(alloc, &trace, text),
        Err(TraceError::BadLine(line)) => Some(line),
        Err(TraceError::NoMemory) => None,
    }
}

// The report, in which something stands for the first such part.
fn changed(alloc: Global, report: &str, part: &str, by: &str) -> Option<String> {
    let (front, rest) = report.split_once(part)?;
    format!(in alloc; "{front}{by}{rest}").ok()
}

// A row as it has to be: the first bad line, a part of the report, and what stands for it. In both
// `/` is the end of a line.
fn push_row(
    told: &mut String,
    alloc: Global,
    report: &str,
    copies: &[bool],
    row: &str,
) -> Option<()> {
    let (_, change) = row.split_once('|')?;
    let text = change.replace(alloc, "/", "\n").ok()?;
    let (part, by) = text.split_once('|')?;
    let changed = changed(alloc, report, part, by)?;
    let line = first_bad_line(alloc, changed.as_str(), copies)?;
    writeln!(told, "{line}|{change}").ok()
}

fn push_rows(
    told: &mut String,
    alloc: Global,
    report: &str,
    copies: &[bool],
    rows: &str,
) -> Option<()> {
    for row in rows.lines() {
        push_row(told, alloc, report, copies, row)?;
    }
    Some(())
}

fn bad_lines(alloc: Global, report: &str, copies: &[bool], rows: &str) -> Option<String> {
    let mut told = String::new(alloc);
    push_rows(&mut told, alloc, report, copies, rows)?;
    Some(told)
}

const REPORT: &str = "leg 1
0 1.1 step -> idle
1 2.64 peek 0x0 1 -> a -> b
vcpu 0 pending none
migrated
leg 2
vcpu 0 pending 8200
done
";

const CHANGES: &str = "0|step|step
0|2.64|0.4294967295
1|leg 1|leg 2
2|1.1|01.1
2| -> idle|
3|1 2.64|2 2.64
3|2.64|4294967296.64
4|vcpu 0 pending none/|
4|none|
5|migrated|done
5|migrated|migrated copied 41
7|8200|8200\t
8|done/|done
8|done/|
9|done/|done//
";

const COPIED: &str = "leg 1
vcpu 0 pending none
migrated copied 41
leg 2
vcpu 0 pending none
done
";

const COPIED_CHANGES: &str = "0|41|41
0|41|040
0|41| of 512 ->\x20
3| 41|
3|41|
3|41|4\t1
3|migrated copied 41|migrated
3|migrated copied 41|done
6|done|migrated copied 41
";

#[test]
fn reports_are_read_back(rt: HostRuntime) -> Result<(), Fail> {
    for (report, copies, rows) in [
        (REPORT, [].as_slice(), CHANGES),
        (REPORT, &[false], CHANGES),
        (COPIED, &[true], COPIED_CHANGES),
    ] {
        let told = bad_lines(rt.alloc(), report, copies, rows).ok_or("no such part")?;
        assert_eq!(rt; told.as_str(), rows);
    }
    Ok(())
}
