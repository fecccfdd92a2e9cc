//! Threads beside each other, and what a gate shows of them.
use crate::runs::{MACHINE, MAPPED, tells, words};
use its_io::{SureSink, SureSource};
use its_top::{Status, its};
use its_types::{Gate, Open, Point};
use std::alloc::{AllocError, Global};
use std::sync::Wait;
use std::sync::atomic::{AtomicU64, Ordering};
use std::test::Fail;
use std::thread::Threads;
use std::{str, thread};

/// Places 0 to 10: event 3 of device 16 goes to processor 2 as LPI 8200.
const BASE: &str = "phase
thread
write 0x100 8 0x8107000080000200
write 0x108 8 0x8407000080010200
write 0x80 8 0x8000000080020000
write 0 4 1
command 0x80020000 mapd 0x10 5 0x800c0000
command 0x80020020 mapc 1 2
command 0x80020040 mapti 0x10 3 8200 1
write 0x88 8 0x60
step
step
step
";

/// How far a pass has come in its calls.
#[derive(Drop)]
struct Reached {
    maps_taken: AtomicU64,
    before_commit: AtomicU64,
    after_commit: AtomicU64,
}

impl Reached {
    fn new() -> Reached {
        Reached {
            maps_taken: AtomicU64::new(0),
            before_commit: AtomicU64::new(0),
            after_commit: AtomicU64::new(0),
        }
    }

    fn flag(&self, point: Point) -> &AtomicU64 {
        match point {
            Point::MapsTaken => &self.maps_taken,
            Point::BeforeCommit => &self.before_commit,
            Point::AfterCommit => &self.after_commit,
        }
    }
}

/// Holds pass 3 when it has the maps, until pass 4 has come to a point, and pass 4 before its
/// commit, until pass 3 has. Counts the holds that ran out.
#[derive(Drop)]
struct Meeting {
    third: Reached,
    fourth: Reached,
    third_waits_for: Point,
    fourth_waits_for: Point,
    ran_out: AtomicU64,
}

impl Meeting {
    fn hold(&self, flag: &AtomicU64) {
        for _ in 0..100_000_000u64 {
            if flag.load(Ordering::SeqCst) != 0 {
                return;
            }
            thread::yield_now();
        }
        self.ran_out.fetch_add(1, Ordering::SeqCst);
    }
}

impl Gate for Meeting {
    fn at(&self, pass: u32, point: Point) {
        if pass == 3 {
            self.third.flag(point).store(1, Ordering::SeqCst);
            if point == Point::MapsTaken {
                self.hold(self.fourth.flag(self.third_waits_for));
            }
        }
        if pass == 4 {
            self.fourth.flag(point).store(1, Ordering::SeqCst);
            if point == Point::BeforeCommit {
                self.hold(self.third.flag(self.fourth_waits_for));
            }
        }
    }
}

/// Counts the calls that were committed.
#[derive(Drop)]
struct Commits {
    count: AtomicU64,
}

impl Gate for Commits {
    fn at(&self, _pass: u32, point: Point) {
        if point == Point::AfterCommit {
            self.count.fetch_add(1, Ordering::SeqCst);
        }
    }
}

/// How the command of a line ends, with an input of these parts, and the sink with what it printed.
fn run<R: Threads + Wait + Sync, G: Gate + Sync>(
    rt: &R,
    alloc: Global,
    gate: &G,
    line: &str,
    parts: &[&str],
) -> Result<(Status, SureSink), AllocError> {
    let mut text = String::new(alloc);
    for part in parts {
        text.push_str(part)?;
    }
    let words = words(alloc, line)?;
    let mut source = SureSource::new(alloc, text.as_bytes())?;
    let mut sink = SureSink::new(alloc, 4_194_304)?;
    let status = its(rt, alloc, &words, &mut source, &mut sink, gate);
    Ok((status, sink))
}

#[test]
fn a_cached_signal_and_a_command_run_at_once(rt: HostRuntime) -> Result<(), Fail> {
    let alloc = rt.alloc();
    for (command, third_waits_for, fourth_waits_for, lines) in [
        // The hit commits while the command has the maps.
        (
            "mapti 0x10 4 8201 1",
            Point::AfterCommit,
            Point::MapsTaken,
            "\n14 3.2 signal 16 3 -> delivered 2 8200\n15 3.1 step -> ran mapti\n",
        ),
        // The command ends the translation that the signal has found.
        (
            "unmapd 0x10",
            Point::BeforeCommit,
            Point::AfterCommit,
            "\n14 3.1 step -> ran mapd\n15 3.2 signal 16 3 -> dropped no-device\n",
        ),
    ] {
        let gate = Meeting {
            third: Reached::new(),
            fourth: Reached::new(),
            third_waits_for,
            fourth_waits_for,
            ran_out: AtomicU64::new(0),
        };
        let parts = [
            MACHINE,
            BASE,
            "phase\nthread\nsignal 0x10 3\ncommand 0x80020060 ",
            command,
            "\nwrite 0x88 8 0x80\nphase\nthread\nstep\nthread\nsignal 0x10 3\nend\n",
        ];
        let (status, sink) = run(&rt, alloc, &gate, "its run", &parts)?;
        assert_eq!(rt; status, Status::Ok, "{command}");
        assert_eq!(rt; gate.ran_out.load(Ordering::SeqCst), 0, "{command}");
        let printed = str::from_utf8(sink.bytes().ok_or("no bytes")?)?;
        assert!(rt; printed.contains(lines), "{printed}");
    }
    Ok(())
}

// A phase of so many threads, each with so many signals.
fn signals(alloc: Global, threads: u32, calls: u32) -> Result<String, AllocError> {
    let mut text = String::from_str(alloc, "phase\n")?;
    for _ in 0..threads {
        text.push_str("thread\n")?;
        for _ in 0..calls {
            text.push_str("signal 0x10 3\n")?;
        }
    }
    Ok(text)
}

#[test]
fn threads_signal_beside_each_other(rt: HostRuntime) -> Result<(), Fail> {
    let alloc = rt.alloc();
    for (threads, calls, count, end) in [
        (
            4,
            50,
            200,
            "\n211 3.1 take 2 -> lpi 8200 0xa0\n212 3.1 take 2 -> none\nvcpu 0",
        ),
        (
            64,
            1000,
            64_000,
            "\n64011 3.1 take 2 -> lpi 8200 0xa0\n64012 3.1 take 2 -> none\nvcpu 0",
        ),
    ] {
        let beside = signals(alloc, threads, calls)?;
        let after = "phase\nthread\ntake 2\ntake 2\nend\n";
        let parts = [MACHINE, BASE, beside.as_str(), after];
        let (status, sink) = run(&rt, alloc, &Open, "its run", &parts)?;
        assert_eq!(rt; status, Status::Ok, "{threads}");
        let printed = str::from_utf8(sink.bytes().ok_or("no bytes")?)?;
        let delivered = printed
            .lines()
            .filter(|line| line.ends_with("delivered 2 8200"));
        assert_eq!(rt; delivered.count(), count, "{threads}");
        assert!(rt; printed.contains(end), "{threads}");
    }
    Ok(())
}

#[test]
fn a_65th_thread_is_refused(rt: HostRuntime) -> Result<(), Fail> {
    let alloc = rt.alloc();
    let beside = signals(alloc, 65, 1)?;
    let parts = [MACHINE, beside.as_str(), "end"];
    let text = "refused script 139 many\n";
    let ended = tells(&rt, alloc, &parts, Status::ScriptRefused, text);
    assert_eq!(rt; ended, Some(true));
    Ok(())
}

#[test]
fn threads_use_all_places(rt: HostRuntime) -> Result<(), Fail> {
    let alloc = rt.alloc();
    let beside = signals(alloc, 4, 50)?;
    let parts = [
        MACHINE,
        "limits 16777215 100\n",
        BASE,
        beside.as_str(),
        "end\n",
    ];
    let (status, sink) = run(&rt, alloc, &Open, "its run", &parts)?;
    assert_eq!(rt; status, Status::Spent);
    let printed = str::from_utf8(sink.bytes().ok_or("no bytes")?)?;
    assert!(rt; printed.contains("\n99 2."));
    assert!(rt; printed.ends_with("-> delivered 2 8200\nrefused spent 1\n"));
    Ok(())
}

// Four writes of registers, 264 commands of three calls each, 4,000 signals, and 100 commands more.
#[test]
fn each_call_of_a_generated_run_is_committed_once(rt: HostRuntime) -> Result<(), Fail> {
    let gate = Commits {
        count: AtomicU64::new(0),
    };
    let (status, _) = run(&rt, rt.alloc(), &gate, "its gen 1000 4", &[])?;
    assert_eq!(rt; status, Status::Ok);
    assert_eq!(rt; gate.count.load(Ordering::SeqCst), 5096);
    Ok(())
}

// Commands that end translations, one more than there are stamps: the stamp begins again at 0, and
// no entry of the cache stays.
#[test]
fn stamps_begin_again(rt: HostRuntime) {
    let commands =
        "phase\nthread\nsignal 16 3\nrun mapc 1 3\nrun mapc 1 2\nrun mapc 1 3\nsignal 16 3\nend\n";
    for limits in ["limits 1 1099511627775\n", "limits 2 1099511627775\n"] {
        let parts = [MACHINE, limits, MAPPED, commands];
        let end = "delivered 2 8200
ran mapc
ran mapc
ran mapc
delivered 3 8200
vcpu 2 pending 8200
vcpu 3 pending 8200
done
";
        let ended = tells(&rt, rt.alloc(), &parts, Status::Ok, end);
        assert_eq!(rt; ended, Some(true), "{limits}");
    }
}
