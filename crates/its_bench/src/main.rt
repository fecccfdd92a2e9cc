//! Measures the calls of the machine that threads share, and those of the machine of one caller.
//!
//! - Without words: a few calls of each kind, and the trials with fewer calls.
//! - `time COUNT [NAME]` prints how many nanoseconds a call took, of each kind or of the one named.
//! - `beside COUNT [NAME]` prints how long a signal took beside a thread that makes other calls
//!   all the time: the middle one, the 99th and the 99.9th of a hundred, and the longest; and how
//!   many signals and others there were a second. One, two and four threads make so many each.
//! - `many COUNT [NAME]` prints how many nanoseconds a call took on a machine of 16 processors and
//!   on one of 512.
//! - `stress COUNT [NAME]`: so many calls of threads beside one that changes what they meet, of
//!   which each reply is checked; all trials, or the one named.
//! - `events COUNT`, `devices COUNT`: signals of the machine of one caller, for a clock outside
//!   (see play).
#![tactic(auto)]

mod actors;
mod asks;
mod beside;
mod chance;
mod copying;
mod course;
mod guest;
mod latencies;
mod machine;
mod many;
mod measure;
mod memory;
mod play;
mod replay;
mod saving;
mod shared;
mod signals;
mod stress;
mod tables;
mod times;
mod trial;
mod trials;
mod turning;

use actors::Counts;
use beside::{BESIDE, Beside, SIGNALLING};
use course::{Found, time_beside};
use its_types::MOST_VCPUS;
use many::{MANY, Many, SIZES, time_many};
use measure::Lap;
use play::{Mapped, play};
use std::alloc::Global;
use std::process::ExitCode;
use std::sync::Wait;
use std::thread::Threads;
use std::time::Clock;
use std::{env, io};
use times::{ALL, time};
use trial::Checked;
use trials::{TRIALS, Trial, run_trial};

// Of each kind, where no count is given.
const FEW: u32 = 256;

const FEW_STRESS: u32 = 100_000;

// The exit statuses.
const OK: u8 = 0;

const WRONG: u8 = 1;

const WORDS: u8 = 2;

const MEMORY: u8 = 5;

// Prints what a call took.
fn print_time<R: Print>(rt: &R, name: &str, lap: &Lap) -> io::Result<()> {
    let tenths = lap.tenths();
    println!(rt; "{name} {}.{} ns", tenths / 10, tenths % 10)
}

// Makes calls of each kind or of the one with this name, and prints what they took.
fn print_times<R: Clock + Print + AllocGlobal + Threads + Wait + Sync>(
    rt: &R,
    count: u32,
    only: Option<&str>,
) -> io::Result<()> {
    for (name, times) in ALL {
        if only.is_none_or(|only| only == name) {
            let lap = time(rt, rt.alloc(), times, count)?;
            print_time(rt, name, &lap)?;
        }
    }
    Ok(())
}

// Prints what signals took, and how many there were a second beside how many other calls.
fn print_found<R: Print>(rt: &R, name: &str, mut found: Found) -> io::Result<()> {
    found.latencies.sort();
    let latencies = &found.latencies;
    let (half, most) = (latencies.at(500), latencies.most());
    let (nearly, all) = (latencies.at(990), latencies.at(999));
    let (rate, others) = (found.signals.rate(), found.others.rate());
    println!(rt;
        "{name} p50 {half} p99 {nearly} p99.9 {all} most {most} ns rate {rate} others {others} a second"
    )
}

// Sends signals by so many threads beside one of each kind, or those of the row with this name, and
// prints what they took.
fn print_beside<R: Clock + Print + AllocGlobal + Threads + Wait + Sync>(
    rt: &R,
    count: u32,
    only: Option<&str>,
) -> io::Result<()> {
    for (name, beside) in BESIDE {
        for (threads, end) in SIGNALLING {
            let name = format!(in rt.alloc(); "{name}{end}")?;
            let wanted = only.is_none_or(|only| only == name.as_str());
            if wanted && beside.is_apart(threads) {
                let found = time_beside(rt, rt.alloc(), beside, threads, count)?;
                print_found(rt, &name, found)?;
            }
        }
    }
    Ok(())
}

// Makes calls on machines of either size, of each kind or of the one with this name, and prints
// what they took.
fn print_many<R: Clock + Print + AllocGlobal + Wait>(
    rt: &R,
    count: u32,
    only: Option<&str>,
) -> io::Result<()> {
    for (name, many) in MANY {
        if only.is_none_or(|only| only == name) {
            print_sizes(rt, name, many, count)?;
        }
    }
    Ok(())
}

// Makes calls of one kind on machines of either size, and prints what they took.
fn print_sizes<R: Clock + Print + AllocGlobal + Wait>(
    rt: &R,
    name: &str,
    many: Many,
    count: u32,
) -> io::Result<()> {
    for vcpus in SIZES {
        let lap = time_many(rt, rt.alloc(), many, vcpus, count)?;
        print_time(rt, &format!(in rt.alloc(); "{name}-of-{vcpus}")?, &lap)?;
    }
    Ok(())
}

fn print_count<R: Print>(rt: &R, name: &str, calls: u64) -> io::Result<()> {
    println!(rt; "{name}: {calls} calls")
}

// Sends a few signals by each number of threads beside one of a kind, and prints how many.
fn print_counts_beside<R: Clock + Print + AllocGlobal + Threads + Wait + Sync>(
    rt: &R,
    name: &str,
    beside: Beside,
) -> io::Result<()> {
    for (threads, end) in SIGNALLING {
        if beside.is_apart(threads) {
            let found = time_beside(rt, rt.alloc(), beside, threads, FEW)?;
            let name = format!(in rt.alloc(); "{name}{end}")?;
            print_count(rt, &name, found.latencies.count() as u64)?;
        }
    }
    Ok(())
}

// Makes a few calls of each kind, and prints how many.
fn print_counts<R: Clock + Print + AllocGlobal + Threads + Wait + Sync>(rt: &R) -> io::Result<()> {
    for (name, times) in ALL {
        let lap = time(rt, rt.alloc(), times, FEW)?;
        print_count(rt, name, lap.calls)?;
    }
    for (name, beside) in BESIDE {
        print_counts_beside(rt, name, beside)?;
    }
    for (name, many) in MANY {
        let lap = time_many(rt, rt.alloc(), many, MOST_VCPUS, FEW)?;
        print_count(rt, name, lap.calls)?;
    }
    Ok(())
}

fn print_checked<R: Print>(rt: &R, name: &str, checked: &Checked) -> io::Result<()> {
    let (places, Counts { hits, again }) = (checked.places, checked.counts);
    if again == 0 {
        println!(rt; "{name}: checked {places} places, hits {hits}")
    } else {
        println!(rt; "{name}: checked {places} places, hits {hits}, made again {again}")
    }
}

// A trial of real threads, each reply of which is checked.
fn check_trial<R: Print + AllocGlobal + Threads + Wait + Sync>(
    rt: &R,
    name: &str,
    kind: Trial,
    count: u32,
    counts: bool,
) -> io::Result<u8> {
    let checked = run_trial(rt, rt.alloc(), kind, count)?;
    if let Some(place) = checked.wrong {
        println!(rt; "{name}: another reply at place {place}")?;
        return Ok(WRONG);
    }
    if kind.signals() && checked.counts.hits == 0 {
        println!(rt; "{name}: no hits")?;
        return Ok(WRONG);
    }
    if counts {
        print_checked(rt, name, &checked)?;
    } else {
        println!(rt; "{name}: every reply as replayed")?;
    }
    Ok(OK)
}

// All trials, or the one with this name, up to the first that fails.
fn check_trials<R: Print + AllocGlobal + Threads + Wait + Sync>(
    rt: &R,
    count: u32,
    counts: bool,
    only: Option<&str>,
) -> io::Result<u8> {
    for (name, kind) in TRIALS {
        if only.is_none_or(|only| only == name) {
            let status = check_trial(rt, name, kind, count, counts)?;
            if status != OK {
                return Ok(status);
            }
        }
    }
    Ok(OK)
}

// A few calls of each kind.
fn run_few<R: Clock + Print + AllocGlobal + Threads + Wait + Sync>(rt: &R) -> io::Result<u8> {
    print_counts(rt)?;
    check_trials(rt, FEW_STRESS, false, None)
}

// Signals of the machine of one caller.
fn run_alone(alloc: Global, mapped: Mapped, count: u32) -> u8 {
    match play(alloc, mapped, count) {
        Ok(delivered) => u8::from(delivered != count),
        Err(_) => MEMORY,
    }
}

fn run<R: Clock + Print + AllocGlobal + Threads + Wait + Sync>(
    rt: &R,
    words: &[String],
) -> io::Result<u8> {
    let Some(word) = words.get(1) else {
        return run_few(rt);
    };
    let Some(Ok(count)) = words.get(2).map(|word| word.parse::<u32>()) else {
        return Ok(WORDS);
    };
    match word.as_str() {
        "time" => {
            print_times(rt, count, words.get(3).map(|word| word.as_str()))?;
            Ok(OK)
        }
        "beside" => {
            print_beside(rt, count, words.get(3).map(|word| word.as_str()))?;
            Ok(OK)
        }
        "many" => {
            print_many(rt, count, words.get(3).map(|word| word.as_str()))?;
            Ok(OK)
        }
        "stress" => check_trials(rt, count, true, words.get(3).map(|word| word.as_str())),
        "events" => Ok(run_alone(rt.alloc(), Mapped::Events, count)),
        "devices" => Ok(run_alone(rt.alloc(), Mapped::Devices, count)),
        _ => Ok(WORDS),
    }
}

// The words of the command line.
fn words(rt: &HostRuntime) -> io::Result<Vec<String>> {
    let mut words = Vec::new(rt.alloc());
    for word in env::args(rt)? {
        words.push(word)?;
    }
    Ok(words)
}

fn main(rt: HostRuntime) -> io::Result<ExitCode> {
    let words = words(&rt)?;
    let status = run(&rt, &words)?;
    Ok(ExitCode::from(status))
}
