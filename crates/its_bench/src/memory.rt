//! Writes of guest memory, and copies of the pages that were written.
ghost use Rattle.its_bench.specs.Ready.{IsReady};

use crate::measure::Lap;
use crate::shared::MEMORY;
use guest_port::{copy, poke};
use its_plain::{Bytes64, Reply};
use its_turns::{Machine, Pass};
use its_types::{Addr, Open, Placed};
use std::io;
use std::sync::Wait;
use std::time::{Clock, Instant};

// Above the tables.
const WRITTEN: u64 = MEMORY + 0x10_0000;

// How many words are written in turn: those of 16 pages.
const WORDS: u32 = 8192;

/// How many bytes of memory copies want: 64 MiB.
pub const LARGE: u64 = 0x400_0000;

// How many pages are written before each copy, and how many bytes stand between them.
const PAGES: u32 = 100;

const APART: u64 = 160 * 4096;

// A write of a number. Answers whether it was made.
fn poke_word<R: Wait>(rt: &R, machine: &Machine, pass: &mut Pass, addr: u64, word: u32) -> bool
    requires { IsReady machine.now pass.old }
    ensures { IsReady machine.now pass.new }
{
    let bytes = Bytes64::new(&u64::from(word).to_le_bytes());
    match poke(rt, machine, pass, &Open, Addr(addr), &bytes) {
        Ok(Placed { reply, .. }) => reply == Reply::Ok,
        Err(_) => false,
    }
}

// So many writes of words in turn. Answers how many were made.
fn pokes<R: Wait>(rt: &R, machine: &Machine, pass: &mut Pass, count: u32) -> u64
    requires { IsReady machine.now pass.old }
    ensures { IsReady machine.now pass.new }
{
    let mut made = 0u64;
    for n in 0..count {
        let addr = WRITTEN + 8 * u64::from(n % WORDS);
        made = made.wrapping_add(u64::from(poke_word(rt, machine, pass, addr, n)));
    }
    made
}

/// So many writes of eight bytes, after some that aren't timed.
pub fn time_pokes<R: Clock + Wait>(
    rt: &R,
    machine: &Machine,
    pass: &mut Pass,
    count: u32,
) -> io::Result<Lap>
    requires { IsReady machine.now pass.old }
{
    pokes(rt, machine, pass, WORDS);
    let since = Instant::now(rt)?;
    let made = pokes(rt, machine, pass, count);
    Lap::since(rt, &since, made)
}

// Writes into a hundred pages.
fn dirty<R: Wait>(rt: &R, machine: &Machine, pass: &mut Pass, word: u32)
    requires { IsReady machine.now pass.old }
    ensures { IsReady machine.now pass.new }
{
    for page in 0..PAGES {
        let addr = WRITTEN + APART * u64::from(page);
        poke_word(rt, machine, pass, addr, word);
    }
}

// Copies the pages that were written. Answers how many they were.
fn copied<R: Wait>(rt: &R, machine: &Machine, pass: &mut Pass) -> u64
    requires { IsReady machine.now pass.old }
    ensures { IsReady machine.now pass.new }
{
    match copy(rt, machine, pass, &Open) {
        Ok(Placed { reply, .. }) => reply,
        Err(_) => 0,
    }
}

/// So many copies of a hundred pages of 64 MiB, each after they were written. The first copy takes
/// all pages, and isn't timed.
pub fn time_copies<R: Clock + Wait>(
    rt: &R,
    machine: &Machine,
    pass: &mut Pass,
    count: u32,
) -> io::Result<Lap>
    requires { IsReady machine.now pass.old }
{
    copied(rt, machine, pass);
    let mut lap = Lap::new();
    for n in 0..count {
        dirty(rt, machine, pass, n);
        let since = Instant::now(rt)?;
        let pages = copied(rt, machine, pass);
        lap.add(rt, &since, u64::from(pages == u64::from(PAGES)))?;
    }
    Ok(lap)
}
