//! A trial: two threads that write guest memory while another copies the pages that were written.
ghost use Rattle.std.specs.Prelude.{◌≡◌, IfOk, length};

use crate::asks::Ask;
use crate::chance::Chance;
use crate::shared::{Kind, MEMORY, SINGLE};
use crate::signals::map_devices;
use crate::trial::{Calls, Checked, trial};
use its_plain::Bytes64;
use its_types::Addr;
use std::alloc::{AllocError, Global};
use std::sync::Wait;
use std::thread::Threads;

// The pages that are written stand above the tables of the first translator and of its devices.
const WRITTEN: u64 = MEMORY + 0x18_0000;

const PAGES: u32 = 128;

// How many writes of both threads there are for a copy.
const POKES_A_COPY: u32 = 50;

// A save writes every table. There are a tenth as many as copies.
const COPIES_A_SAVE: u32 = 10;

// A place of eight bytes, some of which lie in two pages.
fn place(chance: &mut Chance) -> Addr {
    let page = u64::from(chance.below(PAGES - 1));
    let offset = u64::from(chance.below(4096));
    Addr(WRITTEN + 4096 * page + offset)
}

// So many writes, each read again.
fn poking(alloc: Global, chance: &mut Chance, count: u32) -> Result<Vec<Ask>, AllocError> {
    let mut asks = Vec::new(alloc);
    for n in 0..count {
        let addr = place(chance);
        let bytes = Bytes64::new(&u64::from(n).to_le_bytes());
        asks.push(Ask::Poke { addr, bytes })?;
        asks.push(Ask::Peek { addr, count: 8 })?;
    }
    Ok(asks)
}

// So many copies, and a save now and then.
fn copying(alloc: Global, count: u32) -> Result<Vec<Ask>, AllocError> {
    let mut asks = Vec::new(alloc);
    for n in 0..count {
        asks.push(Ask::Copy)?;
        if n % COPIES_A_SAVE == 0 {
            asks.push(Ask::Save)?;
        }
    }
    Ok(asks)
}

// Copies until none is left, and what each page begins with.
fn reading(alloc: Global) -> Result<Vec<Ask>, AllocError> {
    let mut asks = Vec::new(alloc);
    asks.push(Ask::Copy)?;
    asks.push(Ask::Copy)?;
    for page in 0..PAGES {
        let addr = Addr(WRITTEN + 4096 * u64::from(page));
        asks.push(Ask::Peek { addr, count: 64 })?;
    }
    Ok(asks)
}

fn calls(alloc: Global, pokes: u32) -> Result<Calls, AllocError>
    ensures { IfOk result (λ c. length c.beside.items ≡ 3) }
{
    let mut chance = Chance::new(3);
    let (first, _) = map_devices(alloc, 0)?;
    let half = pokes / 2;
    let mut beside = Vec::new(alloc);
    beside.push(poking(alloc, &mut chance, half)?)?;
    beside.push(poking(alloc, &mut chance, pokes - half)?)?;
    beside.push(copying(alloc, pokes / POKES_A_COPY)?)?;
    Ok(Calls {
        first,
        beside,
        last: reading(alloc)?,
    })
}

/// Makes so many writes, with a copy for every fifty, and checks each reply: what was read, and how
/// many pages each copy took.
pub fn stress_copying<R: Threads + Wait + Sync>(
    rt: &R,
    alloc: Global,
    pokes: u32,
) -> Result<Checked, AllocError> {
    let kind = Kind {
        track: true,
        ..SINGLE
    };
    trial(rt, alloc, kind, calls(alloc, pokes)?)
}
