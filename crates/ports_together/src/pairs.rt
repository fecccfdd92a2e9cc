//! A machine of two translators, with a second memory and devices that write by address: its calls
//! name a translator, its writes are copied, and its devices' writes are messages or go to memory.
ghost use Rattle.std.specs.Prelude.{◌≡◌, true, IfOk};
ghost use Rattle.device_port.specs.Routes.{AreDevices};
ghost use Rattle.ports_together.specs.Ready.{IsReady, IsRoot, IsPair};

use crate::asks::{self, DEVICE, Said, at, meant, poked};
use crate::given::{Given, command};
use crate::made::{VALUES, described};
use cmd_engine::{step_at, write_at};
use device_port::{Dma, Now, dma, signal_at, try_signal_at};
use guest_port::copy;
use its_command::{Op, encode};
use its_migrate::share;
use its_plain::{Bytes64, Cause, Desc, Its, MakeError, Reply, RequesterRanges, Requesters};
use its_turns::{Machine, Pass, Root, look};
use its_types::{Addr, EventId, Listed, Open, Placed};
use std::alloc::{AllocError, Global};
use std::sync::Wait;
use std::test::Fail;

// Device 16 has event 3, which the first translator leads to processor 2 as LPI 8200. That LPI is
// enabled, with priority 0xa0.
const WORDS: [(u64, u64); 4] = [
    (0x8003_0008, 0xa1),
    (0x8001_0000, 0x8000_0000_0002_0001),
    (0x8000_0080, 0x8000_0000_1001_8004),
    (0x800c_0018, 0x0000_0000_2008_0001),
];

// Requesters 256 to 511 are the devices from number 16 on, and the first translator has frames. The
// second is as after a reset.
fn described_pair(alloc: Global) -> Result<Desc, AllocError>
    ensures { IfOk result IsPair }
{
    let mut translators = Listed::new(alloc);
    translators.push(Its {
        restore: Some(VALUES),
        frames: Some(Addr(0x808_0000)),
    })?;
    translators.push(Its {
        restore: None,
        frames: None,
    })?;
    let requesters = Requesters {
        first: 0x100,
        last: 0x1ff,
        dev: DEVICE,
    };
    let mut desc = described(alloc, &WORDS, 4095, false, false)?;
    desc.limits.stamp_last = 4095;
    desc.translators = translators;
    desc.requesters = RequesterRanges::from_slice(alloc, &[requesters])?;
    desc.track = true;
    Ok(desc)
}

fn made_pair(alloc: Global) -> Result<(Machine, Root), MakeError>
    ensures { IfOk result (λ made. IsRoot made.0 made.1) }
{
    let Ok(desc) = described_pair(alloc) else {
        return Err(MakeError::NoMemory);
    };
    share(alloc, &desc)
}

// What is asked.
#[derive(Clone, Copy)]
enum Ask {
    // What names no translator.
    Other(asks::Ask),
    // A signal to a translator of this event of device 16, by the cache alone.
    Hit(u8, u32),
    Send(u8, u32),
    // A write of a translator's register of so many bytes.
    Write(u8, u32, u8, u64),
    // A command at this place of a translator's queue: it is poked, CWRITER is moved past it, and
    // the translator steps.
    Run(u8, u8, Given),
    // A write of so many bytes of a number.
    Poke(u64, u8, u64),
    Copy,
    // A requester's write of so many bytes of a number.
    Dma(u32, u64, u8, u64),
}

fn hit(machine: &Machine, pass: &mut Pass, its: u8, ev: u32) -> Said
    requires { IsReady machine.now pass.old }
    ensures { IsReady machine.now pass.new }
{
    if its >= machine.translators() {
        return Said::Nothing;
    }
    match try_signal_at(machine, pass, &Open, its, DEVICE, EventId(ev)) {
        Now::Done(Placed { place, reply }) => at(place, Reply::Signal(reply)),
        Now::Miss => Said::Miss,
        Now::Busy(busy) => Said::Busy(busy),
        Now::Raced(raced) => Said::Raced(raced),
        Now::Spent => Said::Nothing,
    }
}

fn send<R: Wait>(rt: &R, machine: &Machine, pass: &mut Pass, its: u8, ev: u32) -> Said
    requires { IsReady machine.now pass.old }
    ensures { IsReady machine.now pass.new }
{
    if its >= machine.translators() {
        return Said::Nothing;
    }
    match signal_at(rt, machine, pass, &Open, its, DEVICE, EventId(ev)) {
        Ok(Placed { place, reply }) => at(place, Reply::Signal(reply)),
        Err(_) => Said::Nothing,
    }
}

fn written<R: Wait>(
    rt: &R,
    machine: &Machine,
    pass: &mut Pass,
    its: u8,
    off: u32,
    size: u8,
    value: u64,
) -> Said
    requires { IsReady machine.now pass.old }
    ensures { IsReady machine.now pass.new }
{
    if its >= machine.translators() {
        return Said::Nothing;
    }
    match write_at(rt, machine, pass, &Open, its, off, size, value) {
        Ok(Placed { place, reply: () }) => at(place, Reply::Ok),
        Err(_) => Said::Nothing,
    }
}

// The second translator's queue is 1 MiB above the first's.
fn run<R: Wait>(
    rt: &R,
    machine: &Machine,
    pass: &mut Pass,
    its: u8,
    place: u8,
    given: Given,
) -> Said
    requires { IsReady machine.now pass.old }
    ensures { IsReady machine.now pass.new }
{
    if its >= machine.translators() {
        return Said::Nothing;
    }
    let queue = 0x8002_0000 + 0x10_0000 * u64::from(its);
    let offset = 32 * u64::from(place);
    let bytes = Bytes64::new(&encode(&command(given)));
    poked(rt, machine, pass, queue + offset, &bytes);
    written(rt, machine, pass, its, 0x88, 8, offset + 32);
    match step_at(rt, machine, pass, &Open, its) {
        Ok(Placed { place, reply }) => at(place, Reply::Step(reply)),
        Err(_) => Said::Nothing,
    }
}

fn copied<R: Wait>(rt: &R, machine: &Machine, pass: &mut Pass) -> Said
    requires { IsReady machine.now pass.old }
    ensures { IsReady machine.now pass.new }
{
    match copy(rt, machine, pass, &Open) {
        Ok(Placed { place, reply }) => at(place, Reply::Copied(reply)),
        Err(_) => Said::Nothing,
    }
}

/// Whether these requesters are devices, and all their numbers low.
pub fn are_low(ranges: &[Requesters]) -> bool
    ensures { result ≡ true → AreDevices ranges.now }
{
    ranges
        .iter()
        .all(|range| range.dev.0 <= 0xffff && range.last <= 0xffff)
}

// Where the requesters are devices, as those of a description that makes a machine are.
fn sent_by<R: Wait>(
    rt: &R,
    machine: &Machine,
    pass: &mut Pass,
    req: u32,
    addr: u64,
    bytes: &Bytes64,
) -> Said
    requires { IsReady machine.now pass.old }
    ensures { IsReady machine.now pass.new }
{
    if !are_low(machine.desc().requesters.as_slice()) {
        return Said::Nothing;
    }
    match dma(rt, machine, pass, &Open, req, Addr(addr), bytes) {
        Ok(Placed { place, reply }) => at(place, written_by(reply)),
        Err(_) => Said::Nothing,
    }
}

fn written_by(reply: Dma) -> Reply {
    match reply {
        Dma::Signal(signal) => Reply::Signal(signal),
        Dma::NoRequester => Reply::NoRequester,
        Dma::Ok => Reply::Ok,
        Dma::Outside => Reply::Outside,
    }
}

// So many of a number's bytes, one at least and eight at most.
fn low(size: u8, number: u64) -> Bytes64 {
    Bytes64::new(&number.to_le_bytes()[..usize::from(size.max(1).min(8))])
}

fn asked<R: Wait>(rt: &R, alloc: Global, machine: &Machine, pass: &mut Pass, ask: Ask) -> Said
    requires { IsReady machine.now pass.old }
    ensures { IsReady machine.now pass.new }
{
    match ask {
        Ask::Other(ask) => asks::asked(rt, alloc, machine, pass, ask),
        Ask::Hit(its, ev) => hit(machine, pass, its, ev),
        Ask::Send(its, ev) => send(rt, machine, pass, its, ev),
        Ask::Write(its, off, size, value) => written(rt, machine, pass, its, off, size, value),
        Ask::Run(its, place, given) => run(rt, machine, pass, its, place, given),
        Ask::Poke(addr, size, number) => poked(rt, machine, pass, addr, &low(size, number)),
        Ask::Copy => copied(rt, machine, pass),
        Ask::Dma(req, addr, size, number) => {
            sent_by(rt, machine, pass, req, addr, &low(size, number))
        }
    }
}

// How many of the rows hold, up to the first that doesn't.
fn play<R: Wait>(
    rt: &R,
    alloc: Global,
    machine: &Machine,
    pass: &mut Pass,
    rows: &[(Ask, Said)],
) -> usize
    requires { IsReady machine.now pass.old }
    ensures { IsReady machine.now pass.new }
{
    for (row, &(ask, expected)) in rows.iter().enumerate() {
        if asked(rt, alloc, machine, pass, ask) != meant(expected) {
            return row;
        }
    }
    rows.len()
}

// How many of the rows hold, and the translators' stamps then.
fn counted<R: Wait>(
    rt: &R,
    alloc: Global,
    machine: &Machine,
    root: &mut Root,
    rows: &[(Ask, Said)],
) -> Option<(usize, u32, u32)>
    requires { IsRoot machine.now root.old }
{
    let count = play(rt, alloc, machine, root, rows);
    let word = look(machine, root);
    if machine.translators() != 2 {
        return None;
    }
    let first = machine.stamp_of(word, 0);
    let second = machine.stamp_of(word, 1);
    Some((count, first, second))
}

// The same on a machine that is made for it.
fn played<R: Wait>(rt: &R, alloc: Global, rows: &[(Ask, Said)]) -> Option<(usize, u32, u32)> {
    let Ok((machine, mut root)) = made_pair(alloc) else {
        return None;
    };
    let held = counted(rt, alloc, &machine, &mut root, rows);
    drop((machine, root));
    held
}

// The second translator leads event 3 to processor 3, and unmaps device 16.
const TWO: [(Ask, Said); 15] = [
    (
        Ask::Write(1, 0x100, 8, 0x8107_0000_8010_0200),
        Said::At(0, Reply::Ok),
    ),
    (
        Ask::Write(1, 0x108, 8, 0x8407_0000_8011_0200),
        Said::At(1, Reply::Ok),
    ),
    (
        Ask::Write(1, 0x80, 8, 0x8000_0000_8012_0000),
        Said::At(2, Reply::Ok),
    ),
    (Ask::Write(1, 0x0, 4, 1), Said::At(3, Reply::Ok)),
    (Ask::Run(1, 0, Given::MapdBeside), Said::Ran(6, Op::Mapd)),
    (Ask::Run(1, 1, Given::Mapc(1, 3)), Said::Ran(9, Op::Mapc)),
    (
        Ask::Run(1, 2, Given::Mapti(3, 8200, 1)),
        Said::Ran(12, Op::Mapti),
    ),
    (Ask::Send(0, 3), Said::Sent(13, 2, 8200)),
    (Ask::Send(1, 3), Said::Sent(14, 3, 8200)),
    (Ask::Run(1, 3, Given::Unmapd), Said::Ran(17, Op::Mapd)),
    (Ask::Send(1, 3), Said::Dropped(18, Cause::NoDevice)),
    (Ask::Hit(0, 3), Said::Sent(19, 2, 8200)),
    (
        Ask::Run(0, 0, Given::Movall(2, 3)),
        Said::Ran(22, Op::Movall),
    ),
    (Ask::Other(asks::Ask::Show(2)), Said::NoLpi(23)),
    (Ask::Other(asks::Ask::Show(3)), Said::Lpi(24, 8200, 0xa0)),
];

#[test]
fn two_translators(rt: HostRuntime) -> Result<(), Fail> {
    assert_eq!(rt; played(&rt, rt.alloc(), &TWO), Some((15, 0, 1)));
    Ok(())
}

// All pages are copied first, and then those that were written.
const COPIED: [(Ask, Said); 5] = [
    (Ask::Copy, Said::At(0, Reply::Copied(512))),
    (
        Ask::Poke(0x8003_0ffe, 4, 0x0403_0201),
        Said::At(1, Reply::Ok),
    ),
    (Ask::Poke(0x8003_0008, 1, 0x40), Said::At(2, Reply::Ok)),
    (Ask::Copy, Said::At(3, Reply::Copied(2))),
    (Ask::Copy, Said::At(4, Reply::Copied(0))),
];

#[test]
fn written_pages_are_copied(rt: HostRuntime) -> Result<(), Fail> {
    assert_eq!(rt; played(&rt, rt.alloc(), &COPIED), Some((5, 0, 0)));
    Ok(())
}

// Messages of 4 bytes and of 2, and writes that are none.
const BY_ADDRESS: [(Ask, Said); 8] = [
    (Ask::Dma(256, 0x809_0040, 4, 3), Said::Sent(0, 2, 8200)),
    (
        Ask::Dma(257, 0x809_0040, 4, 3),
        Said::Dropped(1, Cause::NoDevice),
    ),
    (
        Ask::Dma(512, 0x809_0040, 4, 3),
        Said::At(2, Reply::NoRequester),
    ),
    (Ask::Dma(256, 0x809_0040, 2, 3), Said::Sent(3, 2, 8200)),
    (Ask::Dma(256, 0x809_0040, 3, 3), Said::At(4, Reply::Outside)),
    (Ask::Dma(256, 0x809_0042, 2, 3), Said::At(5, Reply::Outside)),
    (Ask::Dma(512, 0x8003_0008, 1, 0x40), Said::At(6, Reply::Ok)),
    (
        Ask::Other(asks::Ask::Peek(0x8003_0008, 1)),
        Said::Byte(7, 0x40),
    ),
];

#[test]
fn devices_write_by_address(rt: HostRuntime) -> Result<(), Fail> {
    assert_eq!(rt; played(&rt, rt.alloc(), &BY_ADDRESS), Some((8, 0, 0)));
    Ok(())
}
