//! Commands, registers and saves, by calls of the ports: what they answer, and what they leave of
//! the cache.
ghost use Rattle.std.specs.Prelude.{IfOk};
ghost use Rattle.ports_together.specs.Ready.{IsReady};

use crate::asks::{Ask, Said, play};
use crate::given::Given;
use crate::made::{made, made_with};
use its_command::Op;
use its_plain::{Cause, MakeError, Reason, Reply};
use its_turns::{Machine, Root};
use std::alloc::Global;
use std::sync::Wait;
use std::test::Fail;

/// LPI 8200 is enabled, with priority 0xa0. Nothing is mapped.
pub const CONFIGURED: [(u64, u64); 1] = [(0x8003_0008, 0xa1)];

/// Event 3 goes to processor 2 as LPI 8200. These are the calls of places 0 to 8.
pub const MAPPED: [(Ask, Said); 3] = [
    (Ask::Run(0, Given::Mapd), Said::Ran(2, Op::Mapd)),
    (Ask::Run(1, Given::Mapc(1, 2)), Said::Ran(5, Op::Mapc)),
    (
        Ask::Run(2, Given::Mapti(3, 8200, 1)),
        Said::Ran(8, Op::Mapti),
    ),
];

// What a table of rows is played on.
#[derive(Clone, Copy)]
enum Kind {
    Usual,
    // The last stamp is 2.
    FewStamps,
    // The guest programs the LPI registers.
    Programmed,
    // It does, and is a Linux.
    Linux,
}

fn made_of(alloc: Global, kind: Kind) -> Result<(Machine, Root), MakeError>
    ensures { IfOk result (λ made. IsReady made.0 made.1) }
{
    match kind {
        Kind::Usual => made(alloc, &CONFIGURED),
        Kind::FewStamps => made_with(alloc, &CONFIGURED, 2, false, false),
        Kind::Programmed => made_with(alloc, &CONFIGURED, 16_777_215, true, false),
        Kind::Linux => made_with(alloc, &CONFIGURED, 16_777_215, true, true),
    }
}

// How many rows hold, of those that map event 3 and of these after them.
fn play_both<R: Wait>(
    rt: &R,
    alloc: Global,
    machine: &Machine,
    root: &mut Root,
    rows: &[(Ask, Said)],
) -> (usize, usize)
    requires { IsReady machine.now root.old }
{
    let mapped = play(rt, alloc, machine, root, &MAPPED);
    let after = play(rt, alloc, machine, root, rows);
    (mapped, after)
}

// The same on a machine that is made for it.
fn played<R: Wait>(
    rt: &R,
    alloc: Global,
    kind: Kind,
    rows: &[(Ask, Said)],
) -> Result<(usize, usize), MakeError> {
    let (machine, mut root) = made_of(alloc, kind)?;
    let held = play_both(rt, alloc, &machine, &mut root, rows);
    drop((machine, root));
    Ok(held)
}

// A move and then a discard of event 3. Event 4 stays in the cache.
const ONE_ENDS: [(Ask, Said); 17] = [
    (
        Ask::Run(3, Given::Mapti(4, 8201, 1)),
        Said::Ran(11, Op::Mapti),
    ),
    (Ask::Run(4, Given::Mapc(2, 3)), Said::Ran(14, Op::Mapc)),
    (Ask::Send(3), Said::Sent(15, 2, 8200)),
    (Ask::Send(4), Said::Sent(16, 2, 8201)),
    (Ask::Hit(3), Said::Sent(17, 2, 8200)),
    (Ask::Run(5, Given::Movi(3, 2)), Said::Ran(20, Op::Movi)),
    (Ask::Hit(4), Said::Sent(21, 2, 8201)),
    (Ask::Hit(3), Said::Miss),
    (Ask::Send(3), Said::Sent(22, 3, 8200)),
    (Ask::Look, Said::Stamp(0, 23)),
    (Ask::Hit(3), Said::Sent(23, 3, 8200)),
    (Ask::Run(6, Given::Discard(3)), Said::Ran(26, Op::Discard)),
    (Ask::Hit(4), Said::Sent(27, 2, 8201)),
    (Ask::Hit(3), Said::Miss),
    (Ask::Send(3), Said::Dropped(28, Cause::NoEvent)),
    (Ask::Hit(4), Said::Sent(29, 2, 8201)),
    (Ask::Look, Said::Stamp(0, 30)),
];

// With 2 as the last stamp, three commands after which a collection has another target.
const ALL_END: [(Ask, Said); 14] = [
    (Ask::Send(3), Said::Sent(9, 2, 8200)),
    (Ask::Look, Said::Stamp(0, 10)),
    (Ask::Run(3, Given::Mapc(1, 3)), Said::Ran(12, Op::Mapc)),
    (Ask::Hit(3), Said::Miss),
    (Ask::Look, Said::Stamp(1, 13)),
    (Ask::Run(4, Given::Mapc(1, 2)), Said::Ran(15, Op::Mapc)),
    (Ask::Hit(3), Said::Miss),
    (Ask::Look, Said::Stamp(2, 16)),
    (Ask::Run(5, Given::Mapc(1, 3)), Said::Ran(18, Op::Mapc)),
    (Ask::Hit(3), Said::Miss),
    (Ask::Look, Said::Stamp(0, 19)),
    (Ask::Send(3), Said::Sent(19, 3, 8200)),
    (Ask::Show(2), Said::Lpi(20, 8200, 0xa0)),
    (Ask::Show(3), Said::Lpi(21, 8200, 0xa0)),
];

const SAVED: [(Ask, Said); 7] = [
    (Ask::Send(3), Said::Sent(9, 2, 8200)),
    (Ask::Save, Said::At(10, Reply::Saved)),
    (
        Ask::Peek(0x8000_0080, 8),
        Said::Word(11, 0x8000_0000_1001_8004),
    ),
    (
        Ask::Peek(0x8001_0000, 8),
        Said::Word(12, 0x8000_0000_0002_0001),
    ),
    (
        Ask::Peek(0x800c_0018, 8),
        Said::Word(13, 0x0000_0000_2008_0001),
    ),
    (Ask::Peek(0x8006_0401, 1), Said::Byte(14, 0x01)),
    (Ask::Take(2), Said::Lpi(15, 8200, 0xa0)),
];

// A pending LPI goes with its event.
const MOVED: [(Ask, Said); 9] = [
    (Ask::Run(3, Given::Mapc(2, 3)), Said::Ran(11, Op::Mapc)),
    (Ask::Send(3), Said::Sent(12, 2, 8200)),
    (Ask::Run(4, Given::Movi(3, 2)), Said::Ran(15, Op::Movi)),
    (Ask::Show(2), Said::NoLpi(16)),
    (Ask::Take(3), Said::Lpi(17, 8200, 0xa0)),
    (Ask::Run(5, Given::Movi(3, 1)), Said::Ran(20, Op::Movi)),
    (Ask::Show(2), Said::NoLpi(21)),
    (Ask::Send(3), Said::Sent(22, 2, 8200)),
    (Ask::Show(2), Said::Lpi(23, 8200, 0xa0)),
];

// It ends with a discard, and stays where the device is unmapped.
const DISCARDED: [(Ask, Said); 9] = [
    (Ask::Send(3), Said::Sent(9, 2, 8200)),
    (Ask::Run(3, Given::Discard(3)), Said::Ran(12, Op::Discard)),
    (Ask::Take(2), Said::NoLpi(13)),
    (Ask::Send(3), Said::Dropped(14, Cause::NoEvent)),
    (
        Ask::Run(4, Given::Discard(3)),
        Said::Refused(17, Op::Discard, Reason::NoEvent),
    ),
    (
        Ask::Run(5, Given::Mapti(3, 8200, 1)),
        Said::Ran(20, Op::Mapti),
    ),
    (Ask::Send(3), Said::Sent(21, 2, 8200)),
    (Ask::Run(6, Given::Unmapd), Said::Ran(24, Op::Mapd)),
    (Ask::Take(2), Said::Lpi(25, 8200, 0xa0)),
];

// A configuration counts as it was read last.
const CONFIGURED_ANEW: [(Ask, Said); 8] = [
    (Ask::Send(3), Said::Sent(9, 2, 8200)),
    (Ask::Poke(0x8003_0008, 0x40), Said::At(10, Reply::Ok)),
    (Ask::Show(2), Said::Lpi(11, 8200, 0xa0)),
    (Ask::Run(3, Given::Inv(3)), Said::Ran(14, Op::Inv)),
    (Ask::Show(2), Said::NoLpi(15)),
    (Ask::Take(2), Said::NoLpi(16)),
    (Ask::Save, Said::At(17, Reply::Saved)),
    (Ask::Peek(0x8006_0401, 1), Said::Byte(18, 0x01)),
];

// The first by priority, and an acknowledgement of one LPI.
const CLAIMED: [(Ask, Said); 6] = [
    (Ask::Send(3), Said::Sent(9, 2, 8200)),
    (Ask::Best(2, 0xff), Said::Lpi(10, 8200, 0xa0)),
    (Ask::Best(2, 0xa0), Said::NoLpi(11)),
    (Ask::Claim(2, 8201), Said::NoLpi(12)),
    (Ask::Claim(2, 8200), Said::Lpi(13, 8200, 0xa0)),
    (Ask::Claim(2, 8200), Said::NoLpi(14)),
];

// The translator goes off and on.
const OFF_AND_ON: [(Ask, Said); 9] = [
    (Ask::Send(3), Said::Sent(9, 2, 8200)),
    (Ask::Write(0x0, 4, 0), Said::At(10, Reply::Ok)),
    (Ask::Send(3), Said::Dropped(11, Cause::Disabled)),
    (Ask::Read(0x0, 4), Said::At(12, Reply::Value(0x8000_0000))),
    (Ask::Write(0x0, 4, 1), Said::At(13, Reply::Ok)),
    (Ask::Hit(3), Said::Miss),
    (Ask::Send(3), Said::Sent(14, 2, 8200)),
    (Ask::Read(0x90, 8), Said::At(15, Reply::Value(0x60))),
    (Ask::Look, Said::Stamp(1, 16)),
];

// The guest turns LPIs on at processor 2.
const TURNED_ON: [(Ask, Said); 11] = [
    (Ask::Send(3), Said::Dropped(9, Cause::LpisOff)),
    (Ask::ReadGicr(2, 0x0, 4), Said::At(10, Reply::Value(0))),
    (
        Ask::WriteGicr(2, 0x70, 8, 0x8003_000f),
        Said::At(11, Reply::Ok),
    ),
    (
        Ask::WriteGicr(2, 0x78, 8, 0x4000_0000_8006_0000),
        Said::At(12, Reply::Ok),
    ),
    (
        Ask::ReadGicr(2, 0x78, 8),
        Said::At(13, Reply::Value(0x8006_0000)),
    ),
    (Ask::WriteGicr(2, 0x0, 4, 1), Said::At(14, Reply::Ok)),
    (Ask::ReadGicr(2, 0x0, 4), Said::At(15, Reply::Value(1))),
    (Ask::Hit(3), Said::Miss),
    (Ask::Send(3), Said::Sent(16, 2, 8200)),
    (Ask::Hit(3), Said::Sent(17, 2, 8200)),
    (Ask::Take(2), Said::Lpi(18, 8200, 0xa0)),
];

// A Linux turns them off again, and on. While they are off the cache still has the translation.
const TURNED_OFF: [(Ask, Said); 13] = [
    (Ask::ReadGicr(2, 0x0, 4), Said::At(9, Reply::Value(6))),
    (
        Ask::WriteGicr(2, 0x70, 8, 0x8003_000f),
        Said::At(10, Reply::Ok),
    ),
    (
        Ask::WriteGicr(2, 0x78, 8, 0x4000_0000_8006_0000),
        Said::At(11, Reply::Ok),
    ),
    (
        Ask::ReadGicr(2, 0x78, 8),
        Said::At(12, Reply::Value(0x8006_0780)),
    ),
    (Ask::WriteGicr(2, 0x0, 4, 1), Said::At(13, Reply::Ok)),
    (Ask::ReadGicr(2, 0x0, 4), Said::At(14, Reply::Value(7))),
    (Ask::Send(3), Said::Sent(15, 2, 8200)),
    (Ask::WriteGicr(2, 0x0, 4, 0), Said::At(16, Reply::Ok)),
    (Ask::Take(2), Said::NoLpi(17)),
    (Ask::Hit(3), Said::Dropped(18, Cause::LpisOff)),
    (Ask::WriteGicr(2, 0x0, 4, 1), Said::At(19, Reply::Ok)),
    (Ask::Hit(3), Said::Sent(20, 2, 8200)),
    (Ask::Look, Said::Stamp(0, 21)),
];

#[test]
fn calls_by_the_ports(rt: HostRuntime) -> Result<(), Fail> {
    let tables = [
        (Kind::Usual, ONE_ENDS.as_slice()),
        (Kind::FewStamps, ALL_END.as_slice()),
        (Kind::Usual, SAVED.as_slice()),
        (Kind::Usual, MOVED.as_slice()),
        (Kind::Usual, DISCARDED.as_slice()),
        (Kind::Usual, CONFIGURED_ANEW.as_slice()),
        (Kind::Usual, CLAIMED.as_slice()),
        (Kind::Usual, OFF_AND_ON.as_slice()),
        (Kind::Programmed, TURNED_ON.as_slice()),
        (Kind::Linux, TURNED_OFF.as_slice()),
    ];
    for (kind, rows) in tables {
        let held = played(&rt, rt.alloc(), kind, rows)?;
        assert_eq!(rt; held, (3, rows.len()));
    }
    Ok(())
}
