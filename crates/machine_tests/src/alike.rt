//! The machine on fast tables and the plain one of the definitions answer alike: all kinds of calls
//! and of commands.
ghost use Rattle.std.specs.Prelude.{IfOk};
ghost use Rattle.its_plain.specs.Machine.{IsDescription};

use crate::descriptions::{desc, enabling, signal, write};
use gicr_regs::{GicrRegisters, GicrValues};
use its_plain::{Bytes64, Call, Desc, Its, LpiTables, MakeError, Reply, Route, StepReply};
use its_types::{Addr, DeviceId, EventId, Intid, Listed, Profile, Vcpu};
use owned_machine::Machine;
use plain_machine::State;
use std::alloc::{AllocError, Global};

// Configuration bytes of LPIs 8200 to 8202, and the commands of the queue, 32 bytes each.
const WORDS: [(u64, u64); 51] = [
    (0x8003_0008, 0x00c1_b1a1),
    // MAPD of device 16 with 5 bits, and of device 17 with 14 bits.
    (0x8002_0000, 0x10_0000_0008),
    (0x8002_0008, 4),
    (0x8002_0010, 0x8000_0000_800c_0000),
    (0x8002_0020, 0x11_0000_0008),
    (0x8002_0028, 13),
    (0x8002_0030, 0x8000_0000_8010_0000),
    // MAPC of 1 to processor 2, and of 2 to processor 0.
    (0x8002_0040, 9),
    (0x8002_0050, 0x8000_0000_0002_0001),
    (0x8002_0060, 9),
    (0x8002_0070, 0x8000_0000_0000_0002),
    // MAPTI 16 1 to 8200 by 1, MAPTI 16 2 to 8201 by 2, MAPI 17 8202 by 1.
    (0x8002_0080, 0x10_0000_000a),
    (0x8002_0088, 0x2008_0000_0001),
    (0x8002_0090, 1),
    (0x8002_00a0, 0x10_0000_000a),
    (0x8002_00a8, 0x2009_0000_0002),
    (0x8002_00b0, 2),
    (0x8002_00c0, 0x11_0000_000b),
    (0x8002_00c8, 8202),
    (0x8002_00d0, 1),
    // MOVI 16 1 to 2, MOVALL from 0 to 3, INT 16 1, CLEAR 16 1.
    (0x8002_00e0, 0x10_0000_0001),
    (0x8002_00e8, 1),
    (0x8002_00f0, 2),
    (0x8002_0100, 0xe),
    (0x8002_0118, 0x3_0000),
    (0x8002_0120, 0x10_0000_0003),
    (0x8002_0128, 1),
    (0x8002_0140, 0x10_0000_0004),
    (0x8002_0148, 1),
    // MAPC of 2 to processor 1, INV 16 2, INVALL 1, SYNC 1.
    (0x8002_0160, 9),
    (0x8002_0170, 0x8000_0000_0001_0002),
    (0x8002_0180, 0x10_0000_000c),
    (0x8002_0188, 2),
    (0x8002_01a0, 0xd),
    (0x8002_01b0, 1),
    (0x8002_01c0, 5),
    (0x8002_01d0, 0x1_0000),
    // DISCARD 16 1, and the same again, which is refused; then an unknown command.
    (0x8002_01e0, 0x10_0000_000f),
    (0x8002_01e8, 1),
    (0x8002_0200, 0x10_0000_000f),
    (0x8002_0208, 1),
    // MAPC of 3 to processor 4, which is refused; MAPC of 2 and MAPD of 17, both unmapped.
    (0x8002_0240, 9),
    (0x8002_0250, 0x8000_0000_0004_0003),
    (0x8002_0260, 9),
    (0x8002_0270, 2),
    (0x8002_0280, 0x11_0000_0008),
    // MAPTI 16 3 to 8200 by 5, which was never mapped.
    (0x8002_02a0, 0x10_0000_000a),
    (0x8002_02a8, 0x2008_0000_0003),
    (0x8002_02b0, 5),
    // MAPD of device 18, to the table of device 16.
    (0x8002_02c0, 0x12_0000_0008),
    (0x8002_02d0, 0x8000_0000_800c_0000),
];

const COMMANDS: u8 = 22;

const OFF: GicrRegisters = GicrRegisters {
    ctlr: 0,
    propbaser: 0,
    pendbaser: 0,
};

// A Linux guest with a second translator, and a second memory. It programs the LPI registers.
fn described(alloc: Global, profile: Profile) -> Result<Desc, AllocError>
    ensures { IfOk result IsDescription }
{
    let translator = Its {
        restore: None,
        frames: None,
    };
    let translators = Vec::from_slice(alloc, &[translator, translator])?;
    let mut desc = desc(alloc, None, &WORDS)?;
    desc.shape.profile = profile;
    desc.shape.linux = true;
    let registers = vec![in alloc; OFF; usize::from(desc.shape.vcpus)]?;
    desc.tables = LpiTables::Registers(GicrValues {
        registers: Listed::from_vec(registers),
    });
    desc.translators = Listed::from_vec(translators);
    desc.track = true;
    Ok(desc)
}

// ---- calls

fn write_lpi(vcpu: u16, off: u32, value: u64) -> Call {
    Call::WriteGicr {
        vcpu: Vcpu(vcpu),
        off,
        size: 8,
        value,
    }
}

// Turns LPIs on at a virtual processor, and reads its registers.
fn turning_on(vcpu: u16) -> [Call; 4] {
    let table = 0x8004_0000 + 0x1_0000 * u64::from(vcpu);
    [
        write_lpi(vcpu, 0x70, 0x8003_000f),
        write_lpi(vcpu, 0x78, table),
        Call::WriteGicr {
            vcpu: Vcpu(vcpu),
            off: 0,
            size: 4,
            value: 1,
        },
        Call::ReadGicr {
            vcpu: Vcpu(vcpu),
            off: 0x78,
            size: 8,
        },
    ]
}

// A step, and what is then pending where, and messages. There is no virtual processor 4.
fn stepping() -> [Call; 9] {
    [
        Call::Step { its: 0 },
        Call::Show(Vcpu(0)),
        Call::Show(Vcpu(1)),
        Call::Show(Vcpu(2)),
        Call::Show(Vcpu(3)),
        Call::Show(Vcpu(4)),
        signal(16, 1),
        signal(16, 2),
        signal(17, 8202),
    ]
}

fn dma(addr: u64, route: Route) -> Call {
    Call::Dma {
        req: 0,
        addr: Addr(addr),
        bytes: Bytes64::new(&[0x41]),
        route,
    }
}

// Acknowledgements, and accesses of memory.
fn taking() -> [Call; 16] {
    let vcpu = Vcpu(1);
    let message = Route::Signal {
        its: 0,
        dev: DeviceId(16),
        ev: EventId(2),
    };
    [
        Call::Best { vcpu, mask: 255 },
        Call::Best { vcpu, mask: 0 },
        Call::Best {
            vcpu: Vcpu(4),
            mask: 255,
        },
        Call::Claim {
            vcpu,
            intid: Intid(8201),
        },
        Call::Claim {
            vcpu: Vcpu(4),
            intid: Intid(8201),
        },
        Call::Take(Vcpu(2)),
        Call::Take(Vcpu(2)),
        Call::Take(Vcpu(3)),
        Call::Take(Vcpu(4)),
        Call::Copy,
        Call::Poke {
            addr: Addr(0x8003_0ffc),
            bytes: Bytes64::new(&[1, 2, 3, 4, 5, 6, 7, 8]),
        },
        dma(0x8003_0008, Route::Poke),
        dma(0x9000_0000, Route::Poke),
        dma(0, Route::NoRequester),
        dma(0, Route::Frame),
        dma(0, message),
    ]
}

fn peek(addr: u64, count: u8) -> Call {
    Call::Peek {
        addr: Addr(addr),
        count,
    }
}

fn read(its: u8, off: u32, size: u8) -> Call {
    Call::ReadReg { its, off, size }
}

// Copies and saves, of which the second finds two tables that overlap; the second translator; and a
// step whose command lies in no window.
fn at_last() -> [Call; 22] {
    [
        Call::Copy,
        Call::Copy,
        Call::Save,
        peek(0x8001_0000, 64),
        peek(0x8003_0000, 65),
        Call::Copy,
        write(0x88, 8, 0x2e0),
        Call::Step { its: 0 },
        Call::Save,
        read(0, 0x90, 8),
        read(1, 0x100, 8),
        read(2, 0x100, 8),
        Call::Signal {
            its: 1,
            dev: DeviceId(16),
            ev: EventId(1),
        },
        Call::Step { its: 1 },
        Call::Step { its: 2 },
        write_lpi(3, 0, 0),
        signal(16, 2),
        write(0x0, 4, 0),
        write(0x80, 8, 0x8000_0000_9000_0000),
        write(0x0, 4, 1),
        write(0x88, 8, 0x20),
        Call::Step { its: 0 },
    ]
}

// ---- both machines

// How many calls both machines answered alike, how many they didn't, and how many commands ran.
#[derive(Clone, Copy, Debug, PartialEq, Eq)]
struct Tally {
    alike: usize,
    apart: usize,
    ran: usize,
}

impl Tally {
    fn with(self, reply: Reply, expected: Reply) -> Tally {
        let mut tally = self;
        if reply == expected {
            tally.alike = tally.alike.saturating_add(1);
        } else {
            tally.apart = tally.apart.saturating_add(1);
        }
        if let Reply::Step(StepReply::Ran(_)) = reply {
            tally.ran = tally.ran.saturating_add(1);
        }
        tally
    }
}

fn play(
    alloc: Global,
    machine: &mut Machine,
    state: State,
    calls: &[Call],
    tally: &mut Tally,
) -> Result<State, AllocError> {
    let mut state = state;
    for call in calls {
        let (next, expected) = state.answer(alloc, call)?;
        state = next;
        let reply = machine.answer(alloc, call)?;
        *tally = tally.with(reply, expected);
    }
    Ok(state)
}

// All calls, in their order.
fn play_all(alloc: Global, machine: &mut Machine, state: State) -> Result<Tally, AllocError> {
    let mut tally = Tally {
        alike: 0,
        apart: 0,
        ran: 0,
    };
    let mut state = state;
    for vcpu in 0..4 {
        state = play(alloc, machine, state, &turning_on(vcpu), &mut tally)?;
    }
    let start = enabling(0x8107_0000_8000_0200, 0x2c0);
    state = play(alloc, machine, state, &start, &mut tally)?;
    for _ in 0..COMMANDS {
        state = play(alloc, machine, state, &stepping(), &mut tally)?;
    }
    state = play(alloc, machine, state, &taking(), &mut tally)?;
    play(alloc, machine, state, &at_last(), &mut tally)?;
    Ok(tally)
}

fn compared_made(alloc: Global, desc: &Desc) -> Result<Result<Tally, AllocError>, MakeError>
    requires { IsDescription desc.now }
{
    let mut machine = Machine::new(alloc, desc)?;
    compared_from(alloc, desc, &mut machine)
}

fn compared_from(
    alloc: Global,
    desc: &Desc,
    machine: &mut Machine,
) -> Result<Result<Tally, AllocError>, MakeError>
    requires { IsDescription desc.now }
{
    let state = State::new(alloc, desc)?;
    Ok(play_all(alloc, machine, state))
}

fn compared(alloc: Global, profile: Profile) -> Result<Result<Tally, AllocError>, MakeError> {
    let desc = described(alloc, profile)?;
    compared_made(alloc, &desc)
}

#[test]
fn both_machines_answer_alike(rt: HostRuntime) {
    let found = [
        compared(rt.alloc(), Profile::One),
        compared(rt.alloc(), Profile::Two),
    ];
    let expected = Ok(Ok(Tally {
        alike: 257,
        apart: 0,
        ran: 20,
    }));
    assert_eq!(rt; found, [expected, expected]);
}
