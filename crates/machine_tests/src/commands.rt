//! Commands and registers of a machine of one caller.
ghost use Rattle.std.specs.Prelude.{◌≡◌, true};
ghost use Rattle.its_command.specs.declared.command.Command.TheVariants as command;

use cmd_exec::{Needed, apply, make_room, needs, plan, read_register, write_register};
use gits_regs::Regs;
use guest_windows::{Memory, NewError};
use its_command::{Command, Op, RdBase};
use its_maps::Maps;
use its_plain::{CmdReply, Reason};
use its_types::{Addr, Icid, MOST_VCPUS, Profile, Shape, Vcpu};
use lpi_pending::Redists;
use owned_parts::RedistSet;
use std::alloc::{AllocError, Global};
use std::process::Abort;
use std::test::Fail;

const SHAPE: Shape = Shape {
    vcpus: 4,
    dev_bits: 16,
    lpi_bits: 16,
    profile: Profile::One,
    linux: false,
};

fn mapc(icid: u16, target: u8) -> Command
    ensures { result ≡ command.Mapc (record { 0 = icid }) target true }
{
    Command::Mapc {
        icid: Icid(icid),
        target: RdBase::new(u64::from(target)),
        valid: true,
    }
}

// What a register reads at reset, and GITS_BASER1 once it is written.
fn registers(maps: &mut Maps) -> [u64; 2] {
    let mut regs = Regs::reset(16);
    let reset = read_register(&regs, 0x8, 8);
    write_register(&mut regs, maps, &SHAPE, 0x108, 8, 0x8407_0000_8001_0200);
    [reset, read_register(&regs, 0x108, 8)]
}

#[test]
fn registers_are_read_and_written(rt: HostRuntime) {
    let mut maps = Maps::new(rt.alloc());
    let read = registers(&mut maps);
    assert_eq!(rt; read, [0x1ef71, 0x8407_0000_8001_0200]);
}

// What a translator at reset needs for a command.
fn needed(alloc: Global, command: &Command) -> Needed {
    let regs = Regs::reset(16);
    let maps = Maps::new(alloc);
    needs(command, &regs, &maps, &SHAPE)
}

// The lowest from 0, 2 and 4 on, and the highest below 512 and 2.
fn walked(set: RedistSet) -> [Option<u16>; 5] {
    [
        set.next(0, MOST_VCPUS),
        set.next(2, MOST_VCPUS),
        set.next(4, MOST_VCPUS),
        set.last(MOST_VCPUS),
        set.last(2),
    ]
}

// Whether INVALL needs the configurations of all processors, and MOVALL what is pending at just
// two; neither needs more.
fn needs_hold(alloc: Global) -> bool {
    let invall = needed(alloc, &Command::Invall { icid: Icid(0) });
    let movall = Command::Movall {
        from: RdBase::new(3),
        to: RdBase::new(1),
    };
    let moved = needed(alloc, &movall);
    invall.confs.has(Vcpu(0))
        && !invall.confs.has(Vcpu(4))
        && moved.pends.has(Vcpu(3))
        && !moved.pends.has(Vcpu(2))
        && invall.pends.is_empty()
        && moved.confs.is_empty()
        && walked(invall.confs) == [Some(0), Some(2), None, Some(3), Some(1)]
        && walked(moved.pends) == [Some(1), Some(3), None, Some(3), Some(1)]
}

#[test]
fn redistributors_that_commands_need(rt: HostRuntime) {
    assert!(rt; needs_hold(rt.alloc()));
}

// The reply to a MAPC of collection 1, its target once there is room and once the command is
// carried out, and GITS_CREADR.
type Ran = (CmdReply, Option<Vcpu>, Option<Vcpu>, u64);

fn run_mapc(rt: &impl Abort, alloc: Global, target: u8) -> Result<Ran, NewError> {
    let memory = Memory::new(alloc, &[(Addr(0x8000_0000), 0x1000)])?;
    let mut regs = Regs::reset(16);
    let mut maps = Maps::new(alloc);
    let Ok(mut redists) = Redists::with_room(alloc, SHAPE.vcpus) else {
        panic!(rt; "out of memory");
    };
    let planned = plan(&mapc(1, target), &regs, &maps, &memory, &redists, &SHAPE);
    let reply = planned.reply();
    let Ok(()) = make_room(&planned, &mut maps) else {
        panic!(rt; "out of memory");
    };
    let before = maps.collection(Icid(1));
    regs.keeps_rules();
    apply(planned, &mut regs, &mut maps, &memory, &mut redists, &SHAPE);
    Ok((reply, before, maps.collection(Icid(1)), regs.read(0x90, 8)))
}

#[test]
fn a_command_is_run_or_refused(rt: HostRuntime) -> Result<(), Fail> {
    let found = [run_mapc(&rt, rt.alloc(), 4)?, run_mapc(&rt, rt.alloc(), 2)?];
    let refused = CmdReply::Refused(Op::Mapc, Reason::TargetRange);
    let ran = CmdReply::Ran(Op::Mapc);
    let expected = [(refused, None, None, 32), (ran, None, Some(Vcpu(2)), 32)];
    assert_eq!(rt; found, expected);
    Ok(())
}
