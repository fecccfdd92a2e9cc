//! The calls of a guest that gives commands to the translator.
ghost use Rattle.std.specs.Prelude.{◌≡◌, ◌<◌, ◌^◌, ◌+◌, ◌++◌, OnOk, length};
ghost use Rattle.script_gen.specs.Generated as spec;

use event_script::Calls;
use its_command::{Command, encode};
use its_plain::{Bytes64, Call};
use its_types::Addr;
use std::alloc::{AllocError, Global};

// Where the command queue stands, and how many commands it has room for.
const QUEUE: u64 = 0x8002_0000;

const QUEUE_LEN: u32 = 128;

const GITS_CTLR: u32 = 0x0;

const GITS_CBASER: u32 = 0x80;

const GITS_CWRITER: u32 = 0x88;

const GITS_BASER0: u32 = 0x100;

const GITS_BASER1: u32 = 0x108;

fn write_call(off: u32, value: u64) -> Call
    ensures { result ≡ spec.write_call off value }
{
    Call::WriteReg {
        its: 0,
        off,
        size: 8,
        value,
    }
}

/// Gives the translator its tables and its queue, and enables it.
pub fn push_register_writes(calls: &mut Calls) -> Result<(), AllocError>
    ensures { OnOk result (calls.new ≡ calls.old ++ spec.register_writes) }
{
    calls.push(write_call(GITS_BASER0, 0x8107_0000_8000_0200))?;
    calls.push(write_call(GITS_BASER1, 0x8407_0000_8001_0200))?;
    calls.push(write_call(GITS_CBASER, 0x8000_0000_8002_0000))?;
    calls.push(Call::WriteReg {
        its: 0,
        off: GITS_CTLR,
        size: 4,
        value: 1,
    })
}

// Where the k-th command stands in the queue.
fn offset_of(k: u32) -> u64
    ensures { result ≡ spec.offset_of k }
{
    32 * u64::from(k % QUEUE_LEN)
}

// Writes the k-th command to the queue, announces it, and has it taken.
fn push_command(calls: &mut Calls, k: u32, command: &Command) -> Result<(), AllocError>
    requires { k < 2 ^ 31 }
    ensures { OnOk result (calls.new ≡ calls.old ++ spec.command_calls k command.now) }
{
    calls.push(Call::Poke {
        addr: Addr(QUEUE + offset_of(k)),
        bytes: Bytes64::new(&encode(command)),
    })?;
    calls.push(write_call(GITS_CWRITER, offset_of(k + 1)))?;
    calls.push(Call::Step { its: 0 })
}

/// The same of commands one after another, of which the first is the k-th.
pub fn push_commands(calls: &mut Calls, k: u32, commands: &[Command]) -> Result<(), AllocError>
    requires { k + length commands.now < 2 ^ 31 }
    ensures { OnOk result (calls.new ≡ calls.old ++ spec.queued k commands.now) }
{
    let mut place = k;
    for command in commands {
        push_command(calls, place, command)?;
        place += 1;
    }
    Ok(())
}
