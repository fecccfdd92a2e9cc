//! One call of a script, by its port.
ghost use Rattle.std.specs.Prelude.{◌≡◌, []};
ghost use Rattle.its_plain.specs.Answer.{save_reply};
ghost use Rattle.its_turns.specs.Machines.{view, IsOf};
ghost use Rattle.device_port.specs.Dmas.{reply_of};
ghost use Rattle.script_threads.specs.Asks.{MayAsk, Answers, IsTold};

use crate::stop::{Stop, Unmade};
use cmd_engine::{read_at, step_at, write_at};
use device_port::{Dma, dma, signal_at};
use gicr_lpi::{read_gicr, write_gicr};
use guest_port::{copy, peek, poke};
use its_migrate::save;
use its_plain::{Call, Reply, SaveFault};
use its_turns::{Machine, Pass};
use its_types::{Gate, Placed};
use redist_ack::{best, claim, show, take};
use std::alloc::Global;
use std::sync::Wait;

/// Makes a call by its port, and waits for the turns that it needs.
pub fn call_once<R: Wait, G: Gate>(
    rt: &R,
    alloc: Global,
    machine: &Machine,
    pass: &mut Pass,
    gate: &G,
    call: &Call,
) -> Result<Placed<Reply>, Stop>
    requires of { IsOf machine.now pass.old }
    requires free { (view pass.old).held ≡ [] }
    requires may { MayAsk machine.now call.now }
    ensures of { IsOf machine.now pass.new }
    ensures answer { Answers (view pass.old) call.now (view pass.new) result }
{
    match call {
        Call::Signal { its, dev, ev } => {
            told(
                signal_at(rt, machine, pass, gate, *its, *dev, *ev),
                Reply::Signal,
            )
        }
        Call::Dma {
            req,
            addr,
            bytes,
            route: _,
        } => told(
            dma(rt, machine, pass, gate, *req, *addr, bytes),
            written_by_device,
        ),
        Call::Take(vcpu) => told(take(rt, machine, pass, gate, *vcpu), Reply::Ack),
        Call::Show(vcpu) => told(show(rt, machine, pass, gate, *vcpu), Reply::Ack),
        Call::Best { vcpu, mask } => told(best(rt, machine, pass, gate, *vcpu, *mask), Reply::Ack),
        Call::Claim { vcpu, intid } => {
            told(claim(rt, machine, pass, gate, *vcpu, *intid), Reply::Ack)
        }
        Call::Poke { addr, bytes } => {
            told(poke(rt, machine, pass, gate, *addr, bytes), |reply| reply)
        }
        Call::Peek { addr, count } => {
            told(peek(rt, machine, pass, gate, *addr, *count), |reply| reply)
        }
        Call::Copy => told(copy(rt, machine, pass, gate), Reply::Copied),
        Call::ReadReg { its, off, size } => {
            told(
                read_at(rt, machine, pass, gate, *its, *off, *size),
                Reply::Value,
            )
        }
        Call::WriteReg {
            its,
            off,
            size,
            value,
        } => told(
            write_at(rt, machine, pass, gate, *its, *off, *size, *value),
            |()| Reply::Ok,
        ),
        Call::ReadGicr { vcpu, off, size } => {
            told(
                read_gicr(rt, machine, pass, gate, *vcpu, *off, *size),
                Reply::Value,
            )
        }
        Call::WriteGicr {
            vcpu,
            off,
            size,
            value,
        } => told(
            write_gicr(rt, machine, pass, gate, *vcpu, *off, *size, *value),
            |()| Reply::Ok,
        ),
        Call::Step { its } => told(step_at(rt, machine, pass, gate, *its), Reply::Step),
        Call::Save => told(save(rt, alloc, machine, pass, gate), saved),
    }
}

/// What a port answers, as the outcome of a call.
fn told<T, E: Unmade, F: FnOnce(T) -> Reply>(
    made: Result<Placed<T>, E>,
    reply: F,
) -> Result<Placed<Reply>, Stop>
    requires { F.IsAlwaysCallable reply }
    ensures { IsTold E.stop_is (F.post reply) made result }
{
    match made {
        Ok(made) => Ok(Placed {
            place: made.place,
            reply: reply(made.reply),
        }),
        Err(why) => Err(why.stop()),
    }
}

fn saved(reply: Result<(), SaveFault>) -> Reply
    ensures { result ≡ save_reply reply }
{
    match reply {
        Ok(()) => Reply::Saved,
        Err(fault) => Reply::SaveFault(fault),
    }
}

fn written_by_device(reply: Dma) -> Reply
    ensures { result ≡ reply_of reply }
{
    match reply {
        Dma::Signal(signal) => Reply::Signal(signal),
        Dma::NoRequester => Reply::NoRequester,
        Dma::Ok => Reply::Ok,
        Dma::Outside => Reply::Outside,
    }
}
