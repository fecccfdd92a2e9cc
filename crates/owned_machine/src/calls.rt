//! Every call.
ghost use Rattle.std.specs.Prelude.{◌≡◌, true, IfOk, OnErr};
ghost use Rattle.its_plain.specs.Answer as answers;
ghost use Rattle.owned_parts.specs.Owned.{state_of_parts};
ghost use Rattle.owned_machine.specs.Whole.{IsMachine, GoesOn, may_want_memory};

use crate::acks::{claim, look, take};
use crate::asked::Asked;
use crate::dma::dma;
use crate::gicr;
use crate::memory::{copy, peek, poke};
use crate::registers::{read, write};
use crate::saves::save;
use crate::signals::signal;
use crate::steps::step;
use its_plain::{Call, Reply};
use owned_parts::Parts;
use std::alloc::{AllocError, Global};

/// Answers a call on the parts of a machine. Out of memory, nothing is changed.
#[tactic(auto, unfolding(its_plain::specs::Answer::reply_of, its_plain::specs::Answer::left))]
pub fn answered(parts: &mut Parts, alloc: Global, call: &Call) -> Result<Reply, AllocError>
    requires { IsMachine parts.old }
    ensures reply { IfOk result (λ r. r ≡ answers.reply_of (state_of_parts parts.old) call.now) }
    ensures left { IfOk result
        (λ r. GoesOn parts.new (answers.left (state_of_parts parts.old) call.now r)) }
    ensures err { OnErr result (parts.new ≡ parts.old) }
    ensures rare { OnErr result (may_want_memory (state_of_parts parts.old) call.now ≡ true) }
{
    match *call {
        Call::Signal { its, dev, ev } => Ok(Reply::Signal(signal(parts, its, dev, ev))),
        Call::Take(vcpu) => Ok(Reply::Ack(take(parts, vcpu))),
        Call::Show(vcpu) => Ok(Reply::Ack(look(parts, vcpu, Asked::Lowest))),
        Call::Best { vcpu, mask } => Ok(Reply::Ack(look(parts, vcpu, Asked::Best(mask)))),
        Call::Claim { vcpu, intid } => Ok(Reply::Ack(claim(parts, vcpu, intid))),
        Call::Poke { addr, bytes } => poke(parts, addr, &bytes),
        Call::Peek { addr, count } => Ok(peek(parts, addr, count)),
        Call::ReadReg { its, off, size } => Ok(Reply::Value(read(parts, its, off, size))),
        Call::WriteReg {
            its,
            off,
            size,
            value,
        } => {
            write(parts, its, off, size, value);
            Ok(Reply::Ok)
        }
        Call::ReadGicr { vcpu, off, size } => Ok(Reply::Value(gicr::read(parts, vcpu, off, size))),
        Call::WriteGicr {
            vcpu,
            off,
            size,
            value,
        } => {
            gicr::write(parts, vcpu, off, size, value)?;
            Ok(Reply::Ok)
        }
        Call::Step { its } => Ok(Reply::Step(step(parts, its)?)),
        Call::Save => save(parts, alloc),
        Call::Copy => Ok(Reply::Copied(copy(parts))),
        Call::Dma {
            addr,
            bytes,
            route,
            ..
        } => dma(parts, addr, &bytes, route),
    }
}
