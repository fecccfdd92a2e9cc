//! What each call is answered.
use crate::refusal::CommandError;
use crate::state::State;
use crate::{redists, translator};
use gits_regs::Regs;
use guest_windows::WriteError;
use its_command::decode;
use its_plain::{Bytes64, Call, Reply, Route, StepReply};
use its_types::{Addr, Vcpu};
use std::alloc::{AllocError, Global};

impl State {
    ghost use Rattle.std.specs.Prelude.{◌≡◌, ◌<◌, ◌≤◌, IfOk, length};
    ghost use Rattle.guest_windows.specs.Windows.{write_at};
    ghost use Rattle.its_plain.specs.Plain as plain;
    ghost use Rattle.its_plain.specs.Answer as answers;
    ghost use Rattle.its_plain.specs.declared.call.Reply.TheVariants as reply;

    /// Answers a call, and gives the state that it leaves. Out of memory, the state is dropped.
    pub fn answer(mut self, alloc: Global, call: &Call) -> Result<(State, Reply), AllocError>
        ensures reply { IfOk result (λ r. r.1 ≡ answers.reply_of self call.now) }
        ensures left { IfOk result (λ r. r.0 ≡ answers.left self call.now r.1) }
    {
        let reply = self.replied(alloc, call)?;
        Ok((self, reply))
    }

    fn poke(&mut self, addr: Addr, bytes: &[u8]) -> Result<Reply, AllocError>
        ensures reply { IfOk result
            (λ r. r ≡ answers.poke_reply (write_at self.old.memory addr.0 bytes.now)) }
        ensures left { IfOk result (λ _. self.new ≡ answers.poked self.old addr.0 bytes.now) }
    {
        match self.memory.write(addr, bytes) {
            Ok(()) => {
                self.memory.mark(addr, bytes.len() as u64);
                Ok(Reply::Ok)
            }
            Err(WriteError::Outside(_)) => Ok(Reply::Outside),
            Err(WriteError::NoMemory) => Err(AllocError),
        }
    }

    fn peek(&self, addr: Addr, count: u8) -> Reply
        ensures { result ≡ answers.peek_reply (answers.peeked self.now addr.0 count) }
    {
        if count == 0 || count > 64 {
            return Reply::Outside;
        }
        let mut buffer = [0; 64];
        let bytes = &mut buffer[..usize::from(count)];
        match self.memory.guest().read(addr, bytes) {
            Ok(()) => Reply::Bytes(Bytes64::new(bytes)),
            Err(_) => Reply::Outside,
        }
    }

    #[tactic(auto, unfolding(its_plain::specs::Answer::written))]
    fn write_reg(&mut self, its: u8, off: u32, size: u8, value: u64)
        ensures { self.new ≡ answers.written self.old its off size value }
    {
        let shape = self.layout.shape;
        translator::write(&mut self.translators, &shape, its, off, size, value);
    }

    fn advance(&mut self, its: u8)
        ensures { self.new ≡ answers.went_on its self.old }
    {
        translator::advance(&mut self.translators, its);
    }

    #[tactic(auto, unfolding(its_plain::specs::Answer::step_reply, its_plain::specs::Answer::step_left))]
    fn step(&mut self, alloc: Global, its: u8) -> Result<StepReply, AllocError>
        ensures reply { IfOk result (λ r. r ≡ answers.step_reply self.old its) }
        ensures left { IfOk result (λ _. self.new ≡ answers.step_left self.old its) }
    {
        let regs: Regs = self.regs(its);
        if !regs.enabled() || regs.queue_is_empty() {
            return Ok(StepReply::Idle);
        }
        let mut bytes = [0; 32];
        let memory = self.memory.guest();
        if memory.read(regs.queue_place(), &mut bytes).is_err() {
            return Ok(StepReply::QueueFault(regs.queue_place()));
        }
        let command = decode(&bytes);
        let reply = match self.run(alloc, its, &command) {
            Ok(()) => StepReply::Ran(command.op()),
            Err(CommandError::Refused(reason)) => StepReply::Refused(command.op(), reason),
            Err(CommandError::Memory) => return Err(AllocError),
        };
        self.advance(its);
        Ok(reply)
    }

    fn dma(&mut self, addr: Addr, bytes: &[u8], route: Route) -> Result<Reply, AllocError>
        ensures reply { IfOk result
            (λ r. r ≡ answers.route_reply self.old addr bytes.now route) }
        ensures left { IfOk result (λ r. self.new ≡ answers.route_left self.old addr bytes.now route
            r) }
    {
        match route {
            Route::Signal { its, dev, ev } => self.signal(its, dev, ev),
            Route::Poke => self.poke(addr, bytes),
            Route::NoRequester => Ok(Reply::NoRequester),
            Route::Frame => Ok(Reply::Outside),
        }
    }

    // ---- calls that can run out of memory, with their replies

    fn gicr_written(
        &mut self,
        alloc: Global,
        vcpu: Vcpu,
        off: u32,
        size: u8,
        value: u64,
    ) -> Result<Reply, AllocError>
        ensures reply { IfOk result (λ r. r ≡ reply.Ok) }
        ensures left { IfOk result
            (λ _. self.new ≡ answers.gicr_written self.old vcpu.0 off size value) }
    {
        self.write_gicr(alloc, vcpu, off, size, value)?;
        Ok(Reply::Ok)
    }

    fn stepped(&mut self, alloc: Global, its: u8) -> Result<Reply, AllocError>
        ensures reply { IfOk result (λ r. r ≡ reply.Step (answers.step_reply self.old its)) }
        ensures left { IfOk result (λ _. self.new ≡ answers.step_left self.old its) }
    {
        Ok(Reply::Step(self.step(alloc, its)?))
    }

    fn copied(&mut self, alloc: Global) -> Result<Reply, AllocError>
        ensures reply { IfOk result
            (λ r. r ≡ reply.Copied (answers.copy_count self.old.track)) }
        ensures left { IfOk result (λ _. self.new ≡ answers.copy_left self.old) }
    {
        Ok(Reply::Copied(self.memory.catch_up(alloc)?))
    }

    // ---- all calls

    #[tactic(auto, unfolding(its_plain::specs::Answer::reply_of, its_plain::specs::Answer::left))]
    fn replied(&mut self, alloc: Global, call: &Call) -> Result<Reply, AllocError>
        ensures reply { IfOk result (λ r. r ≡ answers.reply_of self.old call.now) }
        ensures left { IfOk result (λ r. self.new ≡ answers.left self.old call.now r) }
    {
        match *call {
            Call::Signal { its, dev, ev } => self.signal(its, dev, ev),
            Call::Take(vcpu) => Ok(Reply::Ack(redists::take_at(
                &mut self.redistributors,
                u64::from(vcpu.0),
            ))),
            Call::Show(vcpu) => Ok(Reply::Ack(redists::show_at(
                &self.redistributors,
                u64::from(vcpu.0),
            ))),
            Call::Best { vcpu, mask } => Ok(Reply::Ack(redists::best_at(
                &self.redistributors,
                u64::from(vcpu.0),
                mask,
            ))),
            Call::Claim { vcpu, intid } => Ok(Reply::Ack(redists::claim_at(
                &mut self.redistributors,
                u64::from(vcpu.0),
                intid.0,
            ))),
            Call::Poke { addr, bytes } => self.poke(addr, bytes.as_slice()),
            Call::Peek { addr, count } => Ok(self.peek(addr, count)),
            Call::ReadReg { its, off, size } => Ok(Reply::Value(self.regs(its).read(off, size))),
            Call::WriteReg {
                its,
                off,
                size,
                value,
            } => {
                self.write_reg(its, off, size, value);
                Ok(Reply::Ok)
            }
            Call::ReadGicr { vcpu, off, size } => Ok(Reply::Value(self.read_gicr(vcpu, off, size))),
            Call::WriteGicr {
                vcpu,
                off,
                size,
                value,
            } => self.gicr_written(alloc, vcpu, off, size, value),
            Call::Step { its } => self.stepped(alloc, its),
            Call::Save => self.save(alloc),
            Call::Copy => self.copied(alloc),
            Call::Dma {
                addr,
                bytes,
                route,
                ..
            } => self.dma(addr, bytes.as_slice(), route),
        }
    }
}
