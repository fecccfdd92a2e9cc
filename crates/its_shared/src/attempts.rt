//! The calls of a pass, each turn that it needs tried once.
ghost use Rattle.std.specs.Prelude.{◌≡◌};

use crate::answer::{Answer, answered, answered_held, answered_if, answered_saved, answered_tried};
use crate::limits::Within;
use crate::port::Port;
use cmd_engine::{Stepped, try_read_at, try_step_told, try_write_at};
use device_port::{Dma, signal_once_at, try_dma_within};
use dma_routes::route;
use gicr_lpi::{try_read_gicr, try_write_gicr};
use guest_port::{try_peek, try_poke_within};
use its_migrate::try_save_within;
use its_plain::{Ack, Bytes64, Reply, Route, SaveFault, Signal};
use its_types::{Addr, DeviceId, EventId, Intid, Open, Vcpu};
use redist_ack::{try_best, try_claim, try_show, try_take};
use std::alloc::Global;

impl Port {
    ghost use Rattle.std.specs.Prelude.{◌≡◌, ◌≢◌, true};
    ghost use Rattle.device_port.specs.Dmas.{reply_of};
    ghost use Rattle.its_plain.specs.Answer.{save_reply};
    ghost use Rattle.cmd_engine.specs.Concern.{step_said};
    ghost use Rattle.its_plain.specs.Doorbells.{route_of};
    ghost use Rattle.its_plain.specs.declared.call.Call.TheVariants as call;
    ghost use Rattle.its_plain.specs.declared.call.Reply.TheVariants as reply;
    ghost use Rattle.its_shared.specs.Answers.{Answers, HasCount};
    ghost use Rattle.its_shared.specs.Asked as asked;
    ghost use Rattle.its_shared.specs.Concerns.{NamesConcerned};
    ghost use Rattle.its_shared.specs.Knowing as spec;
    ghost use Rattle.its_shared.specs.Limits.{KeepsWithin};
    ghost use Rattle.its_shared.specs.declared.answer.Answer.TheVariants.{Full};
    ghost use Rattle.its_numbers.specs.Limits.{no_limit};

    /// A device's message to a translator.
    pub fn signal(&mut self, its: u8, device: u32, event: u32) -> Answer<Signal>
        requires { spec.has_translator self.old its ≡ true }
        ensures beside { spec.beside self.new ≡ spec.beside self.old }
        ensures answer { Answers (asked.signal its device event) reply.Signal
            self.old.view self.new.view result }
    {
        answered(signal_once_at(
            &self.machine,
            &mut self.pass,
            &Open,
            its,
            DeviceId(device),
            EventId(event),
        ))
    }

    /// A virtual processor acknowledges its lowest LPI.
    pub fn take(&mut self, vcpu: u16) -> Answer<Ack>
        requires { spec.has_vcpu self.old vcpu ≡ true }
        ensures beside { spec.beside self.new ≡ spec.beside self.old }
        ensures answer { Answers (asked.take vcpu) reply.Ack
            self.old.view self.new.view result }
    {
        answered(try_take(&self.machine, &mut self.pass, &Open, Vcpu(vcpu)))
    }

    /// The LPI that it would acknowledge.
    pub fn show(&mut self, vcpu: u16) -> Answer<Ack>
        requires { spec.has_vcpu self.old vcpu ≡ true }
        ensures beside { spec.beside self.new ≡ spec.beside self.old }
        ensures answer { Answers (asked.show vcpu) reply.Ack
            self.old.view self.new.view result }
    {
        answered(try_show(&self.machine, &mut self.pass, &Open, Vcpu(vcpu)))
    }

    /// The LPI that comes first by priority below a mask.
    pub fn best(&mut self, vcpu: u16, mask: u8) -> Answer<Ack>
        requires { spec.has_vcpu self.old vcpu ≡ true }
        ensures beside { spec.beside self.new ≡ spec.beside self.old }
        ensures answer { Answers (asked.best vcpu mask) reply.Ack
            self.old.view self.new.view result }
    {
        answered(try_best(&self.machine, &mut self.pass, &Open, Vcpu(vcpu), mask))
    }

    /// A virtual processor acknowledges this LPI.
    pub fn claim(&mut self, vcpu: u16, intid: u32) -> Answer<Ack>
        requires { spec.has_vcpu self.old vcpu ≡ true }
        ensures beside { spec.beside self.new ≡ spec.beside self.old }
        ensures answer { Answers (asked.claim vcpu intid) reply.Ack
            self.old.view self.new.view result }
    {
        answered(try_claim(
            &self.machine,
            &mut self.pass,
            &Open,
            Vcpu(vcpu),
            Intid(intid),
        ))
    }

    /// A read of a translator's control frame.
    pub fn read_register(&mut self, its: u8, offset: u32, size: u8) -> Answer<u64>
        requires { spec.has_translator self.old its ≡ true }
        ensures beside { spec.beside self.new ≡ spec.beside self.old }
        ensures answer { Answers (asked.read_register its offset size) reply.Value
            self.old.view self.new.view result }
    {
        answered(try_read_at(&self.machine, &mut self.pass, &Open, its, offset, size))
    }

    /// A write of a translator's control frame.
    pub fn write_register(&mut self, its: u8, offset: u32, size: u8, value: u64) -> Answer<()>
        requires { spec.has_translator self.old its ≡ true }
        ensures beside { spec.beside self.new ≡ spec.beside self.old }
        ensures answer { Answers (asked.write_register its offset size value) (λ _. reply.Ok)
            self.old.view self.new.view result }
    {
        answered_tried(try_write_at(
            &self.machine,
            &mut self.pass,
            &Open,
            its,
            offset,
            size,
            value,
        ))
    }

    /// A read of the LPI registers of a redistributor.
    pub fn read_lpi_register(&mut self, vcpu: u16, offset: u32, size: u8) -> Answer<u64>
        requires { spec.has_vcpu self.old vcpu ≡ true }
        ensures beside { spec.beside self.new ≡ spec.beside self.old }
        ensures answer { Answers (asked.read_lpi_register vcpu offset size) reply.Value
            self.old.view self.new.view result }
    {
        answered(try_read_gicr(
            &self.machine,
            &mut self.pass,
            &Open,
            Vcpu(vcpu),
            offset,
            size,
        ))
    }

    /// A write of the LPI registers of a redistributor.
    pub fn write_lpi_register(&mut self, vcpu: u16, offset: u32, size: u8, value: u64) -> Answer<()>
        requires { spec.has_vcpu self.old vcpu ≡ true }
        ensures beside { spec.beside self.new ≡ spec.beside self.old }
        ensures answer { Answers (asked.write_lpi_register vcpu offset size value) (λ _. reply.Ok)
            self.old.view self.new.view result }
    {
        answered_if(try_write_gicr(
            &self.machine,
            &mut self.pass,
            &Open,
            Vcpu(vcpu),
            offset,
            size,
            value,
        ))
    }

    /// A translator takes its next command, if that maps no more of it than may be, and tells whom
    /// that concerned.
    pub fn step(&mut self, its: u8) -> Answer<Stepped>
        requires { spec.has_translator self.old its ≡ true }
        ensures beside { spec.beside self.new ≡ spec.beside self.old }
        ensures answer { Answers (asked.step its) step_said
            self.old.view self.new.view result }
        ensures within { KeepsWithin self.old.limits its self.old.view.setup.start
            self.new.view.seen result }
        ensures concerned { NamesConcerned its self.old.view.setup.start self.new.view.seen result }
    {
        let limits = Within(self.limits);
        answered_tried(try_step_told(&self.machine, &mut self.pass, &Open, its, &limits))
    }

    /// A write of guest memory, if no more pages are held for it than may be.
    pub fn write_memory(&mut self, address: u64, bytes: Bytes64) -> Answer<Reply>
        ensures beside { spec.beside self.new ≡ spec.beside self.old }
        ensures answer { Answers (asked.write_memory address bytes) (λ r. r)
            self.old.view self.new.view result }
        ensures full { result ≡ Full → self.old.limits.memory ≢ no_limit }
    {
        let limits = Within(self.limits);
        answered_held(try_poke_within(
            &self.machine,
            &mut self.pass,
            &Open,
            Addr(address),
            &bytes,
            &limits,
        ))
    }

    /// A read of guest memory.
    pub fn read_memory(&mut self, address: u64, count: u8) -> Answer<Reply>
        ensures beside { spec.beside self.new ≡ spec.beside self.old }
        ensures answer { Answers (asked.read_memory address count) (λ r. r)
            self.old.view self.new.view result }
        ensures count { HasCount count result }
    {
        answered(try_peek(&self.machine, &mut self.pass, &Open, Addr(address), count))
    }

    /// The tables are written to guest memory, if no more pages are held for them than may be.
    pub fn save(&mut self, alloc: Global) -> Answer<Result<(), SaveFault>>
        ensures beside { spec.beside self.new ≡ spec.beside self.old }
        ensures answer { Answers call.Save save_reply
            self.old.view self.new.view result }
        ensures full { result ≡ Full → self.old.limits.memory ≢ no_limit }
    {
        let limits = Within(self.limits);
        answered_saved(try_save_within(alloc, &self.machine, &mut self.pass, &Open, &limits))
    }

    /// A requester's write at an address.
    pub fn dma(&mut self, req: u32, address: u64, bytes: Bytes64) -> Answer<Dma>
        ensures beside { spec.beside self.new ≡ spec.beside self.old }
        ensures answer { Answers (asked.dma self.old req address bytes)
            reply_of self.old.view self.new.view result }
        ensures full { result ≡ Full → self.old.limits.memory ≢ no_limit }
    {
        let limits = Within(self.limits);
        answered_held(try_dma_within(
            &self.machine,
            &mut self.pass,
            &Open,
            req,
            Addr(address),
            &bytes,
            &limits,
        ))
    }

    /// What such a write is by the description.
    pub fn route(&self, req: u32, address: u64, bytes: &Bytes64) -> Route
        ensures { result ≡ route_of self.now.desc req address bytes.now }
    {
        route(self.machine.desc(), req, Addr(address), bytes)
    }
}
