//! Looks at a machine before a call and after it, from which a fact is made.
ghost use Rattle.std.specs.Prelude.{◌≡◌, IfOk};
ghost use Rattle.std.specs.Option.{option_map};
ghost use Rattle.its_explain.specs.Looks as spec;
ghost use Rattle.its_explain.specs.Steps.{command_of, taken_at, taken_of};

use crate::facts::{
    CollectionFact, DeviceFact, EventFact, Fact, LpiRegisterFact, RegisterFact, Taken,
};
use crate::replayed::Replayed;
use call_facts::{LpiState, PairState};
use cmd_exec::{Met, meet};
use guest_windows::Memory;
use its_command::Command;
use its_plain::{Call, Route};
use its_types::{Bases, Device, DeviceId, EventId, Icid, Target, Vcpu};
use owned_parts::TranslatorRef;
use std::alloc::AllocError;

/// What a call concerns, and what the machine answered of it before.
#[derive(Clone, Copy)]
pub enum Look {
    /// Nothing.
    Nothing,
    /// A device and its event, with how its LPI stood.
    Event(EventLook),
    /// A device: what it was mapped to, and how many events it had.
    Device(u8, DeviceId, Option<Device>, u64),
    /// A collection: where it went, and how many LPIs were pending there.
    Collection(u8, Icid, Option<Vcpu>, usize),
    /// A register that is written, what it read, and what was mapped.
    Register(RegisterLook),
    /// The same of an LPI register.
    LpiRegister(LpiRegisterLook),
    /// What is said already.
    Known(Fact),
}

/// A device and one of its events, before a call.
#[derive(Clone, Copy)]
pub struct EventLook {
    its: u8,
    dev: DeviceId,
    ev: EventId,
    pair: PairState,
    lpi: Option<LpiState>,
}

/// A register before it is written.
#[derive(Clone, Copy)]
pub struct RegisterLook {
    its: u8,
    off: u32,
    fact: RegisterFact,
}

/// An LPI register before it is written.
#[derive(Clone, Copy)]
pub struct LpiRegisterLook {
    vcpu: Vcpu,
    off: u32,
    bases: Option<Bases>,
    had: usize,
}

impl Replayed {
    /// The command that the next step of a translator takes, if it takes one.
    pub fn next_command(&self, its: u8) -> Option<Taken>
        ensures { result ≡ taken_at self.now its }
    {
        match self.translator(its) {
            Some(translator) => next_of(translator, its, self.memory()),
            None => None,
        }
    }

    /// Looks at what a call concerns, before it is made. The step takes this command, if it takes
    /// one.
    pub fn look(&mut self, call: &Call, taken: Option<&Taken>) -> Result<Look, AllocError>
        ensures kept { self.new ≡ self.old }
        ensures look { IfOk result
            (λ l. l ≡ spec.look_of self.old (option_map (λ t. t.now) taken.entry) call.now) }
    {
        match *call {
            Call::Signal { its, dev, ev } => Ok(self.look_at_event(its, dev, ev)),
            Call::Dma { route, .. } => Ok(self.look_at_route(route)),
            Call::Step { its } => self.look_at_step(its, taken),
            Call::Take(vcpu) | Call::Show(vcpu) | Call::Best { vcpu, .. } => {
                self.look_at_waiting(vcpu)
            }
            Call::Claim { vcpu, intid } => {
                let state = self.lpi(Some(Target { vcpu, intid }));
                Ok(Look::Known(Fact::Claimed(state)))
            }
            Call::ReadReg { its, off, .. } => {
                Ok(Look::Known(Fact::Read(self.register(its, off))))
            }
            Call::ReadGicr { vcpu, off, .. } => {
                let value = self.lpi_register(vcpu, off)?;
                Ok(Look::Known(Fact::Read(value)))
            }
            Call::WriteReg {
                its,
                off,
                size,
                value,
            } => Ok(self.look_at_register(its, off, size, value)),
            Call::WriteGicr { vcpu, off, .. } => self.look_at_lpi_register(vcpu, off),
            Call::Poke { .. } | Call::Peek { .. } | Call::Save | Call::Copy => Ok(Look::Nothing),
        }
    }

    fn look_at_route(&self, route: Route) -> Look
        ensures { result ≡ spec.route_look self.now route }
    {
        match route {
            Route::Signal { its, dev, ev } => self.look_at_event(its, dev, ev),
            Route::Poke | Route::NoRequester | Route::Frame => Look::Nothing,
        }
    }

    fn look_at_event(&self, its: u8, dev: DeviceId, ev: EventId) -> Look
        ensures { result ≡ spec.event_asked self.now its dev ev }
    {
        Look::Event(self.event_look(its, dev, ev))
    }

    fn event_look(&self, its: u8, dev: DeviceId, ev: EventId) -> EventLook
        ensures { result ≡ spec.event_look self.now its dev ev }
    {
        let pair = self.pair(its, dev, ev);
        EventLook {
            its,
            dev,
            ev,
            pair,
            lpi: self.lpi(pair.spot()),
        }
    }

    fn look_at_waiting(&self, vcpu: Vcpu) -> Result<Look, AllocError>
        ensures { IfOk result (λ l. l ≡ spec.waiting_look self.now vcpu) }
    {
        let waiting = self.waiting(vcpu)?;
        Ok(Look::Known(Fact::Waiting(waiting)))
    }

    fn look_at_step(&self, its: u8, taken: Option<&Taken>) -> Result<Look, AllocError>
        ensures { IfOk result
            (λ l. l ≡ spec.step_look self.now its (option_map (λ t. t.now) taken.entry)) }
    {
        match taken {
            Some(taken) => self.look_at_command(its, &taken.command),
            None => {
                let place = self.register(its, 0x90);
                Ok(Look::Known(Fact::Idle(self.idle(its), place)))
            }
        }
    }

    fn look_at_command(&self, its: u8, command: &Command) -> Result<Look, AllocError>
        ensures { IfOk result (λ l. l ≡ spec.command_look self.now its command.now) }
    {
        match *command {
            Command::Movi { dev, ev, .. }
            | Command::Int { dev, ev }
            | Command::Clear { dev, ev }
            | Command::Mapti { dev, ev, .. }
            | Command::Mapi { dev, ev, .. }
            | Command::Inv { dev, ev }
            | Command::Discard { dev, ev } => Ok(self.look_at_event(its, dev, ev)),
            Command::Mapd { dev, .. } => Ok(self.look_at_device(its, dev)),
            Command::Mapc { icid, .. } => self.look_at_collection(its, icid),
            Command::Movall { from, .. } => {
                let count = self.count_pending(from.get() as usize)?;
                Ok(Look::Known(Fact::Moved(count)))
            }
            Command::Invall { .. } | Command::Sync { .. } | Command::Unknown(_) => {
                Ok(Look::Nothing)
            }
        }
    }

    fn look_at_device(&self, its: u8, dev: DeviceId) -> Look
        ensures { result ≡ spec.device_look self.now its dev }
    {
        let before = self.device(its, dev);
        Look::Device(its, dev, before, self.count_events(its, dev))
    }

    fn look_at_collection(&self, its: u8, icid: Icid) -> Result<Look, AllocError>
        ensures { IfOk result (λ l. l ≡ spec.collection_look self.now its icid) }
    {
        let before = self.collection(its, icid);
        let had = self.count_where(before)?;
        Ok(Look::Collection(its, icid, before, had))
    }

    fn look_at_register(&self, its: u8, off: u32, size: u8, value: u64) -> Look
        ensures { result ≡ spec.register_look self.now its off size value }
    {
        let before = self.register(its, off);
        let had = self.counts(its);
        Look::Register(RegisterLook {
            its,
            off,
            fact: RegisterFact {
                rule: self.rule(its, off, size, value),
                before,
                after: before,
                had,
                has: had,
            },
        })
    }

    fn look_at_lpi_register(&self, vcpu: Vcpu, off: u32) -> Result<Look, AllocError>
        ensures { IfOk result (λ l. l ≡ spec.lpi_register_look self.now vcpu off) }
    {
        let bases = self.bases(vcpu);
        let had = self.count_pending(usize::from(vcpu.0))?;
        Ok(Look::LpiRegister(LpiRegisterLook {
            vcpu,
            off,
            bases,
            had,
        }))
    }

    /// The fact of a call that was made after this look.
    pub fn fact(&mut self, look: &Look) -> Result<Fact, AllocError>
        ensures kept { self.new ≡ self.old }
        ensures fact { IfOk result (λ f. f ≡ spec.fact_of self.old look.now) }
    {
        match *look {
            Look::Nothing => Ok(Fact::None),
            Look::Known(fact) => Ok(fact),
            Look::Event(look) => Ok(Fact::Event(self.event_fact(&look))),
            Look::Device(its, dev, before, events) => Ok(Fact::Device(DeviceFact {
                its,
                dev,
                before,
                after: self.device(its, dev),
                events,
            })),
            Look::Collection(its, icid, before, had) => {
                self.collection_fact(its, icid, before, had)
            }
            Look::Register(look) => Ok(self.register_fact(&look)),
            Look::LpiRegister(look) => self.lpi_register_fact(&look),
        }
    }

    fn collection_fact(
        &self,
        its: u8,
        icid: Icid,
        before: Option<Vcpu>,
        had: usize,
    ) -> Result<Fact, AllocError>
        ensures { IfOk result (λ f. f ≡ spec.collection_fact self.now its icid before had) }
    {
        let after = self.collection(its, icid);
        let has = self.count_where(before)?;
        Ok(Fact::Collection(CollectionFact {
            its,
            icid,
            before,
            after,
            had,
            has,
        }))
    }

    fn register_fact(&self, look: &RegisterLook) -> Fact
        ensures { result ≡ spec.register_fact self.now look.now }
    {
        Fact::Written(RegisterFact {
            after: self.register(look.its, look.off),
            has: self.counts(look.its),
            ..look.fact
        })
    }

    fn event_fact(&self, look: &EventLook) -> EventFact
        ensures { result ≡ spec.event_fact self.now look.now }
    {
        let after = self.pair(look.its, look.dev, look.ev);
        let spot = match after.spot() {
            Some(spot) => Some(spot),
            None => look.pair.spot(),
        };
        EventFact {
            its: look.its,
            dev: look.dev,
            ev: look.ev,
            before: look.pair,
            after,
            was: look.lpi,
            is: self.lpi(spot),
        }
    }

    fn lpi_register_fact(&mut self, look: &LpiRegisterLook) -> Result<Fact, AllocError>
        ensures kept { self.new ≡ self.old }
        ensures fact { IfOk result (λ f. f ≡ spec.lpi_register_fact self.old look.now) }
    {
        let after = self.bases(look.vcpu);
        let value = self.lpi_register(look.vcpu, look.off)?;
        let has = self.count_pending(usize::from(look.vcpu.0))?;
        Ok(Fact::LpiWritten(LpiRegisterFact {
            before: look.bases,
            after,
            value,
            had: look.had,
            has,
        }))
    }
}

fn next_of(translator: TranslatorRef<'_>, its: u8, memory: &Memory) -> Option<Taken>
    ensures { result ≡ option_map (taken_of translator.entry.regs.now its)
        (command_of translator.entry.regs.now memory.now) }
{
    match meet(translator.regs, memory) {
        Met::Still(_) => None,
        Met::Command(command) => Some(Taken {
            its,
            addr: translator.regs.queue_place(),
            command,
        }),
    }
}
