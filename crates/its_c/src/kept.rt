//! What a handle has: a machine, the description that it was made from, and how much may be mapped.
ghost use Rattle.std.specs.Prelude.{◌≡◌};
ghost use Rattle.owned_machine.specs.Lent.{on};
ghost use Rattle.its_numbers.specs.Limits as spec;

use crate::windows::{met, with_one};
use dma_routes::route;
use guest_windows::{Memory, NewError, Outside};
use its_numbers::{
    Counters, GuestLimits, has_room, is_at, is_past, is_within, missing, missing_in, next_count,
    step_leaves_maps,
};
use its_plain::{
    Bytes64, Call, Desc, DescFault, MakeError, Reply, Route, SaveError, Signal, StepReply,
};
use its_types::Addr;
use owned_machine::Machine;
use std::alloc::{AllocError, Global};
use std::marker::Model;
use step_views::{adds_device_on, adds_event_on, device_count, event_count};
use table_save::written_tables;

/// What a handle has.
#[derive(Drop)]
pub struct Kept {
    machine: Machine,
    desc: Desc,
    limits: GuestLimits,
    routes: u64,
    counters: Counters,
}

impl Model for Kept {
    ghost use Rattle.std.specs.Coded.{codes};
    ghost use Rattle.its_plain.specs.Plain.{plain_code};
    ghost use Rattle.its_c.specs.Keeping.{Held};

    ghost Value = { Held };

    ghost coded = { Prim.hlevel (codes, plain_code) };

    ghost use Rattle.its_c.specs.Insides.{held_of, IsKept};

    ghost view = { held_of };

    ghost invariant = { IsKept };
}

/// Why a step was not made. Nothing changed.
#[derive(Clone, Copy)]
pub enum StepError {
    /// As many events or devices are mapped as may be, or more, and the command would map another.
    Full,
    /// The host's memory ran out.
    NoMemory,
}

impl Kept {
    ghost use Rattle.std.specs.Prelude.{◌≡◌, ◌<◌, ◌≤◌, ◌+◌, ◌^◌, true, IfOk, OnOk, OnErr, IfErr};
    ghost use Rattle.std.specs.Prelude.{Ok, Err, is_ok, length, map, replicate};
    ghost use Rattle.dma_routes.specs.Routes.{AreDevices};
    ghost use Rattle.guest_windows.specs.Windows.{inside, extent};
    ghost use Rattle.its_c.specs.Keeping.{with_machine, maps_none};
    ghost use Rattle.its_numbers.specs.Limits.{no_limit, is_full, is_over, is_over_of};
    ghost use Rattle.its_numbers.specs.Counters.{none_counted, count_reply, count_signal};
    ghost use Rattle.its_numbers.specs.Counters.{count_step};
    ghost use Rattle.its_numbers.specs.Routes as ended;
    ghost use Rattle.its_c.specs.Windows.{held_with, window_test, IsWindowFault};
    ghost use Rattle.its_c.specs.declared.kept.StepError.TheVariants.{Full, NoMemory};
    ghost use Rattle.its_plain.specs.Answer as plain;
    ghost use Rattle.its_plain.specs.Doorbells.{route_of, dma_of};
    ghost use Rattle.owned_machine.specs.Lent.{on, left_on};
    ghost use Rattle.owned_machine.specs.Migrations.{Migrates};
    ghost use Rattle.owned_machine.specs.Pieces.{written_to};
    ghost use Rattle.owned_machine.specs.Whole.{may_want_memory, step_adds};

    /// A machine, the description that it was made from but for its fills, and its limits.
    pub fn new(machine: Machine, desc: Desc, limits: GuestLimits) -> Kept
        requires translators { length desc.translators ≤ 2 }
        requires devices { AreDevices desc.requesters }
        ensures machine { result.machine ≡ machine }
        ensures desc { result.desc ≡ desc }
        ensures limits { result.limits ≡ limits }
        ensures counters { result.counters ≡ none_counted }
    {
        Kept {
            machine,
            desc,
            limits,
            routes: 0,
            counters: Counters::new(),
        }
    }

    /// The machine.
    pub fn machine(&self) -> &Machine
        ensures { result.now ≡ self.now.machine }
    {
        &self.machine
    }

    /// How often a translation may have ended.
    pub fn routes(&self) -> u64
        ensures { result ≡ self.now.routes }
    {
        self.routes
    }

    /// Counts a call, unless it left the maps.
    pub fn count(&mut self, leaves_maps: bool)
        ensures { self.new
            ≡ record self.old { routes = ended.counted leaves_maps self.old.routes } }
    {
        if !leaves_maps {
            self.routes = next_count(self.routes);
        }
    }

    /// How often signals went where, and commands were refused.
    pub fn counters(&self) -> Counters
        ensures { result ≡ self.now.counters }
    {
        self.counters
    }

    /// Counts a signal that was answered so.
    pub fn count_signal(&mut self, signal: Signal)
        ensures { self.new
            ≡ record self.old { counters = count_signal signal self.old.counters } }
    {
        self.counters.count_signal(signal);
    }

    /// Counts a call that was answered so, if it was a signal.
    pub fn count_reply(&mut self, reply: &Reply)
        ensures { self.new
            ≡ record self.old { counters = count_reply reply.now self.old.counters } }
    {
        self.counters.count_reply(reply);
    }

    /// Counts a step that was answered so.
    pub fn count_step(&mut self, reply: StepReply)
        ensures { self.new ≡ record self.old {
          routes = ended.counted (ended.step_leaves_maps reply) self.old.routes;
          counters = count_step reply self.old.counters;
        } }
    {
        self.count(step_leaves_maps(&reply));
        self.counters.count_step(reply);
    }

    /// How much may be mapped.
    pub fn limits(&self) -> GuestLimits
        ensures { result ≡ self.now.limits }
    {
        self.limits
    }

    /// How much may be mapped from now on.
    pub fn set_limits(&mut self, limits: GuestLimits)
        ensures machine { self.new.machine ≡ self.old.machine }
        ensures desc { self.new.desc ≡ self.old.desc }
        ensures limits { self.new.limits ≡ limits }
        ensures routes { self.new.routes ≡ self.old.routes }
        ensures counters { self.new.counters ≡ self.old.counters }
    {
        self.limits = limits;
    }

    /// Whether a translator has more mapped than may be.
    #[tactic(auto, unfolding(its_numbers::specs::Limits::is_over))]
    pub fn is_over(&self) -> bool
        ensures { result ≡ is_over self.now.limits self.now.machine }
    {
        self.is_over_of(0) || self.is_over_of(1)
    }

    // Whether this translator has. One that isn't there has nothing mapped.
    fn is_over_of(&self, its: u8) -> bool
        ensures { result ≡ is_over_of self.now.limits self.now.machine its }
    {
        let parts = self.machine.parts();
        is_past(self.limits.events, event_count(parts, its))
            || is_past(self.limits.devices, u64::from(device_count(parts, its)))
    }

    /// Whether as many bytes of guest memory are held as may be, or fewer.
    pub fn is_within(&self) -> bool
        ensures { self.now.limits.memory ≡ no_limit → result ≡ true }
    {
        is_within(&self.machine.parts().memory, self.limits.memory)
    }

    /// Whether the pages of some bytes may be held besides.
    pub fn has_room(&self, address: u64, length: u64) -> bool
        ensures { self.now.limits.memory ≡ no_limit → result ≡ true }
    {
        let memory = &self.machine.parts().memory;
        let limit = self.limits.memory;
        limit == u64::MAX || has_room(memory, limit, missing(memory, address, length))
    }

    /// Whether a requester's write at an address is none of guest memory, or its pages may be held
    /// besides.
    pub fn has_room_for(&self, req: u32, addr: Addr, bytes: &Bytes64) -> bool
        ensures { self.now.limits.memory ≡ no_limit → result ≡ true }
    {
        let length = bytes.as_slice().len() as u64;
        match route(&self.desc, req, addr, bytes) {
            Route::Poke => {
                !self.machine.parts().memory.inside(addr, length) || self.has_room(addr.0, length)
            }
            Route::Signal { .. } | Route::NoRequester | Route::Frame => true,
        }
    }

    /// Whether the pages of the tables that a save writes may be held besides.
    pub fn has_room_for_tables(&self, alloc: Global) -> Result<bool, AllocError>
        ensures { self.now.limits.memory ≡ no_limit → result ≡ Ok true }
    {
        let limit = self.limits.memory;
        if limit == u64::MAX {
            return Ok(true);
        }
        let parts = self.machine.parts();
        let tables = written_tables(alloc, &parts.in_place())?;
        Ok(has_room(&parts.memory, limit, missing_in(&parts.memory, &tables)))
    }

    /// Answers a call that is no step.
    pub fn answer(&mut self, alloc: Global, call: &Call) -> Result<Reply, AllocError>
        requires { maps_none call.now ≡ true }
        ensures reply { IfOk result (λ r. r ≡ plain.reply_of self.old.machine call.now) }
        ensures left { IfOk result (λ r. self.new
            ≡ with_machine self.old (plain.left self.old.machine call.now r)) }
        ensures err { OnErr result (self.new ≡ self.old) }
        ensures rare { OnErr result (may_want_memory self.old.machine call.now ≡ true) }
    {
        self.machine.answer(alloc, call)
    }

    /// A requester's write at an address, which is what the description says.
    pub fn dma(
        &mut self,
        alloc: Global,
        req: u32,
        addr: Addr,
        bytes: Bytes64,
    ) -> Result<(Route, Reply), AllocError>
        ensures route { IfOk result (λ p. p.0 ≡ route_of self.old.desc req addr.0 bytes) }
        ensures reply { IfOk result (λ p. p.1
            ≡ plain.reply_of self.old.machine (dma_of self.old.desc req addr bytes)) }
        ensures left { IfOk result (λ p. self.new ≡ with_machine self.old
            (plain.left self.old.machine (dma_of self.old.desc req addr bytes) p.1)) }
        ensures err { OnErr result (self.new ≡ self.old) }
        ensures rare { OnErr result (may_want_memory self.old.machine
            (dma_of self.old.desc req addr bytes) ≡ true) }
    {
        let route = route(&self.desc, req, addr, &bytes);
        let call = Call::Dma {
            req,
            addr,
            bytes,
            route,
        };
        let reply = self.machine.answer(alloc, &call)?;
        Ok((route, reply))
    }

    /// A translator takes its next command.
    #[tactic(auto, unfolding(its_plain::specs::Answer::reply_of, its_plain::specs::Answer::left))]
    pub fn step(&mut self, alloc: Global, its: u8) -> Result<StepReply, StepError>
        ensures reply { IfOk result (λ r. r ≡ plain.step_reply self.old.machine its) }
        ensures left { OnOk result (self.new
            ≡ with_machine self.old (plain.step_left self.old.machine its)) }
        ensures err { OnErr result (self.new ≡ self.old) }
        ensures full { result ≡ Err Full → is_full self.old.limits self.old.machine its ≡ true }
        ensures where_full { is_full self.old.limits self.old.machine its ≡ true
            → result ≡ Err Full }
        ensures no_memory { result ≡ Err NoMemory → step_adds self.old.machine its ≡ true }
    {
        if is_full(&self.machine, its, &self.limits) {
            return Err(StepError::Full);
        }
        match self.machine.answer(alloc, &Call::Step { its }) {
            Ok(Reply::Step(reply)) => Ok(reply),
            Ok(_) => unreachable!(),
            Err(_) => Err(StepError::NoMemory),
        }
    }

    /// A translator takes its next command on other memory with the same windows: guest memory is
    /// neither read nor changed.
    pub fn step_on(&mut self, memory: &Memory, its: u8) -> Result<StepReply, StepError>
        requires { map extent memory.now ≡ map extent self.old.machine.memory }
        ensures reply { IfOk result (λ r. r
            ≡ plain.step_reply (on memory.now self.old.machine) its) }
        ensures left { OnOk result (self.new
            ≡ with_machine self.old (left_on memory.now self.old.machine its)) }
        ensures err { OnErr result (self.new ≡ self.old) }
        ensures full { result ≡ Err Full
            → is_full self.old.limits (on memory.now self.old.machine) its ≡ true }
        ensures where_full { is_full self.old.limits (on memory.now self.old.machine) its ≡ true
            → result ≡ Err Full }
        ensures no_memory { result ≡ Err NoMemory
            → step_adds (on memory.now self.old.machine) its ≡ true }
    {
        if is_full_on(&self.machine, memory, its, &self.limits) {
            return Err(StepError::Full);
        }
        match self.machine.step_on(memory, its) {
            Ok(reply) => Ok(reply),
            Err(_) => Err(StepError::NoMemory),
        }
    }

    /// Writes bytes to guest memory, as the machine does.
    pub fn write_memory(
        &mut self,
        alloc: Global,
        address: Addr,
        bytes: &[u8],
    ) -> Result<(), AllocError>
        requires { address.0 + length bytes.now < 2 ^ 64 }
        ensures done { OnOk result (self.new
            ≡ with_machine self.old (written_to self.old.machine address.0 bytes.now)) }
        ensures err { OnErr result (self.new ≡ self.old) }
    {
        self.machine.write_memory(alloc, address, bytes)
    }

    /// Makes bytes of guest memory zero, as the machine does.
    pub fn forget(&mut self, address: Addr, len: u64) -> Result<(), Outside>
        ensures done { OnOk result (self.new ≡ with_machine self.old
            (written_to self.old.machine address.0 (replicate len 0))) }
        ensures outside { IfErr result (λ e. e.0 ≡ address) }
        ensures err { OnErr result (self.new ≡ self.old) }
        ensures where_all { is_ok result ≡ inside self.old.machine.memory address.0 len }
    {
        self.machine.forget(address, len)
    }

    /// Adds a window of zero bytes to guest memory, as the machine does, and to the description,
    /// unless it shares a byte with the frames of a translator.
    pub fn add_window(&mut self, alloc: Global, base: Addr, len: u64) -> Result<(), MakeError>
        ensures added { OnOk result (self.new ≡ held_with self.old (base.0, len)) }
        ensures fits { OnOk result (window_test self.old (base.0, len) ≡ Ok tt) }
        ensures fault { IfErr result (IsWindowFault self.old (base.0, len)) }
        ensures err { OnErr result (self.new ≡ self.old) }
    {
        if let Some(its) = met(self.desc.translators.as_slice(), base, len) {
            return Err(MakeError::Fault(DescFault::Frames(its)));
        }
        let windows = with_one(alloc, self.desc.windows.as_slice(), base, len)?;
        match self.machine.add_window(alloc, base, len) {
            Ok(()) => {
                self.desc.windows = windows;
                Ok(())
            }
            Err(NewError::BadWindows) => Err(MakeError::Fault(DescFault::Windows)),
            Err(NewError::NoMemory) => Err(MakeError::NoMemory),
        }
    }

    /// Saves into a copy of guest memory, and goes on from there, as the machine does.
    pub fn migrate(&mut self, alloc: Global) -> Result<(), SaveError>
        ensures machine { Migrates result self.old.machine self.new.machine }
        ensures desc { self.new.desc ≡ self.old.desc }
        ensures limits { self.new.limits ≡ self.old.limits }
        ensures routes { self.new.routes ≡ self.old.routes }
        ensures counters { self.new.counters ≡ self.old.counters }
    {
        self.machine.migrate(alloc)
    }
}

// Whether the next step of a translator would map another event or device, where it has as many
// mapped as may be.
fn is_full(machine: &Machine, its: u8, limits: &GuestLimits) -> bool
    ensures { result ≡ spec.is_full limits.now machine.now its }
{
    is_full_on(machine, &machine.parts().memory, its, limits)
}

// So of a step on other memory. Only at a limit is the command looked at.
#[tactic(auto, unfolding(its_numbers::specs::Limits::is_full))]
fn is_full_on(machine: &Machine, memory: &Memory, its: u8, limits: &GuestLimits) -> bool
    ensures { result ≡ spec.is_full limits.now (on memory.now machine.now) its }
{
    let parts = machine.parts();
    is_at(limits.events, event_count(parts, its)) && adds_event_on(parts, memory, its)
        || is_at(limits.devices, u64::from(device_count(parts, its)))
            && adds_device_on(parts, memory, its)
}
