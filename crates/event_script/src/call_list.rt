//! The calls of a thread, of which most have no bytes and take little memory.
ghost use Rattle.std.specs.Prelude.{◌≡◌, ◌<◌, ◌++◌, ◌∷◌, ◌==◌, [], IfOk, OnOk, OnErr};
ghost use Rattle.std.specs.Prelude.{get_or, length, slice_get};
ghost use Rattle.std.specs.Iterator.{YieldsFirst, item_count};
ghost use mathlib.Core.List.{IsPrefix};
ghost use Rattle.event_script.specs.CallList as spec;

use its_plain::Call;
use its_types::{Addr, DeviceId, EventId, Intid, Vcpu};
use std::alloc::{AllocError, Global};
use std::marker::Model;

/// A call in 16 bytes: one that has bytes is named by its place among such calls.
#[derive(Clone, Copy, Debug)]
enum Short {
    Signal {
        its: u8,
        dev: DeviceId,
        ev: EventId,
    },
    Take(Vcpu),
    Show(Vcpu),
    Best {
        vcpu: Vcpu,
        mask: u8,
    },
    Claim {
        vcpu: Vcpu,
        intid: Intid,
    },
    Peek {
        count: u8,
        addr: Addr,
    },
    ReadReg {
        its: u8,
        size: u8,
        off: u32,
    },
    WriteReg {
        its: u8,
        size: u8,
        off: u32,
        value: u64,
    },
    ReadGicr {
        vcpu: Vcpu,
        size: u8,
        off: u32,
    },
    WriteGicr {
        vcpu: Vcpu,
        size: u8,
        off: u32,
        value: u64,
    },
    Step {
        its: u8,
    },
    Save,
    Copy,
    Long(usize),
}

/// The calls of a thread. Contracts see a list; a call without bytes takes 16 bytes.
#[derive(Debug, Drop)]
pub struct Calls {
    short: Vec<Short>,
    // Those that have bytes.
    long: Vec<Call>,
}

impl Model for Calls {
    ghost use Rattle.std.specs.Prelude.{List, length};
    ghost use Rattle.std.specs.List.{AllByRecursion};
    ghost use Rattle.its_plain.specs.declared.call.Call.{Call};
    ghost use Rattle.event_script.specs.CallList.{calls_of, IsInside};

    ghost Value = { List Call };

    ghost view = { λ c. calls_of c.long.items c.short.items };

    ghost invariant = { λ c. AllByRecursion (IsInside (length c.long.items)) c.short.items };
}

impl Calls {
    /// No calls, which take no memory.
    pub fn new(alloc: Global) -> Calls
        ensures { result ≡ [] }
    {
        Calls {
            short: Vec::new(alloc),
            long: Vec::new(alloc),
        }
    }

    /// Puts a call at the end, or answers that memory ran out and leaves the calls as they were.
    pub fn push(&mut self, call: Call) -> Result<(), AllocError>
        ensures ok { OnOk result (self.new ≡ self.old ++ call ∷ []) }
        ensures err { OnErr result (self.new ≡ self.old) }
    {
        let short = shortened(&call, &mut self.long)?;
        self.short.push(short)?;
        Ok(())
    }

    /// How many there are.
    pub fn len(&self) -> usize
        ensures { result ≡ length self.now }
    {
        self.short.len()
    }

    /// Whether there are none.
    pub fn is_empty(&self) -> bool
        ensures { result ≡ (length self.now == 0) }
    {
        self.short.is_empty()
    }

    /// The call at an index.
    pub fn at(&self, index: usize) -> Call
        requires { index < length self.now }
        ensures { result ≡ get_or self.now index result }
    {
        lengthened(self.short[index], &self.long)
    }

    /// The call at an index, if there is one.
    pub fn get(&self, index: usize) -> Option<Call>
        ensures { result ≡ slice_get self.now index }
    {
        let short = self.short.get(index)?;
        Some(lengthened(*short, &self.long))
    }

    /// The calls in their order.
    pub fn iter(&self) -> CallIter<'_>
        ensures { result ≡ self.now }
    {
        CallIter {
            short: &self.short,
            long: &self.long,
        }
    }
}

/// The calls of a thread in their order.
#[derive(Drop)]
pub struct CallIter<'a> {
    short: &'a [Short],
    long: &'a [Call],
}

impl<'a> Model for CallIter<'a> {
    ghost use Rattle.std.specs.Prelude.{List, length};
    ghost use Rattle.std.specs.List.{AllByRecursion};
    ghost use Rattle.its_plain.specs.declared.call.Call.{Call};
    ghost use Rattle.event_script.specs.CallList.{calls_of, IsInside};

    ghost Value = { List Call };

    ghost view = { λ c. calls_of c.long.now c.short.now };

    ghost invariant = { λ c. AllByRecursion (IsInside (length c.long.now)) c.short.now };
}

impl<'a> Iterator for CallIter<'a> {
    type Item = Call;

    ghost next_gives = { YieldsFirst (λ c. c) };

    ghost remaining = { item_count (λ c. c) };

    fn next(&mut self) -> Option<Call> {
        let (short, rest) = self.short.split_first()?;
        self.short = rest;
        Some(lengthened(*short, self.long))
    }
}

/// A call as it is kept, beside the calls that have bytes. It is one more of these if it has some.
fn shortened(call: &Call, long: &mut Vec<Call>) -> Result<Short, AllocError>
    ensures call { IfOk result (λ short. spec.call_of long.new.items short ≡ call.now) }
    ensures inside { IfOk result (spec.IsInside (length long.new.items)) }
    ensures more { IsPrefix long.old.items long.new.items }
{
    Ok(match *call {
        Call::Signal { its, dev, ev } => Short::Signal { its, dev, ev },
        Call::Take(vcpu) => Short::Take(vcpu),
        Call::Show(vcpu) => Short::Show(vcpu),
        Call::Best { vcpu, mask } => Short::Best { vcpu, mask },
        Call::Claim { vcpu, intid } => Short::Claim { vcpu, intid },
        Call::Peek { addr, count } => Short::Peek { count, addr },
        Call::ReadReg { its, off, size } => Short::ReadReg { its, size, off },
        Call::WriteReg {
            its,
            off,
            size,
            value,
        } => Short::WriteReg {
            its,
            size,
            off,
            value,
        },
        Call::ReadGicr { vcpu, off, size } => Short::ReadGicr { vcpu, size, off },
        Call::WriteGicr {
            vcpu,
            off,
            size,
            value,
        } => Short::WriteGicr {
            vcpu,
            size,
            off,
            value,
        },
        Call::Step { its } => Short::Step { its },
        Call::Save => Short::Save,
        Call::Copy => Short::Copy,
        Call::Poke { .. } | Call::Dma { .. } => {
            let place = long.len();
            long.push(*call)?;
            Short::Long(place)
        }
    })
}

/// The call that is kept so, beside the calls that have bytes.
fn lengthened(short: Short, long: &[Call]) -> Call
    requires { spec.IsInside (length long.now) short }
    ensures { result ≡ spec.call_of long.now short }
{
    match short {
        Short::Signal { its, dev, ev } => Call::Signal { its, dev, ev },
        Short::Take(vcpu) => Call::Take(vcpu),
        Short::Show(vcpu) => Call::Show(vcpu),
        Short::Best { vcpu, mask } => Call::Best { vcpu, mask },
        Short::Claim { vcpu, intid } => Call::Claim { vcpu, intid },
        Short::Peek { count, addr } => Call::Peek { addr, count },
        Short::ReadReg { its, size, off } => Call::ReadReg { its, off, size },
        Short::WriteReg {
            its,
            size,
            off,
            value,
        } => Call::WriteReg {
            its,
            off,
            size,
            value,
        },
        Short::ReadGicr { vcpu, size, off } => Call::ReadGicr { vcpu, off, size },
        Short::WriteGicr {
            vcpu,
            size,
            off,
            value,
        } => Call::WriteGicr {
            vcpu,
            off,
            size,
            value,
        },
        Short::Step { its } => Call::Step { its },
        Short::Save => Call::Save,
        Short::Copy => Call::Copy,
        Short::Long(place) => long[place],
    }
}
