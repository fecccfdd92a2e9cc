//! What a caller in another language holds of a pass.
ghost use Rattle.std.specs.Prelude.{◌≡◌, Option, Some, None, IsSome, is_none};
ghost use Rattle.std.specs.Coded.{codes};
ghost use Rattle.gicr_regs.specs.Redistributors.{conf_code, pend_code};
ghost use Rattle.its_plain.specs.Plain.{plain_code, translator_code};
ghost use Rattle.its_shared.specs.Knowing.{Known};

use crate::port::Port;
use its_numbers::Loose;
use std::alloc::Global;
use std::marker::Model;
use std::ptr::null_mut;

/// A pass on the heap, with its share of the machine, by its address; or no pass, at null. Whoever
/// has the handle owns the pass. To drop a handle frees nothing: only one with no pass is dropped
/// here.
#[repr(C)]
#[derive(Drop)]
pub struct Pass {
    pub(crate) at: *mut u8,
    pub(crate) alloc: Global,
    pub(crate) ghost known: { Option Known } by { Prim.hlevel
        (codes, plain_code, translator_code, conf_code, pend_code) },
}

impl Model for Pass {
    ghost use Rattle.its_shared.specs.Owning.{held};

    ghost also_owns = { λ h. held h.alloc h.at h.known };
}

impl Pass {
    /// A handle with no pass.
    pub fn empty(alloc: Global) -> Pass
        ensures { result.known ≡ None }
    {
        Pass {
            at: null_mut(),
            alloc,
        }
    }

    /// Whether it has no pass.
    pub fn is_empty(&mut self) -> bool
        ensures { (result ≡ is_none self.old.known) × (self.new ≡ self.old) }
    {
        self.at.is_null()
    }

    /// The handle of a pass that is on the heap.
    pub fn of(port: Box<Port>) -> Pass
        ensures { result.known ≡ Some port.value }
    {
        Pass::of_loose(Loose::of(sent(port)))
    }

    /// The pass as a box, which frees it when it is dropped.
    pub fn into_box(self) -> Box<Port>
        requires { IsSome self.known }
        ensures { self.known ≡ Some result.value }
    {
        self.into_loose().into_box()
    }

    fn of_loose(loose: Loose<Port, Global>) -> Pass
        ensures { result.known ≡ Some loose.value }
    {
        let Loose { at, alloc } = loose;
        Pass {
            at: at.cast::<u8>(),
            alloc,
        }
    }

    fn into_loose(self) -> Loose<Port, Global>
        requires { IsSome self.known }
        ensures { self.known ≡ Some result.value }
    {
        let Pass { at, alloc } = self;
        Loose {
            at: at.cast::<Port>(),
            alloc,
        }
    }
}

// The value, of a type that may go to another thread: a handle does.
fn sent<T: Send>(value: T) -> T
    ensures { result ≡ value }
{
    value
}
