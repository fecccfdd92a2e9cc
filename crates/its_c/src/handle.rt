//! What a caller in another language holds of a machine.
ghost use Rattle.std.specs.Prelude.{◌≡◌, Option, Some, None, IsSome, is_none};
ghost use Rattle.std.specs.Coded.{codes};
ghost use Rattle.its_plain.specs.Plain.{plain_code};
ghost use Rattle.its_c.specs.Keeping.{Held};

use crate::kept::Kept;
use its_numbers::Loose;
use std::alloc::Global;
use std::marker::Model;
use std::ptr::null_mut;

/// A machine on the heap, with what is kept beside it, by its address; or no machine, at null.
/// Whoever has the handle owns the machine. To drop a handle frees nothing: only one with no
/// machine is dropped here.
#[repr(C)]
#[derive(Drop)]
pub struct Handle {
    pub(crate) at: *mut u8,
    pub(crate) alloc: Global,
    pub(crate) ghost machine: { Option Held } by { Prim.hlevel (codes, plain_code) },
}

impl Model for Handle {
    ghost use Rattle.its_c.specs.Owning.{held};

    ghost also_owns = { λ h. held h.alloc h.at h.machine };
}

impl Handle {
    /// A handle with no machine.
    pub fn empty(alloc: Global) -> Handle
        ensures { result.machine ≡ None }
    {
        Handle {
            at: null_mut(),
            alloc,
        }
    }

    /// Whether it has no machine.
    pub fn is_empty(&mut self) -> bool
        ensures { (result ≡ is_none self.old.machine) × (self.new ≡ self.old) }
    {
        self.at.is_null()
    }

    /// The handle of a machine that is on the heap.
    pub fn of(kept: Box<Kept>) -> Handle
        ensures { result.machine ≡ Some kept.value }
    {
        Handle::of_loose(Loose::of(kept))
    }

    /// The machine as a box, which frees it when it is dropped.
    pub fn into_box(self) -> Box<Kept>
        requires { IsSome self.machine }
        ensures { self.machine ≡ Some result.value }
    {
        self.into_loose().into_box()
    }

    fn of_loose(loose: Loose<Kept, Global>) -> Handle
        ensures { result.machine ≡ Some loose.value }
    {
        let Loose { at, alloc } = loose;
        Handle {
            at: at.cast::<u8>(),
            alloc,
        }
    }

    fn into_loose(self) -> Loose<Kept, Global>
        requires { IsSome self.machine }
        ensures { self.machine ≡ Some result.value }
    {
        let Handle { at, alloc } = self;
        Loose {
            at: at.cast::<Kept>(),
            alloc,
        }
    }
}
