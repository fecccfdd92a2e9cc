//! The call by which guest memory gets another window, by the machine's handle.
ghost use Rattle.std.specs.Prelude.{◌≡◌, ◌≢◌, ◌⊎◌, Ok, Err, None};
ghost use Rattle.std.specs.Option.{option_map};
ghost use Rattle.its_plain.specs.declared.desc.DescFault.{DescFault};
ghost use Rattle.its_numbers.specs.Codes as codes;
ghost use Rattle.its_numbers.specs.Faults as faults;
ghost use Rattle.its_c.specs.Held.{InMachine, InHeld, beside};
ghost use Rattle.its_c.specs.Windows as spec;

use crate::handle::Handle;
use crate::kept::Kept;
use its_numbers::{DONE, FAULT, HANDLE, MakeFaultOut, NO_MEMORY, make_fault_out};
use its_plain::MakeError;
use its_types::Addr;
use std::alloc::Global;

/// Guest memory gets another window, of zero bytes.
#[unsafe(no_mangle)]
pub extern "C" fn its_add_window(
    handle: &mut Handle,
    alloc: Global,
    base: u64,
    length: u64,
    fault: &mut MakeFaultOut,
) -> u32
    ensures empty { handle.old.machine ≡ None → (result ≡ codes.handle) × (fault.new ≡ fault.old) }
    ensures kept { result ≢ codes.done → beside handle.new ≡ beside handle.old }
    ensures beside { result ≡ codes.done → beside handle.new
        ≡ option_map (spec.beside_with (base, length)) (beside handle.old) }
    ensures codes { InMachine handle.old handle.new (λ u w. (result ≡ codes.done)
        ⊎ ((result ≡ codes.fault) ⊎ (result ≡ codes.no_memory))) }
    ensures left { InHeld handle.old handle.new (λ h k.
        result ≡ codes.done → k ≡ spec.held_with h (base, length)) }
    ensures fits { InHeld handle.old handle.new (λ h k.
        result ≡ codes.done → spec.window_test h (base, length) ≡ Ok tt) }
    ensures fault { InHeld handle.old handle.new (λ h k. result ≡ codes.fault
        → (f : DescFault) × (spec.window_test h (base, length) ≡ Err f)
        × (fault.new ≡ faults.make_fault_out f)) }
    ensures untold { result ≢ codes.fault → fault.new ≡ fault.old }
    ensures same { InHeld handle.old handle.new (λ h k. result ≢ codes.done → k ≡ h) }
{
    if handle.is_empty() {
        return HANDLE;
    }
    add_window(handle.lent(), alloc, base, length, fault)
}

fn add_window(
    kept: &mut Kept,
    alloc: Global,
    base: u64,
    length: u64,
    fault: &mut MakeFaultOut,
) -> u32
    ensures codes { (result ≡ codes.done)
        ⊎ ((result ≡ codes.fault) ⊎ (result ≡ codes.no_memory)) }
    ensures left { result ≡ codes.done → kept.new ≡ spec.held_with kept.old (base, length) }
    ensures fits { result ≡ codes.done → spec.window_test kept.old (base, length) ≡ Ok tt }
    ensures fault { result ≡ codes.fault
        → (f : DescFault) × (spec.window_test kept.old (base, length) ≡ Err f)
        × (fault.new ≡ faults.make_fault_out f) }
    ensures untold { result ≢ codes.fault → fault.new ≡ fault.old }
    ensures same { result ≢ codes.done → kept.new ≡ kept.old }
{
    match kept.add_window(alloc, Addr(base), length) {
        Ok(()) => DONE,
        Err(MakeError::NoMemory) => NO_MEMORY,
        Err(MakeError::Fault(found)) => {
            *fault = make_fault_out(found);
            FAULT
        }
    }
}
