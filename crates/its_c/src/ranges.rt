//! Which numbers are in their ranges.
ghost use Rattle.std.specs.Prelude.{◌≡◌, ◌<◌, true};
ghost use Rattle.its_c.specs.Asked as spec;
ghost use Rattle.its_numbers.specs.Translators.{has_translator};

use its_types::MOST_VCPUS;
use owned_machine::Machine;

/// Whether there is a virtual processor of this number.
pub fn has_vcpu(machine: &Machine, vcpu: u32) -> bool
    ensures { result ≡ spec.has_vcpu machine.now vcpu }
{
    vcpu < u32::from(MOST_VCPUS) && (vcpu as usize) < machine.vcpus()
}

/// Whether there is a translator of this number.
pub fn is_translator(machine: &Machine, translator: u32) -> bool
    ensures is { result ≡ has_translator machine.now translator }
    ensures low { result ≡ true → translator < 2 }
{
    match machine.parts().second {
        Some(_) => translator < 2,
        None => translator < 1,
    }
}

/// Whether registers are accessed in so many bytes.
pub fn is_size(size: u32) -> bool
    ensures { result ≡ spec.is_size size }
{
    size == 4 || size == 8
}
