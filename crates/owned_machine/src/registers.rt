//! The registers of the control frame (IHI 0069, section 12.19).
ghost use Rattle.std.specs.Prelude.{◌≡◌};
ghost use Rattle.gits_regs.specs.Registers.{read_reg, write_reg};
ghost use Rattle.its_plain.specs.Plain.{regs_of};
ghost use Rattle.its_plain.specs.Answer as answers;
ghost use Rattle.owned_parts.specs.Owned.{state_of_parts, translator_of};
ghost use Rattle.owned_machine.specs.Whole.{IsMachine, GoesOn};

use cmd_exec::{read_register, write_register};
use gits_regs::Regs;
use its_types::Shape;
use owned_parts::{Parts, Translator};

/// Reads a register. A translator that there isn't reads as one at reset.
pub fn read(parts: &Parts, its: u8, off: u32, size: u8) -> u64
    ensures { result ≡ read_reg (regs_of (state_of_parts parts.now) its) off size }
{
    match parts.in_place().translator(its) {
        Some(translator) => read_register(translator.regs, off, size),
        None => Regs::reset(16).read(off, size),
    }
}

/// Writes a register. What is written to a translator that there isn't is dropped.
pub fn write(parts: &mut Parts, its: u8, off: u32, size: u8, value: u64)
    requires { IsMachine parts.old }
    ensures { GoesOn parts.new (answers.written (state_of_parts parts.old) its off size value) }
{
    let shape = &parts.layout.shape;
    if its == 0 {
        write_to(&mut parts.first, shape, off, size, value);
        return;
    }
    if its == 1 {
        if let Some(second) = &mut parts.second {
            write_to(second, shape, off, size, value);
        }
    }
}

// That of one translator.
fn write_to(translator: &mut Translator, shape: &Shape, off: u32, size: u8, value: u64)
    ensures { translator_of translator.new ≡ answers.translator_written shape.now
        (translator_of translator.old) (write_reg translator.old.regs off size value) }
{
    write_register(
        &mut translator.regs,
        &mut translator.maps,
        shape,
        off,
        size,
        value,
    );
}
