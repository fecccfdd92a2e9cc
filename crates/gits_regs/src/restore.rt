//! Registers from the values that were saved.
ghost use Rattle.std.specs.Prelude.{◌≡◌, ◌≤◌};
ghost use Rattle.gits_regs.specs.Registers as spec;

use crate::masks::{kept_baser0, kept_baser1, kept_cbaser, kept_offset};
use crate::regs::{Regs, size_of};
use crate::values::{NotValid, RegValues, Register};
use its_types::bit_of;

/// The registers that saved values give, masked as writes are, or the first whose value can't
/// stand: a base that isn't valid while bit 0 of CTLR is 1, or an offset at or past the queue's
/// size. DeviceIDs have 16 to 20 bits.
#[tactic(auto, unfolding(crate::specs::Registers::restored))]
pub fn restore_regs(values: RegValues, dev_bits: u8) -> Result<Regs, NotValid>
    requires least { 16 ≤ dev_bits }
    requires most { dev_bits ≤ 20 }
    ensures { result ≡ spec.restored values dev_bits }
{
    let enabled = bit_of(values.ctlr, 0);
    let cbaser = kept_cbaser(values.cbaser);
    let creadr = kept_offset(values.creadr);
    let cwriter = kept_offset(values.cwriter);
    let baser0 = kept_baser0(values.baser0);
    let baser1 = kept_baser1(values.baser1);
    let size = size_of(cbaser);
    ensure(base_allowed(enabled, cbaser), Register::Cbaser)?;
    ensure(creadr < size, Register::Creadr)?;
    ensure(cwriter < size, Register::Cwriter)?;
    ensure(base_allowed(enabled, baser0), Register::Baser0)?;
    ensure(base_allowed(enabled, baser1), Register::Baser1)?;
    Ok(Regs {
        dev_bits,
        enabled,
        cbaser,
        creadr,
        cwriter,
        baser0,
        baser1,
    })
}

fn ensure(test: bool, register: Register) -> Result<(), NotValid>
    ensures { result ≡ spec.ensure test register }
{
    if test {
        Ok(())
    } else {
        Err(NotValid(register))
    }
}

fn base_allowed(enabled: bool, base: u64) -> bool
    ensures { result ≡ spec.base_allowed enabled base }
{
    !enabled || bit_of(base, 63)
}
