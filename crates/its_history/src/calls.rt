//! Calls as they are printed. Those of a second translator begin with its mark.
ghost use Rattle.std.specs.Prelude.{◌≡◌, ◌++◌, OnOk, codes};
ghost use Rattle.std.specs.Fmt.{decimal};
ghost use Rattle.std.specs.String.{string_bytes};
ghost use Rattle.its_history.specs.Texts.{call_text, hexadecimal};

use crate::numbers::{push_bytes, push_decimal, push_hexadecimal};
use crate::text::its_mark;
use its_plain::Call;
use std::alloc::{AllocError, Global};

/// Appends the text of a call.
#[tactic(auto, unfolding(crate::specs::Texts::call_text))]
pub fn push_call(alloc: Global, out: &mut String, call: &Call) -> Result<(), AllocError>
    ensures { OnOk result (string_bytes out.new ≡ string_bytes out.old ++ call_text call.now) }
{
    match call {
        Call::Signal { its, dev, ev } => {
            out.push_str(its_mark(*its))?;
            out.push_str("signal ")?;
            push_decimal(out, dev.0.into())?;
            out.push_str(" ")?;
            push_decimal(out, ev.0.into())
        }
        Call::Take(vcpu) => {
            out.push_str("take ")?;
            push_decimal(out, vcpu.0.into())
        }
        Call::Show(vcpu) => {
            out.push_str("show ")?;
            push_decimal(out, vcpu.0.into())
        }
        Call::Best { vcpu, mask } => {
            out.push_str("best ")?;
            push_decimal(out, vcpu.0.into())?;
            out.push_str(" ")?;
            push_hexadecimal(out, (*mask).into())
        }
        Call::Claim { vcpu, intid } => {
            out.push_str("claim ")?;
            push_decimal(out, vcpu.0.into())?;
            out.push_str(" ")?;
            push_decimal(out, intid.0.into())
        }
        Call::Poke { addr, bytes } => {
            out.push_str("poke ")?;
            push_hexadecimal(out, addr.0)?;
            out.push_str(" ")?;
            push_bytes(alloc, out, bytes.as_slice())
        }
        Call::Peek { addr, count } => {
            out.push_str("peek ")?;
            push_hexadecimal(out, addr.0)?;
            out.push_str(" ")?;
            push_decimal(out, (*count).into())
        }
        Call::ReadReg { its, off, size } => {
            out.push_str(its_mark(*its))?;
            push_access(out, "read ", *off, *size)
        }
        Call::WriteReg {
            its,
            off,
            size,
            value,
        } => {
            out.push_str(its_mark(*its))?;
            push_access(out, "write ", *off, *size)?;
            out.push_str(" ")?;
            push_hexadecimal(out, *value)
        }
        Call::ReadGicr { vcpu, off, size } => {
            out.push_str("rread ")?;
            push_decimal(out, vcpu.0.into())?;
            push_access(out, " ", *off, *size)
        }
        Call::WriteGicr {
            vcpu,
            off,
            size,
            value,
        } => {
            out.push_str("rwrite ")?;
            push_decimal(out, vcpu.0.into())?;
            push_access(out, " ", *off, *size)?;
            out.push_str(" ")?;
            push_hexadecimal(out, *value)
        }
        Call::Step { its } => {
            out.push_str(its_mark(*its))?;
            out.push_str("step")
        }
        Call::Save => out.push_str("save"),
        Call::Copy => out.push_str("copy"),
        Call::Dma {
            req,
            addr,
            bytes,
            route: _,
        } => {
            out.push_str("dma ")?;
            push_decimal(out, (*req).into())?;
            out.push_str(" ")?;
            push_hexadecimal(out, addr.0)?;
            out.push_str(" ")?;
            push_bytes(alloc, out, bytes.as_slice())
        }
    }
}

// A register's offset and how many bytes of it, after a word.
fn push_access(out: &mut String, word: &str, off: u32, size: u8) -> Result<(), AllocError>
    ensures { OnOk result (string_bytes out.new
        ≡ string_bytes out.old ++ word.now ++ hexadecimal off ++ codes " " ++ decimal size) }
{
    out.push_str(word)?;
    push_hexadecimal(out, off.into())?;
    out.push_str(" ")?;
    push_decimal(out, size.into())
}
