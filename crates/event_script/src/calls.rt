//! The lines of calls.
ghost use Rattle.std.specs.Prelude.{◌≡◌, ◌≤◌, ◌*◌, ◌-◌, ◌^◌, ◌⊎◌, IfOk, map};
ghost use Rattle.event_script.specs.Calls as spec;
ghost use Rattle.event_script.specs.Described.{desc_so_far};

use crate::commands::{command_fields, command_of};
use crate::draft::Draft;
use crate::fault::{Kind, ensure};
use crate::fields::{
    address, any_number, arg, device, event, few_bytes, interrupt, number_within, processor,
};
use crate::words::{CallWord, command_word_of};
use its_command::encode;
use its_plain::{Bytes64, Call};

/// `signal DEVICE EVENT`, to the translator with a number.
#[tactic(auto, unfolding(crate::specs::Calls::signal_of))]
fn signal_of(its: u8, fields: &[&[u8]]) -> Result<Call, Kind>
    ensures { result ≡ spec.signal_of its (map (λ f. f.now) fields.now) }
{
    ensure(fields.len() == 3, Kind::Fields)?;
    Ok(Call::Signal {
        its,
        dev: device(arg(fields, 1))?,
        ev: event(arg(fields, 2))?,
    })
}

/// `take VCPU`
#[tactic(auto, unfolding(crate::specs::Calls::take_of))]
fn take_of(vcpus: u16, fields: &[&[u8]]) -> Result<Call, Kind>
    ensures { result ≡ spec.take_of vcpus (map (λ f. f.now) fields.now) }
{
    ensure(fields.len() == 2, Kind::Fields)?;
    Ok(Call::Take(processor(vcpus, arg(fields, 1))?))
}

/// `show VCPU`
#[tactic(auto, unfolding(crate::specs::Calls::show_of))]
fn show_of(vcpus: u16, fields: &[&[u8]]) -> Result<Call, Kind>
    ensures { result ≡ spec.show_of vcpus (map (λ f. f.now) fields.now) }
{
    ensure(fields.len() == 2, Kind::Fields)?;
    Ok(Call::Show(processor(vcpus, arg(fields, 1))?))
}

/// `best VCPU MASK`, a mask below 256.
#[tactic(auto, unfolding(crate::specs::Calls::best_of))]
fn best_of(vcpus: u16, fields: &[&[u8]]) -> Result<Call, Kind>
    ensures { result ≡ spec.best_of vcpus (map (λ f. f.now) fields.now) }
{
    ensure(fields.len() == 3, Kind::Fields)?;
    let vcpu = processor(vcpus, arg(fields, 1))?;
    let mask = number_within(0, u64::from(u8::MAX), arg(fields, 2))?;
    Ok(Call::Best {
        vcpu,
        mask: mask as u8,
    })
}

/// `claim VCPU INTID`
#[tactic(auto, unfolding(crate::specs::Calls::claim_of))]
fn claim_of(vcpus: u16, fields: &[&[u8]]) -> Result<Call, Kind>
    ensures { result ≡ spec.claim_of vcpus (map (λ f. f.now) fields.now) }
{
    ensure(fields.len() == 3, Kind::Fields)?;
    let vcpu = processor(vcpus, arg(fields, 1))?;
    let intid = interrupt(arg(fields, 2))?;
    Ok(Call::Claim { vcpu, intid })
}

/// `poke ADDRESS BYTES`, of 1 to 64 bytes.
#[tactic(auto, unfolding(crate::specs::Calls::poke_of))]
fn poke_of(fields: &[&[u8]]) -> Result<Call, Kind>
    ensures { result ≡ spec.poke_of (map (λ f. f.now) fields.now) }
{
    ensure(fields.len() == 3, Kind::Fields)?;
    Ok(Call::Poke {
        addr: address(arg(fields, 1))?,
        bytes: few_bytes(arg(fields, 2))?,
    })
}

/// `word ADDRESS VALUE`: a write of 8 bytes, least significant byte first.
#[tactic(auto, unfolding(crate::specs::Calls::word_of))]
fn word_of(fields: &[&[u8]]) -> Result<Call, Kind>
    ensures { result ≡ spec.word_of (map (λ f. f.now) fields.now) }
{
    ensure(fields.len() == 3, Kind::Fields)?;
    let addr = address(arg(fields, 1))?;
    let value = any_number(arg(fields, 2))?;
    Ok(Call::Poke {
        addr,
        bytes: Bytes64::new(&value.to_le_bytes()),
    })
}

/// `command ADDRESS NAME ..`: a write of the command's 32 bytes.
#[tactic(auto, unfolding(crate::specs::Calls::command_call_of))]
fn command_call_of(fields: &[&[u8]]) -> Result<Call, Kind>
    ensures { result ≡ spec.command_call_of (map (λ f. f.now) fields.now) }
{
    let word = command_word_of(arg(fields, 2))?;
    ensure(fields.len() == command_fields(word), Kind::Fields)?;
    let addr = address(arg(fields, 1))?;
    let command = command_of(word, fields)?;
    Ok(Call::Poke {
        addr,
        bytes: Bytes64::new(&encode(&command)),
    })
}

/// `peek ADDRESS COUNT`, of 1 to 64 bytes.
#[tactic(auto, unfolding(crate::specs::Calls::peek_of))]
fn peek_of(fields: &[&[u8]]) -> Result<Call, Kind>
    ensures { result ≡ spec.peek_of (map (λ f. f.now) fields.now) }
{
    ensure(fields.len() == 3, Kind::Fields)?;
    let addr = address(arg(fields, 1))?;
    let count = number_within(1, 64, arg(fields, 2))?;
    Ok(Call::Peek {
        addr,
        count: count as u8,
    })
}

/// 4 or 8.
#[tactic(auto, unfolding(crate::specs::Calls::access_size))]
fn access_size(field: &[u8]) -> Result<u8, Kind>
    ensures value { result ≡ spec.access_size field.now }
    ensures either { IfOk result (λ size. (size ≡ 4) ⊎ (size ≡ 8)) }
{
    let size = number_within(4, 8, field)?;
    ensure(size == 4 || size == 8, Kind::Number)?;
    Ok(size as u8)
}

/// The largest number of so many bytes.
fn largest(size: u8) -> u64
    requires { (size ≡ 4) ⊎ (size ≡ 8) }
    ensures { result ≡ 2 ^ (8 * size) - 1 }
{
    if size == 8 {
        u64::MAX
    } else {
        u64::from(u32::MAX)
    }
}

/// `read OFFSET SIZE`, of 4 or 8 bytes.
#[tactic(auto, unfolding(crate::specs::Calls::read_of))]
fn read_of(its: u8, fields: &[&[u8]]) -> Result<Call, Kind>
    ensures { result ≡ spec.read_of its (map (λ f. f.now) fields.now) }
{
    ensure(fields.len() == 3, Kind::Fields)?;
    let off = number_within(0, u64::from(u32::MAX), arg(fields, 1))?;
    let size = access_size(arg(fields, 2))?;
    Ok(Call::ReadReg {
        its,
        off: off as u32,
        size,
    })
}

/// `write OFFSET SIZE VALUE`, of 4 or 8 bytes. The value has at most that many.
#[tactic(auto, unfolding(crate::specs::Calls::write_of))]
fn write_of(its: u8, fields: &[&[u8]]) -> Result<Call, Kind>
    ensures { result ≡ spec.write_of its (map (λ f. f.now) fields.now) }
{
    ensure(fields.len() == 4, Kind::Fields)?;
    let off = number_within(0, u64::from(u32::MAX), arg(fields, 1))?;
    let size = access_size(arg(fields, 2))?;
    let value = number_within(0, largest(size), arg(fields, 3))?;
    Ok(Call::WriteReg {
        its,
        off: off as u32,
        size,
        value,
    })
}

/// A read of an LPI register of a processor's redistributor.
#[tactic(auto, unfolding(crate::specs::Calls::rread_of))]
fn rread_of(vcpus: u16, fields: &[&[u8]]) -> Result<Call, Kind>
    ensures { result ≡ spec.rread_of vcpus (map (λ f. f.now) fields.now) }
{
    ensure(fields.len() == 4, Kind::Fields)?;
    let vcpu = processor(vcpus, arg(fields, 1))?;
    let off = number_within(0, u64::from(u32::MAX), arg(fields, 2))?;
    let size = access_size(arg(fields, 3))?;
    Ok(Call::ReadGicr {
        vcpu,
        off: off as u32,
        size,
    })
}

/// `rwrite VCPU OFFSET SIZE VALUE`: a write of an LPI register of a processor's redistributor.
#[tactic(auto, unfolding(crate::specs::Calls::rwrite_of))]
fn rwrite_of(vcpus: u16, fields: &[&[u8]]) -> Result<Call, Kind>
    ensures { result ≡ spec.rwrite_of vcpus (map (λ f. f.now) fields.now) }
{
    ensure(fields.len() == 5, Kind::Fields)?;
    let vcpu = processor(vcpus, arg(fields, 1))?;
    let off = number_within(0, u64::from(u32::MAX), arg(fields, 2))?;
    let size = access_size(arg(fields, 3))?;
    let value = number_within(0, largest(size), arg(fields, 4))?;
    Ok(Call::WriteGicr {
        vcpu,
        off: off as u32,
        size,
        value,
    })
}

/// `step`
#[tactic(auto, unfolding(crate::specs::Calls::step_of))]
fn step_of(its: u8, fields: &[&[u8]]) -> Result<Call, Kind>
    ensures { result ≡ spec.step_of its (map (λ f. f.now) fields.now) }
{
    ensure(fields.len() == 1, Kind::Fields)?;
    Ok(Call::Step { its })
}

/// `save`
#[tactic(auto, unfolding(crate::specs::Calls::save_of))]
fn save_of(fields: &[&[u8]]) -> Result<Call, Kind>
    ensures { result ≡ spec.save_of (map (λ f. f.now) fields.now) }
{
    ensure(fields.len() == 1, Kind::Fields)?;
    Ok(Call::Save)
}

/// `copy`
#[tactic(auto, unfolding(crate::specs::Calls::copy_of))]
fn copy_of(fields: &[&[u8]]) -> Result<Call, Kind>
    ensures { result ≡ spec.copy_of (map (λ f. f.now) fields.now) }
{
    ensure(fields.len() == 1, Kind::Fields)?;
    Ok(Call::Copy)
}

impl Draft {
    /// `dma REQUESTER ADDRESS BYTES`, of 1 to 64 bytes.
    #[tactic(auto, unfolding(crate::specs::Calls::dma_of))]
    fn dma_of(&self, fields: &[&[u8]]) -> Result<Call, Kind>
        ensures { result ≡ spec.dma_of (desc_so_far self.now) (map (λ f. f.now) fields.now) }
    {
        ensure(fields.len() == 4, Kind::Fields)?;
        let req = number_within(0, u64::from(u32::MAX), arg(fields, 1))? as u32;
        let addr = address(arg(fields, 2))?;
        let bytes = few_bytes(arg(fields, 3))?;
        Ok(Call::Dma {
            req,
            addr,
            bytes,
            route: self.route(req, addr, bytes.as_slice()),
        })
    }

    /// The call of a line with such a word, for the translator with a number where it is a
    /// translator's.
    #[tactic(auto, unfolding(crate::specs::Calls::call_of))]
    pub fn call_of(&self, its: u8, word: CallWord, fields: &[&[u8]]) -> Result<Call, Kind>
        ensures { result
            ≡ spec.call_of (desc_so_far self.now) its word (map (λ f. f.now) fields.now) }
    {
        let vcpus = self.pending.count();
        match word {
            CallWord::Signal => signal_of(its, fields),
            CallWord::Take => take_of(vcpus, fields),
            CallWord::Show => show_of(vcpus, fields),
            CallWord::Best => best_of(vcpus, fields),
            CallWord::Claim => claim_of(vcpus, fields),
            CallWord::Poke => poke_of(fields),
            CallWord::Word => word_of(fields),
            CallWord::Command => command_call_of(fields),
            CallWord::Peek => peek_of(fields),
            CallWord::Read => read_of(its, fields),
            CallWord::Write => write_of(its, fields),
            CallWord::Rread => rread_of(vcpus, fields),
            CallWord::Rwrite => rwrite_of(vcpus, fields),
            CallWord::Step => step_of(its, fields),
            CallWord::Save => save_of(fields),
            CallWord::Copy => copy_of(fields),
            CallWord::Dma => self.dma_of(fields),
        }
    }
}
