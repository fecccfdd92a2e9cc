//! The lines of a description that say what is restored.
ghost use Rattle.std.specs.Prelude.{◌≡◌, map};
ghost use Rattle.event_script.specs.Outcome.{Gives};
ghost use Rattle.event_script.specs.Description as spec;

use crate::draft::Draft;
use crate::fault::{Kind, LineError, ensure};
use crate::fields::{any_number, arg, processor};
use gicr_regs::GicrRegisters;
use gits_regs::RegValues;

impl Draft {
    /// `restore CTLR CBASER CREADR CWRITER BASER0 BASER1`, at most once.
    #[tactic(auto, unfolding(crate::specs::Description::restore_line))]
    pub fn restore_line(&mut self, fields: &[&[u8]]) -> Result<(), LineError>
        ensures { Gives (λ _. self.new) result
            (spec.restore_line self.old (map (λ f. f.now) fields.now)) }
    {
        let first = self.describes() && self.first.restore.is_none();
        ensure(first, Kind::Order)?;
        ensure(fields.len() == 7, Kind::Fields)?;
        self.first.restore = Some(register_values(fields)?);
        Ok(())
    }

    /// `brestore CTLR CBASER CREADR CWRITER BASER0 BASER1`, the second translator's; at most once.
    #[tactic(auto, unfolding(crate::specs::Description::brestore_line))]
    pub fn brestore_line(&mut self, fields: &[&[u8]]) -> Result<(), LineError>
        ensures { Gives (λ _. self.new) result
            (spec.brestore_line self.old (map (λ f. f.now) fields.now)) }
    {
        let first = self.describes() && self.pair && self.second.restore.is_none();
        ensure(first, Kind::Order)?;
        ensure(fields.len() == 7, Kind::Fields)?;
        self.second.restore = Some(register_values(fields)?);
        Ok(())
    }

    /// Whether registers to restore may be given for redistributors.
    fn restores_registers(&self) -> bool
        ensures { result ≡ spec.restores_registers self.now }
    {
        self.describes() && self.gicr && self.first.restore.is_some()
    }

    /// `rrestore VCPU CTLR PROPBASER PENDBASER`, after `gicr` and `restore`, at most once for each
    /// processor.
    #[tactic(auto, unfolding(crate::specs::Description::rrestore_line))]
    pub fn rrestore_line(&mut self, fields: &[&[u8]]) -> Result<(), LineError>
        ensures { Gives (λ _. self.new) result
            (spec.rrestore_line self.old (map (λ f. f.now) fields.now)) }
    {
        let again = self.registers.is_given_at(arg(fields, 1));
        ensure(self.restores_registers() && !again, Kind::Order)?;
        ensure(fields.len() == 5, Kind::Fields)?;
        let vcpu = processor(self.registers.count(), arg(fields, 1))?;
        let values = redistributor_values(fields)?;
        self.registers.give(vcpu, values);
        Ok(())
    }

    /// `from-kvm`: KVM saved what is restored; after `restore`, at most once.
    #[tactic(auto, unfolding(crate::specs::Description::from_kvm_line))]
    pub fn from_kvm_line(&mut self, fields: &[&[u8]]) -> Result<(), LineError>
        ensures { Gives (λ _. self.new) result
            (spec.from_kvm_line self.old (map (λ f. f.now) fields.now)) }
    {
        let restored = self.describes() && self.first.restore.is_some();
        ensure(restored && !self.from_kvm, Kind::Order)?;
        ensure(fields.len() == 1, Kind::Fields)?;
        self.from_kvm = true;
        Ok(())
    }
}

/// The registers to restore, in the order of a line's fields.
#[tactic(auto, unfolding(crate::specs::Description::register_values))]
fn register_values(fields: &[&[u8]]) -> Result<RegValues, Kind>
    ensures { result ≡ spec.register_values (map (λ f. f.now) fields.now) }
{
    Ok(RegValues {
        ctlr: any_number(arg(fields, 1))?,
        cbaser: any_number(arg(fields, 2))?,
        creadr: any_number(arg(fields, 3))?,
        cwriter: any_number(arg(fields, 4))?,
        baser0: any_number(arg(fields, 5))?,
        baser1: any_number(arg(fields, 6))?,
    })
}

/// The registers of a redistributor, in the order of a line's fields.
#[tactic(auto, unfolding(crate::specs::Description::redistributor_values))]
fn redistributor_values(fields: &[&[u8]]) -> Result<GicrRegisters, Kind>
    ensures { result ≡ spec.redistributor_values (map (λ f. f.now) fields.now) }
{
    Ok(GicrRegisters {
        ctlr: any_number(arg(fields, 2))?,
        propbaser: any_number(arg(fields, 3))?,
        pendbaser: any_number(arg(fields, 4))?,
    })
}
