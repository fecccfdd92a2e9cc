//! The redistributors that are in hand, each in two parts.
ghost use Rattle.std.specs.Prelude.{◌≡◌, ◌++◌, replicate, length};

use crate::pend::Pend;
use its_types::Vcpu;
use lpi_config::Conf;
use std::alloc::{AllocError, Global};
use std::marker::Model;

// A configuration in hand.
#[derive(Drop)]
struct HeldConf {
    conf: Box<Conf>,
}

impl Model for HeldConf {
    ghost use Rattle.lpi_config.specs.Conf.{Conf};
    ghost use Rattle.lpi_pending.specs.InHand.{held_conf_code};

    ghost Value = { Conf };

    ghost coded = { held_conf_code };

    ghost view = { λ h. h.conf.value };
}

impl HeldConf {
    ghost use Rattle.std.specs.Prelude.{◌≡◌};
    ghost use Rattle.std.specs.Borrow.{sem};
    ghost use Rattle.lpi_pending.specs.Lending.{LendsHeldConf};

    fn lend(&mut self) -> &mut Conf
        ensures* writes_back { sem 𝓛 (LendsHeldConf self.entry result) }
        ensures value { self.old ≡ result.now }
    {
        &mut self.conf
    }
}

// What is pending, in hand.
#[derive(Drop)]
struct HeldPend {
    pend: Box<Pend>,
}

impl Model for HeldPend {
    ghost use Rattle.lpi_pending.specs.Pend.{Pend};
    ghost use Rattle.lpi_pending.specs.InHand.{held_pend_code};

    ghost Value = { Pend };

    ghost coded = { held_pend_code };

    ghost view = { λ h. h.pend.value };
}

impl HeldPend {
    ghost use Rattle.std.specs.Prelude.{◌≡◌};
    ghost use Rattle.std.specs.Borrow.{sem};
    ghost use Rattle.lpi_pending.specs.Lending.{LendsHeldPend};

    fn lend(&mut self) -> &mut Pend
        ensures* writes_back { sem 𝓛 (LendsHeldPend self.entry result) }
        ensures value { self.old ≡ result.now }
    {
        &mut self.pend
    }
}

/// Places for the redistributors of a machine's virtual processors, of each for both parts. A place
/// holds one part, which is then in hand, or is empty.
#[derive(Drop)]
pub struct Redists {
    confs: Vec<Option<HeldConf>>,
    pends: Vec<Option<HeldPend>>,
}

impl Model for Redists {
    ghost use Rattle.lpi_pending.specs.InHand.{RedistParts, redist_parts_code};

    ghost Value = { RedistParts };

    ghost coded = { redist_parts_code };

    ghost view = { λ r. record { confs = r.confs.items; pends = r.pends.items } };
}

impl Redists {
    ghost use Rattle.std.specs.Prelude.{◌≡◌, ◌<◌, Some, None, IfOk, is_some, true, length};
    ghost use Rattle.std.specs.Borrow.{sem};
    ghost use Rattle.lpi_pending.specs.InHand.{conf_in, pend_in, set_conf, set_pend, no_redists};
    ghost use Rattle.lpi_pending.specs.Lending.{LendsConf, LendsPend};

    /// Empty places for so many virtual processors.
    pub fn with_room(alloc: Global, vcpus: u16) -> Result<Redists, AllocError>
        ensures { IfOk result (λ r. r ≡ no_redists vcpus) }
    {
        let mut confs = Vec::new(alloc);
        let mut pends = Vec::new(alloc);
        for _ in 0..vcpus {
            confs.push(None)?;
            pends.push(None)?;
        }
        Ok(Redists { confs, pends })
    }

    /// Puts a configuration into its empty place.
    pub fn place_conf(&mut self, vcpu: Vcpu, conf: Box<Conf>)
        requires in_range { vcpu.0 < length self.old.confs }
        requires empty { conf_in self.old vcpu.0 ≡ None }
        ensures placed { self.new ≡ set_conf self.old vcpu.0 (Some conf.value) }
        ensures room { length self.new.confs ≡ length self.old.confs }
    {
        self.confs[usize::from(vcpu.0)] = Some(HeldConf { conf });
    }

    /// Puts what is pending into its empty place.
    pub fn place_pend(&mut self, vcpu: Vcpu, pend: Box<Pend>)
        requires in_range { vcpu.0 < length self.old.pends }
        requires empty { pend_in self.old vcpu.0 ≡ None }
        ensures placed { self.new ≡ set_pend self.old vcpu.0 (Some pend.value) }
        ensures room { length self.new.pends ≡ length self.old.pends }
    {
        self.pends[usize::from(vcpu.0)] = Some(HeldPend { pend });
    }

    /// Takes a configuration that is in hand, and leaves its place empty.
    pub fn take_conf(&mut self, vcpu: Vcpu) -> Box<Conf>
        requires { is_some (conf_in self.old vcpu.0) ≡ true }
        ensures value { conf_in self.old vcpu.0 ≡ Some result.value }
        ensures taken { self.new ≡ set_conf self.old vcpu.0 None }
        ensures room { length self.new.confs ≡ length self.old.confs }
    {
        match self.confs[vcpu.0 as usize].take() {
            Some(HeldConf { conf }) => conf,
            None => unreachable!(),
        }
    }

    /// Takes what is pending and in hand, and leaves its place empty.
    pub fn take_pend(&mut self, vcpu: Vcpu) -> Box<Pend>
        requires { is_some (pend_in self.old vcpu.0) ≡ true }
        ensures value { pend_in self.old vcpu.0 ≡ Some result.value }
        ensures taken { self.new ≡ set_pend self.old vcpu.0 None }
        ensures room { length self.new.pends ≡ length self.old.pends }
    {
        match self.pends[vcpu.0 as usize].take() {
            Some(HeldPend { pend }) => pend,
            None => unreachable!(),
        }
    }

    /// A configuration that is in hand.
    pub fn conf(&self, vcpu: Vcpu) -> &Conf
        requires { is_some (conf_in self.now vcpu.0) ≡ true }
        ensures { conf_in self.now vcpu.0 ≡ Some result.now }
    {
        match &self.confs[vcpu.0 as usize] {
            Some(held) => &held.conf,
            None => unreachable!(),
        }
    }

    /// What is pending, and in hand.
    pub fn pend(&self, vcpu: Vcpu) -> &Pend
        requires { is_some (pend_in self.now vcpu.0) ≡ true }
        ensures { pend_in self.now vcpu.0 ≡ Some result.now }
    {
        match &self.pends[vcpu.0 as usize] {
            Some(held) => &held.pend,
            None => unreachable!(),
        }
    }

    /// A configuration that is in hand, to be changed.
    pub fn conf_mut(&mut self, vcpu: Vcpu) -> &mut Conf
        requires { is_some (conf_in self.old vcpu.0) ≡ true }
        ensures* writes_back { sem 𝓛 (LendsConf self.entry vcpu.0 result) }
        ensures value { conf_in self.old vcpu.0 ≡ Some result.now }
    {
        let place = &mut self.confs[vcpu.0 as usize];
        let held = place.as_mut().unwrap();
        held.lend()
    }

    /// What is pending, and in hand, to be changed.
    pub fn pend_mut(&mut self, vcpu: Vcpu) -> &mut Pend
        requires { is_some (pend_in self.old vcpu.0) ≡ true }
        ensures* writes_back { sem 𝓛 (LendsPend self.entry vcpu.0 result) }
        ensures value { pend_in self.old vcpu.0 ≡ Some result.now }
    {
        let place = &mut self.pends[vcpu.0 as usize];
        let held = place.as_mut().unwrap();
        held.lend()
    }
}
