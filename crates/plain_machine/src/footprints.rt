//! The parts of a machine that a call reads or changes.
ghost use Rattle.std.specs.Prelude.{◌≡◌, ◌≤◌, ◌++◌, ◌∷◌, [], OnOk};
ghost use Rattle.its_types.specs.Ranges.{most_vcpus};
ghost use Rattle.its_types.specs.declared.machine.Part.TheVariants as part;
ghost use Rattle.its_plain.specs.Parts as parts;

use crate::state::State;
use gicr_regs::{GicrWrite, asked_by};
use gits_regs::Regs;
use its_command::{Command, decode};
use its_plain::{Call, Route};
use its_types::{Bases, DeviceId, EventId, Icid, Part, Profile, Vcpu};
use std::alloc::{AllocError, Global};

impl State {
    ghost use Rattle.std.specs.Prelude.{◌≡◌, ◌++◌, ◌∷◌, [], IfOk, OnOk, length, nat_lt};
    ghost use Rattle.std.specs.Prelude.{if◌then◌else◌};
    ghost use Rattle.its_types.specs.declared.machine.Part.TheVariants as part;
    ghost use Rattle.std.specs.Option.{option_map};
    ghost use Rattle.its_types.specs.Maps as maps;
    ghost use Rattle.gicr_regs.specs.Registers as registers;
    ghost use Rattle.its_plain.specs.Plain as plain;
    ghost use Rattle.its_plain.specs.Parts as parts;
    ghost use Rattle.its_plain.specs.Translation as translation;

    /// The parts that a call reads or changes in this state, in the order in which it asks for
    /// them. Some may stand twice.
    pub fn footprint(&self, alloc: Global, call: &Call) -> Result<Vec<Part>, AllocError>
        ensures { IfOk result (λ v. v.items ≡ parts.footprint self.now call.now) }
    {
        let mut found = Vec::new(alloc);
        self.add_footprint(&mut found, call)?;
        Ok(found)
    }

    #[tactic(auto, unfolding(its_plain::specs::Parts::footprint))]
    fn add_footprint(&self, found: &mut Vec<Part>, call: &Call) -> Result<(), AllocError>
        ensures { OnOk result
            (found.new.items ≡ found.old.items ++ parts.footprint self.now call.now) }
    {
        match *call {
            Call::Signal { its, dev, ev } => self.add_signal_parts(found, its, dev, ev),
            Call::Take(vcpu)
            | Call::Show(vcpu)
            | Call::Best { vcpu, .. }
            | Call::Claim { vcpu, .. } => add_redistributor(found, vcpu),
            Call::Poke { .. } | Call::Peek { .. } | Call::Copy => add_part(found, Part::Mem),
            Call::Dma { route, .. } => self.add_route_parts(found, route),
            Call::ReadReg { its, .. } | Call::WriteReg { its, .. } => {
                add_part(found, Part::Maps(its))
            }
            Call::ReadGicr { vcpu, .. } => add_part(found, Part::Conf(vcpu)),
            Call::WriteGicr {
                vcpu,
                off,
                size,
                value,
            } => self.add_write_parts(found, vcpu, off, size, value),
            Call::Step { its } => self.add_step_parts(found, its),
            Call::Save => self.add_every_part(found),
        }
    }

    fn add_step_parts(&self, found: &mut Vec<Part>, its: u8) -> Result<(), AllocError>
        ensures { OnOk result (found.new.items
            ≡ found.old.items ++ part.Maps its ∷ part.Mem ∷ parts.needed_next self.now its) }
    {
        add_part(found, Part::Maps(its))?;
        add_part(found, Part::Mem)?;
        self.add_needed_next(found, its)
    }

    fn add_every_part(&self, found: &mut Vec<Part>) -> Result<(), AllocError>
        ensures { OnOk result (found.new.items
            ≡ found.old.items ++ part.Mem ∷ parts.translators_below (length self.now.translators)
            ++ parts.confs_below (length self.now.redistributors)
            ++ parts.pends_below (length self.now.redistributors)) }
    {
        add_part(found, Part::Mem)?;
        add_translators(found, self.translators.len())?;
        add_confs(found, self.redistributors.len())?;
        add_pends(found, self.redistributors.len())
    }

    // Those of a write of a redistributor's LPI registers, by what it asks for.
    fn add_write_parts(
        &self,
        found: &mut Vec<Part>,
        vcpu: Vcpu,
        off: u32,
        size: u8,
        value: u64,
    ) -> Result<(), AllocError>
        ensures { OnOk result (found.new.items
            ≡ found.old.items ++ part.Conf vcpu ∷ parts.write_parts vcpu
            (registers.asked_by (plain.redistributor self.now vcpu.0).bases off size value)) }
    {
        add_part(found, Part::Conf(vcpu))?;
        add_parts_of_write(found, vcpu, asked_by(&self.bases(vcpu), off, size, value))
    }

    // The LPI registers of a virtual processor's redistributor, or those of none.
    fn bases(&self, vcpu: Vcpu) -> Bases
        ensures bases { result ≡ (plain.redistributor self.now vcpu.0).bases }
        ensures low { registers.AreLow result }
    {
        match self.redistributors.get(usize::from(vcpu.0)) {
            Some(redist) => redist.bases,
            None => Bases::off(),
        }
    }

    fn add_signal_parts(
        &self,
        found: &mut Vec<Part>,
        its: u8,
        dev: DeviceId,
        ev: EventId,
    ) -> Result<(), AllocError>
        ensures { OnOk result
            (found.new.items ≡ found.old.items ++ parts.signal_parts self.now its dev.0 ev.0) }
    {
        add_part(found, Part::Maps(its))?;
        add_pend_at(found, self.located_vcpu(its, dev, ev))
    }

    fn add_route_parts(&self, found: &mut Vec<Part>, route: Route) -> Result<(), AllocError>
        ensures { OnOk result
            (found.new.items ≡ found.old.items ++ parts.route_parts self.now route) }
    {
        match route {
            Route::Signal { its, dev, ev } => self.add_signal_parts(found, its, dev, ev),
            Route::Poke => add_part(found, Part::Mem),
            Route::NoRequester | Route::Frame => Ok(()),
        }
    }

    // The virtual processor that a message would go to.
    #[tactic(auto, unfolding(its_plain::specs::Translation::located))]
    fn located_vcpu(&self, its: u8, dev: DeviceId, ev: EventId) -> Option<Vcpu>
        ensures { result ≡ option_map (λ t. t.vcpu)
            (translation.located_target self.now its dev.0 ev.0) }
    {
        let translator = self.translators.get(usize::from(its))?;
        match translator.locate(dev, ev) {
            Ok(target) => Some(target.vcpu),
            Err(_) => None,
        }
    }

    // The parts of the command that a step meets.
    fn add_needed_next(&self, found: &mut Vec<Part>, its: u8) -> Result<(), AllocError>
        ensures { OnOk result
            (found.new.items ≡ found.old.items ++ parts.needed_next self.now its) }
    {
        let regs: Regs = self.regs(its);
        if !regs.enabled() || regs.queue_is_empty() {
            return Ok(());
        }
        let mut bytes = [0; 32];
        let memory = self.memory.guest();
        if memory.read(regs.queue_place(), &mut bytes).is_err() {
            return Ok(());
        }
        self.add_needed(found, its, &decode(&bytes))
    }

    #[tactic(auto, unfolding(its_plain::specs::Parts::needed))]
    fn add_needed(
        &self,
        found: &mut Vec<Part>,
        its: u8,
        command: &Command,
    ) -> Result<(), AllocError>
        ensures { OnOk result
            (found.new.items ≡ found.old.items ++ parts.needed self.now its command.now) }
    {
        match *command {
            Command::Movi { dev, ev, icid } => {
                add_pend_at(found, self.target_of_event(its, dev, ev))?;
                add_pend_at(found, self.collection(its, icid))
            }
            Command::Int { dev, ev } | Command::Clear { dev, ev } | Command::Discard { dev, ev } =>
                { add_pend_at(found, self.target_of_event(its, dev, ev)) }
            Command::Mapc {
                icid,
                target,
                valid: true,
            } => self.add_targets_of_mapc(found, its, icid, target.get()),
            Command::Movall { from, to } => self.add_both_targets(found, from.get(), to.get()),
            Command::Mapti { .. }
            | Command::Mapi { .. }
            | Command::Inv { .. }
            | Command::Invall { .. } => add_confs(found, usize::from(self.layout.shape.vcpus)),
            Command::Mapc { .. }
            | Command::Mapd { .. }
            | Command::Sync { .. }
            | Command::Unknown(_) => Ok(()),
        }
    }

    // The target of an event, where the event and its collection are mapped.
    fn target_of_event(&self, its: u8, dev: DeviceId, ev: EventId) -> Option<Vcpu>
        ensures { result ≡ parts.target_of_event (plain.maps_of self.now its) dev.0 ev.0 }
    {
        match self.event(its, dev, ev) {
            Some(event) => self.collection(its, event.get().icid),
            None => None,
        }
    }

    // The old target of a collection and the new one, where there is such a virtual processor.
    fn add_targets_of_mapc(
        &self,
        found: &mut Vec<Part>,
        its: u8,
        icid: Icid,
        to: u64,
    ) -> Result<(), AllocError>
        ensures { OnOk result (found.new.items
            ≡ found.old.items ++ (if nat_lt to self.now.layout.shape.vcpus then parts.moved_targets
            self.now.layout.shape.profile
            (maps.collection_of (plain.maps_of self.now its) icid.0) to else [])) }
    {
        if to >= u64::from(self.layout.shape.vcpus) {
            return Ok(());
        }
        let before = self.collection(its, icid);
        add_moved_targets(found, self.layout.shape.profile, before, Vcpu(to as u16))
    }

    // Both, where both are virtual processors.
    fn add_both_targets(&self, found: &mut Vec<Part>, from: u64, to: u64) -> Result<(), AllocError>
        ensures { OnOk result (found.new.items
            ≡ found.old.items ++ parts.both_targets self.now.layout.shape.vcpus from to) }
    {
        let vcpus = u64::from(self.layout.shape.vcpus);
        if from >= vcpus || to >= vcpus {
            return Ok(());
        }
        add_part(found, Part::Pend(Vcpu(from as u16)))?;
        add_part(found, Part::Pend(Vcpu(to as u16)))
    }
}

// ---- one part or several after others

fn add_part(found: &mut Vec<Part>, part: Part) -> Result<(), AllocError>
    ensures { OnOk result (found.new.items ≡ found.old.items ++ part ∷ []) }
{
    found.push(part)?;
    Ok(())
}

// Both parts of a redistributor.
fn add_redistributor(found: &mut Vec<Part>, vcpu: Vcpu) -> Result<(), AllocError>
    ensures { OnOk result
        (found.new.items ≡ found.old.items ++ parts.redistributor_parts vcpu) }
{
    add_part(found, Part::Conf(vcpu))?;
    add_part(found, Part::Pend(vcpu))
}

fn add_pend_at(found: &mut Vec<Part>, vcpu: Option<Vcpu>) -> Result<(), AllocError>
    ensures { OnOk result (found.new.items ≡ found.old.items ++ parts.pend_at vcpu) }
{
    match vcpu {
        Some(vcpu) => add_part(found, Part::Pend(vcpu)),
        None => Ok(()),
    }
}

// Memory where tables are read, and what is pending where LPIs are turned on or off.
fn add_parts_of_write(found: &mut Vec<Part>, vcpu: Vcpu, write: GicrWrite) -> Result<(), AllocError>
    ensures { OnOk result (found.new.items ≡ found.old.items ++ parts.write_parts vcpu write) }
{
    match write {
        GicrWrite::Enable => {
            add_part(found, Part::Mem)?;
            add_part(found, Part::Pend(vcpu))
        }
        GicrWrite::Disable => add_part(found, Part::Pend(vcpu)),
        GicrWrite::Reread(_) | GicrWrite::RereadAll => add_part(found, Part::Mem),
        GicrWrite::Ignored | GicrWrite::SetBases(_) => Ok(()),
    }
}

// In profile 2 the old target and the new one, where a mapped collection gets another.
fn add_moved_targets(
    found: &mut Vec<Part>,
    profile: Profile,
    before: Option<Vcpu>,
    to: Vcpu,
) -> Result<(), AllocError>
    ensures { OnOk result
        (found.new.items ≡ found.old.items ++ parts.moved_targets profile before to.0) }
{
    match (profile, before) {
        (Profile::Two, Some(from)) if from.0 != to.0 => {
            add_part(found, Part::Pend(from))?;
            add_part(found, Part::Pend(to))
        }
        _ => Ok(()),
    }
}

fn add_translators(found: &mut Vec<Part>, count: usize) -> Result<(), AllocError>
    requires { count ≤ 256 }
    ensures { OnOk result (found.new.items ≡ found.old.items ++ parts.translators_below count) }
{
    for its in 0..count {
        add_part(found, Part::Maps(its as u8))?;
    }
    Ok(())
}

fn add_confs(found: &mut Vec<Part>, count: usize) -> Result<(), AllocError>
    requires { count ≤ most_vcpus }
    ensures { OnOk result (found.new.items ≡ found.old.items ++ parts.confs_below count) }
{
    for vcpu in 0..count {
        add_part(found, Part::Conf(Vcpu(vcpu as u16)))?;
    }
    Ok(())
}

fn add_pends(found: &mut Vec<Part>, count: usize) -> Result<(), AllocError>
    requires { count ≤ most_vcpus }
    ensures { OnOk result (found.new.items ≡ found.old.items ++ parts.pends_below count) }
{
    for vcpu in 0..count {
        add_part(found, Part::Pend(Vcpu(vcpu as u16)))?;
    }
    Ok(())
}
