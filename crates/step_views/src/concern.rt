//! Which virtual processors a step concerns.
ghost use Rattle.std.specs.Prelude.{◌≡◌, ◌⊎◌, ◌||◌, ℕ, true, false, slice_get};
ghost use Rattle.its_plain.specs.Answer.{step_left};
ghost use Rattle.owned_machine.specs.Lent.{on};
ghost use Rattle.owned_machine.specs.Whole.{IsMachine};
ghost use Rattle.owned_parts.specs.Owned.{state_of_parts};
ghost use Rattle.owned_parts.specs.RedistSets.{is_in};
ghost use Rattle.owned_parts.specs.declared.redist_set.RedistSet.TheVariants.{Nothing};
ghost use Rattle.step_views.specs.Concern.{IsConcerned};
ghost use Rattle.step_views.specs.Lent.{IsNumber, IsTranslatorOf};

use crate::counts::runs;
use cmd_exec::{Met, Needed, meet, needs};
use guest_windows::Memory;
use owned_parts::{Parts, RedistSet, TranslatorRef};

/// The redistributors whose pending LPIs or configuration the next step of a translator reads or
/// changes: none where it is idle or its command is refused. Each other one is the same after it.
pub fn concerned(parts: &Parts, its: u8) -> RedistSet
    requires { IsMachine parts.now }
    ensures others { (vcpu : ℕ) → is_in result vcpu ≡ false →
        slice_get (step_left (state_of_parts parts.now) its).redistributors vcpu
        ≡ slice_get (state_of_parts parts.now).redistributors vcpu }
    ensures concerned { (vcpu : ℕ) → is_in result vcpu ≡ true
        → IsConcerned (state_of_parts parts.now) its vcpu }
{
    concerned_on(parts, &parts.memory, its)
}

/// The same of a step that is made on other memory.
pub fn concerned_on(parts: &Parts, memory: &Memory, its: u8) -> RedistSet
    requires { IsMachine parts.now }
    ensures others { (vcpu : ℕ) → is_in result vcpu ≡ false →
        slice_get (step_left (on memory.now (state_of_parts parts.now)) its).redistributors vcpu
        ≡ slice_get (state_of_parts parts.now).redistributors vcpu }
    ensures concerned { (vcpu : ℕ) → is_in result vcpu ≡ true
        → IsConcerned (on memory.now (state_of_parts parts.now)) its vcpu }
{
    match parts.in_place().translator(its) {
        Some(translator) => concerned_in(parts, memory, translator),
        None => RedistSet::Nothing,
    }
}

fn concerned_in(parts: &Parts, memory: &Memory, translator: TranslatorRef<'_>) -> RedistSet
    requires whole { IsMachine parts.now }
    requires there { IsTranslatorOf parts.now translator }
    ensures others { (i : ℕ) → IsNumber parts.now translator.entry i
        → (vcpu : ℕ) → is_in result vcpu ≡ false →
        slice_get (step_left (on memory.now (state_of_parts parts.now)) i).redistributors vcpu
        ≡ slice_get (state_of_parts parts.now).redistributors vcpu }
    ensures concerned { (i : ℕ) → IsNumber parts.now translator.entry i
        → (vcpu : ℕ) → is_in result vcpu ≡ true
        → IsConcerned (on memory.now (state_of_parts parts.now)) i vcpu }
{
    let TranslatorRef { regs, maps } = translator;
    match meet(regs, memory) {
        Met::Still(_) => RedistSet::Nothing,
        Met::Command(command) => {
            if runs(parts, memory, translator, &command) {
                of_both(needs(&command, regs, maps, &parts.layout.shape))
            } else {
                RedistSet::Nothing
            }
        }
    }
}

// The virtual processors of which either part is needed. A command needs parts of one kind.
fn of_both(needed: Needed) -> RedistSet
    requires { (needed.confs ≡ Nothing) ⊎ (needed.pends ≡ Nothing) }
    ensures { (vcpu : ℕ) → is_in result vcpu
        ≡ (is_in needed.confs vcpu || is_in needed.pends vcpu) }
{
    if needed.confs == RedistSet::Nothing {
        needed.pends
    } else {
        needed.confs
    }
}
