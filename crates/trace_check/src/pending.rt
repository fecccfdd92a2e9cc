//! What a report says is pending.
ghost use Rattle.std.specs.Prelude.{◌≡◌, IfOk, IfSome, IfNone, length};
ghost use Rattle.trace_check.specs.Differences.{pending_texts};
ghost use Rattle.trace_check.specs.Steps.{IsOtherPending};

use its_history::{Text, pending_text, vcpu_text};
use owned_machine::Machine;
use std::alloc::{AllocError, Global};

/// The line of a virtual processor, as it is said and as it is.
#[derive(Drop)]
pub struct OtherLine {
    /// As the report has it.
    pub said: Text,
    /// As the machine has it.
    pub is: Text,
}

/// The first line that isn't right, of those of the virtual processors.
pub fn check_pending(
    alloc: Global,
    machine: &Machine,
    told: &[Text],
) -> Result<Option<OtherLine>, AllocError>
    requires { length told.now ≡ length machine.now.redistributors }
    ensures right { IfOk result (λ r. IfNone r (told.now ≡ pending_texts machine.now)) }
    ensures wrong { IfOk result (λ r. IfSome r (λ o.
        IsOtherPending machine.now told.now o.said o.is)) }
{
    for (vcpu, said) in told.iter().enumerate() {
        let lpis = machine.pending(alloc, vcpu)?;
        let is = pending_text(alloc, &lpis)?;
        if said.as_str() != is.as_str() {
            let said = vcpu_text(alloc, vcpu as u64, said)?;
            let is = vcpu_text(alloc, vcpu as u64, &is)?;
            return Ok(Some(OtherLine { said, is }));
        }
    }
    Ok(None)
}
