//! What holds of every script.
ghost use Rattle.std.specs.Prelude.{◌≡◌, ℕ, List, IfOk, Ok, length, true};
ghost use Rattle.its_types.specs.declared.ids.Addr.{Addr};
ghost use Rattle.its_plain.specs.Doorbells.{dma_of};
ghost use Rattle.its_plain.specs.Machine.{made};
ghost use Rattle.its_plain.specs.Plain.{Plain};
ghost use Rattle.its_plain.specs.declared.call.Call.TheVariants as call;
ghost use Rattle.its_plain.specs.declared.call.Route.{Route};
ghost use Rattle.its_plain.specs.declared.desc.Desc.{Desc};
ghost use Rattle.event_script.specs.Limits.{IsWithinLimits, is_call};
ghost use Rattle.event_script.specs.Routes.{HasIts, said_route};
ghost use Rattle.event_script.specs.Script.{check_of, script_of};

/// A script has no more of anything than it may have, and each field of its calls is in its range.
pub fn scripts_are_within_limits()
    ensures { (bytes : List ℕ) → IfOk (script_of bytes) IsWithinLimits }
{}

/// The same of a script that a report follows.
pub fn checked_scripts_are_within_limits()
    ensures { (bytes : List ℕ) → IfOk (check_of bytes) (λ input. IsWithinLimits input.0) }
{}

/// Where a machine can be made of the description, a device's write is routed by it. A requester of
/// any other description may have a device past the last one.
pub fn writes_are_routed_by_the_description()
    ensures { (d : Desc) (u : Plain) (req : ℕ) (addr : Addr) (bytes : List ℕ) (route : Route)
        → made d ≡ Ok u → is_call d (call.Dma req addr bytes route) ≡ true
        → call.Dma req addr bytes route ≡ dma_of d req addr bytes }
{}

/// A message by address goes to a translator of the description.
pub fn messages_have_a_translator()
    ensures { (d : Desc) (req address : ℕ) (bytes : List ℕ)
        → HasIts (length d.translators) (said_route d req address bytes) }
{}
