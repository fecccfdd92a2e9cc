//! Which parts of the machine a call read or changed, by what it was answered.
ghost use Rattle.std.specs.Prelude.{◌≡◌, ℕ, List, true};
ghost use Rattle.its_plain.specs.declared.call.Call.{Call};
ghost use Rattle.its_fit.specs.Commuting.{CommuteAsTold};
ghost use Rattle.its_fit.specs.Reaches as spec;
ghost use Rattle.its_fit.specs.Reaches.{IsBounded};

use crate::reach::{Numbers, Reach, are_apart, changes_of, is_message, pending_at, reach_of};
use crate::targets::sent_to;
use its_history::Text;
use its_plain::Call;

/// What is known of a call by what it was answered.
#[derive(Clone, Copy, Drop)]
pub struct Bounds {
    /// It reads or changes nothing else.
    reach: Reach,
    /// It changes nothing else.
    changes: Reach,
    /// It is a message to a translator.
    message: bool,
}

/// Whether two calls are known to commute: both are messages, each of which reads maps and what is
/// on and makes an LPI pending; or neither changes what the other reads or changes.
pub fn commute(one: Bounds, other: Bounds) -> bool
    ensures { result ≡ true → (c d : Call) (s t : List ℕ) → IsBounded c s one → IsBounded d t other
        → CommuteAsTold c s d t }
{
    if one.message && other.message {
        return true;
    }
    are_apart(one.changes, other.reach) && are_apart(other.changes, one.reach)
}

/// The bounds of a call that was answered so: a message by the virtual processor that its reply
/// names, any other whatever it was answered.
pub fn bounds_of(call: &Call, told: &Text) -> Bounds
    ensures { IsBounded call.now told.now result }
{
    if is_message(call) {
        let vcpus = sent_to(call, told);
        return Bounds {
            reach: Reach {
                pends: read_for(vcpus),
                ..reach_of(call)
            },
            changes: pending_at(vcpus),
            message: true,
        };
    }
    Bounds {
        reach: reach_of(call),
        changes: changes_of(call),
        message: false,
    }
}

/// The virtual processors whose LPIs a message read that was sent to some: where it was dropped,
/// any.
fn read_for(vcpus: Numbers) -> Numbers
    ensures { result ≡ spec.read_for vcpus }
{
    match vcpus {
        Numbers::Empty => Numbers::Every,
        Numbers::Single(vcpu) => Numbers::Single(vcpu),
        Numbers::Every => Numbers::Every,
    }
}
