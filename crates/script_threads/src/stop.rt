//! Why a call wasn't made.
ghost use Rattle.script_threads.specs.Asks as spec;

use its_turns::{NotMade, Spent};
use thiserror::Error;

/// Why a thread's call wasn't made.
#[derive(Clone, Copy, Debug, PartialEq, Eq, Error)]
pub enum Stop {
    /// All places of the history are used.
    #[error("all places are used")]
    Spent,
    /// The call takes memory, and there is none.
    #[error("out of memory")]
    NoMemory,
}

/// Why a port made no call.
pub trait Unmade {
    ghost use Rattle.std.specs.Prelude.{◌≡◌};
    ghost use Rattle.script_threads.specs.declared.stop.Stop.{Stop};

    // what it is to the thread
    ghost stop_is: { Self → Stop };

    /// What stops the thread.
    fn stop(self) -> Stop
        ensures { result ≡ stop_is self };
}

impl Unmade for Spent {
    ghost stop_is = { spec.stop_spent };

    fn stop(self) -> Stop {
        Stop::Spent
    }
}

impl Unmade for NotMade {
    ghost stop_is = { spec.stop_of };

    fn stop(self) -> Stop {
        match self {
            NotMade::Spent => Stop::Spent,
            NotMade::NoMemory => Stop::NoMemory,
        }
    }
}
