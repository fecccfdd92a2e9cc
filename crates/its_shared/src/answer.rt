//! The answer of a call that waits for nobody.
ghost use Rattle.std.specs.Prelude.{◌≡◌};
ghost use Rattle.its_shared.specs.Answers.{answer_of, answer_of_tried, answer_or_none};
ghost use Rattle.its_shared.specs.Answers.{answer_or_unheld, answer_or_unsaved};

use cmd_engine::Tried;
use guest_port::Unheld;
use its_migrate::Unsaved;
use its_turns::Attempt;
use its_types::Placed;
use std::alloc::AllocError;

/// What became of a call of a pass.
#[derive(Clone, Copy, Debug, PartialEq, Eq)]
pub enum Answer<T> {
    /// It was made.
    Made(Placed<T>),
    /// It was not: another pass has a part that it needs, or made a call meanwhile.
    Busy,
    /// It was not: all places are used.
    Spent,
    /// It was not: there was no memory for it.
    NoMemory,
    /// It was not: the guest would take more than it may.
    Full,
}

/// Of an attempt.
pub fn answered<T>(attempt: Attempt<T>) -> Answer<T>
    ensures { result ≡ answer_of attempt }
{
    match attempt {
        Attempt::Done(placed) => Answer::Made(placed),
        Attempt::Busy(_) | Attempt::Raced(_) => Answer::Busy,
        Attempt::Spent => Answer::Spent,
    }
}

/// Of an attempt for which there may have been no memory.
pub fn answered_if<T>(tried: Result<Attempt<T>, AllocError>) -> Answer<T>
    ensures { result ≡ answer_or_none tried }
{
    match tried {
        Ok(attempt) => answered(attempt),
        Err(_) => Answer::NoMemory,
    }
}

/// Of an attempt whose pages may not be held.
pub fn answered_held<T>(tried: Result<Attempt<T>, Unheld>) -> Answer<T>
    ensures { result ≡ answer_or_unheld tried }
{
    match tried {
        Ok(attempt) => answered(attempt),
        Err(Unheld::NoMemory) => Answer::NoMemory,
        Err(Unheld::Full) => Answer::Full,
    }
}

/// Of an attempt of a save, whose pages may not be held.
pub fn answered_saved<T>(tried: Result<Attempt<T>, Unsaved>) -> Answer<T>
    ensures { result ≡ answer_or_unsaved tried }
{
    match tried {
        Ok(attempt) => answered(attempt),
        Err(Unsaved::NoMemory) => Answer::NoMemory,
        Err(Unsaved::Full) => Answer::Full,
    }
}

/// Of a step, or of a write of the translator's registers.
pub fn answered_tried<T>(tried: Tried<T>) -> Answer<T>
    ensures { result ≡ answer_of_tried tried }
{
    match tried {
        Tried::Done(placed) => Answer::Made(placed),
        Tried::Busy(_) | Tried::Raced(_) | Tried::Late => Answer::Busy,
        Tried::Spent => Answer::Spent,
        Tried::NoMemory => Answer::NoMemory,
        Tried::Full => Answer::Full,
    }
}
