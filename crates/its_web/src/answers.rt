//! What the command `its` answers to the same bytes on its standard input.
ghost use Rattle.std.specs.Prelude.{◌≡◌, Some};
ghost use Rattle.its_answers.specs.Checked.{CheckCauses};
ghost use Rattle.its_answers.specs.Its.{ExplainCauses, RunCauses};
ghost use Rattle.its_web.specs.Answers.{IsCaused, code};

use crate::explain::{explain, report};
use its_answers::{Ending, Status, say_check};
use std::alloc::{AllocError, Global};

/// How many bytes there may be: 16 MiB.
const LIMIT: usize = 16_777_216;

/// A text with its status, or a status whose text is always the same.
#[derive(Drop)]
pub enum Answer {
    /// Of what was read.
    Answered(Ending),
    /// Of nothing.
    Refused(Status),
}

/// As `its run` answers them.
pub fn run_answer(alloc: Global, input: &[u8], order: u64) -> Answer
    ensures { IsCaused (RunCauses (Some input.now) ⊥) result }
{
    if input.len() > LIMIT {
        return Answer::Refused(Status::TooLong);
    }
    match report(alloc, input, order) {
        Ok(ending) => Answer::Answered(ending),
        Err(AllocError) => Answer::Refused(Status::Memory),
    }
}

/// As `its explain` answers them.
pub fn explain_answer(alloc: Global, input: &[u8], order: u64) -> Answer
    ensures { IsCaused (ExplainCauses (Some input.now) ⊥) result }
{
    if input.len() > LIMIT {
        return Answer::Refused(Status::TooLong);
    }
    match explain(alloc, input, order) {
        Ok(ending) => Answer::Answered(ending),
        Err(AllocError) => Answer::Refused(Status::Memory),
    }
}

/// As `its check` answers them.
pub fn check_answer(alloc: Global, input: &[u8]) -> Answer
    ensures { IsCaused (CheckCauses (Some input.now) ⊥) result }
{
    if input.len() > LIMIT {
        return Answer::Refused(Status::TooLong);
    }
    match say_check(alloc, input) {
        Ok(ending) => Answer::Answered(ending),
        Err(AllocError) => Answer::Refused(Status::Memory),
    }
}

/// The number of a status: that of the command's exit.
pub fn number_of(status: Status) -> u32
    ensures { result ≡ code status }
{
    match status {
        Status::Ok => 0,
        Status::ScriptRefused => 1,
        Status::WordsRefused => 2,
        Status::ReadFault => 3,
        Status::WriteFault => 4,
        Status::Memory => 5,
        Status::MachineRefused => 6,
        Status::MigrationRefused => 7,
        Status::Spent => 8,
        Status::TooLong => 9,
        Status::TraceDiffers => 10,
        Status::BadTrace => 11,
        Status::Undecided => 12,
    }
}
