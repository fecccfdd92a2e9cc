//! A step's answer as numbers.
ghost use Rattle.std.specs.Prelude.{◌≡◌};
ghost use Rattle.its_shared.specs.Concerns.{HaveBitsOf, untold_answer};
ghost use Rattle.its_shared.specs.Telling as spec;

use crate::answer::Answer;
use cmd_engine::Stepped;
use its_numbers::{BUSY, DONE, FULL, NO_MEMORY, SPENT, StepOut, concerned_words, step_out};

/// A step's, and whom it concerned.
pub fn tell_step(answer: Answer<Stepped>, place: &mut u64, out: &mut StepOut) -> u32
    ensures code { result ≡ spec.code_of spec.is_done answer }
    ensures place { place.new ≡ spec.place_after answer place.old }
    ensures out { out.new ≡ spec.out_after (spec.as_told (spec.step_told out.new.concerned))
        (untold_answer answer) out.old }
    ensures concerned { HaveBitsOf out.new.concerned answer }
{
    match answer {
        Answer::Made(placed) => {
            *place = placed.place;
            let step = placed.reply;
            *out = step_out(step.reply, concerned_words(step.concerned));
            DONE
        }
        Answer::Busy => BUSY,
        Answer::Spent => SPENT,
        Answer::NoMemory => NO_MEMORY,
        Answer::Full => FULL,
    }
}
