//! An answer put where a caller wants it.
ghost use Rattle.std.specs.Prelude.{◌≡◌, ◌<◌, ◌≤◌, ◌++◌, drop, length, take};
ghost use Rattle.its_web.specs.Answers.{IsPut, status_of, text_of};

use crate::answers::{Answer, number_of};
use its_answers::refusal;

/// Puts as much of an answer's text as there is room for, and its length.
pub fn give(answer: &Answer, out: &mut [u8], len: &mut usize) -> u32
    ensures { IsPut (status_of answer.now) (text_of answer.now) result out.old out.new len.new }
{
    match answer {
        Answer::Answered(ending) => {
            put(ending.line.as_bytes(), out, len);
            number_of(ending.status)
        }
        Answer::Refused(status) => {
            put(refusal(*status).as_bytes(), out, len);
            number_of(*status)
        }
    }
}

fn put(text: &[u8], out: &mut [u8], len: &mut usize)
    ensures len { len.new ≡ length text.now }
    ensures whole { length text.now ≤ length out.old
        → out.new ≡ text.now ++ drop (length text.now) out.old }
    ensures part { length out.old < length text.now → out.new ≡ take (length out.old) text.now }
{
    let count = text.len();
    *len = count;
    if count <= out.len() {
        out[..count].copy_from_slice(text);
    } else {
        out.copy_from_slice(&text[..out.len()]);
    }
}
