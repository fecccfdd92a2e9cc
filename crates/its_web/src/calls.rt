//! The calls of a page.
ghost use Rattle.std.specs.Prelude.{Some};
ghost use Rattle.its_answers.specs.Checked.{CheckCauses};
ghost use Rattle.its_answers.specs.Its.{ExplainCauses, RunCauses};
ghost use Rattle.its_web.specs.Answers.{IsGiven};

use crate::answers::{check_answer, explain_answer, run_answer};
use crate::out::give;
use std::alloc::Global;

/// Runs a script, as `its run` does: `order` says whose call comes next where threads run beside
/// each other, and at 0 they come one after another. `out` gets the beginning of the text that `its`
/// would print, as much as it has room for, and `len` the text's length. The status is that of the
/// command's exit.
#[unsafe(no_mangle)]
pub extern "C" fn its_web_run(
    alloc: Global,
    input: &[u8],
    order: u64,
    out: &mut [u8],
    len: &mut usize,
) -> u32
    ensures { IsGiven (RunCauses (Some input.now) ⊥) result out.old out.new len.new }
{
    let answer = run_answer(alloc, input, order);
    give(&answer, out, len)
}

/// Explains a script's run, or a script and a report, as `its explain` does.
#[unsafe(no_mangle)]
pub extern "C" fn its_web_explain(
    alloc: Global,
    input: &[u8],
    order: u64,
    out: &mut [u8],
    len: &mut usize,
) -> u32
    ensures { IsGiven (ExplainCauses (Some input.now) ⊥) result out.old out.new len.new }
{
    let answer = explain_answer(alloc, input, order);
    give(&answer, out, len)
}

/// Checks a script and a report, as `its check` does.
#[unsafe(no_mangle)]
pub extern "C" fn its_web_check(alloc: Global, input: &[u8], out: &mut [u8], len: &mut usize) -> u32
    ensures { IsGiven (CheckCauses (Some input.now) ⊥) result out.old out.new len.new }
{
    let answer = check_answer(alloc, input);
    give(&answer, out, len)
}
